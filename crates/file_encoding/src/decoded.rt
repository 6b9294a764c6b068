//! The padded text of a file, decoded from shares of it.

ghost use Rattle.std.specs.Prelude.{◌≡◌, ◌<◌, ◌⊎◌, ℕ, List, [], All, length, map, slice_index};
ghost use Rattle.std.specs.Prelude.{◌≤◌, slice_index_or, false, IfOk, IfErr, IsErrAnd};
ghost use Rattle.std.specs.Prelude.{◌↔◌, IsErrOf, IsTrue};
ghost use Rattle.cap_text.specs.Cap.{VerifyCapValue};
ghost use Rattle.ueb.specs.Limits.{max_length};
ghost use Rattle.share_layout.specs.Geometry.{segment_count};
ghost use Rattle.share_layout.specs.Offsets.{LocatesUeb};
ghost use Rattle.share_layout.specs.Share.{IsShare, Sections};
ghost use Rattle.file_encoding.specs.Decoded.{IsDecodedFrom, decoded_state};
ghost use Rattle.file_encoding.specs.Decoding.{AreBlocks};
ghost use Rattle.file_encoding.specs.Encoding.{Parameters};
ghost use Rattle.file_encoding.specs.GoodShares.{AreEnoughGoodShares};
ghost use Rattle.file_encoding.specs.LowestShares.{HaveBlocks, TakesAt};
ghost use Rattle.file_encoding.specs.Reading.{AreInconsistent, GivesCiphertext, HasWrongSegment};
ghost use Rattle.file_encoding.specs.Reading.{LacksShares};
ghost use Rattle.file_encoding.specs.Regenerated.{DecodeTo};

use crate::decoding::decode_padded;
use crate::reading::ReadError;
use crate::selection::take_lowest;
use cap_text::VerifyCap;
use share_layout::{Geometry, ShareView, locate_ueb};
use share_verify::{leaves_in, read_share};
use std::alloc::{AllocError, Global};
use std::marker::Model;

/// A file as shares of it give it: its padded text, and what all its shares have in common. It
/// holds none of the shares.
#[derive(Drop)]
pub struct DecodedFile {
    pub(crate) geometry: Geometry,
    pub(crate) text: Vec<u8>,
    /// Of the ciphertext tree.
    pub(crate) leaves: Vec<[u8; 32]>,
    pub(crate) share_root: [u8; 32],
    pub(crate) extension_block: Vec<u8>,
}

impl Model for DecodedFile {
    ghost use Rattle.file_encoding.specs.Decoded.{DecodedState, IsWholeText, decoded_state};

    ghost Value = { DecodedState };

    ghost view = { λ d. decoded_state d.geometry d.text.items d.leaves.items d.share_root
        d.extension_block.items };

    ghost invariant = { λ d. IsWholeText (decoded_state d.geometry d.text.items d.leaves.items
        d.share_root d.extension_block.items) };
}

impl DecodedFile {
    /// The ciphertext: the text without its padding.
    pub(crate) fn into_ciphertext(self) -> Vec<u8>
        ensures { (cap : VerifyCapValue) (numbers : List ℕ) (strings : List (List ℕ))
            → IsDecodedFrom cap numbers strings self
            → GivesCiphertext cap numbers strings result.items }
    {
        let mut text = self.text;
        text.truncate(self.geometry.size() as usize);
        text
    }
}

/// The text of a verify cap's file, decoded from shares that come with their numbers, each in the
/// string that it is said to be. They may be let go then.
///
/// Taken are those that `read_from` takes, with the same refusals.
pub fn decode_shares(
    alloc: Global,
    cap: &VerifyCap,
    shares: &[(u16, &[u8])],
) -> Result<DecodedFile, ReadError>
    ensures decoded { IfOk result (λ file. IsDecodedFrom cap.now (map (λ s. s.0) shares.now)
        (map (λ s. s.1.now) shares.now) file) }
    // Enough good shares of an encoding are always decoded, but where no memory is left.
    ensures good { (file secret : List ℕ) (p : Parameters) → AreEnoughGoodShares file secret p
        cap.now (map (λ s. s.0) shares.now) (map (λ s. s.1.now) shares.now)
        → IfErr result (λ e. e ≡ ReadError.OutOfMemory) }
    ensures not_enough { IsErrOf result ReadError.NotEnoughShares
        → LacksShares cap.now (map (λ s. s.0) shares.now) (map (λ s. s.1.now) shares.now) }
    // Of too few shares nothing else comes, but where no memory is left.
    ensures lacking { LacksShares cap.now (map (λ s. s.0) shares.now)
        (map (λ s. s.1.now) shares.now)
        → IsErrAnd result (λ e. (e ≡ ReadError.NotEnoughShares) ⊎ (e ≡ ReadError.OutOfMemory)) }
    ensures inconsistent { IsErrOf result ReadError.Inconsistent
        → AreInconsistent cap.now (map (λ s. s.0) shares.now) (map (λ s. s.1.now) shares.now) }
{
    let positions = take_lowest(alloc, cap, shares)?;
    if positions.len() < usize::from(cap.needed()) {
        return Err(ReadError::NotEnoughShares);
    }
    decode_taken(alloc, cap, shares, &positions)
}

// The text of the shares at these positions, which are as many as are needed.
fn decode_taken(
    alloc: Global,
    cap: &VerifyCap,
    shares: &[(u16, &[u8])],
    positions: &[usize],
) -> Result<DecodedFile, ReadError>
    requires takes { TakesAt cap.now (map (λ s. s.0) shares.now) (map (λ s. s.1.now) shares.now)
        positions.now }
    requires some { 0 < length positions.now }
    requires inside { All (λ p. p < length shares.now) positions.now }
    ensures decoded { IfOk result (λ file. IsDecodedFrom cap.now (map (λ s. s.0) shares.now)
        (map (λ s. s.1.now) shares.now) file) }
    ensures inconsistent { IsErrOf result ReadError.Inconsistent
        → AreInconsistent cap.now (map (λ s. s.0) shares.now) (map (λ s. s.1.now) shares.now) }
    ensures no_other { IfErr result (λ e. (e ≡ ReadError.OutOfMemory)
        ⊎ (e ≡ ReadError.Inconsistent)) }
{
    let (number, string) = shares[positions[0]];
    let Ok(first) = read_share(cap, number, string) else {
        unreachable!();
    };
    let view = first.view;
    if !agree(shares, positions, view.extension_block) {
        return Err(ReadError::Inconsistent);
    }
    let blocks = all_blocks(alloc, shares, positions, &first.geometry)?;
    let leaves = leaves_in(view.ciphertext_tree, first.geometry.segment_count());
    let root = first.ueb.share_root_hash();
    decode_blocks(
        alloc,
        &first.geometry,
        &blocks,
        leaves,
        root,
        view.extension_block,
    )
}

// The text that blocks of shares decode to, with a copy of what the shares have in common.
fn decode_blocks(
    alloc: Global,
    geometry: &Geometry,
    blocks: &[(u16, &[u8])],
    leaves: &[[u8; 32]],
    share_root: &[u8; 32],
    extension_block: &[u8],
) -> Result<DecodedFile, ReadError>
    requires blocks { AreBlocks geometry.now (map (λ s. s.0) blocks.now)
        (map (λ s. s.1.now) blocks.now) }
    requires leaves { length leaves.now ≡ segment_count geometry.now }
    requires short { length extension_block.now ≤ max_length }
    ensures decoded { IfOk result (λ file. DecodeTo geometry.now (map (λ s. s.0) blocks.now)
        (map (λ s. s.1.now) blocks.now) file.text × (file ≡ decoded_state geometry.now
        file.text leaves.now share_root.now extension_block.now)) }
    ensures inconsistent { IsErrOf result ReadError.Inconsistent
        → HasWrongSegment geometry.now (map (λ s. s.0) blocks.now)
        (map (λ s. s.1.now) blocks.now) leaves.now }
    ensures no_other { IfErr result (λ e. (e ≡ ReadError.OutOfMemory)
        ⊎ (e ≡ ReadError.Inconsistent)) }
{
    let text = decode_padded(alloc, geometry, blocks, leaves)?;
    Ok(DecodedFile {
        geometry: *geometry,
        text,
        leaves: Vec::from_slice(alloc, leaves)?,
        share_root: *share_root,
        extension_block: Vec::from_slice(alloc, extension_block)?,
    })
}

// Whether the shares at these positions have this extension block.
fn agree(shares: &[(u16, &[u8])], positions: &[usize], extension_block: &[u8]) -> bool
    requires { All (λ p. p < length shares.now) positions.now }
    ensures yes { IsTrue result → (m : ℕ) → m < length positions.now
        → LocatesUeb (slice_index_or (map (λ s. s.1.now) shares.now)
        (slice_index positions.now m) []) extension_block.now }
    ensures no { result ≡ false → (m : ℕ) × (m < length positions.now)
        × ¬ LocatesUeb (slice_index_or (map (λ s. s.1.now) shares.now)
        (slice_index positions.now m) []) extension_block.now }
{
    for position in positions {
        let (_, string) = shares[*position];
        if !has_block(string, extension_block) {
            return false;
        }
    }
    true
}

// Whether a share has this extension block, by its own header.
fn has_block(share: &[u8], extension_block: &[u8]) -> bool
    ensures { IsTrue result ↔ LocatesUeb share.now extension_block.now }
{
    match locate_ueb(share) {
        Ok(other) => other == extension_block,
        Err(_) => false,
    }
}

// The blocks of the shares at these positions, each with its share's number.
fn all_blocks<'a>(
    alloc: Global,
    shares: &[(u16, &'a [u8])],
    positions: &[usize],
    geometry: &Geometry,
) -> Result<Vec<(u16, &'a [u8])>, AllocError>
    requires inside { All (λ p. p < length shares.now) positions.now }
    requires readable { (m : ℕ) → m < length positions.now → (s : Sections)
        × IsShare geometry.now (slice_index (map (λ s. s.0) shares.now)
        (slice_index positions.now m))
        (slice_index_or (map (λ s. s.1.now) shares.now) (slice_index positions.now m) []) s }
    ensures { IfOk result (λ blocks. HaveBlocks geometry.now (map (λ s. s.0) shares.now)
        (map (λ s. s.1.now) shares.now) positions.now
        (map (λ s. s.0) blocks.items) (map (λ s. s.1.now) blocks.items)) }
{
    let mut blocks = Vec::with_capacity(alloc, positions.len())?;
    for position in positions {
        let (number, string) = shares[*position];
        blocks.push((number, share_blocks(string, number, geometry)))?;
    }
    Ok(blocks)
}

// The blocks of a share of a file with this geometry.
fn share_blocks<'a>(share: &'a [u8], number: u16, geometry: &Geometry) -> &'a [u8]
    requires { (s : Sections) × IsShare geometry.now number share.now s }
    ensures { (s : Sections) → IsShare geometry.now number share.now s → result.now ≡ s.blocks }
{
    let Ok(view) = ShareView::read(share, number, geometry) else {
        unreachable!();
    };
    view.blocks
}
