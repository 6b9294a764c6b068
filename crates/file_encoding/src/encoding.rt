// Files, encoded whole.

ghost use Rattle.std.specs.Prelude.{◌≡◌, ◌≤◌, ◌<◌, ◌+◌, ◌*◌, ◌^◌, ◌%◌, ◌++◌, ℕ, List, [], length};
ghost use Rattle.std.specs.Prelude.{map, IfOk, IfErr, IsErrOf, IsOk, IsOkUnless, ◌⊎◌};
ghost use Rattle.std.specs.List.{range_with_len};
ghost use Rattle.aes_ctr.specs.CounterMode.{xored};
ghost use Rattle.cap_text.specs.declared.cap.Cap.TheVariants.{Chk, Lit};
ghost use Rattle.cap_text.specs.Cap.{ReadCapValue, read_cap_value};
ghost use Rattle.tagged_hash.specs.ConvergentKey.{IsSecret};
ghost use Rattle.tagged_hash.specs.TaggedHash.{share_digest};
ghost use Rattle.merkle.specs.Tree.{height, tree_nodes, tree_root};
ghost use Rattle.ueb.specs.Shape.{IsFile, IsSegmentSize, rounded_up};
ghost use Rattle.ueb.specs.Limits.{max_file_size, max_length, min_file_size};
ghost use Rattle.ueb.specs.Block.{ueb_text};
ghost use Rattle.share_layout.specs.Geometry.{geometry_of, segment_count};
ghost use Rattle.share_verify.specs.Pieces.{block_hashes};
ghost use Rattle.file_encoding.specs.Encoding.{ciphertext_encoding, encoding_of, padded_segment};
ghost use Rattle.file_encoding.specs.Encoding.{share_hashes};
ghost use Rattle.proved_parts.specs.FileOf.{segment_hashes};
ghost use Rattle.share_layout.specs.Pieces.{segments_of};
ghost use Rattle.file_encoding.specs.BegunFiles.{AreBegun, IsBegun};
ghost use Rattle.file_encoding.specs.Blocks.{draft_of, padded_blocks};
ghost use Rattle.file_encoding.specs.Params.{HasTooManySegments, IsEncodable, parameters_of};

use crate::blocks::Segments;
use crate::digests::{HashedBeside, digests_of, hash_beside};
use crate::draft::Begun;
use crate::error::EncodeError;
use crate::params::Params;
use crate::share::Share;
use crate::shares::{Common, begin_shares, build_share_tree, finish_shares};
use aes_ctr::Aes128;
use cap_text::{Cap, LitCap, ReadCap};
use merkle::Tree;
use share_layout::{Geometry, Offsets};
use std::alloc::{AllocError, Global};
use tagged_hash::{Tag, convergent_key, tagged};
use ueb::{Expect, MAX_FILE_SIZE, MIN_FILE_SIZE, Ueb};
use zfec_code::{Code, CodeError};

/// An encoded file: its cap, its shares by number, and their digests.
#[derive(Drop)]
pub struct Encoded {
    pub cap: Cap,
    pub shares: Vec<Share>,
    pub digests: Vec<[u8; 32]>,
}

/// A text encrypted where it stands, or a ciphertext decrypted, under a key of its own.
pub(crate) fn crypt(key: &[u8; 16], mut text: Vec<u8>) -> Vec<u8>
    ensures value { result.items ≡ xored key.now text.items }
    ensures size { length result.items ≡ length text.items }
{
    Aes128::new(key).xor_at(0, &mut text);
    text
}

// The tree over the hashes of a ciphertext's segments.
fn ciphertext_tree(
    alloc: Global,
    geometry: &Geometry,
    ciphertext: &[u8],
) -> Result<Tree, AllocError>
    ensures { IfOk result (λ tree. tree ≡ segment_hashes
        (segments_of geometry.now ciphertext.now)) }
{
    let segments = Segments::of(geometry, ciphertext);
    Tree::build(alloc, &segments.hashes(alloc)?)
}

// A text with zero bytes behind it, up to a multiple of the shares needed.
fn pad(mut text: Vec<u8>, needed: u16) -> Result<Vec<u8>, AllocError>
    requires some { 0 < needed }
    ensures { IfOk result (λ padded. padded.items ≡ padded_segment needed text.items) }
{
    let needed = usize::from(needed);
    text.resize(text.len().div_ceil(needed) * needed, 0)?;
    Ok(text)
}

// Begins all shares of a padded ciphertext.
pub(crate) fn begin_file(
    alloc: Global,
    geometry: &Geometry,
    padded: &[u8],
    ciphertext_tree: &Tree,
) -> Result<Vec<Begun>, AllocError>
    requires padded { length padded.now ≡ rounded_up geometry.now.size geometry.now.needed }
    requires leaves { length ciphertext_tree.now ≡ segment_count geometry.now }
    ensures { IfOk result (λ begun. AreBegun geometry.now padded.now
        (tree_nodes ciphertext_tree.now) geometry.now.total begun.items) }
{
    let code = match Code::new(alloc, geometry.needed(), geometry.total()) {
        Ok(code) => code,
        Err(CodeError::OutOfMemory) => return Err(AllocError),
        Err(_) => unreachable!(),
    };
    let unused = vec![in alloc; 0u8; geometry.tree_size() as usize]?;
    let mut block = vec![in alloc; 0u8; geometry.block_size() as usize]?;
    let common = Common {
        geometry,
        code: &code,
        padded,
        unused: &unused,
        ciphertext_tree,
    };
    begin_shares(alloc, &common, &mut block)
}

// The extension block of a file.
fn write_extension_block(
    alloc: Global,
    geometry: &Geometry,
    crypttext_hash: [u8; 32],
    ciphertext_root: [u8; 32],
    share_root: [u8; 32],
) -> Result<Vec<u8>, AllocError>
    requires file { IsFile geometry.now.needed geometry.now.total geometry.now.size }
    requires segments { IsSegmentSize geometry.now.needed geometry.now.size
        geometry.now.segment_size }
    ensures text { IfOk result (λ text. text.items ≡ ueb_text (record {
      needed_shares = geometry.now.needed;
      total_shares = geometry.now.total;
      size = geometry.now.size;
      segment_size = geometry.now.segment_size;
      crypttext_hash = crypttext_hash;
      crypttext_root_hash = ciphertext_root;
      share_root_hash = share_root;
    })) }
    ensures short { IfOk result (λ text. length text.items ≤ max_length) }
{
    let expect = Expect {
        needed: geometry.needed(),
        total: geometry.total(),
        size: geometry.size(),
    };
    let block = Ueb::new(
        &expect,
        geometry.segment_size(),
        crypttext_hash,
        ciphertext_root,
        share_root,
    );
    block.write(alloc).map_err(|_| AllocError)
}

// The cap of a file.
fn file_cap(geometry: &Geometry, key: [u8; 16], ueb_hash: [u8; 32]) -> ReadCap
    requires { IsFile geometry.now.needed geometry.now.total geometry.now.size }
    ensures { result ≡ read_cap_value key ueb_hash geometry.now.needed geometry.now.total
        geometry.now.size }
{
    match ReadCap::new(
        key,
        ueb_hash,
        geometry.needed(),
        geometry.total(),
        geometry.size(),
    ) {
        Ok(cap) => cap,
        Err(_) => unreachable!(),
    }
}

// A file's shares up to their block trees, what they leave to tell in the extension block, and what
// was hashed of them.
#[derive(Drop)]
struct BegunFile {
    ciphertext_root: [u8; 32],
    shares: Vec<Begun>,
    hashed: HashedBeside,
}

// Begins all shares of a ciphertext.
fn begin_ciphertext(
    alloc: Global,
    geometry: &Geometry,
    ciphertext: Vec<u8>,
) -> Result<BegunFile, AllocError>
    requires { length ciphertext.items ≡ geometry.now.size }
    ensures { IfOk result (IsBegun geometry.now ciphertext.items) }
{
    let ciphertext_tree = ciphertext_tree(alloc, geometry, &ciphertext)?;
    let padded = pad(ciphertext, geometry.needed())?;
    let shares = begin_file(alloc, geometry, &padded, &ciphertext_tree)?;
    let hashed = hash_beside(alloc, &padded[..geometry.size() as usize], &shares)?;
    Ok(BegunFile {
        ciphertext_root: ciphertext_tree.root(),
        shares,
        hashed,
    })
}

// The cap and the shares of a ciphertext whose shares are begun, and its key.
fn finish_ciphertext(
    alloc: Global,
    geometry: &Geometry,
    key: [u8; 16],
    begun: BegunFile,
) -> Result<Encoded, AllocError>
    requires begun { (ciphertext : List ℕ) × IsBegun geometry.now ciphertext begun }
    requires file { IsFile geometry.now.needed geometry.now.total geometry.now.size }
    requires segments { IsSegmentSize geometry.now.needed geometry.now.size
        geometry.now.segment_size }
    ensures cap { (ciphertext : List ℕ) → IsBegun geometry.now ciphertext begun
        → IfOk result (λ e. e.cap ≡ Chk (ciphertext_encoding geometry.now key ciphertext).cap) }
    ensures shares { (ciphertext : List ℕ) → IsBegun geometry.now ciphertext begun
        → IfOk result (λ e. e.shares.items
        ≡ (ciphertext_encoding geometry.now key ciphertext).shares) }
    ensures digests { IfOk result (λ e. e.digests.items ≡ map share_digest e.shares.items) }
{
    let share_tree = build_share_tree(alloc, &begun.shares)?;
    let extension_block = write_extension_block(
        alloc,
        geometry,
        begun.hashed.crypttext_hash,
        begun.ciphertext_root,
        share_tree.root(),
    )?;
    let shares = finish_shares(alloc, begun.shares, &share_tree, &extension_block)?;
    let given = Offsets::of(geometry).share_hashes as usize;
    let digests = digests_of(alloc, &shares, given, begun.hashed.wholes)?;
    let cap = file_cap(geometry, key, tagged(Tag::ExtensionBlock, &extension_block));
    Ok(Encoded {
        cap: Cap::Chk(cap),
        shares,
        digests,
    })
}

// The cap and the shares of a ciphertext and its key.
fn encode_ciphertext(
    alloc: Global,
    geometry: &Geometry,
    key: [u8; 16],
    ciphertext: Vec<u8>,
) -> Result<Encoded, AllocError>
    requires size { length ciphertext.items ≡ geometry.now.size }
    requires file { IsFile geometry.now.needed geometry.now.total geometry.now.size }
    requires segments { IsSegmentSize geometry.now.needed geometry.now.size
        geometry.now.segment_size }
    ensures cap { IfOk result (λ e. e.cap ≡ Chk
        (ciphertext_encoding geometry.now key ciphertext.items).cap) }
    ensures shares { IfOk result (λ e. e.shares.items ≡
        (ciphertext_encoding geometry.now key ciphertext.items).shares) }
    ensures digests { IfOk result (λ e. e.digests.items ≡ map share_digest e.shares.items) }
{
    let begun = begin_ciphertext(alloc, geometry, ciphertext)?;
    finish_ciphertext(alloc, geometry, key, begun)
}

/// Encodes a file: its cap, its shares and their digests, under a key that depends on the file, the
/// secret, the numbers of shares and the segment size.
///
/// The secret has at most 64 bytes. A file of less than `ueb::MIN_FILE_SIZE` bytes has no shares:
/// its cap holds it. Refuses `TooLarge` and `TooManySegments`, in this order, and `OutOfMemory`.
pub fn encode_all(
    alloc: Global,
    file: &[u8],
    secret: &[u8],
    params: &Params,
) -> Result<Encoded, EncodeError>
    requires { IsSecret secret.now }
    ensures literal { length file.now < min_file_size → IfOk result
        (λ e. (e.cap ≡ Lit file.now) × (e.shares.items ≡ [])) }
    ensures cap { min_file_size ≤ length file.now → IfOk result
        (λ e. e.cap ≡ Chk (encoding_of file.now secret.now (parameters_of params.now)).cap) }
    ensures shares { min_file_size ≤ length file.now → IfOk result
        (λ e. e.shares.items ≡ (encoding_of file.now secret.now
        (parameters_of params.now)).shares) }
    ensures digests { IfOk result (λ e. e.digests.items ≡ map share_digest e.shares.items) }
    // When each refusal comes.
    ensures fits { min_file_size ≤ length file.now → IfOk result
        (λ _. IsEncodable (length file.now) params.now) }
    ensures too_large { IsErrOf result EncodeError.TooLarge → max_file_size < length file.now }
    ensures too_many { IsErrOf result EncodeError.TooManySegments → HasTooManySegments
        (length file.now) params.now }
    ensures no_other { IfErr result (λ e. (e ≡ EncodeError.OutOfMemory)
        ⊎ (e ≡ EncodeError.TooLarge) ⊎ (e ≡ EncodeError.TooManySegments)) }
    // A file that has an encoding is refused for want of memory alone.
    ensures memory { IsEncodable (length file.now) params.now
        → IfErr result (λ e. e ≡ EncodeError.OutOfMemory) }
{
    if file.len() < MIN_FILE_SIZE as usize {
        return match LitCap::new(file) {
            Ok(lit) => Ok(Encoded {
                cap: Cap::Lit(lit),
                shares: Vec::new(alloc),
                digests: Vec::new(alloc),
            }),
            Err(_) => unreachable!(),
        };
    }
    let geometry = file_geometry(file.len() as u64, params)?;
    let key = convergent_key(
        params.needed(),
        params.total(),
        geometry.segment_size(),
        secret,
        file,
    );
    let ciphertext = crypt(&key, Vec::from_slice(alloc, file)?);
    Ok(encode_ciphertext(alloc, &geometry, key, ciphertext)?)
}

// The geometry of a file of this size.
fn file_geometry(size: u64, params: &Params) -> Result<Geometry, EncodeError>
    requires { 0 < size }
    ensures given { IfOk result (λ g. g
        ≡ geometry_of size params.now.needed params.now.total params.now.max_segment) }
    ensures segments { IfOk result (λ g. IsSegmentSize g.needed g.size g.segment_size) }
    ensures fits { IfOk result (λ _. IsEncodable size params.now) }
    ensures too_large { IsErrOf result EncodeError.TooLarge → max_file_size < size }
    ensures too_many { IsErrOf result EncodeError.TooManySegments
        → HasTooManySegments size params.now }
    ensures no_other { IfErr result
        (λ e. (e ≡ EncodeError.TooLarge) ⊎ (e ≡ EncodeError.TooManySegments)) }
{
    if size > MAX_FILE_SIZE {
        return Err(EncodeError::TooLarge);
    }
    // The parameters are in their ranges.
    Geometry::of(size, params.needed(), params.total(), params.max_segment()).map_err(
        |_| EncodeError::TooManySegments,
    )
}
