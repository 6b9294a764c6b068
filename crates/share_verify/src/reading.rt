//! What is read of a share before its sections are looked at.

ghost use Rattle.std.specs.Prelude.{◌≡◌, ◌↔◌, IfOk, List, MatchResult, Ok, Err, ℕ, IsTrue};
ghost use Rattle.tagged_hash.specs.TaggedHash.{tagged_hash};
ghost use Rattle.tagged_hash.specs.declared.tag.Tag.TheVariants.{ExtensionBlock};
ghost use Rattle.ueb.specs.Block.{IsUeb};
ghost use Rattle.ueb.specs.Reading.{Agrees, IsRefused};
ghost use Rattle.ueb.specs.Shape.{Contents};
ghost use Rattle.ueb.specs.declared.error.UebError.{UebError};
ghost use Rattle.share_layout.specs.Offsets.{LocatesUeb};
ghost use Rattle.share_layout.specs.Reading.{IsLocateFault, IsReadFault, sections_in};
ghost use Rattle.share_layout.specs.Share.{IsShare, Sections};
ghost use Rattle.share_verify.specs.CapBlock.{IsUebFor, geometry_by};
ghost use Rattle.share_verify.specs.Verify.{IsLayoutFault, IsReadingFault, IsUebFault, ReadsAs};
ghost use Rattle.share_verify.specs.Verify.{RefusesUeb};
ghost use Rattle.share_verify.specs.declared.fault.ShareFault.{ShareFault};

use crate::fault::ShareFault;
use cap_text::VerifyCap;
use share_layout::{
    Geometry, ShareView, geometry_gives_itself, locate_ueb, shares_locate_their_blocks,
};
use tagged_hash::{Tag, tagged};
use ueb::{Expect, Ueb, UebError};

/// What is read of a share: what its extension block says, and its sections.
#[derive(Clone, Copy)]
pub struct ReadShare<'a> {
    /// What the extension block says.
    pub ueb: Ueb,
    /// The geometry by the extension block.
    pub geometry: Geometry,
    /// The sections.
    pub view: ShareView<'a>,
}

/// What share `num` of the cap's file says, where its own header leads to the cap's extension
/// block, and it is laid out under the geometry of that block. Otherwise the first fault, as
/// `verify_share` tells it. The unused section, the trees, the share hashes and the blocks are not
/// looked at: `verify_share` tells whether these are right.
pub fn read_share<'a>(
    cap: &VerifyCap,
    num: u16,
    share: &'a [u8],
) -> Result<ReadShare<'a>, ShareFault>
    ensures accepted { IfOk result (λ read. ReadsAs cap.now num share.now read.ueb
        (sections_in read.view)) }
    ensures geometry { IfOk result (λ read. read.geometry ≡ geometry_by read.ueb) }
    ensures complete { (u : Contents) (s : Sections) → ReadsAs cap.now num share.now u s
        → MatchResult result (λ read. (read.ueb ≡ u) × (sections_in read.view ≡ s)) (λ _. ⊥) }
    // Its extension block says nothing else.
    ensures one_ueb { IfOk result (λ read. (u : Contents)
        → IsUebFor cap.now (sections_in read.view).extension_block u → read.ueb ≡ u) }
    ensures refused { (fault : ShareFault) → (result ≡ Err fault)
        ↔ IsReadingFault cap.now num share.now fault }
{
    let extension_block = locate(share)?;
    let ueb = read_ueb(cap, extension_block)?;
    let geometry = geometry_of(&ueb);
    let view = read_view(share, num, &geometry)?;
    Ok(ReadShare {
        ueb,
        geometry,
        view,
    })
}

// The extension block, by the share's own header.
fn locate(share: &[u8]) -> Result<&[u8], ShareFault>
    ensures located { IfOk result (λ block. LocatesUeb share.now block.now) }
    ensures complete { (block : List ℕ) → LocatesUeb share.now block
        → MatchResult result (λ found. found.now ≡ block) (λ _. ⊥) }
    ensures refused { (fault : ShareFault) → (result ≡ Err fault)
        ↔ IsLayoutFault (IsLocateFault share.now) fault }
{
    match locate_ueb(share) {
        Ok(extension_block) => Ok(extension_block),
        Err(error) => Err(ShareFault::Layout(error)),
    }
}

/// What the cap's extension block says, where these bytes are it: where they have the cap's hash,
/// and are an extension block with the cap's numbers.
///
/// Otherwise the first fault in this order: `OtherUeb`; `Ueb`, as `Ueb::read` tells it.
pub fn read_ueb(cap: &VerifyCap, extension_block: &[u8]) -> Result<Ueb, ShareFault>
    ensures accepted { IfOk result (λ u. IsUebFor cap.now extension_block.now u) }
    ensures complete { (u : Contents) → IsUebFor cap.now extension_block.now u → result ≡ Ok u }
    ensures refused { (fault : ShareFault) → (result ≡ Err fault)
        ↔ IsUebFault cap.now extension_block.now fault }
{
    if !is_hash_of(cap.ueb_hash(), extension_block) {
        return Err(ShareFault::OtherUeb);
    }
    match read_for(cap, extension_block) {
        Ok(ueb) => Ok(ueb),
        Err(error) => Err(ShareFault::Ueb(error)),
    }
}

// Whether this is the hash of an extension block.
fn is_hash_of(hash: &[u8; 32], extension_block: &[u8]) -> bool
    ensures { IsTrue result ↔ (tagged_hash ExtensionBlock extension_block.now ≡ hash.now) }
{
    tagged(Tag::ExtensionBlock, extension_block) == *hash
}

// What a reader with this cap expects of the extension block.
fn expect_of(cap: &VerifyCap) -> Expect
    ensures needed { result.needed ≡ cap.now.needed }
    ensures total { result.total ≡ cap.now.total }
    ensures size { result.size ≡ cap.now.size }
{
    Expect {
        needed: cap.needed(),
        total: cap.total(),
        size: cap.size(),
    }
}

// What an extension block says that has the cap's hash, or its first fault.
fn read_for(cap: &VerifyCap, extension_block: &[u8]) -> Result<Ueb, UebError>
    requires { tagged_hash ExtensionBlock extension_block.now ≡ cap.now.ueb_hash }
    ensures accepted { IfOk result (λ u. IsUebFor cap.now extension_block.now u) }
    ensures complete { (u : Contents) → IsUebFor cap.now extension_block.now u → result ≡ Ok u }
    ensures refused { (error : UebError) → (result ≡ Err error)
        ↔ RefusesUeb cap.now extension_block.now error }
{
    let expect = expect_of(cap);
    read_expected(extension_block, &expect)
}

// What an extension block says, or its first fault.
fn read_expected(extension_block: &[u8], expect: &Expect) -> Result<Ueb, UebError>
    ensures accepted { IfOk result (λ u. IsUeb extension_block.now u × Agrees expect.now u) }
    ensures complete { (u : Contents) → IsUeb extension_block.now u → Agrees expect.now u
        → result ≡ Ok u }
    ensures refused { (error : UebError) → (result ≡ Err error)
        ↔ IsRefused extension_block.now expect.now error }
{
    Ueb::read(extension_block, expect)
}

/// The geometry of a file with this extension block.
pub fn geometry_of(ueb: &Ueb) -> Geometry
    ensures { result ≡ geometry_by ueb.now }
{
    geometry_gives_itself();
    match Geometry::of(
        ueb.size(),
        ueb.needed_shares(),
        ueb.total_shares(),
        ueb.segment_size(),
    ) {
        Ok(geometry) => geometry,
        Err(_) => unreachable!(),
    }
}

// The sections of share `num` of a file with this geometry.
fn read_view<'a>(
    share: &'a [u8],
    num: u16,
    geometry: &Geometry,
) -> Result<ShareView<'a>, ShareFault>
    ensures accepted { IfOk result (λ view. IsShare geometry.now num share.now (sections_in view)) }
    ensures located { IfOk result (λ view. LocatesUeb share.now view.extension_block.now) }
    ensures complete { (s : Sections) → IsShare geometry.now num share.now s
        → MatchResult result (λ view. sections_in view ≡ s) (λ _. ⊥) }
    ensures refused { (fault : ShareFault) → (result ≡ Err fault)
        ↔ IsLayoutFault (IsReadFault geometry.now num share.now) fault }
{
    // The share's own header leads to the same extension block.
    shares_locate_their_blocks();
    let _ = geometry.size();
    match ShareView::read(share, num, geometry) {
        Ok(view) => Ok(view),
        Err(error) => Err(ShareFault::Layout(error)),
    }
}
