// Shares of files of some bytes, one of which is needed, so that each block is the segment.

ghost use Rattle.std.specs.Prelude.{◌≡◌, ◌<◌};
ghost use Rattle.share_layout.specs.Geometry.{segment_count};
ghost use Rattle.download_parts.specs.Plan.{IsNodePiece};

use crate::taking::{part_of, take_block_nodes, take_ciphertext_nodes, take_hashes, take_pieces};
use cap_text::Cap;
use download_parts::{BlockTree, FileTrees, NodePiece, Part, Plan, TreeFault};
use file_encoding::{Encoded, Params, Share, encode_all};
use merkle::check_path;
use share_layout::{Geometry, locate_ueb};
use share_verify::{Check, geometry_of, read_ueb};
use std::alloc::Global;
use std::test::Fail;
use tagged_hash::{Tag, tagged};
use ueb::Ueb;

#[derive(Drop)]
struct Shares {
    ueb: Ueb,
    shares: Vec<Share>,
}

// The shares of a file whose byte i is i modulo 251, in segments of 6 bytes.
fn shares_of(alloc: Global, size: usize, total: u64) -> Option<Shares> {
    let mut file = vec![in alloc; 0u8; size].ok()?;
    for (i, byte) in file.iter_mut().enumerate() {
        *byte = (i % 251) as u8;
    }
    let params = Params::new(1, 1, total, 6).ok()?;
    let Encoded { cap, shares, .. } = encode_all(alloc, &file, b"", &params).ok()?;
    let Cap::Chk(cap) = cap else {
        return None;
    };
    let block = locate_ueb(shares.get(0)?.as_slice()).ok()?;
    let ueb = read_ueb(&cap.to_verify(), block).ok()?;
    Some(Shares { ueb, shares })
}

// The bytes of the share of this number; none, where there is no such share.
fn share_at(shares: &[Share], number: u16) -> &[u8] {
    match shares.get(usize::from(number)) {
        Some(share) => share.as_slice(),
        None => &[],
    }
}

// A copy with one byte changed.
fn changed(alloc: Global, bytes: &[u8], offset: usize) -> Option<Vec<u8>> {
    let mut copy = Vec::from_slice(alloc, bytes).ok()?;
    *copy.get_mut(offset)? ^= 1;
    Some(copy)
}

// Whether all of a share is taken, and each block and each segment is proved.
fn is_taken(alloc: Global, ueb: &Ueb, number: u16, share: &[u8]) -> Option<bool> {
    let geometry = geometry_of(ueb);
    let plan = Plan::of(&geometry, 0, geometry.segment_count());
    let mut trees = FileTrees::new(alloc, ueb, &geometry).ok()?;
    let hashes = part_of(share, plan.read(&Part::ShareHashes));
    let Ok(mut tree) = take_hashes(alloc, &mut trees, &geometry, number, hashes) else {
        return None;
    };
    take_pieces(alloc, &mut trees, &mut tree, &plan, share).ok()?;
    are_proved(ueb, &geometry, &trees, &tree, share)
}

// Whether each block of a share is proved, and each segment.
fn are_proved(
    ueb: &Ueb,
    geometry: &Geometry,
    trees: &FileTrees,
    tree: &BlockTree,
    share: &[u8],
) -> Option<bool>
    requires same { trees.now.geometry ≡ geometry.now }
    requires count { tree.now.leaf_count ≡ segment_count geometry.now }
{
    let plan = Plan::of(geometry, 0, geometry.segment_count());
    let mut right = true;
    for segment in 0..geometry.segment_count() {
        let offset = plan.block_start(segment) as usize;
        let length = geometry.block_length(segment) as usize;
        let block = share.get(offset..offset + length)?;
        right &= tree.proves(segment, block) == Some(true);
        right &= leads(trees, ueb, geometry, segment, block)?;
    }
    Some(right)
}

// Whether the hash of a segment is known, and leads to the root.
fn leads(
    trees: &FileTrees,
    ueb: &Ueb,
    geometry: &Geometry,
    segment: u32,
    bytes: &[u8],
) -> Option<bool>
    requires same { trees.now.geometry ≡ geometry.now }
    requires inside { segment < segment_count geometry.now }
{
    let hash = trees.leaf(segment)?;
    let path = trees.path(segment).ok()??;
    let root = ueb.crypttext_root_hash();
    let count = geometry.segment_count();
    let leads = check_path(root, count, segment, &hash, &path);
    Some(leads && hash == tagged(Tag::CiphertextSegment, bytes))
}

// Whether share hashes with any byte changed fail their check, and are taken as they are.
fn refuses_changed_hashes(alloc: Global, ueb: &Ueb, number: u16, share: &[u8]) -> Option<bool> {
    let geometry = geometry_of(ueb);
    let plan = Plan::of(&geometry, 0, geometry.segment_count());
    let mut trees = FileTrees::new(alloc, ueb, &geometry).ok()?;
    let hashes = part_of(share, plan.read(&Part::ShareHashes));
    let mut right = true;
    for offset in 0..hashes.len() {
        let bytes = changed(alloc, hashes, offset)?;
        let check = if offset % 34 < 2 {
            Check::Layout
        } else {
            Check::ShareHashes
        };
        let refused = take_hashes(alloc, &mut trees, &geometry, number, &bytes).err();
        right &= refused == Some(TreeFault::Check(check));
    }
    Some(right && take_hashes(alloc, &mut trees, &geometry, number, hashes).is_ok())
}

// How far apart the bytes of a piece are that are changed: all of a small one are.
fn step_in(bytes: &[u8]) -> usize
    ensures { 0 < result }
{
    if bytes.len() <= 320 { 1 } else { 9_973 }
}

// Whether a piece of a block tree with one of some bytes changed fails its check, and is taken as
// it is.
fn refuses_changed_block_nodes(
    alloc: Global,
    tree: &mut BlockTree,
    plan: &Plan,
    piece: &NodePiece,
    share: &[u8],
) -> Option<bool>
    requires { IsNodePiece plan.now.geometry plan.now.first plan.now.end piece.now }
{
    let nodes = plan.nodes(piece);
    let bytes = part_of(share, plan.read(&Part::BlockTree(*piece)));
    let mut right = true;
    for offset in (0..bytes.len()).step_by(step_in(bytes)) {
        let other = changed(alloc, bytes, offset)?;
        let refused = take_block_nodes(alloc, tree, &nodes, &other);
        right &= refused == Err(TreeFault::Check(Check::BlockTree));
    }
    Some(right && take_block_nodes(alloc, tree, &nodes, bytes).is_ok())
}

// The same of a ciphertext tree.
fn refuses_changed_nodes(
    alloc: Global,
    trees: &mut FileTrees,
    plan: &Plan,
    piece: &NodePiece,
    share: &[u8],
) -> Option<bool>
    requires { IsNodePiece plan.now.geometry plan.now.first plan.now.end piece.now }
{
    let nodes = plan.nodes(piece);
    let bytes = part_of(share, plan.read(&Part::CiphertextTree(*piece)));
    let mut right = true;
    for offset in (0..bytes.len()).step_by(step_in(bytes)) {
        let other = changed(alloc, bytes, offset)?;
        let refused = take_ciphertext_nodes(alloc, trees, &nodes, &other);
        right &= refused == Err(TreeFault::Check(Check::CiphertextTree));
    }
    Some(right && take_ciphertext_nodes(alloc, trees, &nodes, bytes).is_ok())
}

// Whether each piece of the trees of a share is refused with one of some bytes changed.
fn refuses_changed(alloc: Global, ueb: &Ueb, number: u16, share: &[u8]) -> Option<bool> {
    let geometry = geometry_of(ueb);
    let plan = Plan::of(&geometry, 0, geometry.segment_count());
    let mut trees = FileTrees::new(alloc, ueb, &geometry).ok()?;
    let hashes = part_of(share, plan.read(&Part::ShareHashes));
    let mut tree = take_hashes(alloc, &mut trees, &geometry, number, hashes).ok()?;
    refuses_changed_pieces(alloc, &mut trees, &mut tree, &plan, share)
}

// The same of these trees and of each piece of the plan.
fn refuses_changed_pieces(
    alloc: Global,
    trees: &mut FileTrees,
    tree: &mut BlockTree,
    plan: &Plan,
    share: &[u8],
) -> Option<bool> {
    let mut right = true;
    for level in 0..plan.level_count() {
        for index in 0..plan.piece_count(level) {
            let piece = NodePiece { level, index };
            right &= refuses_changed_block_nodes(alloc, tree, plan, &piece, share)?;
            right &= refuses_changed_nodes(alloc, trees, plan, &piece, share)?;
        }
    }
    Some(right)
}

#[test]
fn right_shares_are_taken(rt: HostRuntime) -> Result<(), Fail> {
    for &(size, total) in &[(56, 1), (300, 10), (600, 3), (8_000, 2)] {
        let Some(Shares { ueb, shares }) = shares_of(rt.alloc(), size, total) else {
            panic!(rt; "shares of {size} bytes");
        };
        for number in 0..ueb.total_shares() {
            let share = share_at(&shares, number);
            let taken = is_taken(rt.alloc(), &ueb, number, share);
            assert!(rt; taken == Some(true), "share {number} of {size} bytes");
        }
    }
    Ok(())
}

#[test]
fn changed_hashes_fail_their_check(rt: HostRuntime) -> Result<(), Fail> {
    for &total in &[1, 2, 10] {
        let Some(Shares { ueb, shares }) = shares_of(rt.alloc(), 60, total) else {
            panic!(rt; "{total} shares");
        };
        for number in 0..ueb.total_shares() {
            let share = share_at(&shares, number);
            let refused = refuses_changed_hashes(rt.alloc(), &ueb, number, share);
            assert!(rt; refused == Some(true), "share {number} of {total}");
        }
    }
    Ok(())
}

#[test]
fn changed_nodes_fail_their_check(rt: HostRuntime) -> Result<(), Fail> {
    for &size in &[60, 8_000] {
        let Some(Shares { ueb, shares }) = shares_of(rt.alloc(), size, 2) else {
            panic!(rt; "shares of {size} bytes");
        };
        let refused = refuses_changed(rt.alloc(), &ueb, 1, share_at(&shares, 1));
        assert!(rt; refused == Some(true), "share of {size} bytes");
    }
    Ok(())
}
