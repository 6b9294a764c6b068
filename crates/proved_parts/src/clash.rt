// Two hash inputs with one hash, from two pieces of evidence that differ.

ghost use Rattle.std.specs.Prelude.{◌≡◌, ◌≢◌, ℕ, ◌<◌, ◌/◌, ◌++◌, List, All, Contains, IfOk, OnOk};
ghost use Rattle.std.specs.Prelude.{IfSome, IsNone, IsTrue, Some, ◌↔◌, ◌≤◌, length, slice_get};
ghost use Rattle.tagged_hash.specs.Clash.{IsClash};
ghost use Rattle.tagged_hash.specs.TaggedHash.{double_sha256, netstring, tagged_hash, tagged_input};
ghost use Rattle.cap_text.specs.Cap.{VerifyCapValue};
ghost use Rattle.proved_parts.specs.Evidence.{HaveOneSegment, IsProved};
ghost use Rattle.merkle.specs.Inputs.{node_input};
ghost use Rattle.proved_parts.specs.Steps.{Differ, NeverMeet, PartsNeverMeet, Rise, step_input};
ghost use Rattle.proved_parts.specs.declared.evidence.EvidencePart.{EvidencePart};

use crate::evidence::{Evidence, EvidencePart};
use std::alloc::{AllocError, Global};
use tagged_hash::{Tag, pair, tagged};

/// Two different hash inputs with one hash, where two pieces of evidence that one cap proves have
/// not one segment for some number; none where they have one segment for each number.
///
/// What it gives is always a clash, also of evidence that no cap proves. It takes memory for its
/// answer alone, and refuses with `AllocError` where there is none.
pub fn find_clash(
    alloc: Global,
    first: &Evidence,
    second: &Evidence,
) -> Result<Option<(Vec<u8>, Vec<u8>)>, AllocError>
    ensures clash { IfOk result (λ found. IfSome found (λ c. IsClash c.0.items c.1.items)) }
    ensures found { IfOk result (λ found. IsNone found → (cap : VerifyCapValue)
        → IsProved cap first.now → IsProved cap second.now
        → HaveOneSegment first.now second.now) }
    ensures none { HaveOneSegment first.now second.now → IfOk result IsNone }
{
    let Some((mine, yours)) = difference(first.parts.as_slice(), second.parts.as_slice()) else {
        return Ok(None);
    };
    let block = first.extension_block.as_slice();
    let other = second.extension_block.as_slice();
    if block == other {
        return clash_of_parts(alloc, mine, yours);
    }
    clash_of_texts(alloc, Tag::ExtensionBlock, block, other)
}

/// Two parts with one number that have not one segment. Parts that rise by number, as those of a
/// download do, are gone over once; others are compared each with each.
fn difference<'a>(
    mine: &'a [EvidencePart],
    yours: &'a [EvidencePart],
) -> Option<(&'a EvidencePart, &'a EvidencePart)>
    ensures some { IfSome result (λ d. Contains mine.now d.0.now × Contains yours.now d.1.now
        × Differ d.0.now d.1.now) }
    ensures none { IsNone result → All (λ p. All (λ q. ¬ Differ p q) yours.now) mine.now }
{
    if rise(mine) && rise(yours) {
        difference_of_rising(mine, yours)
    } else {
        difference_of_any(mine, yours)
    }
}

/// Whether each of these parts has a higher number than the one before it.
fn rise(parts: &[EvidencePart]) -> bool
    ensures { IsTrue result → Rise parts.now }
{
    for i in 1..parts.len() {
        if parts[i - 1].number >= parts[i].number {
            return false;
        }
    }
    true
}

/// Two parts with one number that have not one segment, where both rise by number.
fn difference_of_rising<'a>(
    mine: &'a [EvidencePart],
    yours: &'a [EvidencePart],
) -> Option<(&'a EvidencePart, &'a EvidencePart)>
    requires mine_rise { Rise mine.now }
    requires yours_rise { Rise yours.now }
    ensures some { IfSome result (λ d. Contains mine.now d.0.now × Contains yours.now d.1.now
        × Differ d.0.now d.1.now) }
    ensures none { IsNone result → All (λ p. All (λ q. ¬ Differ p q) yours.now) mine.now }
{
    let mut next = 0;
    for part in mine {
        next = first_from(yours, next, part.number);
        if next < yours.len() && differ(part, &yours[next]) {
            return Some((part, &yours[next]));
        }
    }
    None
}

/// The first position, from this one on, of a part that has no lower number than this; the one
/// behind the last where there is none.
fn first_from(parts: &[EvidencePart], from: usize, number: u32) -> usize
    requires within { from ≤ length parts.now }
    ensures from { from ≤ result }
    ensures within { result ≤ length parts.now }
    ensures lower { (k : ℕ) (q : EvidencePart) → from ≤ k → k < result
        → slice_get parts.now k ≡ Some q → q.number < number }
    ensures there { (q : EvidencePart) → slice_get parts.now result ≡ Some q → number ≤ q.number }
{
    for position in from..parts.len() {
        if parts[position].number >= number {
            return position;
        }
    }
    parts.len()
}

/// Two parts with one number that have not one segment, in any order.
fn difference_of_any<'a>(
    mine: &'a [EvidencePart],
    yours: &'a [EvidencePart],
) -> Option<(&'a EvidencePart, &'a EvidencePart)>
    ensures some { IfSome result (λ d. Contains mine.now d.0.now × Contains yours.now d.1.now
        × Differ d.0.now d.1.now) }
    ensures none { IsNone result → All (λ p. All (λ q. ¬ Differ p q) yours.now) mine.now }
{
    for part in mine {
        if let Some(other) = other_segment(part, yours) {
            return Some((part, other));
        }
    }
    None
}

/// The first of these parts that has the number of one, and not its segment.
fn other_segment<'a>(part: &EvidencePart, others: &'a [EvidencePart]) -> Option<&'a EvidencePart>
    ensures some { IfSome result (λ q. Contains others.now q.now × Differ part.now q.now) }
    ensures none { IsNone result → All (λ q. ¬ Differ part.now q) others.now }
{
    others.iter().find(|other| differ(part, other))
}

/// Whether two parts have one number, and not one segment.
fn differ(part: &EvidencePart, other: &EvidencePart) -> bool
    ensures { IsTrue result ↔ Differ part.now other.now }
{
    part.number == other.number && part.segment.as_slice() != other.segment.as_slice()
}

/// A clash of two texts under one tag.
fn clash_of_texts(
    alloc: Global,
    tag: Tag,
    first: &[u8],
    second: &[u8],
) -> Result<Option<(Vec<u8>, Vec<u8>)>, AllocError>
    requires { first.now ≢ second.now }
    ensures clash { IfOk result (λ found. IfSome found (λ c. IsClash c.0.items c.1.items)) }
    ensures none { IfOk result (λ found. IsNone found
        → tagged_hash tag first.now ≢ tagged_hash tag second.now) }
{
    if tagged(tag, first) == tagged(tag, second) {
        let text = input(alloc, tag, first)?;
        return Ok(Some((text, input(alloc, tag, second)?)));
    }
    Ok(None)
}

/// The hash input of a text under a tag.
fn input(alloc: Global, tag: Tag, text: &[u8]) -> Result<Vec<u8>, AllocError>
    ensures { IfOk result (λ input. input.items ≡ tagged_input tag text.now) }
{
    let mut input = Vec::from_slice(alloc, tag.netstring())?;
    input.extend_from_slice(text)?;
    Ok(input)
}

/// A clash of two parts: of their segments, or on their paths.
fn clash_of_parts(
    alloc: Global,
    mine: &EvidencePart,
    yours: &EvidencePart,
) -> Result<Option<(Vec<u8>, Vec<u8>)>, AllocError>
    requires { Differ mine.now yours.now }
    ensures clash { IfOk result (λ found. IfSome found (λ c. IsClash c.0.items c.1.items)) }
    ensures none { IfOk result (λ found. IsNone found → PartsNeverMeet mine.now yours.now) }
{
    let tag = Tag::CiphertextSegment;
    let segment = mine.segment.as_slice();
    let other = yours.segment.as_slice();
    let mine_hash = tagged(tag, segment);
    let your_hash = tagged(tag, other);
    if mine_hash == your_hash {
        return clash_of_texts(alloc, tag, segment, other);
    }
    clash_on_ways(
        alloc,
        mine.number,
        mine_hash,
        your_hash,
        mine.path.as_slice(),
        yours.path.as_slice(),
    )
}

/// A clash on the ways from two hashes at one position upward.
fn clash_on_ways(
    alloc: Global,
    position: u32,
    first: [u8; 32],
    second: [u8; 32],
    these: &[[u8; 32]],
    those: &[[u8; 32]],
) -> Result<Option<(Vec<u8>, Vec<u8>)>, AllocError>
    requires { first ≢ second }
    ensures clash { IfOk result (λ found. IfSome found (λ c. IsClash c.0.items c.1.items)) }
    ensures none { IfOk result (λ found. IsNone found
        → NeverMeet position first second these.now those.now) }
{
    let mut left = first;
    let mut right = second;
    let mut at = position;
    for i in 0..these.len().min(those.len()) {
        let up = step(at, &left, &these[i]);
        let other = step(at, &right, &those[i]);
        if up == other {
            let clash = clash_of_steps(alloc, at, &left, &these[i], &right, &those[i])?;
            return Ok(Some(clash));
        }
        left = up;
        right = other;
        at /= 2;
    }
    Ok(None)
}

/// The clash of two steps that lead from different nodes to one.
fn clash_of_steps(
    alloc: Global,
    position: u32,
    left: &[u8; 32],
    mine: &[u8; 32],
    right: &[u8; 32],
    yours: &[u8; 32],
) -> Result<(Vec<u8>, Vec<u8>), AllocError>
    requires apart { left.now ≢ right.now }
    requires meet { double_sha256 (step_input position left.now mine.now)
        ≡ double_sha256 (step_input position right.now yours.now) }
    ensures { IfOk result (λ c. IsClash c.0.items c.1.items) }
{
    let text = step_text(alloc, position, left, mine)?;
    Ok((text, step_text(alloc, position, right, yours)?))
}

/// The hash of the node above one at this position and its sibling.
fn step(position: u32, node: &[u8; 32], sibling: &[u8; 32]) -> [u8; 32]
    ensures { result ≡ double_sha256 (step_input position node.now sibling.now) }
{
    if position % 2 == 0 {
        pair(node, sibling)
    } else {
        pair(sibling, node)
    }
}

/// The hash input of that node.
fn step_text(
    alloc: Global,
    position: u32,
    node: &[u8; 32],
    sibling: &[u8; 32],
) -> Result<Vec<u8>, AllocError>
    ensures { IfOk result (λ input. input.items ≡ step_input position node.now sibling.now) }
{
    if position % 2 == 0 {
        pair_text(alloc, node, sibling)
    } else {
        pair_text(alloc, sibling, node)
    }
}

/// The hash input of a node, from the hashes of its two children.
fn pair_text(alloc: Global, left: &[u8; 32], right: &[u8; 32]) -> Result<Vec<u8>, AllocError>
    ensures { IfOk result (λ input. input.items ≡ node_input left.now right.now) }
{
    let mut input = Vec::from_slice(alloc, Tag::TreeNode.netstring())?;
    push_netstring(left, &mut input)?;
    push_netstring(right, &mut input)?;
    Ok(input)
}

/// Appends the netstring of a hash.
fn push_netstring(hash: &[u8; 32], input: &mut Vec<u8>) -> Result<(), AllocError>
    ensures { OnOk result (input.new.items ≡ input.old.items ++ netstring hash.now) }
{
    input.extend_from_slice(b"32:")?;
    input.extend_from_slice(hash)?;
    input.push(b',')?;
    Ok(())
}
