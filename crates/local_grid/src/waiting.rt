//! What waits to be hashed at the servers of a grid, hashed side by side.

ghost use Rattle.std.specs.Prelude.{◌≡◌, ◌%◌, ◌<◌, ℕ, Some, IfSome};
ghost use Rattle.std.specs.Prelude.{length, slice_get};
ghost use Rattle.local_grid.specs.Waiting.{HasHasherIn, HasHasherOf};
ghost use Rattle.local_grid.specs.declared.waiting.Place.{Place};
ghost use Rattle.tagged_hash.specs.declared.hasher.TaggedHasher.{TaggedHasher};
ghost use Rattle.tagged_hash.specs.TaggedHasher.{input_of};

use crate::link::Link;
use crate::node::Node;
use share_store::store::Store;
use tagged_hash::{TaggedHasher, WaitingHasher, hashed_eight};

// Where a bucket stands: at a node, counted on past the last from the first one again, and there at
// a position.
#[derive(Clone, Copy)]
struct Place {
    node: usize,
    bucket: usize,
}

/// Hashes what waits in the first eight buckets side by side, counted from a node on, where that
/// one and at least two more have something.
pub(crate) fn hash_waiting<S: Store, L: Link>(nodes: &mut [Option<Node<S, L>>], first: usize)
    ensures { nodes.new ≡ nodes.old }
{
    if first >= nodes.len() {
        return;
    }
    let Some(found) = eight_from(nodes, first) else {
        return;
    };
    let (places, hashed) = found;
    let [a, b, c, d, e, f, g, h] = hashed;
    take_over_at(nodes, places[0], a);
    take_over_at(nodes, places[1], b);
    take_over_at(nodes, places[2], c);
    take_over_at(nodes, places[3], d);
    take_over_at(nodes, places[4], e);
    take_over_at(nodes, places[5], f);
    take_over_at(nodes, places[6], g);
    take_over_at(nodes, places[7], h);
}

// The first eight places from a node on where something waits, and what their hashers come to.
// Where there are fewer they stand there again; nothing where nothing waits at that node, or there
// are fewer than three, which are the least that are worth eight lanes.
fn eight_from<S: Store, L: Link>(
    nodes: &[Option<Node<S, L>>],
    first: usize,
) -> Option<([Place; 8], [TaggedHasher; 8])>
    requires { first < length nodes.now }
    ensures { IfSome result (λ found. (j : ℕ) (place : Place) (hashed : TaggedHasher) → j < 8
        → slice_get found.0 j ≡ Some place → slice_get found.1 j ≡ Some hashed
        → HasHasherIn (place.node % length nodes.now) place.bucket (input_of hashed) nodes.now) }
{
    let end = first.saturating_add(nodes.len());
    let start = Place {
        node: first,
        bucket: 0,
    };
    let Some((p0, h0)) = waiting_from(nodes, start, end) else {
        return None;
    };
    if p0.node != first {
        return None;
    }
    let Some((p1, h1)) = waiting_from(nodes, p0.next(), end) else {
        return None;
    };
    let Some((p2, h2)) = waiting_from(nodes, p1.next(), end) else {
        return None;
    };
    let (p3, h3) = behind_or(nodes, p2, end, p0, h0);
    let (p4, h4) = behind_or(nodes, p3, end, p0, h0);
    let (p5, h5) = behind_or(nodes, p4, end, p0, h0);
    let (p6, h6) = behind_or(nodes, p5, end, p0, h0);
    let (p7, h7) = behind_or(nodes, p6, end, p0, h0);
    let hashed = hashed_eight(&[h0, h1, h2, h3, h4, h5, h6, h7]);
    Some(([p0, p1, p2, p3, p4, p5, p6, p7], hashed))
}

// The first place behind one, and before a node, where something waits, and its hasher; or another
// one where nothing waits there.
fn behind_or<'a, S: Store, L: Link>(
    nodes: &'a [Option<Node<S, L>>],
    from: Place,
    end: usize,
    other: Place,
    hasher: &'a WaitingHasher,
) -> (Place, &'a WaitingHasher)
    requires some { 0 < length nodes.now }
    requires other { HasHasherIn (other.node % length nodes.now) other.bucket hasher.now
        nodes.now }
    ensures { HasHasherIn (result.0.node % length nodes.now) result.0.bucket result.1.now
        nodes.now }
{
    match waiting_from(nodes, from.next(), end) {
        Some(found) => found,
        None => (other, hasher),
    }
}

impl Place {
    // The place behind it at the same node.
    fn next(self) -> Place {
        Place {
            node: self.node,
            bucket: self.bucket.saturating_add(1),
        }
    }
}

// The first place from one on, and before a node, where something waits, and its hasher.
fn waiting_from<S: Store, L: Link>(
    nodes: &[Option<Node<S, L>>],
    from: Place,
    end: usize,
) -> Option<(Place, &WaitingHasher)>
    requires { 0 < length nodes.now }
    ensures { IfSome result (λ found.
        HasHasherIn (found.0.node % length nodes.now) found.0.bucket found.1.now nodes.now) }
{
    let mut bucket = from.bucket;
    for number in from.node..end {
        if let Some(node) = &nodes[number % nodes.len()] {
            if let Some((position, hasher)) = node.waiting_from(bucket) {
                let place = Place {
                    node: number,
                    bucket: position,
                };
                return Some((place, hasher));
            }
        }
        bucket = 0;
    }
    None
}

// What waited at a place was hashed elsewhere.
fn take_over_at<S: Store, L: Link>(
    nodes: &mut [Option<Node<S, L>>],
    place: Place,
    hashed: TaggedHasher,
)
    requires some { 0 < length nodes.old }
    requires own { HasHasherIn (place.node % length nodes.old) place.bucket (input_of hashed)
        nodes.old }
    ensures { nodes.new ≡ nodes.old }
{
    let number = place.node % nodes.len();
    take_over_of(&mut nodes[number], place.bucket, hashed);
}

// What waited at a node was hashed elsewhere.
fn take_over_of<S: Store, L: Link>(
    node: &mut Option<Node<S, L>>,
    bucket: usize,
    hashed: TaggedHasher,
)
    requires { HasHasherOf bucket (input_of hashed) node.old }
    ensures { node.new ≡ node.old }
{
    if let Some(own) = node {
        own.take_over(bucket, hashed);
    }
}
