// Trees over the leaves of 32 bytes 0, 1, 2, ..; the nodes were computed by Python's hashlib.

use merkle::{Padding, Partial, Tree, check_path};
use std::alloc::Global;

static LEAVES: [[u8; 32]; 5] = [[0; 32], [1; 32], [2; 32], [3; 32], [4; 32]];

static OTHERS: [[u8; 32]; 5] = [[9; 32]; 5];

// Whether the root of the first leaves begins so.
fn has_root(alloc: Global, count: usize, start: [u8; 4]) -> bool {
    if count == 0 || count > 5 {
        return false;
    }
    match Tree::build(alloc, &LEAVES[..count]) {
        Ok(tree) => tree.root().starts_with(&start),
        Err(_) => false,
    }
}

#[test]
fn roots(rt: HostRuntime) {
    let rows = [
        (1, [0x00, 0x00, 0x00, 0x00]),
        (2, [0x6f, 0x30, 0x6e, 0x3d]),
        (3, [0x92, 0xe7, 0x0a, 0x7a]),
        (4, [0x0c, 0x0d, 0x81, 0xd9]),
        (5, [0x5d, 0xfb, 0xcd, 0xa6]),
    ];
    for (count, start) in rows {
        assert!(rt; has_root(rt.alloc(), count, start), "{count} leaves");
    }
}

// Whether there are as many hashes, and each begins so.
fn begin_so(hashes: &[[u8; 32]], starts: &[[u8; 4]]) -> bool {
    for (hash, start) in hashes.iter().zip(starts) {
        if !hash.starts_with(start) {
            return false;
        }
    }
    hashes.len() == starts.len()
}

#[test]
fn nodes_row_by_row(rt: HostRuntime) {
    let starts = [
        [0x92, 0xe7, 0x0a, 0x7a],
        [0x6f, 0x30, 0x6e, 0x3d],
        [0x04, 0x67, 0x5a, 0xcc],
        [0x00, 0x00, 0x00, 0x00],
        [0x01, 0x01, 0x01, 0x01],
        [0x02, 0x02, 0x02, 0x02],
        [0x9e, 0xd5, 0x90, 0x76],
    ];
    let is_right = match Tree::build(rt.alloc(), &LEAVES[..3]) {
        Ok(tree) => begin_so(tree.nodes(), &starts),
        Err(_) => false,
    };
    assert!(rt; is_right);
}

// Whether the tree of five leaves has these nodes beside a tree of so many other leaves.
fn is_built_beside(alloc: Global, count: usize, nodes: &[[u8; 32]]) -> bool {
    if count == 0 || count > 5 {
        return false;
    }
    let Ok(other) = Tree::build(alloc, &OTHERS[..count]) else {
        return false;
    };
    match other.build_beside(alloc, &LEAVES) {
        Ok(tree) => tree.nodes() == nodes && tree.root().starts_with(&ROOT_OF_FIVE),
        Err(_) => false,
    }
}

#[test]
fn trees_beside_others(rt: HostRuntime) {
    let is_right = match Tree::build(rt.alloc(), &LEAVES) {
        Ok(tree) => {
            is_built_beside(rt.alloc(), 5, tree.nodes())
                && is_built_beside(rt.alloc(), 3, tree.nodes())
        }
        Err(_) => false,
    };
    assert!(rt; is_right);
}

// Whether a share's leaf of the tree of five, or of one, needs these nodes.
fn needs(alloc: Global, leaves: &[[u8; 32]], leaf: u32, numbers: &[u32]) -> bool {
    if leaves.len() > 5 || leaf as usize >= leaves.len() {
        return false;
    }
    let Ok(tree) = Tree::build(alloc, leaves) else {
        return false;
    };
    match tree.needed(alloc, leaf) {
        Ok(needed) => needed.as_slice() == numbers,
        Err(_) => false,
    }
}

#[test]
fn needed_numbers_rise(rt: HostRuntime) {
    assert!(rt; needs(rt.alloc(), &LEAVES[..1], 0, &[0]));
    let rows = [(0, [2, 4, 7, 8]), (3, [2, 3, 9, 10]), (4, [1, 6, 11, 12])];
    for (leaf, numbers) in rows {
        assert!(rt; needs(rt.alloc(), &LEAVES, leaf, &numbers), "leaf {leaf}");
    }
}

const ROOT_OF_FIVE: [u8; 4] = [0x5d, 0xfb, 0xcd, 0xa6];

// The path of the last leaf, from below.
static PATH: [[u8; 4]; 3] = [
    [0x28, 0x9c, 0xa3, 0x08],
    [0x95, 0x7e, 0x90, 0x27],
    [0x0c, 0x0d, 0x81, 0xd9],
];

// Whether this path leads from the last of five leaves to the root, and from no other leaf,
// position or number of leaves, and not cut.
fn leads(root: &[u8; 32], path: &[[u8; 32]]) -> bool {
    check_path(root, 5, 4, &LEAVES[4], path)
        && !check_path(root, 5, 4, &LEAVES[3], path)
        && !check_path(root, 5, 3, &LEAVES[4], path)
        && !check_path(root, 4, 4, &LEAVES[4], path)
        && !check_path(root, 5, 4, &LEAVES[4], &path[..path.len().min(2)])
}

#[test]
fn paths_lead_to_the_root(rt: HostRuntime) {
    let alloc = rt.alloc();
    let is_right = match Tree::build(alloc, &LEAVES) {
        Ok(tree) => match tree.path(alloc, 4) {
            Ok(path) => begin_so(&path, &PATH) && leads(&tree.root(), &path),
            Err(_) => false,
        },
        Err(_) => false,
    };
    assert!(rt; is_right);
}

// Whether a tree of five leaves and what it gives are right, where memory was not refused.
fn gives_or_is_refused(alloc: Global) -> bool {
    let Ok(tree) = Tree::build(alloc, &LEAVES) else {
        return true;
    };
    let is_path = match tree.path(alloc, 4) {
        Ok(path) => begin_so(&path, &PATH),
        Err(_) => true,
    };
    let is_needed = match tree.needed(alloc, 4) {
        Ok(needed) => needed.as_slice() == [1, 6, 11, 12].as_slice(),
        Err(_) => true,
    };
    is_path && is_needed && tree.root().starts_with(&ROOT_OF_FIVE)
}

#[test]
fn refused_memory_in_a_tree(rt: HostRuntime) {
    assert!(rt; gives_or_is_refused(rt.alloc()));
}

// ---- trees of which some nodes are known

static EIGHT: [[u8; 32]; 8] = [
    [0; 32], [1; 32], [2; 32], [3; 32], [4; 32], [5; 32], [6; 32], [7; 32],
];

// Whether a set of node numbers has one.
fn has(set: u32, number: u32) -> bool {
    number < 32 && set >> number & 1 == 1
}

// The set with a number more.
fn with(set: u32, number: u32) -> u32 {
    if number < 32 { set | 1 << number } else { set }
}

// The number of the sibling of a node below the root.
fn beside(number: u32) -> u32 {
    if number % 2 == 0 {
        number.saturating_sub(1)
    } else {
        number.saturating_add(1)
    }
}

// These nodes, and those above them, in a tree of so many nodes.
fn touched(offered: u32, count: u32) -> u32 {
    let mut set = offered;
    for number in (1..count.min(31)).rev() {
        if has(set, number) {
            set = with(set, (number - 1) / 2);
        }
    }
    set
}

// Whether right hashes of these nodes can be taken, where these others are known: each touched node
// below the root has a sibling that is known or touched.
fn can_be_taken(touched: u32, known: u32, count: u32) -> bool {
    (1..count.min(31)).all(|number| !has(touched, number) || has(touched | known, beside(number)))
}

// The nodes that a partial tree knows.
fn known_nodes(partial: &Partial, count: u32) -> u32 {
    let mut set = 0;
    for number in 0..count {
        if partial.node(number).is_some() {
            set = with(set, number);
        }
    }
    set
}

// What is offered of a tree's nodes: those of a set, one of them perhaps with another hash.
fn offers_of(
    alloc: Global,
    tree: &Tree,
    set: u32,
    wrong: Option<u32>,
) -> Option<Vec<(u32, [u8; 32])>> {
    let mut offers = Vec::new(alloc);
    for (hash, number) in tree.nodes().iter().zip(0u32..32) {
        if has(set, number) {
            let hash = if wrong == Some(number) {
                [9; 32]
            } else {
                *hash
            };
            offers.push((number, hash)).ok()?;
        }
    }
    Some(offers)
}

// Whether nodes of a set are taken or refused as they have to be, and what is known afterwards is
// right. One of them may have a wrong hash.
fn is_answered_right(
    alloc: Global,
    tree: &Tree,
    leaves: u32,
    set: u32,
    wrong: Option<u32>,
) -> bool {
    if leaves == 0 || leaves > 8 {
        return false;
    }
    let count = tree.nodes().len().min(31) as u32;
    let (Ok(mut partial), Some(offers)) = (
        Partial::new(alloc, &tree.root(), &Padding::of(leaves)),
        offers_of(alloc, tree, set, wrong),
    ) else {
        return false;
    };
    let known = known_nodes(&partial, count);
    let touched = touched(set, count);
    let is_right = wrong.is_none() && can_be_taken(touched, known, count);
    let is_taken = partial.offer(&offers).is_ok();
    let after = if is_taken { known | touched } else { known };
    is_taken == is_right
        && known_nodes(&partial, count) == after
        && tells_the_nodes(&partial, tree, after)
}

// Whether what is known of these nodes is what the tree has.
fn tells_the_nodes(partial: &Partial, tree: &Tree, set: u32) -> bool {
    tree.nodes().iter().zip(0u32..32).all(|(hash, number)| !has(set, number)
        || partial.node(number) == Some(*hash))
}

// Whether each set of at most four nodes of the tree of so many leaves is answered right, with
// right hashes and with one wrong one.
fn all_offers_are_right(alloc: Global, leaves: usize) -> bool {
    if leaves == 0 || leaves > 8 {
        return false;
    }
    let Ok(tree) = Tree::build(alloc, &EIGHT[..leaves]) else {
        return false;
    };
    let count = tree.nodes().len().min(31) as u32;
    for set in 0..1u32 << count.min(15) {
        if set.count_ones() > 4 {
            continue;
        }
        if !is_answered_right(alloc, &tree, leaves as u32, set, None) {
            return false;
        }
        let wrong = set.trailing_zeros();
        if set > 0 && !is_answered_right(alloc, &tree, leaves as u32, set, Some(wrong)) {
            return false;
        }
    }
    true
}

#[test]
fn offers_are_taken_with_their_siblings(rt: HostRuntime) {
    for leaves in [1, 2, 3, 5, 8] {
        assert!(rt; all_offers_are_right(rt.alloc(), leaves), "{leaves} leaves");
    }
}

// Whether a leaf of a tree of 2^20 leaves, known by its siblings alone, has a path to the root.
fn leads_far(alloc: Global) -> bool {
    let mut hash = [7; 32];
    let mut offers = Vec::new(alloc);
    let mut number: u32 = (1 << 20) - 1 + 5;
    for _ in 0..20 {
        let other = [3; 32];
        if offers.push((number, hash)).is_err() || offers.push((beside(number), other)).is_err() {
            return false;
        }
        hash = if number % 2 == 1 {
            tagged_hash::pair(&hash, &other)
        } else {
            tagged_hash::pair(&other, &hash)
        };
        number = number.saturating_sub(1) / 2;
    }
    let Ok(mut partial) = Partial::new(alloc, &hash, &Padding::of(1 << 20)) else {
        return false;
    };
    if partial.offer(&offers).is_err() {
        return false;
    }
    match partial.path(5) {
        Ok(Some(path)) => check_path(&hash, 1 << 20, 5, &[7; 32], &path),
        _ => false,
    }
}

#[test]
fn a_path_is_known_alone(rt: HostRuntime) {
    assert!(rt; leads_far(rt.alloc()));
}

// Whether a partial tree of five leaves needs these nodes of a leaf, before and after its sibling
// is known.
fn needs_less(alloc: Global) -> bool {
    let Ok(tree) = Tree::build(alloc, &LEAVES) else {
        return false;
    };
    let Ok(mut partial) = Partial::new(alloc, &tree.root(), &Padding::of(5)) else {
        return false;
    };
    let all = match partial.needed(4) {
        Ok(numbers) => numbers.as_slice() == [1, 11].as_slice(),
        Err(_) => false,
    };
    let Some(offers) = offers_of(alloc, &tree, 1 << 1 | 1 << 11 | 1 << 12, None) else {
        return false;
    };
    let is_taken = partial.offer(&offers).is_ok();
    let none = match partial.needed(4) {
        Ok(numbers) => numbers.is_empty(),
        Err(_) => false,
    };
    all && is_taken && none
}

#[test]
fn needed_nodes_are_those_not_known(rt: HostRuntime) {
    assert!(rt; needs_less(rt.alloc()));
}

// Whether all nodes over empty leaves alone are those of a tree of so many leaves, of which they
// are known from the first.
fn padding_is_known(alloc: Global, leaf_count: usize) -> bool {
    let Ok(leaves) = vec![in alloc; [5; 32]; leaf_count] else {
        return false;
    };
    if leaves.is_empty() || leaves.len() > 1_000 {
        return false;
    }
    let count = leaves.len() as u32;
    let Ok(tree) = Tree::build(alloc, &leaves) else {
        return false;
    };
    let Ok(partial) = Partial::new(alloc, &tree.root(), &Padding::of(count)) else {
        return false;
    };
    let mut known: u32 = 0;
    for (hash, number) in tree.nodes().iter().zip(0u32..2_047) {
        match partial.node(number) {
            Some(told) if told != *hash => return false,
            Some(_) => known = known.saturating_add(1),
            None => {}
        }
    }
    known > 1
}

#[test]
fn padding_is_that_of_the_tree(rt: HostRuntime) {
    for leaf_count in [3, 7, 129, 300, 600] {
        assert!(rt;
            padding_is_known(rt.alloc(), leaf_count),
            "{leaf_count} leaves"
        );
    }
}
