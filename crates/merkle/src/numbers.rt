//! The numbers of a tree's nodes, row by row from the root, which is 0. No call takes memory.

ghost use Rattle.std.specs.Prelude.{◌≡◌, ◌+◌, ◌^◌, ◌<◌, ◌≤◌, ℕ, slice_index};
ghost use Rattle.merkle.specs.Tree.{height, needed_numbers, node_number, sibling, sibling_number};

/// How often `n` leaves can be halved: the height of the tree over them.
pub fn height(n: u32) -> u32
    ensures value { result ≡ height n }
    ensures short { result ≤ 32 }
    ensures room { n ≤ 2 ^ result }
    ensures least { (k : ℕ) → k < result → 2 ^ k < n }
{
    for m in 0..32 {
        if u64::from(n) <= 1u64 << m {
            return m;
        }
    }
    32
}

/// The position of the other child of the same parent, in their row.
pub fn sibling(position: u32) -> u32
    ensures { result ≡ sibling position }
{
    if position % 2 == 0 {
        position + 1
    } else {
        position - 1
    }
}

/// The number of the node at a position of a row. The root is row 0, and row r has 2^r positions.
pub fn node_number(row: u32, position: u32) -> u32
    requires low { row < 32 }
    requires inside { position < 2 ^ row }
    ensures value { result ≡ node_number row position }
    ensures below { result + 1 < 2 ^ (row + 1) }
{
    (1 << row) - 1 + position
}

/// The number of the sibling of the node `i` rows above a leaf, in a tree of this height. The root
/// has none.
pub fn sibling_number(height: u32, leaf: u32, i: u32) -> u32
    requires low { height < 32 }
    requires inside { leaf < 2 ^ height }
    requires not_root { i < height }
    ensures value { result ≡ sibling_number height leaf i }
    ensures below { result + 1 < 2 ^ (height + 1) }
{
    node_number(height - i, sibling(leaf >> i))
}

/// The number at a position among those of the nodes that lead from a leaf to the root of a tree of
/// this height, which rise. There are as many of them as the tree has rows, one more than its
/// height.
pub fn needed_number(height: u32, leaf: u32, position: u32) -> u32
    requires low { height < 32 }
    requires inside { leaf < 2 ^ height }
    requires there { position ≤ height }
    ensures value { result ≡ slice_index (needed_numbers height leaf) position }
    ensures below { result + 1 < 2 ^ (height + 1) }
{
    if height == 0 {
        return 0;
    }
    if position + 1 < height {
        return sibling_number(height, leaf, height - position - 1);
    }
    let left = node_number(height, leaf / 2 * 2);
    if position < height { left } else { left + 1 }
}
