//! The numbers that share hashes carry.

ghost use Rattle.std.specs.Prelude.{◌≡◌, ◌+◌, ◌*◌, ◌^◌, ◌<◌, ◌≤◌, ◌↔◌, length, take, IsTrue};
ghost use Rattle.std.specs.Int.{w16, to_be_bytes};
ghost use Rattle.merkle.specs.Tree.{height, needed_numbers};
ghost use Rattle.share_layout.specs.Geometry.{hashes_size};
ghost use Rattle.share_layout.specs.Share.{CarriesNumbers};

use crate::geometry::Geometry;
use merkle::needed_number;

/// Whether a file with this geometry has a share of this number, and share hashes, which have their
/// length, carry the numbers of the nodes that lead from the share to the root over all shares.
pub fn carries_numbers(geometry: &Geometry, number: u16, hashes: &[u8]) -> bool
    requires { length hashes.now ≡ hashes_size geometry.now }
    ensures { IsTrue result ↔ ((number < geometry.now.total)
        × CarriesNumbers (needed_numbers (height geometry.now.total) number) hashes.now) }
{
    number < geometry.total() && carry(hashes, geometry.share_tree_height(), number)
}

// Whether hashes, 34 bytes each, carry the numbers of the nodes that lead from a leaf to the root
// of a tree of this height.
fn carry(hashes: &[u8], height: u32, leaf: u16) -> bool
    requires low { height ≤ 8 }
    requires inside { leaf < 2 ^ height }
    requires long { length hashes.now ≡ (height + 1) * 34 }
    ensures { IsTrue result ↔ CarriesNumbers (needed_numbers height leaf) hashes.now }
{
    let mut rest = hashes;
    for offset in 0..height + 1 {
        let number = needed_number(height, u32::from(leaf), offset);
        if !has_number(rest, number as u16) {
            return false;
        }
        rest = &rest[34..];
    }
    true
}

// Whether a hash begins with a number in two bytes.
fn has_number(hash: &[u8], number: u16) -> bool
    ensures { IsTrue result ↔ (take 2 hash.now ≡ to_be_bytes w16 number) }
{
    hash.starts_with(&number.to_be_bytes())
}
