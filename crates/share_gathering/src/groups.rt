//! Segments of a file that are gathered at once, so that they are hashed side by side.

ghost use Rattle.std.specs.Prelude.{◌≡◌, ◌<◌, ◌≤◌};
ghost use Rattle.share_layout.specs.Geometry.{segment_count};
ghost use Rattle.share_gathering.specs.Groups.{IsGroup, at_once};

use share_layout::Geometry;

// The bytes of a share that are made at once, where a block has no more: 1 MiB.
const SHARE_ROOM: u32 = 1 << 20;

/// How many segments of a file are gathered at once: eight, or fewer where their blocks are large.
#[tactic(auto, unfolding(crate::specs::Groups::at_once))]
pub fn segments_at_once(geometry: &Geometry) -> u32
    ensures value { result ≡ at_once geometry.now }
    ensures few { result ≤ 8 }
    ensures some { 0 < result }
{
    (SHARE_ROOM / geometry.block_size()).min(8).max(1)
}

/// Segments that follow one another and are gathered at once: the number of the first, how many
/// there are, where they begin in their file, and how many bytes they and each share of them have.
#[derive(Clone, Copy)]
pub struct Group {
    pub first: u32,
    pub count: u32,
    pub offset: u64,
    pub len: usize,
    pub row: usize,
}

impl Group {
    /// The segments that begin with the one of this number: as many as are gathered at once, or
    /// those that are left.
    pub fn of(geometry: &Geometry, first: u32) -> Group
        requires { first < segment_count geometry.now }
        ensures is { IsGroup geometry.now result }
        ensures first { result.first ≡ first }
    {
        let size = u64::from(geometry.segment_size());
        let offset = u64::from(first) * size;
        let count = (geometry.segment_count() - first).min(segments_at_once(geometry));
        let len = (u64::from(count) * size).min(geometry.size() - offset) as usize;
        Group {
            first,
            count,
            offset,
            len,
            row: len.div_ceil(usize::from(geometry.needed())),
        }
    }
}
