//! Where blocks lie in shares.

ghost use Rattle.std.specs.Prelude.{◌≡◌, ◌<◌, ◌≤◌, ◌^◌};
ghost use Rattle.share_layout.specs.Geometry.{segment_count};
ghost use Rattle.share_source.specs.Decoded.{block_place};

use share_layout::Geometry;

/// Where the block of a segment lies in each share: its first byte and its length.
#[derive(Clone, Copy, Drop)]
pub(crate) struct Place {
    pub segment: u32,
    pub begin: u64,
    pub size: usize,
}

impl Place {
    /// The place of a segment's blocks.
    pub fn of(geometry: &Geometry, segment: u32) -> Place
        requires { segment < segment_count geometry.now }
        ensures place { result ≡ block_place geometry.now segment }
        ensures small { result.begin < 2 ^ 53 }
    {
        let before = u64::from(segment) * u64::from(geometry.block_size());
        Place {
            segment,
            begin: geometry.layout().header_size() as u64 + before,
            size: geometry.block_length(segment) as usize,
        }
    }
}
