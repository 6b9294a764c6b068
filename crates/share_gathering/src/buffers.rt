//! Room for the segments and the blocks that are made at once.

ghost use Rattle.std.specs.Prelude.{IfOk};
ghost use Rattle.share_gathering.specs.Buffers.{AreBuffers};

use crate::groups::segments_at_once;
use share_layout::Geometry;
use std::alloc::{AllocError, Global};

/// Room for eight segments with their padding, and for the blocks of eight shares that are made at
/// once.
#[derive(Drop)]
pub struct Buffers {
    pub segments: Vec<u8>,
    pub lanes: Vec<u8>,
}

impl Buffers {
    /// Buffers for the segments and blocks of a file.
    pub fn of(alloc: Global, geometry: &Geometry) -> Result<Buffers, AllocError>
        ensures { IfOk result (AreBuffers geometry.now) }
    {
        let blocks = segments_at_once(geometry) * geometry.block_size();
        Ok(Buffers {
            segments: vec![in alloc; 0u8; 8 * geometry.segment_size() as usize]?,
            lanes: vec![in alloc; 0u8; 8 * blocks as usize]?,
        })
    }
}
