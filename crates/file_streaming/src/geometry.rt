// How a file is cut, and what is written of it.

ghost use Rattle.std.specs.Prelude.{◌≡◌, ◌⊎◌, ◌<◌, ◌≤◌, length, IfOk, IfErr, IsErrOf};
ghost use Rattle.cap_text.specs.Cap.{read_cap_value};
ghost use Rattle.ueb.specs.Limits.{max_file_size, max_length};
ghost use Rattle.ueb.specs.Shape.{IsFile, IsSegmentSize};
ghost use Rattle.ueb.specs.Block.{ueb_text};
ghost use Rattle.share_layout.specs.Geometry.{geometry_of};
ghost use Rattle.file_encoding.specs.Params.{HasTooManySegments, IsEncodable};

use crate::error::PrepareError;
use cap_text::ReadCap;
use file_encoding::Params;
use share_layout::Geometry;
use std::alloc::{AllocError, Global};
use ueb::{Expect, MAX_FILE_SIZE, Ueb};

/// The geometry of a file of this size.
pub(crate) fn file_geometry(size: u64, params: &Params) -> Result<Geometry, PrepareError>
    requires { 0 < size }
    ensures given { IfOk result (λ g. g
        ≡ geometry_of size params.now.needed params.now.total params.now.max_segment) }
    ensures segments { IfOk result (λ g. IsSegmentSize g.needed g.size g.segment_size) }
    ensures fits { IfOk result (λ _. IsEncodable size params.now) }
    ensures too_large { IsErrOf result PrepareError.TooLarge → max_file_size < size }
    ensures too_many { IsErrOf result PrepareError.TooManySegments
        → HasTooManySegments size params.now }
    ensures no_other { IfErr result
        (λ e. (e ≡ PrepareError.TooLarge) ⊎ (e ≡ PrepareError.TooManySegments)) }
{
    if size > MAX_FILE_SIZE {
        return Err(PrepareError::TooLarge);
    }
    // The parameters are in their ranges.
    Geometry::of(size, params.needed(), params.total(), params.max_segment()).map_err(
        |_| PrepareError::TooManySegments,
    )
}

/// The extension block of a file.
pub(crate) fn write_extension_block(
    alloc: Global,
    geometry: &Geometry,
    crypttext_hash: [u8; 32],
    ciphertext_root: [u8; 32],
    share_root: [u8; 32],
) -> Result<Vec<u8>, AllocError>
    requires file { IsFile geometry.now.needed geometry.now.total geometry.now.size }
    requires segments { IsSegmentSize geometry.now.needed geometry.now.size
        geometry.now.segment_size }
    ensures text { IfOk result (λ text. text.items ≡ ueb_text (record {
      needed_shares = geometry.now.needed;
      total_shares = geometry.now.total;
      size = geometry.now.size;
      segment_size = geometry.now.segment_size;
      crypttext_hash = crypttext_hash;
      crypttext_root_hash = ciphertext_root;
      share_root_hash = share_root;
    })) }
    ensures short { IfOk result (λ text. length text.items ≤ max_length) }
{
    let expect = Expect {
        needed: geometry.needed(),
        total: geometry.total(),
        size: geometry.size(),
    };
    let block = Ueb::new(
        &expect,
        geometry.segment_size(),
        crypttext_hash,
        ciphertext_root,
        share_root,
    );
    block.write(alloc).map_err(|_| AllocError)
}

/// The cap of a file.
pub(crate) fn file_cap(geometry: &Geometry, key: [u8; 16], ueb_hash: [u8; 32]) -> ReadCap
    requires { IsFile geometry.now.needed geometry.now.total geometry.now.size }
    ensures { result ≡ read_cap_value key ueb_hash geometry.now.needed geometry.now.total
        geometry.now.size }
{
    match ReadCap::new(
        key,
        ueb_hash,
        geometry.needed(),
        geometry.total(),
        geometry.size(),
    ) {
        Ok(cap) => cap,
        Err(_) => unreachable!(),
    }
}
