//! The code of a file.

ghost use Rattle.std.specs.Prelude.{◌≡◌, IfOk};

use share_layout::Geometry;
use std::alloc::{AllocError, Global};
use zfec_code::{Code, CodeError};

/// The code of a file.
pub fn file_code(alloc: Global, geometry: &Geometry) -> Result<Code, AllocError>
    ensures { IfOk result (λ code. code ≡ record {
      k = geometry.now.needed;
      n = geometry.now.total;
    }) }
{
    match Code::new(alloc, geometry.needed(), geometry.total()) {
        Ok(code) => Ok(code),
        Err(CodeError::OutOfMemory) => Err(AllocError),
        Err(_) => unreachable!(),
    }
}
