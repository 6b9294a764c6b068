//! The hashers of the whole shares of a file.

ghost use Rattle.std.specs.Prelude.{◌≡◌, IfOk, length};
ghost use Rattle.std.specs.Int.{div_ceil};
ghost use Rattle.tagged_hash.specs.Wholes.{AreGiven};
ghost use Rattle.share_gathering.specs.Gathered.{gathered_none};

use share_layout::Geometry;
use std::alloc::{AllocError, Global};
use tagged_hash::WholeHashers;

/// The hashers of all shares of a file, which were given the header of each.
pub fn begin_wholes(alloc: Global, geometry: &Geometry) -> Result<Vec<WholeHashers>, AllocError>
    ensures count { IfOk result (λ wholes. length wholes.items ≡ div_ceil geometry.now.total 7) }
    ensures begun { IfOk result (λ wholes. AreGiven geometry.now.total
        (gathered_none geometry.now).written wholes.items) }
{
    let total = usize::from(geometry.total());
    let mut header = [0; 68];
    let length = geometry.header(&mut header);
    let groups = total.div_ceil(7);
    let mut wholes = Vec::with_capacity(alloc, groups)?;
    for group in 0..groups {
        let mut whole = WholeHashers::new(total - 7 * group);
        whole.update_all(&header[..length]);
        wholes.push(whole)?;
    }
    Ok(wholes)
}
