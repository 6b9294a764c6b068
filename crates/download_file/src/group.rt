//! The group of the readers that are read.

ghost use Rattle.std.specs.Prelude.{◌≡◌, ◌<◌, All, IfOk, OnErr, OnOk, length};
ghost use Rattle.download_segments.specs.Decoding.{AreShareNumbers};
ghost use Rattle.download_file.specs.State.{numbers_of};
ghost use Rattle.download_file.specs.Steps.{BeginsGroup};

use crate::reader::Reader;
use download_segments::{Group, is_last_of, push_group};
use share_layout::Geometry;
use std::alloc::{AllocError, Global};

/// The last group is of the readers at these positions: it was, or such a group is added, from this
/// segment on.
pub(crate) fn begin_group(
    alloc: Global,
    groups: &mut Vec<Group>,
    geometry: &Geometry,
    readers: &[Reader],
    positions: &[usize],
    number: u32,
) -> Result<(), AllocError>
    requires there { All (λ position. position < length readers.now) positions.now }
    requires shares { AreShareNumbers geometry.now (numbers_of readers.now positions.now) }
    ensures begins { OnOk result (BeginsGroup groups.old.items geometry.now readers.now
        positions.now
        number groups.new.items) }
    ensures unchanged { OnErr result (groups.new.items ≡ groups.old.items) }
{
    if is_last_of(groups, positions) {
        return Ok(());
    }
    let numbers = share_numbers(alloc, readers, positions)?;
    push_group(alloc, groups, geometry, positions, numbers, number)
}

// The numbers of the shares of the readers at these positions.
fn share_numbers(
    alloc: Global,
    readers: &[Reader],
    positions: &[usize],
) -> Result<Vec<u16>, AllocError>
    requires { All (λ position. position < length readers.now) positions.now }
    ensures { IfOk result (λ numbers. numbers.items ≡ numbers_of readers.now positions.now) }
{
    let mut numbers = Vec::with_capacity(alloc, positions.len())?;
    for position in positions {
        numbers.push(u16::from(readers[*position].share()))?;
    }
    Ok(numbers)
}
