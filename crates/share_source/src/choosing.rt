//! Which of the shares that may be read are taken.

ghost use Rattle.std.specs.Prelude.{◌≡◌, ◌+◌, ◌<◌, ◌≤◌, ◌↔◌, ℕ, All, Contains, IfNone, IfOk};
ghost use Rattle.std.specs.Prelude.{IfSome, IsTrue, Some, false, length, remove, slice_get};
ghost use Rattle.std.specs.Prelude.{slice_index};
ghost use Rattle.zfec_code.specs.Rows.{AreDistinct};
ghost use Rattle.share_source.specs.Candidates.{AreFirst, picked_numbers};

use crate::bytes::ShareBytes;
use crate::candidates::Candidates;
use std::alloc::{AllocError, Global};

/// The positions of the first shares of different numbers: as many as are needed, or all that there
/// are.
pub(crate) fn first_positions(
    alloc: Global,
    numbers: &[u16],
    needed: usize,
) -> Result<Vec<usize>, AllocError>
    ensures there { IfOk result (λ ps. All (λ p. p < length numbers.now) ps.items) }
    ensures count { IfOk result (λ ps. length ps.items ≤ needed) }
    ensures distinct { IfOk result (λ ps. AreDistinct (picked_numbers numbers.now ps.items)) }
    ensures first { IfOk result (λ ps. AreFirst numbers.now ps.items) }
    ensures all { IfOk result (λ ps. length ps.items < needed → (p : ℕ) → p < length numbers.now
        → Contains (picked_numbers numbers.now ps.items) (slice_index numbers.now p)) }
{
    let mut positions = Vec::with_capacity(alloc, needed)?;
    for position in 0..numbers.len() {
        let number = numbers[position];
        if positions.len() < needed && !is_among(numbers, &positions, number) {
            positions.push(position)?;
        }
    }
    Ok(positions)
}

/// The position of a share that may take the place of one of those that are read: the first that is
/// not struck out and has none of the others' numbers.
pub(crate) fn find_spare<B: ShareBytes + Drop>(
    candidates: &Candidates<B>,
    positions: &[usize],
    index: usize,
) -> Option<usize>
    requires there { All (λ p. p < length candidates.now.numbers) positions.now }
    requires index { index < length positions.now }
    ensures left { IfSome result (λ p. slice_get candidates.now.struck p ≡ Some false) }
    ensures unlike { IfSome result (λ p. ¬ Contains
        (picked_numbers candidates.now.numbers (remove positions.now index))
        (slice_index candidates.now.numbers p)) }
    ensures first { IfSome result (λ p. (earlier : ℕ) → earlier < p
        → slice_get candidates.now.struck earlier ≡ Some false
        → Contains (picked_numbers candidates.now.numbers (remove positions.now index))
        (slice_index candidates.now.numbers earlier)) }
    ensures none { IfNone result ((p : ℕ) → slice_get candidates.now.struck p ≡ Some false
        → Contains (picked_numbers candidates.now.numbers (remove positions.now index))
        (slice_index candidates.now.numbers p)) }
{
    let numbers = candidates.numbers();
    for position in 0..numbers.len() {
        let number = numbers[position];
        if candidates.is_left(position)
            && !is_among(numbers, &positions[..index], number)
            && !is_among(numbers, &positions[index + 1..], number)
        {
            return Some(position);
        }
    }
    None
}

// Whether one of the shares at these positions has this number.
fn is_among(numbers: &[u16], positions: &[usize], number: u16) -> bool
    requires { All (λ p. p < length numbers.now) positions.now }
    ensures { IsTrue result ↔ Contains (picked_numbers numbers.now positions.now) number }
{
    for position in positions {
        if numbers[*position] == number {
            return true;
        }
    }
    false
}
