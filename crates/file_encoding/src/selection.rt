// Which shares a reader takes: of the lowest numbers that pass every check, the first string each.

ghost use Rattle.std.specs.Prelude.{◌≡◌, ◌≤◌, ◌<◌, ◌+◌, ℕ, List, length, map, IfOk, OnOk, IfSome};
ghost use Rattle.std.specs.Prelude.{IsNone, IsTrue, ◌↔◌};
ghost use Rattle.share_verify.specs.Verify.{IsSoundShare};
ghost use Rattle.file_encoding.specs.Reading.{IsFirstSound, IsSoundAt, NoneSound};
ghost use Rattle.file_encoding.specs.LowestShares.{AreLowestAt};

use cap_text::VerifyCap;
use share_verify::verify_share;
use std::alloc::{AllocError, Global};

/// Where the shares of the lowest numbers that pass every check stand among the strings: as many as
/// are needed, or as there are. Of the strings with one number the first one that passes counts,
/// and no other is looked at.
pub(crate) fn take_lowest(
    alloc: Global,
    cap: &VerifyCap,
    shares: &[(u16, &[u8])],
) -> Result<Vec<usize>, AllocError>
    ensures { IfOk result (λ positions. AreLowestAt cap.now (map (λ s. s.0) shares.now)
        (map (λ s. s.1.now) shares.now) cap.now.total positions.items) }
{
    let mut positions = Vec::with_capacity(alloc, usize::from(cap.needed()))?;
    for number in 0..cap.total() {
        take_number(cap, number, shares, &mut positions)?;
    }
    Ok(positions)
}

// Takes the first string with this number that passes every check, where one more share is needed.
fn take_number(
    cap: &VerifyCap,
    number: u16,
    shares: &[(u16, &[u8])],
    positions: &mut Vec<usize>,
) -> Result<(), AllocError>
    requires { AreLowestAt cap.now (map (λ s. s.0) shares.now)
        (map (λ s. s.1.now) shares.now) number positions.old.items }
    ensures { OnOk result (AreLowestAt cap.now (map (λ s. s.0) shares.now)
        (map (λ s. s.1.now) shares.now) (number + 1) positions.new.items) }
{
    if positions.len() >= usize::from(cap.needed()) {
        return Ok(());
    }
    if let Some(position) = first_sound(cap, number, shares) {
        positions.push(position)?;
    }
    Ok(())
}

// The position of the first string with this number that passes every check.
fn first_sound(cap: &VerifyCap, number: u16, shares: &[(u16, &[u8])]) -> Option<usize>
    ensures some { IfSome result (λ position. IsFirstSound cap.now (map (λ s. s.0) shares.now)
        (map (λ s. s.1.now) shares.now) number position) }
    ensures none { IsNone result → NoneSound cap.now (map (λ s. s.0) shares.now)
        (map (λ s. s.1.now) shares.now) number }
{
    for position in 0..shares.len() {
        if is_sound_at(cap, number, shares, position) {
            return Some(position);
        }
    }
    None
}

// Whether the string at a position comes with this number, and passes every check as that share.
fn is_sound_at(cap: &VerifyCap, number: u16, shares: &[(u16, &[u8])], position: usize) -> bool
    requires { position < length shares.now }
    ensures { IsTrue result ↔ IsSoundAt cap.now (map (λ s. s.0) shares.now)
        (map (λ s. s.1.now) shares.now) number position }
{
    let (other, string) = shares[position];
    other == number && is_sound(cap, number, string)
}

// Whether a string passes every check as the share of this number.
fn is_sound(cap: &VerifyCap, number: u16, share: &[u8]) -> bool
    ensures { IsTrue result ↔ IsSoundShare cap.now number share.now }
{
    match verify_share(cap, number, share) {
        Ok(()) => true,
        Err(_) => false,
    }
}
