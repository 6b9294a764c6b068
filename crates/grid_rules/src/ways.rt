//! The ways of a grid: by which numbers its files are put, where a put does not say.

ghost use Rattle.std.specs.Prelude.{◌≡◌, ◌^◌, ◌<◌, ◌++◌, ℕ, List, IfOk, IfSome, IsSomeAnd};
ghost use Rattle.std.specs.String.{string_bytes};
ghost use Rattle.catalogues.specs.Pieces.{Stops};
ghost use Rattle.file_encoding.specs.Params.{UploadParameters};
ghost use Rattle.grid_rules.specs.Ways.{AreWays, two_then, ways_text};

use catalogues::number_behind;
use file_encoding::Params;
use std::alloc::{AllocError, Global};

/// The text of a grid's ways: one line.
pub fn ways_text(alloc: Global, ways: &Params) -> Result<String, AllocError>
    ensures { IfOk result (λ text. string_bytes text ≡ ways_text ways.now) }
{
    let (needed, total) = (ways.needed(), ways.total());
    let (happy, segment) = (ways.happy(), ways.max_segment());
    format!(in alloc; "ways k {needed} n {total} happy {happy} segment {segment}\n")
}

/// The ways that have this text, which is read exactly where it is that of some.
pub fn read_ways(text: &[u8]) -> Option<Params>
    ensures found { IfSome result (λ ways. AreWays ways × (text.now ≡ ways_text ways)) }
    ensures only { (ways : UploadParameters) → AreWays ways → text.now ≡ ways_text ways
        → IsSomeAnd result (λ found. found ≡ ways) }
{
    let Some((needed, total, rest)) = two_behind(text, b"ways k ", b" n ") else {
        return None;
    };
    let Some((happy, segment, rest)) = two_behind(rest, b" happy ", b" segment ") else {
        return None;
    };
    if rest != b"\n".as_slice() {
        return None;
    }
    Params::new(needed, happy, total, segment).ok()
}

// Two numbers in decimal, each behind a word, with which a text begins, and what follows them. No
// digit goes on at the second word.
fn two_behind<'a>(text: &'a [u8], first: &[u8], second: &[u8]) -> Option<(u64, u64, &'a [u8])>
    requires { (rest : List ℕ) → Stops (second.now ++ rest) }
    ensures found { IfSome result
        (λ x. text.entry.now ≡ two_then first.now second.now x.0 x.1 x.2.now) }
    ensures only { (m n : ℕ) (rest : List ℕ) → m < 2 ^ 64 → n < 2 ^ 64 → Stops rest
        → text.entry.now ≡ two_then first.now second.now m n rest
        → IsSomeAnd result (λ x. (x.0 ≡ m) × (x.1 ≡ n) × (x.2.now ≡ rest)) }
{
    let Some((m, rest)) = number_behind(text, first) else {
        return None;
    };
    let Some((n, rest)) = number_behind(rest, second) else {
        return None;
    };
    Some((m, n, rest))
}
