//! The digests of all shares, of which the beginnings were hashed.

ghost use Rattle.std.specs.Prelude.{◌≡◌, ◌+◌, ◌<◌, ◌++◌, ℕ, List, [], IfOk, length, map};
ghost use Rattle.std.specs.Prelude.{slice_index_or};
ghost use Rattle.std.specs.Int.{div_ceil};
ghost use Rattle.std.specs.List.{range_with_len};
ghost use Rattle.tagged_hash.specs.TaggedHash.{tagged_hash};
ghost use Rattle.tagged_hash.specs.declared.tag.Tag.TheVariants.{WholeShare};
ghost use Rattle.tagged_hash.specs.Wholes.{AreGiven, IsGivenAt};

use crate::wholes::WholeHashers;
use std::alloc::{AllocError, Global};

/// What is left of shares, of which the hashers were given the beginnings.
pub trait Endings {
    /// How many shares there are.
    ghost count: { Self → ℕ };

    /// What is left of the share of a number.
    ghost ending: { Self → ℕ → List ℕ };

    /// Gives the hashers of seven shares, from this number on, what is left of each, or of those
    /// that there are.
    fn give(&self, first: usize, whole: &mut WholeHashers)
        requires { first < count self.now }
        ensures { (j : ℕ) (given : List ℕ) → j < 7 → first + j < count self.now
            → IsGivenAt whole.old j given
            → IsGivenAt whole.new j (given ++ ending self.now (first + j)) };
}

/// The digests of so many shares, by number, whose hashers were given the beginnings.
pub fn finish_digests<E: Endings>(
    alloc: Global,
    endings: &E,
    total: usize,
    wholes: Vec<WholeHashers>,
) -> Result<Vec<[u8; 32]>, AllocError>
    requires total { total ≡ E.count endings.now }
    requires groups { length wholes.items ≡ div_ceil total 7 }
    ensures { (written : ℕ → List ℕ) → AreGiven total written wholes.items
        → IfOk result (λ digests. digests.items ≡ map (λ i. tagged_hash WholeShare
        (written i ++ E.ending endings.now i)) (range_with_len 0 total)) }
{
    let mut digests = Vec::with_capacity(alloc, total)?;
    for whole in wholes {
        let first = digests.len();
        let seven = finish_seven(endings, first, whole);
        digests.extend_from_slice(&seven[..(total - first).min(7)])?;
    }
    Ok(digests)
}

// The digests of seven shares from a number on, or of those that there are.
fn finish_seven<E: Endings>(endings: &E, first: usize, mut whole: WholeHashers) -> [[u8; 32]; 7]
    requires { first < E.count endings.now }
    ensures { (j : ℕ) (given : List ℕ) → j < 7 → first + j < E.count endings.now
        → IsGivenAt whole j given → slice_index_or result j []
        ≡ tagged_hash WholeShare (given ++ E.ending endings.now (first + j)) }
{
    endings.give(first, &mut whole);
    whole.finish()
}
