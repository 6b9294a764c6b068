//! Pieces of a text.

ghost use Rattle.std.specs.Prelude.{◌≢◌, ℕ, List, ◌≡◌, ◌∷◌, ◌^◌, ◌<◌, ◌++◌, decimal};
ghost use Rattle.std.specs.Prelude.{IfSome, IsSomeAnd, MatchOption};
ghost use Rattle.catalogues.specs.Pieces.{AreDigits, Lacks, Stops};

use tagged_hash::read_decimal;

// The text before the first of these bytes and the text after it, if there is one.
pub(crate) fn cut(text: &[u8], byte: u8) -> Option<(&[u8], &[u8])>
    ensures { MatchOption result (Lacks byte text.entry.now)
        (λ x. Lacks byte x.0.now × (text.entry.now ≡ x.0.now ++ byte ∷ x.1.now)) }
{
    for (i, c) in text.iter().enumerate() {
        if *c == byte {
            return Some((&text[..i], &text[i + 1..]));
        }
    }
    None
}

// What follows a word with which a text begins, if it does.
pub(crate) fn behind<'a>(text: &'a [u8], word: &[u8]) -> Option<&'a [u8]>
    ensures { MatchOption result ((rest : List ℕ) → text.entry.now ≢ word.now ++ rest)
        (λ rest. text.entry.now ≡ word.now ++ rest.now) }
{
    text.strip_prefix(word)
}

// The digits with which a text begins, and what follows them.
pub(crate) fn digits_of(text: &[u8]) -> (&[u8], &[u8])
    ensures whole { text.entry.now ≡ result.0.now ++ result.1.now }
    ensures only { (digits rest : List ℕ) → AreDigits digits → Stops rest
        → text.entry.now ≡ digits ++ rest → (result.0.now ≡ digits) × (result.1.now ≡ rest) }
{
    for (i, c) in text.iter().enumerate() {
        if *c < b'0' || *c > b'9' {
            return text.split_at(i);
        }
    }
    text.split_at(text.len())
}

/// The number in decimal behind a word with which a text begins, and what follows it.
pub fn number_behind<'a>(text: &'a [u8], word: &[u8]) -> Option<(u64, &'a [u8])>
    ensures found { IfSome result (λ x. text.entry.now ≡ word.now ++ (decimal x.0 ++ x.1.now)) }
    ensures only { (n : ℕ) (rest : List ℕ) → n < 2 ^ 64 → Stops rest
        → text.entry.now ≡ word.now ++ (decimal n ++ rest)
        → IsSomeAnd result (λ x. (x.0 ≡ n) × (x.1.now ≡ rest)) }
{
    let Some(rest) = behind(text, word) else {
        return None;
    };
    let (digits, rest) = digits_of(rest);
    let Some(n) = read_decimal(digits) else {
        return None;
    };
    Some((n, rest))
}
