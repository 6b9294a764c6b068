//! The first line of a catalogue: when it was begun, and with which numbers and secret.

ghost use Rattle.std.specs.Prelude.{◌≡◌, ◌+◌, ◌^◌, ◌<◌, ◌++◌, ◌↔◌, ℕ, List, codes, decimal};
ghost use Rattle.std.specs.Prelude.{IfOk, IfSome, IsOkUnless, IsSomeAnd, IsTrue, OnOk, Some};
ghost use Rattle.tagged_hash.specs.ConvergentKey.{IsSecret};
ghost use Rattle.cap_text.specs.Base32.{IsBytes, base32};
ghost use Rattle.catalogues.specs.Heads.{AreNumbers, IsHead, IsInRange, fingerprint_of};
ghost use Rattle.catalogues.specs.Heads.{first_text, first_then, nine_digits};
ghost use Rattle.catalogues.specs.HeadParts.{moment_then, numbers_then};
ghost use Rattle.catalogues.specs.Pieces.{Stops};
ghost use Rattle.catalogues.specs.declared.head.Head.{Head};
ghost use Rattle.catalogues.specs.declared.head.Moment.{Moment};
ghost use Rattle.catalogues.specs.declared.head.Numbers.{Numbers};

use crate::pieces::{behind, digits_of, number_behind};
use cap_text::{CapError, from_base32, to_base32};
use std::alloc::{AllocError, Global};
use tagged_hash::{DecimalText, convergent_key, read_decimal, storage_index};

/// The greatest size of a segment that a first line tells, in bytes.
pub const MAX_SEGMENT_SIZE: u32 = 1 << 20;

/// The greatest number of shares that a first line tells.
pub const MAX_SHARES: u16 = 256;

// How many nanoseconds a second has.
const SECOND: u64 = 1_000_000_000;

/// A moment since the beginning of 1970.
#[derive(Clone, Copy, Debug, PartialEq, Eq)]
pub struct Moment {
    pub seconds: u64,
    /// Less than a second.
    pub nanoseconds: u32,
}

/// How files are encoded.
#[derive(Clone, Copy, Debug, PartialEq, Eq)]
pub struct Numbers {
    /// How many shares are needed: 1 to `total`.
    pub needed: u16,
    /// How many shares there are: at most `MAX_SHARES`.
    pub total: u16,
    /// The greatest size of a segment: 1 to `MAX_SEGMENT_SIZE`.
    pub segment_size: u32,
}

impl Numbers {
    /// Whether they are in their ranges.
    pub fn are_in_range(&self) -> bool
        ensures { IsTrue result ↔ AreNumbers self.now }
    {
        let shares = 1 <= self.needed && self.needed <= self.total && self.total <= MAX_SHARES;
        shares && 1 <= self.segment_size && self.segment_size <= MAX_SEGMENT_SIZE
    }

    /// What is told of these numbers and the secret: the storage index of the empty file, as it
    /// would be under them. Where two are equal, equal files have equal caps, unless hash inputs
    /// clash.
    pub fn fingerprint(&self, secret: &[u8]) -> [u8; 16]
        requires { IsSecret secret.now }
        ensures { result ≡ fingerprint_of self.now secret.now }
    {
        let key = convergent_key(self.needed, self.total, self.segment_size, secret, b"");
        storage_index(&key)
    }
}

/// What the first line of a catalogue tells.
#[derive(Clone, Copy, Debug, PartialEq, Eq)]
pub struct Head {
    /// When the catalogue was begun.
    pub begun: Moment,
    /// How its files are encoded.
    pub numbers: Numbers,
    /// `Numbers::fingerprint` of these numbers and the secret.
    pub fingerprint: [u8; 16],
}

impl Head {
    /// The first line that tells this, with its end. Nothing but memory is refused.
    pub fn text(&self, alloc: Global) -> Result<Vec<u8>, CapError>
        requires { IsInRange self.now }
        ensures text { IfOk result (λ text. text.items ≡ first_text self.now) }
        ensures head { IsHead self.now }
        ensures memory { IsOkUnless result CapError.OutOfMemory }
    {
        know_head(self);
        let fingerprint = self.fingerprint;
        let letters = to_base32(alloc, &fingerprint)?;
        let mut text = Vec::new(alloc);
        push_moment(&mut text, self.begun)?;
        push_numbers(&mut text, self.numbers)?;
        text.extend_from_slice(b" under ")?;
        text.extend_from_slice(letters.as_bytes())?;
        text.extend_from_slice(b"\n")?;
        Ok(text)
    }

    // The first line with which a text begins, and what follows it.
    pub(crate) fn read(text: &[u8]) -> Option<(Head, &[u8])>
        ensures found { IfSome result (λ x. IsHead x.0
            × (text.entry.now ≡ first_then x.0 x.1.now)) }
        ensures only { (head : Head) (rest : List ℕ) → IsHead head
            → text.entry.now ≡ first_then head rest
            → IsSomeAnd result (λ x. (x.0 ≡ head) × (x.1.now ≡ rest)) }
    {
        let Some((begun, rest)) = read_moment(text) else {
            return None;
        };
        let Some((numbers, rest)) = read_numbers(rest) else {
            return None;
        };
        let Some(found) = read_fingerprint(rest) else {
            return None;
        };
        let (fingerprint, rest) = found;
        Some((
            Head {
                begun,
                numbers,
                fingerprint,
            },
            rest,
        ))
    }
}

// The moment of a first line, and what follows it.
fn read_moment(text: &[u8]) -> Option<(Moment, &[u8])>
    ensures found { IfSome result (λ x. (x.0.seconds < 2 ^ 64) × (x.0.nanoseconds < 1000000000)
        × (text.entry.now ≡ moment_then x.0 x.1.now)) }
    ensures only { (moment : Moment) (rest : List ℕ) → moment.seconds < 2 ^ 64
        → moment.nanoseconds < 1000000000 → Stops rest → text.entry.now ≡ moment_then moment rest
        → IsSomeAnd result (λ x. (x.0 ≡ moment) × (x.1.now ≡ rest)) }
{
    let Some((seconds, rest)) = number_behind(text, b"# grid catalogue 1 begun ") else {
        return None;
    };
    let Some(rest) = behind(rest, b".") else {
        return None;
    };
    let (digits, rest) = digits_of(rest);
    let Some(nanoseconds) = nine(digits) else {
        return None;
    };
    Some((
        Moment {
            seconds,
            nanoseconds,
        },
        rest,
    ))
}

// The numbers of a first line, and what follows them.
fn read_numbers(text: &[u8]) -> Option<(Numbers, &[u8])>
    ensures found { IfSome result (λ x. AreNumbers x.0
        × (text.entry.now ≡ numbers_then x.0 x.1.now)) }
    ensures only { (numbers : Numbers) (rest : List ℕ) → AreNumbers numbers → Stops rest
        → text.entry.now ≡ numbers_then numbers rest
        → IsSomeAnd result (λ x. (x.0 ≡ numbers) × (x.1.now ≡ rest)) }
{
    let Some((needed, rest)) = number_behind(text, b" k ") else {
        return None;
    };
    let Some((total, rest)) = number_behind(rest, b" n ") else {
        return None;
    };
    let Some((segment_size, rest)) = number_behind(rest, b" segment ") else {
        return None;
    };
    if total > u64::from(MAX_SHARES)
        || needed > total
        || segment_size > u64::from(MAX_SEGMENT_SIZE)
    {
        return None;
    }
    let numbers = Numbers {
        needed: needed as u16,
        total: total as u16,
        segment_size: segment_size as u32,
    };
    if !numbers.are_in_range() {
        return None;
    }
    Some((numbers, rest))
}

// The fingerprint of a first line, and what follows the line.
fn read_fingerprint(text: &[u8]) -> Option<([u8; 16], &[u8])>
    ensures found { IfSome result (λ x. IsBytes 16 x.0
        × (text.entry.now ≡ codes " under " ++ (base32 x.0 ++ (codes "\n" ++ x.1.now)))) }
    ensures only { (bytes rest : List ℕ) → IsBytes 16 bytes
        → text.entry.now ≡ codes " under " ++ (base32 bytes ++ (codes "\n" ++ rest))
        → IsSomeAnd result (λ x. (x.0 ≡ bytes) × (x.1.now ≡ rest)) }
{
    let Some(rest) = behind(text, b" under ") else {
        return None;
    };
    if rest.len() < 26 {
        return None;
    }
    let (letters, rest) = rest.split_at(26);
    let mut fingerprint = [0; 16];
    if !from_base32(letters, &mut fingerprint) {
        return None;
    }
    let Some(rest) = behind(rest, b"\n") else {
        return None;
    };
    Some((fingerprint, rest))
}

// The number below a thousand million that has these nine digits.
fn nine(digits: &[u8]) -> Option<u32>
    ensures found { IfSome result (λ n. (n < 1000000000) × (digits.now ≡ nine_digits n)) }
    ensures only { (n : ℕ) → n < 1000000000 → digits.now ≡ nine_digits n → result ≡ Some n }
{
    if digits.len() != 9 {
        return None;
    }
    let mut padded = [b'1'; 10];
    padded[1..].copy_from_slice(digits);
    let Some(n) = read_decimal(&padded) else {
        return None;
    };
    if n < SECOND || n >= 2 * SECOND {
        return None;
    }
    Some((n - SECOND) as u32)
}

// What is in its ranges may stand in a first line: its type has the other ranges.
fn know_head(head: &Head)
    requires { IsInRange head.now }
    ensures { IsHead head.now }
{
    know_number(head.begun.seconds);
    let fingerprint = head.fingerprint;
    know_bytes(fingerprint);
}

// A number is below 2^64.
fn know_number(n: u64)
    ensures { n < 2 ^ 64 }
{}

// An array of bytes is so many bytes.
fn know_bytes(bytes: [u8; 16])
    ensures { IsBytes 16 bytes }
{}

// Writes the beginning of a first line, up to the moment.
fn push_moment(text: &mut Vec<u8>, moment: Moment) -> Result<(), AllocError>
    requires { moment.nanoseconds < 1000000000 }
    ensures { OnOk result ((rest : List ℕ)
        → text.new.items ++ rest ≡ text.old.items ++ moment_then moment rest) }
{
    push_number(text, b"# grid catalogue 1 begun ", moment.seconds)?;
    text.extend_from_slice(b".")?;
    push_nine(text, moment.nanoseconds)
}

// Writes the nine digits of a number below a thousand million.
fn push_nine(text: &mut Vec<u8>, n: u32) -> Result<(), AllocError>
    requires { n < 1000000000 }
    ensures { OnOk result (text.new.items ≡ text.old.items ++ nine_digits n) }
{
    let padded = DecimalText::new(SECOND + u64::from(n));
    let (_, nine) = padded.as_bytes().split_at(1);
    text.extend_from_slice(nine)?;
    Ok(())
}

// Writes the numbers of a first line.
fn push_numbers(text: &mut Vec<u8>, numbers: Numbers) -> Result<(), AllocError>
    ensures { OnOk result ((rest : List ℕ)
        → text.new.items ++ rest ≡ text.old.items ++ numbers_then numbers rest) }
{
    push_number(text, b" k ", u64::from(numbers.needed))?;
    push_number(text, b" n ", u64::from(numbers.total))?;
    push_number(text, b" segment ", u64::from(numbers.segment_size))
}

// Writes a word, and a number in decimal behind it.
fn push_number(text: &mut Vec<u8>, word: &[u8], n: u64) -> Result<(), AllocError>
    ensures { OnOk result (text.new.items ≡ text.old.items ++ (word.now ++ decimal n)) }
{
    text.extend_from_slice(word)?;
    text.extend_from_slice(DecimalText::new(n).as_bytes())
}
