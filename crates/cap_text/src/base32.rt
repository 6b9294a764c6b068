//! Base32 by RFC 4648, in lower case and without padding.

ghost use Rattle.std.specs.Prelude.{◌≡◌, ◌≢◌, ◌+◌, ◌<◌, ◌≤◌, ◌++◌, ℕ, List, [], Some, true, length};
ghost use Rattle.std.specs.Prelude.{map, IfOk, IfSome, IfNone, IsOkUnless};
ghost use Rattle.std.specs.Bool.{OnTrue};
ghost use Rattle.std.specs.List.{flat_map};
ghost use Rattle.std.specs.Option.{option_to_list};
ghost use Rattle.std.specs.String.{string_bytes};
ghost use Rattle.cap_text.specs.Base32.{base32, bits, groups, letter, IsBytes};

use crate::bit_queue::BitQueue;
use crate::error::CapError;
use std::alloc::Global;
use std::fmt;
use std::marker::Model;

/// The base32 text of some bytes, in lower case and without padding: 26 letters for 16 bytes, 52
/// for 32. Nothing but memory is refused.
pub fn to_base32(alloc: Global, bytes: &[u8]) -> Result<String, CapError>
    ensures text { IfOk result (λ text. string_bytes text ≡ base32 bytes.now) }
    ensures memory { IsOkUnless result CapError.OutOfMemory }
{
    Ok(Base32(bytes).to_string(alloc)?)
}

// Bytes that print as their base32 text.
#[derive(Clone, Copy)]
pub(crate) struct Base32<'a>(pub(crate) &'a [u8]);

impl fmt::Display for Base32<'_> {
    ghost output = { λ b. Some (base32 b.0.now) };

    fn fmt<W: fmt::Write>(&self, f: &mut fmt::Formatter<W>) -> fmt::Result {
        let mut letters = Letters::new(self.0);
        while let Some(letter) = letters.next_letter() {
            f.write_char(char::from(letter))?;
        }
        Ok(())
    }
}

// The letters of some bytes that are still to come: the bytes that were not looked at, and the
// bits of the others that have no letter yet.
#[derive(Drop)]
struct Letters<'a> {
    waiting: BitQueue,
    bytes: &'a [u8],
}

impl<'a> Model for Letters<'a> {
    ghost Value = { List ℕ };

    ghost view = { λ l. map letter (groups (l.waiting ++ flat_map (bits 8) l.bytes.now)) };

    ghost invariant = { λ l. length l.waiting ≤ 7 };
}

impl<'a> Letters<'a> {
    // All letters of these bytes.
    fn new(bytes: &'a [u8]) -> Letters<'a>
        ensures { result ≡ base32 bytes.entry.now }
    {
        Letters {
            waiting: BitQueue::new(),
            bytes,
        }
    }

    // The next letter, if there is one. A last group of bits is filled with zeros.
    fn next_letter(&mut self) -> Option<u8>
        ensures letter { self.old ≡ option_to_list result ++ self.new }
        ensures end { IfNone result (self.old ≡ []) }
        ensures ascii { IfSome result (λ c. c < 128) }
    {
        self.bytes = refill(&mut self.waiting, self.bytes);
        if self.waiting.len() == 0 {
            return None;
        }
        Some(letter_for(self.waiting.pop(5)))
    }
}

// Sees that there are at least five bits, or no bits at all: takes a byte where there are fewer,
// and fills the last group with zeros. Answers the bytes that are left.
fn refill<'a>(waiting: &mut BitQueue, bytes: &'a [u8]) -> &'a [u8]
    requires { length waiting.old ≤ 7 }
    ensures same { groups (waiting.new ++ flat_map (bits 8) result.now)
        ≡ groups (waiting.old ++ flat_map (bits 8) bytes.now) }
    ensures room { length waiting.new ≤ 12 }
    ensures enough { 0 < length waiting.new → 5 ≤ length waiting.new }
    ensures end { length waiting.new ≡ 0 → result.now ≡ [] }
{
    if waiting.len() >= 5 {
        return bytes;
    }
    let Some((first, rest)) = bytes.split_first() else {
        if waiting.len() > 0 {
            waiting.push(0, 5 - waiting.len());
        }
        return bytes;
    };
    waiting.push(*first, 8);
    rest
}

// The letter for a number below 32.
fn letter_for(number: u8) -> u8
    requires { number < 32 }
    ensures value { result ≡ letter number }
    ensures ascii { result < 128 }
{
    if number < 26 {
        b'a' + number
    } else {
        b'2' + (number - 26)
    }
}

// The number that a letter stands for, if it is one.
fn number_for(text: u8) -> Option<u8>
    ensures number { IfSome result (λ n. (n < 32) × (letter n ≡ text)) }
    ensures none { IfNone result ((n : ℕ) → n < 32 → letter n ≢ text) }
{
    match text {
        b'a'..=b'z' => Some(text - b'a'),
        b'2'..=b'7' => Some(text - b'2' + 26),
        _ => None,
    }
}

/// Reads a base32 text in lower case and without padding into `out`. Yes exactly where the text is
/// the one spelling of as many bytes as `out` has; otherwise `out` holds any bytes.
pub fn from_base32(text: &[u8], out: &mut [u8]) -> bool
    ensures spells { OnTrue result
        (IsBytes (length out.old) out.new × (text.now ≡ base32 out.new)) }
    ensures only { (bytes : List ℕ) → IsBytes (length out.old) bytes → text.now ≡ base32 bytes
        → (result ≡ true) × (out.new ≡ bytes) }
{
    let mut waiting = BitQueue::new();
    let mut done = 0;
    for letter in text {
        let Some(number) = number_for(*letter) else {
            return false;
        };
        waiting.push(number, 5);
        if waiting.len() >= 8 {
            if done == out.len() {
                return false;
            }
            out[done] = waiting.pop(8);
            done += 1;
        }
    }
    if done < out.len() {
        return false;
    }
    if waiting.len() >= 5 {
        return false;
    }
    waiting.is_zero()
}
