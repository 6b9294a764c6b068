//! Names, as they stand in the lines of a catalogue.

ghost use Rattle.std.specs.Prelude.{◌≡◌, ◌<◌, ◌++◌, ◌∷◌, ◌↔◌, ℕ, List, IsTrue, IsSomeAnd};
ghost use Rattle.std.specs.Prelude.{MatchOption, IfOk, IfSome, OnOk};
ghost use Rattle.std.specs.List.{list_any};
ghost use Rattle.catalogues.specs.Names.{IsName, is_escaped, written, written_byte};
ghost use Rattle.catalogues.specs.Unwritten.{BeginsWritten, IsWritten, IsWrittenName, unwritten};

use crate::pieces::cut;
use std::alloc::{AllocError, Global};
use std::marker::Model;

/// A name of a catalogue, as it stands in its line: some bytes, none of them a NUL.
#[derive(Drop)]
pub struct Name<'a> {
    written: &'a [u8],
}

impl<'a> Model for Name<'a> {
    ghost Value = { List ℕ };

    ghost view = { λ n. unwritten n.written.now };

    ghost invariant = { λ n. IsWrittenName n.written.now };
}

impl<'a> Name<'a> {
    // The name for which this is written, in a line that is marked or not.
    pub(crate) fn read(text: &'a [u8], marked: bool) -> Option<Name<'a>>
        ensures found { IfSome result (λ name. IsName name × (text.entry.now ≡ written name)
            × (marked ≡ list_any is_escaped name)) }
        ensures only { (name : List ℕ) → IsName name → text.entry.now ≡ written name
            → marked ≡ list_any is_escaped name → IsSomeAnd result (λ found. found ≡ name) }
    {
        if text.is_empty() {
            return None;
        }
        if !is_written(text) {
            return None;
        }
        if has_backslash(text) != marked {
            return None;
        }
        Some(Name { written: text })
    }

    /// The bytes of the name.
    pub fn to_vec(&self, alloc: Global) -> Result<Vec<u8>, AllocError>
        ensures value { IfOk result (λ name. name.items ≡ self.now) }
        ensures name { IsName self.now }
    {
        name_of(alloc, self.written)
    }
}

// The name for which this is written.
fn name_of(alloc: Global, text: &[u8]) -> Result<Vec<u8>, AllocError>
    requires { IsWrittenName text.now }
    ensures { IfOk result (λ name. name.items ≡ unwritten text.now) }
{
    let mut name = Vec::new(alloc);
    let mut rest = text;
    while let Some((byte, after)) = first_byte(rest) {
        name.push(byte)?;
        rest = after;
    }
    Ok(name)
}

// The byte of a name that a text begins with, as it is written, and what follows it. None where it
// begins with none.
fn first_byte(text: &[u8]) -> Option<(u8, &[u8])>
    ensures { MatchOption result (¬ (BeginsWritten text.entry.now))
        (λ x. (0 < x.0) × (text.entry.now ≡ written_byte x.0 ++ x.1.now)) }
{
    let (first, rest) = text.split_first()?;
    match *first {
        0 | b'\n' | b'\r' => None,
        b'\\' => escaped_byte(rest),
        byte => Some((byte, rest)),
    }
}

// The same behind a backslash.
fn escaped_byte(text: &[u8]) -> Option<(u8, &[u8])>
    ensures { MatchOption result (¬ (BeginsWritten (92 ∷ text.entry.now)))
        (λ x. (0 < x.0) × (92 ∷ text.entry.now ≡ written_byte x.0 ++ x.1.now)) }
{
    let (second, rest) = text.split_first()?;
    match *second {
        b'\\' => Some((b'\\', rest)),
        b'n' => Some((b'\n', rest)),
        b'r' => Some((b'\r', rest)),
        _ => None,
    }
}

// Whether a text is written for some bytes, none of them a NUL.
fn is_written(text: &[u8]) -> bool
    ensures { IsTrue result ↔ IsWritten text.now }
{
    let mut rest = text;
    while !rest.is_empty() {
        let Some((_, after)) = first_byte(rest) else {
            return false;
        };
        rest = after;
    }
    true
}

// Whether there is a backslash in what is written for a name: whether a byte of it is escaped.
fn has_backslash(text: &[u8]) -> bool
    ensures { (name : List ℕ) → text.now ≡ written name → result ≡ list_any is_escaped name }
{
    match cut(text, b'\\') {
        Some(_) => true,
        None => false,
    }
}

/// Whether this may be a name: some bytes, none of them a NUL.
pub fn is_name(name: &[u8]) -> bool
    ensures { IsTrue result ↔ IsName name.now }
{
    match cut(name, 0) {
        Some(_) => false,
        None => !name.is_empty(),
    }
}

// Whether a byte of a name has to be escaped.
pub(crate) fn needs_mark(name: &[u8]) -> bool
    ensures { result ≡ list_any is_escaped name.now }
{
    name.iter()
        .any(|c| *c == b'\\' || *c == b'\n' || *c == b'\r')
}

// Writes a name.
pub(crate) fn push_written(out: &mut Vec<u8>, name: &[u8]) -> Result<(), AllocError>
    ensures { OnOk result (out.new.items ≡ out.old.items ++ written name.now) }
{
    for byte in name {
        push_byte(out, *byte)?;
    }
    Ok(())
}

// Writes a byte of a name.
fn push_byte(out: &mut Vec<u8>, byte: u8) -> Result<(), AllocError>
    ensures { OnOk result (out.new.items ≡ out.old.items ++ written_byte byte) }
{
    match byte {
        b'\\' => out.extend_from_slice(b"\\\\"),
        b'\n' => out.extend_from_slice(b"\\n"),
        b'\r' => out.extend_from_slice(b"\\r"),
        _ => Ok(out.push(byte)?),
    }
}
