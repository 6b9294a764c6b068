//! The lines of a catalogue: a cap, two blanks and a name, as `sha256sum` writes a sum and a name.

ghost use Rattle.std.specs.Prelude.{◌≡◌, ◌++◌, ◌↔◌, ◌⊎◌, ℕ, List, Err, IfOk, IfErr, IfSome};
ghost use Rattle.std.specs.Prelude.{◌≢◌, Bool, IsSomeAnd, slice_index};
ghost use Rattle.cap_text.specs.declared.cap.Cap.{Cap};
ghost use Rattle.cap_text.specs.CapText.{IsCap};
ghost use Rattle.catalogues.specs.Names.{IsName, mark};
ghost use Rattle.catalogues.specs.Lines.{IsLine, IsWords, named_text};

use crate::error::CatalogueError;
use crate::name::{Name, is_name, needs_mark, push_written};
use crate::pieces::{behind, cut};
use cap_text::Cap;
use std::alloc::{AllocError, Global};

/// A line of a catalogue.
#[derive(Drop)]
pub struct Line<'a> {
    /// The cap of the file.
    pub cap: Cap,
    /// The name of the file.
    pub name: Name<'a>,
}

/// The line of a cap and a name, with its end. `BadName` where this is no name: it is empty, or has
/// a NUL.
pub fn line_of(alloc: Global, cap: &Cap, name: &[u8]) -> Result<Vec<u8>, CatalogueError>
    ensures text { IfOk result (λ text. IsLine text.items cap.now name.now) }
    ensures refused { (result ≡ Err CatalogueError.BadName) ↔ ¬ (IsName name.now) }
    ensures only { IfErr result (λ fault. (fault ≡ CatalogueError.BadName)
        ⊎ (fault ≡ CatalogueError.OutOfMemory)) }
{
    if !is_name(name) {
        return Err(CatalogueError::BadName);
    }
    know_cap(cap);
    Ok(written_line(alloc, cap, name)?)
}

// What is written for a cap and a name.
fn written_line(alloc: Global, cap: &Cap, name: &[u8]) -> Result<Vec<u8>, AllocError>
    requires cap { IsCap cap.now }
    requires name { IsName name.now }
    ensures { IfOk result (λ text. IsLine text.items cap.now name.now) }
{
    let letters = cap.to_string(alloc)?;
    named_line(alloc, letters.as_bytes(), name)
}

/// A line that tells some words of a file: these, two blanks, and its name, escaped as in the line
/// of a cap.
pub fn named_line(alloc: Global, words: &[u8], name: &[u8]) -> Result<Vec<u8>, AllocError>
    ensures { IfOk result (λ text. text.items ≡ named_text words.now name.now) }
{
    let mut text = Vec::new(alloc);
    if needs_mark(name) {
        text.push(b'\\')?;
    }
    text.extend_from_slice(words)?;
    text.extend_from_slice(b"  ")?;
    push_written(&mut text, name)?;
    text.push(b'\n')?;
    Ok(text)
}

// A cap is one: its type keeps the ranges of its fields.
fn know_cap(cap: &Cap)
    ensures { IsCap cap.now }
{
    match cap {
        Cap::Chk(cap) => {
            cap.needed();
        }
        Cap::Verify(cap) => {
            cap.needed();
        }
        Cap::Lit(cap) => {
            cap.data();
        }
    }
}

// The cap and the name that a line has, without its end, if it is one.
pub(crate) fn read_words(text: &[u8]) -> Option<Line<'_>>
    ensures found { IfSome result (λ line. IsWords text.entry.now line.cap line.name) }
    ensures only { (cap : Cap) (name : List ℕ) → IsWords text.entry.now cap name
        → IsSomeAnd result (λ line. (line.cap ≡ cap) × (line.name ≡ name)) }
{
    let (marked, rest) = unmarked(text);
    let Some((cap, rest)) = cut(rest, b' ') else {
        return None;
    };
    let Some(written) = behind(rest, b" ") else {
        return None;
    };
    let Some(name) = Name::read(written, marked) else {
        return None;
    };
    match Cap::parse(cap) {
        Ok(cap) => Some(Line { cap, name }),
        Err(_) => None,
    }
}

// Whether a line begins with a backslash, and what follows it.
fn unmarked(text: &[u8]) -> (bool, &[u8])
    ensures whole { text.entry.now ≡ mark result.0 ++ result.1.now }
    ensures only { (escaped : Bool) (rest : List ℕ) → slice_index rest 0 ≢ 92
        → text.entry.now ≡ mark escaped ++ rest → (result.0 ≡ escaped) × (result.1.now ≡ rest) }
{
    match text.strip_prefix(b"\\") {
        Some(rest) => (true, rest),
        None => (false, text),
    }
}
