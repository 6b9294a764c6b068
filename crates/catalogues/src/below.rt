//! Names of files below a folder.

ghost use Rattle.std.specs.Prelude.{◌≡◌, ◌++◌, ◌↔◌, ℕ, List, Err, IfErr, IfOk, IfSome};
ghost use Rattle.std.specs.Prelude.{◌≢◌, [], IfNone, IsOkAnd, IsTrue, MatchOption, Some};
ghost use Rattle.std.specs.List.{AllByRecursion, join_with_byte};
ghost use Rattle.std.specs.Option.{option_copied, option_to_list};
ghost use Rattle.catalogues.specs.Below.{IsBelow, IsBelowBehind, IsLeading};
ghost use Rattle.catalogues.specs.Below.{IsLeadingPiece, IsPart, parts_of};
ghost use Rattle.catalogues.specs.Patterns.{behind_front};
ghost use Rattle.catalogues.specs.Pieces.{Lacks};
ghost use Rattle.catalogues.specs.PartsLeft.{parts_left};

use crate::error::CatalogueError;
use crate::pieces::{behind, cut};
use std::marker::Model;

/// The greatest length of a part of a name below a folder, in bytes.
pub const MAX_PART: usize = 255;

// A folder itself, and the one that it stands in.
const DOT: &[u8] = b".";

const DOTS: &[u8] = b"..";

/// The parts of a name below a folder that are still to come: the folders, and the file's own name
/// at the end.
#[derive(Drop)]
pub struct Parts<'a> {
    left: Option<&'a [u8]>,
}

impl<'a> Model for Parts<'a> {
    ghost Value = { List (List ℕ) };

    ghost view = { λ p. parts_left (option_copied p.left) };

    ghost invariant = { λ p. AllByRecursion IsPart (parts_left (option_copied p.left)) };
}

impl<'a> Parts<'a> {
    /// The next part, if there is one.
    pub fn next_part(&mut self) -> Option<&'a [u8]>
        ensures next { self.old ≡ option_to_list (option_copied result) ++ self.new }
        ensures end { IfNone result (self.old ≡ []) }
        ensures part { IfSome result (λ part. IsPart part.now) }
    {
        let Some(left) = self.left else {
            return None;
        };
        match cut(left, b'/') {
            Some((part, rest)) => {
                self.left = Some(rest);
                Some(part)
            }
            None => {
                self.left = None;
                Some(left)
            }
        }
    }
}

/// The parts of a name of a file below a folder. `BadName` where it is not one: where a part of it
/// between slashes is empty, `.` or `..`, has more than 255 bytes, or has a NUL. So an absolute
/// name is none, and no name that is taken leads outside the folder, as long as the folders that
/// it names are no links.
pub fn parts_below(name: &[u8]) -> Result<Parts<'_>, CatalogueError>
    ensures parts { IfOk result (λ parts. parts ≡ parts_of name.entry.now) }
    ensures joined { IfOk result (λ parts. join_with_byte 47 parts ≡ name.entry.now) }
    ensures each { IfOk result (AllByRecursion IsPart) }
    ensures refused { (result ≡ Err CatalogueError.BadName) ↔ ¬ (IsBelow name.entry.now) }
    ensures only { IfErr result (λ fault. fault ≡ CatalogueError.BadName) }
{
    if !is_below(name) {
        return Err(CatalogueError::BadName);
    }
    Ok(Parts { left: Some(name) })
}

/// The name below a folder under which a file is noted: its own, but for slashes and `./` at its
/// front. `BadName` where what is left is no name below a folder.
pub fn name_below(name: &[u8]) -> Result<&[u8], CatalogueError>
    ensures below { IfOk result (λ rest. (front : List ℕ)
        × IsBelowBehind name.entry.now front rest.now) }
    ensures only { (front rest : List ℕ) → IsBelowBehind name.entry.now front rest
        → IsOkAnd result (λ found. found.now ≡ rest) }
    ensures refused { IfErr result (λ fault. fault ≡ CatalogueError.BadName) }
{
    let rest = without_front(name);
    if !is_below(rest) {
        return Err(CatalogueError::BadName);
    }
    Ok(rest)
}

// Whether a name is one of a file below a folder.
fn is_below(name: &[u8]) -> bool
    ensures { IsTrue result ↔ IsBelow name.now }
{
    let mut rest = name;
    while let Some((part, after)) = cut(rest, b'/') {
        if !is_part(part) {
            return false;
        }
        rest = after;
    }
    is_part(rest)
}

// Whether a text without a slash may be the name of a file or a folder in a folder.
fn is_part(part: &[u8]) -> bool
    requires { Lacks 47 part.now }
    ensures { IsTrue result ↔ IsPart part.now }
{
    if part.is_empty() {
        return false;
    }
    if part.len() > MAX_PART {
        return false;
    }
    if part == DOT {
        return false;
    }
    if part == DOTS {
        return false;
    }
    match cut(part, 0) {
        Some(_) => false,
        None => true,
    }
}

/// What is left of a name behind the slashes and `./` at its front.
pub(crate) fn without_front(name: &[u8]) -> &[u8]
    ensures is { result.now ≡ behind_front name.entry.now }
    ensures front { (front : List ℕ)
        × (IsLeading front × (name.entry.now ≡ front ++ result.now)) }
    ensures only { (front rest : List ℕ) → IsBelowBehind name.entry.now front rest
        → result.now ≡ rest }
{
    let mut rest = name;
    while let Some(after) = behind_piece(rest) {
        rest = after;
    }
    rest
}

// What follows a slash or a `./` with which a name begins, if it does.
fn behind_piece(name: &[u8]) -> Option<&[u8]>
    ensures { MatchOption result
        ((piece rest : List ℕ) → IsLeadingPiece piece → name.entry.now ≢ piece ++ rest)
        (λ rest. (piece : List ℕ) × (IsLeadingPiece piece × (name.entry.now ≡ piece ++ rest.now))) }
{
    if let Some(rest) = behind(name, b"/") {
        return Some(rest);
    }
    match behind(name, b"./") {
        Some(rest) => Some(rest),
        None => None,
    }
}
