//! Catalogues, read line by line.

ghost use Rattle.std.specs.Prelude.{◌≡◌, ◌≢◌, ◌+◌, ◌^◌, ◌≤◌, ◌↔◌, [], ℕ, List, Err, IfErr};
ghost use Rattle.std.specs.Prelude.{IfNone, IfOk, IfSome, IsOkAnd, IsOkUnless, IsSomeAnd, None};
ghost use Rattle.std.specs.Prelude.{Ok, OnErr, length};
ghost use Rattle.cap_text.specs.declared.cap.Cap.{Cap};
ghost use Rattle.catalogues.specs.declared.head.Head.{Head};
ghost use Rattle.catalogues.specs.Catalogues.{BeginsWithHead, BeginsWithLine, Entry};
ghost use Rattle.catalogues.specs.Catalogues.{HasNoHead, HasNoLine, IsCatalogue, Reading};
ghost use Rattle.catalogues.specs.CatalogueError.{IsReadingFault};

use crate::error::CatalogueError;
use crate::head::Head;
use crate::lines::{Line, read_words};
use crate::pieces::cut;
use std::marker::Model;

/// A catalogue that is read line by line.
#[derive(Drop)]
pub struct Catalogue<'a> {
    head: Head,
    left: &'a [u8],
    lines: u64,
}

impl<'a> Model for Catalogue<'a> {
    ghost Value = { Reading };

    ghost view = { λ c. record { head = c.head; left = c.left.now; lines = c.lines } };

    ghost invariant = { λ c. c.lines + length c.left.now ≤ 2 ^ 63 };
}

impl<'a> Catalogue<'a> {
    /// The catalogue of this text, with its first line read. `NotACatalogue` where the text does
    /// not begin with one.
    pub fn open(text: &'a [u8]) -> Result<Catalogue<'a>, CatalogueError>
        ensures head { IfOk result (λ c. BeginsWithHead text.entry.now c.head c.left) }
        ensures lines { IfOk result (λ c. c.lines ≡ 1) }
        ensures only { (head : Head) (rest : List ℕ) → BeginsWithHead text.entry.now head rest
            → IsOkAnd result (λ c. (c.head ≡ head) × (c.left ≡ rest)) }
        ensures refused { (result ≡ Err CatalogueError.NotACatalogue)
            ↔ HasNoHead text.entry.now }
        ensures fault { IsOkUnless result CatalogueError.NotACatalogue }
    {
        let Some(found) = Head::read(text) else {
            return Err(CatalogueError::NotACatalogue);
        };
        let (head, left) = found;
        Ok(Catalogue {
            head,
            left,
            lines: 1,
        })
    }

    /// What the first line tells.
    pub fn head(&self) -> &Head
        ensures { result.now ≡ self.now.head }
    {
        &self.head
    }

    /// How many lines were read, the first one too.
    pub fn lines(&self) -> u64
        ensures { result ≡ self.now.lines }
    {
        self.lines
    }

    /// The next line, if there is one. `NotALine`, with its number, where what follows is not the
    /// line of a cap and a name, or has no end, as where a `put` was killed: then nothing is read,
    /// and each further call says so too.
    pub fn next_line(&mut self) -> Result<Option<Line<'a>>, CatalogueError>
        ensures end { (result ≡ Ok None) ↔ (self.old.left ≡ []) }
        ensures line { IfOk result (λ found. IfSome found
            (λ line. BeginsWithLine self.old.left line.cap line.name self.new.left)) }
        ensures lines { IfOk result (λ found. IfSome found
            (λ line. self.new.lines ≡ self.old.lines + 1)) }
        ensures only { (cap : Cap) (name rest : List ℕ)
            → BeginsWithLine self.old.left cap name rest
            → IsOkAnd result (λ found. IsSomeAnd found
            (λ line. (line.cap ≡ cap) × (line.name ≡ name)))
            × (self.new.left ≡ rest) }
        ensures refused { (result ≡ Err (CatalogueError.NotALine (self.old.lines + 1)))
            ↔ ((self.old.left ≢ []) × HasNoLine self.old.left) }
        ensures fault { IsOkUnless result (CatalogueError.NotALine (self.old.lines + 1)) }
        ensures head { self.new.head ≡ self.old.head }
        ensures still { IfOk result (λ found. IfNone found (self.new ≡ self.old)) }
        ensures err { OnErr result (self.new ≡ self.old) }
    {
        let left = self.left;
        if left.is_empty() {
            return Ok(None);
        }
        let lines = self.lines + 1;
        match next_words(left) {
            Some((line, rest)) => {
                self.left = rest;
                self.lines = lines;
                Ok(Some(line))
            }
            None => Err(CatalogueError::NotALine(lines)),
        }
    }
}

// The line with which a text begins, and what follows it.
fn next_words(text: &[u8]) -> Option<(Line<'_>, &[u8])>
    ensures found { IfSome result
        (λ x. BeginsWithLine text.entry.now x.0.cap x.0.name x.1.now) }
    ensures only { (cap : Cap) (name rest : List ℕ) → BeginsWithLine text.entry.now cap name rest
        → IsSomeAnd result (λ x. (x.0.cap ≡ cap) × (x.0.name ≡ name) × (x.1.now ≡ rest)) }
{
    let Some((words, rest)) = cut(text, b'\n') else {
        return None;
    };
    let Some(line) = read_words(words) else {
        return None;
    };
    Some((line, rest))
}

/// How many files a catalogue has, all of which is read. `NotACatalogue` and `NotALine` as in
/// `Catalogue::open` and `Catalogue::next_line`.
pub fn entry_count(text: &[u8]) -> Result<u64, CatalogueError>
    ensures whole { IfOk result (λ count. (head : Head) × ((entries : List Entry)
        × (IsCatalogue text.now head entries × (count ≡ length entries)))) }
    ensures only { (head : Head) (entries : List Entry) → IsCatalogue text.now head entries
        → result ≡ Ok (length entries) }
    ensures fault { IfErr result IsReadingFault }
{
    let mut catalogue = Catalogue::open(text)?;
    loop {
        match catalogue.next_line() {
            Ok(Some(_)) => {}
            Ok(None) => return Ok(catalogue.lines() - 1),
            Err(fault) => return Err(fault),
        }
    }
}
