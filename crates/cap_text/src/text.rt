//! The texts of caps.

ghost use Rattle.std.specs.Prelude.{◌≡◌, ◌≢◌, ◌↔◌, Ok, Err, Some, MatchOption};
ghost use Rattle.cap_text.specs.declared.cap.Cap.{Cap};
ghost use Rattle.cap_text.specs.CapText.{Answers, AnswersLit, BeginsAs, Spells, IsUnknownKind};
ghost use Rattle.cap_text.specs.CapText.{HasWrongParts, HasBadBase32, HasBadNumber};
ghost use Rattle.cap_text.specs.CapText.{HasBadParameters, IsLitTooLong, read_cap_text};
ghost use Rattle.cap_text.specs.CapText.{verify_cap_text, lit_cap_text, cap_text};

use crate::base32::{Base32, from_base32};
use crate::cap::{Cap, LitCap, MAX_LIT_LETTERS, MAX_LIT_SIZE, ReadCap, VerifyCap};
use crate::error::CapError;
use crate::fields::read_fields;
use std::fmt;

impl Cap {
    /// Reads the text of a cap. That of a read cap is `URI:CHK:` and, with a colon between any two,
    /// the base32 text of the key, the base32 text of the extension block's hash, how many shares
    /// are needed, how many there are, and the size in decimal. That of a verify cap is
    /// `URI:CHK-Verifier:` and the same, with the storage index in the key's place. That of a
    /// literal cap is `URI:LIT:` and the base32 text of the file.
    ///
    /// What comes first is told: `UnknownKind` where the text begins otherwise; `WrongParts` where
    /// not five parts follow; `BadBase32` where the first two are not base32 of 16 and of 32 bytes;
    /// `BadNumber` where the others are not numbers below 2^64 without leading zeros;
    /// `BadParameters` where no cap has these numbers; for a literal cap `LitTooLong` where more
    /// than 88 characters follow, and then `BadBase32`.
    pub fn parse(text: &[u8]) -> Result<Cap, CapError>
        ensures cap { (cap : Cap) → (result ≡ Ok cap) ↔ Spells text.now cap }
        ensures unknown_kind { (result ≡ Err CapError.UnknownKind) ↔ IsUnknownKind text.now }
        ensures wrong_parts { (result ≡ Err CapError.WrongParts) ↔ HasWrongParts text.now }
        ensures bad_base32 { (result ≡ Err CapError.BadBase32) ↔ HasBadBase32 text.now }
        ensures bad_number { (result ≡ Err CapError.BadNumber) ↔ HasBadNumber text.now }
        ensures bad_parameters { (result ≡ Err CapError.BadParameters) ↔ HasBadParameters text.now }
        ensures lit_too_long { (result ≡ Err CapError.LitTooLong) ↔ IsLitTooLong text.now }
        ensures memory { result ≢ Err CapError.OutOfMemory }
    {
        read_cap(text)
    }
}

// The kinds of caps.
#[derive(Clone, Copy)]
pub(crate) enum Kind {
    Read,
    Check,
    Literal,
}

// The kind of cap that a text begins as, and what follows the beginning.
fn kind_of(text: &[u8]) -> Option<(Kind, &[u8])>
    ensures { MatchOption result (IsUnknownKind text.entry.now)
        (λ x. BeginsAs x.0 text.entry.now x.1.now) }
{
    if let Some(rest) = text.strip_prefix(b"URI:CHK:") {
        return Some((Kind::Read, rest));
    }
    if let Some(rest) = text.strip_prefix(b"URI:CHK-Verifier:") {
        return Some((Kind::Check, rest));
    }
    if let Some(rest) = text.strip_prefix(b"URI:LIT:") {
        return Some((Kind::Literal, rest));
    }
    None
}

// The cap that a text spells, or the text's first fault.
fn read_cap(text: &[u8]) -> Result<Cap, CapError>
    ensures { Answers text.now result }
{
    let Some((kind, rest)) = kind_of(text) else {
        return Err(CapError::UnknownKind);
    };
    match kind {
        Kind::Read => {
            let fields = read_fields(rest)?;
            Ok(Cap::Chk(ReadCap::from_fields(fields)))
        }
        Kind::Check => {
            let fields = read_fields(rest)?;
            Ok(Cap::Verify(VerifyCap::from_fields(fields)))
        }
        Kind::Literal => Ok(Cap::Lit(read_lit(rest)?)),
    }
}

// The literal cap whose file the letters spell, or their first fault.
fn read_lit(letters: &[u8]) -> Result<LitCap, CapError>
    ensures { AnswersLit letters.now result }
{
    if letters.len() > MAX_LIT_LETTERS {
        return Err(CapError::LitTooLong);
    }
    // Each letter has five bits, and fewer than five of all are left over.
    let len = letters.len() * 5 / 8;
    let mut file = [0u8; MAX_LIT_SIZE];
    if !from_base32(letters, &mut file[..len]) {
        return Err(CapError::BadBase32);
    }
    LitCap::new(&file[..len])
}

impl fmt::Display for ReadCap {
    ghost output = { λ cap. Some (read_cap_text cap) };

    fn fmt<W: fmt::Write>(&self, f: &mut fmt::Formatter<W>) -> fmt::Result {
        let key = Base32(self.key());
        let ueb_hash = Base32(self.ueb_hash());
        let (needed, total, size) = (self.needed(), self.total(), self.size());
        write!(f, "URI:CHK:{key}:{ueb_hash}:{needed}:{total}:{size}")
    }
}

impl fmt::Display for VerifyCap {
    ghost output = { λ cap. Some (verify_cap_text cap) };

    fn fmt<W: fmt::Write>(&self, f: &mut fmt::Formatter<W>) -> fmt::Result {
        let storage_index = Base32(self.storage_index());
        let ueb_hash = Base32(self.ueb_hash());
        let (needed, total, size) = (self.needed(), self.total(), self.size());
        write!(
            f,
            "URI:CHK-Verifier:{storage_index}:{ueb_hash}:{needed}:{total}:{size}"
        )
    }
}

impl fmt::Display for LitCap {
    ghost output = { λ cap. Some (lit_cap_text cap) };

    fn fmt<W: fmt::Write>(&self, f: &mut fmt::Formatter<W>) -> fmt::Result {
        let file = Base32(self.data());
        write!(f, "URI:LIT:{file}")
    }
}

impl fmt::Display for Cap {
    ghost output = { λ cap. Some (cap_text cap) };

    fn fmt<W: fmt::Write>(&self, f: &mut fmt::Formatter<W>) -> fmt::Result {
        match self {
            Cap::Chk(cap) => write!(f, "{cap}"),
            Cap::Verify(cap) => write!(f, "{cap}"),
            Cap::Lit(cap) => write!(f, "{cap}"),
        }
    }
}
