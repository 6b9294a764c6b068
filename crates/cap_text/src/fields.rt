//! The fields that read caps and verify caps have in common.

ghost use Rattle.std.specs.Prelude.{◌≡◌, ◌∷◌, [], MatchOption};
ghost use Rattle.cap_text.specs.CapText.{parts, AnswersFields, HasFiveParts};

use crate::base32::from_base32;
use crate::cap::are_parameters;
use crate::error::CapError;
use tagged_hash::read_decimal;

// The fields of a read cap or a verify cap. The first is the key or the storage index.
#[derive(Drop)]
pub(crate) struct Fields {
    pub(crate) first: [u8; 16],
    pub(crate) ueb_hash: [u8; 32],
    pub(crate) needed: u16,
    pub(crate) total: u16,
    pub(crate) size: u64,
}

// The texts of the fields.
#[derive(Drop)]
struct Parts<'a> {
    first: &'a [u8],
    ueb_hash: &'a [u8],
    needed: &'a [u8],
    total: &'a [u8],
    size: &'a [u8],
}

// The text before the first colon and the text after it, if there is a colon.
fn cut(text: &[u8]) -> Option<(&[u8], &[u8])>
    ensures { MatchOption result (parts text.entry.now ≡ text.entry.now ∷ [])
        (λ x. parts text.entry.now ≡ x.0.now ∷ parts x.1.now) }
{
    for (i, c) in text.iter().enumerate() {
        if *c == b':' {
            return Some((&text[..i], &text[i + 1..]));
        }
    }
    None
}

// The five parts of a text, if it has five.
fn five_parts(text: &[u8]) -> Option<Parts<'_>>
    ensures { MatchOption result (¬ (HasFiveParts text.entry.now))
        (λ p. parts text.entry.now
        ≡ p.first.now ∷ p.ueb_hash.now ∷ p.needed.now ∷ p.total.now ∷ p.size.now ∷ []) }
{
    let (first, rest) = cut(text)?;
    let (ueb_hash, rest) = cut(rest)?;
    let (needed, rest) = cut(rest)?;
    let (total, size) = cut(rest)?;
    if let Some(_) = cut(size) {
        return None;
    }
    Some(Parts {
        first,
        ueb_hash,
        needed,
        total,
        size,
    })
}

// The fields that a text spells, or its first fault.
pub(crate) fn read_fields(text: &[u8]) -> Result<Fields, CapError>
    ensures { AnswersFields text.now result }
{
    let Some(parts) = five_parts(text) else {
        return Err(CapError::WrongParts);
    };
    let mut first = [0u8; 16];
    if !from_base32(parts.first, &mut first) {
        return Err(CapError::BadBase32);
    }
    let mut ueb_hash = [0u8; 32];
    if !from_base32(parts.ueb_hash, &mut ueb_hash) {
        return Err(CapError::BadBase32);
    }
    let Some(needed) = read_decimal(parts.needed) else {
        return Err(CapError::BadNumber);
    };
    let Some(total) = read_decimal(parts.total) else {
        return Err(CapError::BadNumber);
    };
    let Some(size) = read_decimal(parts.size) else {
        return Err(CapError::BadNumber);
    };
    if !are_parameters(needed, total, size) {
        return Err(CapError::BadParameters);
    }
    Ok(Fields {
        first,
        ueb_hash,
        needed: needed as u16,
        total: total as u16,
        size,
    })
}
