//! The fields of an extension block, from the left.

ghost use Rattle.std.specs.Prelude.{◌≡◌, ◌≢◌, ◌==◌, ◌↔◌, ◌++◌, ℕ, List, IsTrue, position, codes};
ghost use Rattle.std.specs.Prelude.{IfSome, IfNone, OnOk, IfErr, MatchOption, None, Some};
ghost use Rattle.std.specs.List.{list_all};
ghost use Rattle.tagged_hash.specs.TaggedHash.{netstring};
ghost use Rattle.ueb.specs.Fields.{Field, is_key_byte, IsKey, Precedes, AreFields, value_of};
ghost use Rattle.ueb.specs.Splits.{HasNoColon, IsFieldFault};

use crate::error::UebError;
use tagged_hash::read_decimal;

fn is_key_byte(byte: u8) -> bool
    ensures { result ≡ is_key_byte byte }
{
    matches!(byte, b'a'..=b'z' | b'A'..=b'Z' | b'_' | b'-')
}

fn are_key_bytes(bytes: &[u8]) -> bool
    ensures { result ≡ list_all is_key_byte bytes.now }
{
    bytes.iter().all(|byte| is_key_byte(*byte))
}

// Whether the bytes are a key.
fn is_key(bytes: &[u8]) -> bool
    ensures { IsTrue result ↔ IsKey bytes.now }
{
    !bytes.is_empty() && are_key_bytes(bytes)
}

// Where the first colon stands.
fn colon_in(bytes: &[u8]) -> Option<usize>
    ensures { result ≡ position (λ byte. byte == 58) bytes.now }
{
    bytes.iter().position(|byte| *byte == b':')
}

// What stands before the first colon and behind it.
fn split_at_colon(bytes: &[u8]) -> Option<(&[u8], &[u8])>
    ensures found { IfSome result (λ parts. bytes.now ≡ parts.0.now ++ (codes ":" ++ parts.1.now)) }
    ensures first { IfSome result (λ parts. HasNoColon parts.0.now) }
    ensures none { IfNone result (HasNoColon bytes.now) }
{
    let colon = colon_in(bytes)?;
    Some((&bytes[..colon], &bytes[colon + 1..]))
}

// The key in front, and what stands behind its colon.
fn split_key(bytes: &[u8]) -> Option<(&[u8], &[u8])>
    ensures key { IfSome result (λ parts. IsKey parts.0.now) }
    ensures found { IfSome result (λ parts. bytes.now ≡ parts.0.now ++ (codes ":" ++ parts.1.now)) }
    ensures none { IfNone result ((key after : List ℕ)
        → IsKey key → bytes.now ≢ key ++ (codes ":" ++ after)) }
{
    let (key, after) = split_at_colon(bytes)?;
    if is_key(key) {
        Some((key, after))
    } else {
        None
    }
}

// What the netstring in front holds, and what stands behind it.
fn split_netstring(bytes: &[u8]) -> Option<(&[u8], &[u8])>
    ensures found { IfSome result (λ parts. bytes.now ≡ netstring parts.0.now ++ parts.1.now) }
    ensures none { IfNone result ((value more : List ℕ) → bytes.now ≢ netstring value ++ more) }
{
    let (digits, rest) = split_at_colon(bytes)?;
    let len = read_decimal(digits)? as usize;
    if rest.len() <= len || rest[len] != b',' {
        return None;
    }
    Some((&rest[..len], &rest[len + 1..]))
}

// Whether a key may stand behind another one.
fn precedes(before: &[u8], key: &[u8]) -> bool
    ensures { IsTrue result ↔ Precedes before.now key.now }
{
    before < key
}

/// Goes over all fields: the first fault from the left, or none.
pub(crate) fn scan(bytes: &[u8]) -> Result<(), UebError>
    ensures ok { OnOk result ((fields : List Field) × AreFields bytes.now fields) }
    ensures fault { IfErr result (IsFieldFault bytes.now) }
{
    let mut last: &[u8] = &[];
    let mut rest = bytes;
    'fields: while !rest.is_empty() {
        let Some((key, after)) = split_key(rest) else {
            return Err(UebError::Malformed);
        };
        if !precedes(last, key) {
            return Err(UebError::KeyOrder);
        }
        let Some((_, after)) = split_netstring(after) else {
            return Err(UebError::Malformed);
        };
        last = key;
        rest = after;
    }
    Ok(())
}

/// What stands under a key, in a text of fields.
pub(crate) fn find<'a>(bytes: &'a [u8], name: &[u8]) -> Option<&'a [u8]>
    ensures { (fields : List Field) → AreFields bytes.now fields
        → MatchOption result (value_of name.now fields ≡ None)
        (λ value. value_of name.now fields ≡ Some value.now) }
{
    let mut rest = bytes;
    while let Some((key, after)) = split_key(rest) {
        let (value, after) = split_netstring(after)?;
        if key == name {
            return Some(value);
        }
        rest = after;
    }
    None
}
