//! An extension block from bytes.

ghost use Rattle.std.specs.Prelude.{◌≡◌, ◌<◌, ◌≤◌, ◌↔◌, ℕ, List, length, decimal, IsTrue};
ghost use Rattle.std.specs.Prelude.{IfOk, IfSome, IfNone, MatchOption, MatchResult, Some, Ok, Err};
ghost use Rattle.ueb.specs.Key.{key_name, IsFirst};
ghost use Rattle.ueb.specs.Fields.{Field, AreFields, IsMalformed, IsOutOfOrder, value_of};
ghost use Rattle.ueb.specs.Shape.{Contents, IsSegmentSize};
ghost use Rattle.ueb.specs.Block.{IsUeb};
ghost use Rattle.ueb.specs.Limits.{max_length};
ghost use Rattle.ueb.specs.Reading.{Agrees, IsMissing, HasSegmentSize, Suits, HasSuiting, Differs};
ghost use Rattle.ueb.specs.Reading.{LacksKey, DisagreesAt, IsRefused};

use crate::block::{Expect, Ueb};
use crate::error::UebError;
use crate::fields::{find, scan};
use crate::key::Key;
use crate::limits::{MAX_LENGTH, MAX_SEGMENT_SIZE, MAX_SEGMENTS};
use tagged_hash::read_decimal;

impl Ueb {
    /// The extension block that the bytes are, where it agrees with what is expected of it.
    ///
    /// Otherwise the first fault in this order: `TooLong`; `Malformed` or `KeyOrder`, whichever
    /// comes first from the left; `MissingKey` of the first known key that is not there;
    /// `Disagrees`, with `segment_size` first and then the first other key whose value is not as
    /// the file and the segment size ask. Other keys than the eleven known ones are skipped.
    pub fn read(bytes: &[u8], expect: &Expect) -> Result<Ueb, UebError>
        // What is read is in the grammar, and agrees.
        ensures accepted { IfOk result (λ ueb. IsUeb bytes.now ueb × Agrees expect.now ueb) }
        // What is in the grammar and agrees is read.
        ensures complete { (c : Contents)
            → IsUeb bytes.now c → Agrees expect.now c → result ≡ Ok c }

        // When each refusal comes. None is for want of memory.
        ensures too_long { (result ≡ Err UebError.TooLong) ↔ (max_length < length bytes.now) }
        ensures malformed { (result ≡ Err UebError.Malformed)
            ↔ ((length bytes.now ≤ max_length) × IsMalformed bytes.now) }
        ensures key_order { (result ≡ Err UebError.KeyOrder)
            ↔ ((length bytes.now ≤ max_length) × IsOutOfOrder bytes.now) }
        ensures missing_key { (key : Key) → (result ≡ Err (UebError.MissingKey key))
            ↔ ((length bytes.now ≤ max_length) × LacksKey bytes.now key) }
        ensures disagrees { (key : Key) → (result ≡ Err (UebError.Disagrees key))
            ↔ ((length bytes.now ≤ max_length) × DisagreesAt expect.now bytes.now key) }
        ensures memory { result ≡ Err UebError.OutOfMemory → ⊥ }
    {
        verdict(bytes, expect)
    }
}

// The block, or the first fault.
fn verdict(bytes: &[u8], expect: &Expect) -> Result<Ueb, UebError>
    ensures { MatchResult result (λ ueb. IsUeb bytes.now ueb × Agrees expect.now ueb)
        (IsRefused bytes.now expect.now) }
{
    if bytes.len() > MAX_LENGTH {
        return Err(UebError::TooLong);
    }
    scan(bytes)?;
    if let Some(key) = first_missing(bytes) {
        return Err(UebError::MissingKey(key));
    }
    let Some(segment_size) = segment_size_in(bytes, expect) else {
        return Err(UebError::Disagrees(Key::SegmentSize));
    };
    let block = Ueb::new(
        expect,
        segment_size,
        hash_in(bytes, Key::CrypttextHash),
        hash_in(bytes, Key::CrypttextRootHash),
        hash_in(bytes, Key::ShareRootHash),
    );
    match first_to_differ(bytes, &block) {
        Some(key) => Err(UebError::Disagrees(key)),
        None => Ok(block),
    }
}

// What stands under a known key.
fn value_in(bytes: &[u8], key: Key) -> Option<&[u8]>
    ensures { (fields : List Field) → AreFields bytes.now fields
        → MatchOption result (IsMissing fields key)
        (λ value. value_of (key_name key) fields ≡ Some value.now) }
{
    find(bytes, key.name().as_bytes())
}

// The first known key that is not there.
fn first_missing(bytes: &[u8]) -> Option<Key>
    ensures { (fields : List Field) → AreFields bytes.now fields
        → MatchOption result ((key : Key) → IsMissing fields key → ⊥)
        (IsFirst (IsMissing fields)) }
{
    for key in Key::ALL {
        if value_in(bytes, key).is_none() {
            return Some(key);
        }
    }
    None
}

// Whether a file's segments may have this size.
fn is_segment_size(expect: &Expect, segment_size: u64) -> bool
    ensures { IsTrue result ↔ IsSegmentSize expect.now.needed expect.now.size segment_size }
{
    let needed = u64::from(expect.needed);
    segment_size > 0
        && segment_size % needed == 0
        && segment_size <= u64::from(MAX_SEGMENT_SIZE)
        && segment_size <= expect.size.div_ceil(needed) * needed
        && expect.size.div_ceil(segment_size) <= u64::from(MAX_SEGMENTS)
}

// The segment size that a text gives, where the file's segments may have it.
fn segment_size_of(text: &[u8], expect: &Expect) -> Option<u32>
    ensures found { IfSome result (λ size. (text.now ≡ decimal size)
        × IsSegmentSize expect.now.needed expect.now.size size) }
    ensures none { IfNone result ((size : ℕ) → text.now ≡ decimal size
        → IsSegmentSize expect.now.needed expect.now.size size → ⊥) }
{
    let size = read_decimal(text)?;
    if is_segment_size(expect, size) {
        Some(size as u32)
    } else {
        None
    }
}

// The segment size that stands in the block.
fn segment_size_in(bytes: &[u8], expect: &Expect) -> Option<u32>
    ensures { (fields : List Field) → AreFields bytes.now fields
        → MatchOption result ((size : ℕ) → HasSegmentSize expect.now fields size → ⊥)
        (HasSegmentSize expect.now fields) }
{
    segment_size_of(value_in(bytes, Key::SegmentSize)?, expect)
}

// The hash that stands under a key. It is all zeros where none stands there.
fn hash_in(bytes: &[u8], key: Key) -> [u8; 32]
    ensures { (fields : List Field) (value : List ℕ) → AreFields bytes.now fields
        → value_of (key_name key) fields ≡ Some value → length value ≡ 32 → result ≡ value }
{
    let mut hash = [0; 32];
    if let Some(value) = value_in(bytes, key) {
        if value.len() == 32 {
            hash.copy_from_slice(value);
        }
    }
    hash
}

// Whether a block with these numbers may have this text under a key.
fn suits(block: &Ueb, key: Key, text: &[u8]) -> bool
    ensures { IsTrue result ↔ Suits block.now key text.now }
{
    match key {
        Key::CrypttextHash | Key::CrypttextRootHash | Key::ShareRootHash => text.len() == 32,
        _ => block.value(key).is(text),
    }
}

// The first key whose value does not suit the block's numbers.
fn first_to_differ(bytes: &[u8], block: &Ueb) -> Option<Key>
    ensures { (fields : List Field) → AreFields bytes.now fields
        → MatchOption result ((key : Key) → HasSuiting block.now fields key)
        (IsFirst (Differs block.now fields)) }
{
    for key in Key::ALL {
        let Some(value) = value_in(bytes, key) else {
            return Some(key);
        };
        if !suits(block, key, value) {
            return Some(key);
        }
    }
    None
}
