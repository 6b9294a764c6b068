//! The names of a folder's files: `INDEX.SHARE.DIGEST` of a closed share and `INDEX.SHARE.OWN.open`
//! of an open one. Storage index, digest and OWN, which only the file's writer has, are in base32,
//! in 26, 52 and 26 letters, and the share number is in decimal without leading zeros. Earlier
//! versions named an open share's file `INDEX.SHARE.open`: that is read, and no longer made. No
//! other file has such a name.

ghost use Rattle.std.specs.Prelude.{◌≡◌, ◌++◌, ◌<◌, ◌≤◌, ℕ, List, None, Some, Option, codes};
ghost use Rattle.std.specs.Prelude.{decimal, length, option_map, IfOk, IfSome, IsSome, IsSomeAnd};
ghost use Rattle.std.specs.Prelude.{IsOkUnless, false, true};
ghost use Rattle.std.specs.String.{string_bytes};
ghost use Rattle.cap_text.specs.Base32.{base32, IsBytes};
ghost use Rattle.disks.specs.Names.{lasts};
ghost use Rattle.share_folders.specs.Names.{IsNamed, IsOpenNamed, IsShareKey, closed_name};
ghost use Rattle.share_folders.specs.Names.{open_name, named_by, in_folder};
ghost use Rattle.share_store.specs.Shelf.{ShareKey};

use cap_text::{from_base32, to_base32};
use share_store::error::StoreError;
use share_store::shelf::ShareKey;
use std::alloc::Global;
use std::io;
use std::random::RandomSource;
use tagged_hash::read_decimal;
use wire::message::Digest;

/// 16 bytes that no other process has.
pub type OwnToken = [u8; 16];

/// 16 bytes from the system.
pub fn draw_token<R: RandomSource>(rt: &R) -> io::Result<OwnToken> {
    let mut token = [0; 16];
    rt.fill_bytes(&mut token)?;
    Ok(token)
}

// The letters of a storage index, of what only a writer has, and of a digest.
const INDEX_LETTERS: usize = 26;

const OWN_LETTERS: usize = 26;

const DIGEST_LETTERS: usize = 52;

// What stands in place of a digest in an open share's name as earlier versions made it.
const OPEN: &[u8] = b"open";

/// What a closed share's file is named by.
#[derive(Clone, Copy)]
pub struct ClosedName {
    /// The storage index and the number of the share.
    pub key: ShareKey,
    /// The digest that the share was closed with.
    pub digest: Digest,
}

impl ClosedName {
    /// The share and the digest of a closed share's file, by its name; `None` for every other name.
    pub fn read(name: &[u8]) -> Option<ClosedName>
        ensures value { IfSome result (λ named. name.now ≡ closed_name named.key named.digest) }
        ensures named { IfSome result (λ named. IsNamed named.key named.digest) }
        ensures only { (key : ShareKey) (digest : List ℕ) → IsNamed key digest
            → name.now ≡ closed_name key digest → IsSome result }
    {
        let (key, digest_text) = split_name(name, DIGEST_LETTERS)?;
        let mut digest = [0; 32];
        if !from_base32(digest_text, &mut digest) {
            return None;
        }
        Some(ClosedName { key, digest })
    }

    /// The name of the closed share's file.
    pub fn text(&self, alloc: Global) -> Result<String, StoreError>
        ensures text { IfOk result
            (λ text. string_bytes text ≡ closed_name self.now.key self.now.digest) }
        ensures lasting { IfOk result (λ text. lasts (string_bytes text) ≡ true) }
        ensures memory { IsOkUnless result StoreError.OutOfMemory }
    {
        closed_text(alloc, &self.key, &self.digest)
    }
}

// The name of a closed share's file.
fn closed_text(alloc: Global, key: &ShareKey, digest: &Digest) -> Result<String, StoreError>
    ensures text { IfOk result (λ text. string_bytes text ≡ closed_name key.now digest.now) }
    ensures memory { IsOkUnless result StoreError.OutOfMemory }
{
    let index = base32_of(alloc, &key.0)?;
    let digest = base32_of(alloc, digest)?;
    Ok(format!(in alloc; "{index}.{}.{digest}", key.1)?)
}

/// The path of a closed share's file.
pub fn closed_path(
    alloc: Global,
    folder: &str,
    key: &ShareKey,
    digest: &Digest,
) -> Result<String, StoreError>
    ensures path { IfOk result
        (λ path. string_bytes path ≡ in_folder folder.now (closed_name key.now digest.now)) }
    ensures memory { IsOkUnless result StoreError.OutOfMemory }
{
    let named = ClosedName {
        key: *key,
        digest: *digest,
    };
    let name = named.text(alloc)?;
    Ok(format!(in alloc; "{folder}/{name}")?)
}

/// What an open share's file is named by. Names are ordered by the keys of their shares.
#[derive(Clone, Copy, Debug, PartialEq, Eq, PartialOrd, Ord)]
pub struct OpenName {
    /// The storage index and the number of the share.
    pub key: ShareKey,
    /// What only its writer has; none in a name as earlier versions made it.
    pub own: Option<OwnToken>,
}

impl OpenName {
    /// The share and the writer of an open share's file, by its name; `None` for every other name.
    pub fn read(name: &[u8]) -> Option<OpenName>
        ensures value { IfSome result (λ named. name.now ≡ open_name named.key named.own) }
        ensures only { (key : ShareKey) (own : Option (List ℕ)) → IsOpenNamed key own
            → name.now ≡ open_name key own → IsSome result }
    {
        if let Some(key) = read_ownerless(name) {
            return Some(OpenName { key, own: None });
        }
        let (key, own) = read_owned(name)?;
        Some(OpenName {
            key,
            own: Some(own),
        })
    }

    /// The name of the open share's file.
    pub fn text(&self, alloc: Global) -> Result<String, StoreError>
        ensures text { IfOk result
            (λ text. string_bytes text ≡ open_name self.now.key self.now.own) }
        ensures passing { IfOk result (λ text. lasts (string_bytes text) ≡ false) }
        ensures memory { IsOkUnless result StoreError.OutOfMemory }
    {
        match &self.own {
            None => ownerless_text(alloc, &self.key),
            Some(own) => owned_text(alloc, &self.key, own),
        }
    }
}

// The name of an open share's file as earlier versions made it.
fn ownerless_text(alloc: Global, key: &ShareKey) -> Result<String, StoreError>
    ensures text { IfOk result (λ text. string_bytes text ≡ open_name key.now None) }
    ensures memory { IsOkUnless result StoreError.OutOfMemory }
{
    let index = base32_of(alloc, &key.0)?;
    Ok(format!(in alloc; "{index}.{}.open", key.1)?)
}

// The name of an open share's file.
fn owned_text(alloc: Global, key: &ShareKey, own: &OwnToken) -> Result<String, StoreError>
    ensures text { IfOk result (λ text. string_bytes text ≡ open_name key.now (Some own.now)) }
    ensures memory { IsOkUnless result StoreError.OutOfMemory }
{
    let index = base32_of(alloc, &key.0)?;
    let own = base32_of(alloc, own)?;
    Ok(format!(in alloc; "{index}.{}.{own}.open", key.1)?)
}

/// The path of an open share's file.
pub fn open_path(alloc: Global, folder: &str, name: &OpenName) -> Result<String, StoreError>
    ensures path { IfOk result
        (λ path. string_bytes path ≡ in_folder folder.now (open_name name.now.key name.now.own)) }
    ensures memory { IsOkUnless result StoreError.OutOfMemory }
{
    let name = name.text(alloc)?;
    Ok(format!(in alloc; "{folder}/{name}")?)
}

// The share of an open share's file, by its name as earlier versions made it.
fn read_ownerless(name: &[u8]) -> Option<ShareKey>
    ensures value { IfSome result (λ key. name.now ≡ open_name key None) }
    ensures only { (key : ShareKey) → IsShareKey key
        → name.now ≡ open_name key None → IsSome result }
{
    let (key, end) = split_name(name, OPEN.len())?;
    if end != OPEN {
        return None;
    }
    Some(key)
}

// The share and the writer of an open share's file, by its name.
fn read_owned(name: &[u8]) -> Option<(ShareKey, OwnToken)>
    ensures value { IfSome result (λ found. name.now ≡ open_name found.0 (Some found.1)) }
    ensures only { (key : ShareKey) (own : List ℕ) → IsShareKey key → IsBytes 16 own
        → name.now ≡ open_name key (Some own) → IsSome result }
{
    let (key, own_text) = split_name(name.strip_suffix(b".open")?, OWN_LETTERS)?;
    let mut own = [0; 16];
    if !from_base32(own_text, &mut own) {
        return None;
    }
    Some((key, own))
}

/// The base32 text of some bytes.
pub fn base32_of(alloc: Global, bytes: &[u8]) -> Result<String, StoreError>
    ensures text { IfOk result (λ text. string_bytes text ≡ base32 bytes.now) }
    ensures memory { IsOkUnless result StoreError.OutOfMemory }
{
    to_base32(alloc, bytes).map_err(|_| StoreError::OutOfMemory)
}

// The share that a name begins with, and so many letters at its end.
fn split_name(name: &[u8], end_letters: usize) -> Option<(ShareKey, &[u8])>
    requires { end_letters ≤ 52 }
    ensures value { IfSome result (λ found. name.now ≡ named_by found.0 found.1.now) }
    ensures share { IfSome result (λ found. IsShareKey found.0) }
    ensures only { (key : ShareKey) (end : List ℕ) → IsShareKey key → length end ≡ end_letters
        → name.now ≡ named_by key end → IsSomeAnd result (λ found. found.1.now ≡ end) }
{
    if name.len() < INDEX_LETTERS + end_letters {
        return None;
    }
    let (index_text, rest) = name.split_at(INDEX_LETTERS);
    let (share_text, end) = rest.split_at(rest.len() - end_letters);
    let share = read_between(share_text)?;
    let mut index = [0; 16];
    if !from_base32(index_text, &mut index) {
        return None;
    }
    Some(((index, share), end))
}

// The share number between two dots.
fn read_between(text: &[u8]) -> Option<u8>
    ensures value { IfSome result (λ n. text.now ≡ codes "." ++ decimal n ++ codes ".") }
    ensures only { (n : ℕ) → n < 256
        → text.now ≡ codes "." ++ decimal n ++ codes "." → IsSome result }
{
    u8::try_from(read_decimal(between_dots(text)?)?).ok()
}

// What stands between two dots.
fn between_dots(text: &[u8]) -> Option<&[u8]>
    ensures value { IfSome result (λ inner. text.now ≡ codes "." ++ inner.now ++ codes ".") }
    ensures only { (inner : List ℕ) → text.now ≡ codes "." ++ inner ++ codes "."
        → IsSomeAnd result (λ found. found.now ≡ inner) }
{
    text.strip_prefix(b".")?.strip_suffix(b".")
}
