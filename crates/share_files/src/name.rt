//! The share files of a folder, by their names.

ghost use Rattle.std.specs.Prelude.{◌≡◌, ◌≢◌, ◌<◌, ◌++◌, ℕ, List, codes, decimal, length};
ghost use Rattle.std.specs.Prelude.{Option, IfNone, IfSome, IsSome, IsSomeAnd, IsOkUnless, IfOk};
ghost use Rattle.std.specs.String.{string_bytes};
ghost use Rattle.share_store.specs.declared.error.StoreError.{StoreError};
ghost use Rattle.share_folders.specs.Names.{IsNamed, IsOpenNamed, closed_name, in_folder};
ghost use Rattle.share_folders.specs.Names.{open_name};
ghost use Rattle.share_store.specs.Shelf.{ShareKey};
ghost use Rattle.cap_text.specs.Base32.{base32, IsBytes};
ghost use Rattle.share_files.specs.Name.{IsAsideNumber, aside_end, aside_file, aside_name};
ghost use Rattle.share_files.specs.Name.{closed_file, file_name, half_file, half_name};

use cap_text::from_base32;
use share_folders::names::{ClosedName, OpenName, OwnToken, base32_of};
use share_store::error::StoreError;
use share_store::shelf::ShareKey;
use std::alloc::Global;
use tagged_hash::read_decimal;
use wire::message::Digest;

/// The most files of one closed name that are set aside.
pub(crate) const MAX_ASIDE: u8 = 99;

// The letters of what a file has of its own that is on its way, with the dot before them.
const OWN_END: usize = 27;

// What stands behind the closed name of a file that is set aside.
const ASIDE: &[u8] = b".damaged";

// And before the number of each but the first.
const NUMBERED: &[u8] = b".damaged.";

/// The file of a share in a server's folder. Files are ordered by the keys of their shares, and
/// those of one key by their kinds.
#[derive(Clone, Copy, Debug, PartialEq, Eq, PartialOrd, Ord)]
pub struct ShareFile {
    /// The storage index and the number of the share.
    pub key: ShareKey,
    pub kind: FileKind,
}

/// What a share's file is by its name. Closed ones come first, and those set aside last.
#[derive(Clone, Copy, Debug, PartialEq, Eq, PartialOrd, Ord)]
pub enum FileKind {
    /// A closed share's, with the digest that it was closed with.
    Closed(Digest),
    /// An open share's, with the 16 bytes that only its writer has; names as earlier versions made
    /// them have none.
    Open(Option<OwnToken>),
    /// A closed share's that is on its way to be set aside, or was when its process ended: the
    /// digest in its name, and 16 bytes that no other file of that name has.
    HalfAside(Digest, OwnToken),
    /// A closed share's that was set aside: the digest in its name, and which of that name it is,
    /// from 1 to 99, or 0 in a name that an earlier version made.
    Aside(Digest, u8),
}

impl ShareFile {
    /// The file of a closed share.
    pub fn closed(name: &ClosedName) -> ShareFile
        ensures { result ≡ closed_file name.now }
    {
        ShareFile {
            key: name.key,
            kind: FileKind::Closed(name.digest),
        }
    }

    /// The same on its way to be set aside.
    pub fn half_aside(name: &ClosedName, own: OwnToken) -> ShareFile
        ensures { result ≡ half_file name.now own }
    {
        ShareFile {
            key: name.key,
            kind: FileKind::HalfAside(name.digest, own),
        }
    }

    /// The same set aside, by its number.
    pub(crate) fn aside(name: &ClosedName, number: u8) -> ShareFile
        ensures { result ≡ aside_file name.now number }
    {
        ShareFile {
            key: name.key,
            kind: FileKind::Aside(name.digest, number),
        }
    }

    /// The file of this name; `None` for every name that no share's file has.
    pub fn read(name: &[u8]) -> Option<ShareFile>
        ensures value { IfSome result (λ file. name.now ≡ file_name file) }
        ensures closed { (key : ShareKey) (digest : List ℕ) → IsNamed key digest
            → IfNone result (name.now ≢ closed_name key digest) }
        ensures open { (key : ShareKey) (own : Option (List ℕ)) → IsOpenNamed key own
            → IfNone result (name.now ≢ open_name key own) }
        ensures aside { (key : ShareKey) (digest : List ℕ) (number : ℕ) → IsNamed key digest
            → IsAsideNumber number → IfNone result (name.now ≢ aside_name key digest number) }
        ensures half { (key : ShareKey) (digest own : List ℕ) → IsNamed key digest
            → IsBytes 16 own → IfNone result (name.now ≢ half_name key digest own) }
    {
        if let Some(closed) = ClosedName::read(name) {
            return Some(ShareFile {
                key: closed.key,
                kind: FileKind::Closed(closed.digest),
            });
        }
        if let Some(open) = OpenName::read(name) {
            return Some(ShareFile {
                key: open.key,
                kind: FileKind::Open(open.own),
            });
        }
        if let Some(half) = read_half(name) {
            return Some(half);
        }
        read_aside(name)
    }

    /// The file's name.
    pub fn text(&self, alloc: Global) -> Result<String, StoreError>
        ensures text { IfOk result (λ text. string_bytes text ≡ file_name self.now) }
        ensures memory { IsOkUnless result StoreError.OutOfMemory }
    {
        match &self.kind {
            FileKind::Closed(digest) => closed_text(alloc, &self.key, digest),
            FileKind::Open(own) => open_text(alloc, &self.key, *own),
            FileKind::HalfAside(digest, own) => half_text(alloc, &self.key, digest, own),
            FileKind::Aside(digest, number) => aside_text(alloc, &self.key, digest, *number),
        }
    }

    /// The file's path.
    pub fn path(&self, alloc: Global, folder: &str) -> Result<String, StoreError>
        ensures path { IfOk result
            (λ path. string_bytes path ≡ in_folder folder.now (file_name self.now)) }
        ensures memory { IsOkUnless result StoreError.OutOfMemory }
    {
        let name = self.text(alloc)?;
        Ok(format!(in alloc; "{folder}/{name}")?)
    }
}

// The name of a closed share's file.
fn closed_text(alloc: Global, key: &ShareKey, digest: &Digest) -> Result<String, StoreError>
    ensures text { IfOk result (λ text. string_bytes text ≡ closed_name key.now digest.now) }
    ensures memory { IsOkUnless result StoreError.OutOfMemory }
{
    let name = ClosedName {
        key: *key,
        digest: *digest,
    };
    name.text(alloc)
}

// The name of an open share's file.
fn open_text(alloc: Global, key: &ShareKey, own: Option<OwnToken>) -> Result<String, StoreError>
    ensures text { IfOk result (λ text. string_bytes text ≡ open_name key.now own) }
    ensures memory { IsOkUnless result StoreError.OutOfMemory }
{
    let name = OpenName { key: *key, own };
    name.text(alloc)
}

// The name of a closed share's file that is on its way to be set aside.
fn half_text(
    alloc: Global,
    key: &ShareKey,
    digest: &Digest,
    own: &OwnToken,
) -> Result<String, StoreError>
    ensures text { IfOk result
        (λ text. string_bytes text ≡ half_name key.now digest.now own.now) }
    ensures memory { IsOkUnless result StoreError.OutOfMemory }
{
    let closed = closed_text(alloc, key, digest)?;
    let own = base32_of(alloc, own)?;
    Ok(format!(in alloc; "{closed}.{own}.aside")?)
}

// The name of a closed share's file that is set aside, by its number.
fn aside_text(
    alloc: Global,
    key: &ShareKey,
    digest: &Digest,
    number: u8,
) -> Result<String, StoreError>
    ensures text { IfOk result
        (λ text. string_bytes text ≡ aside_name key.now digest.now number) }
    ensures memory { IsOkUnless result StoreError.OutOfMemory }
{
    let closed = closed_text(alloc, key, digest)?;
    if number == 1 {
        return Ok(format!(in alloc; "{closed}.damaged")?);
    }
    Ok(format!(in alloc; "{closed}.damaged.{number}")?)
}

// The file that is on its way to be set aside under this name.
fn read_half(name: &[u8]) -> Option<ShareFile>
    ensures value { IfSome result (λ file. name.now ≡ file_name file) }
    ensures only { (key : ShareKey) (digest own : List ℕ) → IsNamed key digest
        → IsBytes 16 own → name.now ≡ half_name key digest own → IsSome result }
{
    let front = front_of(name, b".aside")?;
    if front.len() < OWN_END {
        return None;
    }
    let (closed, end) = front.split_at(front.len() - OWN_END);
    let own = read_own(end)?;
    let closed = ClosedName::read(closed)?;
    Some(ShareFile::half_aside(&closed, own))
}

// What a file has of its own, behind a dot.
fn read_own(text: &[u8]) -> Option<OwnToken>
    ensures value { IfSome result (λ own. text.now ≡ codes "." ++ base32 own) }
    ensures only { (own : List ℕ) → IsBytes 16 own
        → text.now ≡ codes "." ++ base32 own → IsSome result }
{
    let letters = text.strip_prefix(b".")?;
    let mut own = [0; 16];
    if !from_base32(letters, &mut own) {
        return None;
    }
    Some(own)
}

// The file that is set aside under this name. Numbers have one digit or two.
fn read_aside(name: &[u8]) -> Option<ShareFile>
    ensures value { IfSome result (λ file. name.now ≡ file_name file) }
    ensures only { (key : ShareKey) (digest : List ℕ) (number : ℕ) → IsNamed key digest
        → IsAsideNumber number → name.now ≡ aside_name key digest number → IsSome result }
{
    if let Some(first) = read_first_aside(name) {
        return Some(first);
    }
    match read_numbered(name, 1) {
        Some(file) => Some(file),
        None => read_numbered(name, 2),
    }
}

// The first file of its closed name that is set aside.
fn read_first_aside(name: &[u8]) -> Option<ShareFile>
    ensures value { IfSome result (λ file. name.now ≡ file_name file) }
    ensures only { (key : ShareKey) (digest : List ℕ) → IsNamed key digest
        → name.now ≡ aside_name key digest 1 → IsSome result }
{
    numbered_file(front_of(name, ASIDE)?, 1)
}

// One with a number of so many digits.
fn read_numbered(name: &[u8], digits: usize) -> Option<ShareFile>
    ensures value { IfSome result (λ file. name.now ≡ file_name file) }
    ensures only { (key : ShareKey) (digest : List ℕ) (number : ℕ) → IsNamed key digest
        → number ≢ 1 → number < 100 → length (decimal number) ≡ digits
        → name.now ≡ aside_name key digest number → IsSome result }
{
    if name.len() < digits {
        return None;
    }
    let (front, text) = name.split_at(name.len() - digits);
    let number = read_number(text)?;
    numbered_file(front_of(front, NUMBERED)?, number)
}

// The file with this closed name, and so many of them.
fn numbered_file(closed: &[u8], number: u8) -> Option<ShareFile>
    ensures value { IfSome result
        (λ file. file_name file ≡ closed.now ++ aside_end number) }
    ensures only { (key : ShareKey) (digest : List ℕ) → IsNamed key digest
        → closed.now ≡ closed_name key digest → IsSome result }
{
    let closed = ClosedName::read(closed)?;
    Some(ShareFile::aside(&closed, number))
}

// The number of a file that is set aside and is not the first, which has none.
fn read_number(text: &[u8]) -> Option<u8>
    ensures value { IfSome result (λ n. (n ≢ 1) × (n < 100) × (text.now ≡ decimal n)) }
    ensures only { (n : ℕ) → n ≢ 1 → n < 100 → text.now ≡ decimal n → IsSome result }
{
    let number = read_decimal(text)?;
    if number == 1 {
        return None;
    }
    if number > u64::from(MAX_ASIDE) {
        return None;
    }
    Some(number as u8)
}

// What stands before an end.
fn front_of<'a>(text: &'a [u8], end: &[u8]) -> Option<&'a [u8]>
    ensures value { IfSome result (λ front. text.now ≡ front.now ++ end.now) }
    ensures only { (front : List ℕ) → text.now ≡ front ++ end.now
        → IsSomeAnd result (λ found. found.now ≡ front) }
{
    text.strip_suffix(end)
}
