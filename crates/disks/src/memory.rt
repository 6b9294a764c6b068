//! A folder in memory: its calls so far. Nothing fails but for want of memory, and no other program
//! is there.

ghost use Rattle.std.specs.Prelude.{◌≡◌, ◌++◌, [], ◌∷◌, IfOk, OnOk, OnErr, IsTrue, length, take};
ghost use Rattle.std.specs.Prelude.{drop, false, map};
ghost use Rattle.disks.specs.Folder.{Folder};
ghost use Rattle.disks.specs.Replay.{happens, replay, states, AreNamed, HasFound, IsUnused};
ghost use Rattle.std.specs.String.{string_bytes};

use crate::disk::{Disk, HonestDisk};
use crate::error::DiskError;
use std::alloc::{AllocError, Global};

/// A call that went well.
#[derive(Drop)]
pub enum Event {
    /// A file was made under a name, and has this number.
    Created(String, u64),
    /// Bytes came at the end of a file.
    Appended(u64, Vec<u8>),
    /// The bytes of a file were put on the disk.
    FileSynced(u64),
    /// What stood under the first name, the file of this number, stands under the second.
    Renamed(String, String, u64),
    /// The file of this number stands under a further name.
    Linked(String, u64),
    /// The names were put on the disk.
    FolderSynced,
    /// A name was removed.
    Removed(String),
}

/// A folder in memory.
#[derive(Drop)]
pub struct MemoryDisk {
    alloc: Global,
    events: Vec<Event>,
}

/// An open file of such a folder.
#[derive(Clone, Copy)]
pub struct MemoryFile {
    number: u64,
}

/// Such a folder, opened.
#[derive(Clone, Copy)]
pub struct OpenFolder;

impl MemoryDisk {
    /// An empty folder.
    pub fn new(alloc: Global) -> MemoryDisk
        ensures { result.events.items ≡ [] }
    {
        MemoryDisk {
            alloc,
            events: Vec::new(alloc),
        }
    }

    // The bytes of a file.
    fn bytes(&self, number: u64) -> Result<Vec<u8>, AllocError>
        ensures { IfOk result
            (λ bytes. bytes.items ≡ ((replay self.now.events.items).file number).bytes) }
    {
        bytes_in(self.alloc, self.events.as_slice(), number)
    }
}

// What is found under a name after a call, where this was found before.
fn found_after(event: &Event, name: &str, found: Option<u64>) -> Option<u64>
    ensures { (s : Folder) → s.found name.now ≡ found
        → result ≡ (happens s event.now).found name.now }
{
    match event {
        Event::Created(other, number) if name == other.as_str() => Some(*number),
        Event::Renamed(from, to, number) => {
            if name == to.as_str() {
                return Some(*number);
            }
            if name == from.as_str() {
                return None;
            }
            found
        }
        Event::Linked(to, number) if name == to.as_str() => Some(*number),
        Event::Removed(other) if name == other.as_str() => None,
        _ => found,
    }
}

// What is found under a name.
fn found_in(events: &[Event], name: &str) -> Option<u64>
    ensures { result ≡ (replay events.now).found name.now }
{
    let mut found = None;
    for event in events {
        found = found_after(event, name, found);
    }
    found
}

// Whether a call gave a name to the file of this number.
fn is_named_by(event: &Event, number: u64) -> bool
    ensures { result ≡ false → (s : Folder) → IsUnused number s
        → IsUnused number (happens s event.now) }
{
    match event {
        Event::Created(_, other) => number == *other,
        Event::Renamed(_, _, other) => number == *other,
        Event::Linked(_, other) => number == *other,
        _ => false,
    }
}

// Whether a file has, or had, this number.
fn is_used_in(events: &[Event], number: u64) -> bool
    ensures { result ≡ false → IsUnused number (replay events.now) }
{
    for event in events {
        if is_named_by(event, number) {
            return true;
        }
    }
    false
}

// The bytes of a file after a call, where it had these before.
fn bytes_after(event: &Event, number: u64, bytes: &mut Vec<u8>) -> Result<(), AllocError>
    ensures { OnOk result ((s : Folder) → (s.file number).bytes ≡ bytes.old.items
        → bytes.new.items ≡ ((happens s event.now).file number).bytes) }
{
    match event {
        Event::Created(_, other) if number == *other => {
            bytes.clear();
            Ok(())
        }
        Event::Appended(other, more) if number == *other => bytes.extend_from_slice(more),
        _ => Ok(()),
    }
}

// The bytes of a file.
fn bytes_in(alloc: Global, events: &[Event], number: u64) -> Result<Vec<u8>, AllocError>
    ensures { IfOk result (λ bytes. bytes.items ≡ ((replay events.now).file number).bytes) }
{
    let mut bytes = Vec::new(alloc);
    for event in events {
        bytes_after(event, number, &mut bytes)?;
    }
    Ok(bytes)
}

// Adds a name.
fn push_name(alloc: Global, names: &mut Vec<String>, name: &str) -> Result<(), AllocError>
    ensures { OnOk result (map string_bytes names.new.items
        ≡ map string_bytes names.old.items ++ name.now ∷ []) }
{
    names.push(String::from_str(alloc, name)?)?;
    Ok(())
}

// The names that a call gave, beside those from before it.
fn names_after(alloc: Global, event: &Event, names: &mut Vec<String>) -> Result<(), AllocError>
    ensures { OnOk result (AreNamed (map string_bytes names.old.items) event.now
        (map string_bytes names.new.items)) }
{
    match event {
        Event::Created(name, _) => push_name(alloc, names, name.as_str()),
        Event::Renamed(_, name, _) => push_name(alloc, names, name.as_str()),
        Event::Linked(name, _) => push_name(alloc, names, name.as_str()),
        _ => Ok(()),
    }
}

// The names under which files are, or were.
fn names_in(alloc: Global, events: &[Event]) -> Result<Vec<String>, AllocError>
    ensures { IfOk result (λ names. HasFound (replay events.now) (map string_bytes names.items)) }
{
    let mut names = Vec::new(alloc);
    for event in events {
        names_after(alloc, event, &mut names)?;
    }
    Ok(names)
}

// Notes a call.
fn note(events: &mut Vec<Event>, event: Event) -> Result<(), DiskError>
    ensures ok { OnOk result (events.new.items ≡ events.old.items ++ event ∷ []) }
    ensures err { OnErr result (events.new.items ≡ events.old.items) }
{
    events.push(event)?;
    Ok(())
}

impl Disk for MemoryDisk {
    ghost use Rattle.std.specs.Prelude.{⊤, true};
    ghost use Rattle.disks.specs.Changed.{empty};

    type File = MemoryFile;

    type Folder = OpenFolder;

    ghost place = { λ d. [] };

    ghost folder = { λ d. replay d.events.items };

    ghost past = { λ d. states empty d.events.items };

    ghost honest = { λ d. ⊤ };

    ghost relied = { λ name bytes. true };

    ghost inode = { λ f. f.number };

    fn create(&mut self, name: &str) -> Result<MemoryFile, DiskError> {
        let number = self.events.len() as u64;
        if found_in(self.events.as_slice(), name).is_some() {
            return Err(DiskError::AlreadyExists);
        }
        if is_used_in(self.events.as_slice(), number) {
            return Err(DiskError::Failed);
        }
        let name = String::from_str(self.alloc, name)?;
        note(&mut self.events, Event::Created(name, number))?;
        Ok(MemoryFile { number })
    }

    fn append(&mut self, file: &mut MemoryFile, bytes: &[u8]) -> Result<(), DiskError> {
        let bytes = Vec::from_slice(self.alloc, bytes)?;
        note(&mut self.events, Event::Appended(file.number, bytes))
    }

    fn sync_file(&mut self, file: &MemoryFile) -> Result<(), DiskError> {
        note(&mut self.events, Event::FileSynced(file.number))
    }

    fn rename(
        &mut self,
        file: &MemoryFile,
        length: u64,
        from: &str,
        to: &str,
    ) -> Result<(), DiskError> {
        let Some(number) = found_in(self.events.as_slice(), from) else {
            return Err(DiskError::NotFound);
        };
        if number != file.number || self.bytes(number)?.len() as u64 != length {
            return Err(DiskError::Failed);
        }
        let from = String::from_str(self.alloc, from)?;
        let to = String::from_str(self.alloc, to)?;
        note(&mut self.events, Event::Renamed(from, to, number))
    }

    fn link(&mut self, from: &str, to: &str) -> Result<(), DiskError> {
        let Some(number) = found_in(self.events.as_slice(), from) else {
            return Err(DiskError::NotFound);
        };
        if found_in(self.events.as_slice(), to).is_some() {
            return Err(DiskError::AlreadyExists);
        }
        let to = String::from_str(self.alloc, to)?;
        note(&mut self.events, Event::Linked(to, number))
    }

    fn open_folder(&mut self) -> Result<OpenFolder, DiskError> {
        Ok(OpenFolder)
    }

    fn sync_folder(&mut self, _opened: &OpenFolder) -> Result<(), DiskError> {
        note(&mut self.events, Event::FolderSynced)
    }

    fn open(&mut self, name: &str) -> Result<MemoryFile, DiskError> {
        match found_in(self.events.as_slice(), name) {
            Some(number) => Ok(MemoryFile { number }),
            None => Err(DiskError::NotFound),
        }
    }

    fn read_at(
        &mut self,
        file: &mut MemoryFile,
        offset: u64,
        out: &mut [u8],
    ) -> Result<(), DiskError> {
        let bytes = self.bytes(file.number)?;
        if !copy_from(bytes.as_slice(), offset, out) {
            return Err(DiskError::Failed);
        }
        Ok(())
    }

    fn find(&mut self, name: &str) -> Result<Option<u64>, DiskError> {
        match found_in(self.events.as_slice(), name) {
            Some(number) => Ok(Some(self.bytes(number)?.len() as u64)),
            None => Ok(None),
        }
    }

    fn list(&mut self, alloc: Global) -> Result<Vec<String>, DiskError> {
        Ok(names_in(alloc, self.events.as_slice())?)
    }

    fn remove(&mut self, name: &str) -> Result<(), DiskError> {
        let name = String::from_str(self.alloc, name)?;
        note(&mut self.events, Event::Removed(name))
    }
}

impl HonestDisk for MemoryDisk {
    ghost always = { λ d. tt };
}

// Fills `out` from a text, from an offset on, if it has as many bytes.
fn copy_from(text: &[u8], offset: u64, out: &mut [u8]) -> bool
    ensures { IsTrue result → out.new ≡ take (length out.new) (drop offset text.now) }
{
    let start = text.len().min(offset as usize);
    if text.len() - start < out.len() {
        return false;
    }
    out.copy_from_slice(&text[start..start + out.len()]);
    true
}
