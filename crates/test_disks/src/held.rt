//! A folder in memory that stops at a call, and what a crash may leave of it.

use disks::error::DiskError;
use std::alloc::Global;

// A file, whether its bytes are on the disk, and whether it had a name there that it may have lost
// by renames alone.
#[derive(Drop)]
struct Inode {
    bytes: Vec<u8>,
    is_synced: bool,
    is_named: bool,
}

// A name, and what a crash may leave under it. The last of that is found.
#[derive(Drop)]
struct Entry {
    name: String,
    left: Vec<Option<usize>>,
}

/// A folder, the calls that changed it, and how many of them go well.
#[derive(Drop)]
pub struct Held {
    files: Vec<Inode>,
    names: Vec<Entry>,
    calls: u64,
    stop: u64,
}

impl Held {
    /// An empty folder, of which so many calls go well.
    pub fn new(alloc: Global, stop: u64) -> Held {
        Held {
            files: Vec::new(alloc),
            names: Vec::new(alloc),
            calls: 0,
            stop,
        }
    }

    /// From now on so many calls go well.
    pub fn stop_after(&mut self, count: u64) {
        self.stop = self.calls.saturating_add(count);
    }

    /// Whether all calls went well.
    pub fn is_done(&self) -> bool {
        self.calls <= self.stop
    }

    /// Counts a call, which may be the one at which the disk stops.
    pub fn call(&mut self) -> Result<(), DiskError> {
        self.calls = self.calls.saturating_add(1);
        if self.calls <= self.stop {
            Ok(())
        } else {
            Err(DiskError::Failed)
        }
    }

    /// The number of the file under a name.
    pub fn found(&self, name: &str) -> Option<usize> {
        for entry in &self.names {
            if entry.name.as_str() == name {
                return last_of(entry.left.as_slice());
            }
        }
        None
    }

    /// The bytes of the file under a name.
    pub fn bytes(&self, name: &str) -> Option<&[u8]> {
        match self.files.get(self.found(name)?) {
            Some(file) => Some(file.bytes.as_slice()),
            None => None,
        }
    }

    // Puts a file under a name, or takes away what is there.
    fn put(&mut self, alloc: Global, name: &str, file: Option<usize>) -> Result<(), DiskError> {
        for entry in self.names.iter_mut() {
            if entry.name.as_str() == name {
                entry.left.push(file)?;
                return Ok(());
            }
        }
        let mut left = Vec::new(alloc);
        left.push(None)?;
        left.push(file)?;
        let name = String::from_str(alloc, name)?;
        self.names.push(Entry { name, left })?;
        Ok(())
    }

    /// Makes an empty file, and gives its number.
    pub fn create(&mut self, alloc: Global, name: &str) -> Result<usize, DiskError> {
        self.call()?;
        if self.found(name).is_some() {
            return Err(DiskError::AlreadyExists);
        }
        let number = self.files.len();
        self.files.push(Inode {
            bytes: Vec::new(alloc),
            is_synced: false,
            is_named: false,
        })?;
        self.put(alloc, name, Some(number))?;
        Ok(number)
    }

    /// Adds bytes at the end of a file.
    pub fn append(&mut self, number: usize, bytes: &[u8]) -> Result<(), DiskError> {
        self.call()?;
        let Some(file) = self.files.get_mut(number) else {
            return Err(DiskError::Failed);
        };
        file.is_synced = false;
        file.bytes.extend_from_slice(bytes)?;
        Ok(())
    }

    /// Puts the bytes of a file on the disk.
    pub fn sync_file(&mut self, number: usize) -> Result<(), DiskError> {
        self.call()?;
        let Some(file) = self.files.get_mut(number) else {
            return Err(DiskError::Failed);
        };
        file.is_synced = true;
        Ok(())
    }

    /// Gives a file another name, in the place of what stands there.
    pub fn rename(
        &mut self,
        alloc: Global,
        number: usize,
        from: &str,
        to: &str,
    ) -> Result<(), DiskError> {
        self.call()?;
        if self.found(from) != Some(number) {
            return Err(DiskError::Failed);
        }
        self.lose(to);
        self.put(alloc, to, Some(number))?;
        self.put(alloc, from, None)
    }

    // The file under a name has it no more, nor need have another.
    fn lose(&mut self, name: &str) {
        if let Some(number) = self.found(name) {
            if let Some(file) = self.files.get_mut(number) {
                file.is_named = false;
            }
        }
    }

    /// Removes a name.
    pub fn remove(&mut self, alloc: Global, name: &str) -> Result<(), DiskError> {
        self.call()?;
        self.lose(name);
        self.put(alloc, name, None)
    }

    /// Gives a file a second name, where nothing stands.
    pub fn link(&mut self, alloc: Global, from: &str, to: &str) -> Result<(), DiskError> {
        self.call()?;
        if self.found(to).is_some() {
            return Err(DiskError::AlreadyExists);
        }
        match self.found(from) {
            Some(number) => self.put(alloc, to, Some(number)),
            None => Err(DiskError::NotFound),
        }
    }

    /// Puts the names on the disk.
    pub fn sync_names(&mut self, alloc: Global) -> Result<(), DiskError> {
        self.call()?;
        for entry in self.names.iter_mut() {
            let last = last_of(entry.left.as_slice());
            let mut left = Vec::new(alloc);
            left.push(last)?;
            entry.left = left;
            if let Some(number) = last {
                if let Some(file) = self.files.get_mut(number) {
                    file.is_named = true;
                }
            }
        }
        Ok(())
    }

    /// The length of the file under a name.
    pub fn length(&self, name: &str) -> Option<u64> {
        Some(self.bytes(name)?.len() as u64)
    }

    /// Fills `out` with bytes of a file from an offset on.
    pub fn read_at(&self, number: usize, offset: u64, out: &mut [u8]) -> Result<(), DiskError> {
        let Some(file) = self.files.get(number) else {
            return Err(DiskError::Failed);
        };
        let bytes = file.bytes.as_slice();
        let start = bytes.len().min(offset as usize);
        if bytes.len() - start < out.len() {
            return Err(DiskError::Failed);
        }
        out.copy_from_slice(&bytes[start..start + out.len()]);
        Ok(())
    }

    /// The names under which files are found.
    pub fn list(&self, alloc: Global) -> Result<Vec<String>, DiskError> {
        let mut names = Vec::new(alloc);
        for entry in &self.names {
            if last_of(entry.left.as_slice()).is_some() {
                names.push(String::from_str(alloc, entry.name.as_str())?)?;
            }
        }
        Ok(names)
    }

    /// Whether a crash can leave this where renames are whole: each file that had a name on the
    /// disk, which was neither removed nor given to another, has one.
    pub fn is_likely(&self) -> bool {
        for number in 0..self.files.len() {
            let Some(file) = self.files.get(number) else {
                return false;
            };
            if file.is_named && !self.has_name(number) {
                return false;
            }
        }
        true
    }

    // Whether a file has a name.
    fn has_name(&self, number: usize) -> bool {
        for entry in &self.names {
            if last_of(entry.left.as_slice()) == Some(number) {
                return true;
            }
        }
        false
    }

    /// What a crash leaves by this choice, and what is left of the choice: nothing, if it is one.
    pub fn after_crash(&self, alloc: Global, choice: u64) -> Result<(Held, u64), DiskError> {
        let mut left = Held::new(alloc, u64::MAX);
        let mut rest = choice;
        for entry in &self.names {
            let (file, more) = name_by(entry.left.as_slice(), rest);
            rest = more;
            left.put(alloc, entry.name.as_str(), file)?;
        }
        for file in &self.files {
            let (bytes, more) = bytes_by(file, rest);
            rest = more;
            left.files.push(Inode {
                bytes: Vec::from_slice(alloc, bytes)?,
                is_synced: true,
                is_named: file.is_named,
            })?;
        }
        Ok((left, rest))
    }
}

// What is found under a name.
fn last_of(left: &[Option<usize>]) -> Option<usize> {
    match left.last() {
        Some(found) => *found,
        None => None,
    }
}

// What stands under a name by a choice, and the choice of all that comes behind it.
fn name_by(left: &[Option<usize>], choice: u64) -> (Option<usize>, u64) {
    let count = left.len() as u64;
    if count == 0 {
        return (None, choice);
    }
    match left.get((choice % count) as usize) {
        Some(found) => (*found, choice / count),
        None => (None, choice),
    }
}

// What a file holds by a choice, and the choice of all that comes behind it.
fn bytes_by(file: &Inode, choice: u64) -> (&[u8], u64) {
    let bytes = file.bytes.as_slice();
    if file.is_synced {
        return (bytes, choice);
    }
    let size = match choice % 3 {
        0 => 0,
        1 => bytes.len() / 2,
        _ => bytes.len(),
    };
    match bytes.split_at_checked(size) {
        Some((front, _)) => (front, choice / 3),
        None => (bytes, choice / 3),
    }
}
