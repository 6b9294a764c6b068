//! Closed shares that are read before their turn, so that eight are hashed side by side: the next
//! ones of a folder, and after these the first ones of the folders that come next.

ghost use Rattle.std.specs.Prelude.{◌≡◌, ◌<◌, length};

use crate::folder::Scrub;
use share_files::{MOST_LANES, SeenWhole, ShareFile, SharePath, Watch, see_whole};
use share_store::error::StoreError;
use std::alloc::Global;
use std::io;
use std::io::Read;
use std::random::RandomSource;
use std::rt::Files;
use tagged_hash::WORTH_LANES;
use wire::message::Digest;

// A closed share's file that was read before its turn, and whether it was seen whole.
#[derive(Drop)]
struct Early<F: Read> {
    file: ShareFile,
    seen: Option<SeenWhole<F>>,
}

/// The files of a folder that were read before their turn, which still comes.
#[derive(Drop)]
pub(crate) struct Ahead<F: Read> {
    files: Vec<Early<F>>,
}

impl<F: Read + Drop> Ahead<F> {
    // None was read.
    pub(crate) fn new(alloc: Global) -> Ahead<F> {
        Ahead {
            files: Vec::new(alloc),
        }
    }

    // Was this file read?
    pub(crate) fn has(&self, file: &ShareFile) -> bool {
        self.files.iter().any(|early| early.file == *file)
    }

    // What was seen of a file whose turn has come.
    pub(crate) fn take(&mut self, file: &ShareFile) -> Option<SeenWhole<F>> {
        for place in 0..self.files.len() {
            if self.files[place].file == *file {
                return self.files.swap_remove(place).seen;
            }
        }
        None
    }

    // A file was read. Where there is no memory to note it, it is read again in its turn.
    pub(crate) fn note(&mut self, file: ShareFile, seen: Option<SeenWhole<F>>) {
        let _ = self.files.push(Early { file, seen });
    }
}

/// Files that are to be read, of the folder whose turn it is, which has the number 0, and of those
/// that come next, from 1 on.
#[derive(Drop)]
pub(crate) struct Unread {
    files: Vec<(usize, ShareFile)>,
    paths: Vec<SharePath>,
}

impl Unread {
    // Are these as many as are read side by side?
    pub(crate) fn is_full(&self) -> bool {
        self.files.len() >= MOST_LANES
    }

    // Adds a file of a folder.
    pub(crate) fn add(
        &mut self,
        folder: usize,
        file: &ShareFile,
        path: String,
        digest: &Digest,
    ) -> Result<(), StoreError> {
        let digest = *digest;
        self.files.push((folder, *file))?;
        self.paths.push(SharePath { path, digest })?;
        Ok(())
    }
}

/// Reads the next closed shares of a folder whose turn it is, and of those that come next, up to
/// eight, where the next file is such a share and enough are there to be hashed side by side. What
/// is seen is told in their turn. Nothing is said of a file that is damaged or cannot be read: it
/// is read again by itself, when its turn comes. Where there is no memory nothing is read.
pub fn read_ahead<R, W>(scrub: &mut Scrub<R>, others: &mut [io::Result<Scrub<R>>], watch: &mut W)
where
    R: Files + RandomSource + AllocGlobal + Clone + Drop,
    W: Watch,
    ensures own { scrub.new ≡ scrub.old }
    ensures others { others.new ≡ others.old }
{
    if !scrub.is_next_unread() {
        return;
    }
    let Ok(unread) = unread_of(scrub, others) else {
        return;
    };
    if unread.paths.len() < WORTH_LANES {
        return;
    }
    if let Ok(seen) = see_whole(scrub.rt(), &unread.paths, watch) {
        note_all(scrub, others, unread.files, seen);
    }
}

// The closed shares that come next and were not read yet.
fn unread_of<R>(scrub: &Scrub<R>, others: &[io::Result<Scrub<R>>]) -> Result<Unread, StoreError>
where
    R: Files + RandomSource + AllocGlobal + Clone + Drop,
{
    let alloc = scrub.rt().alloc();
    let mut unread = Unread {
        files: Vec::new(alloc),
        paths: Vec::new(alloc),
    };
    scrub.find_unread(0, &mut unread)?;
    for place in 0..others.len() {
        if let Ok(other) = &others[place] {
            other.find_unread(place + 1, &mut unread)?;
        }
    }
    Ok(unread)
}

// Takes note of what was seen of the files of some folders.
fn note_all<R>(
    scrub: &mut Scrub<R>,
    others: &mut [io::Result<Scrub<R>>],
    mut files: Vec<(usize, ShareFile)>,
    mut seen: Vec<Option<SeenWhole<R::File>>>,
)
where
    R: Files + RandomSource + AllocGlobal + Clone + Drop,
    ensures own { scrub.new ≡ scrub.old }
    ensures others { others.new ≡ others.old }
{
    while let (Some((folder, file)), Some(of_file)) = (files.pop(), seen.pop()) {
        if folder == 0 {
            scrub.note(file, of_file);
        } else if folder <= others.len() {
            note_at(&mut others[folder - 1], file, of_file);
        }
    }
}

// Takes note of what was seen of a file of a folder.
fn note_at<R>(scrub: &mut io::Result<Scrub<R>>, file: ShareFile, seen: Option<SeenWhole<R::File>>)
where
    R: Files + RandomSource + AllocGlobal + Clone + Drop,
    ensures { scrub.new ≡ scrub.old }
{
    if let Ok(scrub) = scrub {
        scrub.note(file, seen);
    }
}
