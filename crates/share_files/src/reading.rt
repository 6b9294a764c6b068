//! Files that are read to their ends side by side, while their bytes are hashed.
//!
//! Each gives a piece in its turn. What was read last of a file waits, and where enough files have
//! a whole piece, eight of these are hashed side by side. What is shorter, as at the end of a file,
//! is hashed alone. So no file has to wait for another, and one that cannot be read on is left.

ghost use Rattle.std.specs.Prelude.{◌≡◌, ◌<◌, ℕ, All, IfOk, IfSome, List, Option, Some, length};
ghost use Rattle.std.specs.Prelude.{slice_get, slice_index};
ghost use Rattle.std.specs.Io.KnownBytes.{IsAtEnd};
ghost use Rattle.tagged_hash.specs.declared.hasher.TaggedHasher.{TaggedHasher};
ghost use Rattle.tagged_hash.specs.TaggedHasher.{input_of};
ghost use Rattle.share_files.specs.Readings.{HasHasherAt, HasTaken, IsReading};

use crate::bytes::Watch;
use crate::seen::SeenWhole;
use std::alloc::{AllocError, Global};
use std::fs::File;
use std::io::{ErrorKind, Read};
use std::rt::Files;
use std::snapshot::Snapshot;
use std::{fs, io};
use tagged_hash::{Tag, TaggedHasher, WORTH_LANES, WaitingHasher, hashed_eight};
use wire::message::Digest;

/// So many files are hashed side by side at most.
pub const MOST_LANES: usize = 8;

// How many bytes are read at once.
const PIECE_SIZE: usize = 65_536;

/// A share's file, by its path, and the digest that its bytes are to have.
#[derive(Drop)]
pub struct SharePath {
    pub path: String,
    pub digest: Digest,
}

/// How far a file was read.
#[derive(Clone, Copy, Debug, PartialEq, Eq)]
enum Stage {
    /// There may be more.
    Going,
    /// To its end.
    Ended,
    /// It cannot be read on.
    Failed,
}

/// A file that is read piece by piece, to see whether its bytes have a digest.
#[derive(Drop)]
struct Reading<F> {
    // where it stands among those that are asked for
    position: usize,
    file: F,
    // the file as it was opened
    first: Snapshot<F>,
    digest: Digest,
    hasher: WaitingHasher,
    // how many bytes the last piece had
    piece: usize,
    stage: Stage,
}

impl<F: Read + Drop> Reading<F> {
    // Of a file of which nothing was read.
    fn new(alloc: Global, position: usize, file: F, digest: &Digest) -> Reading<F>
        ensures { IsReading F.remaining result }
    {
        Reading {
            position,
            first: Snapshot::of(&file),
            file,
            digest: *digest,
            hasher: WaitingHasher::new(alloc, Tag::WholeShare),
            piece: 0,
            stage: Stage::Going,
        }
    }

    // Reads a piece, which waits to be hashed. A read that was interrupted gives an empty one.
    fn read_piece<W: Watch>(&mut self, buffer: &mut [u8], watch: &mut W)
        requires room { 0 < length buffer.old }
        requires going { self.old.stage ≡ Stage.Going }
        ensures read { IsReading F.remaining self.old → IsReading F.remaining self.new }
        ensures room { length buffer.new ≡ length buffer.old }
    {
        self.piece = 0;
        match read_waiting(&mut self.file, &mut self.hasher, buffer) {
            Ok(0) => self.stage = Stage::Ended,
            Ok(count) => {
                self.piece = count;
                watch.on_read(count as u64);
            }
            Err(error) if error.kind() == ErrorKind::Interrupted => {}
            Err(_) => self.stage = Stage::Failed,
        }
    }

    // That its bytes have the digest, where they were read to the end and have it.
    fn seen(self) -> Option<SeenWhole<F>>
        requires { IsReading F.remaining self }
    {
        if self.stage == Stage::Ended && self.hasher.finish() == self.digest {
            Some(SeenWhole::new(self.first, self.digest))
        } else {
            None
        }
    }
}

/// Reads up to eight files side by side, and says of each whether its bytes have its digest, in
/// their order. Nothing is said of one that has another, that is no regular file, or that cannot be
/// read: such a file is to be read by itself, and that does not touch the others. The buffers have
/// 64 KiB for each file, and as much again for all.
///
/// An error where there is no memory.
pub fn see_whole<R, W>(
    rt: &R,
    files: &[SharePath],
    watch: &mut W,
) -> Result<Vec<Option<SeenWhole<R::File>>>, AllocError>
where
    R: Files + AllocGlobal,
    W: Watch,
    ensures { IfOk result (λ seen. length seen.items ≡ length files.now) }
{
    let mut readings = open_all(rt, files)?;
    let mut buffer = vec![in rt.alloc(); 0u8; PIECE_SIZE]?;
    read_all(&mut readings, &mut buffer, watch);
    seen_of(rt.alloc(), readings, files.len())
}

// What was seen of so many files, some of which were read.
fn seen_of<F: Read + Drop>(
    alloc: Global,
    mut readings: Vec<Reading<F>>,
    count: usize,
) -> Result<Vec<Option<SeenWhole<F>>>, AllocError>
    requires { All (IsReading F.remaining) readings.items }
    ensures { IfOk result (λ seen. length seen.items ≡ count) }
{
    let mut seen = Vec::new(alloc);
    for _ in 0..count {
        seen.push(None)?;
    }
    while let Some(reading) = readings.pop() {
        let position = reading.position;
        if let Some(place) = seen.get_mut(position) {
            *place = reading.seen();
        }
    }
    Ok(seen)
}

// Those of these files that are regular and can be opened.
fn open_all<R: Files + AllocGlobal>(
    rt: &R,
    files: &[SharePath],
) -> Result<Vec<Reading<R::File>>, AllocError>
    ensures { IfOk result (λ readings. All (IsReading R.File.remaining) readings.items) }
{
    let mut readings = Vec::new(rt.alloc());
    for position in 0..files.len() {
        add_reading(rt, &mut readings, position, &files[position])?;
    }
    Ok(readings)
}

// Adds a file, if it is regular and can be opened.
fn add_reading<R: Files + AllocGlobal>(
    rt: &R,
    readings: &mut Vec<Reading<R::File>>,
    position: usize,
    share: &SharePath,
) -> Result<(), AllocError>
    ensures { All (IsReading R.File.remaining) readings.old.items
        → All (IsReading R.File.remaining) readings.new.items }
{
    let Ok(file) = open_regular(rt, share.path.as_str()) else {
        return Ok(());
    };
    readings.push(Reading::new(rt.alloc(), position, file, &share.digest))?;
    Ok(())
}

// Opens a regular file. What is none may not be opened: a pipe would wait for its writer.
fn open_regular<R: Files>(rt: &R, path: &str) -> io::Result<R::File> {
    if !fs::symlink_metadata(rt, path)?.is_file() {
        return Err(io::Error::from(ErrorKind::InvalidInput));
    }
    File::open(rt, path)
}

// Reads a piece, which waits to be hashed.
fn read_waiting<F: Read>(
    file: &mut F,
    hasher: &mut WaitingHasher,
    buffer: &mut [u8],
) -> io::Result<usize>
    requires { 0 < length buffer.old }
    ensures read { (all : Option (List ℕ)) → HasTaken all (F.remaining file.old) hasher.old
        → HasTaken all (F.remaining file.new) hasher.new }
    ensures end { IfOk result (λ count. count ≡ 0 → IsAtEnd (F.remaining file.new)) }
    ensures room { length buffer.new ≡ length buffer.old }
{
    let count = file.read(buffer)?;
    hasher.update(&buffer[..count]);
    Ok(count)
}

// Reads files to their ends, as far as they can be read.
fn read_all<F: Read + Drop, W: Watch>(readings: &mut [Reading<F>], buffer: &mut [u8], watch: &mut W)
    requires room { 0 < length buffer.old }
    requires begun { All (IsReading F.remaining) readings.old }
    ensures { All (IsReading F.remaining) readings.new }
{
    for _ in 0..u64::MAX {
        if !read_pieces(readings, buffer, watch) {
            return;
        }
        hash_pieces(readings, buffer.len());
    }
}

// Reads a piece of each file that may have more, and says whether there was one.
fn read_pieces<F: Read + Drop, W: Watch>(
    readings: &mut [Reading<F>],
    buffer: &mut [u8],
    watch: &mut W,
) -> bool
    requires room { 0 < length buffer.old }
    requires begun { All (IsReading F.remaining) readings.old }
    ensures read { All (IsReading F.remaining) readings.new }
    ensures room { length buffer.new ≡ length buffer.old }
{
    let mut is_going = false;
    for place in 0..readings.len() {
        let was_going = read_at(readings, place, buffer, watch);
        is_going = is_going || was_going;
    }
    is_going
}

// Reads a piece of the file at a place, if it may have more.
fn read_at<F: Read + Drop, W: Watch>(
    readings: &mut [Reading<F>],
    place: usize,
    buffer: &mut [u8],
    watch: &mut W,
) -> bool
    requires room { 0 < length buffer.old }
    requires within { place < length readings.old }
    ensures read { All (IsReading F.remaining) readings.old
        → All (IsReading F.remaining) readings.new }
    ensures count { length readings.new ≡ length readings.old }
    ensures room { length buffer.new ≡ length buffer.old }
{
    if readings[place].stage != Stage::Going {
        return false;
    }
    readings[place].read_piece(buffer, watch);
    true
}

// Hashes the last pieces of eight files side by side, where enough have whole ones.
fn hash_pieces<F: Drop>(readings: &mut [Reading<F>], piece_size: usize)
    ensures { readings.new ≡ readings.old }
{
    let Some(places) = whole_pieces(readings, piece_size) else {
        return;
    };
    let [a, b, c, d, e, f, g, h] = hashed_at(readings, &places);
    take_over_at(readings, places[0], a);
    take_over_at(readings, places[1], b);
    take_over_at(readings, places[2], c);
    take_over_at(readings, places[3], d);
    take_over_at(readings, places[4], e);
    take_over_at(readings, places[5], f);
    take_over_at(readings, places[6], g);
    take_over_at(readings, places[7], h);
}

// The places of the first eight files whose last pieces have this size. The first one stands for
// those that are missing.
fn whole_pieces<F>(readings: &[Reading<F>], piece_size: usize) -> Option<[usize; 8]>
    ensures { IfSome result (All (λ place. place < length readings.now)) }
{
    let mut places = [0; 8];
    let mut count = 0;
    for place in 0..readings.len() {
        if readings[place].piece == piece_size && count < MOST_LANES {
            if count == 0 {
                places = [place; 8];
            } else {
                places[count] = place;
            }
            count += 1;
        }
    }
    if count < WORTH_LANES {
        return None;
    }
    Some(places)
}

// What the hashers at eight places come to, once what waits there is hashed.
fn hashed_at<F>(readings: &[Reading<F>], places: &[usize; 8]) -> [TaggedHasher; 8]
    requires { All (λ place. place < length readings.now) places.now }
    ensures { (j : ℕ) (hashed : TaggedHasher) → j < 8 → slice_get result j ≡ Some hashed
        → HasHasherAt (slice_index places.now j) (input_of hashed) readings.now }
{
    hashed_eight(&[
        hasher_at(readings, places[0]),
        hasher_at(readings, places[1]),
        hasher_at(readings, places[2]),
        hasher_at(readings, places[3]),
        hasher_at(readings, places[4]),
        hasher_at(readings, places[5]),
        hasher_at(readings, places[6]),
        hasher_at(readings, places[7]),
    ])
}

// The hasher of the file at a place.
fn hasher_at<F>(readings: &[Reading<F>], place: usize) -> &WaitingHasher
    requires { place < length readings.now }
    ensures { HasHasherAt place result.now readings.now }
{
    &readings[place].hasher
}

// What waited of the file at a place was hashed elsewhere.
fn take_over_at<F>(readings: &mut [Reading<F>], place: usize, hashed: TaggedHasher)
    requires within { place < length readings.old }
    requires own { HasHasherAt place (input_of hashed) readings.old }
    ensures { readings.new ≡ readings.old }
{
    readings[place].hasher.take_over(hashed);
}
