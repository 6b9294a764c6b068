//! Acts on files and folders.

use crate::folders::{names_in, path_in, path_of, tell_entry};
use crate::names::{first, number, two};
use std::alloc::{AllocError, Global};
use std::rt::Files;
use std::{fs, io};

/// `counted FILE SIZE`.
pub(crate) fn make_counted<R: Files + AllocGlobal>(rt: &R, words: &[&str]) -> io::Result<()> {
    let (file, size) = two(words)?;
    let bytes = counted(rt.alloc(), number(size)?)?;
    fs::write(rt, file, bytes.as_slice())
}

// The bytes i modulo 251.
fn counted(alloc: Global, size: usize) -> Result<Vec<u8>, AllocError> {
    let mut bytes = Vec::new(alloc);
    for i in 0..size {
        bytes.push((i % 251) as u8)?;
    }
    Ok(bytes)
}

/// `zeros FILE SIZE`.
pub(crate) fn make_zeros<R: Files + AllocGlobal>(rt: &R, words: &[&str]) -> io::Result<()> {
    let (file, size) = two(words)?;
    let bytes: Vec<u8> = vec![in rt.alloc(); 0u8; number(size)?]?;
    fs::write(rt, file, bytes.as_slice())
}

/// `write FILE TEXT`.
pub(crate) fn write_text<R: Files + AllocGlobal + Clone + Drop>(
    rt: &R,
    words: &[&str],
) -> io::Result<()> {
    let (file, text) = two(words)?;
    fs::write(rt, path_of(rt, file)?.as_str(), text)
}

/// `lines FILE LINE..`.
pub(crate) fn write_lines<R: Files + AllocGlobal>(rt: &R, words: &[&str]) -> io::Result<()> {
    let (file, lines) = first(words)?;
    fs::write(rt, file, joined(rt.alloc(), lines)?.as_str())
}

// Lines, with a line end between each two.
fn joined(alloc: Global, lines: &[&str]) -> Result<String, AllocError> {
    let mut text = String::new(alloc);
    for (position, line) in lines.iter().enumerate() {
        text.push_str(if position == 0 { "" } else { "\n" })?;
        text.push_str(line)?;
    }
    Ok(text)
}

/// `folder FOLDER..`.
pub(crate) fn make_folders<R: Files>(rt: &R, folders: &[&str]) -> io::Result<()> {
    for folder in folders {
        fs::create_dir_all(rt, *folder)?;
    }
    Ok(())
}

/// `readonly FOLDER..`.
pub(crate) fn make_readonly<R: Files + AllocGlobal>(rt: &R, folders: &[&str]) -> io::Result<()> {
    for folder in folders {
        fs::create_dir_all(rt, *folder)?;
        fs::write(rt, path_in(rt, folder, "readonly")?.as_str(), "")?;
    }
    Ok(())
}

/// `remove PATH..`.
pub(crate) fn remove_each<R: Files + AllocGlobal + Clone + Drop>(
    rt: &R,
    paths: &[&str],
) -> io::Result<()> {
    for path in paths {
        remove(rt, path_of(rt, path)?.as_str())?;
    }
    Ok(())
}

// Removes a file, or a folder with all that it holds.
fn remove<R: Files + AllocGlobal>(rt: &R, path: &str) -> io::Result<()> {
    if fs::symlink_metadata(rt, path)?.is_dir() {
        fs::remove_dir_all(rt, path)
    } else {
        fs::remove_file(rt, path)
    }
}

/// `keep FOLDER NAME..`.
pub(crate) fn keep<R: Files + AllocGlobal + Clone + Drop>(
    rt: &R,
    words: &[&str],
) -> io::Result<()> {
    let (folder, kept) = first(words)?;
    for name in names_in(rt, folder)?.iter() {
        if !kept.contains(&name.as_str()) {
            remove(rt, path_in(rt, folder, name.as_str())?.as_str())?;
        }
    }
    Ok(())
}

// The paths that two words name.
fn two_paths<R: Files + AllocGlobal + Clone + Drop>(
    rt: &R,
    words: &[&str],
) -> io::Result<(String, String)> {
    let (from, to) = two(words)?;
    let from = path_of(rt, from)?;
    let to = path_of(rt, to)?;
    Ok((from, to))
}

/// `rename FROM TO`.
pub(crate) fn rename<R: Files + AllocGlobal + Clone + Drop>(
    rt: &R,
    words: &[&str],
) -> io::Result<()> {
    let (from, to) = two_paths(rt, words)?;
    fs::rename(rt, from.as_str(), to.as_str())
}

/// `copy FROM TO`.
pub(crate) fn copy<R: Files + AllocGlobal + Clone + Drop>(
    rt: &R,
    words: &[&str],
) -> io::Result<()> {
    let (from, to) = two_paths(rt, words)?;
    fs::copy(rt, from.as_str(), to.as_str())?;
    Ok(())
}

/// `link FROM TO`.
pub(crate) fn link<R: Files>(rt: &R, words: &[&str]) -> io::Result<()> {
    let (from, to) = two(words)?;
    rt.symlink(from, to)
}

/// `compare FILE FILE`.
pub(crate) fn compare<R: Files + AllocGlobal + Clone + Drop>(
    rt: &R,
    words: &[&str],
    told: &mut String,
) -> io::Result<()> {
    let (one, other) = two_paths(rt, words)?;
    let is_same = are_same(rt, one.as_str(), other.as_str())?;
    Ok(told.push_str(likeness(is_same))?)
}

fn are_same<R: Files + AllocGlobal>(rt: &R, one: &str, other: &str) -> io::Result<bool> {
    let one = fs::read(rt, one)?;
    let other = fs::read(rt, other)?;
    Ok(one.as_slice() == other.as_slice())
}

/// The line that tells whether two things are the same.
pub(crate) fn likeness(is_same: bool) -> &'static str {
    if is_same { "same\n" } else { "different\n" }
}

/// `list FOLDER`.
pub(crate) fn list<R: Files + AllocGlobal + Clone + Drop>(
    rt: &R,
    words: &[&str],
    told: &mut String,
) -> io::Result<()> {
    let (folder, _) = first(words)?;
    for name in names_in(rt, folder)?.iter() {
        tell_entry(rt, folder, name.as_str(), told)?;
    }
    Ok(())
}

/// `count FOLDER`.
pub(crate) fn count<R: Files + AllocGlobal + Clone + Drop>(
    rt: &R,
    words: &[&str],
    told: &mut String,
) -> io::Result<()> {
    let (folder, _) = first(words)?;
    for name in names_in(rt, folder)?.iter() {
        tell_count(rt, folder, name.as_str(), told)?;
    }
    Ok(())
}

// Tells how many names a folder in a folder has.
fn tell_count<R: Files + AllocGlobal + Clone + Drop>(
    rt: &R,
    folder: &str,
    name: &str,
    told: &mut String,
) -> io::Result<()> {
    let within = path_in(rt, folder, name)?;
    let found = names_in(rt, within.as_str())?.len();
    Ok(write!(told, "{name} {found}\n")?)
}
