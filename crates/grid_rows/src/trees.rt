//! A grid's folder with the folders of its servers, copied and compared.

use crate::acts::likeness;
use crate::folders::{names_in, path_in};
use crate::names::two;
use std::rt::Files;
use std::{fs, io};

/// `save FOLDER COPY`.
pub(crate) fn save<R: Files + AllocGlobal + Clone + Drop>(
    rt: &R,
    words: &[&str],
) -> io::Result<()> {
    let (folder, copy) = two(words)?;
    for name in names_in(rt, folder)?.iter() {
        let from = path_in(rt, folder, name.as_str())?;
        let to = path_in(rt, copy, name.as_str())?;
        copy_files(rt, from.as_str(), to.as_str())?;
    }
    Ok(())
}

// Makes a folder, and copies the files of another into it.
fn copy_files<R: Files + AllocGlobal + Clone + Drop>(
    rt: &R,
    from: &str,
    to: &str,
) -> io::Result<()> {
    fs::create_dir_all(rt, to)?;
    for name in names_in(rt, from)?.iter() {
        let one = path_in(rt, from, name.as_str())?;
        let other = path_in(rt, to, name.as_str())?;
        fs::copy(rt, one.as_str(), other.as_str())?;
    }
    Ok(())
}

/// `alike FOLDER FOLDER`.
pub(crate) fn alike<R: Files + AllocGlobal + Clone + Drop>(
    rt: &R,
    words: &[&str],
    told: &mut String,
) -> io::Result<()> {
    let (one, other) = two(words)?;
    let mut are_alike = have_same_names(rt, one, other)?;
    for name in names_in(rt, one)?.iter() {
        let left = path_in(rt, one, name.as_str())?;
        let right = path_in(rt, other, name.as_str())?;
        are_alike = are_alike && have_same_files(rt, left.as_str(), right.as_str())?;
    }
    Ok(told.push_str(likeness(are_alike))?)
}

// Whether two folders have files of the same names and bytes.
fn have_same_files<R: Files + AllocGlobal + Clone + Drop>(
    rt: &R,
    one: &str,
    other: &str,
) -> io::Result<bool> {
    let mut are_same = have_same_names(rt, one, other)?;
    for name in names_in(rt, one)?.iter() {
        are_same = are_same && is_same_file(rt, one, other, name.as_str())?;
    }
    Ok(are_same)
}

fn have_same_names<R: Files + AllocGlobal + Clone + Drop>(
    rt: &R,
    one: &str,
    other: &str,
) -> io::Result<bool> {
    let (left, right) = (names_in(rt, one)?, names_in(rt, other)?);
    Ok(left.as_slice() == right.as_slice())
}

fn is_same_file<R: Files + AllocGlobal>(
    rt: &R,
    one: &str,
    other: &str,
    name: &str,
) -> io::Result<bool> {
    let left = fs::read(rt, path_in(rt, one, name)?.as_str())?;
    let right = fs::read(rt, path_in(rt, other, name)?.as_str())?;
    Ok(left.as_slice() == right.as_slice())
}
