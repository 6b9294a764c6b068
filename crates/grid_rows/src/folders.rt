//! What stands in folders.

use std::rt::Files;
use std::{fs, io};

/// The names in a folder, in order.
pub(crate) fn names_in<R: Files + AllocGlobal + Clone + Drop>(
    rt: &R,
    folder: &str,
) -> io::Result<Vec<String>> {
    let mut names = Vec::new(rt.alloc());
    for entry in fs::read_dir(rt, folder)? {
        names.push(String::from_str(rt.alloc(), entry?.file_name())?)?;
    }
    names.sort()?;
    Ok(names)
}

/// The path of a name in a folder.
pub(crate) fn path_in<R: AllocGlobal>(rt: &R, folder: &str, name: &str) -> io::Result<String> {
    Ok(format!(in rt.alloc(); "{folder}/{name}")?)
}

/// The path that a text names: where its last part is `*`, that of the only name in a folder.
pub(crate) fn path_of<R: Files + AllocGlobal + Clone + Drop>(
    rt: &R,
    text: &str,
) -> io::Result<String> {
    match text.strip_suffix("/*") {
        Some(folder) => only_path(rt, folder),
        None => Ok(String::from_str(rt.alloc(), text)?),
    }
}

// The path of the only name in a folder.
fn only_path<R: Files + AllocGlobal + Clone + Drop>(rt: &R, folder: &str) -> io::Result<String> {
    let names = names_in(rt, folder)?;
    match names.as_slice() {
        [name] => path_in(rt, folder, name.as_str()),
        _ => Err(io::Error::from(io::ErrorKind::NotFound)),
    }
}

/// How a name in a folder is told: with its size, or as a folder or a link.
pub(crate) fn tell_entry<R: Files + AllocGlobal>(
    rt: &R,
    folder: &str,
    name: &str,
    told: &mut String,
) -> io::Result<()> {
    let found = fs::symlink_metadata(rt, path_in(rt, folder, name)?.as_str())?;
    if found.is_file() {
        Ok(write!(told, "{name} {}\n", found.len())?)
    } else if found.is_dir() {
        Ok(write!(told, "{name} folder\n")?)
    } else {
        Ok(write!(told, "{name} link\n")?)
    }
}
