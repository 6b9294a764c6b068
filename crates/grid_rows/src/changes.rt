//! Changes of a file's bytes.

use crate::folders::path_of;
use crate::names::{first, no_such_row, number, two};
use std::alloc::AllocError;
use std::rt::Files;
use std::{fs, io};

/// `append FILE TEXT`.
pub(crate) fn append<R: Files + AllocGlobal + Clone + Drop>(
    rt: &R,
    words: &[&str],
) -> io::Result<()> {
    let (file, text) = two(words)?;
    let (path, mut bytes) = opened(rt, file)?;
    bytes.extend_from_slice(text.as_bytes())?;
    fs::write(rt, path.as_str(), bytes.as_slice())
}

/// `flip FILE OFFSET`.
pub(crate) fn flip<R: Files + AllocGlobal + Clone + Drop>(
    rt: &R,
    words: &[&str],
) -> io::Result<()> {
    let (file, offset) = two(words)?;
    let offset = number(offset)?;
    let (path, mut bytes) = opened(rt, file)?;
    match bytes.get_mut(offset) {
        Some(byte) => *byte ^= 1,
        None => return Err(no_such_row()),
    }
    fs::write(rt, path.as_str(), bytes.as_slice())
}

/// `cut FILE SIZE`.
pub(crate) fn cut<R: Files + AllocGlobal + Clone + Drop>(rt: &R, words: &[&str]) -> io::Result<()> {
    let (file, size) = two(words)?;
    let size = number(size)?;
    let (path, mut bytes) = opened(rt, file)?;
    bytes.truncate(size);
    fs::write(rt, path.as_str(), bytes.as_slice())
}

/// `splice FILE FROM TO HEX`.
pub(crate) fn splice<R: Files + AllocGlobal + Clone + Drop>(
    rt: &R,
    words: &[&str],
) -> io::Result<()> {
    let (file, rest) = first(words)?;
    let (path, bytes) = opened(rt, file)?;
    let spliced = spliced(rt, bytes.as_slice(), rest)?;
    fs::write(rt, path.as_str(), spliced.as_slice())
}

// The path and the bytes of a file.
fn opened<R: Files + AllocGlobal + Clone + Drop>(
    rt: &R,
    file: &str,
) -> io::Result<(String, Vec<u8>)> {
    let path = path_of(rt, file)?;
    let bytes = fs::read(rt, path.as_str())?;
    Ok((path, bytes))
}

// Bytes, with others in the place of those from one offset to another.
fn spliced<R: AllocGlobal>(rt: &R, bytes: &[u8], words: &[&str]) -> io::Result<Vec<u8>> {
    let (from, rest) = first(words)?;
    let (to, text) = two(rest)?;
    let Ok(between) = hex::decode(rt.alloc(), text) else {
        return Err(no_such_row());
    };
    let (Ok(from), Ok(to)) = (from.parse::<usize>(), to.parse::<usize>()) else {
        return Err(no_such_row());
    };
    let (Some(before), Some(behind)) = (bytes.get(..from), bytes.get(to..)) else {
        return Err(no_such_row());
    };
    let mut joined = Vec::new(rt.alloc());
    join(&mut joined, [before, between.as_slice(), behind])?;
    Ok(joined)
}

fn join(joined: &mut Vec<u8>, parts: [&[u8]; 3]) -> Result<(), AllocError> {
    for part in parts {
        joined.extend_from_slice(part)?;
    }
    Ok(())
}
