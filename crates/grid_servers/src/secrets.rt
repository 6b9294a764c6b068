//! Secrets in files, and the one that a grid keeps.

ghost use Rattle.std.specs.Prelude.{◌≡◌, ◌≤◌, ◌++◌, ◌∷◌, [], codes, length, IfOk, IfSome};
ghost use Rattle.std.specs.String.{string_bytes};
ghost use Rattle.grid_servers.specs.Secrets.{IsTextOf};

use cap_text::to_base32;
use file_encoding::MAX_SECRET_SIZE;
use grid_faults::Fault;
use std::alloc::{AllocError, Global};
use std::io::ErrorKind;
use std::random::RandomSource;
use std::rt::Files;
use std::{fs, io};
use user_files::{NewFile, OWNER_ONLY, at_path, publish, read_at_most};

/// How many random bytes a secret is made of.
const DRAWN_SIZE: usize = 32;

/// The secret in a file: its bytes but for one line feed at the end. `BadParameters` where they are
/// more than 64.
pub fn read_secret_file<R>(rt: &R, path: &str) -> Result<Vec<u8>, Fault>
where
    R: Files + AllocGlobal,
    ensures { IfOk result (λ secret. length secret.items ≤ MAX_SECRET_SIZE) }
{
    let read = read_at_most(rt, path, MAX_SECRET_SIZE as u64 + 1);
    let Some(text) = at_path(rt.alloc(), read, path)? else {
        return Err(Fault::BadParameters);
    };
    let secret = secret_of(text);
    if secret.len() > MAX_SECRET_SIZE {
        return Err(Fault::BadParameters);
    }
    Ok(secret)
}

// The secret that a file's text is: all but one line feed at the end.
fn secret_of(mut text: Vec<u8>) -> Vec<u8>
    ensures { IsTextOf result.items text.items }
{
    if text.last() == Some(&b'\n') {
        text.pop();
    }
    text
}

/// The secret that is kept with a grid; none where it keeps none. A fault of its file where that is
/// no regular file, or cannot be read, and `BadParameters` where it has more than 64 bytes.
pub fn grid_secret<R>(rt: &R, grid: &str) -> Result<Option<Vec<u8>>, Fault>
where
    R: Files + AllocGlobal,
    ensures { IfOk result (λ kept. IfSome kept (λ secret. length secret.items ≤ MAX_SECRET_SIZE)) }
{
    let path = secret_path(rt.alloc(), grid)?;
    if !at_path(rt.alloc(), stands(rt, path.as_str()), path.as_str())? {
        return Ok(None);
    }
    Ok(Some(read_secret_file(rt, path.as_str())?))
}

// Whether a regular file stands at a path. What is none is refused.
fn stands<R: Files>(rt: &R, path: &str) -> io::Result<bool> {
    match fs::metadata(rt, path) {
        Ok(found) if found.is_file() => Ok(true),
        Ok(found) if found.is_dir() => Err(io::Error::from(ErrorKind::IsADirectory)),
        Ok(_) => Err(io::Error::from(ErrorKind::InvalidInput)),
        Err(error) if error.kind() == ErrorKind::NotFound => Ok(false),
        Err(error) => Err(error),
    }
}

/// Keeps a secret with a grid, in a file that its owner alone may read; it is on the disk then.
/// `BadParameters` where it has more than 64 bytes, and a fault of the file where the grid keeps
/// one already.
pub fn keep_secret<R>(rt: &R, grid: &str, secret: &[u8]) -> Result<(), Fault>
where
    R: Files + RandomSource + AllocGlobal,
    ensures { IfOk result (λ _. length secret.now ≤ MAX_SECRET_SIZE) }
{
    if secret.len() > MAX_SECRET_SIZE {
        return Err(Fault::BadParameters);
    }
    let alloc = rt.alloc();
    let (path, text) = (secret_path(alloc, grid)?, secret_text(alloc, secret)?);
    let file = NewFile {
        folder: grid,
        path: path.as_str(),
        text: text.as_slice(),
        mode: OWNER_ONLY,
    };
    at_path(alloc, publish_alone(rt, &file), path.as_str())
}

// Makes a file where nothing has its name.
fn publish_alone<R>(rt: &R, file: &NewFile<'_>) -> io::Result<()>
where
    R: Files + RandomSource + AllocGlobal,
{
    if publish(rt, file)? {
        return Ok(());
    }
    Err(io::Error::from(ErrorKind::AlreadyExists))
}

/// Keeps a new secret with a grid: the base32 text of 32 random bytes of the system. Faults as of
/// `keep_secret`.
pub fn draw_secret<R>(rt: &R, grid: &str) -> Result<(), Fault>
where
    R: Files + RandomSource + AllocGlobal,
{
    let alloc = rt.alloc();
    let mut bytes = [0; DRAWN_SIZE];
    at_path(
        alloc,
        rt.fill_bytes(&mut bytes),
        "the system's random bytes",
    )?;
    let secret = to_base32(alloc, &bytes)?;
    keep_secret(rt, grid, secret.as_bytes())
}

// The text of a secret's file, which ends with a line feed.
fn secret_text(alloc: Global, secret: &[u8]) -> Result<Vec<u8>, AllocError>
    ensures { IfOk result (λ text. text.items ≡ secret.now ++ (10 ∷ [])) }
{
    let mut text = Vec::from_slice(alloc, secret)?;
    text.push(b'\n')?;
    Ok(text)
}

/// The path of the secret that is kept with a grid. No share has such a name.
pub fn secret_path(alloc: Global, grid: &str) -> Result<String, AllocError>
    ensures { IfOk result (λ path. string_bytes path ≡ grid.now ++ codes "/grid-secret") }
{
    format!(in alloc; "{grid}/grid-secret")
}
