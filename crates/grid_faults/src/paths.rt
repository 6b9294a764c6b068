//! Paths in what is told.

ghost use Rattle.std.specs.Prelude.{◌≡◌, ◌++◌, IfOk, List, ℕ, map};
ghost use Rattle.std.specs.Str.{encode_utf8_all};
ghost use Rattle.std.specs.String.{string_bytes};
ghost use Rattle.grid_faults.specs.ToldPath.{told_char};

use std::alloc::{AllocError, Global};

/// A path as it is told: in place of each control character stands `?`, so that what tells it stays
/// one line.
pub fn told_path(alloc: Global, path: &str) -> Result<String, AllocError>
    ensures { IfOk result (λ told. (chars : List ℕ) × (encode_utf8_all chars ≡ path.now)
        × (string_bytes told ≡ encode_utf8_all (map told_char chars))) }
{
    let mut told = String::new(alloc);
    for letter in path.chars() {
        told.push(told_char(letter))?;
    }
    Ok(told)
}

fn told_char(letter: char) -> char
    ensures { result ≡ told_char letter }
{
    if letter.is_control() { '?' } else { letter }
}
