//! Names of files in strings of JSON.

ghost use Rattle.std.specs.Prelude.{◌≡◌, ◌++◌, ◌∷◌, [], ◌<◌, IfOk, OnOk};
ghost use Rattle.grid_surveys.specs.Looks.{IsJsonName, hex_digit, hex_digits, json_byte, json_name};

use std::alloc::{AllocError, Global};

/// A name as it stands in a string of JSON: quotes, backslashes and control characters are escaped.
/// Of a name that is no UTF-8 each byte from 128 on is a lone surrogate, `\udc80` to `\udcff`, as
/// Python has it in names of files.
pub(crate) fn json_name(alloc: Global, name: &[u8]) -> Result<Vec<u8>, AllocError>
    ensures { IfOk result (λ text. IsJsonName name.now text.items) }
{
    match str::from_utf8(name) {
        Ok(_) => written(alloc, name, false),
        Err(_) => written(alloc, name, true),
    }
}

// What is written for a name, whose bytes from 128 on are odd or not.
fn written(alloc: Global, name: &[u8], odd: bool) -> Result<Vec<u8>, AllocError>
    ensures { IfOk result (λ text. text.items ≡ json_name odd name.now) }
{
    let mut text = Vec::new(alloc);
    for byte in name {
        push_byte(&mut text, *byte, odd)?;
    }
    Ok(text)
}

// Writes a byte of a name.
fn push_byte(out: &mut Vec<u8>, byte: u8, odd: bool) -> Result<(), AllocError>
    ensures { OnOk result (out.new.items ≡ out.old.items ++ json_byte odd byte) }
{
    match byte {
        b'"' | b'\\' => out.extend_from_slice(&[b'\\', byte]),
        0..32 => push_digits(out, b"\\u00", byte),
        128..=255 if odd => push_digits(out, b"\\udc", byte),
        _ => Ok(out.push(byte)?),
    }
}

// Writes a text and a byte in base 16.
fn push_digits(out: &mut Vec<u8>, text: &[u8], byte: u8) -> Result<(), AllocError>
    ensures { OnOk result (out.new.items ≡ out.old.items ++ (text.now ++ hex_digits byte)) }
{
    out.extend_from_slice(text)?;
    out.extend_from_slice(&[hex_digit(byte / 16), hex_digit(byte % 16)])
}

// A digit of a number in base 16.
fn hex_digit(number: u8) -> u8
    requires { number < 16 }
    ensures { result ≡ hex_digit number }
{
    if number < 10 {
        b'0' + number
    } else {
        b'a' - 10 + number
    }
}
