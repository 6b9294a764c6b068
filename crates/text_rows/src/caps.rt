//! Rows of caps and their letters.

use crate::bytes::{bytes_of, first_word, number, numbers_in, tell_bytes, tell_refusal};
use cap_text::{Cap, LitCap, ReadCap, VerifyCap, from_base32, to_base32};
use std::alloc::{AllocError, Global};
use std::io;

/// `base32 BYTES`.
pub(crate) fn write_base32(alloc: Global, text: &str, told: &mut String) -> io::Result<()> {
    let bytes = bytes_of(alloc, text)?;
    Ok(match to_base32(alloc, bytes.as_slice()) {
        Ok(letters) => write!(told, "{letters}\n")?,
        Err(error) => tell_refusal(told, error.number(), &error)?,
    })
}

/// `bytes COUNT TEXT`.
pub(crate) fn read_base32(alloc: Global, text: &str, told: &mut String) -> io::Result<()> {
    let (count, letters) = first_word(text);
    let letters = bytes_of(alloc, letters)?;
    let mut bytes = vec![in alloc; 0u8; number(count)?]?;
    Ok(if from_base32(letters.as_slice(), &mut bytes) {
        tell_bytes(alloc, told, "bytes", bytes.as_slice())?
    } else {
        told.push_str("not spelled so\n")?
    })
}

/// `cap TEXT`.
pub(crate) fn read_cap(alloc: Global, text: &str, told: &mut String) -> io::Result<()> {
    let text = bytes_of(alloc, text)?;
    Ok(match Cap::parse(text.as_slice()) {
        Ok(cap) => tell_cap(alloc, told, &cap)?,
        Err(fault) => tell_refusal(told, fault.number(), &fault)?,
    })
}

fn tell_cap(alloc: Global, told: &mut String, cap: &Cap) -> Result<(), AllocError> {
    match cap {
        Cap::Chk(read) => tell_read(alloc, told, read),
        Cap::Verify(verify) => tell_verify(alloc, told, verify),
        Cap::Lit(literal) => tell_literal_cap(alloc, told, literal),
    }
}

// Tells a read cap, and its verify cap.
fn tell_read(alloc: Global, told: &mut String, cap: &ReadCap) -> Result<(), AllocError> {
    let (needed, total, size) = (cap.needed(), cap.total(), cap.size());
    write!(
        told,
        "a read cap, {needed} of {total}, {size} bytes\n{cap}\n"
    )?;
    tell_verify(alloc, told, &cap.to_verify())
}

fn tell_verify(alloc: Global, told: &mut String, cap: &VerifyCap) -> Result<(), AllocError> {
    let (needed, total, size) = (cap.needed(), cap.total(), cap.size());
    write!(
        told,
        "a verify cap, {needed} of {total}, {size} bytes\n{cap}\n"
    )?;
    match to_base32(alloc, cap.storage_index()) {
        Ok(index) => write!(told, "storage index {index}\n"),
        Err(error) => tell_refusal(told, error.number(), &error),
    }
}

fn tell_literal_cap(alloc: Global, told: &mut String, cap: &LitCap) -> Result<(), AllocError> {
    tell_bytes(alloc, told, "a literal cap of", cap.data())?;
    write!(told, "{cap}\n")
}

/// `literal BYTES`.
pub(crate) fn tell_literal(alloc: Global, text: &str, told: &mut String) -> io::Result<()> {
    let file = bytes_of(alloc, text)?;
    Ok(match LitCap::new(file.as_slice()) {
        Ok(cap) => tell_literal_cap(alloc, told, &cap)?,
        Err(error) => tell_refusal(told, error.number(), &error)?,
    })
}

/// `limits NEEDED TOTAL SIZE`.
pub(crate) fn tell_limits(alloc: Global, text: &str, told: &mut String) -> io::Result<()> {
    let (numbers, _) = numbers_in(text)?;
    let made = ReadCap::new(
        [7; 16],
        [9; 32],
        numbers.needed,
        numbers.total,
        numbers.size,
    );
    Ok(match made {
        Ok(cap) => tell_parts(alloc, told, &cap)?,
        Err(error) => tell_refusal(told, error.number(), &error)?,
    })
}

// Tells the key and the hash of a read cap.
fn tell_parts(alloc: Global, told: &mut String, cap: &ReadCap) -> Result<(), AllocError> {
    tell_bytes(alloc, told, "key", cap.key())?;
    tell_bytes(alloc, told, "hash", cap.ueb_hash())
}
