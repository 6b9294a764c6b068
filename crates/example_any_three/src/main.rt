//! A file becomes ten shares in memory, and any three of them give it back with its cap.
#![tactic(auto)]

use cap_text::Cap;
use file_encoding::{EncodeError, Encoded, Params, Share, encode_all, read_from};
use std::alloc::{AllocError, Global};
use std::io;

// A file of more than 55 bytes: a shorter one stands whole in its cap, and has no shares.
const FILE: &str = "Nobody keeps one file. Nobody trusts one server either.\n";

fn main(rt: HostRuntime) -> io::Result<()> {
    match encoded(rt.alloc()) {
        Ok(encoded) => tell(&rt, &encoded),
        Err(error) => println!(rt; "not encoded: {error:?}"),
    }
}

// The shares of the file, of which three are enough, and its cap.
fn encoded(alloc: Global) -> Result<Encoded, EncodeError> {
    let params = Params::new(3, 7, 10, 131_072)?;
    encode_all(alloc, FILE.as_bytes(), &[], &params)
}

// Writes the cap, and what some of the shares give back.
fn tell<R: Print + AllocGlobal>(rt: &R, encoded: &Encoded) -> io::Result<()> {
    println!(rt; "{}", encoded.cap)?;
    let shares = encoded.shares.as_slice();
    tell_read(rt, &encoded.cap, shares, &[9, 0, 4])?;
    tell_read(rt, &encoded.cap, shares, &[2, 5, 6])?;
    tell_read(rt, &encoded.cap, shares, &[7, 8])
}

// Writes what the shares of these numbers give back.
fn tell_read<R>(rt: &R, cap: &Cap, shares: &[Share], numbers: &[u16]) -> io::Result<()>
where
    R: Print + AllocGlobal,
{
    let chosen = choose(rt.alloc(), shares, numbers)?;
    let Cap::Chk(cap) = cap else {
        return rt.println("the file stands in its cap");
    };
    match read_from(rt.alloc(), cap, chosen.as_slice()) {
        Ok(file) => println!(rt;
            "{} bytes, as they were: {}",
            file.len(),
            is_the_file(&file)
        ),
        Err(error) => println!(rt; "not read: {error:?}"),
    }
}

fn is_the_file(bytes: &[u8]) -> bool {
    bytes == FILE.as_bytes()
}

// The shares of these numbers, each with its number.
fn choose<'a>(
    alloc: Global,
    shares: &'a [Share],
    numbers: &[u16],
) -> Result<Vec<(u16, &'a [u8])>, AllocError> {
    let mut chosen = Vec::new(alloc);
    for number in numbers {
        if let Some(share) = shares.get(usize::from(*number)) {
            chosen.push((*number, share.as_slice()))?;
        }
    }
    Ok(chosen)
}
