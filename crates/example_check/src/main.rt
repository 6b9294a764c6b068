//! Shares are checked without the key: who keeps them can tell that they are whole, and cannot read
//! them.
#![tactic(auto)]

use cap_text::{Cap, VerifyCap};
use file_encoding::{EncodeError, Encoded, Params, encode_all, verify_share};
use std::alloc::Global;
use std::io;

// A file of more than 55 bytes: a shorter one stands whole in its cap, and has no shares.
const FILE: &str = "Nobody keeps one file. Nobody trusts one server either.\n";

fn main(rt: HostRuntime) -> io::Result<()> {
    match encoded(rt.alloc()) {
        Ok(encoded) => tell(&rt, &encoded),
        Err(error) => println!(rt; "not encoded: {error:?}"),
    }
}

// The shares of the file, of which three are enough, and its cap.
fn encoded(alloc: Global) -> Result<Encoded, EncodeError> {
    let params = Params::new(3, 7, 10, 131_072)?;
    encode_all(alloc, FILE.as_bytes(), &[], &params)
}

// Checks each share, of which one is changed in its last byte; and one under another's number.
fn tell<R: Print + AllocGlobal>(rt: &R, encoded: &Encoded) -> io::Result<()> {
    let Cap::Chk(cap) = &encoded.cap else {
        return rt.println("the file stands in its cap");
    };
    // All that one who checks has to be told: it has the storage index in the place of the key.
    let cap = cap.to_verify();
    println!(rt; "{cap}")?;
    for (number, share) in (0u16..10).zip(encoded.shares.as_slice()) {
        let mut bytes = Vec::from_slice(rt.alloc(), share.as_slice())?;
        if number == 4 {
            change_last(&mut bytes);
        }
        tell_checked(rt, &cap, number, &bytes)?;
        if number == 7 {
            rt.print("the same as share 8: ")?;
            tell_checked(rt, &cap, 8, &bytes)?;
        }
    }
    Ok(())
}

// Another byte in the place of the last one.
fn change_last(bytes: &mut [u8]) {
    if let Some(last) = bytes.last_mut() {
        *last = !*last;
    }
}

// Writes what a check of a share finds.
fn tell_checked<R>(rt: &R, cap: &VerifyCap, number: u16, share: &[u8]) -> io::Result<()>
where
    R: Print,
{
    match verify_share(cap, number, share) {
        Ok(()) => println!(rt; "share {number}: good"),
        Err(fault) => println!(rt; "share {number}: {fault:?}"),
    }
}
