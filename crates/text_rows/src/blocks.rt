//! Rows of extension blocks.

use crate::bytes::{
    Numbers, bytes_of, first_word, no_such_row, numbers_in, tell_again, tell_bytes, tell_refusal,
};
use std::alloc::{AllocError, Global};
use std::io;
use ueb::{Expect, MAX_FILE_SIZE, MAX_SHARES, MIN_FILE_SIZE, Ueb};

/// The block of the last row `block`, as that row spells it.
#[derive(Drop)]
pub(crate) struct Block {
    numbers: Numbers,
    text: String,
}

impl Block {
    /// No row came yet.
    pub(crate) fn none(alloc: Global) -> Block {
        Block {
            numbers: Numbers {
                needed: 0,
                total: 0,
                size: 0,
            },
            text: String::new(alloc),
        }
    }

    /// `block NEEDED TOTAL SIZE BYTES`.
    pub(crate) fn read(&mut self, alloc: Global, text: &str, told: &mut String) -> io::Result<()> {
        let (numbers, text) = numbers_in(text)?;
        self.numbers = numbers;
        self.text = String::from_str(alloc, text)?;
        tell_block(alloc, told, numbers, text)
    }

    /// `change OLD [NEW]`.
    pub(crate) fn read_changed(
        &self,
        alloc: Global,
        text: &str,
        told: &mut String,
    ) -> io::Result<()> {
        let (old, new) = first_word(text);
        let Some((before, after)) = self.text.as_str().split_once(old) else {
            return Err(no_such_row());
        };
        let changed = format!(in alloc; "{before}{new}{after}")?;
        tell_block(alloc, told, self.numbers, changed.as_str())
    }

    /// `as NEEDED TOTAL SIZE`.
    pub(crate) fn read_as(&self, alloc: Global, text: &str, told: &mut String) -> io::Result<()> {
        let (numbers, _) = numbers_in(text)?;
        tell_block(alloc, told, numbers, self.text.as_str())
    }
}

// What a cap with these numbers says of a file's extension block; none, where no cap has them.
fn expect(numbers: Numbers) -> Option<Expect> {
    let Numbers {
        needed,
        total,
        size,
    } = numbers;
    let sizes = MIN_FILE_SIZE..=MAX_FILE_SIZE;
    if needed == 0 || needed > total || total > MAX_SHARES || !sizes.contains(&size) {
        return None;
    }
    Some(Expect {
        needed,
        total,
        size,
    })
}

// Tells what the block is that a text spells, of a file with these numbers.
fn tell_block(alloc: Global, told: &mut String, numbers: Numbers, text: &str) -> io::Result<()> {
    let bytes = bytes_of(alloc, text)?;
    let Some(expect) = expect(numbers) else {
        return Err(no_such_row());
    };
    Ok(match Ueb::read(bytes.as_slice(), &expect) {
        Ok(ueb) => tell_fields(alloc, told, &ueb, bytes.as_slice())?,
        Err(fault) => tell_refusal(told, fault.number(), &fault)?,
    })
}

// Tells the fields of a block, and whether it is written as these bytes.
fn tell_fields(
    alloc: Global,
    told: &mut String,
    ueb: &Ueb,
    bytes: &[u8],
) -> Result<(), AllocError> {
    tell_numbers(told, ueb)?;
    for (name, hash) in [
        ("crypttext_hash", ueb.crypttext_hash()),
        ("crypttext_root_hash", ueb.crypttext_root_hash()),
        ("share_root_hash", ueb.share_root_hash()),
    ] {
        tell_bytes(alloc, told, name, hash)?;
    }
    match ueb.write(alloc) {
        Ok(written) => tell_again(told, written.as_slice() == bytes),
        Err(fault) => tell_refusal(told, fault.number(), &fault),
    }
}

fn tell_numbers(told: &mut String, ueb: &Ueb) -> Result<(), AllocError> {
    let (needed, total, size) = (ueb.needed_shares(), ueb.total_shares(), ueb.size());
    let (segments, segment) = (ueb.num_segments(), ueb.segment_size());
    write!(
        told,
        "{needed} of {total}, {size} bytes in {segments} segments of {segment}\n"
    )
}
