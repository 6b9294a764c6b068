//! The shares of a file at servers, some of which are wrong.

use crate::cases::{Fault, Placed, Shape, Source, Wrong};
use cap_text::{Cap, ReadCap};
use file_encoding::{Encoded, Params, encode_all};
use std::alloc::Global;
use test_shares::held::Held;
use test_shares::no_code_word::NoCodeWord;
use wire::message::NodeId;

// A file's cap, its bytes, and its shares at servers. Where its bytes are not known there are none.
#[derive(Drop)]
pub(crate) struct Grid {
    pub(crate) cap: ReadCap,
    pub(crate) file: Vec<u8>,
    pub(crate) held: Vec<Held>,
}

// The grid of these shares.
pub(crate) fn grid_of(alloc: Global, source: &Source) -> Option<Grid> {
    match source {
        Source::Shares(shape, placed) => encoded_at(alloc, shape, placed),
        Source::NoCodeWord(told, shares) => no_code_word(alloc, *told, *shares),
    }
}

// These two shares of the file that is no code word, at two servers.
fn no_code_word(alloc: Global, told: u8, shares: (u8, u8)) -> Option<Grid> {
    let file = NoCodeWord::new(alloc, told)?;
    Some(Grid {
        cap: file.cap,
        file: Vec::new(alloc),
        held: file.held(alloc, &[(0, shares.0), (1, shares.1)])?,
    })
}

fn encoded_at(alloc: Global, shape: &Shape, placed: &[Placed]) -> Option<Grid> {
    let file = text_of(alloc, shape)?;
    let params = Params::new(shape.needed, 1, shape.total, shape.segment).ok()?;
    let encoded = encode_all(alloc, &file, &[], &params).ok()?;
    Grid::of(alloc, file, &encoded, shape, placed)
}

// Bytes that differ by their position and by the file's mark.
fn text_of(alloc: Global, shape: &Shape) -> Option<Vec<u8>> {
    let mut bytes = vec![in alloc; shape.mark; shape.size].ok()?;
    for (i, byte) in bytes.iter_mut().enumerate() {
        *byte ^= (i % 251) as u8;
    }
    Some(bytes)
}

// Where the share of this position is, if there is one: each stands once, unless some are named.
fn placed_at(shape: &Shape, placed: &[Placed], position: u8) -> Option<Placed> {
    if !placed.is_empty() {
        return placed.get(usize::from(position)).copied();
    }
    if u64::from(position) < shape.total {
        let server = usize::from(position) % shape.servers.clamp(1, 1000);
        Some((server as NodeId, position, position))
    } else {
        None
    }
}

fn held_at(alloc: Global, encoded: &Encoded, placed: Placed) -> Option<Held> {
    let (server, share, text) = placed;
    let text = encoded.shares.get(usize::from(text))?;
    Some(Held {
        server,
        share,
        bytes: Vec::from_slice(alloc, text.as_slice()).ok()?,
        gone: false,
    })
}

fn all_held(
    alloc: Global,
    encoded: &Encoded,
    shape: &Shape,
    placed: &[Placed],
) -> Option<Vec<Held>> {
    let mut held = Vec::new(alloc);
    for position in 0..=u8::MAX {
        if let Some(placed) = placed_at(shape, placed, position) {
            held.push(held_at(alloc, encoded, placed)?).ok()?;
        }
    }
    Some(held)
}

impl Grid {
    fn of(
        alloc: Global,
        file: Vec<u8>,
        encoded: &Encoded,
        shape: &Shape,
        placed: &[Placed],
    ) -> Option<Grid> {
        match encoded.cap {
            Cap::Chk(cap) => Some(Grid {
                cap,
                file,
                held: all_held(alloc, encoded, shape, placed)?,
            }),
            _ => None,
        }
    }

    // Makes it wrong, if there is such a share and such a position.
    pub(crate) fn spoil(&mut self, alloc: Global, wrong: &Wrong) {
        if let Wrong::Share(position, fault) = wrong {
            if let Some(held) = self.held.get_mut(*position) {
                spoil(alloc, held, fault);
            }
        }
    }
}

fn spoil(alloc: Global, held: &mut Held, fault: &Fault) {
    match fault {
        Fault::Flipped(position) => flip(held.bytes.as_mut_slice(), *position),
        Fault::Full(position) => fill(held.bytes.as_mut_slice(), *position),
        Fault::Cut(position) => held.bytes.truncate(*position),
        Fault::Gone => held.gone = true,
        Fault::Other(shape) => {
            if let Some(other) = last_of(alloc, shape) {
                held.bytes = other;
            }
        }
    }
}

fn flip(bytes: &mut [u8], position: usize) {
    if position < bytes.len() {
        bytes[position] ^= 1;
    }
}

fn fill(bytes: &mut [u8], position: usize) {
    for i in position..position.saturating_add(4).min(bytes.len()) {
        bytes[i] = 255;
    }
}

// The last share of another file.
fn last_of(alloc: Global, shape: &Shape) -> Option<Vec<u8>> {
    Some(encoded_at(alloc, shape, &[])?.held.pop()?.bytes)
}
