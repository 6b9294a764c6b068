//! The liars of these worlds.

use crate::steps::{Case, Change, File, Kept, Liars, Offer, Room, Table, share_of};
use proved_parts::Bytes;
use std::alloc::Global;
use test_shares::held::{Held, answer};
use test_shares::no_code_word::NoCodeWord;
use wire::decoding::decode;
use wire::message::{Body, Message, NodeId};
use world::liar::{Liar, LiarFault};
use world_operations::message::{Sent, copied};

// The liars of a world.
pub(crate) fn liars_of(alloc: Global, case: &Case) -> Option<Vec<Box<dyn Liar>>> {
    match case.liars {
        Liars::None => Some(Vec::new(alloc)),
        Liars::Counter(to) => make_counter(alloc, to),
        Liars::Keepers(kept) => keepers(alloc, case.honest, &kept),
        Liars::Tellers(tables) => tellers(alloc, case.honest, tables),
    }
}

// Says one byte at its turns: the number of the messages that it heard.
#[derive(Drop)]
struct Counter {
    alloc: Global,
    to: Option<NodeId>,
}

impl Liar for Counter {
    fn turn(&mut self, heard: &[Sent]) -> Result<Option<(NodeId, Bytes)>, LiarFault> {
        let count = heard.len().min(255) as u8;
        match (self.to, vec![in self.alloc; count; 1]) {
            (Some(node), Ok(body)) => Ok(Some((node, Bytes::from_vec(body)))),
            _ => Err(LiarFault),
        }
    }
}

fn make_counter(alloc: Global, to: Option<NodeId>) -> Option<Vec<Box<dyn Liar>>> {
    let mut liars: Vec<Box<dyn Liar>> = Vec::new(alloc);
    let counter = Counter { alloc, to };
    liars.push(Box::new(alloc, counter).ok()?).ok()?;
    Some(liars)
}

// A liar that holds a share, and answers the downloads of some nodes alone: those that it is one of
// two servers of.
#[derive(Drop)]
struct Keeper {
    alloc: Global,
    held: Vec<Held>,
    share: u8,
    pairs: Vec<(u8, u8)>,
    // How many of the messages that it heard it went through.
    seen: usize,
}

impl Keeper {
    fn answer_to(&self, sent: &Sent) -> Option<(NodeId, Bytes)> {
        let (one, other) = self.pairs.get(usize::from(sent.from)).copied()?;
        if one != self.share && other != self.share {
            return None;
        }
        let body = answer_of(self.alloc, self.held.as_slice(), sent)?;
        Some((sent.from, body))
    }
}

// The frame of what a server of these shares answers.
fn answer_of(alloc: Global, held: &[Held], sent: &Sent) -> Option<Bytes> {
    let request = decode(alloc, sent.body.as_slice()).ok()?;
    let body = answer(alloc, held, sent.to, &request)?.encode_body(alloc);
    Some(Bytes::from_vec(body.ok()?))
}

impl Liar for Keeper {
    fn turn(&mut self, heard: &[Sent]) -> Result<Option<(NodeId, Bytes)>, LiarFault> {
        for position in self.seen..heard.len() {
            self.seen = position + 1;
            if let Some(said) = self.answer_to(&heard[position]) {
                return Ok(Some(said));
            }
        }
        Ok(None)
    }
}

// The keepers of the four shares, at the nodes from this one on.
fn keepers(alloc: Global, first: NodeId, kept: &Kept) -> Option<Vec<Box<dyn Liar>>> {
    let file = NoCodeWord::new(alloc, kept.told)?;
    let mut liars: Vec<Box<dyn Liar>> = Vec::new(alloc);
    for share in 0..4u8 {
        let node = first.saturating_add(u16::from(share));
        push(
            alloc,
            &mut liars,
            keeper_of(alloc, &file, node, share, kept)?,
        )?;
    }
    Some(liars)
}

fn keeper_of(
    alloc: Global,
    file: &NoCodeWord,
    node: NodeId,
    share: u8,
    kept: &Kept,
) -> Option<Keeper> {
    Some(Keeper {
        alloc,
        held: file.held(alloc, &[(node, share)])?,
        share,
        pairs: Vec::from_slice(alloc, kept.pairs).ok()?,
        seen: 0,
    })
}

fn push(alloc: Global, liars: &mut Vec<Box<dyn Liar>>, keeper: Keeper) -> Option<()> {
    liars.push(Box::new(alloc, keeper).ok()?).ok()
}

// A liar that answers by a table.
#[derive(Drop)]
struct Teller {
    alloc: Global,
    held: Vec<Held>,
    room: Room,
    until: u64,
    // How many of the messages that it heard it went through.
    seen: usize,
    // What it answered, to who sent it, and what it said.
    past: Vec<Sent>,
    // Which of these it says next once more.
    next: usize,
}

impl Liar for Teller {
    fn turn(&mut self, heard: &[Sent]) -> Result<Option<(NodeId, Bytes)>, LiarFault> {
        for position in self.seen..heard.len() {
            self.seen = position + 1;
            if let Some(said) = self.answer_to(&heard[position]) {
                return Ok(Some(said));
            }
        }
        Ok(self.say_again())
    }
}

impl Teller {
    fn answer_to(&mut self, sent: &Sent) -> Option<(NodeId, Bytes)> {
        let request = decode(self.alloc, sent.body.as_slice()).ok()?;
        if self.until <= request.session {
            self.next = 0;
            return None;
        }
        let said = self.answer(sent, &request)?;
        self.note(sent, &said)?;
        Some((sent.from, said))
    }

    // The frame of its answer.
    fn answer(&self, sent: &Sent, request: &Message) -> Option<Bytes> {
        let answer = match room_for(self.room, &request.body) {
            Some(body) => Message {
                session: request.session,
                number: request.number,
                body,
            },
            None => answer(self.alloc, self.held.as_slice(), sent.to, request)?,
        };
        Some(Bytes::from_vec(answer.encode_body(self.alloc).ok()?))
    }

    fn note(&mut self, sent: &Sent, said: &Bytes) -> Option<()> {
        for body in [&sent.body, said] {
            let again = Sent {
                from: sent.to,
                to: sent.from,
                body: copied(self.alloc, body).ok()?,
            };
            self.past.push(again).ok()?;
        }
        Some(())
    }

    fn say_again(&mut self) -> Option<(NodeId, Bytes)> {
        let again = self.past.get(self.next)?;
        let said = (again.to, copied(self.alloc, &again.body).ok()?);
        self.next = self.next.saturating_add(1);
        Some(said)
    }
}

// What is said where a share is to be kept.
fn room_for(room: Room, request: &Body) -> Option<Body> {
    match (room, request) {
        (Room::None, Body::Allocate(_, _)) => Some(Body::Full),
        (Room::Granted, Body::Allocate(_, _)) => Some(Body::Granted),
        (Room::Granted, Body::Write(_, offset, data)) => {
            let length = data.as_slice().len() as u64;
            Some(Body::Wrote(offset.saturating_add(length)))
        }
        (Room::Closed, Body::Allocate(_, _)) | (Room::Granted, Body::Close(_)) => {
            Some(Body::Closed([7; 32]))
        }
        _ => None,
    }
}

// Those that answer by these tables, at the nodes from this one on.
fn tellers(alloc: Global, first: NodeId, tables: &[Table]) -> Option<Vec<Box<dyn Liar>>> {
    let mut liars: Vec<Box<dyn Liar>> = Vec::new(alloc);
    let mut node = first;
    for table in tables {
        let teller = teller_of(alloc, node, table)?;
        liars.push(Box::new(alloc, teller).ok()?).ok()?;
        node = node.saturating_add(1);
    }
    Some(liars)
}

fn teller_of(alloc: Global, node: NodeId, table: &Table) -> Option<Teller> {
    let mut held = Vec::new(alloc);
    for offer in table.shares {
        held.push(held_of(alloc, node, offer)?).ok()?;
    }
    Some(Teller {
        alloc,
        held,
        room: table.room,
        until: table.until,
        seen: 0,
        past: Vec::new(alloc),
        next: usize::MAX,
    })
}

fn held_of(alloc: Global, server: NodeId, offer: &Offer) -> Option<Held> {
    let (share, file, own, change) = *offer;
    Some(Held {
        server,
        share,
        bytes: bytes_of(alloc, &file, own, &change)?,
        gone: matches!(change, Change::Gone),
    })
}

// The share of a number of a file, changed.
fn bytes_of(alloc: Global, file: &File, share: u8, change: &Change) -> Option<Vec<u8>> {
    let mut bytes = share_of(alloc, file, share)?;
    match change {
        Change::Set(position, text) => put(bytes.as_mut_slice(), *position, text),
        Change::Swapped(other, from, to) => {
            let other = share_of(alloc, file, *other)?;
            if let Some(part) = other.get(*from..*to) {
                put(bytes.as_mut_slice(), *from, part);
            }
        }
        Change::None | Change::Gone => {}
    }
    Some(bytes)
}

// These bytes stand from this position on, as far as they fit there.
fn put(bytes: &mut [u8], position: usize, text: &[u8]) {
    for (i, new) in text.iter().enumerate() {
        if let Some(byte) = bytes.get_mut(position.saturating_add(i)) {
            *byte = *new;
        }
    }
}
