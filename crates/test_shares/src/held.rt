//! The shares that servers hold, and what they answer.

use std::alloc::Global;
use wire::message::{Body, HeldList, HeldShare, Message, NodeId, ReadData};

/// A share at a server.
#[derive(Drop)]
pub struct Held {
    /// The server.
    pub server: NodeId,
    /// The number under which it offers the share.
    pub share: u8,
    /// The share's bytes, whatever they are.
    pub bytes: Vec<u8>,
    /// Whether it says that it has none where it is asked for a part.
    pub gone: bool,
}

/// What a server that holds these shares answers to a download. A server's shares stand by rising
/// number.
pub fn answer(alloc: Global, held: &[Held], node: NodeId, request: &Message) -> Option<Message> {
    Some(Message {
        session: request.session,
        number: request.number,
        body: body_of(alloc, held, node, &request.body)?,
    })
}

fn body_of(alloc: Global, held: &[Held], node: NodeId, request: &Body) -> Option<Body> {
    match request {
        Body::Ask(_) => have(alloc, held, node),
        Body::Read(id, offset, length) => match held_by(held, node, id.share) {
            Some(held) => read(alloc, held, *offset, length.get()),
            None => None,
        },
        _ => None,
    }
}

// What a server says that is asked for a part of a share which it offers.
fn read(alloc: Global, held: &Held, offset: u64, length: u32) -> Option<Body> {
    if held.gone {
        return Some(Body::NoShare);
    }
    data(alloc, held.bytes.as_slice(), offset, length)
}

// The shares that a server offers.
fn have(alloc: Global, held: &[Held], node: NodeId) -> Option<Body> {
    let mut list = Vec::new(alloc);
    for one in held {
        if one.server == node {
            list.push(HeldShare {
                share: one.share,
                digest: [0; 32],
            })
            .ok()?;
        }
    }
    Some(Body::Have(false, HeldList::from_vec(list)?))
}

// A share that a server offers.
fn held_by(held: &[Held], node: NodeId, share: u8) -> Option<&Held> {
    for one in held {
        if one.server == node && one.share == share {
            return Some(one);
        }
    }
    None
}

// So many bytes of a share from an offset on, or fewer where it ends before.
fn data(alloc: Global, bytes: &[u8], offset: u64, length: u32) -> Option<Body> {
    let from = offset.min(bytes.len() as u64) as usize;
    let end = from.saturating_add(length as usize).min(bytes.len());
    let read = Vec::from_slice(alloc, &bytes[from..end]).ok()?;
    Some(Body::Data(ReadData::from_vec(read)?))
}
