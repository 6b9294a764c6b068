//! Rows of frames.

use crate::bytes::{add_hex, tell_again, tell_bytes, tell_refusal};
use std::alloc::{AllocError, Global};
use std::io;
use wire::feed::Feed;
use wire::kind::Kind;
use wire::message::{Body, HeldList, HeldShare, Message, ShareId, WriteData};

/// `frame HEX..`.
pub(crate) fn read_frame(alloc: Global, words: &str, told: &mut String) -> io::Result<()> {
    let mut bytes = Vec::new(alloc);
    add_hex(alloc, &mut bytes, words)?;
    let mut feed = Feed::new(alloc);
    if is_refused(alloc, told, &mut feed, bytes.as_slice())? {
        is_refused(alloc, told, &mut feed, b"more")?;
    }
    Ok(())
}

// Feeds a piece, and tells what then stands at the front. Whether that is a fault.
fn is_refused(
    alloc: Global,
    told: &mut String,
    feed: &mut Feed,
    piece: &[u8],
) -> Result<bool, AllocError> {
    feed.feed(piece)?;
    match feed.next() {
        Ok(None) => told.push_str("not whole yet\n")?,
        Ok(Some(message)) => tell_message(alloc, told, &message, piece)?,
        Err(fault) => tell_refusal(told, fault.number(), &fault)?,
    }
    Ok(feed.fault().is_some())
}

// Tells a message, and whether its frame is these bytes.
fn tell_message(
    alloc: Global,
    told: &mut String,
    message: &Message,
    frame: &[u8],
) -> Result<(), AllocError> {
    let kind = Kind::of(&message.body).number();
    let (session, number) = (message.session, message.number);
    write!(told, "kind {kind}, session {session}, number {number}\n")?;
    tell_body(alloc, told, &message.body)?;
    tell_again(told, is_frame(alloc, message, frame)?)
}

// Whether a message has this frame, and the body of it.
fn is_frame(alloc: Global, message: &Message, frame: &[u8]) -> Result<bool, AllocError> {
    let written = message.encode(alloc)?;
    let body = message.encode_body(alloc)?;
    Ok(written.as_slice() == frame && frame.get(4..) == Some(body.as_slice()))
}

fn tell_body(alloc: Global, told: &mut String, body: &Body) -> Result<(), AllocError> {
    match body {
        Body::Ask(index) => tell_bytes(alloc, told, "Ask", index),
        Body::Have(readonly, held) => tell_held(alloc, told, *readonly, held),
        Body::Allocate(id, length) => {
            write!(told, "Allocate {} bytes\n", length.get())?;
            tell_share(alloc, told, id)
        }
        Body::Granted => told.push_str("Granted\n"),
        Body::Already(digest) => tell_bytes(alloc, told, "Already", digest),
        Body::Busy => told.push_str("Busy\n"),
        Body::Full => told.push_str("Full\n"),
        Body::Write(id, offset, data) => tell_write(alloc, told, id, *offset, data),
        Body::Wrote(next) => write!(told, "Wrote, next at {next}\n"),
        Body::WrongOffset(written) => write!(told, "WrongOffset, {written} written\n"),
        Body::Close(id) => {
            told.push_str("Close\n")?;
            tell_share(alloc, told, id)
        }
        Body::Closed(digest) => tell_bytes(alloc, told, "Closed", digest),
        Body::NotComplete(written) => write!(told, "NotComplete, {written} written\n"),
        Body::Abort(id) => {
            told.push_str("Abort\n")?;
            tell_share(alloc, told, id)
        }
        Body::Read(id, offset, length) => {
            write!(told, "Read {} bytes at {offset}\n", length.get())?;
            tell_share(alloc, told, id)
        }
        Body::Data(data) => tell_bytes(alloc, told, "Data", data.as_slice()),
        Body::NoShare => told.push_str("NoShare\n"),
    }
}

fn tell_share(alloc: Global, told: &mut String, id: &ShareId) -> Result<(), AllocError> {
    write!(told, "share {}\n", id.share)?;
    tell_bytes(alloc, told, "index", &id.index)
}

fn tell_held(
    alloc: Global,
    told: &mut String,
    readonly: bool,
    held: &HeldList,
) -> Result<(), AllocError> {
    write!(told, "Have, takes no further shares: {readonly}\n")?;
    for share in held.as_slice() {
        tell_held_share(alloc, told, share)?;
    }
    Ok(())
}

fn tell_held_share(alloc: Global, told: &mut String, held: &HeldShare) -> Result<(), AllocError> {
    write!(told, "share {}\n", held.share)?;
    tell_bytes(alloc, told, "digest", &held.digest)
}

fn tell_write(
    alloc: Global,
    told: &mut String,
    id: &ShareId,
    offset: u64,
    data: &WriteData,
) -> Result<(), AllocError> {
    write!(told, "Write at {offset}\n")?;
    tell_bytes(alloc, told, "bytes", data.as_slice())?;
    tell_share(alloc, told, id)
}
