//! Writing a message as a frame.

ghost use Rattle.std.specs.Prelude.{◌≡◌, ◌^◌, ◌<◌, ◌≤◌, ◌++◌, length, IfOk, OnOk};
ghost use Rattle.std.specs.List.{flat_map};
ghost use Rattle.wire.specs.Limits.{most_body};
ghost use Rattle.wire.specs.Frames.{share_id, held_share, fields, spelling, frame, IsShareId};
ghost use Rattle.wire.specs.Frames.{IsBody, IsMessage, IsBodyOf};

use crate::kind::Kind;
use crate::message::{Body, HeldShare, Message, ShareId};
use bytes::BufMut;
use std::alloc::{AllocError, Global};
use std::mem::size_of_val;

/// How many bytes a number has: eight, whatever it is.
fn number_length(n: u64) -> usize
    ensures value { result ≡ 8 }
    ensures fits { n < 2 ^ 64 }
{
    size_of_val(&n)
}

/// How many bytes an array has: as many as its type says.
fn array_length<const N: usize>(bytes: &[u8; N]) -> usize
    ensures value { result ≡ N }
    ensures length { length bytes.now ≡ N }
{
    bytes.len()
}

fn share_id_length(id: &ShareId) -> usize
    ensures value { result ≡ 18 }
    ensures length { length (share_id id.now) ≡ 18 }
    ensures right { IsShareId id.now }
{
    id.index.len() + 2
}

/// How many bytes the fields of a body have.
fn fields_length(body: &Body) -> usize
    ensures value { result ≡ length (fields body.now) }
    ensures bound { result ≤ 40000 }
    ensures right { IsBody body.now }
{
    match body {
        Body::Ask(index) => array_length(index),
        Body::Have(_, held) => 3 + 34 * held.as_slice().len(),
        Body::Allocate(id, length) => share_id_length(id) + number_length(length.get()),
        Body::Granted | Body::Busy | Body::Full | Body::NoShare => 0,
        Body::Already(digest) | Body::Closed(digest) => array_length(digest),
        Body::Write(id, offset, data) => {
            share_id_length(id) + number_length(*offset) + data.as_slice().len()
        }
        Body::Wrote(n) | Body::WrongOffset(n) | Body::NotComplete(n) => number_length(*n),
        Body::Close(id) | Body::Abort(id) => share_id_length(id),
        Body::Read(id, offset, length) => {
            share_id_length(id) + number_length(*offset) + size_of_val(&length.get())
        }
        Body::Data(data) => data.as_slice().len(),
    }
}

fn put_share_id(out: &mut Vec<u8>, id: &ShareId) -> Result<(), AllocError>
    ensures { OnOk result (out.new.items ≡ out.old.items ++ share_id id.now) }
{
    out.put_slice(&id.index)?;
    out.put_u16(u16::from(id.share))
}

fn put_held(out: &mut Vec<u8>, held: &[HeldShare]) -> Result<(), AllocError>
    ensures { OnOk result (out.new.items ≡ out.old.items ++ flat_map held_share held.now) }
{
    for h in held {
        out.put_u16(u16::from(h.share))?;
        out.put_slice(&h.digest)?;
    }
    Ok(())
}

fn put_fields(out: &mut Vec<u8>, body: &Body) -> Result<(), AllocError>
    ensures { OnOk result (out.new.items ≡ out.old.items ++ fields body.now) }
{
    match body {
        Body::Ask(index) => out.put_slice(index),
        Body::Have(readonly, held) => {
            let held = held.as_slice();
            out.put_u8(u8::from(*readonly))?;
            out.put_u16(held.len() as u16)?;
            put_held(out, held)
        }
        Body::Allocate(id, length) => {
            put_share_id(out, id)?;
            out.put_u64(length.get())
        }
        Body::Granted | Body::Busy | Body::Full | Body::NoShare => Ok(()),
        Body::Already(digest) | Body::Closed(digest) => out.put_slice(digest),
        Body::Write(id, offset, data) => {
            put_share_id(out, id)?;
            out.put_u64(*offset)?;
            out.put_slice(data.as_slice())
        }
        Body::Wrote(n) | Body::WrongOffset(n) | Body::NotComplete(n) => out.put_u64(*n),
        Body::Close(id) | Body::Abort(id) => put_share_id(out, id),
        Body::Read(id, offset, length) => {
            put_share_id(out, id)?;
            out.put_u64(*offset)?;
            out.put_u32(length.get())
        }
        Body::Data(data) => out.put_slice(data.as_slice()),
    }
}

/// How many bytes the body of a message's frame has.
fn body_length(message: &Message) -> usize
    ensures value { result ≡ length (spelling message.now) }
    ensures bound { result ≤ most_body }
    ensures right { IsMessage message.now }
{
    let head = 1 + number_length(message.session) + number_length(message.number);
    head + fields_length(&message.body)
}

/// The body of a message's frame: the kind, the session, the number and the fields.
fn put_body(out: &mut Vec<u8>, message: &Message) -> Result<(), AllocError>
    ensures { OnOk result (out.new.items ≡ out.old.items ++ spelling message.now) }
{
    out.put_u8(Kind::of(&message.body).number())?;
    out.put_u64(message.session)?;
    out.put_u64(message.number)?;
    put_fields(out, &message.body)
}

impl Message {
    /// The message's frame: the length of the body in four bytes, and the body.
    pub fn encode(&self, alloc: Global) -> Result<Vec<u8>, AllocError>
        ensures right { IsMessage self.now }
        ensures frame { IfOk result (λ v. v.items ≡ frame self.now) }
    {
        let length = body_length(self);
        let mut out = Vec::with_capacity(alloc, 4 + length)?;
        out.put_u32(length as u32)?;
        put_body(&mut out, self)?;
        Ok(out)
    }

    /// Writes the message's frame to a buffer, in place of what the buffer had: its room is used
    /// again.
    pub fn encode_to(&self, out: &mut Vec<u8>) -> Result<(), AllocError>
        ensures right { IsMessage self.now }
        ensures frame { OnOk result (out.new.items ≡ frame self.now) }
    {
        out.clear();
        out.put_u32(body_length(self) as u32)?;
        put_body(out, self)
    }

    /// The body of the message's frame, without its length.
    pub fn encode_body(&self, alloc: Global) -> Result<Vec<u8>, AllocError>
        ensures right { IsMessage self.now }
        ensures body { IfOk result (λ v. IsBodyOf self.now v.items) }
    {
        let mut out = Vec::with_capacity(alloc, body_length(self))?;
        put_body(&mut out, self)?;
        Ok(out)
    }
}
