//! The messages of a stream that comes in pieces.

ghost use Rattle.std.specs.Prelude.{◌≡◌, ◌≤◌, ◌++◌, Err, None, Some, [], drop, length, IfOk, IfErr};
ghost use Rattle.std.specs.Prelude.{IsOk, OnOk, OnErr, IfSome, IfNone, IsErrOf};
ghost use Rattle.wire.specs.Frames.{IsMessage, frame};
ghost use Rattle.wire.specs.Stream.{IsFirst, IsPartial, BeginsBadLength, BeginsBadKind};
ghost use Rattle.wire.specs.Stream.{BeginsBadFields, fed, fault_of};
ghost use Rattle.wire.specs.declared.error.WireError.{WireError};

use crate::decoding::decode;
use crate::error::WireError;
use crate::message::Message;
use byteorder::{BigEndian, ByteOrder};
use bytes::BytesMut;
use std::alloc::{AllocError, Global};
use std::marker::Model;

/// The most bytes that the body of a frame has.
pub const MAX_BODY: u32 = 65_536;

/// The body of the first frame, where all of it is there.
fn first_body(rest: &[u8]) -> Result<Option<&[u8]>, WireError>
    ensures whole { IfOk result (λ o. IfSome o (λ body. IsFirst body.now rest.now)) }
    ensures partial { IfOk result (λ o. IfNone o (IsPartial rest.now)) }
    ensures fault { OnErr result (BeginsBadLength rest.now) }
    ensures only { OnErr result (IsErrOf result WireError.BadLength) }
{
    if rest.len() < 4 {
        return Ok(None);
    }
    let length = BigEndian::read_u32(rest);
    if length == 0 || MAX_BODY < length {
        return Err(WireError::BadLength);
    }
    let body = &rest[4..];
    let length = length as usize;
    if body.len() < length {
        return Ok(None);
    }
    Ok(Some(&body[..length]))
}

/// The message whose frame comes first and is whole, and how many bytes that frame has.
fn first_message(alloc: Global, rest: &[u8]) -> Result<Option<(Message, usize)>, WireError>
    ensures given { IfOk result (λ o. IfSome o
        (λ x. IsMessage x.0 × (x.1 ≤ length rest.now)
        × (rest.now ≡ frame x.0 ++ drop x.1 rest.now))) }
    ensures none { IfOk result (λ o. IfNone o (IsPartial rest.now)) }
    ensures bad_length { IsErrOf result WireError.BadLength → BeginsBadLength rest.now }
    ensures bad_kind { IsErrOf result WireError.BadKind → BeginsBadKind rest.now }
    ensures bad_fields { IsErrOf result WireError.BadFields → BeginsBadFields rest.now }
{
    let Some(body) = first_body(rest)? else {
        return Ok(None);
    };
    let message = decode(alloc, body)?;
    Ok(Some((message, 4 + body.len())))
}

/// The fault that a stream keeps after a refusal: that memory ran out is none.
fn fault_of(refusal: WireError) -> Option<WireError>
    ensures { result ≡ fault_of refusal }
{
    match refusal {
        WireError::OutOfMemory => None,
        fault => Some(fault),
    }
}

/// Takes the pieces of a stream, and gives the messages whose frames are whole. It holds the bytes
/// that follow the messages given, which are moved only where room is wanted and never read twice:
/// less than a frame and one piece, where all messages are taken before the next piece is fed.
#[derive(Drop)]
pub struct Feed {
    held: BytesMut,
    /// The fault that was told of the stream.
    fault: Option<WireError>,
}

impl Model for Feed {
    ghost use Rattle.wire.specs.Stream.{FeedState, HasFault};

    ghost Value = { FeedState };

    ghost view = { λ f. record { rest = f.held.items; fault = f.fault } };

    ghost invariant = { λ f. HasFault f.fault f.held.items };
}

impl Feed {
    /// A stream of which nothing has come.
    pub fn new(alloc: Global) -> Feed
        ensures { result ≡ record { rest = []; fault = None } }
    {
        Feed {
            held: BytesMut::new(alloc),
            fault: None,
        }
    }

    /// The fault that was told of the stream, if any.
    pub fn fault(&self) -> Option<WireError>
        ensures { result ≡ self.now.fault }
    {
        self.fault
    }

    /// Adds the next piece of the stream. After a fault the pieces are not kept, and take no
    /// memory.
    pub fn feed(&mut self, piece: &[u8]) -> Result<(), AllocError>
        ensures ok { OnOk result (self.new ≡ fed piece.now self.old) }
        ensures err { OnErr result (self.new ≡ self.old) }
        ensures past { (fault : WireError) → self.old.fault ≡ Some fault → IsOk result }
    {
        if self.fault.is_some() {
            return Ok(());
        }
        self.held.extend_from_slice(piece)
    }

    /// The next message, or `None` until its frame is whole. A fault that was told is told for
    /// good, without memory.
    pub fn next(&mut self) -> Result<Option<Message>, WireError>
        // What was told is told again.
        ensures told { (fault : WireError) → self.old.fault ≡ Some fault
            → (result ≡ Err fault) × (self.new ≡ self.old) }

        // The frame of a message that is given stood at the front, and is taken.
        ensures given { IfOk result (λ o. IfSome o
            (λ m. IsMessage m × (self.old.rest ≡ frame m ++ self.new.rest)
            × (self.new.fault ≡ None))) }

        // With none, no whole frame and no fault stand there.
        ensures none { IfOk result
            (λ o. IfNone o (IsPartial self.old.rest × (self.new ≡ self.old))) }

        // A fault stands at the front, and stays there.
        ensures bad_length { IsErrOf result WireError.BadLength → BeginsBadLength self.old.rest }
        ensures bad_kind { IsErrOf result WireError.BadKind → BeginsBadKind self.old.rest }
        ensures bad_fields { IsErrOf result WireError.BadFields → BeginsBadFields self.old.rest }

        // The fault is kept. That memory ran out changes nothing.
        ensures err { IfErr result
            (λ e. self.new ≡ record { rest = self.old.rest; fault = fault_of e }) }
    {
        if let Some(fault) = self.fault {
            return Err(fault);
        }
        match first_message(*self.held.allocator(), self.held.as_slice()) {
            Ok(None) => Ok(None),
            Ok(Some((message, length))) => {
                self.held.advance(length);
                Ok(Some(message))
            }
            Err(refusal) => {
                self.fault = fault_of(refusal);
                Err(refusal)
            }
        }
    }
}
