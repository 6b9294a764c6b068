//! The liars that scripts name.

ghost use Rattle.std.specs.Prelude.{◌≡◌, IfOk, IfNone, IfSome};
ghost use Rattle.wire.specs.declared.message.Message.{Message};
ghost use Rattle.wire.specs.Frames.{spelling};
ghost use Rattle.world_script.specs.declared.command.Kind.TheVariants.{Junk, Replay};
ghost use Rattle.world_script.specs.Liars.{IsRequestIn, IsSaidBy, junk_answer};

use crate::command::Kind;
use proved_parts::Bytes;
use std::alloc::{AllocError, Global};
use wire::message::{Body, Message, NodeId, ReadData};
use world::liar::{Liar, LiarFault};
use world::{is_request, read_body};
use world_operations::message::{Sent, copied};

// How many bytes junk has, and which each is.
const JUNK_SIZE: usize = 32;

const JUNK_BYTE: u8 = 0xff;

/// A liar that a script names.
#[derive(Drop)]
pub struct ScriptLiar {
    alloc: Global,
    kind: Kind,
}

impl ScriptLiar {
    /// A liar of this kind.
    pub fn new(alloc: Global, kind: Kind) -> ScriptLiar
        ensures { result.kind ≡ kind }
    {
        ScriptLiar { alloc, kind }
    }
}

impl Liar for ScriptLiar {
    fn turn(&mut self, heard: &[Sent]) -> Result<Option<(NodeId, Bytes)>, LiarFault>
        ensures said { IfOk result (IsSaidBy self.old.kind heard.now) }
        ensures same { self.new ≡ self.old }
    {
        let said = match self.kind {
            Kind::Silent => Ok(None),
            Kind::Junk => junk(self.alloc, heard),
            Kind::Replay => replay(self.alloc, heard),
        };
        said.map_err(|_error| LiarFault)
    }
}

// The last frame that came, back to its sender.
fn replay(alloc: Global, heard: &[Sent]) -> Result<Option<(NodeId, Bytes)>, AllocError>
    ensures { IfOk result (IsSaidBy Replay heard.now) }
{
    match heard.last() {
        Some(sent) => Ok(Some((sent.from, copied(alloc, &sent.body)?))),
        None => Ok(None),
    }
}

// Data that nobody stored, for an answer to the last request that came.
fn junk(alloc: Global, heard: &[Sent]) -> Result<Option<(NodeId, Bytes)>, AllocError>
    ensures { IfOk result (IsSaidBy Junk heard.now) }
{
    for later in 0..heard.len() {
        let sent = &heard[heard.len() - 1 - later];
        if let Some(request) = request_of(alloc, sent)? {
            return Ok(Some((sent.from, junk_answer(alloc, &request)?)));
        }
    }
    Ok(None)
}

// The request that was sent, if it is one.
fn request_of(alloc: Global, sent: &Sent) -> Result<Option<Message>, AllocError>
    ensures some { IfOk result (λ read. IfSome read (IsRequestIn sent.now)) }
    ensures none { IfOk result
        (λ read. IfNone read ((m : Message) → IsRequestIn sent.now m → ⊥)) }
{
    match read_body(alloc, sent.body.as_slice())? {
        Some(message) if is_request(&message.body) => Ok(Some(message)),
        _ => Ok(None),
    }
}

// The body of a frame that answers a request with junk.
fn junk_answer(alloc: Global, request: &Message) -> Result<Bytes, AllocError>
    ensures { IfOk result (λ bytes. bytes ≡ spelling (junk_answer request.now)) }
{
    let bytes = vec![in alloc; JUNK_BYTE; JUNK_SIZE]?;
    let answer = Message {
        session: request.session,
        number: request.number,
        body: Body::Data(ReadData::from_vec(bytes).unwrap()),
    };
    Ok(Bytes::from_vec(answer.encode_body(alloc)?))
}
