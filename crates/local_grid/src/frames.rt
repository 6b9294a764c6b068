//! What the bytes that came say.

ghost use Rattle.std.specs.Prelude.{◌≡◌, ◌≢◌, ◌≤◌, ℕ, List, IfNone, IfOk, IfSome, length};
ghost use Rattle.local_grid.specs.Framed.{framed};
ghost use Rattle.wire.specs.Frames.{IsMessage, frame};
ghost use Rattle.wire.specs.Limits.{most_body};
ghost use Rattle.wire.specs.declared.message.Message.{Message};

use std::alloc::{AllocError, Global};
use wire::decoding::decode;
use wire::error::WireError;
use wire::message::Message;

/// The message whose frame these bytes are. `None` where they are a part of a frame, more than one,
/// or none.
pub fn message_of(alloc: Global, bytes: &[u8]) -> Result<Option<Message>, AllocError>
    ensures some { IfOk result (λ o. IfSome o (λ m. IsMessage m × (bytes.now ≡ frame m))) }
    ensures none { IfOk result (λ o. IfNone o ((m : Message) → IsMessage m
        → bytes.now ≢ frame m)) }
{
    let Some(body) = whole_body(bytes) else {
        return Ok(None);
    };
    match decode(alloc, body) {
        Ok(message) => Ok(Some(message)),
        Err(WireError::OutOfMemory) => Err(AllocError),
        Err(_) => Ok(None),
    }
}

// The body of the frame that these bytes are by their length.
fn whole_body(bytes: &[u8]) -> Option<&[u8]>
    ensures some { IfSome result (λ body. bytes.now ≡ framed body.now) }
    ensures none { IfNone result ((body : List ℕ) → length body ≤ most_body
        → bytes.now ≢ framed body) }
{
    if bytes.len() < 4 {
        return None;
    }
    let (length, body) = bytes.split_at(4);
    match u32::try_from(body.len()) {
        Ok(told) if length == told.to_be_bytes().as_slice() => Some(body),
        _ => None,
    }
}
