//! Reading a message from the body of a frame.

ghost use Rattle.std.specs.Prelude.{◌≡◌, IfOk, IsErrOf, Ok};
ghost use Rattle.wire.specs.declared.message.Message.{Message};
ghost use Rattle.wire.specs.Frames.{IsMessage, spelling, HasNoKind, HasBadFields};
ghost use Rattle.wire.specs.Reading.{Gives, fields_at, have_at, allocate_at, write_at, read_at};
ghost use Rattle.wire.specs.Reading.{data_at, message_at, decoded};

use crate::error::WireError;
use crate::fields::{
    count_at, digest_at, flag_at, held_list, index_at, read_data, read_length, share_id_at,
    share_length, shares_at, u32_at, u64_at, write_data,
};
use crate::kind::Kind;
use crate::message::{Body, Message};
use std::alloc::Global;

#[tactic(auto, unfolding(crate::specs::Reading::have_at))]
fn have_at(alloc: Global, bytes: &[u8]) -> Result<(Body, &[u8]), WireError>
    ensures { Gives (λ x. (x.0, x.1.now)) result (have_at bytes.now) }
{
    let (readonly, rest) = flag_at(bytes)?;
    let (count, rest) = count_at(rest)?;
    let (shares, rest) = shares_at(alloc, count, rest)?;
    let held = held_list(shares)?;
    Ok((Body::Have(readonly, held), rest))
}

#[tactic(auto, unfolding(crate::specs::Reading::allocate_at))]
fn allocate_at(bytes: &[u8]) -> Result<(Body, &[u8]), WireError>
    ensures { Gives (λ x. (x.0, x.1.now)) result (allocate_at bytes.now) }
{
    let (id, rest) = share_id_at(bytes)?;
    let (bytes, rest) = u64_at(rest)?;
    let length = share_length(bytes)?;
    Ok((Body::Allocate(id, length), rest))
}

#[tactic(auto, unfolding(crate::specs::Reading::write_at))]
fn write_at(alloc: Global, bytes: &[u8]) -> Result<(Body, &[u8]), WireError>
    ensures { Gives (λ x. (x.0, x.1.now)) result (write_at bytes.now) }
{
    let (id, rest) = share_id_at(bytes)?;
    let (offset, rest) = u64_at(rest)?;
    let data = write_data(alloc, rest)?;
    Ok((Body::Write(id, offset, data), &[]))
}

#[tactic(auto, unfolding(crate::specs::Reading::read_at))]
fn read_at(bytes: &[u8]) -> Result<(Body, &[u8]), WireError>
    ensures { Gives (λ x. (x.0, x.1.now)) result (read_at bytes.now) }
{
    let (id, rest) = share_id_at(bytes)?;
    let (offset, rest) = u64_at(rest)?;
    let (bytes, rest) = u32_at(rest)?;
    let length = read_length(bytes)?;
    Ok((Body::Read(id, offset, length), rest))
}

#[tactic(auto, unfolding(crate::specs::Reading::data_at))]
fn data_at(alloc: Global, bytes: &[u8]) -> Result<(Body, &[u8]), WireError>
    ensures { Gives (λ x. (x.0, x.1.now)) result (data_at bytes.now) }
{
    let data = read_data(alloc, bytes)?;
    Ok((Body::Data(data), &[]))
}

/// The fields of a kind of message, and what follows them.
#[tactic(auto, unfolding(crate::specs::Reading::fields_at))]
fn fields_at(alloc: Global, kind: Kind, bytes: &[u8]) -> Result<(Body, &[u8]), WireError>
    ensures { Gives (λ x. (x.0, x.1.now)) result (fields_at kind bytes.now) }
{
    match kind {
        Kind::Ask => {
            let (index, rest) = index_at(bytes)?;
            Ok((Body::Ask(index), rest))
        }
        Kind::Have => have_at(alloc, bytes),
        Kind::Allocate => allocate_at(bytes),
        Kind::Granted => Ok((Body::Granted, bytes)),
        Kind::Already => {
            let (digest, rest) = digest_at(bytes)?;
            Ok((Body::Already(digest), rest))
        }
        Kind::Busy => Ok((Body::Busy, bytes)),
        Kind::Full => Ok((Body::Full, bytes)),
        Kind::Write => write_at(alloc, bytes),
        Kind::Wrote => {
            let (next, rest) = u64_at(bytes)?;
            Ok((Body::Wrote(next), rest))
        }
        Kind::WrongOffset => {
            let (written, rest) = u64_at(bytes)?;
            Ok((Body::WrongOffset(written), rest))
        }
        Kind::Close => {
            let (id, rest) = share_id_at(bytes)?;
            Ok((Body::Close(id), rest))
        }
        Kind::Closed => {
            let (digest, rest) = digest_at(bytes)?;
            Ok((Body::Closed(digest), rest))
        }
        Kind::NotComplete => {
            let (written, rest) = u64_at(bytes)?;
            Ok((Body::NotComplete(written), rest))
        }
        Kind::Abort => {
            let (id, rest) = share_id_at(bytes)?;
            Ok((Body::Abort(id), rest))
        }
        Kind::Read => read_at(bytes),
        Kind::Data => data_at(alloc, bytes),
        Kind::NoShare => Ok((Body::NoShare, bytes)),
    }
}

/// The message of a kind, all of the bytes behind it.
#[tactic(auto, unfolding(crate::specs::Reading::message_at))]
fn message_at(alloc: Global, kind: Kind, bytes: &[u8]) -> Result<Message, WireError>
    ensures { Gives (λ m. m) result (message_at kind bytes.now) }
{
    let (session, rest) = u64_at(bytes)?;
    let (number, rest) = u64_at(rest)?;
    let (body, rest) = fields_at(alloc, kind, rest)?;
    if rest.is_empty() {
        Ok(Message {
            session,
            number,
            body,
        })
    } else {
        Err(WireError::BadFields)
    }
}

#[tactic(auto, unfolding(crate::specs::Reading::decoded))]
fn decode_exactly(alloc: Global, body: &[u8]) -> Result<Message, WireError>
    ensures { Gives (λ m. m) result (decoded body.now) }
{
    match body {
        [] => Err(WireError::BadKind),
        [number, rest @ ..] => match Kind::from_number(*number) {
            None => Err(WireError::BadKind),
            Some(kind) => message_at(alloc, kind, rest),
        },
    }
}

/// The message that the body of a frame spells.
pub fn decode(alloc: Global, body: &[u8]) -> Result<Message, WireError>
    // What is read is spelled so.
    ensures found { IfOk result (λ m. IsMessage m × (body.now ≡ spelling m)) }

    // What is spelled so is read, unless memory runs out.
    ensures only { (m : Message) → IsMessage m → body.now ≡ spelling m
        → Gives (λ x. x) result (Ok m) }

    // Of the faults the kind comes first, and there is no other.
    ensures bad_kind { IsErrOf result WireError.BadKind → HasNoKind body.now }
    ensures bad_fields { IsErrOf result WireError.BadFields → HasBadFields body.now }
    ensures bad_length { IsErrOf result WireError.BadLength → ⊥ }
{
    decode_exactly(alloc, body)
}
