//! Messages, and what is heard of them.

use crate::fake::Fake;
use connections::{Connection, ConnectionFault, Greeting, Heard, Room, Side, greeting};
use grid_marks::{Kind, Mark};
use std::alloc::{AllocError, Global};
use std::test::Fail;
use wire::message::{Body, Message, ReadData};

// How many bytes the frame of a message of `counted` has: 4 of its length, 17 of its kind, session
// and number, and 8 more.
pub(crate) const COUNTED_SIZE: usize = 29;

// A message of this number, and of 29 bytes.
pub(crate) fn counted(number: u64) -> Message {
    Message {
        session: 7,
        number,
        body: Body::Wrote(number),
    }
}

// A message of this number, with so many bytes: its frame has 21 more.
pub(crate) fn data(alloc: Global, number: u64, length: usize) -> Result<Message, Fail> {
    let bytes = Vec::from_elem(alloc, (number % 251) as u8, length)?;
    match ReadData::from_vec(bytes) {
        Some(bytes) => Ok(Message {
            session: 7,
            number,
            body: Body::Data(bytes),
        }),
        None => Err(Fail::from("too long")),
    }
}

// The bytes of a greeting, and the frames of messages of the numbers 1 to 3 behind it.
pub(crate) fn three_messages(alloc: Global, first: &Greeting) -> Result<Vec<u8>, AllocError> {
    let mut bytes = Vec::from_slice(alloc, first)?;
    for number in 1..4 {
        bytes.extend_from_slice(counted(number).encode(alloc)?.as_slice())?;
    }
    Ok(bytes)
}

// The mark of a server of this number.
pub(crate) fn server_mark(number: u16) -> Mark {
    Mark {
        identity: *b"a grid of tests!",
        kind: Kind::Server,
        number,
    }
}

// The greeting of a mark.
pub(crate) fn greeting_of(alloc: Global, mark: Option<Mark>) -> Result<Greeting, Fail> {
    match greeting(alloc, mark) {
        Ok(greeting) => Ok(greeting),
        Err(_) => Err(Fail::from("no greeting")),
    }
}

// What was heard: the numbers of the messages, in their order, and the fault.
#[derive(Drop)]
pub(crate) struct Ears {
    pub(crate) numbers: Vec<u64>,
    pub(crate) fault: Option<ConnectionFault>,
}

// Hears so many times, up to a fault.
pub(crate) fn hear(
    alloc: Global,
    connection: &mut Connection<Fake>,
    times: u64,
) -> Result<Ears, AllocError> {
    let mut room = Room::new(alloc)?;
    let mut ears = Ears {
        numbers: Vec::new(alloc),
        fault: None,
    };
    for _ in 0..times {
        match connection.hear(&mut room) {
            Ok(Heard::Message(message)) => ears.numbers.push(message.number)?,
            Ok(Heard::Bytes | Heard::Nothing) => {}
            Err(fault) => {
                ears.fault = Some(fault);
                return Ok(ears);
            }
        }
    }
    Ok(ears)
}

// What an end with this greeting hears over a wire in so many calls.
pub(crate) fn heard_over(
    alloc: Global,
    wire: Fake,
    side: Side,
    own: &Greeting,
    times: u64,
) -> Result<Ears, AllocError> {
    let mut connection = Connection::begin(alloc, wire, side, own)?;
    hear(alloc, &mut connection, times)
}
