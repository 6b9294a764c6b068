//! What comes and goes in pieces of any size, and ends that fail.

use crate::guest::{allocate, id, read, write};
use crate::line::{End, Line, Pace};
use crate::scene::{OWN, Scene};
use connections::ConnectionFault;
use grid_serving::Why;
use server_core::server::Server;
use share_store::memory::MemoryStore;
use std::alloc::Global;
use std::cell::RefCell;
use std::test::Fail;
use wire::feed::Feed;
use wire::message::{Body, Message};

// How many turns may come in which no byte goes before a client is thought to be still.
const STILL_TURNS: u64 = 4;

// What became of a client, and of its server.
#[derive(Drop)]
struct Played {
    why: Option<Why>,
    server: Server<MemoryStore>,
}

// Serves a client over a line until it is gone, or nothing goes any more. Why it is gone, if it is.
fn play(scene: &mut Scene<End<'_>>, line: &RefCell<Line>) -> Result<Option<Why>, Fail> {
    let mut still = 0u64;
    for _ in 0..1_000_000 {
        let before = moved(line)?;
        if let Some(why) = scene.turn(0)? {
            return Ok(Some(why));
        }
        still = if moved(line)? == before {
            still.saturating_add(1)
        } else {
            0
        };
        if still == STILL_TURNS {
            return Ok(None);
        }
    }
    Err(Fail::from("no end"))
}

fn moved(line: &RefCell<Line>) -> Result<usize, Fail> {
    match line.try_borrow() {
        Ok(line) => Ok(line.moved()),
        Err(_) => Err(Fail::from("it is borrowed")),
    }
}

// What a client is told that says these bytes, and what becomes of it.
fn told(alloc: Global, says: &[u8], pace: Pace) -> Result<(Vec<u8>, Played), Fail> {
    let line = RefCell::new(Line::new(alloc, says, pace)?);
    let mut scene = Scene::new(alloc, End { line: &line }, 0)?;
    let why = play(&mut scene, &line)?;
    let server = scene.into_server();
    Ok((line.into_inner().into_told(), Played { why, server }))
}

// The bytes of a client that greets and asks for these.
fn bytes_of(alloc: Global, asks: Vec<Body>) -> Result<Vec<u8>, Fail> {
    let mut bytes = Vec::from_slice(alloc, &OWN)?;
    let mut number = 0u64;
    for body in asks {
        number = number.saturating_add(1);
        let request = Message {
            session: 5,
            number,
            body,
        };
        bytes.extend_from_slice(request.encode(alloc)?.as_slice())?;
    }
    Ok(bytes)
}

// The answers behind the greeting that a client is told.
fn answers(alloc: Global, told: &[u8]) -> Result<Vec<Body>, Fail> {
    let mut feed = Feed::new(alloc);
    feed.feed(told.get(64..).unwrap_or(&[]))?;
    let mut answers = Vec::new(alloc);
    for _ in 0..told.len() {
        match feed.next() {
            Ok(Some(message)) => answers.push(message.body)?,
            Ok(None) => return Ok(answers),
            Err(_) => return Err(Fail::from("no frame")),
        }
    }
    Ok(answers)
}

const WHOLE: Pace = Pace {
    step: 1_000_000,
    stutters: false,
    fails_at: u64::MAX,
};

// Asks to write these pieces of so many bytes each.
fn ask_writes(alloc: Global, asks: &mut Vec<Body>, pieces: u64, length: u32) -> Result<(), Fail> {
    for piece in 0..pieces {
        let offset = piece.saturating_mul(u64::from(length));
        asks.push(write(alloc, 0, offset, (piece % 8) as u8, length as usize)?)?;
    }
    Ok(())
}

// Asks to read them.
fn ask_reads(asks: &mut Vec<Body>, pieces: u64, length: u32) -> Result<(), Fail> {
    for piece in 0..pieces {
        asks.push(read(0, piece.saturating_mul(u64::from(length)), length)?)?;
    }
    Ok(())
}

// Puts a share of these pieces, and reads them.
fn put_and_read(alloc: Global, pieces: u64, length: u32) -> Result<Vec<u8>, Fail> {
    let mut asks = Vec::new(alloc);
    asks.push(allocate(0, pieces.saturating_mul(u64::from(length)))?)?;
    ask_writes(alloc, &mut asks, pieces, length)?;
    asks.push(Body::Close(id(0)))?;
    ask_reads(&mut asks, pieces, length)?;
    asks.push(allocate(1, 10)?)?;
    bytes_of(alloc, asks)
}

// Whether what is told is the server's greeting and the right answers to these.
fn is_right(alloc: Global, told: &[u8], pieces: usize, length: usize) -> Result<bool, Fail> {
    let answers = answers(alloc, told)?;
    let mut granted = 0usize;
    let mut read = 0usize;
    for answer in answers.iter() {
        match answer {
            Body::Granted => granted = granted.saturating_add(1),
            Body::Data(data) if data.as_slice().len() == length => read = read.saturating_add(1),
            _ => {}
        }
    }
    let count = pieces.saturating_mul(2).saturating_add(3);
    Ok(told.starts_with(&OWN) && answers.len() == count && granted == 2 && read == pieces)
}

// Whether a client to which bytes come and go in pieces of so many at most is told the same as one
// to which all comes at once.
fn is_same(alloc: Global, says: &[u8], right: &[u8], step: usize) -> Result<bool, Fail> {
    for stutters in [false, true] {
        let pace = Pace {
            step,
            stutters,
            ..WHOLE
        };
        let (same, played) = told(alloc, says, pace)?;
        if played.why.is_some() || same.as_slice() != right {
            return Ok(false);
        }
    }
    Ok(true)
}

// What a client is told to whom all comes at once.
fn told_at_once(alloc: Global, says: &[u8]) -> Result<Vec<u8>, Fail> {
    let (told, _) = told(alloc, says, WHOLE)?;
    Ok(told)
}

// Whether frames of this length are answered rightly, and in pieces of each of these sizes too.
fn are_same(alloc: Global, length: u32, steps: &[usize]) -> Result<bool, Fail> {
    let says = put_and_read(alloc, 2, length)?;
    let right = told_at_once(alloc, says.as_slice())?;
    let mut all = is_right(alloc, right.as_slice(), 2, length as usize)?;
    for step in steps {
        all = all && is_same(alloc, says.as_slice(), right.as_slice(), *step)?;
    }
    Ok(all)
}

#[test]
fn short_frames_in_pieces(rt: HostRuntime) -> Result<(), Fail> {
    assert!(rt; are_same(rt.alloc(), 10, &[1, 2, 63, 64, 65, 1000])?);
    Ok(())
}

// Frames of the greatest length.
#[test]
fn long_frames_in_pieces(rt: HostRuntime) -> Result<(), Fail> {
    assert!(rt; are_same(rt.alloc(), 32_768, &[1000, 32_815, 65_536])?);
    Ok(())
}

// Whether a connection that fails at a call ends: what was told is a beginning, and another client
// may write what this one was writing. `None`, where it does not fail: so many calls are not made.
fn ends_well(alloc: Global, says: &[u8], right: &[u8], pace: Pace) -> Result<Option<bool>, Fail> {
    let (told, mut played) = told(alloc, says, pace)?;
    if !right.starts_with(told.as_slice()) {
        return Ok(Some(false));
    }
    if played.why.is_none() {
        return Ok(None);
    }
    let is_ended = played.why == Some(Why::Ended(ConnectionFault::Ended));
    Ok(Some(is_ended && is_free(&mut played.server)?))
}

// At how many calls it fails, where it ends well at each. `None`, where it does not.
fn count_ends(alloc: Global, says: &[u8], right: &[u8], step: usize) -> Result<Option<u64>, Fail> {
    for fails_at in 1..200u64 {
        let pace = Pace {
            step,
            fails_at,
            ..WHOLE
        };
        match ends_well(alloc, says, right, pace)? {
            Some(true) => {}
            Some(false) => return Ok(None),
            None => return Ok(Some(fails_at.saturating_sub(1))),
        }
    }
    Ok(Some(199))
}

// A connection may fail at any of its calls.
#[test]
fn an_end_that_fails(rt: HostRuntime) -> Result<(), Fail> {
    let alloc = rt.alloc();
    let says = put_and_read(alloc, 2, 10)?;
    let right = told_at_once(alloc, says.as_slice())?;
    for step in [40, 1_000_000] {
        let failed = count_ends(alloc, says.as_slice(), right.as_slice(), step)?;
        assert!(rt;
            failed.is_some_and(|failed| failed > 3 && failed < 150),
            "{step}"
        );
    }
    Ok(())
}

// Whether another client may write the share that the first one did not close.
fn is_free(server: &mut Server<MemoryStore>) -> Result<bool, Fail> {
    let message = Message {
        session: 5,
        number: 1,
        body: allocate(1, 10)?,
    };
    match server.on_message(9, &message, 0) {
        Ok(Some(answer)) => Ok(matches!(answer.body, Body::Granted)),
        _ => Err(Fail::from("no answer")),
    }
}
