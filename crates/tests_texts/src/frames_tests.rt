//! Frames in pieces, and where memory is refused. What bytes are read as is in the rows of
//! text_rows, which have these frames too.

use std::alloc::{AllocError, Global};
use wire::error::WireError;
use wire::feed::Feed;
use wire::message::Message;

// One frame of each kind, in session 0x0102030405060708, numbered as its kind.
const FRAMES: [&[u8]; 17] = [
    b"\x00\x00\x00!\x01\x01\x02\x03\x04\x05\x06\x07\x08\x00\x00\x00\x00\x00\x00\x00\x01\x00\x01\
        \x02\x03\x04\x05\x06\x07\x08\x09\x0a\x0b\x0c\x0d\x0e\x0f",
    b"\x00\x00\x00X\x02\x01\x02\x03\x04\x05\x06\x07\x08\x00\x00\x00\x00\x00\x00\x00\x02\x01\x00\
        \x02\x00\x00 !\x22#$%&'()*+,-./0123456789:;<=>?\x00\xff\xee\xee\xee\xee\xee\xee\xee\xee\
        \xee\xee\xee\xee\xee\xee\xee\xee\xee\xee\xee\xee\xee\xee\xee\xee\xee\xee\xee\xee\xee\xee\
        \xee\xee",
    b"\x00\x00\x00+\x03\x01\x02\x03\x04\x05\x06\x07\x08\x00\x00\x00\x00\x00\x00\x00\x03\x00\x01\
        \x02\x03\x04\x05\x06\x07\x08\x09\x0a\x0b\x0c\x0d\x0e\x0f\x00\x03\x00\x00\x02\x00\x00\x00\
        \x00\x00",
    b"\x00\x00\x00\x11\x04\x01\x02\x03\x04\x05\x06\x07\x08\x00\x00\x00\x00\x00\x00\x00\x04",
    b"\x00\x00\x001\x05\x01\x02\x03\x04\x05\x06\x07\x08\x00\x00\x00\x00\x00\x00\x00\x05 !\x22#$%&'\
        ()*+,-./0123456789:;<=>?",
    b"\x00\x00\x00\x11\x06\x01\x02\x03\x04\x05\x06\x07\x08\x00\x00\x00\x00\x00\x00\x00\x06",
    b"\x00\x00\x00\x11\x07\x01\x02\x03\x04\x05\x06\x07\x08\x00\x00\x00\x00\x00\x00\x00\x07",
    b"\x00\x00\x00.\x08\x01\x02\x03\x04\x05\x06\x07\x08\x00\x00\x00\x00\x00\x00\x00\x08\x00\x01\
        \x02\x03\x04\x05\x06\x07\x08\x09\x0a\x0b\x0c\x0d\x0e\x0f\x00\x03\xff\xff\xff\xff\xff\xff\
        \xff\xffabc",
    b"\x00\x00\x00\x19\x09\x01\x02\x03\x04\x05\x06\x07\x08\x00\x00\x00\x00\x00\x00\x00\x09\x00\x00\
        \x00\x00\x00\x00\x00\x07",
    b"\x00\x00\x00\x19\x0a\x01\x02\x03\x04\x05\x06\x07\x08\x00\x00\x00\x00\x00\x00\x00\x0a\x00\x00\
        \x00\x00\x00\x00\x00\x08",
    b"\x00\x00\x00#\x0b\x01\x02\x03\x04\x05\x06\x07\x08\x00\x00\x00\x00\x00\x00\x00\x0b\x00\x01\
        \x02\x03\x04\x05\x06\x07\x08\x09\x0a\x0b\x0c\x0d\x0e\x0f\x00\x03",
    b"\x00\x00\x001\x0c\x01\x02\x03\x04\x05\x06\x07\x08\x00\x00\x00\x00\x00\x00\x00\x0c !\x22#$%&'\
        ()*+,-./0123456789:;<=>?",
    b"\x00\x00\x00\x19\x0d\x01\x02\x03\x04\x05\x06\x07\x08\x00\x00\x00\x00\x00\x00\x00\x0d\x00\x00\
        \x00\x00\x00\x00\x00\x09",
    b"\x00\x00\x00#\x0e\x01\x02\x03\x04\x05\x06\x07\x08\x00\x00\x00\x00\x00\x00\x00\x0e\x00\x01\
        \x02\x03\x04\x05\x06\x07\x08\x09\x0a\x0b\x0c\x0d\x0e\x0f\x00\x03",
    b"\x00\x00\x00/\x0f\x01\x02\x03\x04\x05\x06\x07\x08\x00\x00\x00\x00\x00\x00\x00\x0f\x00\x01\
        \x02\x03\x04\x05\x06\x07\x08\x09\x0a\x0b\x0c\x0d\x0e\x0f\x00\x03\x00\x00\x00\x00\x00\x00\
        \x00\x05\x00\x00\x80\x00",
    b"\x00\x00\x00\x14\x10\x01\x02\x03\x04\x05\x06\x07\x08\x00\x00\x00\x00\x00\x00\x00\x10xyz",
    b"\x00\x00\x00\x11\x11\x01\x02\x03\x04\x05\x06\x07\x08\x00\x00\x00\x00\x00\x00\x00\x11",
];

// What is wrong, bytes that begin so, and the refusal's number.
const FAULTY: [(&str, &[u8], u8); 14] = [
    ("a length of 0", b"\x00\x00\x00\x00", 50),
    ("a length above 65,536", b"\x00\x01\x00\x01", 50),
    ("a kind above 17", b"\x00\x00\x00\x01\x12", 51),
    (
        "a kind of 0, told once the body is whole",
        b"\x00\x00\x00\x02\x00\x00",
        51,
    ),
    (
        "an Ask that ends behind its kind",
        b"\x00\x00\x00\x01\x01",
        52,
    ),
    (
        "a share number of 256",
        b"\x00\x00\x00#\x0b\x00\x00\x00\x00\x00\x00\x00\x01\x00\x00\x00\x00\x00\x00\x00\x01\x00\
            \x01\x02\x03\x04\x05\x06\x07\x08\x09\x0a\x0b\x0c\x0d\x0e\x0f\x01\x00",
        52,
    ),
    (
        "shares that do not rise",
        b"\x00\x00\x00X\x02\x00\x00\x00\x00\x00\x00\x00\x01\x00\x00\x00\x00\x00\x00\x00\x01\x00\
            \x00\x02\x00\x07 !\x22#$%&'()*+,-./0123456789:;<=>?\x00\x07 !\x22#$%&'()*+,-./01234567\
            89:;<=>?",
        52,
    ),
    (
        "a flag of 2",
        b"\x00\x00\x00\x14\x02\x00\x00\x00\x00\x00\x00\x00\x01\x00\x00\x00\x00\x00\x00\x00\x01\x02\
            \x00\x00",
        52,
    ),
    (
        "a share of no bytes",
        b"\x00\x00\x00+\x03\x00\x00\x00\x00\x00\x00\x00\x01\x00\x00\x00\x00\x00\x00\x00\x01\x00\
            \x01\x02\x03\x04\x05\x06\x07\x08\x09\x0a\x0b\x0c\x0d\x0e\x0f\x00\x03\x00\x00\x00\x00\
            \x00\x00\x00\x00",
        52,
    ),
    (
        "a share of more than 2^41 bytes",
        b"\x00\x00\x00+\x03\x00\x00\x00\x00\x00\x00\x00\x01\x00\x00\x00\x00\x00\x00\x00\x01\x00\
            \x01\x02\x03\x04\x05\x06\x07\x08\x09\x0a\x0b\x0c\x0d\x0e\x0f\x00\x03\x00\x00\x02\x00\
            \x00\x00\x00\x01",
        52,
    ),
    (
        "a write of no bytes",
        b"\x00\x00\x00+\x08\x00\x00\x00\x00\x00\x00\x00\x01\x00\x00\x00\x00\x00\x00\x00\x01\x00\
            \x01\x02\x03\x04\x05\x06\x07\x08\x09\x0a\x0b\x0c\x0d\x0e\x0f\x00\x03\x00\x00\x00\x00\
            \x00\x00\x00\x00",
        52,
    ),
    (
        "a read of no bytes",
        b"\x00\x00\x00/\x0f\x00\x00\x00\x00\x00\x00\x00\x01\x00\x00\x00\x00\x00\x00\x00\x01\x00\
            \x01\x02\x03\x04\x05\x06\x07\x08\x09\x0a\x0b\x0c\x0d\x0e\x0f\x00\x03\x00\x00\x00\x00\
            \x00\x00\x00\x00\x00\x00\x00\x00",
        52,
    ),
    (
        "a read of 32,769 bytes",
        b"\x00\x00\x00/\x0f\x00\x00\x00\x00\x00\x00\x00\x01\x00\x00\x00\x00\x00\x00\x00\x01\x00\
            \x01\x02\x03\x04\x05\x06\x07\x08\x09\x0a\x0b\x0c\x0d\x0e\x0f\x00\x03\x00\x00\x00\x00\
            \x00\x00\x00\x00\x00\x00\x80\x01",
        52,
    ),
    (
        "a byte left over",
        b"\x00\x00\x00\x12\x04\x00\x00\x00\x00\x00\x00\x00\x01\x00\x00\x00\x00\x00\x00\x00\x01\x00",
        52,
    ),
];

// Appends the frame of a message. No, where memory is out.
fn appends(alloc: Global, out: &mut Vec<u8>, message: &Message) -> bool {
    match message.encode(alloc) {
        Ok(bytes) => out.extend_from_slice(&bytes).is_ok(),
        Err(_) => false,
    }
}

// Feeds the pieces, and writes the messages that come out again.
fn goes_through(alloc: Global, out: &mut Vec<u8>, feed: &mut Feed, piece: &[u8]) -> bool {
    if feed.feed(piece).is_err() {
        return false;
    }
    for _ in 0..=FRAMES.len() {
        match feed.next() {
            Ok(None) => return true,
            Ok(Some(message)) => {
                if !appends(alloc, out, &message) {
                    return false;
                }
            }
            Err(_) => return false,
        }
    }
    false
}

// Whether a stream that is cut at this position gives its frames.
fn passes_in_two(alloc: Global, stream: &[u8], position: usize) -> bool {
    let (front, back) = stream.split_at(position.min(stream.len()));
    let mut feed = Feed::new(alloc);
    let mut out = Vec::new(alloc);
    goes_through(alloc, &mut out, &mut feed, front)
        && goes_through(alloc, &mut out, &mut feed, back)
        && out.as_slice() == stream
}

fn passes_in_bytes(alloc: Global, stream: &[u8]) -> bool {
    let mut feed = Feed::new(alloc);
    let mut out = Vec::new(alloc);
    for byte in stream {
        if !goes_through(alloc, &mut out, &mut feed, &[*byte]) {
            return false;
        }
    }
    out.as_slice() == stream
}

// A stream cut at each position, and into single bytes, gives the same frames.
#[test]
fn any_cut(rt: HostRuntime) -> Result<(), AllocError> {
    let alloc = rt.alloc();
    let mut stream = Vec::new(alloc);
    for frame in FRAMES {
        stream.extend_from_slice(frame)?;
    }
    for position in 0..stream.len() {
        assert!(rt;
            passes_in_two(alloc, &stream, position),
            "cut at {position}"
        );
    }
    assert!(rt; passes_in_bytes(alloc, &stream));
    Ok(())
}

// The number of the refusal that stands at the front; 0 where the frame is not whole, and 255 where
// a message came.
fn told(feed: &mut Feed) -> u8 {
    match feed.next() {
        Ok(None) => 0,
        Ok(Some(_)) => 255,
        Err(error) => error.number(),
    }
}

// Whether a frame gives its message, where a call that was refused memory is made again.
fn comes_again(alloc: Global, frame: &[u8]) -> bool {
    let mut feed = Feed::new(alloc);
    if feed.feed(frame).is_err() && feed.feed(frame).is_err() {
        return false;
    }
    for _ in 0..2 {
        match feed.next() {
            Ok(Some(message)) => return is_frame_or_refused(alloc, &message, frame),
            Ok(None) => return false,
            Err(error) => {
                if error != WireError::OutOfMemory {
                    return false;
                }
            }
        }
    }
    false
}

fn is_frame_or_refused(alloc: Global, message: &Message, frame: &[u8]) -> bool {
    match message.encode(alloc) {
        Ok(bytes) => bytes.as_slice() == frame,
        Err(_) => true,
    }
}

// A Have, a Write and a Data.
#[test]
fn refused_memory_in_a_stream(rt: HostRuntime) {
    for position in [1usize, 7, 15] {
        assert!(rt; comes_again(rt.alloc(), FRAMES[position]), "{position}");
    }
}

// The number of the refusal, where one for want of memory is asked again.
fn told_at_last(feed: &mut Feed) -> u8 {
    let number = told(feed);
    if number == WireError::OutOfMemory.number() {
        return told(feed);
    }
    number
}

// Whether a fault is told for good: each piece behind it is taken, with no memory, and gives no
// message.
fn is_told_for_good(alloc: Global, bytes: &[u8], number: u8) -> bool {
    let mut feed = Feed::new(alloc);
    if feed.feed(bytes).is_err() && feed.feed(bytes).is_err() {
        return false;
    }
    if feed.fault() != None || told_at_last(&mut feed) != number {
        return false;
    }
    for frame in FRAMES {
        if feed.feed(frame).is_err() || told(&mut feed) != number {
            return false;
        }
    }
    feed.fault().map(|fault| fault.number()) == Some(number)
}

#[test]
fn refused_memory_before_a_fault(rt: HostRuntime) {
    for &(what, bytes, number) in &FAULTY {
        assert!(rt; is_told_for_good(rt.alloc(), bytes, number), "{what}");
    }
}
