//! Greetings: their bytes as docs/FORMATS.md has them, and which two ends take each other.

use crate::fake::Fake;
use crate::messages::{greeting_of, heard_over, server_mark, three_messages};
use connections::{ConnectionFault, Greeting, Side, fits};
use grid_marks::{Kind, Mark};
use std::alloc::Global;
use std::test::Fail;

// The lines were written by hand, and the base32 is by a program in Python.
const UNMARKED: &Greeting = b"grid-frames 1 no mark\n                                          ";

const MARKED: &Greeting = b"grid-frames 1 grid mf5f2w5zjnixczdsvnp4lfmsqe server 3\n         ";

const GREATEST: &Greeting = b"grid-frames 1 grid 77777777777777777777777774 servers 65535\n    ";

#[test]
fn texts(rt: HostRuntime) -> Result<(), Fail> {
    let mark = Mark {
        identity: *b"\x61\x7a\x5d\x5b\xb9\x4b\x51\x71\x64\x72\xab\x5f\xc5\x95\x92\x81",
        kind: Kind::Server,
        number: 3,
    };
    let greatest = Mark {
        identity: [0xff; 16],
        kind: Kind::Grid,
        number: 65_535,
    };
    let alloc = rt.alloc();
    assert!(rt; greeting_of(alloc, None)? == *UNMARKED);
    assert!(rt; greeting_of(alloc, Some(mark))? == *MARKED);
    assert!(rt; greeting_of(alloc, Some(greatest))? == *GREATEST);
    Ok(())
}

// How many messages an end takes whose other end sent this greeting and three of them.
fn taken(alloc: Global, side: Side, own: &Greeting, other: &Greeting) -> Result<usize, Fail> {
    let wire = Fake::new(alloc, three_messages(alloc, other)?.as_slice(), 100)?;
    let ears = heard_over(alloc, wire, side, own, 20)?;
    let fault = if ears.numbers.is_empty() {
        Some(ConnectionFault::OtherGreeting)
    } else {
        None
    };
    if ears.fault != fault {
        return Err(Fail::from("another fault"));
    }
    Ok(ears.numbers.len())
}

// Both ends take each other, or none the other: the client wants, and the server has.
const PAIRS: [(Option<u16>, Option<u16>, bool); 9] = [
    (None, None, true),
    (None, Some(3), true),
    (None, Some(4), true),
    (Some(3), None, false),
    (Some(3), Some(3), true),
    (Some(3), Some(4), false),
    (Some(4), None, false),
    (Some(4), Some(3), false),
    (Some(4), Some(4), true),
];

// Whether a client and a server that want and have these marks take so many of each other.
fn take_each_other(
    alloc: Global,
    wanted: Option<u16>,
    had: Option<u16>,
    right: bool,
) -> Result<bool, Fail> {
    let client = greeting_of(alloc, wanted.map(server_mark))?;
    let server = greeting_of(alloc, had.map(server_mark))?;
    let count = if right { 3 } else { 0 };
    Ok(
        fits(&client, &server) == right
            && taken(alloc, Side::Client, &client, &server)? == count
            && taken(alloc, Side::Server, &server, &client)? == count,
    )
}

#[test]
fn both_ends_agree(rt: HostRuntime) -> Result<(), Fail> {
    for (wanted, had, right) in PAIRS {
        assert!(rt; take_each_other(rt.alloc(), wanted, had, right)?);
    }
    Ok(())
}

// The same greeting with one byte changed.
fn changed(greeting: &Greeting, position: usize) -> Greeting {
    let mut other = *greeting;
    if let Some(byte) = other.get_mut(position) {
        *byte ^= 1;
    }
    other
}

// Whether no end that has a mark takes one whose greeting is another at this byte.
fn marked_take_none(
    alloc: Global,
    marked: &Greeting,
    other: &Greeting,
    unmarked: &Greeting,
) -> Result<bool, Fail> {
    Ok(
        taken(alloc, Side::Client, marked, other)? == 0
            && taken(alloc, Side::Server, marked, other)? == 0
            && taken(alloc, Side::Server, marked, unmarked)? == 0,
    )
}

// Whether who wants no mark takes so many of each.
fn unmarked_takes(
    alloc: Global,
    other: &Greeting,
    unmarked: &Greeting,
    count: usize,
) -> Result<bool, Fail> {
    Ok(
        taken(alloc, Side::Client, UNMARKED, other)? == count
            && taken(alloc, Side::Client, UNMARKED, unmarked)? == count,
    )
}

#[test]
fn one_byte_is_another(rt: HostRuntime) -> Result<(), Fail> {
    let alloc = rt.alloc();
    let marked = greeting_of(alloc, Some(server_mark(3)))?;
    for position in 0..64 {
        let other = changed(&marked, position);
        let unmarked = changed(UNMARKED, position);
        // who wants no mark looks at the version alone
        let count = if position < 14 { 0 } else { 3 };
        assert!(rt;
            marked_take_none(alloc, &marked, &other, &unmarked)?,
            "{position}"
        );
        assert!(rt;
            unmarked_takes(alloc, &other, &unmarked, count)?,
            "{position}"
        );
    }
    Ok(())
}
