// Catalogues, and names below a folder.
//
// What is written for a name is what `sha256sum` of coreutils 9.1 wrote for a file of that name;
// the caps and the fingerprints were computed by programs that share no code with these crates.
//
// The test whose name begins with `refused_memory` passes too where any one allocation of its is
// refused.

use cap_text::Cap;
use catalogues::{
    Catalogue, CatalogueError, Moment, Numbers, entry_count, line_of, name_below, parts_below,
};
use std::alloc::Global;

// Caps of all kinds.
const CAPS: [&[u8]; 4] = [
    b"URI:CHK:x45opozjlsd45uhibsv2apw46e:upsh3wg4mj5hhojd7qv6ug2rqe7zphsxgbnniumsdns2twtt3vyq:3:10\
        :131074",
    b"URI:CHK-Verifier:sgw7eoanvat7jiqms34bueiphi:upsh3wg4mj5hhojd7qv6ug2rqe7zphsxgbnniumsdns2twtt3\
        vyq:3:10:131074",
    b"URI:LIT:na",
    b"URI:LIT:",
];

// Names, whether their lines begin with a backslash, and what is written for them.
const NAMES: [(&[u8], bool, &[u8]); 19] = [
    (b"plain", false, b"plain"),
    (b"two words", false, b"two words"),
    (b" begins with a blank", false, b" begins with a blank"),
    (b"ends with a blank ", false, b"ends with a blank "),
    (b"  ", false, b"  "),
    (b"a\\b", true, b"a\\\\b"),
    (b"\\", true, b"\\\\"),
    (b"a\nb", true, b"a\\nb"),
    (b"\n", true, b"\\n"),
    (b"a\rb", true, b"a\\rb"),
    (b"a\\\nb\r", true, b"a\\\\\\nb\\r"),
    (b"\\n", true, b"\\\\n"),
    (b"folder/file", false, b"folder/file"),
    (b"tab\there", false, b"tab\there"),
    (b"*star", false, b"*star"),
    (b"#hash", false, b"#hash"),
    (b"\xff\xfe\x80", false, b"\xff\xfe\x80"),
    (b"\xc3\xa9", false, b"\xc3\xa9"),
    (b"\x01\x7f", false, b"\x01\x7f"),
];

// A part of the greatest length, and a longer one.
const LONG: [u8; 255] = [b'x'; 255];

const TOO_LONG: [u8; 256] = [b'x'; 256];

const FIRST: &[u8] =
    b"# grid catalogue 1 begun 1764404400.123456789 k 3 n 10 segment 131072 under hai\
        f3ovaz4vjer7wm3n5nqj47a\n";

// First lines with the least and the greatest numbers, and the secret of the latter.
const LEAST: &[u8] =
    b"# grid catalogue 1 begun 0.000000000 k 1 n 1 segment 1 under 3njm3dzw37dp4hbkfkn\
        wyo77wa\n";

const GREATEST: &[u8] =
    b"# grid catalogue 1 begun 18446744073709551615.999999999 k 256 n 256 segment 1\
        048576 under 4x7i6ver4n5goux4uxojcfl6qi\n";

const SECRET: [u8; 64] = [b'x'; 64];

// What is no first line.
const NO_FIRST_LINES: [&[u8]; 24] = [
    b"",
    b"\n",
    b"URI:LIT:na  a\n",
    b"# grid catalogue 1 begun 0.000000000 k 1 n 1 segment 1 under 3njm3dzw37dp4hbkfknwyo77wa",
    b"# grid catalogue 2 begun 0.000000000 k 1 n 1 segment 1 under 3njm3dzw37dp4hbkfknwyo77wa\n",
    b"# grid catalogue 01 begun 0.000000000 k 1 n 1 segment 1 under 3njm3dzw37dp4hbkfknwyo77wa\n",
    b" # grid catalogue 1 begun 0.000000000 k 1 n 1 segment 1 under 3njm3dzw37dp4hbkfknwyo77wa\n",
    b"# grid catalogue 1 begun 00.000000000 k 1 n 1 segment 1 under 3njm3dzw37dp4hbkfknwyo77wa\n",
    b"# grid catalogue 1 begun .000000000 k 1 n 1 segment 1 under 3njm3dzw37dp4hbkfknwyo77wa\n",
    b"# grid catalogue 1 begun -1.000000000 k 1 n 1 segment 1 under 3njm3dzw37dp4hbkfknwyo77wa\n",
    b"# grid catalogue 1 begun 0.00000000 k 1 n 1 segment 1 under 3njm3dzw37dp4hbkfknwyo77wa\n",
    b"# grid catalogue 1 begun 0.0000000000 k 1 n 1 segment 1 under 3njm3dzw37dp4hbkfknwyo77wa\n",
    b"# grid catalogue 1 begun 0 k 1 n 1 segment 1 under 3njm3dzw37dp4hbkfknwyo77wa\n",
    b"# grid catalogue 1 begun 18446744073709551616.000000000 k 1 n 1 segment 1 under 3njm3dzw37dp4\
        hbkfknwyo77wa\n",
    b"# grid catalogue 1 begun 0.000000000 k 0 n 1 segment 1 under 3njm3dzw37dp4hbkfknwyo77wa\n",
    b"# grid catalogue 1 begun 0.000000000 k 2 n 1 segment 1 under 3njm3dzw37dp4hbkfknwyo77wa\n",
    b"# grid catalogue 1 begun 0.000000000 k 1 n 257 segment 1 under 3njm3dzw37dp4hbkfknwyo77wa\n",
    b"# grid catalogue 1 begun 0.000000000 k 1 n 65537 segment 1 under 3njm3dzw37dp4hbkfknwyo77wa\n",
    b"# grid catalogue 1 begun 0.000000000 k 1 n 1 segment 0 under 3njm3dzw37dp4hbkfknwyo77wa\n",
    b"# grid catalogue 1 begun 0.000000000 k 1 n 1 segment 1048577 under 3njm3dzw37dp4hbkfknwyo77wa\
        \n",
    b"# grid catalogue 1 begun 0.000000000 k 1 n 1 segment 1 under 3njm3dzw37dp4hbkfknwyo77w\n",
    b"# grid catalogue 1 begun 0.000000000 k 1 n 1 segment 1 under 3njm3dzw37dp4hbkfknwyo77wb\n",
    b"# grid catalogue 1 begun 0.000000000 k 1 n 1 segment 1 under 3njm3dzw37dp4hbkfknwyo77wa \n",
    b"# grid catalogue 1 begun 0.000000000 k 1 n 1 segment 1 under 3njm3dzw37dp4hbkfknwyo77wa\r\n",
];

// What follows a first line, and the number of the line that is none.
const NO_LINES: [(&[u8], u64); 20] = [
    (b"URI:LIT:na  a", 2),
    (b"URI:LIT:na  a\nURI:LIT:na  b", 3),
    (b"URI:LIT:na a\n", 2),
    (b"URI:LIT:na\ta\n", 2),
    (b"URI:LIT:na *a\n", 2),
    (b"URI:LIT:na  \n", 2),
    (b"URI:LIT:na  a\x00b\n", 2),
    (b"URI:LIT:na  a\r\n", 2),
    (b"URI:LIT:na  a\\b\n", 2),
    (b"\\URI:LIT:na  ab\n", 2),
    (b"\\URI:LIT:na  a\\tb\n", 2),
    (b"\\URI:LIT:na  a\\\\b\\\n", 2),
    (b"\\\\URI:LIT:na  a\\\\b\n", 2),
    (b"URI:LIT:NA  a\n", 2),
    (b" URI:LIT:na  a\n", 2),
    (b"URI:LIT:na  a\n\nURI:LIT:na  b\n", 3),
    (b"\n", 2),
    (b"# comment\n", 2),
    (b"URI:LIT:na  a\nURI:LIT:na  b\nURI:LIT:na\n", 4),
    (FIRST, 2),
];

// Names below a folder, and how many parts they have.
const BELOW: [(&[u8], u64); 7] = [
    (b"a", 1),
    (b"a/b/c", 3),
    (b".hidden/...", 2),
    (b"..a/b..", 2),
    (b" /\\/\n", 3),
    (b"\xff/\xfe", 2),
    (&LONG, 1),
];

const NOT_BELOW: [&[u8]; 15] = [
    b"", b"/", b"/a", b"a/", b"a//b", b".", b"..", b"./a", b"a/.", b"a/./b", b"../a", b"a/..",
    b"a/../b", b"a/b\x00", &TOO_LONG,
];

// Names, and what is left of them below a folder; nothing where they are refused.
const PUT: [(&[u8], &[u8]); 16] = [
    (b"a", b"a"),
    (b"a/b", b"a/b"),
    (b"./a", b"a"),
    (b"././a", b"a"),
    (b"/a/b", b"a/b"),
    (b"//a", b"a"),
    (b".//.//a", b"a"),
    (b"/./.a", b".a"),
    (b"", b""),
    (b"/", b""),
    (b"./", b""),
    (b".", b""),
    (b"../a", b""),
    (b"/../a", b""),
    (b"./a/", b""),
    (b"/a/../b", b""),
];

fn numbers(needed: u16, total: u16, segment_size: u32) -> Numbers {
    Numbers {
        needed,
        total,
        segment_size,
    }
}

fn moment(seconds: u64, nanoseconds: u32) -> Moment {
    Moment {
        seconds,
        nanoseconds,
    }
}

// Whether a first line tells this, and is written so.
fn is_first(
    alloc: Global,
    text: &[u8],
    begun: Moment,
    numbers: Numbers,
    secret: &[u8],
) -> Result<bool, CatalogueError> {
    let catalogue = Catalogue::open(text)?;
    let head = catalogue.head();
    if secret.len() > 64
        || !head.numbers.are_in_range()
        || head.begun.nanoseconds >= 1_000_000_000
    {
        return Ok(false);
    }
    let fingerprint = numbers.fingerprint(secret);
    let (told, same) = (
        head.fingerprint,
        head.begun == begun && head.numbers == numbers,
    );
    match head.text(alloc) {
        Ok(own) => Ok(same && told == fingerprint && own.as_slice() == text),
        Err(_) => Err(CatalogueError::OutOfMemory),
    }
}

// Whether a line of this cap is read and written as it should be.
fn is_line(
    alloc: Global,
    cap: &[u8],
    name: &[u8],
    marked: bool,
    written: &[u8],
) -> Result<bool, CatalogueError> {
    let mut text = Vec::new(alloc);
    text.extend_from_slice(FIRST)?;
    if marked {
        text.push(b'\\')?;
    }
    text.extend_from_slice(cap)?;
    text.extend_from_slice(b"  ")?;
    text.extend_from_slice(written)?;
    text.push(b'\n')?;
    let mut catalogue = Catalogue::open(&text)?;
    match catalogue.next_line() {
        Ok(Some(line)) => {
            let own = line_of(alloc, &line.cap, name)?;
            let read = line.name.to_vec(alloc)?;
            let whole = catalogue.lines() == 2 && entry_count(&text) == Ok(1);
            let same = text.as_slice().strip_prefix(FIRST) == Some(own.as_slice());
            Ok(whole && same && read.as_slice() == name)
        }
        Ok(None) => Ok(false),
        Err(fault) => Err(fault),
    }
}

fn are_lines(alloc: Global, cap: &[u8]) -> Result<bool, CatalogueError> {
    for (name, marked, written) in &NAMES {
        if !is_line(alloc, cap, name, *marked, written)? {
            return Ok(false);
        }
    }
    is_line(alloc, cap, &LONG, false, &LONG)
}

// Whether the line of this number is refused, each time that it is read.
fn is_no_line(alloc: Global, rest: &[u8], number: u64) -> Result<bool, CatalogueError> {
    let mut text = Vec::new(alloc);
    text.extend_from_slice(FIRST)?;
    text.extend_from_slice(rest)?;
    let mut catalogue = Catalogue::open(&text)?;
    for _ in 2..number {
        if let Ok(None) = catalogue.next_line() {
            return Ok(false);
        }
    }
    let fault = Err(CatalogueError::NotALine(number));
    Ok(
        is_fault(&mut catalogue, number)
            && is_fault(&mut catalogue, number)
            && entry_count(&text) == fault,
    )
}

fn is_fault(catalogue: &mut Catalogue<'_>, number: u64) -> bool {
    match catalogue.next_line() {
        Err(fault) => fault == CatalogueError::NotALine(number),
        Ok(_) => false,
    }
}

// Whether a name is refused as one of a line.
fn is_no_name(alloc: Global, name: &[u8]) -> bool {
    let Ok(cap) = Cap::parse(b"URI:LIT:na") else {
        return false;
    };
    match line_of(alloc, &cap, name) {
        Ok(_) => false,
        Err(fault) => fault == CatalogueError::BadName,
    }
}

// Whether a name has so many parts, which give it back.
fn has_parts(alloc: Global, name: &[u8], count: u64) -> Result<bool, CatalogueError> {
    let mut parts = parts_below(name)?;
    let mut joined = Vec::new(alloc);
    for i in 0..count {
        let Some(part) = parts.next_part() else {
            return Ok(false);
        };
        if i > 0 {
            joined.push(b'/')?;
        }
        joined.extend_from_slice(part)?;
    }
    Ok(parts.next_part().is_none() && joined.as_slice() == name)
}

// Whether a name is refused as one below a folder.
fn is_elsewhere(name: &[u8]) -> bool {
    match parts_below(name) {
        Ok(_) => false,
        Err(fault) => fault == CatalogueError::BadName,
    }
}

// Whether so much is left of a name below a folder.
fn is_left(name: &[u8], rest: &[u8]) -> bool {
    match name_below(name) {
        Ok(left) => !rest.is_empty() && left == rest,
        Err(fault) => rest.is_empty() && fault == CatalogueError::BadName,
    }
}

// Whether all went well, or an allocation was refused.
fn is_right(outcome: Result<bool, CatalogueError>) -> bool {
    match outcome {
        Ok(right) => right,
        Err(fault) => fault == CatalogueError::OutOfMemory,
    }
}

#[test]
fn first_lines(rt: HostRuntime) {
    let alloc = rt.alloc();
    let begun = moment(1_764_404_400, 123_456_789);
    assert!(rt; is_first(alloc, FIRST, begun, numbers(3, 10, 131_072), b"") == Ok(true));
    let least = numbers(1, 1, 1);
    assert!(rt; is_first(alloc, LEAST, moment(0, 0), least, b"") == Ok(true));
    let (last, greatest) = (moment(u64::MAX, 999_999_999), numbers(256, 256, 1 << 20));
    assert!(rt; is_first(alloc, GREATEST, last, greatest, &SECRET) == Ok(true));
}

#[test]
fn refuses_other_first_lines(rt: HostRuntime) {
    for text in &NO_FIRST_LINES {
        assert!(rt; entry_count(text) == Err(CatalogueError::NotACatalogue));
    }
    assert!(rt; entry_count(FIRST) == Ok(0));
}

#[test]
fn lines(rt: HostRuntime) {
    for cap in &CAPS {
        assert!(rt; are_lines(rt.alloc(), cap) == Ok(true));
    }
}

#[test]
fn refuses_other_lines(rt: HostRuntime) {
    for (rest, number) in &NO_LINES {
        assert!(rt; is_no_line(rt.alloc(), rest, *number) == Ok(true));
    }
}

#[test]
fn refused_memory_in_a_catalogue(rt: HostRuntime) {
    let alloc = rt.alloc();
    let begun = moment(1_764_404_400, 123_456_789);
    assert!(rt; is_right(is_first(alloc, FIRST, begun, numbers(3, 10, 131_072), b"")));
    assert!(rt; is_right(is_line(alloc, b"URI:LIT:na", b"a\nb", true, b"a\\nb")));
}

#[test]
fn refuses_what_is_no_name(rt: HostRuntime) {
    assert!(rt; is_no_name(rt.alloc(), b"") && is_no_name(rt.alloc(), b"a\x00"));
}

#[test]
fn parts(rt: HostRuntime) {
    for (name, count) in &BELOW {
        assert!(rt; has_parts(rt.alloc(), name, *count) == Ok(true));
    }
}

#[test]
fn refuses_names_elsewhere(rt: HostRuntime) {
    for name in &NOT_BELOW {
        assert!(rt; is_elsewhere(name));
    }
}

#[test]
fn takes_the_front_off_names(rt: HostRuntime) {
    for (name, rest) in &PUT {
        assert!(rt; is_left(name, rest));
    }
}

#[test]
fn has_the_numbers_of_the_refusals(rt: HostRuntime) {
    assert!(rt; CatalogueError::OutOfMemory.number() == 1);
    assert!(rt; CatalogueError::NotACatalogue.number() == 110);
    assert!(rt; CatalogueError::NotALine(7).number() == 111);
    assert!(rt; CatalogueError::BadName.number() == 112);
}
