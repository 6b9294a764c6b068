//! What is read, and whether it has a digest. The digests were computed by Python's hashlib.

use share_files::{Verdict, Watch, check_bytes};
use std::alloc::{AllocError, Global};
use std::io;
use std::io::{ErrorKind, Read};
use std::test::Fail;
use wire::message::Digest;

// The digests of no bytes, of 1, 2 and 3, and of 200,000 bytes of which byte i is i modulo 251.
pub(crate) const EMPTY: Digest = [
    0x51, 0xb9, 0x12, 0x7f, 0x7b, 0xfd, 0xf4, 0x8d, 0x98, 0xdd, 0xea, 0x58, 0x3d, 0xb2, 0x68, 0x92,
    0x6f, 0x44, 0x08, 0xe4, 0x6c, 0xa9, 0x3b, 0xb9, 0xc5, 0xe5, 0xda, 0xb0, 0xbc, 0x60, 0xf1, 0x83,
];

pub(crate) const THREE: Digest = [
    0x6e, 0xf3, 0xfd, 0xeb, 0xb1, 0x6e, 0xa7, 0xa1, 0x17, 0x33, 0xc2, 0x8b, 0xcc, 0xc8, 0xb2, 0xd1,
    0x1a, 0x40, 0x1d, 0x9e, 0x39, 0x16, 0xe0, 0x26, 0x7c, 0x9f, 0x81, 0xed, 0xd3, 0x41, 0x36, 0x59,
];

const LONG: Digest = [
    0xaf, 0x12, 0x37, 0x62, 0xde, 0x6f, 0x41, 0x01, 0xef, 0x14, 0x79, 0x82, 0x40, 0x61, 0xb6, 0x3a,
    0x90, 0x03, 0x89, 0xeb, 0x82, 0x75, 0xd4, 0x2c, 0xe4, 0xaa, 0xe5, 0x6a, 0xc1, 0x63, 0x65, 0x73,
];

// Counts bytes.
#[derive(Drop)]
pub(crate) struct Count {
    pub(crate) bytes: u64,
}

impl Watch for Count {
    fn on_read(&mut self, bytes: u64) {
        self.bytes = self.bytes.saturating_add(bytes);
    }
}

// A reader that gives so many bytes at a time, is interrupted before each, and may fail at its end.
#[derive(Drop)]
struct Slow<'a> {
    left: &'a [u8],
    most: usize,
    is_ready: bool,
    fails: bool,
}

impl<'a> Read for Slow<'a> {
    fn read(&mut self, buf: &mut [u8]) -> io::Result<usize> {
        self.is_ready = !self.is_ready;
        if self.is_ready {
            return Err(io::Error::from(ErrorKind::Interrupted));
        }
        if self.left.is_empty() && self.fails {
            return Err(io::Error::from(ErrorKind::ConnectionReset));
        }
        let count = self.left.len().min(self.most).min(buf.len());
        let (now, later) = self.left.split_at(count);
        buf[..count].copy_from_slice(now);
        self.left = later;
        Ok(count)
    }
}

// What is said of bytes that come so many at a time, and how many were told.
fn told(bytes: &[u8], most: usize, fails: bool, digest: &Digest) -> (io::Result<Verdict>, u64) {
    let mut reader = Slow {
        left: bytes,
        most,
        is_ready: false,
        fails,
    };
    let mut count = Count { bytes: 0 };
    let mut buffer = [0; 7];
    let verdict = check_bytes(&mut reader, digest, &mut buffer, &mut count);
    (verdict, count.bytes)
}

// Bytes, their digest to be, and whether they have it.
static ROWS: [(&[u8], Digest, Verdict); 6] = [
    (b"", EMPTY, Verdict::Whole),
    (b"", THREE, Verdict::Damaged),
    (b"\x01\x02\x03", THREE, Verdict::Whole),
    (b"\x01\x02\x02", THREE, Verdict::Damaged),
    (b"\x01\x02", THREE, Verdict::Damaged),
    (b"\x01\x02\x03\x00", THREE, Verdict::Damaged),
];

#[test]
fn bytes_have_a_digest(rt: HostRuntime) {
    for (bytes, digest, wanted) in ROWS {
        for most in [1, 2, 9] {
            let (verdict, count) = told(bytes, most, false, &digest);
            assert!(rt; matches!(&verdict, Ok(found) if *found == wanted));
            assert_eq!(rt; count, bytes.len() as u64);
        }
    }
}

// A digest that differs in its last byte is another.
#[test]
fn the_last_byte_counts(rt: HostRuntime) {
    let mut digest = THREE;
    digest[31] ^= 1;
    let (verdict, _) = told(b"\x01\x02\x03", 2, false, &digest);
    assert!(rt; matches!(&verdict, Ok(Verdict::Damaged)));
}

// What fails in the middle, or at the end, is told as it is.
#[test]
fn errors_are_told(rt: HostRuntime) {
    let (verdict, count) = told(b"\x01\x02\x03", 2, true, &THREE);
    assert!(rt; matches!(&verdict, Err(error) if error.kind() == ErrorKind::ConnectionReset));
    assert_eq!(rt; count, 3);
}

// So many bytes, of which byte i is i modulo 251.
fn counted(alloc: Global, count: u32) -> Result<Vec<u8>, AllocError> {
    let mut bytes = Vec::new(alloc);
    for i in 0..count {
        bytes.push((i % 251) as u8)?;
    }
    Ok(bytes)
}

#[test]
fn many_bytes(rt: HostRuntime) -> Result<(), Fail> {
    let bytes = counted(rt.alloc(), 200_000)?;
    let mut buffer = vec![in rt.alloc(); 0u8; 65_536]?;
    let mut count = Count { bytes: 0 };
    let mut reader = bytes.as_slice();
    let verdict = check_bytes(&mut reader, &LONG, buffer.as_mut_slice(), &mut count)?;
    assert!(rt; verdict == Verdict::Whole && count.bytes == 200_000);
    Ok(())
}
