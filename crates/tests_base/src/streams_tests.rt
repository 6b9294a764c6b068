// Eight hashers side by side, against published digests, and against values that Python's hashlib
// computed: the first bytes of SHA-256 of all the digests one after another. Byte q of a text is
// q mod 251.

ghost use Rattle.std.specs.Prelude.{◌≡◌, ◌*◌, ◌<◌, ◌≤◌, length};

use crate::sha2_lanes_tests::text_of;
use sha2::{Digest, Sha256};
use sha2_lanes::{Sha256Stream, update_eight};
use std::test::Fail;

// The hashers of eight empty messages.
fn new_eight() -> [Sha256Stream; 8] {
    [
        Sha256Stream::new(),
        Sha256Stream::new(),
        Sha256Stream::new(),
        Sha256Stream::new(),
        Sha256Stream::new(),
        Sha256Stream::new(),
        Sha256Stream::new(),
        Sha256Stream::new(),
    ]
}

// The digests of eight messages.
fn finish_eight(streams: [Sha256Stream; 8]) -> [[u8; 32]; 8] {
    let [a, b, c, d, e, f, g, h] = streams;
    [
        a.finish(),
        b.finish(),
        c.finish(),
        d.finish(),
        e.finish(),
        f.finish(),
        g.finish(),
        h.finish(),
    ]
}

// Adds the bytes from `from` to `to` of the eight messages, `len` bytes each, that stand in a text.
fn add(streams: &mut [Sha256Stream; 8], text: &[u8], len: usize, from: usize, to: usize)
    requires small { len < 100_000 }
    requires whole { length text.now ≡ 8 * len }
    requires order { from ≤ to }
    requires within { to ≤ len }
{
    let messages = [
        &text[from..to],
        &text[len + from..len + to],
        &text[2 * len + from..2 * len + to],
        &text[3 * len + from..3 * len + to],
        &text[4 * len + from..4 * len + to],
        &text[5 * len + from..5 * len + to],
        &text[6 * len + from..6 * len + to],
        &text[7 * len + from..7 * len + to],
    ];
    update_eight(streams, &messages);
}

// The digests of the eight messages, cut at two positions.
fn cut_at(text: &[u8], len: usize, first: usize, second: usize) -> [[u8; 32]; 8]
    requires small { len < 100_000 }
    requires whole { length text.now ≡ 8 * len }
    requires order { first ≤ second }
    requires within { second ≤ len }
{
    let mut streams = new_eight();
    add(&mut streams, text, len, 0, first);
    add(&mut streams, text, len, first, second);
    add(&mut streams, text, len, second, len);
    finish_eight(streams)
}

// Lengths about those where the padding takes a block of its own, and that of a block at 3 of 10.
// The pieces end within a block, at its end and behind it.
#[test]
fn eight_streams_have_their_digests(rt: HostRuntime) -> Result<(), Fail> {
    let rows = [
        (0, 0, 0, [0xda, 0x49, 0x74, 0x40, 0x9d, 0xcf, 0xd7, 0x85]),
        (3, 1, 1, [0x35, 0xdd, 0x7d, 0x1b, 0xb3, 0x93, 0x14, 0x7a]),
        (56, 0, 55, [0x37, 0x3f, 0x21, 0x23, 0x60, 0xc8, 0x03, 0x7c]),
        (
            119,
            64,
            118,
            [0x8a, 0x82, 0x3b, 0x4a, 0xcc, 0x81, 0x49, 0xb6],
        ),
        (120, 1, 65, [0xac, 0x46, 0x77, 0x78, 0x19, 0xf5, 0xc6, 0x93]),
        (
            1_000,
            63,
            64,
            [0x77, 0x0d, 0xa9, 0x76, 0xe1, 0xe3, 0x18, 0x6c],
        ),
        (
            43_691,
            100,
            20_000,
            [0x24, 0x42, 0x6f, 0x5a, 0x93, 0xed, 0xc6, 0xe3],
        ),
    ];
    for &(len, first, second, start) in &rows {
        let text = text_of(rt.alloc(), 8 * len)?;
        let digests = cut_at(&text, len, first, second);
        let digest = Sha256::digest(digests.as_flattened());
        assert!(rt; &digest[..8] == start.as_slice(), "{len}");
    }
    Ok(())
}

// NIST's example to FIPS 180-4 of one block, beside seven other messages, whose pieces have other
// lengths.
#[test]
fn a_lane_has_the_published_digest(rt: HostRuntime) {
    let mut streams = new_eight();
    let text: &[u8] = b"xxabcyyyyy";
    let other = &text[..7];
    update_eight(
        &mut streams,
        &[other, other, &text[2..3], other, other, other, other, other],
    );
    update_eight(
        &mut streams,
        &[other, other, &text[3..5], other, other, other, other, other],
    );
    let digests = finish_eight(streams);
    let abc = [0xba, 0x78, 0x16, 0xbf, 0x8f, 0x01, 0xcf, 0xea];
    assert!(rt; &digests[2][..8] == abc.as_slice());
    assert!(rt; &digests[1][..8] != abc.as_slice());
    assert!(rt; &digests[3][..8] != abc.as_slice());
}
