// Hashes side by side, against values that Python's hashlib computed: the first bytes of SHA-256 of
// all the hashes one after another. Beside them the digests of messages that come in pieces. Byte q
// of a text is q mod 251.

ghost use Rattle.std.specs.Prelude.{◌≡◌, ◌<◌, IfOk, vec_len};

use sha2::{Digest, Sha256};
use sha2_lanes::{Sha256Stream, double_sha256_of_eight};
use std::alloc::{AllocError, Global};
use std::test::Fail;
use tagged_hash::{Tag, tagged_pieces};

// SHA-256 of the hashes of eight messages of this length, which stand in a text.
fn eight_hashed(alloc: Global, len: usize) -> Result<[u8; 32], AllocError>
    requires { len < 100_000 }
{
    let text = text_of(alloc, 8 * len)?;
    let messages = [
        &text[..len],
        &text[len..2 * len],
        &text[2 * len..3 * len],
        &text[3 * len..4 * len],
        &text[4 * len..5 * len],
        &text[5 * len..6 * len],
        &text[6 * len..7 * len],
        &text[7 * len..8 * len],
    ];
    let hashes = double_sha256_of_eight(b"", &messages, len);
    Ok(Sha256::digest(hashes.as_flattened()))
}

// SHA-256 of the hashes of so many pieces of this size, of a text of this length.
fn pieces_hashed(
    alloc: Global,
    size: usize,
    count: usize,
    len: usize,
) -> Result<[u8; 32], AllocError> {
    let text = text_of(alloc, len)?;
    let mut hashes = vec![in alloc; [0u8; 32]; count]?;
    tagged_pieces(Tag::Block, &text, size, &mut hashes);
    Ok(Sha256::digest(hashes.as_flattened()))
}

pub(crate) fn text_of(alloc: Global, len: usize) -> Result<Vec<u8>, AllocError>
    ensures { IfOk result (λ text. vec_len text ≡ len) }
{
    let mut text = vec![in alloc; 0u8; len]?;
    for q in 0..len {
        text[q] = (q % 251) as u8;
    }
    Ok(text)
}

// Lengths about those where the padding takes a block of its own, with and without a whole block
// before it, and that of a block at 3 of 10.
#[test]
fn eight_messages_have_their_hashes(rt: HostRuntime) -> Result<(), Fail> {
    let rows = [
        (0, [0x49, 0xe2, 0xe1, 0x35, 0xfe, 0x32, 0xbd, 0x24]),
        (55, [0xf5, 0x29, 0xbd, 0x44, 0x3c, 0xc0, 0x5f, 0x67]),
        (56, [0x17, 0x93, 0x8c, 0xb9, 0xac, 0xe8, 0xed, 0xa0]),
        (63, [0xdc, 0x6f, 0xc6, 0x96, 0xb2, 0x20, 0x93, 0x6c]),
        (64, [0x06, 0x0f, 0xb8, 0x79, 0x59, 0xf9, 0x2f, 0xfa]),
        (119, [0x98, 0x92, 0x93, 0x4c, 0x27, 0xed, 0x6a, 0xbf]),
        (120, [0x79, 0xbf, 0xc8, 0x8a, 0x3c, 0xfd, 0x40, 0x87]),
        (43_691, [0x4b, 0xb3, 0xfa, 0xea, 0x6c, 0xba, 0x88, 0x71]),
    ];
    for &(len, start) in &rows {
        let digest = eight_hashed(rt.alloc(), len)?;
        assert!(rt; &digest[..8] == start.as_slice(), "{len}");
    }
    Ok(())
}

// Whole groups of eight, a group that is filled up, one that is too small for it, a shorter piece
// and pieces behind the text.
#[test]
fn pieces_have_their_hashes(rt: HostRuntime) -> Result<(), Fail> {
    let rows = [
        (
            100,
            21,
            1950,
            [0x4c, 0x8d, 0x17, 0x7a, 0xb7, 0x3a, 0x96, 0x3d],
        ),
        (0, 5, 10, [0xf6, 0x5a, 0x47, 0x07, 0x8f, 0xe1, 0x5b, 0xa8]),
        (64, 4, 300, [0x16, 0x2b, 0xd4, 0x38, 0xed, 0xcd, 0xe1, 0xe7]),
        (
            43_691,
            9,
            393_214,
            [0x01, 0x94, 0x13, 0xea, 0xea, 0xdd, 0x2f, 0x12],
        ),
    ];
    for &(size, count, len, start) in &rows {
        let digest = pieces_hashed(rt.alloc(), size, count, len)?;
        assert!(rt; &digest[..8] == start.as_slice(), "{size}");
    }
    Ok(())
}

// SHA-256 of a message that comes in pieces of this size.
fn streamed(message: &[u8], size: usize) -> [u8; 32]
    requires { 0 < size }
{
    let mut stream = Sha256Stream::new();
    for piece in message.chunks(size) {
        stream.update(piece);
    }
    stream.finish()
}

// NIST's examples to FIPS 180-4, of one block, of two and of 896 bits, and the empty message of its
// test vectors.
#[test]
fn a_stream_has_the_published_digests(rt: HostRuntime) {
    let rows = [
        ("", [0xe3, 0xb0, 0xc4, 0x42, 0x98, 0xfc, 0x1c, 0x14]),
        ("abc", [0xba, 0x78, 0x16, 0xbf, 0x8f, 0x01, 0xcf, 0xea]),
        (
            "abcdbcdecdefdefgefghfghighijhijkijkljklmklmnlmnomnopnopq",
            [0x24, 0x8d, 0x6a, 0x61, 0xd2, 0x06, 0x38, 0xb8],
        ),
        (
            "abcdefghbcdefghicdefghijdefghijkefghijklfghijklmghijklmn\
             hijklmnoijklmnopjklmnopqklmnopqrlmnopqrsmnopqrstnopqrstu",
            [0xcf, 0x5b, 0x16, 0xa7, 0x78, 0xaf, 0x83, 0x80],
        ),
    ];
    for &(message, start) in &rows {
        let digest = streamed(message.as_bytes(), 5);
        assert!(rt; &digest[..8] == start.as_slice(), "{message}");
    }
}

// Pieces that end anywhere in a group of eight blocks, that fill it, and that hold whole groups.
#[test]
fn pieces_of_a_stream_make_one_message(rt: HostRuntime) -> Result<(), Fail> {
    let text = text_of(rt.alloc(), 5_000)?;
    for size in [333, 1_100, 5_000] {
        let digest = streamed(&text, size);
        assert!(rt;
            digest[..8] == [0x69, 0xdb, 0xee, 0x89, 0x39, 0x09, 0xfa, 0x17],
            "{size}"
        );
    }
    Ok(())
}
