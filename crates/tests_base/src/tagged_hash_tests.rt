// The hashes against values that Python's hashlib computed, and the keys and hashes of files
// against encodings that were computed apart from this code.

use aes_ctr::Aes128;
use std::test::Fail;
use tagged_hash::{
    KeyHasher, Tag, TaggedHasher, WaitingHasher, convergent_key, empty_leaf, hashed_eight, pair,
    storage_index, tagged, update_eight,
};

#[test]
fn hashes_under_each_tag(rt: HostRuntime) {
    let rows = [
        (Tag::StorageIndex, [0x09, 0x4b, 0x41, 0x03]),
        (Tag::Block, [0xfd, 0x3c, 0x23, 0x1e]),
        (Tag::ExtensionBlock, [0x02, 0x5d, 0x4a, 0x26]),
        (Tag::Ciphertext, [0xf8, 0xd0, 0x88, 0x4f]),
        (Tag::CiphertextSegment, [0x8c, 0xa3, 0xa9, 0x3e]),
        (Tag::TreeNode, [0x8c, 0x5b, 0x22, 0xcc]),
        (Tag::EmptyLeaf, [0x3a, 0x21, 0xe3, 0x92]),
        (Tag::WholeShare, [0x98, 0x36, 0xf5, 0xb9]),
    ];
    for (tag, start) in rows {
        let hash = tagged(tag, b"abc");
        assert!(rt; &hash[..4] == start.as_slice(), "{tag:?}");
    }
}

// The hash of 200 times the letter a under the tag of blocks, over several blocks of SHA-256.
const LETTERS: [u8; 32] = [
    0x70, 0x1c, 0x91, 0x79, 0xf7, 0xdd, 0x6f, 0xd7, 0x40, 0x07, 0xd8, 0xfb, 0x8b, 0x92, 0x85, 0x70,
    0x08, 0x89, 0x0e, 0x39, 0xeb, 0x47, 0xdd, 0x57, 0x2d, 0x2b, 0x62, 0x49, 0x9d, 0xba, 0x11, 0xed,
];

#[test]
fn pieces_make_one_message(rt: HostRuntime) {
    let message = [b'a'; 200];
    let mut hasher = TaggedHasher::new(Tag::Block);
    hasher.update(&message[..0]);
    hasher.update(&message[..1]);
    hasher.update(&message[1..65]);
    hasher.update(&message[65..]);
    assert!(rt; hasher.finish() == LETTERS);
}

// The same where the last letters wait, and are hashed beside what waits for seven others.
#[test]
fn what_waits_is_hashed_side_by_side(rt: HostRuntime) {
    let message = [b'a'; 200];
    let mut own = WaitingHasher::new(rt.alloc(), Tag::Block);
    own.update(&message[..65]);
    own.update(&message[65..]);
    let mut other = WaitingHasher::new(rt.alloc(), Tag::Block);
    other.update(b"b");
    let eight = hashed_eight(&[&other, &other, &own, &other, &other, &other, &other, &other]);
    let [_a, _b, third, fourth, _e, _f, _g, _h] = eight;
    assert!(rt; third.finish() == LETTERS);
    assert!(rt; fourth.finish() != LETTERS);
    assert!(rt; own.finish() == LETTERS);
}

// The same beside seven others, with a tag and pieces of its own.
#[test]
fn eight_take_their_own_pieces(rt: HostRuntime) {
    let message = [b'a'; 200];
    let other: &[u8] = b"abc";
    let mut hashers = [
        TaggedHasher::new(Tag::Ciphertext),
        TaggedHasher::new(Tag::Ciphertext),
        TaggedHasher::new(Tag::Block),
        TaggedHasher::new(Tag::WholeShare),
        TaggedHasher::new(Tag::WholeShare),
        TaggedHasher::new(Tag::WholeShare),
        TaggedHasher::new(Tag::WholeShare),
        TaggedHasher::new(Tag::WholeShare),
    ];
    let (start, rest) = (&message[..65], &message[65..]);
    let none: &[u8] = b"";
    update_eight(
        &mut hashers,
        &[other, other, start, other, other, other, other, other],
    );
    update_eight(
        &mut hashers,
        &[none, other, rest, none, none, none, none, none],
    );
    let [_a, _b, third, fourth, _e, _f, _g, _h] = hashers;
    assert!(rt; third.finish() == LETTERS);
    assert!(rt; fourth.finish() == tagged(Tag::WholeShare, b"abc"));
}

#[test]
fn hashes_a_node(rt: HostRuntime) {
    let node = [
        0xbf, 0x9a, 0xa8, 0xc4, 0x62, 0x57, 0xd4, 0x2f, 0x7a, 0x53, 0x26, 0xe5, 0x13, 0xdf, 0xb7,
        0xe6, 0xc4, 0x4b, 0xd4, 0xa0, 0x23, 0x23, 0x56, 0x90, 0xbf, 0x14, 0xa9, 0x34, 0x57, 0xa6,
        0x2f, 0xef,
    ];
    assert!(rt; pair(&[0; 32], &[0xff; 32]) == node);
}

#[test]
fn hashes_empty_leaves(rt: HostRuntime) {
    let first = [
        0xe0, 0x02, 0x47, 0x30, 0x18, 0x8e, 0x2d, 0xe5, 0x64, 0xa6, 0x97, 0xcc, 0x29, 0x87, 0x40,
        0x7b, 0x24, 0xae, 0x7e, 0xb6, 0xb8, 0x80, 0x19, 0x0c, 0x1a, 0x03, 0x37, 0xa5, 0x74, 0x0e,
        0x52, 0x7a,
    ];
    let last = [
        0xb7, 0x10, 0x7e, 0x78, 0xfa, 0x65, 0xf8, 0xd0, 0x40, 0x26, 0x2b, 0x36, 0x81, 0x1b, 0xc8,
        0xaa, 0x0b, 0x99, 0xcb, 0x6c, 0x6d, 0xc0, 0x2c, 0x01, 0x36, 0x5b, 0x61, 0xcd, 0xbd, 0x65,
        0xe0, 0x73,
    ];
    assert!(rt; empty_leaf(0) == first);
    assert!(rt; empty_leaf(u32::MAX) == last);
}

#[test]
fn keeps_the_secret_and_the_encoding_in_the_key(rt: HostRuntime) {
    let key = [
        0xdc, 0x07, 0x86, 0xb7, 0xb1, 0xcb, 0x60, 0xeb, 0x84, 0xa5, 0x60, 0x06, 0x1f, 0xa9, 0x47,
        0xfc,
    ];
    let mut hasher = KeyHasher::new(256, 256, 1_048_831, &[b's'; 64]);
    hasher.update(b"hel");
    hasher.update(b"lo");
    assert!(rt; hasher.finish() == key);
}

// Three files of one segment: 56 zero bytes as 1 of 1, and the bytes 0, 1, 2, .., counted modulo
// 251,
// 56 of them as 3 of 10 and 256 of them as 256 of 256.
#[test]
fn keys_and_hashes_of_files(rt: HostRuntime) -> Result<(), Fail> {
    let zeros = [0u8; 56];
    let mut counted = [0u8; 256];
    for i in 0..256 {
        counted[i] = (i % 251) as u8;
    }
    let rows = [
        (
            (1, 56, zeros.as_slice()),
            [
                0xad, 0xa9, 0x68, 0x3c, 0xf0, 0xf5, 0x67, 0x83, 0x80, 0xd1, 0x85, 0xb1, 0x00, 0x26,
                0x69, 0x74,
            ],
            [
                0xb6, 0xce, 0xce, 0xc4, 0x4c, 0xde, 0xcd, 0xad, 0xfe, 0xd4, 0x02, 0x12, 0x8a, 0x52,
                0x8f, 0xfc,
            ],
            [0x7d, 0xd8, 0xb6, 0x33, 0xc2, 0x04, 0xcc, 0xf0],
        ),
        (
            (3, 57, &counted[..56]),
            [
                0xe9, 0x23, 0x5a, 0x3d, 0x76, 0x4c, 0xe0, 0x5e, 0x88, 0x04, 0x53, 0x59, 0x12, 0x08,
                0xd9, 0xef,
            ],
            [
                0x0c, 0xe1, 0x38, 0x11, 0xd0, 0x48, 0x97, 0xb0, 0x12, 0x0a, 0x83, 0x28, 0x48, 0x19,
                0x26, 0x46,
            ],
            [0x20, 0xb7, 0x94, 0x4b, 0x80, 0x20, 0xc3, 0x21],
        ),
        (
            (256, 256, counted.as_slice()),
            [
                0xf3, 0xb2, 0x8d, 0x40, 0x0c, 0xa0, 0xf9, 0x0a, 0x77, 0x01, 0xe3, 0xee, 0xfb, 0x56,
                0xc6, 0xf4,
            ],
            [
                0xf0, 0x9f, 0xa3, 0x89, 0x24, 0x60, 0x4d, 0x12, 0x89, 0x82, 0xe9, 0xb3, 0x44, 0xc3,
                0x61, 0x55,
            ],
            [0xc7, 0x31, 0xf4, 0x8d, 0x6b, 0x88, 0x51, 0xf1],
        ),
    ];
    for ((k, segment_size, file), key, index, starts) in rows {
        let n = if k == 3 { 10 } else { k };
        assert!(rt;
            convergent_key(k, n, segment_size, b"", file) == key,
            "{k} of {n}"
        );
        assert!(rt; storage_index(&key) == index, "{k} of {n}");
        let mut text = file.to_vec(rt.alloc())?;
        Aes128::new(&key).xor_at(0, &mut text);
        let whole = tagged(Tag::Ciphertext, &text);
        assert!(rt; &whole[..4] == &starts[..4], "{k} of {n}");
        let segment = tagged(Tag::CiphertextSegment, &text);
        assert!(rt; &segment[..4] == &starts[4..], "{k} of {n}");
    }
    Ok(())
}
