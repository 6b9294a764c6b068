// SHA-256 by published values: NIST's examples to FIPS 180-4, of one block and of two, and the
// empty message of its test vectors. Beside them the tagged hashes, as SHA-256 applied twice to
// inputs written by hand.

use sha2::{Digest, Sha256};
use tagged_hash::{Tag, TaggedHasher, pair, tagged};

#[test]
fn gives_published_digests(rt: HostRuntime) {
    let rows: [(&str, [u8; 32]); 3] = [
        (
            "abc",
            [
                0xba, 0x78, 0x16, 0xbf, 0x8f, 0x01, 0xcf, 0xea, 0x41, 0x41, 0x40, 0xde, 0x5d, 0xae,
                0x22, 0x23, 0xb0, 0x03, 0x61, 0xa3, 0x96, 0x17, 0x7a, 0x9c, 0xb4, 0x10, 0xff, 0x61,
                0xf2, 0x00, 0x15, 0xad,
            ],
        ),
        (
            "",
            [
                0xe3, 0xb0, 0xc4, 0x42, 0x98, 0xfc, 0x1c, 0x14, 0x9a, 0xfb, 0xf4, 0xc8, 0x99, 0x6f,
                0xb9, 0x24, 0x27, 0xae, 0x41, 0xe4, 0x64, 0x9b, 0x93, 0x4c, 0xa4, 0x95, 0x99, 0x1b,
                0x78, 0x52, 0xb8, 0x55,
            ],
        ),
        (
            "abcdbcdecdefdefgefghfghighijhijkijkljklmklmnlmnomnopnopq",
            [
                0x24, 0x8d, 0x6a, 0x61, 0xd2, 0x06, 0x38, 0xb8, 0xe5, 0xc0, 0x26, 0x93, 0x0c, 0x3e,
                0x60, 0x39, 0xa3, 0x3c, 0xe4, 0x59, 0x64, 0xff, 0x21, 0x67, 0xf6, 0xec, 0xed, 0xd4,
                0x19, 0xdb, 0x06, 0xc1,
            ],
        ),
    ];
    for (message, digest) in rows {
        let bytes = message.as_bytes();
        assert!(rt; Sha256::digest(bytes) == digest, "{message}");
    }
}

// Given in pieces, as a hasher takes a message that comes so.
#[test]
fn pieces_have_the_published_digest(rt: HostRuntime) {
    let digest = [
        0x24, 0x8d, 0x6a, 0x61, 0xd2, 0x06, 0x38, 0xb8, 0xe5, 0xc0, 0x26, 0x93, 0x0c, 0x3e, 0x60,
        0x39, 0xa3, 0x3c, 0xe4, 0x59, 0x64, 0xff, 0x21, 0x67, 0xf6, 0xec, 0xed, 0xd4, 0x19, 0xdb,
        0x06, 0xc1,
    ];
    let message = b"abcdbcdecdefdefgefghfghighijhijkijkljklmklmnlmnomnopnopq";
    for cut in 0..=message.len() {
        let mut hasher = Sha256::new();
        hasher.update(&message[..cut]);
        hasher.update(&message[cut..]);
        assert!(rt; hasher.finalize() == digest, "{cut}");
    }
}

fn twice(input: &[u8]) -> [u8; 32] {
    Sha256::digest(Sha256::digest(input).as_slice())
}

#[test]
fn tags_are_netstrings_before_the_message(rt: HostRuntime) {
    let rows: [(Tag, &[u8]); 8] = [
        (
            Tag::StorageIndex,
            b"43:allmydata_immutable_key_to_storage_index_v1,abc",
        ),
        (Tag::Block, b"29:allmydata_encoded_subshare_v1,abc"),
        (Tag::ExtensionBlock, b"26:allmydata_uri_extension_v1,abc"),
        (Tag::Ciphertext, b"22:allmydata_crypttext_v1,abc"),
        (
            Tag::CiphertextSegment,
            b"30:allmydata_crypttext_segment_v1,abc",
        ),
        (Tag::TreeNode, b"25:Merkle tree internal node,abc"),
        (Tag::EmptyLeaf, b"22:Merkle tree empty leaf,abc"),
        (Tag::WholeShare, b"24:grid_core_whole_share_v1,abc"),
    ];
    for (tag, input) in rows {
        assert!(rt; tagged(tag, b"abc") == twice(input), "{tag:?}");
        let mut hasher = TaggedHasher::new(tag);
        hasher.update(b"a");
        hasher.update(b"bc");
        assert!(rt; hasher.finish() == twice(input), "{tag:?}");
    }
}

// The two children are letters, so that the whole input can be written out.
#[test]
fn a_node_is_the_netstrings_of_its_children(rt: HostRuntime) {
    let input =
        b"25:Merkle tree internal node,32:llllllllllllllllllllllllllllllll,32:rrrrrrrrrrrrrrrrrrrr\
            rrrrrrrrrrrr,";
    assert!(rt; pair(&[b'l'; 32], &[b'r'; 32]) == twice(input));
    assert!(rt; pair(&[b'l'; 32], &[b'r'; 32]) == tagged(Tag::TreeNode, &input[29..]));
}
