// Whole files, beside values that two programs computed which share no code with these crates: the
// caps, the lengths of the shares and the digests of the shares, in hexadecimal.

use cap_text::{Cap, CapError, ReadCap};
use file_encoding::{
    EncodeError, Encoded, Params, ReadError, Share, ShareFault, encode_all, read_ciphertext,
    read_from, verify_share,
};
use share_layout::{LayoutError, Section};
use std::alloc::{AllocError, Global};
use std::test::Fail;
use tagged_hash::{Tag, tagged};
use ueb::{Expect, Ueb};

// 56 zero bytes, at one share of one.
pub(crate) const ONE: [&str; 1] = [
    "4cc8ab46f4bdf5fc8a6d233f2503d94da8360f1307700643bef7c7028dd37e62",
];

// 56 bytes, at 3 of 10.
pub(crate) const THREE_OF_TEN: [&str; 10] = [
    "519a346b27a9da8425bc67721703fd1def6c14b5618c864c084b19b42eca2399",
    "6b3d01c16e6129e49f5c6374c160ddec4bc67b82ba819d8dc2f6c471d79ebb25",
    "e3c0826e1b9dd92ef8784f382ad40190599a4980e5c2598fa56d4a9f14bbe8c7",
    "9e308ce18c6a95808f5945ee598b0e41fec525a470015e12167601385373629b",
    "18d1448feebf16d76cd468c328ae6ef056a90ed6cd11a2c892ea78e43e6fcf1c",
    "6a550e2530257ff5a59d152b8ac5a7c1808a7c46c4abab2a9c3e28360de65223",
    "98896d6d7d580486c9d4912595837652047f2bd1c7b4c391a169de212dd79d28",
    "3b8a8de7dd2c60d48aef692fc96ba648beaad5ec801518a0960c0cefc89b2457",
    "aef20ce0aee230ebb520444a03bca8427672356da2069a682a74b96a8a31a3a3",
    "b089a8d28e277f89275db7b82e17d490a0d3ccea1cc2fe84a88ddaa1fe0dd51c",
];

// 131,074 bytes, at 3 of 10: two segments, of which the second has one byte.
pub(crate) const TWO_SEGMENTS: [&str; 10] = [
    "50e61baefcc8a98e79602f332f444cdff6fa67d5a3406db37aa712bdd5817fcb",
    "44e08a070d4999da1c24860efc2a43eee824d6e87b9b54ce41747963d4a13f58",
    "2edbf455a287ed65f9efd11b12b4cdf5fe59ec5125547db85508f96b29a78ad1",
    "5e7e21583c99777272dfa544d54d28107a35843b7d38e6238d5b019be026e092",
    "efdf1719b927c013fe040d3e662ff0d7a081818e4fc34e089fa9ba02381a02e1",
    "ac71057195c47e207d94fb8dd429cd574faef517c9143a67d36716a0242cc80c",
    "6e9cb0dabd1935d94da2aea3e55c66910d0250e0e75d7c0e7117f7302ffa72aa",
    "5d2062b4e8c589afe29e431da4048c684f423d660f64e563bbe9f8b414cd55ef",
    "0d183d9be514b1b93977bc791097694579988708661d7aa8e6a24fc69cca628d",
    "3a5205bc1405e0d911cc13c285e093a3eccc74991bd37b103a4608eff25d856a",
];

// 30,000 bytes, at 2 of 5 and 4,096 bytes a segment, with a secret.
pub(crate) const SMALL_SEGMENTS: [&str; 5] = [
    "e0947283fb887ac4fe0ef6763de259b6b585e950f8436238c0d1ea9f17a10228",
    "ea474314e6220c29a16998f373f14481fcdc7e5171920894f0cce2efa011fb1c",
    "67e27453a04eb48c2bcbaf14198be518357122f5451b35c17db45557f4a66aa7",
    "72252f79762b3e3e1c4b2657c173a34d46e6e8d067487e80ea7fa3de77192d11",
    "c5ec040006d5bad7a403d92759a818876845f393f14d59c68f02ff227227e8ef",
];

// 256 bytes, at 256 of 256: the digest of the digests of all shares, in their order.
const ALL_OF_256: &str = "a6373be1f5c84450486eb0e8d52d4ee9d0ec813cea1ee86513f7c9f60432a18b";

pub(crate) const NO_SECRET: &str = "";

/// A call was refused that has to succeed.
#[derive(Clone, Copy, Debug)]
pub(crate) struct Refused;

// What a call gives that has to succeed.
pub(crate) fn taken<T, E: Drop>(outcome: Result<T, E>) -> Result<T, Refused> {
    match outcome {
        Ok(value) => Ok(value),
        Err(_) => Err(Refused),
    }
}

pub(crate) const SEGMENT: u64 = 131_072;

// The bytes i modulo 251.
pub(crate) fn counted(alloc: Global, size: usize) -> Result<Vec<u8>, AllocError> {
    let mut bytes = Vec::with_capacity(alloc, size)?;
    for i in 0..size {
        bytes.push((i % 251) as u8)?;
    }
    Ok(bytes)
}

// Bytes in hexadecimal.
fn hexadecimal(alloc: Global, bytes: &[u8]) -> Result<String, AllocError> {
    let mut text = String::new(alloc);
    for byte in bytes {
        text.push_str(format!(in alloc; "{byte:02x}")?.as_str())?;
    }
    Ok(text)
}

// The file encoded at so many shares of so many.
pub(crate) fn encoded(
    alloc: Global,
    file: &[u8],
    secret: &str,
    needed: u64,
    total: u64,
    segment: u64,
) -> Result<Encoded, EncodeError> {
    let params = Params::new(needed, 1, total, segment)?;
    if secret.len() > 64 {
        return Err(EncodeError::BadParameters);
    }
    encode_all(alloc, file, secret.as_bytes(), &params)
}

// Whether the shares have this length and these digests, in their order.
pub(crate) fn have_digests(
    alloc: Global,
    shares: &[Share],
    len: usize,
    digests: &[&str],
) -> Result<bool, AllocError> {
    if shares.len() != digests.len() {
        return Ok(false);
    }
    for (share, digest) in shares.iter().zip(digests) {
        let told = hexadecimal(alloc, &tagged(Tag::WholeShare, share.as_slice()))?;
        if share.as_slice().len() != len || told.as_str() != *digest {
            return Ok(false);
        }
    }
    Ok(true)
}

// Whether digests are written as these texts, in their order.
fn are_written(alloc: Global, digests: &[[u8; 32]], texts: &[&str]) -> Result<bool, AllocError> {
    if digests.len() != texts.len() {
        return Ok(false);
    }
    for (digest, text) in digests.iter().zip(texts) {
        if hexadecimal(alloc, digest)?.as_str() != *text {
            return Ok(false);
        }
    }
    Ok(true)
}

// Whether a cap is written as this text.
fn is_written(alloc: Global, cap: &Cap, text: &str) -> Result<bool, AllocError> {
    Ok(format!(in alloc; "{cap}")?.as_str() == text)
}

const CAPS: [&str; 5] = [
    "URI:CHK:vwuwqphq6vtyhagrqwyqajtjoq:mulphu6sadrudv3w5tjchnmax5njyq74hibk3qaudszblkawpxgq:1:1:5\
        6",
    "URI:CHK:5ervuplwjtqf5caeknmrecgz54:24yuguv5na3h27x2i5w2i77yy5yujv6vcnbabzeljhzb4gaqqzyq:3:10:\
        56",
    "URI:CHK:x45opozjlsd45uhibsv2apw46e:upsh3wg4mj5hhojd7qv6ug2rqe7zphsxgbnniumsdns2twtt3vyq:3:10:\
        131074",
    "URI:CHK:7lybh5ouvumxd73pofyvmqwohi:tgutdhok27z7bf3fuj4wxdxubyrgszgkvscudrmudup63ucwbgcq:2:5:3\
        0000",
    "URI:CHK:6ozi2qamud4qu5yb4pxpwvwg6q:cybh7pnuhaymiyfoyrjqrpph4h5ifrdfnw5eqyv7pmgguelrnr7a:256:2\
        56:256",
];

// Whether a file whose byte i is i modulo 251 becomes this cap, and shares of this length with
// these digests.
fn becomes(
    alloc: Global,
    numbers: (usize, u64, u64, u64),
    secret: &str,
    cap: &str,
    len: usize,
    digests: &[&str],
) -> Result<bool, EncodeError> {
    let (size, needed, total, segment) = numbers;
    let file = counted(alloc, size)?;
    let e = encoded(alloc, &file, secret, needed, total, segment)?;
    Ok(
        is_written(alloc, &e.cap, cap)?
            && have_digests(alloc, &e.shares, len, digests)?
            && are_written(alloc, &e.digests, digests)?,
    )
}

#[test]
fn encodes_zeros_as_others_do(rt: HostRuntime) -> Result<(), Fail> {
    let alloc = rt.alloc();
    let e = taken(encoded(alloc, &[0; 56], NO_SECRET, 1, 1, SEGMENT))?;
    assert!(rt; is_written(alloc, &e.cap, CAPS[0])?);
    assert!(rt; have_digests(alloc, &e.shares, 531, &ONE)?);
    assert!(rt; are_written(alloc, &e.digests, &ONE)?);
    Ok(())
}

#[test]
fn encodes_files_as_others_do(rt: HostRuntime) -> Result<(), Fail> {
    let alloc = rt.alloc();
    let small = (56, 3, 10, SEGMENT);
    assert!(rt; taken(becomes(alloc, small, NO_SECRET, CAPS[1], 633, &THREE_OF_TEN))?);
    let two = (131_074, 3, 10, SEGMENT);
    assert!(rt; taken(becomes(alloc, two, NO_SECRET, CAPS[2], 44_510, &TWO_SEGMENTS))?);
    let many = (30_000, 2, 5, 4096);
    let secret = "friends of the grid";
    assert!(rt; taken(becomes(alloc, many, secret, CAPS[3], 16_930, &SMALL_SEGMENTS))?);
    Ok(())
}

// A file of eight segments, where memory may be refused.
#[test]
fn refused_memory_in_encoding(rt: HostRuntime) {
    let many = (30_000, 2, 5, 4096);
    let secret = "friends of the grid";
    let is_right = match becomes(rt.alloc(), many, secret, CAPS[3], 16_930, &SMALL_SEGMENTS) {
        Ok(is_right) => is_right,
        Err(error) => error == EncodeError::OutOfMemory,
    };
    assert!(rt; is_right);
}

// Whether a file of three segments comes from two of its three shares, or memory is refused.
fn reads_or_is_refused(alloc: Global) -> bool {
    let Ok(file) = counted(alloc, 300) else {
        return true;
    };
    let Ok(Encoded { cap, shares, .. }) = encoded(alloc, &file, NO_SECRET, 2, 3, 100) else {
        return true;
    };
    let Cap::Chk(cap) = cap else {
        return false;
    };
    let strings = [
        (2, up_to(&shares, 2, 10_000)),
        (1, up_to(&shares, 1, 10_000)),
    ];
    match read_from(alloc, &cap, &strings) {
        Ok(found) => found == file,
        Err(error) => error == ReadError::OutOfMemory,
    }
}

#[test]
fn refused_memory_in_reading(rt: HostRuntime) {
    assert!(rt; reads_or_is_refused(rt.alloc()));
}

// The digest of the digests of shares.
fn digest_of_digests(alloc: Global, shares: &[Share]) -> Result<String, AllocError> {
    let mut digests = Vec::new(alloc);
    for share in shares {
        digests.extend_from_slice(&tagged(Tag::WholeShare, share.as_slice()))?;
    }
    hexadecimal(alloc, &tagged(Tag::WholeShare, &digests))
}

#[test]
fn encodes_256_of_256_as_others_do(rt: HostRuntime) -> Result<(), Fail> {
    let alloc = rt.alloc();
    let file = counted(alloc, 256)?;
    let e = taken(encoded(alloc, &file, NO_SECRET, 256, 256, SEGMENT))?;
    assert!(rt; is_written(alloc, &e.cap, CAPS[4])?);
    assert!(rt; e.shares.len() == 256);
    assert!(rt; digest_of_digests(alloc, &e.shares)?.as_str() == ALL_OF_256);
    let told = tagged(Tag::WholeShare, e.digests.as_flattened());
    assert!(rt; hexadecimal(alloc, &told)?.as_str() == ALL_OF_256);
    Ok(())
}

// The header of each share of 56 bytes at 3 of 10.
const HEADER: &str = "000000010000001300000013000000240000003700000057000000770000009700000141";

// The shares of 56 bytes at 3 of 10, whose byte i is i modulo 251.
fn three_of_ten(alloc: Global) -> Result<Vec<Share>, EncodeError> {
    let file = counted(alloc, 56)?;
    let Encoded { shares, .. } = encoded(alloc, &file, NO_SECRET, 3, 10, SEGMENT)?;
    Ok(shares)
}

// The cap of that file.
fn three_of_ten_cap() -> Result<ReadCap, CapError> {
    let Cap::Chk(cap) = Cap::parse(CAPS[1].as_bytes())? else {
        return Err(CapError::UnknownKind);
    };
    Ok(cap)
}

#[test]
fn shares_begin_with_their_header(rt: HostRuntime) -> Result<(), Fail> {
    let shares = taken(three_of_ten(rt.alloc()))?;
    for share in &shares {
        let header = &share.as_slice()[..share.as_slice().len().min(36)];
        assert!(rt; hexadecimal(rt.alloc(), header)?.as_str() == HEADER);
    }
    Ok(())
}

// The first fault of the bytes as this share of that file.
fn fault_of(number: u16, share: &[u8]) -> Option<ShareFault> {
    verify_share(&three_of_ten_cap().ok()?.to_verify(), number, share).err()
}

// The section that lacks bytes, where a share of that file is cut to so many.
fn section_cut_at(len: usize) -> Section {
    match len {
        0..=35 => Section::Header,
        36..=54 => Section::Data,
        55..=86 => Section::Unused,
        87..=118 => Section::CiphertextTree,
        119..=150 => Section::BlockTree,
        151..=320 => Section::ShareHashes,
        _ => Section::Ueb,
    }
}

// A share that is cut short is not taken, and three good shares beside it give the file.
#[test]
fn a_short_share_is_passed_over(rt: HostRuntime) -> Result<(), Fail> {
    let alloc = rt.alloc();
    let file = counted(alloc, 56)?;
    let shares = taken(three_of_ten(alloc))?;
    for len in 0..633 {
        let fault = ShareFault::Layout(LayoutError::Truncated(section_cut_at(len)));
        assert!(rt; fault_of(1, up_to(&shares, 1, len)) == Some(fault), "{len}");
        assert!(rt; gives_with_three(alloc, &shares, len, &file), "{len}");
    }
    assert!(rt; fault_of(1, up_to(&shares, 1, 633)) == None);
    Ok(())
}

// The first bytes of the share with this number, or all where it has fewer.
fn up_to(shares: &[Share], number: usize, len: usize) -> &[u8] {
    match shares.get(number) {
        Some(share) => &share.as_slice()[..share.as_slice().len().min(len)],
        None => &[],
    }
}

// Whether the file comes from the first bytes of share 1 and from shares 3, 7 and 9, and not from
// the former and two of the latter.
fn gives_with_three(alloc: Global, shares: &[Share], len: usize, file: &[u8]) -> bool {
    let Ok(cap) = three_of_ten_cap() else {
        return false;
    };
    let strings = [
        (1, up_to(shares, 1, len)),
        (9, up_to(shares, 9, 633)),
        (3, up_to(shares, 3, 633)),
        (7, up_to(shares, 7, 633)),
    ];
    let two = read_from(alloc, &cap, &strings[..3]);
    is_refused(two, ReadError::NotEnoughShares)
        && read_from(alloc, &cap, &strings).is_ok_and(|found| found.as_slice() == file)
}

// Share 4 with the lowest bit of one byte changed.
#[test]
fn tells_the_section_of_a_changed_byte(rt: HostRuntime) -> Result<(), Fail> {
    let shares = taken(three_of_ten(rt.alloc()))?;
    let mut share = Vec::from_slice(rt.alloc(), up_to(&shares, 4, 633))?;
    let rows = [
        (0usize, ShareFault::Layout(LayoutError::BadVersion)),
        (36, ShareFault::Data),
        (55, ShareFault::Unused),
        (87, ShareFault::CiphertextTree),
        (119, ShareFault::ShareHashes),
        (151, ShareFault::Layout(LayoutError::BadShareHashes)),
        (153, ShareFault::ShareHashes),
        (325, ShareFault::OtherUeb),
    ];
    for (at, fault) in rows {
        flip(&mut share, at);
        assert!(rt; fault_of(4, &share) == Some(fault), "byte {at}");
        flip(&mut share, at);
    }
    assert!(rt; fault_of(4, &share) == None);
    assert!(rt; fault_of(5, &share).is_some());
    Ok(())
}

// Changes the lowest bit of a byte.
fn flip(bytes: &mut [u8], at: usize) {
    if at < bytes.len() {
        bytes[at] ^= 1;
    }
}

// Strings of equal number count once.
#[test]
fn equal_numbers_count_once(rt: HostRuntime) -> Result<(), Fail> {
    let alloc = rt.alloc();
    let shares = taken(three_of_ten(alloc))?;
    let Ok(cap) = three_of_ten_cap() else {
        assert!(rt; false);
        return Ok(());
    };
    let strings = [
        (4, up_to(&shares, 4, 633)),
        (4, up_to(&shares, 4, 633)),
        (5, up_to(&shares, 5, 633)),
    ];
    assert!(rt; is_refused(read_from(alloc, &cap, &strings), ReadError::NotEnoughShares));
    Ok(())
}

// Whether a file was refused for this.
fn is_refused(file: Result<Vec<u8>, ReadError>, wanted: ReadError) -> bool {
    match file {
        Ok(_) => false,
        Err(error) => error == wanted,
    }
}

// Appends a hash behind its node's number.
fn push_numbered(share: &mut Vec<u8>, number: u16, hash: &[u8; 32]) -> Result<(), AllocError> {
    share.extend_from_slice(&number.to_be_bytes())?;
    share.extend_from_slice(hash)
}

// A valid extension block over blocks that are no code word: at one of two both blocks would have
// to be the same.
fn share_of_two(
    alloc: Global,
    block: &[u8; 56],
    block_hashes: &[[u8; 32]; 2],
    number: usize,
    extension_block: &[u8],
) -> Result<Share, AllocError> {
    let mut share = Vec::new(alloc);
    for position in [1u32, 56, 56, 36, 92, 124, 156, 188, 256] {
        share.extend_from_slice(&position.to_be_bytes())?;
    }
    let segment_hash = tagged(Tag::CiphertextSegment, &[7; 56]);
    let own = &block_hashes[number % 2];
    let size = (extension_block.len() % 5000) as u32;
    share.extend_from_slice(block)?;
    share.extend_from_slice(&[0; 32])?;
    share.extend_from_slice(&segment_hash)?;
    share.extend_from_slice(own)?;
    push_numbered(&mut share, 1, &block_hashes[0])?;
    push_numbered(&mut share, 2, &block_hashes[1])?;
    share.extend_from_slice(&size.to_be_bytes())?;
    share.extend_from_slice(extension_block)?;
    Ok(Share::from_vec(share))
}

// The cap of a file whose two shares are no code word, though each passes, and the shares: the
// first gives the segment of the leaf, the second does not.
pub(crate) fn no_code_word(alloc: Global) -> Result<(ReadCap, Share, Share), Refused> {
    let hashes = [tagged(Tag::Block, &[7; 56]), tagged(Tag::Block, &[8; 56])];
    let root = tagged_hash::pair(&hashes[0], &hashes[1]);
    let segment = tagged(Tag::CiphertextSegment, &[7; 56]);
    let expect = Expect {
        needed: 1,
        total: 2,
        size: 56,
    };
    let block = taken(Ueb::new(&expect, 56, [1; 32], segment, root).write(alloc))?;
    let block_hash = tagged(Tag::ExtensionBlock, &block);
    let right = taken(share_of_two(alloc, &[7; 56], &hashes, 0, &block))?;
    let wrong = taken(share_of_two(alloc, &[8; 56], &hashes, 1, &block))?;
    match ReadCap::new([9; 16], block_hash, 1, 2, 56) {
        Ok(cap) => Ok((cap, right, wrong)),
        Err(_) => Err(Refused),
    }
}

#[test]
fn blocks_that_are_no_code_word_are_inconsistent(rt: HostRuntime) -> Result<(), Fail> {
    let alloc = rt.alloc();
    let (cap, right, wrong) = no_code_word(alloc)?;
    let both = [(0, right.as_slice()), (1, wrong.as_slice())];
    assert!(rt; taken(read_from(alloc, &cap, &both))?.len() == 56);
    assert!(rt; is_refused(read_from(alloc, &cap, &both[1..]), ReadError::Inconsistent));
    let text = read_ciphertext(alloc, &cap.to_verify(), &both[1..]);
    assert!(rt; is_refused(text, ReadError::Inconsistent));
    Ok(())
}
