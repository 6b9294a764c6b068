// The ciphertext of a file of 300 bytes at two of three, in three segments of 100 bytes, from its
// shares and from their blocks.

ghost use Rattle.std.specs.Prelude.{◌≡◌, ◌∷◌, [], IfSome};

use aes_ctr::Aes128;
use cap_text::{Cap, ReadCap, VerifyCap};
use file_encoding::{Encoded, Params, ReadError, Share, encode_all, read_ciphertext, read_from};
use proved_parts::decode_segment;
use share_layout::Geometry;
use share_verify::read_share;
use std::alloc::Global;
use std::test::Fail;
use zfec_code::{Code, Decoder};

// The file, whose byte i is i modulo 251.
fn encoded(alloc: Global) -> Option<Encoded> {
    let mut file = vec![in alloc; 0u8; 300].ok()?;
    for (i, byte) in file.iter_mut().enumerate() {
        *byte = (i % 251) as u8;
    }
    let params = Params::new(2, 1, 3, 100).ok()?;
    encode_all(alloc, &file, b"", &params).ok()
}

// Whether this is the file.
fn is_file(text: &[u8]) -> bool {
    let mut is_right = text.len() == 300;
    for (i, byte) in text.iter().enumerate() {
        is_right &= *byte == (i % 251) as u8;
    }
    is_right
}

// The cap of the file and its shares.
fn whole(alloc: Global) -> Option<(ReadCap, Vec<Share>)> {
    let Encoded { cap, shares, .. } = encoded(alloc)?;
    let Cap::Chk(cap) = cap else {
        return None;
    };
    Some((cap, shares))
}

// The bytes of the share with this number; none, where there is no such share.
fn share(shares: &[Share], number: usize) -> &[u8] {
    match shares.get(number) {
        Some(share) => share.as_slice(),
        None => &[],
    }
}

// Whether these strings give the file's ciphertext; none, where memory is out.
fn gives(alloc: Global, cap: &ReadCap, strings: &[(u16, &[u8])]) -> Option<bool> {
    match read_ciphertext(alloc, &cap.to_verify(), strings) {
        Ok(mut text) => {
            if text.len() != 300 || is_file(&text) {
                return Some(false);
            }
            Aes128::new(cap.key()).xor_at(0, &mut text);
            Some(is_file(&text))
        }
        Err(ReadError::OutOfMemory) => None,
        Err(_) => Some(false),
    }
}

// Whether both readers refuse these strings so, or give a text where there is to be no refusal.
fn have_refusal(
    alloc: Global,
    cap: &ReadCap,
    strings: &[(u16, &[u8])],
    refusal: Option<ReadError>,
) -> bool {
    read_ciphertext(alloc, &cap.to_verify(), strings).err() == refusal
        && read_from(alloc, cap, strings).err() == refusal
}

#[test]
fn any_two_shares_give_the_ciphertext(rt: HostRuntime) {
    let Some((cap, shares)) = whole(rt.alloc()) else {
        assert!(rt; false);
        return;
    };
    for (first, second) in [(0u16, 1u16), (2, 0), (1, 2)] {
        let strings = [
            (first, share(&shares, usize::from(first))),
            (second, share(&shares, usize::from(second))),
        ];
        assert!(rt;
            gives(rt.alloc(), &cap, &strings) == Some(true),
            "{first}, {second}"
        );
    }
}

// Bad shares first, numbers that come again, and shares under other numbers.
#[test]
fn ciphertexts_have_the_refusals_of_files(rt: HostRuntime) {
    let alloc = rt.alloc();
    let Some((cap, shares)) = whole(alloc) else {
        assert!(rt; false);
        return;
    };
    let strings: [(u16, &[u8]); 6] = [
        (0, b"no share"),
        (0, share(&shares, 1)),
        (0, share(&shares, 0)),
        (0, share(&shares, 0)),
        (300, share(&shares, 2)),
        (2, share(&shares, 2)),
    ];
    let lacking = Some(ReadError::NotEnoughShares);
    assert!(rt; have_refusal(alloc, &cap, &[], lacking));
    assert!(rt; have_refusal(alloc, &cap, &strings[..5], lacking));
    assert!(rt; have_refusal(alloc, &cap, &strings, None));
    assert!(rt; gives(alloc, &cap, &strings) == Some(true));
}

// Whether shares 1 and 2 give the ciphertext; none, where memory is out.
fn comes_from_two(alloc: Global) -> Option<bool> {
    let (cap, shares) = whole(alloc)?;
    gives(
        alloc,
        &cap,
        &[(1, share(&shares, 1)), (2, share(&shares, 2))],
    )
}

#[test]
fn refused_memory_in_a_ciphertext(rt: HostRuntime) {
    assert!(rt; comes_from_two(rt.alloc()) != Some(false));
}

// The decoder of shares 1 and 2 of three.
fn decoder(alloc: Global, code: &Code) -> Option<Decoder>
    ensures { IfSome result (λ d. d ≡ 1 ∷ 2 ∷ []) }
{
    let numbers = vec![in alloc; 1u16, 2].ok()?;
    code.decoder(alloc, numbers).ok()
}

// Whether a segment comes from its blocks in shares 1 and 2, by the decoder and by the code.
fn decodes<'a>(
    alloc: Global,
    code: &Code,
    decoder: &Decoder,
    number: u32,
    blocks: (&'a [u8; 50], &'a [u8; 50]),
    segment: &[u8],
) -> bool
    requires { decoder.now ≡ 1 ∷ 2 ∷ [] }
{
    let Ok(geometry) = Geometry::of(300, 2, 3, 100) else {
        return false;
    };
    if number >= geometry.segment_count() {
        return false;
    }
    if geometry.block_length(number) != 50 {
        return false;
    }
    let mut out = [0u8; 100];
    let mut again = [0u8; 100];
    let (first, second) = blocks;
    let shares: [(u16, &[u8]); 2] = [(1, first), (2, second)];
    decode_segment(&geometry, decoder, number, &shares, &mut out) == 100
        && code.decode(alloc, &shares, &mut again).is_ok()
        && out.as_slice() == segment
        && again.as_slice() == segment
}

// The blocks of the share with this number; none, where it is not one of that cap's file.
fn blocks<'a>(cap: &VerifyCap, number: u16, share: &'a [u8]) -> &'a [u8] {
    let Ok(read) = read_share(cap, number, share) else {
        return &[];
    };
    let view = read.view;
    view.blocks
}

// The block that begins there.
fn block_in(blocks: &[u8], start: usize) -> Option<&[u8; 50]> {
    match blocks.get(start..)?.split_first_chunk::<50>() {
        Some((block, _)) => Some(block),
        None => None,
    }
}

// Whether one decoder gives each segment of a ciphertext.
fn decodes_all(alloc: Global, first: &[u8], second: &[u8], text: &[u8]) -> Option<bool> {
    let code = Code::new(alloc, 2, 3).ok()?;
    let decoder = decoder(alloc, &code)?;
    for number in 0..3u32 {
        let start = 50 * number as usize;
        let blocks = (block_in(first, start)?, block_in(second, start)?);
        let segment = text.get(2 * start..2 * start + 100)?;
        if !decodes(alloc, &code, &decoder, number, blocks, segment) {
            return Some(false);
        }
    }
    Some(true)
}

#[test]
fn one_decoder_serves_all_segments(rt: HostRuntime) {
    let Some((cap, shares)) = whole(rt.alloc()) else {
        assert!(rt; false);
        return;
    };
    let cap = cap.to_verify();
    let strings = [(0, share(&shares, 0)), (1, share(&shares, 1))];
    let Ok(text) = read_ciphertext(rt.alloc(), &cap, &strings) else {
        assert!(rt; false);
        return;
    };
    let first = blocks(&cap, 1, share(&shares, 1));
    let second = blocks(&cap, 2, share(&shares, 2));
    assert!(rt; decodes_all(rt.alloc(), first, second, &text) == Some(true));
}
