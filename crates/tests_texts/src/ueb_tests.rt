// An extension block from its fields, and where memory is refused. What texts are read as is in the
// rows of text_rows.

use std::alloc::Global;
use ueb::{Expect, MAX_LENGTH, Ueb, UebError};

// A block of a file of 56 bytes at 3 of 10, with hashes that can be read.
const GOOD: &str =
    "codec_name:3:crs,codec_params:7:57-3-10,crypttext_hash:32:abcdefghijklmnopqrstuvwxyz012345,cr\
        ypttext_root_hash:32:ABCDEFGHIJKLMNOPQRSTUVWXYZ012345,needed_shares:1:3,num_segments:1:1,s\
        egment_size:2:57,share_root_hash:32:0123456789abcdefghijklmnopqrstuv,size:2:56,tail_codec_\
        params:7:57-3-10,total_shares:2:10,";

const EXPECT: Expect = Expect {
    needed: 3,
    total: 10,
    size: 56,
};

fn is_written(alloc: Global, ueb: &Ueb, block: &[u8]) -> bool {
    match ueb.write(alloc) {
        Ok(text) => text.as_slice() == block,
        Err(_) => false,
    }
}

// The fields of the block of 56 bytes.
fn good() -> Ueb {
    Ueb::new(
        &EXPECT,
        57,
        *b"abcdefghijklmnopqrstuvwxyz012345",
        *b"ABCDEFGHIJKLMNOPQRSTUVWXYZ012345",
        *b"0123456789abcdefghijklmnopqrstuv",
    )
}

fn has_fields(ueb: &Ueb) -> bool {
    ueb.segment_size() == 57
        && ueb.num_segments() == 1
        && ueb.crypttext_hash() == b"abcdefghijklmnopqrstuvwxyz012345"
        && ueb.crypttext_root_hash() == b"ABCDEFGHIJKLMNOPQRSTUVWXYZ012345"
        && ueb.share_root_hash() == b"0123456789abcdefghijklmnopqrstuv"
}

#[test]
fn writes_what_is_read(rt: HostRuntime) {
    let ueb = good();
    assert!(rt; has_fields(&ueb) && is_written(rt.alloc(), &ueb, GOOD.as_bytes()));
    assert!(rt; Ueb::read(GOOD.as_bytes(), &EXPECT) == Ok(ueb));
}

#[test]
fn refused_memory_in_writing(rt: HostRuntime) {
    let is_right = match good().write(rt.alloc()) {
        Ok(text) => text.as_slice() == GOOD.as_bytes(),
        Err(fault) => fault == UebError::OutOfMemory,
    };
    assert!(rt; is_right);
}

#[test]
fn has_the_numbers_of_the_format(rt: HostRuntime) {
    assert!(rt; MAX_LENGTH == 4096);
    assert!(rt; UebError::OutOfMemory.number() == 1);
}
