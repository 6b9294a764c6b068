//! Files made ready, beside their whole encodings and caps that two other programs computed.

use cap_text::Cap;
use file_encoding::{Encoded, Params, encode_all};
use file_streaming::{PrepareError, Prepared, prepare};
use sources::{ChangingSource, FileSource, SliceSource, Source};
use std::alloc::{AllocError, Global};
use std::io;
use std::io::{ErrorKind, Read, Seek, SeekFrom};
use std::test::Fail;
use tagged_hash::share_digest;

// The bytes i modulo 251.
pub(crate) fn counted(alloc: Global, size: usize) -> Result<Vec<u8>, AllocError> {
    let mut bytes = Vec::with_capacity(alloc, size)?;
    for i in 0..size {
        bytes.push((i % 251) as u8)?;
    }
    Ok(bytes)
}

// Whether what is kept has the cap, the digests and the length of the shares of an encoding.
fn is_of(prepared: &Prepared, encoded: &Encoded) -> bool {
    if prepared.digests().len() != encoded.shares.len() {
        return false;
    }
    for (share, digest) in encoded.shares.iter().zip(prepared.digests()) {
        if share_digest(share.as_slice()) != *digest
            || share.as_slice().len() as u64 != prepared.share_length()
        {
            return false;
        }
    }
    matches!(&encoded.cap, Cap::Chk(cap) if cap == prepared.cap())
}

// Whether a file made ready has what its whole encoding has, and this cap.
fn becomes(
    alloc: Global,
    file: &[u8],
    secret: &[u8],
    numbers: (u64, u64, u64),
    cap: &str,
) -> Result<bool, AllocError> {
    let (needed, total, segment) = numbers;
    let params = match Params::new(needed, 1, total, segment) {
        Ok(params) => params,
        Err(_) => return Ok(false),
    };
    if secret.len() > 64 || file.len() < 56 {
        return Ok(false);
    }
    let Ok(encoded) = encode_all(alloc, file, secret, &params) else {
        return Ok(false);
    };
    let mut source = SliceSource::new(file);
    let Ok(prepared) = prepare(alloc, &mut source, secret, &params) else {
        return Ok(false);
    };
    let told = format!(in alloc; "{}", encoded.cap)?;
    Ok(is_of(&prepared, &encoded) && (cap.is_empty() || told.as_str() == cap))
}

#[test]
fn files_become_their_caps(rt: HostRuntime) -> Result<(), Fail> {
    let alloc = rt.alloc();
    assert!(rt;
        becomes(
            alloc,
            &[0; 56],
            b"",
            (1, 1, 131_072),
            "URI:CHK:vwuwqphq6vtyhagrqwyqajtjoq:mulphu6sadrudv3w5tjchnmax5njyq74hibk3qaudszblkawpx\
                gq:1:1:56"
        )?
    );
    assert!(rt;
        becomes(
            alloc,
            &counted(alloc, 56)?,
            b"",
            (3, 10, 131_072),
            "URI:CHK:5ervuplwjtqf5caeknmrecgz54:24yuguv5na3h27x2i5w2i77yy5yujv6vcnbabzeljhzb4gaqqz\
                yq:3:10:56"
        )?
    );
    assert!(rt;
        becomes(
            alloc,
            &counted(alloc, 131_074)?,
            b"",
            (3, 10, 131_072),
            "URI:CHK:x45opozjlsd45uhibsv2apw46e:upsh3wg4mj5hhojd7qv6ug2rqe7zphsxgbnniumsdns2twtt3v\
                yq:3:10:131074"
        )?
    );
    assert!(rt;
        becomes(
            alloc,
            &counted(alloc, 30_000)?,
            b"friends of the grid",
            (2, 5, 4096),
            "URI:CHK:7lybh5ouvumxd73pofyvmqwohi:tgutdhok27z7bf3fuj4wxdxubyrgszgkvscudrmudup63ucwbg\
                cq:2:5:30000"
        )?
    );
    assert!(rt;
        becomes(
            alloc,
            &counted(alloc, 256)?,
            b"",
            (256, 256, 131_072),
            "URI:CHK:6ozi2qamud4qu5yb4pxpwvwg6q:cybh7pnuhaymiyfoyrjqrpph4h5ifrdfnw5eqyv7pmgguelrnr\
                7a:256:256:256"
        )?
    );
    Ok(())
}

#[test]
fn any_geometry_is_prepared(rt: HostRuntime) -> Result<(), Fail> {
    let alloc = rt.alloc();
    for size in [56, 57, 63, 64, 100, 299, 300, 301] {
        let file = counted(alloc, size)?;
        assert!(rt; becomes(alloc, &file, b"s", (1, 1, 1), "")?);
        assert!(rt; becomes(alloc, &file, b"", (2, 3, 7), "")?);
        assert!(rt; becomes(alloc, &file, b"", (3, 10, 100), "")?);
        assert!(rt; becomes(alloc, &file, b"", (7, 9, 300), "")?);
    }
    Ok(())
}

// Eight shares are hashed side by side, and fewer one by one: groups that are full, and others.
#[test]
fn groups_of_shares_are_prepared(rt: HostRuntime) -> Result<(), Fail> {
    let alloc = rt.alloc();
    let file = counted(alloc, 130)?;
    for total in [7, 8, 9, 15, 16, 17, 24] {
        assert!(rt; becomes(alloc, &file, b"", (1, total, 64), "")?, "{total}");
        assert!(rt; becomes(alloc, &file, b"s", (5, total, 50), "")?, "{total}");
    }
    Ok(())
}

// Eight segments are gathered at a time: groups that are full, and others.
#[test]
fn groups_of_segments_are_prepared(rt: HostRuntime) -> Result<(), Fail> {
    let alloc = rt.alloc();
    for segments in [1, 7, 8, 9, 16, 17] {
        for more in [56, 57, 60] {
            let file = counted(alloc, (segments - 1) * 60 + more)?;
            assert!(rt; becomes(alloc, &file, b"", (1, 1, 60), "")?);
            assert!(rt; becomes(alloc, &file, b"", (3, 9, 60), "")?);
            assert!(rt; becomes(alloc, &file, b"s", (4, 17, 60), "")?);
        }
    }
    Ok(())
}

// Sources that change: the key of the second pass has to be that of the first.
#[test]
fn sources_that_change(rt: HostRuntime) -> Result<(), Fail> {
    let alloc = rt.alloc();
    let Ok(params) = Params::new(1, 1, 1, 131_072) else {
        return Err(Fail::from("numbers"));
    };
    for after in 0..113 {
        let file = vec![in alloc; 0u8; 56]?;
        let other = vec![in alloc; 255u8; 56]?;
        let mut source = ChangingSource::new(file, other, after);
        let outcome = prepare(alloc, &mut source, b"", &params);
        assert_eq!(rt; source.len(), 56);
        let is_right = match outcome {
            Ok(_) => after == 0 || after == 112,
            Err(error) => 0 < after && after < 112 && error == PrepareError::SourceChanged,
        };
        assert!(rt; is_right);
    }
    Ok(())
}

// A reader of zero bytes that has no more, or whose reads fail, after a number of reads.
#[derive(Drop)]
pub(crate) struct Halting {
    pub left: u64,
    pub fails: bool,
}

impl Read for Halting {
    fn read(&mut self, buf: &mut [u8]) -> io::Result<usize> {
        if self.left > 0 {
            self.left -= 1;
            buf.fill(0);
            return Ok(buf.len());
        }
        if self.fails {
            return Err(io::Error::from(ErrorKind::TimedOut));
        }
        Ok(0)
    }
}

impl Seek for Halting {
    fn seek(&mut self, to: SeekFrom) -> io::Result<u64> {
        match to {
            SeekFrom::Start(offset) => Ok(offset),
            _ => Err(io::Error::from(ErrorKind::NotSeekable)),
        }
    }
}

// Why a file of so many bytes is not made ready, where it is not, and how many of its reads failed.
fn refusal(alloc: Global, reader: Halting, size: u64, segment: u64) -> Option<(PrepareError, u64)> {
    let Ok(params) = Params::new(1, 1, 1, segment) else {
        return None;
    };
    if size < 56 {
        return None;
    }
    let mut source = FileSource::new(reader, size);
    match prepare(alloc, &mut source, b"", &params) {
        Ok(_) => None,
        Err(error) => Some((error, source.failures())),
    }
}

// Sizes that have no encoding: no read is tried, which would fail.
#[test]
fn sizes_are_refused_before_a_read(rt: HostRuntime) {
    let too_large = Some((PrepareError::TooLarge, 0));
    let too_many = Some((PrepareError::TooManySegments, 0));
    for (size, segment, expected) in [
        ((1 << 40) + 1, 1_048_576, too_large),
        ((1 << 40) + 1, 1, too_large),
        (1 << 40, 1_048_575, too_many),
        (1_048_577, 1, too_many),
    ] {
        let reader = Halting {
            left: 0,
            fails: true,
        };
        assert_eq!(rt; refusal(rt.alloc(), reader, size, segment), expected);
    }
}

// A source that ends early has changed, and one whose read fails has failed, in either pass.
#[test]
fn sources_that_end_or_fail(rt: HostRuntime) {
    for left in 0..2 {
        for (fails, expected) in [
            (false, (PrepareError::SourceChanged, 0)),
            (true, (PrepareError::SourceFault, 1)),
        ] {
            let reader = Halting { left, fails };
            assert_eq!(rt; refusal(rt.alloc(), reader, 56, 131_072), Some(expected));
        }
    }
}
