//! Bytes that stand in a share.

ghost use Rattle.std.specs.Prelude.{◌≡◌, IfNone, IfOk, IfSome, length};
ghost use Rattle.share_source.specs.Reads.{WasRead};

use crate::bytes::ShareBytes;
use std::alloc::{AllocError, Global};

/// So many bytes of the share at a position, from an offset on. `None` where the read failed.
pub(crate) fn read_bytes<B: ShareBytes>(
    alloc: Global,
    bytes: &mut B,
    position: usize,
    offset: u64,
    count: usize,
) -> Result<Option<Vec<u8>>, AllocError>
    ensures read { IfOk result (λ found. IfSome found
        (λ text. B.gives bytes.old position offset text.items bytes.new)) }
    ensures long { IfOk result (λ found. IfSome found (λ text. length text.items ≡ count)) }
    ensures none { IfOk result (λ found. IfNone found
        (B.fails bytes.old position offset count bytes.new)) }
    ensures reads { WasRead B.gives B.fails bytes.old bytes.new }
{
    let mut text = vec![in alloc; 0u8; count]?;
    match bytes.read(position, offset, &mut text) {
        Ok(()) => Ok(Some(text)),
        Err(_) => Ok(None),
    }
}
