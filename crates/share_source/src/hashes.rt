//! Hashes that stand in a share one after another.

ghost use Rattle.std.specs.Prelude.{◌≡◌, ◌*◌, ℕ, List, IfNone, IfOk, IfSome};
ghost use Rattle.std.specs.Prelude.{length};
ghost use Rattle.share_source.specs.Leaves.{hashes_in};
ghost use Rattle.share_source.specs.Reads.{WasRead};

use crate::bytes::ShareBytes;
use crate::leaf_reading::read_bytes;
use std::alloc::{AllocError, Global};

/// So many hashes of the share at a position, from an offset on. `None` where the read failed.
pub(crate) fn read_hashes<B: ShareBytes>(
    alloc: Global,
    bytes: &mut B,
    position: usize,
    offset: u64,
    count: u32,
) -> Result<Option<Vec<[u8; 32]>>, AllocError>
    ensures read { IfOk result (λ found. IfSome found (λ hashes.
        (text : List ℕ) × (length text ≡ count * 32)
        × B.gives bytes.old position offset text bytes.new
        × (hashes.items ≡ hashes_in text))) }
    ensures count { IfOk result (λ found. IfSome found (λ hashes. length hashes.items ≡ count)) }
    ensures none { IfOk result (λ found. IfNone found
        (B.fails bytes.old position offset (count * 32) bytes.new)) }
    ensures reads { WasRead B.gives B.fails bytes.old bytes.new }
{
    let Some(text) = read_bytes(alloc, bytes, position, offset, count as usize * 32)? else {
        return Ok(None);
    };
    let (hashes, _) = text.as_slice().as_chunks::<32>();
    Ok(Some(Vec::from_slice(alloc, hashes)?))
}
