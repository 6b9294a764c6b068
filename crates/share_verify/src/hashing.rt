//! The first blocks of a text, whose hashes are kept in their place.

ghost use Rattle.std.specs.Prelude.{◌≡◌, ◌≤◌, ◌*◌, ◌<◌, OnErr, OnOk, drop, length};
ghost use Rattle.share_verify.specs.Hashing.{HashesMore};

use std::alloc::{AllocError, Global};
use tagged_hash::{Tag, tagged_pieces};

/// Takes the first blocks off a text, so many of `size` bytes each, and adds their hashes to those
/// of the blocks before them. Without memory nothing changes.
pub(crate) fn hash_first(
    alloc: Global,
    hashes: &mut Vec<[u8; 32]>,
    kept: &mut Vec<u8>,
    size: usize,
    count: usize,
) -> Result<(), AllocError>
    requires { count * size ≤ length kept.old.items }
    ensures ok { OnOk result (HashesMore size count hashes.old.items kept.old.items
        hashes.new.items kept.new.items) }
    ensures err_hashes { OnErr result (hashes.new.items ≡ hashes.old.items) }
    ensures err_kept { OnErr result (kept.new.items ≡ kept.old.items) }
{
    let mut more = vec![in alloc; [0u8; 32]; count]?;
    tagged_pieces(Tag::Block, kept, size, &mut more);
    hashes.extend_from_slice(&more)?;
    let_go(kept, count * size);
    Ok(())
}

// Lets the first bytes go. Takes no memory.
fn let_go(kept: &mut Vec<u8>, count: usize)
    requires { count ≤ length kept.old.items }
    ensures { kept.new.items ≡ drop count kept.old.items }
{
    drop(kept.drain(..count));
}
