//! Parts of a text that is seen from an offset on.

ghost use Rattle.std.specs.Prelude.{◌≡◌, ◌+◌, ◌<◌, ◌^◌, length};
ghost use Rattle.block_making.specs.Making.{put_at};

/// Writes those bytes of a part that stands at an offset over the bytes from an offset on.
pub fn put_part(begin: u64, part: &[u8], offset: u64, out: &mut [u8])
    requires part { begin + length part.now < 2 ^ 64 }
    requires out { offset + length out.old < 2 ^ 64 }
    ensures { out.new ≡ put_at begin part.now offset out.old }
{
    let start = begin.max(offset);
    let end = (begin + part.len() as u64).min(offset + out.len() as u64);
    if start < end {
        let bytes = &part[(start - begin) as usize..(end - begin) as usize];
        out[(start - offset) as usize..(end - offset) as usize].copy_from_slice(bytes);
    }
}
