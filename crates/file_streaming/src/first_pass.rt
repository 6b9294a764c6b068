// The first pass over a source: its key.

ghost use Rattle.std.specs.Prelude.{◌≡◌, ◌+◌, ◌<◌, ◌^◌, ℕ, List, [], length, IfOk, IsErrOf};
ghost use Rattle.std.specs.Prelude.{OnOk};
ghost use Rattle.tagged_hash.specs.TaggedHasher.{HoldsFile};
ghost use Rattle.sources.specs.Change.{HasEndedEarly};
ghost use Rattle.sources.specs.Source.{HasFailedMore};
ghost use Rattle.file_streaming.specs.KeyReading.{IsKeyRead};

use sources::{PartFault, Source, read_part};
use tagged_hash::KeyHasher;

/// The key of a source of so many bytes, by one pass over it. The hasher was given no file yet, and
/// the buffer has some bytes.
pub(crate) fn read_key<S: Source>(
    source: &mut S,
    size: u64,
    mut hasher: KeyHasher,
    buffer: &mut [u8],
) -> Result<[u8; 16], PartFault>
    requires some { 0 < length buffer.old }
    requires small { size < 2 ^ 63 }
    ensures key { (k n segment_size : ℕ) (secret : List ℕ)
        → HoldsFile hasher k n segment_size secret [] → IfOk result (λ key. IsKeyRead S.gives size
        source.old k n segment_size secret key source.new) }
    ensures ended { IsErrOf result PartFault.Ended
        → HasEndedEarly S.gives source.old size source.new }
    ensures failed { IsErrOf result PartFault.Unreadable
        → HasFailedMore (S.failures source.old) (S.failures source.new) }
    ensures size { S.size source.new ≡ S.size source.old }
    ensures failures { OnOk result (S.failures source.new ≡ S.failures source.old) }
{
    let mut done: u64 = 0;
    while done < size {
        let count = buffer.len().min((size - done) as usize);
        match read_part(source, done, &mut buffer[..count]) {
            Ok(()) => {}
            Err(fault) => return Err(fault),
        }
        hasher.update(&buffer[..count]);
        done += count as u64;
    }
    Ok(hasher.finish())
}
