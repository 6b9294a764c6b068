//! Parts of a source.

ghost use Rattle.std.specs.Prelude.{◌≡◌, ◌+◌, ◌<◌, ◌≤◌, ◌^◌, [], length, take, IfOk, IsErrOf, OnOk};
ghost use Rattle.sources.specs.Change.{HasEndedEarly};
ghost use Rattle.sources.specs.Source.{HasFailedMore, IsRead};

use crate::error::PartFault;
use crate::source::Source;

/// Reads the part from an offset on, as long as `out`: each byte once.
pub fn read_part<S: Source>(source: &mut S, offset: u64, out: &mut [u8]) -> Result<(), PartFault>
    requires { offset + length out.old < 2 ^ 64 }
    ensures ok { OnOk result (IsRead S.gives source.old offset out.new source.new) }
    ensures ended { IsErrOf result PartFault.Ended → HasEndedEarly S.gives source.old
        (offset + length out.old) source.new }
    ensures failed { IsErrOf result PartFault.Unreadable
        → HasFailedMore (S.failures source.old) (S.failures source.new) }
    ensures size { S.size source.new ≡ S.size source.old }
    ensures failures { OnOk result (S.failures source.new ≡ S.failures source.old) }
{
    let mut done = 0;
    while done < out.len() {
        match read_some(source, offset + done as u64, &mut out[done..]) {
            Ok(count) => done += count,
            Err(fault) => return Err(fault),
        }
    }
    Ok(())
}

// Reads some bytes of a part that is not empty: at least one.
fn read_some<S: Source>(source: &mut S, offset: u64, out: &mut [u8]) -> Result<usize, PartFault>
    requires { 0 < length out.old }
    ensures some { IfOk result (λ count. (0 < count) × (count ≤ length out.old)) }
    ensures gives { IfOk result
        (λ count. S.gives source.old offset (take count out.new) source.new) }
    ensures ended { IsErrOf result PartFault.Ended → S.gives source.old offset [] source.new }
    ensures failed { IsErrOf result PartFault.Unreadable
        → HasFailedMore (S.failures source.old) (S.failures source.new) }
    ensures size { S.size source.new ≡ S.size source.old }
    ensures failures { OnOk result (S.failures source.new ≡ S.failures source.old) }
{
    match source.read_at(offset, out) {
        Ok(0) => Err(PartFault::Ended),
        Ok(count) => Ok(count),
        Err(_) => Err(PartFault::Unreadable),
    }
}
