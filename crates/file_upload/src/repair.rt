//! All shares of a file, made anew of good ones, and ready for their upload.

ghost use Rattle.std.specs.Prelude.{◌≡◌, ◌↔◌, map, IfOk, IsErrOf};
ghost use Rattle.file_encoding.specs.Decoded.{IsDecodedFrom};
ghost use Rattle.file_encoding.specs.Reading.{LacksShares};
ghost use Rattle.file_encoding.specs.Regenerated.{AreRegenerated, CannotRegenerate};
ghost use Rattle.file_encoding.specs.RemadeLaws.{ArePassing};
ghost use Rattle.file_upload.specs.Repair.{AreMadeOf};
ghost use Rattle.file_upload.specs.RepairError.{refusal_number};
ghost use Rattle.file_upload.specs.Shares.{MayWant};

use crate::shares::ready_remade;
use cap_text::VerifyCap;
use file_encoding::{DecodedFile, ReadError, Share, decode_shares, slices_of};
use std::alloc::{AllocError, Global};
use upload_core::ReadyUpload;
use upload_core::pieces::WholeShares;

/// Why a repair has nothing to upload.
#[derive(Clone, Copy, Debug, PartialEq, Eq)]
pub enum RepairError {
    /// No memory was left.
    OutOfMemory,
    /// The number of servers is outside its range.
    BadParameters,
    /// Fewer shares pass every check than are needed.
    NotEnoughShares,
    /// The shares pass, but they contradict one another, or are no code word of the file.
    Inconsistent,
}

impl RepairError {
    /// The number of the refusal.
    pub fn number(self) -> u8
        ensures { result ≡ refusal_number self }
    {
        match self {
            RepairError::OutOfMemory => 1,
            RepairError::BadParameters => 2,
            RepairError::NotEnoughShares => 71,
            RepairError::Inconsistent => 72,
        }
    }
}

impl From<AllocError> for RepairError {
    ghost use Rattle.file_upload.specs.declared.repair.RepairError.TheVariants.{OutOfMemory};

    ghost from_gives = { λ _ e. e ≡ OutOfMemory };

    fn from(_error: AllocError) -> RepairError {
        RepairError::OutOfMemory
    }
}

impl From<ReadError> for RepairError {
    ghost use Rattle.file_upload.specs.RepairError.{refusal_of_all};

    ghost from_gives = { λ error refusal. refusal ≡ refusal_of_all error };

    fn from(error: ReadError) -> RepairError {
        match error {
            ReadError::OutOfMemory => RepairError::OutOfMemory,
            ReadError::NotEnoughShares => RepairError::NotEnoughShares,
            ReadError::Inconsistent => RepairError::Inconsistent,
        }
    }
}

/// The upload of all shares of a verify cap's file, made anew without its key, of which `happy`
/// servers at least are to hold one of their own. Taken are those of the good shares that
/// `decode_shares` takes, each in the string that it is said to be. These are let go before the
/// others are made.
///
/// Refuses `BadParameters` exactly where `happy` is not from 1 to the number of shares. Then
/// `NotEnoughShares` where fewer pass than are needed, and `Inconsistent` where the shares that are
/// taken contradict one another, or the root over the shares that are made is not the one that the
/// extension block tells.
pub fn prepare_repair(
    alloc: Global,
    cap: &VerifyCap,
    happy: u16,
    good: Vec<(u16, Vec<u8>)>,
) -> Result<ReadyUpload<WholeShares>, RepairError>
    ensures made { IfOk result (AreMadeOf cap.now happy (map (λ s. s.0) good.items)
        (map (λ s. s.1.items) good.items)) }
    ensures may { IfOk result (λ _. MayWant cap.now happy) }
    // When each refusal comes.
    ensures bad { IsErrOf result RepairError.BadParameters ↔ ¬ (MayWant cap.now happy) }
    ensures not_enough { IsErrOf result RepairError.NotEnoughShares
        → LacksShares cap.now (map (λ s. s.0) good.items) (map (λ s. s.1.items) good.items) }
    ensures inconsistent { IsErrOf result RepairError.Inconsistent
        → CannotRegenerate cap.now (map (λ s. s.0) good.items) (map (λ s. s.1.items) good.items) }
{
    if happy == 0 || happy > cap.total() {
        return Err(RepairError::BadParameters);
    }
    let shares = remake(alloc, cap, good)?;
    Ok(ready_remade(alloc, *cap, happy, shares)?)
}

// All shares of a file. The good ones are let go before the others are made, and the file with them
// once they are.
fn remake(
    alloc: Global,
    cap: &VerifyCap,
    good: Vec<(u16, Vec<u8>)>,
) -> Result<Vec<Share>, ReadError>
    ensures made { IfOk result (λ shares. AreRegenerated cap.now (map (λ s. s.0) good.items)
        (map (λ s. s.1.items) good.items) shares.items) }
    ensures passing { IfOk result (λ shares. ArePassing cap.now shares.items) }
    ensures not_enough { IsErrOf result ReadError.NotEnoughShares
        → LacksShares cap.now (map (λ s. s.0) good.items) (map (λ s. s.1.items) good.items) }
    ensures inconsistent { IsErrOf result ReadError.Inconsistent
        → CannotRegenerate cap.now (map (λ s. s.0) good.items) (map (λ s. s.1.items) good.items) }
{
    let file = decode(alloc, cap, good)?;
    file.make_shares(alloc)
}

// The file that good shares give.
fn decode(
    alloc: Global,
    cap: &VerifyCap,
    good: Vec<(u16, Vec<u8>)>,
) -> Result<DecodedFile, ReadError>
    ensures decoded { IfOk result (IsDecodedFrom cap.now (map (λ s. s.0) good.items)
        (map (λ s. s.1.items) good.items)) }
    ensures not_enough { IsErrOf result ReadError.NotEnoughShares
        → LacksShares cap.now (map (λ s. s.0) good.items) (map (λ s. s.1.items) good.items) }
    ensures inconsistent { IsErrOf result ReadError.Inconsistent
        → CannotRegenerate cap.now (map (λ s. s.0) good.items) (map (λ s. s.1.items) good.items) }
{
    let given = slices_of(alloc, good.as_slice())?;
    decode_shares(alloc, cap, given.as_slice())
}
