// Files, read back from shares.

ghost use Rattle.std.specs.Prelude.{◌≡◌, ◌⊎◌, map, IfOk, IsErrAnd, IsErrOf};
ghost use Rattle.cap_text.specs.Cap.{verify_cap_of};
ghost use Rattle.file_encoding.specs.Reading.{AreInconsistent, GivesCiphertext, IsReadFrom};
ghost use Rattle.file_encoding.specs.Reading.{LacksShares};
ghost use Rattle.file_encoding.specs.Refusals.{read_refusal_number};

use crate::decoded::decode_shares;
use crate::encoding::crypt;
use cap_text::{ReadCap, VerifyCap};
use std::alloc::{AllocError, AllocFailed, Global};

/// Why shares do not give their file.
#[derive(Clone, Copy, Debug, PartialEq, Eq)]
pub enum ReadError {
    /// No memory was left.
    OutOfMemory,
    /// Fewer shares pass every check than are needed.
    NotEnoughShares,
    /// The shares pass, but two of their extension blocks differ, or a segment that they decode to
    /// is not the one of its leaf.
    Inconsistent,
}

impl ReadError {
    /// The number of the refusal.
    pub fn number(self) -> u8
        ensures { result ≡ read_refusal_number self }
    {
        match self {
            ReadError::OutOfMemory => 1,
            ReadError::NotEnoughShares => 71,
            ReadError::Inconsistent => 72,
        }
    }
}

impl From<AllocError> for ReadError {
    ghost use Rattle.file_encoding.specs.declared.reading.ReadError.TheVariants.{OutOfMemory};

    ghost from_gives = { λ _ e. e ≡ OutOfMemory };

    fn from(_error: AllocError) -> ReadError {
        ReadError::OutOfMemory
    }
}

impl<T: Drop> From<AllocFailed<T>> for ReadError {
    ghost use Rattle.file_encoding.specs.declared.reading.ReadError.TheVariants.{OutOfMemory};

    ghost from_gives = { λ _ e. e ≡ OutOfMemory };

    fn from(_error: AllocFailed<T>) -> ReadError {
        ReadError::OutOfMemory
    }
}

/// The file of a cap, from shares that come with their numbers, each in the string that it is said
/// to be.
///
/// Taken are the lowest numbers that pass `verify_share`, as many as are needed, and of each the
/// first string that passes. Refuses `NotEnoughShares` exactly where fewer pass, and `Inconsistent`
/// where two of the strings that are taken differ in their extension blocks, or a segment that they
/// decode to has not the hash of its leaf in the ciphertext tree of the lowest.
pub fn read_from(
    alloc: Global,
    cap: &ReadCap,
    shares: &[(u16, &[u8])],
) -> Result<Vec<u8>, ReadError>
    ensures file { IfOk result (λ file. IsReadFrom cap.now (map (λ s. s.0) shares.now)
        (map (λ s. s.1.now) shares.now) file.items) }
    ensures not_enough { IsErrOf result ReadError.NotEnoughShares
        → LacksShares (verify_cap_of cap.now) (map (λ s. s.0) shares.now)
        (map (λ s. s.1.now) shares.now) }
    // Of too few shares nothing else comes, but where no memory is left.
    ensures lacking { LacksShares (verify_cap_of cap.now) (map (λ s. s.0) shares.now)
        (map (λ s. s.1.now) shares.now)
        → IsErrAnd result (λ e. (e ≡ ReadError.NotEnoughShares) ⊎ (e ≡ ReadError.OutOfMemory)) }
    ensures inconsistent { IsErrOf result ReadError.Inconsistent
        → AreInconsistent (verify_cap_of cap.now) (map (λ s. s.0) shares.now)
        (map (λ s. s.1.now) shares.now) }
{
    let verify_cap = cap.to_verify();
    let ciphertext = read_ciphertext(alloc, &verify_cap, shares)?;
    Ok(crypt(cap.key(), ciphertext))
}

/// The ciphertext of a verify cap's file, from the shares that `read_from` takes, with the same
/// refusals.
pub fn read_ciphertext(
    alloc: Global,
    cap: &VerifyCap,
    shares: &[(u16, &[u8])],
) -> Result<Vec<u8>, ReadError>
    ensures ciphertext { IfOk result (λ text. GivesCiphertext cap.now (map (λ s. s.0) shares.now)
        (map (λ s. s.1.now) shares.now) text.items) }
    ensures not_enough { IsErrOf result ReadError.NotEnoughShares
        → LacksShares cap.now (map (λ s. s.0) shares.now) (map (λ s. s.1.now) shares.now) }
    // Of too few shares nothing else comes, but where no memory is left.
    ensures lacking { LacksShares cap.now (map (λ s. s.0) shares.now)
        (map (λ s. s.1.now) shares.now)
        → IsErrAnd result (λ e. (e ≡ ReadError.NotEnoughShares) ⊎ (e ≡ ReadError.OutOfMemory)) }
    ensures inconsistent { IsErrOf result ReadError.Inconsistent
        → AreInconsistent cap.now (map (λ s. s.0) shares.now) (map (λ s. s.1.now) shares.now) }
{
    Ok(decode_shares(alloc, cap, shares)?.into_ciphertext())
}
