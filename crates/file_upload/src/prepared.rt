//! A file made ready for its upload. Once it is, the file's own bytes are not needed any more.

ghost use Rattle.std.specs.Prelude.{◌≡◌, ◌≤◌, ◌<◌, ◌⊎◌, length, IfOk, IfErr, IsErrOf};
ghost use Rattle.tagged_hash.specs.ConvergentKey.{IsSecret};
ghost use Rattle.ueb.specs.Limits.{max_file_size, min_file_size};
ghost use Rattle.file_encoding.specs.Params.{HasTooManySegments, IsEncodable};
ghost use Rattle.file_upload.specs.Prepared.{Prepared, prepared_of, upload_of};
ghost use Rattle.file_upload.specs.declared.prepared.FileUpload.TheVariants.{Literal, Shares};

use crate::shares::ready_shares;
use cap_text::{Cap, LitCap, ReadCap};
use file_encoding::{EncodeError, Encoded, Params, encode_all};
use std::alloc::Global;
use std::marker::Model;
use upload_core::ReadyUpload;
use upload_core::pieces::WholeShares;

/// A file that was made ready.
#[derive(Drop)]
pub enum FileUpload {
    /// A file of less than 56 bytes: its cap holds it, and there is nothing to upload.
    Literal(LitCap),
    Shares(PreparedUpload),
}

/// The upload of a file that was encoded, with its cap.
#[derive(Drop)]
pub struct PreparedUpload {
    cap: ReadCap,
    upload: ReadyUpload<WholeShares>,
}

impl Model for PreparedUpload {
    ghost use Rattle.std.specs.Prelude.{◌≡◌};
    ghost use Rattle.cap_text.specs.Cap.{verify_cap_of};
    ghost use Rattle.file_upload.specs.Prepared.{Prepared};
    ghost use Rattle.file_upload.specs.Shares.{shares_goal};

    ghost Value = { Prepared };

    ghost view = { λ p.
        record { cap = p.cap; happy = p.upload.happy; shares = p.upload.pieces } };

    ghost invariant = { λ p. p.upload.goal ≡ shares_goal (verify_cap_of p.cap) p.upload.pieces };
}

/// Encodes a file, with the digests of its shares. The secret has at most 64 bytes.
///
/// Refuses as `encode_all` does: `TooLarge` and `TooManySegments`, in this order, and
/// `OutOfMemory`.
pub fn prepare(
    alloc: Global,
    file: &[u8],
    secret: &[u8],
    params: &Params,
) -> Result<FileUpload, EncodeError>
    requires { IsSecret secret.now }
    ensures literal { length file.now < min_file_size
        → IfOk result (λ upload. upload ≡ Literal file.now) }
    ensures shares { min_file_size ≤ length file.now → IfOk result
        (λ upload. upload ≡ Shares (prepared_of file.now secret.now params.now)) }
    // When each refusal comes.
    ensures fits { min_file_size ≤ length file.now → IfOk result
        (λ _. IsEncodable (length file.now) params.now) }
    ensures too_large { IsErrOf result EncodeError.TooLarge → max_file_size < length file.now }
    ensures too_many { IsErrOf result EncodeError.TooManySegments
        → HasTooManySegments (length file.now) params.now }
    ensures no_other { IfErr result (λ e. (e ≡ EncodeError.OutOfMemory)
        ⊎ (e ≡ EncodeError.TooLarge) ⊎ (e ≡ EncodeError.TooManySegments)) }
    ensures memory { IsEncodable (length file.now) params.now
        → IfErr result (λ e. e ≡ EncodeError.OutOfMemory) }
{
    let Encoded {
        cap,
        shares,
        digests,
    } = encode_all(alloc, file, secret, params)?;
    match cap {
        Cap::Chk(cap) => {
            let happy = params.happy();
            let upload = ready_shares(alloc, cap.to_verify(), happy, shares, digests)?;
            Ok(FileUpload::Shares(PreparedUpload { cap, upload }))
        }
        Cap::Lit(cap) => Ok(FileUpload::Literal(cap)),
        Cap::Verify(_) => unreachable!(),
    }
}

impl PreparedUpload {
    /// The file's read cap.
    pub fn cap(&self) -> &ReadCap
        ensures { result.now ≡ self.now.cap }
    {
        &self.cap
    }

    /// The upload of its shares, ready to begin.
    pub fn into_upload(self) -> ReadyUpload<WholeShares>
        ensures { result ≡ upload_of self }
    {
        self.upload
    }
}
