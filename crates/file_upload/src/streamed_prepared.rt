//! A source that was read twice, made ready for its upload.

ghost use Rattle.std.specs.Prelude.{◌≡◌, ◌⊎◌, ◌≤◌, ◌<◌, IfErr, IfOk, IsErrOf};
ghost use Rattle.tagged_hash.specs.ConvergentKey.{IsSecret};
ghost use Rattle.ueb.specs.Limits.{max_file_size, min_file_size};
ghost use Rattle.file_encoding.specs.Params.{HasTooManySegments, IsEncodable, parameters_of};
ghost use Rattle.sources.specs.Source.{HasFailedMore};
ghost use Rattle.file_streaming.specs.Prepared.{IsPreparedFrom, PassesDiffer, key_for};
ghost use Rattle.file_upload.specs.Ready.{goal_of, ready_stream};

use crate::streamed::Streamed;
use file_encoding::Params;
use file_streaming::{PrepareError, prepare};
use sources::Source;
use std::alloc::{AllocError, Global};
use upload_core::ReadyUpload;
use upload_core::status::UploadGoal;
use wire::message::ShareLength;

/// Reads a source twice, as `file_streaming::prepare` does, and takes it over. The secret has at
/// most 64 bytes, and the source at least `ueb::MIN_FILE_SIZE`.
///
/// Refuses as that does, and lets the source go then.
pub fn prepare_stream<S: Source + Drop>(
    alloc: Global,
    mut source: S,
    secret: &[u8],
    params: &Params,
) -> Result<ReadyUpload<Streamed<S>>, PrepareError>
    requires secret { IsSecret secret.now }
    requires not_small { min_file_size ≤ S.size source }
    ensures prepared { IfOk result (λ ready. IsPreparedFrom S.gives (S.size source) source
        secret.now (parameters_of params.now) ready.pieces.kept ready.pieces.source) }
    ensures goal { IfOk result (λ ready. ready.goal ≡ goal_of ready.pieces.kept) }
    ensures happy { IfOk result (λ ready. ready.happy ≡ params.now.happy) }
    ensures fits { IfOk result (λ _. IsEncodable (S.size source) params.now) }
    ensures size { IfOk result (λ ready. S.size ready.pieces.source ≡ S.size source) }
    // When each refusal comes.
    ensures too_large { IsErrOf result PrepareError.TooLarge → max_file_size < S.size source }
    ensures too_many { IsErrOf result PrepareError.TooManySegments
        → HasTooManySegments (S.size source) params.now }
    ensures changed { IsErrOf result PrepareError.SourceChanged
        → (after : S) × PassesDiffer S.gives (S.size source) source
        (λ file. key_for file secret.now (parameters_of params.now)) after }
    ensures fault { IsErrOf result PrepareError.SourceFault
        → (after : S) × HasFailedMore (S.failures source) (S.failures after) }
    ensures refused { (IsEncodable (S.size source) params.now → ⊥) → IfErr result (λ e.
        (e ≡ PrepareError.TooLarge) ⊎ (e ≡ PrepareError.TooManySegments)) }
    // A file that has an encoding is not refused for its size.
    ensures memory { IsEncodable (S.size source) params.now → IfErr result (λ e.
        (e ≡ PrepareError.OutOfMemory) ⊎ (e ≡ PrepareError.SourceChanged)
        ⊎ (e ≡ PrepareError.SourceFault)) }
{
    let kept = prepare(alloc, &mut source, secret, params)?;
    let pieces = Streamed { source, kept };
    Ok(ready_stream(alloc, pieces, params.happy())?)
}

// The upload of what is kept, by its pieces.
fn ready_stream<S: Source + Drop>(
    alloc: Global,
    pieces: Streamed<S>,
    happy: u16,
) -> Result<ReadyUpload<Streamed<S>>, AllocError>
    ensures { IfOk result (λ ready. ready ≡ ready_stream pieces happy) }
{
    let kept = &pieces.kept;
    let digests = kept.digests().to_vec(alloc)?;
    let length = ShareLength::new(kept.share_length()).unwrap();
    let goal = UploadGoal::new(kept.cap().to_verify(), digests, length);
    Ok(ReadyUpload::new(pieces, goal, happy))
}
