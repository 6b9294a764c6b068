//! A file is compared with a cap: its cap is made again.

ghost use Rattle.std.specs.Prelude.{◌≡◌, ◌≤◌, ◌<◌, IfErr, IfOk, length};
ghost use Rattle.cap_text.specs.declared.cap.Cap.TheVariants as caps;
ghost use Rattle.file_encoding.specs.Params.{parameters_of};
ghost use Rattle.sources.specs.Opened.{GivesOpened};
ghost use Rattle.tagged_hash.specs.ConvergentKey.{IsSecret};
ghost use Rattle.ueb.specs.Limits.{min_file_size};
ghost use Rattle.grid_surveys.specs.Verdicts.{Found, IsMade, IsOfBytes, IsOfSource, IsVerdict};
ghost use Rattle.grid_surveys.specs.Verdicts.{parameters_with};
ghost use Rattle.grid_surveys.specs.VerifyEnds.{IsWhyUnmade};

use crate::verdicts::Verdict;
use cap_text::{Cap, LitCap, MAX_LIT_SIZE, ReadCap, VerifyCap};
use file_encoding::Params;
use file_streaming::prepare;
use grid_faults::Fault;
use grid_rules::becoming::{fault_of_encoding, fault_of_preparing};
use grid_telling::{Progress, Verb};
use sources::{FileSource, Source};
use std::alloc::Global;
use std::io::{self, IsTerminal, Write};
use std::random::RandomSource;
use std::rt::{Clock, Files};
use user_files::{Input, open_input};

/// By what files are compared.
#[derive(Clone, Copy)]
pub(crate) struct Comparing<'a> {
    /// The secret under which they were put, of at most 64 bytes.
    pub secret: &'a [u8],
    /// The greatest segment with which they were put, in bytes.
    pub max_segment: u64,
    /// The folder in which a pipe is kept.
    pub temporary: &'a str,
}

/// Compares the file of a path with a cap, or for `-` what standard input has left. A file that has
/// not the size of the cap is not read. A fault of the file where it cannot be read, or changes as
/// it is read, and of its size where the numbers give no cap.
pub(crate) fn compare<R, E>(
    rt: &R,
    comparing: &Comparing<'_>,
    path: &str,
    cap: &Cap,
    progress: &mut Progress<'_, R, E>,
) -> Result<Verdict, Fault>
where
    R: Files + io::Input + Clock + RandomSource + AllocGlobal,
    E: Write + IsTerminal,
    requires { IsSecret comparing.now.secret.now }
    ensures { IfOk result (λ verdict. (found : Found R.File) × IsVerdict (GivesOpened
        R.File.stream_position R.File.stream_bytes R.File.remaining) comparing.now.secret.now
        comparing.now.max_segment cap.now found verdict) }
{
    match open_input(rt, path, comparing.temporary, MAX_LIT_SIZE as u64)? {
        Input::Held(bytes) => Ok(compare_bytes(&bytes, cap)),
        Input::Opened(file, size) => {
            let source = FileSource::new(file, size);
            compare_source(rt, comparing, source, cap, progress)
        }
    }
}

// Compares bytes that a cap may hold.
fn compare_bytes(bytes: &[u8], cap: &Cap) -> Verdict
    requires { length bytes.now < min_file_size }
    ensures { IsOfBytes bytes.now cap.now result }
{
    match cap {
        Cap::Lit(cap) => compare_literal(bytes, cap.data()),
        Cap::Chk(cap) => {
            know_size(cap);
            Verdict::OtherSize
        }
        Cap::Verify(cap) => {
            know_verify_size(cap);
            Verdict::OtherSize
        }
    }
}

// Compares bytes with those of a literal cap.
fn compare_literal(bytes: &[u8], file: &[u8]) -> Verdict
    ensures { IsOfBytes bytes.now (caps.Lit file.now) result }
{
    if bytes.len() != file.len() {
        return Verdict::OtherSize;
    }
    if bytes == file {
        Verdict::Same
    } else {
        Verdict::OtherBytes
    }
}

// Compares what a source has, which no cap holds.
fn compare_source<R, S, E>(
    rt: &R,
    comparing: &Comparing<'_>,
    source: S,
    cap: &Cap,
    progress: &mut Progress<'_, R, E>,
) -> Result<Verdict, Fault>
where
    R: Clock + AllocGlobal,
    S: Source + Drop,
    E: Write + IsTerminal,
    requires secret { IsSecret comparing.now.secret.now }
    requires not_small { min_file_size ≤ S.size source }
    ensures { IfOk result (IsOfSource S.gives (S.size source) source comparing.now.secret.now
        comparing.now.max_segment cap.now) }
{
    match cap {
        Cap::Chk(cap) => compare_read(rt, comparing, source, cap, progress),
        Cap::Verify(cap) => compare_verify(rt, comparing, source, cap, progress),
        Cap::Lit(cap) => {
            know_literal_size(cap);
            Ok(Verdict::OtherSize)
        }
    }
}

// Compares it with a read cap.
fn compare_read<R, S, E>(
    rt: &R,
    comparing: &Comparing<'_>,
    source: S,
    cap: &ReadCap,
    progress: &mut Progress<'_, R, E>,
) -> Result<Verdict, Fault>
where
    R: Clock + AllocGlobal,
    S: Source + Drop,
    E: Write + IsTerminal,
    requires secret { IsSecret comparing.now.secret.now }
    requires not_small { min_file_size ≤ S.size source }
    ensures { IfOk result (IsOfSource S.gives (S.size source) source comparing.now.secret.now
        comparing.now.max_segment (caps.Chk cap.now)) }
{
    if source.len() != cap.size() {
        return Ok(Verdict::OtherSize);
    }
    let (needed, total) = (cap.needed(), cap.total());
    let made = cap_by(rt, comparing, source, needed, total, progress)?;
    if made == *cap {
        Ok(Verdict::Same)
    } else {
        Ok(Verdict::OtherBytes)
    }
}

// Compares it with a verify cap.
fn compare_verify<R, S, E>(
    rt: &R,
    comparing: &Comparing<'_>,
    source: S,
    cap: &VerifyCap,
    progress: &mut Progress<'_, R, E>,
) -> Result<Verdict, Fault>
where
    R: Clock + AllocGlobal,
    S: Source + Drop,
    E: Write + IsTerminal,
    requires secret { IsSecret comparing.now.secret.now }
    requires not_small { min_file_size ≤ S.size source }
    ensures { IfOk result (IsOfSource S.gives (S.size source) source comparing.now.secret.now
        comparing.now.max_segment (caps.Verify cap.now)) }
{
    if source.len() != cap.size() {
        return Ok(Verdict::OtherSize);
    }
    let (needed, total) = (cap.needed(), cap.total());
    let made = cap_by(rt, comparing, source, needed, total, progress)?;
    if made.to_verify() == *cap {
        Ok(Verdict::Same)
    } else {
        Ok(Verdict::OtherBytes)
    }
}

// The cap that is made of a source by these numbers of shares.
fn cap_by<R, S, E>(
    rt: &R,
    comparing: &Comparing<'_>,
    source: S,
    needed: u16,
    total: u16,
    progress: &mut Progress<'_, R, E>,
) -> Result<ReadCap, Fault>
where
    R: Clock + AllocGlobal,
    S: Source + Drop,
    E: Write + IsTerminal,
    requires secret { IsSecret comparing.now.secret.now }
    requires not_small { min_file_size ≤ S.size source }
    ensures { IfOk result (λ cap. IsMade S.gives (S.size source) source comparing.now.secret.now
        (parameters_with needed total comparing.now.max_segment) (λ made. cap ≡ made)) }
{
    progress.encode(Verb::Verify, source.len());
    let params = numbers_of(needed, total, comparing.max_segment)?;
    cap_of(rt.alloc(), source, comparing.secret, &params)
}

// How a file is encoded. To make its cap no server is needed.
fn numbers_of(needed: u16, total: u16, max_segment: u64) -> Result<Params, Fault>
    ensures { IfOk result
        (λ params. parameters_of params ≡ parameters_with needed total max_segment) }
{
    let params = Params::new(u64::from(needed), 1, u64::from(total), max_segment);
    params.map_err(fault_of_encoding)
}

// The cap that is made of a source, which is read twice as a put reads it.
fn cap_of<S>(alloc: Global, mut source: S, secret: &[u8], params: &Params) -> Result<ReadCap, Fault>
where
    S: Source + Drop,
    requires secret { IsSecret secret.now }
    requires not_small { min_file_size ≤ S.size source }
    ensures made { IfOk result (λ cap. IsMade S.gives (S.size source) source secret.now
        (parameters_of params.now) (λ made. cap ≡ made)) }
    ensures refused { IfErr result (IsWhyUnmade S.gives S.failures (S.size source) source
        secret.now params.now) }
{
    match prepare(alloc, &mut source, secret, params) {
        Ok(prepared) => Ok(*prepared.cap()),
        Err(error) => Err(fault_of_preparing(error)),
    }
}

// A file with a read cap is not small.
fn know_size(cap: &ReadCap)
    ensures { min_file_size ≤ cap.now.size }
{
    let _size = cap.size();
}

// Nor is one with a verify cap.
fn know_verify_size(cap: &VerifyCap)
    ensures { min_file_size ≤ cap.now.size }
{
    let _size = cap.size();
}

// A file that its cap holds is.
fn know_literal_size(cap: &LitCap)
    ensures { length cap.now < min_file_size }
{
    let _data = cap.data();
}
