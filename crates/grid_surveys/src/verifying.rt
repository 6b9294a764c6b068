//! `grid verify`: whether files are those of their caps. No server is asked.

ghost use Rattle.std.specs.Prelude.{◌≡◌, ◌++◌, IfErr, IfOk, None, Some, codes, max};
ghost use Rattle.std.specs.Io.KnownBytes.{Appends};
ghost use Rattle.catalogues.specs.Heads.{fingerprint_of};
ghost use Rattle.grid_lists.specs.Statuses.{unread_status};
ghost use Rattle.grid_surveys.specs.Looks.{IsCutOff, IsLookUndone};
ghost use Rattle.grid_surveys.specs.Verdicts.{compared_text, verdict_status, verdict_word};
ghost use Rattle.grid_surveys.specs.Verdicts.{Found, IsVerdict};
ghost use Rattle.grid_surveys.specs.Verifies.{AreVerified, IsVerifyBy, IsVerifyDone, making_by};
ghost use Rattle.grid_surveys.specs.Verifies.{unfound_status};
ghost use Rattle.grid_surveys.specs.VerifyEnds.{CameOfChosen, CameTo, IsToldAs, counted_after};
ghost use Rattle.grid_surveys.specs.VerifyEnds.{making_of, status_with};
ghost use Rattle.sources.specs.Opened.{GivesOpened};
ghost use Rattle.tagged_hash.specs.ConvergentKey.{IsSecret};

use crate::comparing::{Comparing, compare};
use crate::making::{secret_for, segment_for};
use crate::verdicts::{Compared, NO_FILES, Verdict};
use cap_text::Cap;
use catalogues::{Catalogue, Line, chooses, name_below, named_line};
use grid_faults::Fault;
use grid_lists::{
    DONE, UNREAD, begin_entries, may_be_listed, path_in, path_of, read_text, tell_misnamed,
    tell_named, tell_refused, tell_unfound, tell_unread, text_of,
};
use grid_rules::read_cap;
use grid_shares::{Environment, Outcome};
use grid_telling::{Failure, Progress, print};
use grid_words::{VerifyFilesWords, VerifyWords};
use std::alloc::{AllocError, Global};
use std::io::{self, IsTerminal, Write};
use std::random::RandomSource;
use std::rt::{Clock, Files};

/// Compares the file of these words with their cap, and gives the line that tells whether it is the
/// cap's file, with status 0, or differs, with status 5. The cap is made again of the file, as
/// `put` makes it, by the numbers of the cap, and the segment size and the secret that the words,
/// the environment or a grid say.
///
/// Refuses a text that is no cap, a segment size outside its range, a secret that is too long, what
/// is no grid, and a file that cannot be read, or changes while it is read.
pub fn verify<R, E>(
    rt: &R,
    words: &VerifyWords<'_>,
    environment: &Environment<'_>,
    progress: &mut Progress<'_, R, E>,
) -> Result<Outcome, Fault>
where
    R: Files + io::Input + Clock + RandomSource + AllocGlobal + Clone + Drop,
    E: Write + IsTerminal,
    ensures { IfOk result (IsVerifyBy (GivesOpened R.File.stream_position R.File.stream_bytes
        R.File.remaining) environment.now.secret_file words.now) }
{
    let cap = read_cap(words.cap)?;
    let max_segment = segment_for(rt, words, progress)?;
    let secret = secret_for(rt, &words.secret, words.grid, environment, progress)?;
    let comparing = Comparing {
        secret: secret.as_slice(),
        max_segment,
        temporary: environment.temporary,
    };
    compare_one(rt, &comparing, words.file, &cap, progress)
}

// Compares a file with a cap, and gives the line that tells what it is.
fn compare_one<R, E>(
    rt: &R,
    comparing: &Comparing<'_>,
    path: &str,
    cap: &Cap,
    progress: &mut Progress<'_, R, E>,
) -> Result<Outcome, Fault>
where
    R: Files + io::Input + Clock + RandomSource + AllocGlobal,
    E: Write + IsTerminal,
    requires { IsSecret comparing.now.secret.now }
    ensures { IfOk result (λ outcome. (found : Found R.File) × (verdict : Verdict)
        × IsVerdict (GivesOpened R.File.stream_position R.File.stream_bytes R.File.remaining)
        comparing.now.secret.now comparing.now.max_segment cap.now found verdict
        × (outcome.text.items ≡ verdict_word verdict ++ codes "\n")
        × (outcome.status ≡ verdict_status verdict)) }
{
    let verdict = compare(rt, comparing, path, cap, progress)?;
    progress.clear();
    tell_why(rt.alloc(), path.as_bytes(), verdict, progress)?;
    Ok(outcome_of(rt.alloc(), verdict)?)
}

// Tells why a file differs, where notes are asked for.
fn tell_why<R, E>(
    alloc: Global,
    name: &[u8],
    verdict: Verdict,
    progress: &mut Progress<'_, R, E>,
) -> Result<(), AllocError>
where
    R: Clock + AllocGlobal,
    E: Write + IsTerminal,
{
    match verdict.reason() {
        Some(reason) if progress.is_verbose() => tell_named(alloc, name, reason, progress),
        _ => Ok(()),
    }
}

// The line of a file that is the only one.
fn outcome_of(alloc: Global, verdict: Verdict) -> Result<Outcome, AllocError>
    ensures text { IfOk result
        (λ outcome. outcome.text.items ≡ verdict_word verdict ++ codes "\n") }
    ensures status { IfOk result (λ outcome. outcome.status ≡ verdict_status verdict) }
{
    let mut text = Vec::from_slice(alloc, verdict.word().as_bytes())?;
    text.extend_from_slice(b"\n")?;
    Ok(Outcome {
        text,
        status: verdict.status(),
    })
}

// What the files of a catalogue are compared by.
#[derive(Clone, Copy)]
struct Verifying<'a> {
    words: &'a VerifyFilesWords<'a>,
    comparing: Comparing<'a>,
}

/// Compares the files of a catalogue that are chosen, one after the other, and gives the exit
/// status: the greatest of theirs. Each has a line, of the word that tells it and its name; the
/// last line tells how many there are. Segments have the size that the first line tells, and where
/// that tells another secret than the one at hand, no file is compared, and it is `BadParameters`.
/// What is no line of a catalogue is told by its number, and ends it. A file that is refused is
/// told, with its name, and the others go on. An `Err` that is not for want of memory or of an
/// output that failed wrote nothing.
pub fn verify_files<R, O, E>(
    rt: &R,
    words: &VerifyFilesWords<'_>,
    environment: &Environment<'_>,
    out: &mut O,
    progress: &mut Progress<'_, R, E>,
) -> Result<u8, Failure>
where
    R: Files + io::Input + Clock + RandomSource + AllocGlobal + Clone + Drop,
    O: Write,
    E: Write + IsTerminal,
    ensures done { IfOk result (λ status. IsVerifyDone (GivesOpened R.File.stream_position
        R.File.stream_bytes R.File.remaining) environment.now.secret_file words.now status
        (O.contents out.old) (O.contents out.new)) }
    ensures undone { IfErr result
        (λ failure. IsLookUndone failure (O.contents out.old) (O.contents out.new)) }
{
    let secret = secret_for(rt, &words.secret, words.grid, environment, progress)?;
    let text = read_text(rt, words.caps, environment.temporary)?;
    match Catalogue::open(&text) {
        Ok(catalogue) => {
            begin_entries(&text, progress);
            let temporary = environment.temporary;
            verify_under(rt, words, &secret, temporary, catalogue, out, progress)
        }
        Err(error) => {
            tell_unread(rt.alloc(), error, progress)?;
            Ok(UNREAD)
        }
    }
}

// Compares the files of a catalogue, if this is the secret under which it was put.
fn verify_under<R, O, E>(
    rt: &R,
    words: &VerifyFilesWords<'_>,
    secret: &[u8],
    temporary: &str,
    catalogue: Catalogue<'_>,
    out: &mut O,
    progress: &mut Progress<'_, R, E>,
) -> Result<u8, Failure>
where
    R: Files + io::Input + Clock + RandomSource + AllocGlobal + Clone + Drop,
    O: Write,
    E: Write + IsTerminal,
    requires { IsSecret secret.now }
    ensures fingerprint { IfOk result (λ _. catalogue.entry.head.fingerprint
        ≡ fingerprint_of catalogue.entry.head.numbers secret.now) }
    ensures done { IfOk result (λ status. AreVerified (GivesOpened R.File.stream_position
        R.File.stream_bytes R.File.remaining) words.now (making_by catalogue.entry.head secret.now)
        catalogue.entry.left status (O.contents out.old) (O.contents out.new)) }
    ensures undone { IfErr result
        (λ failure. IsLookUndone failure (O.contents out.old) (O.contents out.new)) }
{
    let head = *catalogue.head();
    if head.fingerprint != head.numbers.fingerprint(secret) {
        progress.tell(OTHER_SECRET);
        return Err(Failure::Fault(Fault::BadParameters));
    }
    let verifying = Verifying {
        words,
        comparing: Comparing {
            secret,
            max_segment: u64::from(head.numbers.segment_size),
            temporary,
        },
    };
    verify_lines(rt, &verifying, catalogue, out, progress)
}

const OTHER_SECRET: &str = "the files of the catalogue were put under another secret\n";

// Compares the files of the lines that are left.
fn verify_lines<R, O, E>(
    rt: &R,
    verifying: &Verifying<'_>,
    mut catalogue: Catalogue<'_>,
    out: &mut O,
    progress: &mut Progress<'_, R, E>,
) -> Result<u8, Failure>
where
    R: Files + io::Input + Clock + RandomSource + AllocGlobal + Clone + Drop,
    O: Write,
    E: Write + IsTerminal,
    requires { IsSecret verifying.now.comparing.secret.now }
    ensures done { IfOk result (λ status. AreVerified (GivesOpened R.File.stream_position
        R.File.stream_bytes R.File.remaining) verifying.now.words.now
        (making_of verifying.now.comparing) catalogue.entry.left status (O.contents out.old)
        (O.contents out.new)) }
    ensures undone { IfErr result IsCutOff }
{
    let mut tally = NONE_YET;
    loop {
        match catalogue.next_line() {
            Ok(Some(line)) => {
                let came = verify_line(rt, verifying, line, out, progress)?;
                tally = tally.after(came);
                progress.end_file();
            }
            Ok(None) => return end(rt.alloc(), verifying, tally, out, progress),
            Err(error) => {
                tell_unread(rt.alloc(), error, progress)?;
                let tally = tally.after_no_line();
                return end(rt.alloc(), verifying, tally, out, progress);
            }
        }
    }
}

/// What became of a file that was chosen: what it is found to be, if it was not refused.
#[derive(Clone, Copy)]
pub(crate) struct Came {
    pub verdict: Option<Verdict>,
    pub status: u8,
}

// The files so far: how many there are, and the greatest of their statuses.
#[derive(Clone, Copy)]
struct Tally {
    counts: Compared,
    status: u8,
}

const NONE_YET: Tally = Tally {
    counts: NO_FILES,
    status: DONE,
};

impl Tally {
    // With what became of one line more, if its file was chosen.
    fn after(self, came: Option<Came>) -> Tally
        ensures counts { result.counts ≡ counted_after self.counts came }
        ensures status { result.status ≡ status_with self.status came }
    {
        match came {
            Some(came) => Tally {
                counts: self.counts.counted(came.verdict),
                status: self.status.max(came.status),
            },
            None => self,
        }
    }

    // Where what follows is no line.
    fn after_no_line(self) -> Tally
        ensures counts { result.counts ≡ self.counts }
        ensures status { result.status ≡ max self.status unread_status }
    {
        Tally {
            counts: self.counts,
            status: self.status.max(UNREAD),
        }
    }
}

// Writes how many files there are, and gives the status behind all lines. Where names were asked
// for and no file was chosen, that is told.
fn end<R, O, E>(
    alloc: Global,
    verifying: &Verifying<'_>,
    tally: Tally,
    out: &mut O,
    progress: &mut Progress<'_, R, E>,
) -> Result<u8, Failure>
where
    R: Clock + AllocGlobal,
    O: Write,
    E: Write + IsTerminal,
    ensures status { IfOk result (λ status. status
        ≡ max tally.status (unfound_status verifying.now.words.now tally.counts)) }
    ensures written { IfOk result (λ _. Appends (O.contents out.old) (O.contents out.new)
        (compared_text tally.counts)) }
    ensures undone { IfErr result IsCutOff }
{
    let line = tally.counts.line(alloc)?;
    write(out, line.as_bytes())?;
    if verifying.words.names.is_empty() || tally.counts.files > 0 {
        return Ok(tally.status.max(DONE));
    }
    tell_unfound(progress);
    Ok(tally.status.max(UNREAD))
}

// Writes bytes of the result.
fn write<O: Write>(out: &mut O, bytes: &[u8]) -> Result<(), Failure>
    ensures written { IfOk result
        (λ _. Appends (O.contents out.old) (O.contents out.new) bytes.now) }
    ensures undone { IfErr result IsCutOff }
{
    match print(out, bytes) {
        Ok(()) => Ok(()),
        Err(_) => Err(Failure::Writer),
    }
}

// Compares the file of a line where its name is chosen, and gives what became of it then.
fn verify_line<R, O, E>(
    rt: &R,
    verifying: &Verifying<'_>,
    line: Line<'_>,
    out: &mut O,
    progress: &mut Progress<'_, R, E>,
) -> Result<Option<Came>, Failure>
where
    R: Files + io::Input + Clock + RandomSource + AllocGlobal + Clone + Drop,
    O: Write,
    E: Write + IsTerminal,
    requires { IsSecret verifying.now.comparing.secret.now }
    ensures came { IfOk result (CameTo (GivesOpened R.File.stream_position R.File.stream_bytes
        R.File.remaining) verifying.now.words.now (making_of verifying.now.comparing)
        line.entry.cap line.entry.name (O.contents out.old) (O.contents out.new)) }
    ensures undone { IfErr result IsCutOff }
{
    let Line { cap, name } = line;
    let name = name.to_vec(rt.alloc())?;
    if !chooses(rt.alloc(), verifying.words.names.as_slice(), &name)? {
        return Ok(None);
    }
    Ok(Some(verify_chosen(rt, verifying, &cap, &name, out, progress)?))
}

// Compares a file that is chosen, if its name leads to one below the folder of the words.
fn verify_chosen<R, O, E>(
    rt: &R,
    verifying: &Verifying<'_>,
    cap: &Cap,
    name: &[u8],
    out: &mut O,
    progress: &mut Progress<'_, R, E>,
) -> Result<Came, Failure>
where
    R: Files + io::Input + Clock + RandomSource + AllocGlobal + Clone + Drop,
    O: Write,
    E: Write + IsTerminal,
    requires { IsSecret verifying.now.comparing.secret.now }
    ensures came { IfOk result (CameOfChosen (GivesOpened R.File.stream_position
        R.File.stream_bytes R.File.remaining) verifying.now.words.now
        (making_of verifying.now.comparing) cap.now name.now (O.contents out.old)
        (O.contents out.new)) }
    ensures undone { IfErr result IsCutOff }
{
    let Some(folder) = verifying.words.into else {
        let path = path_of(rt.alloc(), name, false);
        let found = compare_at(rt, &verifying.comparing, path, cap, progress);
        return tell_found(rt.alloc(), found, name, out, progress);
    };
    match name_below(name) {
        Ok(rest) => {
            let path = path_below(rt.alloc(), folder, rest);
            let found = compare_at(rt, &verifying.comparing, path, cap, progress);
            tell_found(rt.alloc(), found, name, out, progress)
        }
        Err(error) => {
            tell_misnamed(rt.alloc(), name, error, progress)?;
            Ok(MISNAMED)
        }
    }
}

// What becomes of a name that leads to no file below a folder.
const MISNAMED: Came = Came {
    verdict: None,
    status: UNREAD,
};

// The path of a name below a folder.
fn path_below(alloc: Global, folder: &str, name: &[u8]) -> Result<String, Fault> {
    let name = text_of(alloc, name)?;
    Ok(path_in(alloc, folder, name)?)
}

// Compares the regular file of a path, if there is one, with a cap.
fn compare_at<R, E>(
    rt: &R,
    comparing: &Comparing<'_>,
    path: Result<String, Fault>,
    cap: &Cap,
    progress: &mut Progress<'_, R, E>,
) -> Result<Verdict, Fault>
where
    R: Files + io::Input + Clock + RandomSource + AllocGlobal,
    E: Write + IsTerminal,
    requires { IsSecret comparing.now.secret.now }
    ensures { IfOk result (λ verdict. (found : Found R.File) × IsVerdict (GivesOpened
        R.File.stream_position R.File.stream_bytes R.File.remaining) comparing.now.secret.now
        comparing.now.max_segment cap.now found verdict) }
{
    let path = path?;
    may_be_listed(rt, path.as_str())?;
    compare(rt, comparing, path.as_str(), cap, progress)
}

// Writes the line of a file that was compared, or tells why it was refused.
fn tell_found<R, O, E>(
    alloc: Global,
    found: Result<Verdict, Fault>,
    name: &[u8],
    out: &mut O,
    progress: &mut Progress<'_, R, E>,
) -> Result<Came, Failure>
where
    R: Clock + AllocGlobal,
    O: Write,
    E: Write + IsTerminal,
    ensures told { IfOk result (IsToldAs found name.now (O.contents out.old) (O.contents out.new)) }
    ensures undone { IfErr result IsCutOff }
{
    match found {
        Ok(verdict) => {
            tell_why(alloc, name, verdict, progress)?;
            let line = named_line(alloc, verdict.word().as_bytes(), name)?;
            write(out, &line)?;
            Ok(Came {
                verdict: Some(verdict),
                status: verdict.status(),
            })
        }
        Err(fault) => {
            tell_refused(alloc, name, &fault, progress)?;
            Ok(Came {
                verdict: None,
                status: fault.status(),
            })
        }
    }
}
