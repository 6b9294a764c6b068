//! `grid check`: a verdict on each share of a cap's file that the servers of a grid offer.

ghost use Rattle.std.specs.Prelude.{◌≡◌, IfOk, IfSome, is_some, nat_eq};
ghost use Rattle.std.specs.List.{IsDistinct};
ghost use Rattle.std.specs.String.{string_bytes};
ghost use Rattle.grid_rules.specs.ReportLines.{report_status};
ghost use Rattle.grid_servers.specs.Grids.{grid_calls};
ghost use Rattle.grid_repairs.specs.Checks.{AreCheckedTo, IsCheckBy, IsCheckedAt, IsCheckedBy};
ghost use Rattle.grid_repairs.specs.Checks.{IsCheckedFile, WereChecked, check_text, literal_text};
ghost use Rattle.grid_repairs.specs.Checks.{verify_of};

use crate::DONE;
use crate::standing::{OpenGrid, Place};
use cap_text::{Cap, VerifyCap};
use checker::status::Report;
use grid_faults::Fault;
use grid_rules::{missing_shares, read_cap, report_json, report_lines, report_status};
use grid_shares::{Environment, Outcome};
use grid_telling::{Progress, Verb, note_blame};
use grid_words::CheckWords;
use share_reading::Verdict;
use std::alloc::Global;
use std::io::{IsTerminal, Write};
use std::net::Net;
use std::random::RandomSource;
use std::rt::{Clock, Files};

// What is told of a cap that holds its file, to people.
const LITERAL: &[u8] = b"literal\n";

// And to programs.
const LITERAL_JSON: &[u8] = b"{\"literal\":true}\n";

/// What is found of the shares of a cap's file, and the exit status: that of too few shares where
/// the file cannot be recovered. A cap that holds its file has no shares.
pub fn check<R, E>(
    rt: &R,
    words: &CheckWords<'_>,
    environment: &Environment<'_>,
    progress: &mut Progress<'_, R, E>,
) -> Result<Outcome, Fault>
where
    R: Files + Net + Clock + RandomSource + AllocGlobal + Clone + Drop,
    E: Write + IsTerminal,
    ensures { IfOk result (IsCheckBy (grid_calls R.Stream.contents R.Stream.remaining) words.now) }
{
    let Some(cap) = verify_cap(&read_cap(words.cap)?) else {
        return literal_outcome(rt.alloc(), words.json);
    };
    let place = Place {
        grid: words.grid,
        over_sockets: words.net,
        is_known: words.known || environment.known,
    };
    let total = cap.total();
    let mut kept = None;
    let report = check_shares(rt, &place, cap, &mut kept, progress)?;
    told_outcome(rt.alloc(), words, &report, total)
}

// What is told of a report, and the exit status.
fn told_outcome(
    alloc: Global,
    words: &CheckWords<'_>,
    report: &Report,
    total: u16,
) -> Result<Outcome, Fault>
    ensures told { IfOk result
        (λ outcome. outcome.text.items ≡ check_text report.now total words.now.json) }
    ensures status { IfOk result
        (λ outcome. outcome.status ≡ report_status report.now words.now.strict) }
{
    Ok(Outcome {
        text: text_of(alloc, words.json, report, total)?.into_bytes(),
        status: report_status(report, words.strict),
    })
}

/// What a check finds of the shares of one file among others: none where its cap holds the file.
/// The servers are those that are kept, or else those of this place, which are opened. They are
/// kept where none of them fell silent; after a fault none are.
pub fn check_file<R, E>(
    rt: &R,
    place: &Place<'_>,
    cap: &Cap,
    kept: &mut Option<OpenGrid<R>>,
    progress: &mut Progress<'_, R, E>,
) -> Result<Option<Report>, Fault>
where
    R: Files + Net + Clock + RandomSource + AllocGlobal + Clone + Drop,
    E: Write + IsTerminal,
    requires { IfSome kept.old
        (WereChecked (grid_calls R.Stream.contents R.Stream.remaining) place.now.grid.now) }
    ensures found { IfOk result (IsCheckedFile
        (grid_calls R.Stream.contents R.Stream.remaining) place.now.grid.now (is_some kept.old)
        (verify_of cap.now)) }
    ensures kept { IfSome kept.new
        (WereChecked (grid_calls R.Stream.contents R.Stream.remaining) place.now.grid.now) }
{
    match verify_cap(cap) {
        Some(cap) => Ok(Some(check_shares(rt, place, cap, kept, progress)?)),
        None => Ok(None),
    }
}

// What a check finds of the shares of a cap's file.
fn check_shares<R, E>(
    rt: &R,
    place: &Place<'_>,
    cap: VerifyCap,
    kept: &mut Option<OpenGrid<R>>,
    progress: &mut Progress<'_, R, E>,
) -> Result<Report, Fault>
where
    R: Files + Net + Clock + RandomSource + AllocGlobal + Clone + Drop,
    E: Write + IsTerminal,
    requires { IfSome kept.old
        (WereChecked (grid_calls R.Stream.contents R.Stream.remaining) place.now.grid.now) }
    ensures found { IfOk result (IsCheckedBy (grid_calls R.Stream.contents R.Stream.remaining)
        place.now.grid.now (is_some kept.old) cap) }
    ensures kept { IfSome kept.new
        (WereChecked (grid_calls R.Stream.contents R.Stream.remaining) place.now.grid.now) }
{
    let mut open = OpenGrid::take(rt, place, kept)?;
    let report = find_shares(rt, place, cap, &mut open, progress)?;
    *kept = open.still_speaking();
    Ok(report)
}

/// What is told of a cap that holds its file.
pub(crate) fn literal_outcome(alloc: Global, json: bool) -> Result<Outcome, Fault>
    ensures { IfOk result
        (λ outcome. (outcome.text.items ≡ literal_text json) × (outcome.status ≡ 0)) }
{
    let text = if json { LITERAL_JSON } else { LITERAL };
    Ok(Outcome {
        text: Vec::from_slice(alloc, text)?,
        status: DONE,
    })
}

/// The verify cap of a cap; none of one that holds its file.
pub(crate) fn verify_cap(cap: &Cap) -> Option<VerifyCap>
    ensures { result ≡ verify_of cap.now }
{
    match cap {
        Cap::Chk(cap) => Some(cap.to_verify()),
        Cap::Verify(cap) => Some(*cap),
        Cap::Lit(_) => None,
    }
}

// What is told of a report.
fn text_of(alloc: Global, json: bool, report: &Report, total: u16) -> Result<String, Fault>
    ensures { IfOk result (λ text. string_bytes text ≡ check_text report.now total json) }
{
    let text = if json {
        report_json(alloc, report, total)
    } else {
        report_lines(alloc, report)
    };
    Ok(text?)
}

/// Tells of each server with a corrupt share, and of each number that nobody holds.
pub(crate) fn note_report<R, E>(
    rt: &R,
    grid: &str,
    report: &Report,
    total: u16,
    progress: &mut Progress<'_, R, E>,
) -> Result<(), Fault>
where
    R: Clock + AllocGlobal,
    E: Write + IsTerminal,
{
    if !progress.is_verbose() {
        return Ok(());
    }
    for found in report.verdicts.as_slice() {
        if matches!(found.verdict, Verdict::Corrupt(_)) {
            note_blame(rt, grid, found.server, found.share, progress)?;
        }
    }
    for number in missing_shares(rt.alloc(), report, total)?.as_slice() {
        progress.note(format!(in rt.alloc(); "share {number} missing\n")?.as_str());
    }
    Ok(())
}

// What a check finds at these servers of a grid.
fn find_shares<R, E>(
    rt: &R,
    place: &Place<'_>,
    cap: VerifyCap,
    standing: &mut OpenGrid<R>,
    progress: &mut Progress<'_, R, E>,
) -> Result<Report, Fault>
where
    R: Files + Net + Clock + RandomSource + AllocGlobal + Clone + Drop,
    E: Write + IsTerminal,
    requires { IsDistinct nat_eq standing.old.servers }
    ensures found { IfOk result
        (IsCheckedAt (grid_calls R.Stream.contents R.Stream.remaining) cap standing.old) }
    ensures led { IfOk result (λ _.
        AreCheckedTo (grid_calls R.Stream.contents R.Stream.remaining) standing.old standing.new) }
{
    let total = cap.total();
    let found = standing.check(rt.alloc(), cap, Verb::Check, progress);
    progress.clear();
    let report = found?;
    standing.note(rt, place.grid, progress)?;
    note_report(rt, place.grid, &report, total, progress)?;
    Ok(report)
}
