//! What a check tells its user.

ghost use Rattle.std.specs.Prelude.{◌≡◌, ◌++◌, IfOk, OnOk};
ghost use Rattle.std.specs.List.{flat_map};
ghost use Rattle.std.specs.String.{string_bytes};
ghost use Rattle.grid_rules.specs.ReportLines.{report_lines, report_status, report_words};
ghost use Rattle.grid_rules.specs.ReportLines.{verdict_line, verdict_text, word_of};

use checker::status::{Report, ShareVerdict};
use grid_faults::server_name;
use share_reading::Verdict;
use share_verify::Check;
use std::alloc::{AllocError, Global};

/// The lines of a report: one for each share that was offered, by server and then by number, and
/// one for the file.
pub fn report_lines(alloc: Global, report: &Report) -> Result<String, AllocError>
    ensures { IfOk result (λ lines. string_bytes lines ≡ report_lines report.now) }
{
    let lines = verdict_lines(alloc, report.verdicts.as_slice())?;
    let words = report_words(alloc, report)?;
    format!(in alloc; "{lines}{words}\n")
}

/// The exit status of a check: 0 where the file can be recovered, or is healthy where that is asked
/// for, else 5.
pub fn report_status(report: &Report, strict: bool) -> u8
    ensures { result ≡ report_status report.now strict }
{
    let is_well = if strict {
        report.healthy
    } else {
        report.recoverable
    };
    if is_well { 0 } else { 5 }
}

// A line for each verdict.
fn verdict_lines(alloc: Global, verdicts: &[ShareVerdict]) -> Result<String, AllocError>
    ensures { IfOk result (λ lines. string_bytes lines ≡ flat_map verdict_line verdicts.now) }
{
    let mut lines = String::new(alloc);
    for found in verdicts {
        push_line(alloc, &mut lines, found)?;
    }
    Ok(lines)
}

// Adds the line of a verdict.
fn push_line(alloc: Global, lines: &mut String, found: &ShareVerdict) -> Result<(), AllocError>
    ensures { OnOk result
        (string_bytes lines.new ≡ string_bytes lines.old ++ verdict_line found.now) }
{
    let (server, share) = (server_name(alloc, found.server)?, found.share);
    let verdict = verdict_text(&found.verdict);
    lines.push_str(format!(in alloc; "{server} {share} {verdict}\n")?.as_str())
}

/// What the line of the file says, without its end.
pub fn report_words(alloc: Global, report: &Report) -> Result<String, AllocError>
    ensures { IfOk result (λ words. string_bytes words ≡ report_words report.now) }
{
    let (healthy, recoverable) = (word_of(report.healthy), word_of(report.recoverable));
    let happiness = report.happiness;
    format!(in alloc; "healthy {healthy} recoverable {recoverable} happiness {happiness}")
}

// `yes` or `no`.
fn word_of(holds: bool) -> &'static str
    ensures { result.now ≡ word_of holds }
{
    if holds { "yes" } else { "no" }
}

// What is told of a share.
pub(crate) fn verdict_text(verdict: &Verdict) -> &'static str
    ensures { result.now ≡ verdict_text verdict.now }
{
    match verdict {
        Verdict::Good => "good",
        Verdict::Lost => "lost",
        Verdict::Corrupt(Check::Layout) => "corrupt layout",
        Verdict::Corrupt(Check::Ueb) => "corrupt ueb",
        Verdict::Corrupt(Check::Unused) => "corrupt unused",
        Verdict::Corrupt(Check::CiphertextTree) => "corrupt ciphertext-tree",
        Verdict::Corrupt(Check::BlockTree) => "corrupt block-tree",
        Verdict::Corrupt(Check::ShareHashes) => "corrupt share-hashes",
        Verdict::Corrupt(Check::Data) => "corrupt data",
    }
}
