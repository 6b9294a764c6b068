//! What a check tells to programs: one JSON object a line.

ghost use Rattle.std.specs.Prelude.{◌≡◌, ◌++◌, IfOk, OnOk};
ghost use Rattle.std.specs.List.{flat_map};
ghost use Rattle.std.specs.String.{string_bytes};
ghost use Rattle.grid_rules.specs.ReportJson.{bool_json, is_missing, last_json, last_object};
ghost use Rattle.grid_rules.specs.ReportJson.{missing};
ghost use Rattle.grid_rules.specs.ReportJson.{missing_json, report_json, share_objects};
ghost use Rattle.grid_rules.specs.ReportJson.{verdict_json, verdict_object};

use crate::checking::verdict_text;
use checker::status::{Report, ShareVerdict};
use grid_faults::server_name;
use std::alloc::{AllocError, Global};

/// An object for each share that was offered, by server and then by number, one for each number
/// below the total that nobody offered, and one for the file.
pub fn report_json(alloc: Global, report: &Report, total: u16) -> Result<String, AllocError>
    ensures { IfOk result (λ text. string_bytes text ≡ report_json report.now total) }
{
    let mut text = share_objects(alloc, report, total)?;
    text.push_str(last_json(alloc, report)?.as_str())?;
    Ok(text)
}

// The objects of the shares.
fn share_objects(alloc: Global, report: &Report, total: u16) -> Result<String, AllocError>
    ensures { IfOk result (λ text. string_bytes text ≡ share_objects report.now total) }
{
    let missing = missing_shares(alloc, report, total)?;
    let mut text = verdict_objects(alloc, report.verdicts.as_slice())?;
    text.push_str(missing_objects(alloc, missing.as_slice())?.as_str())?;
    Ok(text)
}

/// The numbers below the total of which no server offered a share, rising.
pub fn missing_shares(alloc: Global, report: &Report, total: u16) -> Result<Vec<u16>, AllocError>
    ensures { IfOk result (λ numbers. numbers.items ≡ missing report.now.verdicts total) }
{
    let verdicts = report.verdicts.as_slice();
    let mut numbers = Vec::new(alloc);
    for number in 0..total {
        if is_missing(verdicts, number) {
            numbers.push(number)?;
        }
    }
    Ok(numbers)
}

fn is_missing(verdicts: &[ShareVerdict], number: u16) -> bool
    ensures { result ≡ is_missing verdicts.now number }
{
    !verdicts
        .iter()
        .any(|found| u16::from(found.share) == number)
}

fn verdict_objects(alloc: Global, verdicts: &[ShareVerdict]) -> Result<String, AllocError>
    ensures { IfOk result (λ text. string_bytes text ≡ flat_map verdict_json verdicts.now) }
{
    let mut text = String::new(alloc);
    for found in verdicts {
        push_verdict(alloc, &mut text, found)?;
    }
    Ok(text)
}

fn push_verdict(alloc: Global, text: &mut String, found: &ShareVerdict) -> Result<(), AllocError>
    ensures { OnOk result
        (string_bytes text.new ≡ string_bytes text.old ++ verdict_json found.now) }
{
    text.push_str(verdict_json(alloc, found)?.as_str())
}

fn verdict_json(alloc: Global, found: &ShareVerdict) -> Result<String, AllocError>
    ensures { IfOk result (λ text. string_bytes text ≡ verdict_json found.now) }
{
    let server = server_name(alloc, found.server)?;
    verdict_object(
        alloc,
        server.as_str(),
        found.share,
        verdict_text(&found.verdict),
    )
}

fn verdict_object(
    alloc: Global,
    server: &str,
    share: u8,
    verdict: &str,
) -> Result<String, AllocError>
    ensures { IfOk result
        (λ text. string_bytes text ≡ verdict_object server.now share verdict.now) }
{
    format!(in alloc; "{{\"server\":\"{server}\",\"share\":{share},\"verdict\":\"{verdict}\"}}\n")
}

fn missing_objects(alloc: Global, numbers: &[u16]) -> Result<String, AllocError>
    ensures { IfOk result (λ text. string_bytes text ≡ flat_map missing_json numbers.now) }
{
    let mut text = String::new(alloc);
    for number in numbers {
        push_missing(alloc, &mut text, *number)?;
    }
    Ok(text)
}

fn push_missing(alloc: Global, text: &mut String, number: u16) -> Result<(), AllocError>
    ensures { OnOk result
        (string_bytes text.new ≡ string_bytes text.old ++ missing_json number) }
{
    text.push_str(missing_json(alloc, number)?.as_str())
}

fn missing_json(alloc: Global, number: u16) -> Result<String, AllocError>
    ensures { IfOk result (λ text. string_bytes text ≡ missing_json number) }
{
    format!(in alloc; "{{\"share\":{number},\"verdict\":\"missing\"}}\n")
}

fn last_json(alloc: Global, report: &Report) -> Result<String, AllocError>
    ensures { IfOk result (λ text. string_bytes text ≡ last_json report.now) }
{
    let (healthy, recoverable) = (bool_json(report.healthy), bool_json(report.recoverable));
    last_object(alloc, healthy, recoverable, report.happiness)
}

fn last_object(
    alloc: Global,
    healthy: &str,
    recoverable: &str,
    happiness: usize,
) -> Result<String, AllocError>
    ensures { IfOk result
        (λ text. string_bytes text ≡ last_object healthy.now recoverable.now happiness) }
{
    format!(in alloc;
        "{{\"healthy\":{healthy},\"recoverable\":{recoverable},\"happiness\":{happiness}}}\n"
    )
}

/// `true` or `false`, as JSON has them.
pub fn bool_json(holds: bool) -> &'static str
    ensures { result.now ≡ bool_json holds }
{
    if holds { "true" } else { "false" }
}
