//! The lines that tell of the files of a catalogue that are looked at.

ghost use Rattle.std.specs.Prelude.{◌≡◌, IfOk, true};
ghost use Rattle.std.specs.String.{string_bytes};
ghost use Rattle.grid_surveys.specs.LookEnds.{task_of};
ghost use Rattle.grid_surveys.specs.Looks.{IsLine, counts_text, named_json, report_json, seen_json};
ghost use Rattle.grid_surveys.specs.Looks.{seen_words};

use crate::objects::json_name;
use crate::seen::{Counts, Look, Seen};
use catalogues::named_line;
use checker::status::Report;
use grid_rules::{bool_json, report_words};
use std::alloc::{AllocError, Global};

/// The line of a file, or its object.
pub(crate) fn seen_line(
    alloc: Global,
    json: bool,
    seen: &Seen,
    name: &[u8],
) -> Result<Vec<u8>, AllocError>
    ensures { IfOk result (λ text. IsLine json seen.now name.now text.items) }
{
    if json {
        return seen_object(alloc, seen, name);
    }
    let words = seen_words(alloc, seen)?;
    named_line(alloc, words.as_bytes(), name)
}

// The object of a file.
fn seen_object(alloc: Global, seen: &Seen, name: &[u8]) -> Result<Vec<u8>, AllocError>
    ensures { IfOk result (λ text. IsLine true seen.now name.now text.items) }
{
    let written = json_name(alloc, name)?;
    let values = seen_json(alloc, seen)?;
    named_json(alloc, &written, values.as_bytes())
}

// An object with a name, of which this follows that.
fn named_json(alloc: Global, name: &[u8], values: &[u8]) -> Result<Vec<u8>, AllocError>
    ensures { IfOk result (λ text. text.items ≡ named_json name.now values.now) }
{
    let mut text = Vec::from_slice(alloc, b"{\"name\":\"")?;
    text.extend_from_slice(name)?;
    text.extend_from_slice(b"\",")?;
    text.extend_from_slice(values)?;
    Ok(text)
}

// What is told of a file to people, without its name.
fn seen_words(alloc: Global, seen: &Seen) -> Result<String, AllocError>
    ensures { IfOk result (λ text. string_bytes text ≡ seen_words seen.now) }
{
    match seen {
        Seen::Literal => String::from_str(alloc, "literal"),
        Seen::Checked(report) => report_words(alloc, report),
        Seen::Repaired(stored) => format!(in alloc; "happiness {}", stored.happiness),
    }
}

// What is told of a file to programs, behind its name.
fn seen_json(alloc: Global, seen: &Seen) -> Result<String, AllocError>
    ensures { IfOk result (λ text. string_bytes text ≡ seen_json seen.now) }
{
    match seen {
        Seen::Literal => String::from_str(alloc, "\"literal\":true}\n"),
        Seen::Checked(report) => report_json(alloc, report),
        Seen::Repaired(stored) => format!(in alloc; "\"happiness\":{}}}\n", stored.happiness),
    }
}

fn report_json(alloc: Global, report: &Report) -> Result<String, AllocError>
    ensures { IfOk result (λ text. string_bytes text ≡ report_json report.now) }
{
    let (healthy, recoverable) = (bool_json(report.healthy), bool_json(report.recoverable));
    let happiness = report.happiness;
    format!(in alloc;
        "\"healthy\":{healthy},\"recoverable\":{recoverable},\"happiness\":{happiness}}}\n"
    )
}

/// The last line, which tells how many files there are.
pub(crate) fn counts_line(
    alloc: Global,
    look: Look<'_>,
    counts: Counts,
) -> Result<String, AllocError>
    ensures { IfOk result (λ text. string_bytes text ≡ counts_text (task_of look.entry) counts) }
{
    let (files, whole, weak, lost) = (counts.files, counts.whole, counts.weak, counts.lost);
    match look {
        Look::Check(words) if words.json => format!(in alloc;
            "{{\"files\":{files},\"healthy\":{whole},\"recoverable\":{weak},\"lost\":{lost}}}\n"
        ),
        Look::Check(_) => format!(in alloc;
            "files {files} healthy {whole} recoverable {weak} lost {lost}\n"
        ),
        Look::Repair(_) => format!(in alloc; "files {files} repaired {whole} lost {lost}\n"),
    }
}
