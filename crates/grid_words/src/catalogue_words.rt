//! What the words of a `get`, a `check` and a `repair` ask for: one cap, or the files of a
//! catalogue.

ghost use Rattle.std.specs.Prelude.{◌≡◌, ◌++◌, IfOk, Some, codes, map};
ghost use Rattle.std.specs.Option.{option_to_list};
ghost use Rattle.clap.specs.Words.{first_of};
ghost use Rattle.grid_words.specs.Asked.{Asks, AsksCheckFiles, AsksChosen, AsksGetFiles};
ghost use Rattle.grid_words.specs.Asked.{AsksRepairFiles, rows_in, text_under, texts_under};

use crate::words::{
    Request, check_words, found_text, get_words, is_set, number_of, repair_words, text_of, texts_of,
};
use clap::ArgMatches;
use std::alloc::{AllocError, Global};

/// `grid get --caps CATALOGUE --into FOLDER [NAME..] --grid DIR ..`.
#[derive(Drop)]
pub struct GetFilesWords<'a> {
    /// The path of a catalogue, or `-` for standard input.
    pub caps: &'a str,
    /// The folder below which the files get their names.
    pub into: &'a str,
    /// Patterns of which one has to take a file's name; with none, all files are asked for.
    pub names: Vec<&'a str>,
    /// Whether a file may be written in place of one that is there.
    pub overwrite: bool,
    pub grid: &'a str,
    pub net: bool,
    pub known: bool,
    pub verbose: bool,
}

/// Files of a catalogue: `--caps CATALOGUE [NAME..]`.
#[derive(Drop)]
pub struct ChosenWords<'a> {
    /// The path of a catalogue, or `-` for standard input.
    pub caps: &'a str,
    /// Patterns of which one has to take a file's name; with none, all files are asked for.
    pub names: Vec<&'a str>,
}

/// `grid check --caps CATALOGUE [NAME..] --grid DIR ..`.
#[derive(Drop)]
pub struct CheckFilesWords<'a> {
    pub chosen: ChosenWords<'a>,
    pub grid: &'a str,
    pub net: bool,
    pub json: bool,
    pub strict: bool,
    pub known: bool,
    pub verbose: bool,
}

/// `grid repair --caps CATALOGUE [NAME..] --grid DIR ..`: a number as the user wrote it, in no
/// range yet.
#[derive(Drop)]
pub struct RepairFilesWords<'a> {
    pub chosen: ChosenWords<'a>,
    pub grid: &'a str,
    pub happy: u64,
    pub net: bool,
    pub no_sync: bool,
    pub mend: bool,
    pub known: bool,
    pub verbose: bool,
}

/// What a `get` asks for: one cap is got, or the files of a catalogue.
pub(crate) fn get_request<'a>(
    alloc: Global,
    found: &ArgMatches<'a>,
) -> Result<Request<'a>, AllocError>
    ensures { IfOk result (Asks (codes "get") (rows_in found.now)) }
{
    match found_text(found, "caps") {
        Some(caps) => Ok(Request::GetFiles(get_files_words(alloc, caps, found)?)),
        None => Ok(Request::Get(get_words(found))),
    }
}

/// The same of a `check`.
pub(crate) fn check_request<'a>(
    alloc: Global,
    found: &ArgMatches<'a>,
) -> Result<Request<'a>, AllocError>
    ensures { IfOk result (Asks (codes "check") (rows_in found.now)) }
{
    match found_text(found, "caps") {
        Some(caps) => Ok(Request::CheckFiles(check_files_words(alloc, caps, found)?)),
        None => Ok(Request::Check(check_words(found))),
    }
}

/// The same of a `repair`.
pub(crate) fn repair_request<'a>(
    alloc: Global,
    found: &ArgMatches<'a>,
) -> Result<Request<'a>, AllocError>
    ensures { IfOk result (Asks (codes "repair") (rows_in found.now)) }
{
    match found_text(found, "caps") {
        Some(caps) => Ok(Request::RepairFiles(repair_files_words(alloc, caps, found)?)),
        None => Ok(Request::Repair(repair_words(found))),
    }
}

fn check_files_words<'a>(
    alloc: Global,
    caps: &'a str,
    found: &ArgMatches<'a>,
) -> Result<CheckFilesWords<'a>, AllocError>
    requires { first_of (codes "caps") (rows_in found.now) ≡ Some caps.now }
    ensures { IfOk result (AsksCheckFiles (rows_in found.now)) }
{
    Ok(CheckFilesWords {
        chosen: chosen_words(alloc, caps, found)?,
        grid: text_of(found, "grid"),
        net: is_set(found, "net"),
        json: is_set(found, "json"),
        strict: is_set(found, "strict"),
        known: is_set(found, "known"),
        verbose: is_set(found, "verbose"),
    })
}

fn repair_files_words<'a>(
    alloc: Global,
    caps: &'a str,
    found: &ArgMatches<'a>,
) -> Result<RepairFilesWords<'a>, AllocError>
    requires { first_of (codes "caps") (rows_in found.now) ≡ Some caps.now }
    ensures { IfOk result (AsksRepairFiles (rows_in found.now)) }
{
    Ok(RepairFilesWords {
        chosen: chosen_words(alloc, caps, found)?,
        grid: text_of(found, "grid"),
        happy: number_of(found, "happy").unwrap_or(0),
        net: is_set(found, "net"),
        no_sync: is_set(found, "no-sync"),
        mend: is_set(found, "mend"),
        known: is_set(found, "known"),
        verbose: is_set(found, "verbose"),
    })
}

// The files of this catalogue that are asked for.
fn chosen_words<'a>(
    alloc: Global,
    caps: &'a str,
    found: &ArgMatches<'a>,
) -> Result<ChosenWords<'a>, AllocError>
    requires { first_of (codes "caps") (rows_in found.now) ≡ Some caps.now }
    ensures { IfOk result (AsksChosen (rows_in found.now)) }
{
    let names = names_of(alloc, found)?;
    Ok(ChosenWords { caps, names })
}

// What words of a `get` ask for that have this catalogue.
fn get_files_words<'a>(
    alloc: Global,
    caps: &'a str,
    found: &ArgMatches<'a>,
) -> Result<GetFilesWords<'a>, AllocError>
    requires { first_of (codes "caps") (rows_in found.now) ≡ Some caps.now }
    ensures { IfOk result (AsksGetFiles (rows_in found.now)) }
{
    Ok(GetFilesWords {
        caps,
        into: text_of(found, "into"),
        names: names_of(alloc, found)?,
        overwrite: is_set(found, "overwrite"),
        grid: text_of(found, "grid"),
        net: is_set(found, "net"),
        known: is_set(found, "known"),
        verbose: is_set(found, "verbose"),
    })
}

/// The names: the first stands where else a cap does.
pub(crate) fn names_of<'a>(
    alloc: Global,
    found: &ArgMatches<'a>,
) -> Result<Vec<&'a str>, AllocError>
    ensures { IfOk result (λ names. map (λ n. n.now) names.items
        ≡ option_to_list (first_of (codes "CAP") (rows_in found.now))
        ++ texts_under (codes "NAME") (rows_in found.now)) }
{
    let mut names = Vec::new(alloc);
    if let Some(first) = found_text(found, "CAP") {
        names.push(first)?;
    }
    let more = texts_of(alloc, found, "NAME")?;
    names.extend_from_slice(more.as_slice())?;
    Ok(names)
}
