//! What the words of a `verify` ask for: one file, or the files of a catalogue.

ghost use Rattle.std.specs.Prelude.{◌≡◌, ◌++◌, IfOk, Some, codes, map};
ghost use Rattle.std.specs.Option.{option_to_list};
ghost use Rattle.clap.specs.Words.{first_of};
ghost use Rattle.grid_words.specs.Asked.{Asks, AsksVerify, AsksVerifyFiles, rows_in, texts_under};

use crate::catalogue_words::names_of;
use crate::words::{Request, SecretWords, found_text, is_set, number_of, secret_words, text_of};
use clap::ArgMatches;
use std::alloc::{AllocError, Global};

/// `grid verify FILE CAP ..`: a number as the user wrote it, in no range yet.
#[derive(Drop)]
pub struct VerifyWords<'a> {
    /// A path, or `-` for standard input.
    pub file: &'a str,
    /// The cap; empty where a file has it.
    pub cap: &'a str,
    /// `--cap-file FILE`: the path of the file that has the cap, or `-`.
    pub cap_file: Option<&'a str>,
    pub max_segment: Option<u64>,
    pub secret: SecretWords<'a>,
    /// The folder of a grid that may keep the secret.
    pub grid: Option<&'a str>,
    pub verbose: bool,
}

/// `grid verify --caps CATALOGUE [NAME..] ..`.
#[derive(Drop)]
pub struct VerifyFilesWords<'a> {
    /// The path of a catalogue, or `-` for standard input.
    pub caps: &'a str,
    /// Patterns of which one has to take a file's name; with none, all files are asked for.
    pub names: Vec<&'a str>,
    /// The folder below which the files have their names, if not the current one.
    pub into: Option<&'a str>,
    pub secret: SecretWords<'a>,
    /// The folder of a grid that may keep the secret.
    pub grid: Option<&'a str>,
    pub verbose: bool,
}

/// What a `verify` asks for: one file is compared with its cap, or those of a catalogue are.
pub(crate) fn verify_request<'a>(
    alloc: Global,
    found: &ArgMatches<'a>,
) -> Result<Request<'a>, AllocError>
    ensures { IfOk result (Asks (codes "verify") (rows_in found.now)) }
{
    match found_text(found, "caps") {
        Some(caps) => Ok(Request::VerifyFiles(verify_files_words(alloc, caps, found)?)),
        None => Ok(Request::Verify(verify_words(found))),
    }
}

fn verify_words<'a>(found: &ArgMatches<'a>) -> VerifyWords<'a>
    ensures { AsksVerify (rows_in found.now) result }
{
    VerifyWords {
        file: text_of(found, "FILE"),
        cap: text_of(found, "CAP"),
        cap_file: found_text(found, "cap-file"),
        max_segment: number_of(found, "segment"),
        secret: secret_words(found),
        grid: found_text(found, "grid"),
        verbose: is_set(found, "verbose"),
    }
}

fn verify_files_words<'a>(
    alloc: Global,
    caps: &'a str,
    found: &ArgMatches<'a>,
) -> Result<VerifyFilesWords<'a>, AllocError>
    requires { first_of (codes "caps") (rows_in found.now) ≡ Some caps.now }
    ensures { IfOk result (AsksVerifyFiles (rows_in found.now)) }
{
    Ok(VerifyFilesWords {
        caps,
        names: all_names(alloc, found)?,
        into: found_text(found, "into"),
        secret: secret_words(found),
        grid: found_text(found, "grid"),
        verbose: is_set(found, "verbose"),
    })
}

// The names: the first two stand where else a file and its cap do.
fn all_names<'a>(alloc: Global, found: &ArgMatches<'a>) -> Result<Vec<&'a str>, AllocError>
    ensures { IfOk result (λ names. map (λ n. n.now) names.items
        ≡ option_to_list (first_of (codes "FILE") (rows_in found.now))
        ++ (option_to_list (first_of (codes "CAP") (rows_in found.now))
        ++ texts_under (codes "NAME") (rows_in found.now))) }
{
    let mut names = Vec::new(alloc);
    if let Some(first) = found_text(found, "FILE") {
        names.push(first)?;
    }
    let more = names_of(alloc, found)?;
    names.extend_from_slice(more.as_slice())?;
    Ok(names)
}
