//! What the words of the command line ask for.

ghost use Rattle.std.specs.Prelude.{◌≡◌, IfErr, IfOk, codes, map, option_map, true};
ghost use Rattle.clap.specs.Words.{first_of, kind_of, one_of, subcommand_of, takes};
ghost use Rattle.grid_words.specs.Asked.{Asks, AsksCheck, AsksGet, AsksInit, AsksNumbers, AsksPut};
ghost use Rattle.grid_words.specs.Asked.{AsksRepair, AsksScrub, AsksServe, AsksStatus, IsAsked};
ghost use Rattle.grid_words.specs.Asked.{IsFlag, IsList, IsMarking, IsSecret, asks_notes};
ghost use Rattle.grid_words.specs.Asked.{number_under, rows_in, text_under, texts_under};
ghost use Rattle.grid_words.specs.Asked.{wants_known};
ghost use Rattle.grid_words.specs.CommandLine.{grid_app};

use crate::catalogue_words::{
    CheckFilesWords, GetFilesWords, RepairFilesWords, check_request, get_request, repair_request,
};
use crate::commands::grid_command;
use crate::verify_words::{VerifyFilesWords, VerifyWords, verify_request};
use clap::error::ErrorKind;
use clap::{ArgMatches, Error};
use std::alloc::{AllocError, Global};
use std::convert::AsStr;

/// The path that stands for standard input, wherever words name a file to be read.
pub const STANDARD_INPUT: &str = "-";

/// What the user asks for.
#[derive(Drop)]
pub enum Request<'a> {
    Init(InitWords<'a>),
    Put(PutWords<'a>),
    Get(GetWords<'a>),
    GetFiles(GetFilesWords<'a>),
    Check(CheckWords<'a>),
    CheckFiles(CheckFilesWords<'a>),
    Verify(VerifyWords<'a>),
    VerifyFiles(VerifyFilesWords<'a>),
    Repair(RepairWords<'a>),
    RepairFiles(RepairFilesWords<'a>),
    Scrub(ScrubWords<'a>),
    Status(StatusWords<'a>),
    Serve(ServeWords<'a>),
    /// `grid world SCRIPT`, with the path of the script.
    World(&'a str),
    /// `grid cap CAP`, with the cap's text.
    Describe(&'a str),
}

impl<'a> Request<'a> {
    /// Whether notes are asked for, with `-v`.
    pub fn is_verbose(&self) -> bool
        ensures { result ≡ asks_notes self.now }
    {
        match self {
            Request::Init(words) => words.verbose,
            Request::Put(words) => words.verbose,
            Request::Get(words) => words.verbose,
            Request::GetFiles(words) => words.verbose,
            Request::Check(words) => words.verbose,
            Request::CheckFiles(words) => words.verbose,
            Request::Verify(words) => words.verbose,
            Request::VerifyFiles(words) => words.verbose,
            Request::Repair(words) => words.verbose,
            Request::RepairFiles(words) => words.verbose,
            Request::Scrub(words) => words.verbose,
            Request::Status(words) => words.verbose,
            Request::Serve(words) => words.verbose,
            Request::World(_) | Request::Describe(_) => false,
        }
    }

    /// Whether a folder is refused that no `init` marked, with `--known`.
    pub fn is_known(&self) -> bool
        ensures { result ≡ wants_known self.now }
    {
        match self {
            Request::Put(words) => words.known,
            Request::Get(words) => words.known,
            Request::GetFiles(words) => words.known,
            Request::Check(words) => words.known,
            Request::CheckFiles(words) => words.known,
            Request::Repair(words) => words.known,
            Request::RepairFiles(words) => words.known,
            Request::Scrub(words) => words.known,
            Request::Status(words) => words.known,
            Request::Init(_) | Request::Serve(_) => false,
            Request::Verify(_) | Request::VerifyFiles(_) => false,
            Request::World(_) | Request::Describe(_) => false,
        }
    }
}

/// The secret that a file's key depends on, as the user wrote it, of any length yet.
#[derive(Clone, Copy)]
pub enum SecretWords<'a> {
    /// Neither was written.
    Unsaid,
    /// `--secret TEXT`, which may be empty.
    Text(&'a str),
    /// `--secret-file FILE`, with the path of the file.
    File(&'a str),
}

/// What becomes of a grid's marks: numbers as the user wrote them, in no range yet.
#[derive(Clone, Copy)]
pub enum Marking {
    /// A grid of so many servers, as `--servers` says it.
    New(Option<u64>),
    /// `--replace NUMBER`: the server whose folder was lost.
    Replace(u64),
    /// `--add NUMBER`: how many servers come to those of the grid.
    Add(u64),
    /// `--adopt`: the grid's own mark anew, for so many servers, as `--servers` says it.
    Adopt(Option<u64>),
}

/// The numbers by which files are put: those that the user wrote, in no range yet.
#[derive(Clone, Copy)]
pub struct NumberWords {
    /// `--k NUMBER`.
    pub needed: Option<u64>,
    /// `--happy NUMBER`.
    pub happy: Option<u64>,
    /// `--n NUMBER`.
    pub total: Option<u64>,
    /// `--segment NUMBER`, in bytes.
    pub max_segment: Option<u64>,
}

/// `grid init DIR ..`.
#[derive(Drop)]
pub struct InitWords<'a> {
    pub grid: &'a str,
    pub marking: Marking,
    /// Servers that are served elsewhere, each as `NUMBER=ADDRESS`.
    pub elsewhere: Vec<&'a str>,
    /// The path of a file that holds the secret that the grid keeps, or `new`.
    pub secret_file: Option<&'a str>,
    /// The numbers that the grid keeps for its puts.
    pub ways: NumberWords,
    pub verbose: bool,
}

/// A list of names of files.
#[derive(Clone, Copy)]
pub enum ListWords<'a> {
    /// None was written.
    Unsaid,
    /// `--files-from LIST`: the path of one with a name a line, or `-`.
    Lines(&'a str),
    /// `--files0-from LIST`: that of one with a NUL behind each name, or `-`.
    Nuls(&'a str),
}

/// `grid put FILE.. --grid DIR ..`: numbers as the user wrote them, in no range yet.
#[derive(Drop)]
pub struct PutWords<'a> {
    /// Paths, or `-` for standard input. There is one at least, or a list.
    pub files: Vec<&'a str>,
    pub list: ListWords<'a>,
    /// The path of a catalogue of which lines are kept, or `-` for standard input.
    pub since: Option<&'a str>,
    pub grid: &'a str,
    pub secret: SecretWords<'a>,
    pub numbers: NumberWords,
    pub servers: Option<u64>,
    pub net: bool,
    pub no_sync: bool,
    pub mend: bool,
    pub quiet: bool,
    pub known: bool,
    pub verbose: bool,
}

/// `grid get CAP --grid DIR ..`: offsets as the user wrote them. Without `to` the range ends with
/// the file, and without `output` it is written to standard output.
#[derive(Drop)]
pub struct GetWords<'a> {
    /// The cap; empty where a file has it.
    pub cap: &'a str,
    /// `--cap-file FILE`: the path of the file that has the cap, or `-`.
    pub cap_file: Option<&'a str>,
    pub grid: &'a str,
    pub from: u64,
    pub to: Option<u64>,
    pub output: Option<&'a str>,
    pub net: bool,
    pub known: bool,
    pub verbose: bool,
}

/// `grid check CAP --grid DIR ..`.
#[derive(Drop)]
pub struct CheckWords<'a> {
    /// The cap; empty where a file has it.
    pub cap: &'a str,
    /// `--cap-file FILE`: the path of the file that has the cap, or `-`.
    pub cap_file: Option<&'a str>,
    pub grid: &'a str,
    pub net: bool,
    pub json: bool,
    pub strict: bool,
    pub known: bool,
    pub verbose: bool,
}

/// `grid repair CAP --grid DIR ..`: a number as the user wrote it, in no range yet.
#[derive(Drop)]
pub struct RepairWords<'a> {
    /// The cap; empty where a file has it.
    pub cap: &'a str,
    /// `--cap-file FILE`: the path of the file that has the cap, or `-`.
    pub cap_file: Option<&'a str>,
    pub grid: &'a str,
    pub happy: u64,
    pub net: bool,
    pub no_sync: bool,
    pub mend: bool,
    pub known: bool,
    pub verbose: bool,
}

/// `grid scrub --grid DIR ..`.
#[derive(Drop)]
pub struct ScrubWords<'a> {
    pub grid: &'a str,
    pub set_aside: bool,
    pub remove_open: bool,
    pub remove_damaged: bool,
    pub json: bool,
    pub known: bool,
    pub verbose: bool,
}

/// `grid status --grid DIR ..`.
#[derive(Drop)]
pub struct StatusWords<'a> {
    pub grid: &'a str,
    pub json: bool,
    pub known: bool,
    pub verbose: bool,
}

/// `grid serve FOLDER --listen ADDRESS ..`: a text and a number as the user wrote them.
#[derive(Drop)]
pub struct ServeWords<'a> {
    pub folder: &'a str,
    pub listen: &'a str,
    pub anyone: bool,
    pub room: Option<u64>,
    /// The line of the mark that the folder has or gets.
    pub mark: Option<&'a str>,
    pub no_sync: bool,
    pub verbose: bool,
}

/// Reads the words of a command line, of which the first is the program's name. The grid is meant
/// where no word names one; where none is given, a word has to name it. An `Err` holds `clap`'s
/// text, of help and of the version too. Words that `clap` takes fail only for want of memory.
pub fn read_words<'a, S: AsStr>(
    alloc: Global,
    grid: Option<&'a str>,
    words: &'a [S],
) -> Result<Request<'a>, Error>
    ensures asked { IfOk result (IsAsked (subcommand_of
        (grid_app (option_map (λ folder. folder.now) grid.entry)) (map S.text words.entry.now))) }
    ensures passes { IfErr result (λ e. takes
        (grid_app (option_map (λ folder. folder.now) grid.entry)) (map S.text words.entry.now)
        ≡ true → kind_of e ≡ ErrorKind.OutOfMemory) }
{
    let command = grid_command(alloc, grid)?;
    let matches = command.try_get_matches_from(words)?;
    match matches.subcommand() {
        Some((name, found)) => Ok(request_of(alloc, name, found)?),
        // A command is required.
        None => unreachable!(),
    }
}

// What a command's own words ask for.
fn request_of<'a>(
    alloc: Global,
    name: &str,
    found: &ArgMatches<'a>,
) -> Result<Request<'a>, AllocError>
    ensures { IfOk result (Asks name.now (rows_in found.now)) }
{
    Ok(match name {
        "init" => Request::Init(init_words(alloc, found)?),
        "put" => Request::Put(put_words(alloc, found)?),
        "get" => get_request(alloc, found)?,
        "check" => check_request(alloc, found)?,
        "verify" => verify_request(alloc, found)?,
        "repair" => repair_request(alloc, found)?,
        "scrub" => Request::Scrub(scrub_words(found)),
        "status" => Request::Status(status_words(found)),
        "serve" => Request::Serve(serve_words(found)),
        "world" => Request::World(text_of(found, "SCRIPT")),
        // There is no other.
        _ => Request::Describe(text_of(found, "CAP")),
    })
}

fn init_words<'a>(alloc: Global, found: &ArgMatches<'a>) -> Result<InitWords<'a>, AllocError>
    ensures { IfOk result (AsksInit (rows_in found.now)) }
{
    Ok(InitWords {
        grid: text_of(found, "DIR"),
        marking: marking_of(found),
        elsewhere: texts_of(alloc, found, "server")?,
        secret_file: found_text(found, "secret-file"),
        ways: number_words(found),
        verbose: is_set(found, "verbose"),
    })
}

// The ways to mark an old grid exclude each other.
fn marking_of(found: &ArgMatches<'_>) -> Marking
    ensures { IsMarking (rows_in found.now) result }
{
    let servers = number_of(found, "servers");
    match (number_of(found, "replace"), number_of(found, "add")) {
        (Some(server), _) => Marking::Replace(server),
        (None, Some(count)) => Marking::Add(count),
        (None, None) if is_set(found, "adopt") => Marking::Adopt(servers),
        (None, None) => Marking::New(servers),
    }
}

fn put_words<'a>(alloc: Global, found: &ArgMatches<'a>) -> Result<PutWords<'a>, AllocError>
    ensures { IfOk result (AsksPut (rows_in found.now)) }
{
    Ok(PutWords {
        files: texts_of(alloc, found, "FILE")?,
        list: list_words(found),
        since: found_text(found, "since"),
        grid: text_of(found, "grid"),
        secret: secret_words(found),
        numbers: number_words(found),
        servers: number_of(found, "servers"),
        net: is_set(found, "net"),
        no_sync: is_set(found, "no-sync"),
        mend: is_set(found, "mend"),
        quiet: is_set(found, "quiet"),
        known: is_set(found, "known"),
        verbose: is_set(found, "verbose"),
    })
}

fn number_words(found: &ArgMatches<'_>) -> NumberWords
    ensures { AsksNumbers (rows_in found.now) result }
{
    NumberWords {
        needed: number_of(found, "k"),
        happy: number_of(found, "happy"),
        total: number_of(found, "n"),
        max_segment: number_of(found, "segment"),
    }
}

// The two kinds of lists exclude each other.
fn list_words<'a>(found: &ArgMatches<'a>) -> ListWords<'a>
    ensures { IsList (rows_in found.now) result }
{
    match (
        found_text(found, "files0-from"),
        found_text(found, "files-from"),
    ) {
        (Some(path), _) => ListWords::Nuls(path),
        (None, Some(path)) => ListWords::Lines(path),
        (None, None) => ListWords::Unsaid,
    }
}

/// The two ways to name a secret exclude each other.
pub(crate) fn secret_words<'a>(found: &ArgMatches<'a>) -> SecretWords<'a>
    ensures { IsSecret (rows_in found.now) result }
{
    match (
        found_text(found, "secret-file"),
        found_text(found, "secret"),
    ) {
        (Some(path), _) => SecretWords::File(path),
        (None, Some(text)) => SecretWords::Text(text),
        (None, None) => SecretWords::Unsaid,
    }
}

pub(crate) fn get_words<'a>(found: &ArgMatches<'a>) -> GetWords<'a>
    ensures { AsksGet (rows_in found.now) result }
{
    GetWords {
        cap: text_of(found, "CAP"),
        cap_file: found_text(found, "cap-file"),
        grid: text_of(found, "grid"),
        from: number_of(found, "from").unwrap_or(0),
        to: number_of(found, "to"),
        output: found_text(found, "output"),
        net: is_set(found, "net"),
        known: is_set(found, "known"),
        verbose: is_set(found, "verbose"),
    }
}

pub(crate) fn check_words<'a>(found: &ArgMatches<'a>) -> CheckWords<'a>
    ensures { AsksCheck (rows_in found.now) result }
{
    CheckWords {
        cap: text_of(found, "CAP"),
        cap_file: found_text(found, "cap-file"),
        grid: text_of(found, "grid"),
        net: is_set(found, "net"),
        json: is_set(found, "json"),
        strict: is_set(found, "strict"),
        known: is_set(found, "known"),
        verbose: is_set(found, "verbose"),
    }
}

pub(crate) fn repair_words<'a>(found: &ArgMatches<'a>) -> RepairWords<'a>
    ensures { AsksRepair (rows_in found.now) result }
{
    RepairWords {
        cap: text_of(found, "CAP"),
        cap_file: found_text(found, "cap-file"),
        grid: text_of(found, "grid"),
        happy: number_of(found, "happy").unwrap_or(0),
        net: is_set(found, "net"),
        no_sync: is_set(found, "no-sync"),
        mend: is_set(found, "mend"),
        known: is_set(found, "known"),
        verbose: is_set(found, "verbose"),
    }
}

fn scrub_words<'a>(found: &ArgMatches<'a>) -> ScrubWords<'a>
    ensures { AsksScrub (rows_in found.now) result }
{
    ScrubWords {
        grid: text_of(found, "grid"),
        set_aside: is_set(found, "set-aside"),
        remove_open: is_set(found, "remove-open"),
        remove_damaged: is_set(found, "remove-damaged"),
        json: is_set(found, "json"),
        known: is_set(found, "known"),
        verbose: is_set(found, "verbose"),
    }
}

fn status_words<'a>(found: &ArgMatches<'a>) -> StatusWords<'a>
    ensures { AsksStatus (rows_in found.now) result }
{
    StatusWords {
        grid: text_of(found, "grid"),
        json: is_set(found, "json"),
        known: is_set(found, "known"),
        verbose: is_set(found, "verbose"),
    }
}

fn serve_words<'a>(found: &ArgMatches<'a>) -> ServeWords<'a>
    ensures { AsksServe (rows_in found.now) result }
{
    ServeWords {
        folder: text_of(found, "FOLDER"),
        listen: text_of(found, "listen"),
        anyone: is_set(found, "anyone"),
        room: number_of(found, "room"),
        mark: found_text(found, "mark"),
        no_sync: is_set(found, "no-sync"),
        verbose: is_set(found, "verbose"),
    }
}

/// The text of an argument, where it has one.
pub(crate) fn found_text<'a>(found: &ArgMatches<'a>, id: &str) -> Option<&'a str>
    ensures { option_map (λ s. s.now) result ≡ first_of id.now (rows_in found.now) }
{
    found.get_str(id)
}

/// The texts of an argument that may have several.
pub(crate) fn texts_of<'a>(
    alloc: Global,
    found: &ArgMatches<'a>,
    id: &str,
) -> Result<Vec<&'a str>, AllocError>
    ensures { IfOk result
        (λ texts. map (λ s. s.now) texts.items ≡ texts_under id.now (rows_in found.now)) }
{
    match found.get_strs(id) {
        Some(texts) => Vec::from_slice(alloc, texts),
        None => Ok(Vec::new(alloc)),
    }
}

/// The text of an argument that is required or has a default, so that it is always there.
pub(crate) fn text_of<'a>(found: &ArgMatches<'a>, id: &str) -> &'a str
    ensures { result.now ≡ text_under id.now (rows_in found.now) }
{
    found_text(found, id).unwrap_or("")
}

/// The number of an argument, which `clap` has tested.
pub(crate) fn number_of(found: &ArgMatches<'_>, id: &str) -> Option<u64>
    ensures { result ≡ number_under id.now (rows_in found.now) }
{
    found.get_one::<u64>(id)
}

/// Whether a flag is set.
pub(crate) fn is_set(found: &ArgMatches<'_>, id: &str) -> bool
    ensures { IsFlag (one_of id.now (rows_in found.now)) result }
{
    found.get_flag(id)
}
