//! The arguments of the commands.

ghost use Rattle.std.specs.Prelude.{codes, IfOk, option_map};
ghost use Rattle.clap.specs.Walk.{Rule};
ghost use Rattle.grid_words.specs.Builds.{HasRule};
ghost use Rattle.grid_words.specs.CommandLine.{add, excluding, files, files_from, flag};
ghost use Rattle.grid_words.specs.CommandLine.{grid_folder, happy, listen, number};
ghost use Rattle.grid_words.specs.CommandLine.{number_or, operand, option, output, replace};
ghost use Rattle.grid_words.specs.CommandLine.{repeated, secret_file, server, verbose};

use clap::{Arg, ArgAction, value_parser};
use std::alloc::{AllocError, Global};

/// The files of a `put`.
pub(crate) fn files<'a>(alloc: Global) -> Result<Arg<'a>, AllocError>
    ensures { IfOk result (HasRule files) }
{
    Arg::new(alloc, "FILE")
        .num_args(1..)
        .help("The files to store, or - for standard input")
        .required_unless_present("files-from")?
        .required_unless_present("files0-from")
}

/// A list of more of them, of a name a line.
pub(crate) fn files_from<'a>(alloc: Global) -> Result<Arg<'a>, AllocError>
    ensures { IfOk result (HasRule files_from) }
{
    option(
        alloc,
        "files-from",
        "LIST",
        "Store the files of LIST too, which has a name a line; - is standard input",
    )
    .conflicts_with("files0-from")
}

/// The same, of names that each end with a NUL.
pub(crate) fn files0_from<'a>(alloc: Global) -> Arg<'a>
    ensures { HasRule (option (codes "files0-from")) result }
{
    option(
        alloc,
        "files0-from",
        "LIST",
        "The same with a NUL behind each name, as `find -print0` writes them",
    )
}

/// A catalogue of which lines are kept.
pub(crate) fn since<'a>(alloc: Global) -> Arg<'a>
    ensures { HasRule (option (codes "since")) result }
{
    option(
        alloc,
        "since",
        "CATALOGUE",
        "Keep the lines that an earlier put into this grid wrote to CATALOGUE, for files that have \
not changed since then; - is standard input",
    )
}

/// A word that has to be there.
pub(crate) fn operand<'a>(alloc: Global, name: &'a str, help: &'a str) -> Arg<'a>
    ensures { HasRule (operand name.entry.now) result }
{
    Arg::new(alloc, name).required(true).help(help)
}

/// The folder that becomes a grid.
pub(crate) fn new_grid<'a>(alloc: Global) -> Arg<'a>
    ensures { HasRule (operand (codes "DIR")) result }
{
    operand(
        alloc,
        "DIR",
        "The folder of the grid, which is made where it is not there",
    )
}

/// The folder of the grid, which has to be there if no grid is meant else. The help does not tell
/// which one that is.
pub(crate) fn grid_folder<'a>(alloc: Global, grid: Option<&'a str>) -> Arg<'a>
    ensures { HasRule (grid_folder (option_map (λ folder. folder.now) grid.entry)) result }
{
    let folder = option(
        alloc,
        "grid",
        "DIR",
        "The folder of the grid, which holds a folder for each server (also with GRID in the \
environment)",
    );
    match grid {
        Some(grid) => folder.default_value(grid).hide_default_value(true),
        None => folder.required(true),
    }
}

/// How many shares give a file back.
pub(crate) fn needed<'a>(alloc: Global) -> Arg<'a>
    ensures { HasRule (number (codes "k")) result }
{
    number(
        alloc,
        "k",
        "NUMBER",
        "How many shares give the file back, 1 to n [default: that of the grid, or 3]",
    )
}

/// How many servers have to hold a share of their own after a put.
pub(crate) fn put_happy<'a>(alloc: Global) -> Arg<'a>
    ensures { HasRule (number (codes "happy")) result }
{
    number(
        alloc,
        "happy",
        "NUMBER",
        "How many servers must hold a share of their own, 1 to n [default: that of the grid, or 7]",
    )
}

/// The same after a repair.
pub(crate) fn happy<'a>(alloc: Global) -> Arg<'a>
    ensures { HasRule happy result }
{
    number_or(
        alloc,
        "happy",
        "7",
        "How many servers must hold a share of their own, 1 to n",
    )
}

/// How many shares a file has.
pub(crate) fn total<'a>(alloc: Global) -> Arg<'a>
    ensures { HasRule (number (codes "n")) result }
{
    number(
        alloc,
        "n",
        "NUMBER",
        "How many shares are made, 1 to 256 [default: that of the grid, or 10]",
    )
}

/// The greatest segment of a file.
pub(crate) fn max_segment<'a>(alloc: Global) -> Arg<'a>
    ensures { HasRule (number (codes "segment")) result }
{
    number(
        alloc,
        "segment",
        "NUMBER",
        "The greatest segment in bytes, 1 to 1048576 [default: that of the grid, or 131072]",
    )
}

/// How many servers a file is put to.
pub(crate) fn servers<'a>(alloc: Global) -> Arg<'a>
    ensures { HasRule (number (codes "servers")) result }
{
    number(
        alloc,
        "servers",
        "NUMBER",
        "How many server folders are used, 1 to 256 [default: as many as the grid knows, or 10]",
    )
}

/// How many servers a grid has that is made.
pub(crate) fn new_servers<'a>(alloc: Global) -> Arg<'a>
    ensures { HasRule (number (codes "servers")) result }
{
    number(
        alloc,
        "servers",
        "NUMBER",
        "How many servers the grid has, 1 to 256 [default: 10]",
    )
}

/// A server of a new grid, or one that is added, which is served elsewhere.
pub(crate) fn server<'a>(alloc: Global) -> Result<Arg<'a>, AllocError>
    ensures { IfOk result (HasRule server) }
{
    let server = repeated(
        alloc,
        "server",
        "NUMBER=ADDRESS",
        "Let this server be the one that is served at ADDRESS, unix:PATH or an IP address with a \
port, as 3=10.8.0.5:7003; for each such server once",
    );
    server.conflicts_with("adopt")?.conflicts_with("replace")
}

/// The server whose folder was lost, and whose mark is given to an empty one.
pub(crate) fn replace<'a>(alloc: Global) -> Result<Arg<'a>, AllocError>
    ensures { IfOk result (HasRule replace) }
{
    let server = number(
        alloc,
        "replace",
        "NUMBER",
        "Give the empty folder of this server the mark of the one that was lost",
    );
    of_marked_grid(server)?.conflicts_with("add")
}

/// How many servers a grid gets besides its own.
pub(crate) fn add<'a>(alloc: Global) -> Result<Arg<'a>, AllocError>
    ensures { IfOk result (HasRule add) }
{
    of_marked_grid(number(alloc, "add", "NUMBER", "Add so many servers"))
}

// The argument, for a grid whose mark is there: nothing beside it says what the mark is to be.
fn of_marked_grid<'a>(arg: Arg<'a>) -> Result<Arg<'a>, AllocError>
    ensures { (rule : Rule) → HasRule rule arg.entry → IfOk result (HasRule (excluding rule)) }
{
    arg.conflicts_with_all(&[
        "adopt",
        "servers",
        "secret-file",
        "k",
        "n",
        "happy",
        "segment",
    ])
}

/// Whether a grid gets its mark back from its servers.
pub(crate) fn adopt<'a>(alloc: Global) -> Arg<'a>
    ensures { HasRule (flag (codes "adopt")) result }
{
    flag(
        alloc,
        "adopt",
        "Make the mark of the grid anew, by those of its servers",
    )
}

/// The file of the secret that a grid keeps.
pub(crate) fn kept_secret<'a>(alloc: Global) -> Arg<'a>
    ensures { HasRule (option (codes "secret-file")) result }
{
    option(
        alloc,
        "secret-file",
        "FILE",
        "Keep the secret in FILE with the grid, for every put; `new` draws one",
    )
}

// A number with a default.
fn number_or<'a>(alloc: Global, name: &'a str, default: &'a str, help: &'a str) -> Arg<'a>
    ensures { HasRule (number_or name.entry.now default.entry.now) result }
{
    number(alloc, name, "NUMBER", help).default_value(default)
}

/// A number below 2^64, whose place the help calls `value`.
pub(crate) fn number<'a>(alloc: Global, name: &'a str, value: &'a str, help: &'a str) -> Arg<'a>
    ensures { HasRule (number name.entry.now) result }
{
    option(alloc, name, value, help).value_parser(value_parser!(u64))
}

/// The secret that a key depends on, as a text.
pub(crate) fn secret<'a>(alloc: Global) -> Arg<'a>
    ensures { HasRule (option (codes "secret")) result }
{
    option(
        alloc,
        "secret",
        "TEXT",
        "A secret that the key depends on, of at most 64 bytes [default: that of the grid, or \
none]",
    )
}

/// The same in a file, and not beside a text.
pub(crate) fn secret_file<'a>(alloc: Global) -> Result<Arg<'a>, AllocError>
    ensures { IfOk result (HasRule secret_file) }
{
    option(
        alloc,
        "secret-file",
        "FILE",
        "A file that holds the secret, of at most 64 bytes, in place of --secret (also with \
GRID_SECRET_FILE in the environment)",
    )
    .conflicts_with("secret")
}

/// Where a file is written that is read.
pub(crate) fn output<'a>(alloc: Global) -> Arg<'a>
    ensures { HasRule output result }
{
    option(
        alloc,
        "output",
        "FILE",
        "Write to a file beside FILE, and rename that to FILE once it is whole",
    )
    .short('o')
}

/// Whether servers are asked over sockets.
pub(crate) fn net<'a>(alloc: Global) -> Arg<'a>
    ensures { HasRule (flag (codes "net")) result }
{
    flag(alloc, "net", "Ask the servers over sockets of this machine")
}

/// Whether shares count that are not on the disk yet.
pub(crate) fn no_sync<'a>(alloc: Global) -> Arg<'a>
    ensures { HasRule (flag (codes "no-sync")) result }
{
    flag(
        alloc,
        "no-sync",
        "Let a server say that a share is closed before it is on the disk",
    )
}

/// Whether damaged shares are set aside, once there are others in their place.
pub(crate) fn mend<'a>(alloc: Global) -> Arg<'a>
    ensures { HasRule (flag (codes "mend")) result }
{
    flag(
        alloc,
        "mend",
        "Rename damaged shares of the file to NAME.damaged, once all shares are made, so that they \
are put again",
    )
}

/// Whether a folder is refused that no `init` marked.
pub(crate) fn known<'a>(alloc: Global) -> Arg<'a>
    ensures { HasRule (flag (codes "known")) result }
{
    flag(
        alloc,
        "known",
        "Refuse a DIR that no `init` marked (also with GRID_KNOWN=1 in the environment)",
    )
}

/// The folder that is served.
pub(crate) fn served_folder<'a>(alloc: Global) -> Arg<'a>
    ensures { HasRule (operand (codes "FOLDER")) result }
{
    operand(
        alloc,
        "FOLDER",
        "The folder of the server, which has to stand",
    )
}

/// Where it is served.
pub(crate) fn listen<'a>(alloc: Global) -> Arg<'a>
    ensures { HasRule listen result }
{
    option(
        alloc,
        "listen",
        "ADDRESS",
        "unix:PATH, or an IP address with a port, as 127.0.0.1:7003",
    )
    .required(true)
}

/// Whether other machines may reach the address.
pub(crate) fn anyone<'a>(alloc: Global) -> Arg<'a>
    ensures { HasRule (flag (codes "anyone")) result }
{
    flag(
        alloc,
        "anyone",
        "Let other machines reach the address. Whoever reaches it may read, write and fill the \
folder, and what goes over the network is not encrypted but for the files themselves: use it in a \
private network or a tunnel",
    )
}

/// How many bytes of new shares are taken.
pub(crate) fn room<'a>(alloc: Global) -> Arg<'a>
    ensures { HasRule (number (codes "room")) result }
{
    number(
        alloc,
        "room",
        "BYTES",
        "Take at most so many bytes of new shares",
    )
}

/// The mark of the folder.
pub(crate) fn mark<'a>(alloc: Global) -> Arg<'a>
    ensures { HasRule (option (codes "mark")) result }
{
    option(
        alloc,
        "mark",
        "LINE",
        "Mark the folder with this line, where it has no mark: grid LETTERS server NUMBER",
    )
}

/// Whether a result is told as JSON.
pub(crate) fn json<'a>(alloc: Global) -> Arg<'a>
    ensures { HasRule (flag (codes "json")) result }
{
    flag(alloc, "json", "Print one JSON object a line")
}

/// Whether the servers are told that did not serve.
pub(crate) fn verbose<'a>(alloc: Global) -> Arg<'a>
    ensures { HasRule verbose result }
{
    flag(
        alloc,
        "verbose",
        "Tell each server that was silent, refused or was blamed, and why, on standard error",
    )
    .short('v')
}

/// A word that is there or not.
pub(crate) fn flag<'a>(alloc: Global, name: &'a str, help: &'a str) -> Arg<'a>
    ensures { HasRule (flag name.entry.now) result }
{
    Arg::new(alloc, name)
        .long(name)
        .action(ArgAction::SetTrue)
        .help(help)
}

// A word with a value behind it, which may stand there several times.
fn repeated<'a>(alloc: Global, name: &'a str, value: &'a str, help: &'a str) -> Arg<'a>
    ensures { HasRule (repeated name.entry.now) result }
{
    option(alloc, name, value, help).action(ArgAction::Append)
}

/// A word with a value behind it.
pub(crate) fn option<'a>(alloc: Global, name: &'a str, value: &'a str, help: &'a str) -> Arg<'a>
    ensures { HasRule (option name.entry.now) result }
{
    Arg::new(alloc, name)
        .long(name)
        .value_name(value)
        .help(help)
}
