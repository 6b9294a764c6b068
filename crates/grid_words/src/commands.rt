//! The commands, and what their help says.

ghost use Rattle.std.specs.Prelude.{IfOk, List, None, drop, option_map, take};
ghost use Rattle.clap.specs.Walk.{Rule};
ghost use Rattle.grid_words.specs.Builds.{HasShape, HaveRules, IsApp, MayHaveRules, shape_named};
ghost use Rattle.grid_words.specs.CommandLine.{bare_app, cap_shape, check_rules, check_shape};
ghost use Rattle.grid_words.specs.CommandLine.{get_rules, get_shape, grid_app, init_rules};
ghost use Rattle.grid_words.specs.CommandLine.{init_shape, put_rules, put_shape, repair_rules};
ghost use Rattle.grid_words.specs.CommandLine.{repair_shape, scrub_rules, scrub_shape};
ghost use Rattle.grid_words.specs.CommandLine.{serve_rules, serve_shape, shape, status_rules};
ghost use Rattle.grid_words.specs.CommandLine.{status_shape, verify_rules, verify_shape};
ghost use Rattle.grid_words.specs.CommandLine.{world_shape};

use crate::arguments::{
    add, adopt, anyone, files, files_from, files0_from, flag, grid_folder, happy, json,
    kept_secret, known, listen, mark, max_segment, mend, needed, net, new_grid, new_servers,
    no_sync, number, operand, output, put_happy, replace, room, secret, secret_file, served_folder,
    server, servers, since, total, verbose,
};
use crate::catalogue_arguments::{
    cap_file, caps, chosen, into, looked_at_caps, overwrite, read_cap, verify_cap,
};
use crate::verify_arguments::{
    keeping_grid, verified_below, verified_cap, verified_caps, verified_file,
};
use clap::{Arg, Command};
use std::alloc::{AllocError, Global};

/// The program's version.
pub const VERSION: &str = "0.1.0";

const STATUSES: &str =
    "Exit status: 0 done, 2 wrong words, 3 refused input, 4 unhappy, 5 shares missing or damaged, \
6 inconsistent, 7 file, socket or memory. A refusal is one line on standard error, with its number \
and name.";

/// The commands of `grid`.
#[derive(Clone, Copy)]
enum Name {
    Init,
    Put,
    Get,
    Check,
    Verify,
    Repair,
    Scrub,
    Status,
    Serve,
    World,
    Cap,
}

// In the order in which the help tells them.
const NAMES: [Name; 11] = [
    Name::Init,
    Name::Put,
    Name::Get,
    Name::Check,
    Name::Verify,
    Name::Repair,
    Name::Scrub,
    Name::Status,
    Name::Serve,
    Name::World,
    Name::Cap,
];

/// `grid` with all its commands. Without a word it shows its help, as a fault. A grid that is given
/// is meant where none is written.
pub(crate) fn grid_command<'a>(
    alloc: Global,
    grid: Option<&'a str>,
) -> Result<Command<'a>, AllocError>
    ensures { IfOk result (IsApp (grid_app (option_map (λ folder. folder.now) grid.entry))) }
{
    let mut command = bare_command(alloc)?;
    for name in &NAMES {
        command = command.subcommand(command_of(alloc, *name, grid)?)?;
    }
    Ok(command)
}

// `grid` without its commands.
fn bare_command<'a>(alloc: Global) -> Result<Command<'a>, AllocError>
    ensures { IfOk result (IsApp bare_app) }
{
    let command = Command::new(alloc, "grid").bin_name("grid")?;
    Ok(
        command
            .version(VERSION)
            .about(
                "Keeps files on a grid of servers that need not be trusted: \
encrypted, erasure-coded and checked.",
            )
            .after_help(STATUSES)
            .subcommand_required(true)
            .arg_required_else_help(true),
    )
}

fn command_of<'a>(
    alloc: Global,
    name: Name,
    grid: Option<&'a str>,
) -> Result<Command<'a>, AllocError>
    ensures { IfOk result
        (HasShape (shape_named (option_map (λ folder. folder.now) grid.entry) name)) }
{
    match name {
        Name::Init => init_command(alloc),
        Name::Put => put_command(alloc, grid),
        Name::Get => get_command(alloc, grid),
        Name::Check => check_command(alloc, grid),
        Name::Verify => verify_command(alloc, grid),
        Name::Repair => repair_command(alloc, grid),
        Name::Scrub => scrub_command(alloc, grid),
        Name::Status => status_command(alloc, grid),
        Name::Serve => serve_command(alloc),
        Name::World => world_command(alloc),
        Name::Cap => cap_command(alloc),
    }
}

fn init_command<'a>(alloc: Global) -> Result<Command<'a>, AllocError>
    ensures { IfOk result (HasShape init_shape) }
{
    command(
        alloc,
        "init",
        "Makes a grid that knows its servers: marks its folder and a folder for each server, and \
keeps what is in them. No command makes a folder there, and a folder without its mark is a silent \
server.",
        init_arguments(alloc)?,
    )
}

fn init_arguments<'a>(alloc: Global) -> Result<Vec<Arg<'a>>, AllocError>
    ensures { IfOk result (λ arguments. HaveRules init_rules arguments.items) }
{
    let arguments = vec![in alloc;
        Ok(new_grid(alloc)),
        Ok(new_servers(alloc)),
        server(alloc),
        replace(alloc),
        add(alloc),
        Ok(adopt(alloc)),
        Ok(kept_secret(alloc)),
        Ok(number(
            alloc,
            "k",
            "NUMBER",
            "Keep with the grid how many shares give a file back, for every put [default: 3]",
        )),
        Ok(number(
            alloc,
            "n",
            "NUMBER",
            "The same of how many shares are made [default: 10]",
        )),
        Ok(number(
            alloc,
            "happy",
            "NUMBER",
            "The same of how many servers must hold a share of their own [default: 7]",
        )),
        Ok(number(
            alloc,
            "segment",
            "NUMBER",
            "The same of the greatest segment in bytes [default: 131072]",
        )),
        Ok(verbose(alloc)),
    ]?;
    gathered(alloc, arguments)
}

fn put_command<'a>(alloc: Global, grid: Option<&'a str>) -> Result<Command<'a>, AllocError>
    ensures { IfOk result (HasShape (put_shape (option_map (λ folder. folder.now) grid.entry))) }
{
    let command = command(
        alloc,
        "put",
        "Stores a file and prints its cap, which gives it back, and how many servers hold shares \
of their own. Of several files, or of a list, or with --since, it prints a catalogue: a line for \
each that is stored, with its cap and its name. With --since it keeps the line of a file that has \
the size of its cap, and that was neither changed nor written since two seconds before CATALOGUE \
was begun: such a file is not read. So it does not see one that changed with no new time of change \
(as where a clock was set back, a disk was written beneath its file system, or another folder took \
this one's name), and it looks at no share: `grid check` does.",
        coding_arguments(alloc, grid)?,
    )?;
    command.args(storing_arguments(alloc)?)
}

// What `put` stores, and the numbers by which it is cut and placed.
fn coding_arguments<'a>(alloc: Global, grid: Option<&'a str>) -> Result<Vec<Arg<'a>>, AllocError>
    ensures { IfOk result (λ arguments. HaveRules
        (take 10 (put_rules (option_map (λ folder. folder.now) grid.entry))) arguments.items) }
{
    let arguments = vec![in alloc;
        files(alloc),
        files_from(alloc),
        Ok(files0_from(alloc)),
        Ok(since(alloc)),
        Ok(grid_folder(alloc, grid)),
        Ok(needed(alloc)),
        Ok(put_happy(alloc)),
        Ok(total(alloc)),
        Ok(max_segment(alloc)),
        Ok(servers(alloc)),
    ]?;
    gathered(alloc, arguments)
}

// How `put` keys, stores and tells.
fn storing_arguments<'a>(alloc: Global) -> Result<Vec<Arg<'a>>, AllocError>
    ensures { IfOk result (λ arguments. HaveRules (drop 10 (put_rules None)) arguments.items) }
{
    let arguments = vec![in alloc;
        Ok(secret(alloc)),
        secret_file(alloc),
        Ok(net(alloc)),
        Ok(no_sync(alloc)),
        Ok(mend(alloc)),
        Ok(flag(alloc, "quiet", "Print the cap alone").short('q')),
        Ok(known(alloc)),
        Ok(verbose(alloc)),
    ]?;
    gathered(alloc, arguments)
}

fn get_command<'a>(alloc: Global, grid: Option<&'a str>) -> Result<Command<'a>, AllocError>
    ensures { IfOk result (HasShape (get_shape (option_map (λ folder. folder.now) grid.entry))) }
{
    command(
        alloc,
        "get",
        "Writes the file of a cap, or a range of its bytes, to standard output or to a file. With \
--caps it writes the files of a catalogue below a folder, each under its name.",
        get_arguments(alloc, grid)?,
    )
}

fn get_arguments<'a>(alloc: Global, grid: Option<&'a str>) -> Result<Vec<Arg<'a>>, AllocError>
    ensures { IfOk result (λ arguments.
        HaveRules (get_rules (option_map (λ folder. folder.now) grid.entry)) arguments.items) }
{
    let arguments = vec![in alloc;
        read_cap(alloc),
        chosen(alloc),
        Ok(grid_folder(alloc, grid)),
        Ok(number(alloc, "from", "OFFSET", "The offset of the first byte").default_value("0")),
        Ok(number(
            alloc,
            "to",
            "OFFSET",
            "The offset behind the last byte [default: the file's size]",
        )),
        Ok(output(alloc)),
        cap_file(alloc),
        caps(alloc),
        into(alloc),
        overwrite(alloc),
        Ok(net(alloc)),
        Ok(known(alloc)),
        Ok(verbose(alloc)),
    ]?;
    gathered(alloc, arguments)
}

fn check_command<'a>(alloc: Global, grid: Option<&'a str>) -> Result<Command<'a>, AllocError>
    ensures { IfOk result (HasShape (check_shape (option_map (λ folder. folder.now) grid.entry))) }
{
    command(
        alloc,
        "check",
        "Reads each share of a cap's file that a server offers, and prints a verdict on each and \
on the file. With --caps it prints one line for each file of a catalogue, and how many there are.",
        check_arguments(alloc, grid)?,
    )
}

fn check_arguments<'a>(alloc: Global, grid: Option<&'a str>) -> Result<Vec<Arg<'a>>, AllocError>
    ensures { IfOk result (λ arguments.
        HaveRules (check_rules (option_map (λ folder. folder.now) grid.entry)) arguments.items) }
{
    let arguments = vec![in alloc;
        verify_cap(alloc),
        chosen(alloc),
        Ok(grid_folder(alloc, grid)),
        cap_file(alloc),
        looked_at_caps(
            alloc,
            "Check the files of a catalogue that `put` printed; - is standard input",
        ),
        Ok(net(alloc)),
        Ok(json(alloc)),
        Ok(flag(
            alloc,
            "strict",
            "End with status 5 where the file is not healthy",
        )),
        Ok(known(alloc)),
        Ok(verbose(alloc)),
    ]?;
    gathered(alloc, arguments)
}

fn verify_command<'a>(alloc: Global, grid: Option<&'a str>) -> Result<Command<'a>, AllocError>
    ensures { IfOk result (HasShape (verify_shape (option_map (λ folder. folder.now) grid.entry))) }
{
    command(
        alloc,
        "verify",
        "Tells whether a file is the one of its cap, without any server: the cap is made of the \
file again, by the numbers of the cap, and by the secret and the segment size with which the file \
was put. Prints `same`, or `differs` with status 5. With --caps it prints a line for each file of \
a catalogue, by its name, and how many there are.",
        verify_arguments(alloc, grid)?,
    )
}

fn verify_arguments<'a>(alloc: Global, grid: Option<&'a str>) -> Result<Vec<Arg<'a>>, AllocError>
    ensures { IfOk result (λ arguments.
        HaveRules (verify_rules (option_map (λ folder. folder.now) grid.entry)) arguments.items) }
{
    let arguments = vec![in alloc;
        verified_file(alloc),
        verified_cap(alloc),
        chosen(alloc),
        cap_file(alloc),
        verified_caps(alloc),
        verified_below(alloc),
        Ok(max_segment(alloc)),
        Ok(secret(alloc)),
        secret_file(alloc),
        Ok(keeping_grid(alloc, grid)),
        Ok(flag(
            alloc,
            "verbose",
            "Tell of each file that differs whether its size does, on standard error",
        )
        .short('v')),
    ]?;
    gathered(alloc, arguments)
}

fn repair_command<'a>(alloc: Global, grid: Option<&'a str>) -> Result<Command<'a>, AllocError>
    ensures { IfOk result (HasShape (repair_shape (option_map (λ folder. folder.now) grid.entry))) }
{
    command(
        alloc,
        "repair",
        "Makes the missing shares of a cap's file again, stores them, and prints how many servers \
hold shares of their own. With --caps it does so for each file of a catalogue.",
        repair_arguments(alloc, grid)?,
    )
}

fn repair_arguments<'a>(alloc: Global, grid: Option<&'a str>) -> Result<Vec<Arg<'a>>, AllocError>
    ensures { IfOk result (λ arguments.
        HaveRules (repair_rules (option_map (λ folder. folder.now) grid.entry)) arguments.items) }
{
    let arguments = vec![in alloc;
        verify_cap(alloc),
        chosen(alloc),
        Ok(grid_folder(alloc, grid)),
        cap_file(alloc),
        looked_at_caps(
            alloc,
            "Repair the files of a catalogue that `put` printed; - is standard input",
        ),
        Ok(happy(alloc)),
        Ok(net(alloc)),
        Ok(no_sync(alloc)),
        Ok(mend(alloc)),
        Ok(known(alloc)),
        Ok(verbose(alloc)),
    ]?;
    gathered(alloc, arguments)
}

fn scrub_command<'a>(alloc: Global, grid: Option<&'a str>) -> Result<Command<'a>, AllocError>
    ensures { IfOk result (HasShape (scrub_shape (option_map (λ folder. folder.now) grid.entry))) }
{
    command(
        alloc,
        "scrub",
        "Reads every closed share of every server folder and compares it with the digest in its \
name. Prints those that are damaged, and open files that nobody wrote to for 600 seconds.",
        scrub_arguments(alloc, grid)?,
    )
}

fn scrub_arguments<'a>(alloc: Global, grid: Option<&'a str>) -> Result<Vec<Arg<'a>>, AllocError>
    ensures { IfOk result (λ arguments.
        HaveRules (scrub_rules (option_map (λ folder. folder.now) grid.entry)) arguments.items) }
{
    Ok(vec![in alloc;
        grid_folder(alloc, grid),
        flag(
            alloc,
            "set-aside",
            "Rename each damaged file to NAME.damaged",
        ),
        flag(
            alloc,
            "remove-open",
            "Remove open files that nobody wrote to for 600 seconds",
        ),
        flag(
            alloc,
            "remove-damaged",
            "Remove files set aside (NAME.damaged) of shares that stand whole in the same folder",
        ),
        json(alloc),
        known(alloc),
        verbose(alloc),
    ]?)
}

fn status_command<'a>(alloc: Global, grid: Option<&'a str>) -> Result<Command<'a>, AllocError>
    ensures { IfOk result (HasShape (status_shape (option_map (λ folder. folder.now) grid.entry))) }
{
    command(
        alloc,
        "status",
        "Tells which servers of a grid stand, and how many shares, bytes, open files and damaged \
files are in their folders, by their names: no share is read, and no server is asked. Ends with \
status 4 where a server does not stand.",
        status_arguments(alloc, grid)?,
    )
}

fn status_arguments<'a>(alloc: Global, grid: Option<&'a str>) -> Result<Vec<Arg<'a>>, AllocError>
    ensures { IfOk result (λ arguments.
        HaveRules (status_rules (option_map (λ folder. folder.now) grid.entry)) arguments.items) }
{
    Ok(vec![in alloc;
        grid_folder(alloc, grid),
        flag(alloc, "json", "Print one JSON object"),
        known(alloc),
        flag(
            alloc,
            "verbose",
            "Tell why a server does not stand, on standard error",
        )
        .short('v'),
    ]?)
}

fn serve_command<'a>(alloc: Global) -> Result<Command<'a>, AllocError>
    ensures { IfOk result (HasShape serve_shape) }
{
    command(
        alloc,
        "serve",
        "Serves a folder as one server of a grid, until it is ended. It is for any number of \
clients.",
        serve_arguments(alloc)?,
    )
}

fn serve_arguments<'a>(alloc: Global) -> Result<Vec<Arg<'a>>, AllocError>
    ensures { IfOk result (λ arguments. HaveRules serve_rules arguments.items) }
{
    Ok(vec![in alloc;
        served_folder(alloc),
        listen(alloc),
        anyone(alloc),
        room(alloc),
        mark(alloc),
        no_sync(alloc),
        flag(
            alloc,
            "verbose",
            "Tell who comes and who goes, on standard error",
        )
        .short('v'),
    ]?)
}

fn world_command<'a>(alloc: Global) -> Result<Command<'a>, AllocError>
    ensures { IfOk result (HasShape world_shape) }
{
    let arguments = vec![in alloc; operand(alloc, "SCRIPT", "The file of the script")]?;
    command(
        alloc,
        "world",
        "Runs the script of a world: honest nodes and liars, with every delivery and fault as the \
script has it. Prints what became of each operation, and whether all bytes agree.",
        arguments,
    )
}

fn cap_command<'a>(alloc: Global) -> Result<Command<'a>, AllocError>
    ensures { IfOk result (HasShape cap_shape) }
{
    let arguments = vec![in alloc; operand(alloc, "CAP", "The cap")]?;
    command(
        alloc,
        "cap",
        "Prints what a cap says: its kind, its numbers, and the verify cap that checks without \
reading.",
        arguments,
    )
}

// The arguments, where there was memory for each.
fn gathered<'a>(
    alloc: Global,
    arguments: Vec<Result<Arg<'a>, AllocError>>,
) -> Result<Vec<Arg<'a>>, AllocError>
    ensures { (rules : List Rule) → MayHaveRules rules arguments.entry.items
        → IfOk result (λ gathered. HaveRules rules gathered.items) }
{
    let mut gathered = Vec::new(alloc);
    for argument in arguments {
        gathered.push(argument?)?;
    }
    Ok(gathered)
}

// A command with these arguments.
fn command<'a>(
    alloc: Global,
    name: &'a str,
    about: &'a str,
    arguments: Vec<Arg<'a>>,
) -> Result<Command<'a>, AllocError>
    ensures { (rules : List Rule) → HaveRules rules arguments.entry.items
        → IfOk result (HasShape (shape name.entry.now rules)) }
{
    let bare = Command::new(alloc, name).about(about).after_help(STATUSES);
    bare.args(arguments)
}
