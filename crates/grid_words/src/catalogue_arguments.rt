//! The arguments that tell whose cap is read: a word, a file, or the lines of a catalogue.

ghost use Rattle.std.specs.Prelude.{IfOk};
ghost use Rattle.clap.specs.Walk.{Rule};
ghost use Rattle.grid_words.specs.Builds.{HasRule};
ghost use Rattle.grid_words.specs.CommandLine.{cap_file, caps, chosen, excluding, into, one_cap};
ghost use Rattle.grid_words.specs.CommandLine.{overwrite};

use crate::arguments::{flag, option};
use clap::Arg;
use std::alloc::{AllocError, Global};

/// The cap of a file that is to be read, unless there is a catalogue: then it is a name.
pub(crate) fn read_cap<'a>(alloc: Global) -> Result<Arg<'a>, AllocError>
    ensures { IfOk result (HasRule one_cap) }
{
    one_cap(
        alloc,
        "The cap that `put` printed, or with --caps the first NAME",
    )
}

/// The same of a file whose shares are looked at.
pub(crate) fn verify_cap<'a>(alloc: Global) -> Result<Arg<'a>, AllocError>
    ensures { IfOk result (HasRule one_cap) }
{
    one_cap(
        alloc,
        "The cap that `put` printed, or its verify cap, or with --caps the first NAME",
    )
}

/// A word that is a cap, unless it stands in a file or a catalogue.
pub(crate) fn one_cap<'a>(alloc: Global, help: &'a str) -> Result<Arg<'a>, AllocError>
    ensures { IfOk result (HasRule one_cap) }
{
    Arg::new(alloc, "CAP")
        .help(help)
        .required_unless_present("caps")?
        .required_unless_present("cap-file")
}

/// The file that has the cap.
pub(crate) fn cap_file<'a>(alloc: Global) -> Result<Arg<'a>, AllocError>
    ensures { IfOk result (HasRule cap_file) }
{
    option(
        alloc,
        "cap-file",
        "FILE",
        "Take the cap that is the first line of FILE, in place of CAP; - is standard input",
    )
    .conflicts_with("CAP")?
    .conflicts_with("caps")
}

/// Names of the files of a catalogue, behind the first.
pub(crate) fn chosen<'a>(alloc: Global) -> Result<Arg<'a>, AllocError>
    ensures { IfOk result (HasRule chosen) }
{
    Arg::new(alloc, "NAME")
        .num_args(1..)
        .help(
            "With --caps take only files with these names, and those below folders with these \
names, in which * and ? stand for what they do in a shell",
        )
        .requires_arg("caps")
}

/// The catalogue whose files are looked at.
pub(crate) fn looked_at_caps<'a>(alloc: Global, help: &'a str) -> Result<Arg<'a>, AllocError>
    ensures { IfOk result (HasRule caps) }
{
    option(alloc, "caps", "CATALOGUE", help).conflicts_with("cap-file")
}

/// The catalogue whose files are to be read.
pub(crate) fn caps<'a>(alloc: Global) -> Result<Arg<'a>, AllocError>
    ensures { IfOk result (HasRule caps) }
{
    let arg = option(
        alloc,
        "caps",
        "CATALOGUE",
        "Get the files of a catalogue that `put` printed; - is standard input",
    );
    of_whole_files(arg.requires_arg("into")?)
}

// The argument, for files that are read whole: nothing beside it says which file it is, or what is
// read of it.
fn of_whole_files<'a>(arg: Arg<'a>) -> Result<Arg<'a>, AllocError>
    ensures { (rule : Rule) → HasRule rule arg.entry → IfOk result (HasRule (excluding rule)) }
{
    arg.conflicts_with("from")?
        .conflicts_with("to")?
        .conflicts_with("output")
}

/// The folder of its files.
pub(crate) fn into<'a>(alloc: Global) -> Result<Arg<'a>, AllocError>
    ensures { IfOk result (HasRule into) }
{
    option(
        alloc,
        "into",
        "FOLDER",
        "The folder below which they get their names, which is made where it is not there",
    )
    .requires_arg("caps")
}

/// Whether they may stand in place of others.
pub(crate) fn overwrite<'a>(alloc: Global) -> Result<Arg<'a>, AllocError>
    ensures { IfOk result (HasRule overwrite) }
{
    flag(
        alloc,
        "overwrite",
        "Write a file in place of one that is there, which is else refused",
    )
    .requires_arg("caps")
}
