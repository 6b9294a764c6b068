//! The arguments of a `verify` that no other command has.

ghost use Rattle.std.specs.Prelude.{IfOk, option_map};
ghost use Rattle.grid_words.specs.Builds.{HasRule};
ghost use Rattle.grid_words.specs.CommandLine.{caps, into, keeping_grid, one_cap, one_file};

use crate::arguments::option;
use crate::catalogue_arguments::{looked_at_caps, one_cap};
use clap::Arg;
use std::alloc::{AllocError, Global};

/// The file that is compared with its cap, unless there is a catalogue: then it is a name.
pub(crate) fn verified_file<'a>(alloc: Global) -> Result<Arg<'a>, AllocError>
    ensures { IfOk result (HasRule one_file) }
{
    Arg::new(alloc, "FILE")
        .help("The file, or - for standard input, or with --caps the first NAME")
        .required_unless_present("caps")
}

/// Its cap.
pub(crate) fn verified_cap<'a>(alloc: Global) -> Result<Arg<'a>, AllocError>
    ensures { IfOk result (HasRule one_cap) }
{
    one_cap(
        alloc,
        "The cap that `put` printed, or its verify cap, or with --caps the second NAME",
    )
}

/// The catalogue whose files are compared. It tells the size of segments itself.
pub(crate) fn verified_caps<'a>(alloc: Global) -> Result<Arg<'a>, AllocError>
    ensures { IfOk result (HasRule caps) }
{
    let arg = looked_at_caps(
        alloc,
        "Verify the files of a catalogue that `put` printed, by its segment size; - is standard \
input",
    )?;
    arg.conflicts_with("segment")
}

/// The folder below which its files are looked for.
pub(crate) fn verified_below<'a>(alloc: Global) -> Result<Arg<'a>, AllocError>
    ensures { IfOk result (HasRule into) }
{
    option(
        alloc,
        "into",
        "FOLDER",
        "Take the files that stand below FOLDER, where `get --into FOLDER` writes them",
    )
    .requires_arg("caps")
}

/// The folder of a grid that keeps the secret. The help does not tell which one is meant if none is
/// written.
pub(crate) fn keeping_grid<'a>(alloc: Global, grid: Option<&'a str>) -> Arg<'a>
    ensures { HasRule (keeping_grid (option_map (λ folder. folder.now) grid.entry)) result }
{
    let folder = option(
        alloc,
        "grid",
        "DIR",
        "The folder of a grid, where no secret is said: the one that it keeps is taken (also with \
GRID in the environment)",
    );
    match grid {
        Some(grid) => folder.default_value(grid).hide_default_value(true),
        None => folder,
    }
}
