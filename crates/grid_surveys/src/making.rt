//! By what a `verify` compares files: the words that it may have, the size of segments and the
//! secret.

ghost use Rattle.std.specs.Prelude.{◌≡◌, ◌≤◌, IfOk, IsOk, None, Some, codes, option_map, true};
ghost use Rattle.grid_surveys.specs.Verifies.{IsSegment, IsUnder};
ghost use Rattle.tagged_hash.specs.ConvergentKey.{IsSecret};

use file_encoding::MAX_CHOSEN_SEGMENT_SIZE;
use grid_faults::{Fault, Limit};
use grid_lists::find_grid;
use grid_shares::{Environment, USUAL_MAX_SEGMENT, grid_ways, said_secret, secret_of};
use grid_telling::{Progress, note_limits};
use grid_words::{STANDARD_INPUT, SecretWords, VerifyWords};
use std::io::{IsTerminal, Write};
use std::rt::{Clock, Files};

/// Refuses words by which standard input is to be both the file and what has its cap, and tells it.
pub fn may_verify<R, E>(
    words: &VerifyWords<'_>,
    progress: &mut Progress<'_, R, E>,
) -> Result<(), Fault>
where
    R: Clock + AllocGlobal,
    E: Write + IsTerminal,
    ensures { IsOk result → words.now.file.now ≡ codes "-"
        → ¬ (option_map (λ path. path.now) words.now.cap_file ≡ Some (codes "-")) }
{
    if words.file == STANDARD_INPUT && is_input(words.cap_file) {
        progress.tell(FILE_AND_CAP);
        return Err(Fault::BadParameters);
    }
    Ok(())
}

const FILE_AND_CAP: &str = "standard input is the file, and cannot have the cap too\n";

// Whether a path is named, and stands for standard input.
fn is_input(path: Option<&str>) -> bool
    ensures { option_map (λ p. p.now) path.entry ≡ Some (codes "-") → result ≡ true }
{
    match path {
        Some(path) => path == STANDARD_INPUT,
        None => false,
    }
}

/// The size of segments that words write, else that of the ways of a grid which they name, and else
/// the usual one. One that is written and may not be chosen is refused, and told.
pub(crate) fn segment_for<R, E>(
    rt: &R,
    words: &VerifyWords<'_>,
    progress: &mut Progress<'_, R, E>,
) -> Result<u64, Fault>
where
    R: Files + Clock + AllocGlobal,
    E: Write + IsTerminal,
    ensures { IfOk result (IsSegment words.now.max_segment words.now.grid) }
{
    match (words.max_segment, words.grid) {
        (Some(written), _) => {
            may_be_segment(rt, written, progress)?;
            Ok(written)
        }
        (None, Some(grid)) => match grid_ways(rt, grid)? {
            Some(ways) => Ok(u64::from(ways.max_segment())),
            None => Ok(USUAL_MAX_SEGMENT),
        },
        (None, None) => Ok(USUAL_MAX_SEGMENT),
    }
}

// Refuses a size of segments that may not be chosen, and tells it.
fn may_be_segment<R, E>(
    rt: &R,
    max_segment: u64,
    progress: &mut Progress<'_, R, E>,
) -> Result<(), Fault>
where
    R: Clock + AllocGlobal,
    E: Write + IsTerminal,
    ensures { IsOk result → (1 ≤ max_segment) × (max_segment ≤ MAX_CHOSEN_SEGMENT_SIZE) }
{
    let limit = Limit {
        option: "--segment",
        value: max_segment,
        least: 1,
        most: u64::from(MAX_CHOSEN_SEGMENT_SIZE),
    };
    note_limits(rt, &[limit], progress)?;
    if max_segment == 0 || max_segment > u64::from(MAX_CHOSEN_SEGMENT_SIZE) {
        return Err(Fault::BadParameters);
    }
    Ok(())
}

/// The secret that words say, else that of the file which the environment names, else that of a
/// grid which they name, and else no byte.
pub(crate) fn secret_for<R, E>(
    rt: &R,
    words: &SecretWords<'_>,
    grid: Option<&str>,
    environment: &Environment<'_>,
    progress: &mut Progress<'_, R, E>,
) -> Result<Vec<u8>, Fault>
where
    R: Files + Clock + AllocGlobal + Clone + Drop,
    E: Write + IsTerminal,
    ensures secret { IfOk result (λ secret. IsSecret secret.items) }
    ensures under { IfOk result
        (λ secret. IsUnder words.now environment.now.secret_file grid.entry secret.items) }
{
    match said_secret(rt, words, environment.secret_file, progress)? {
        Some(secret) => Ok(secret),
        None => kept_secret(rt, grid, environment.known),
    }
}

// The secret that a grid keeps, if one is named; else, and where it keeps none, no byte.
fn kept_secret<R>(rt: &R, grid: Option<&str>, is_known: bool) -> Result<Vec<u8>, Fault>
where
    R: Files + AllocGlobal + Clone + Drop,
    ensures secret { IfOk result (λ secret. IsSecret secret.items) }
    ensures none { IfOk result (λ secret. IsUnder SecretWords.Unsaid None grid.entry secret.items) }
{
    match grid {
        Some(grid) => {
            find_grid(rt, grid, is_known)?;
            secret_of(rt, grid, None)
        }
        None => Ok(Vec::new(rt.alloc())),
    }
}
