//! `grid get`: bytes of a cap's file, from the servers of a grid.

ghost use Rattle.std.specs.Prelude.{◌≡◌, Err, IfErr, IfOk, IfSome, None, Ok, OnErr, OnOk, is_some};
ghost use Rattle.std.specs.Prelude.{length};
ghost use Rattle.cap_text.specs.Cap.{VerifyCapValue};
ghost use Rattle.cap_text.specs.CapText.{Spells};
ghost use Rattle.cap_text.specs.declared.cap.Cap.TheVariants.{Chk, Verify, Lit};
ghost use Rattle.grid_faults.specs.declared.fault.Fault.TheVariants as faults;
ghost use Rattle.grid_rules.specs.Range.{IsWithin};
ghost use Rattle.grid_servers.specs.Grids.{grid_calls};
ghost use Rattle.grid_telling.specs.declared.outcome.Failure.TheVariants as failures;
ghost use Rattle.grid_gets.specs.Files.{IsFileBy, IsFileOf, MayBeFileBy, MayBeFileOf};
ghost use Rattle.grid_gets.specs.Gets.{IsBegunBy, IsBegunOf, IsGotBy, IsGotOf, UnlessWriter};
ghost use Rattle.grid_gets.specs.Gets.{WereRead, bytes_in, file_size, range_by, whole_range};

use crate::output::NamedFiles;
use crate::sending::send;
use crate::standing::{OpenGrid, Place};
use cap_text::{Cap, ReadCap};
use grid_faults::Fault;
use grid_marks::known_grid;
use grid_rules::{ByteRange, range_of, read_cap};
use grid_telling::{Failure, Progress};
use grid_words::GetWords;
use std::io::{IsTerminal, Write};
use std::net::Net;
use std::random::RandomSource;
use std::rt::{Clock, Files};

/// Writes bytes of the file of a cap, to a file where one is named: from the cap itself where it
/// holds the file, else from what the servers answer, each segment once it is proved. With
/// `is_known` their grid has to be marked.
pub fn get<R, F, O, E>(
    rt: &R,
    words: &GetWords<'_>,
    is_known: bool,
    files: &mut F,
    out: &mut O,
    progress: &mut Progress<'_, R, E>,
) -> Result<(), Failure>
where
    R: Files + Net + Clock + RandomSource + AllocGlobal + Clone + Drop,
    F: NamedFiles,
    O: Write,
    E: Write + IsTerminal,
    ensures got { words.now.output ≡ None → OnOk result (IsGotBy (grid_calls R.Stream.contents
        R.Stream.remaining) words.now (O.contents out.old) (O.contents out.new)) }
    ensures begun { words.now.output ≡ None → IfErr result (λ failure. UnlessWriter failure
        (IsBegunBy (grid_calls R.Stream.contents R.Stream.remaining) words.now (O.contents out.old)
        (O.contents out.new))) }
    // With a file of a name the bytes are handed to it, and it is ended as whole only with all.
    ensures file { IfSome words.now.output (λ path. OnOk result (IsFileBy (grid_calls
        R.Stream.contents R.Stream.remaining) words.now path.now (Ok tt) (F.acts files.old)
        (F.acts files.new))) }
    ensures part { IfSome words.now.output (λ path. OnErr result (MayBeFileBy (grid_calls
        R.Stream.contents R.Stream.remaining) words.now path.now (F.acts files.old)
        (F.acts files.new))) }
    ensures kept { IfSome words.now.output (λ _. out.new ≡ out.old) }
    ensures unasked { words.now.output ≡ None → F.acts files.new ≡ F.acts files.old }
    ensures verify { (cap : VerifyCapValue) → Spells words.now.cap.now (Verify cap)
        → result ≡ Err (failures.Fault faults.NeedsReadCap) }
{
    let asked = asked_by(words)?;
    may_get(rt, words, is_known, &asked.cap)?;
    let place = Place {
        grid: words.grid,
        over_sockets: words.net,
    };
    let mut kept = None;
    match words.output {
        None => write_bytes(rt, &place, &asked, &mut kept, out, progress),
        Some(path) => write_file(rt, &place, path, &asked, &mut kept, files, progress),
    }
}

/// Writes the whole file of a cap to a file of this path, as `get` does with `-o`: from the servers
/// that are kept, or else from those of this place, which are opened. Those are kept from which it
/// was got.
pub fn get_file<'a, R, F, E>(
    rt: &'a R,
    place: &Place<'a>,
    cap: Cap,
    path: &str,
    kept: &mut Option<OpenGrid<'a, R>>,
    files: &mut F,
    progress: &mut Progress<'_, R, E>,
) -> Result<(), Failure>
where
    R: Files + Net + Clock + RandomSource + AllocGlobal + Clone + Drop,
    F: NamedFiles,
    E: Write + IsTerminal,
    requires { IfSome kept.old
        (WereRead (grid_calls R.Stream.contents R.Stream.remaining) place.now.grid.now) }
    ensures file { OnOk result (IsFileOf (grid_calls R.Stream.contents R.Stream.remaining)
        place.now.grid.now (is_some kept.old) cap (whole_range cap) path.now (Ok tt)
        (F.acts files.old) (F.acts files.new)) }
    ensures part { OnErr result (MayBeFileOf (grid_calls R.Stream.contents R.Stream.remaining)
        place.now.grid.now (is_some kept.old) cap (whole_range cap) path.now
        (F.acts files.old) (F.acts files.new)) }
    ensures kept { IfSome kept.new
        (WereRead (grid_calls R.Stream.contents R.Stream.remaining) place.now.grid.now) }
    ensures verify { (verify : VerifyCapValue) → cap ≡ Verify verify
        → result ≡ Err (failures.Fault faults.NeedsReadCap) }
{
    let to = size_of(&cap)?;
    let range = ByteRange { from: 0, to };
    let asked = Asked { cap, range };
    write_file(rt, place, path, &asked, kept, files, progress)
}

// What is asked for: a range of a cap's file.
#[derive(Drop)]
struct Asked {
    cap: Cap,
    range: ByteRange,
}

// What these words ask for. A verify cap does not read.
fn asked_by(words: &GetWords<'_>) -> Result<Asked, Fault>
    ensures spelled { IfOk result (λ asked. Spells words.now.cap.now asked.cap) }
    ensures range { IfOk result (λ asked. asked.range ≡ range_by words.now asked.cap) }
    ensures within { IfOk result (λ asked. IsWithin (file_size asked.cap) asked.range) }
    ensures verify { (cap : VerifyCapValue) → Spells words.now.cap.now (Verify cap)
        → result ≡ Err faults.NeedsReadCap }
{
    let cap = read_cap(words.cap)?;
    let size = size_of(&cap)?;
    let range = range_of(words.from, words.to, size)?;
    Ok(Asked { cap, range })
}

// The size of a cap's file. A verify cap does not read.
fn size_of(cap: &Cap) -> Result<u64, Fault>
    ensures size { IfOk result (λ size. size ≡ file_size cap.now) }
    ensures verify { (verify : VerifyCapValue) → cap.now ≡ Verify verify
        → result ≡ Err faults.NeedsReadCap }
{
    match cap {
        Cap::Chk(cap) => Ok(cap.size()),
        Cap::Verify(_) => Err(Fault::NeedsReadCap),
        Cap::Lit(cap) => Ok(cap.data().len() as u64),
    }
}

// Where only a grid that is marked is wanted, refuses to ask one that is not.
fn may_get<R>(rt: &R, words: &GetWords<'_>, is_known: bool, cap: &Cap) -> Result<(), Fault>
where
    R: Files + AllocGlobal,
{
    if is_known && matches!(cap, Cap::Chk(_)) {
        known_grid(rt, words.grid)?;
    }
    Ok(())
}

// Hands a range of a cap's file to a file of this path.
fn write_file<'a, R, F, E>(
    rt: &'a R,
    place: &Place<'a>,
    path: &str,
    asked: &Asked,
    kept: &mut Option<OpenGrid<'a, R>>,
    files: &mut F,
    progress: &mut Progress<'_, R, E>,
) -> Result<(), Failure>
where
    R: Files + Net + Clock + RandomSource + AllocGlobal + Clone + Drop,
    F: NamedFiles,
    E: Write + IsTerminal,
    requires within { IsWithin (file_size asked.now.cap) asked.now.range }
    requires kept { IfSome kept.old
        (WereRead (grid_calls R.Stream.contents R.Stream.remaining) place.now.grid.now) }
    ensures ok { OnOk result (IsFileOf (grid_calls R.Stream.contents R.Stream.remaining)
        place.now.grid.now (is_some kept.old) asked.now.cap asked.now.range path.now (Ok tt)
        (F.acts files.old) (F.acts files.new)) }
    ensures err { OnErr result (MayBeFileOf (grid_calls R.Stream.contents R.Stream.remaining)
        place.now.grid.now (is_some kept.old) asked.now.cap asked.now.range path.now
        (F.acts files.old) (F.acts files.new)) }
    ensures kept { IfSome kept.new
        (WereRead (grid_calls R.Stream.contents R.Stream.remaining) place.now.grid.now) }
{
    let mut file = files.open(path)?;
    let written = write_bytes(rt, place, asked, kept, &mut file, progress);
    files.end(file, written)
}

// Writes a range of a cap's file.
fn write_bytes<'a, R, O, E>(
    rt: &'a R,
    place: &Place<'a>,
    asked: &Asked,
    kept: &mut Option<OpenGrid<'a, R>>,
    out: &mut O,
    progress: &mut Progress<'_, R, E>,
) -> Result<(), Failure>
where
    R: Files + Net + Clock + RandomSource + AllocGlobal + Clone + Drop,
    O: Write,
    E: Write + IsTerminal,
    requires within { IsWithin (file_size asked.now.cap) asked.now.range }
    requires kept { IfSome kept.old
        (WereRead (grid_calls R.Stream.contents R.Stream.remaining) place.now.grid.now) }
    ensures ok { OnOk result (IsGotOf (grid_calls R.Stream.contents R.Stream.remaining)
        place.now.grid.now (is_some kept.old) asked.now.cap asked.now.range
        (O.contents out.old) (O.contents out.new)) }
    ensures err { IfErr result (λ failure. UnlessWriter failure (IsBegunOf
        (grid_calls R.Stream.contents R.Stream.remaining) place.now.grid.now (is_some kept.old)
        asked.now.range (O.contents out.old) (O.contents out.new) asked.now.cap)) }
    ensures kept { IfSome kept.new
        (WereRead (grid_calls R.Stream.contents R.Stream.remaining) place.now.grid.now) }
{
    match &asked.cap {
        Cap::Chk(cap) => get_range(rt, place, cap, &asked.range, kept, out, progress),
        Cap::Verify(_) => Err(Failure::Fault(Fault::NeedsReadCap)),
        Cap::Lit(cap) => send(out, bytes_in(cap.data(), &asked.range)),
    }
}

// The bytes of a range, which are there.
fn bytes_in<'a>(bytes: &'a [u8], range: &ByteRange) -> &'a [u8]
    requires { IsWithin (length bytes.now) range.now }
    ensures { result.now ≡ bytes_in bytes.now range.now }
{
    &bytes[range.from as usize..range.to as usize]
}

// Writes a range of a cap's file from what the servers answer.
fn get_range<'a, R, O, E>(
    rt: &'a R,
    place: &Place<'a>,
    cap: &ReadCap,
    range: &ByteRange,
    kept: &mut Option<OpenGrid<'a, R>>,
    out: &mut O,
    progress: &mut Progress<'_, R, E>,
) -> Result<(), Failure>
where
    R: Files + Net + Clock + RandomSource + AllocGlobal + Clone + Drop,
    O: Write,
    E: Write + IsTerminal,
    requires within { IsWithin cap.now.size range.now }
    requires kept { IfSome kept.old
        (WereRead (grid_calls R.Stream.contents R.Stream.remaining) place.now.grid.now) }
    ensures ok { OnOk result (IsGotOf (grid_calls R.Stream.contents R.Stream.remaining)
        place.now.grid.now (is_some kept.old) (Chk cap.now) range.now (O.contents out.old)
        (O.contents out.new)) }
    ensures err { IfErr result (λ failure. UnlessWriter failure (IsBegunOf
        (grid_calls R.Stream.contents R.Stream.remaining) place.now.grid.now (is_some kept.old)
        range.now (O.contents out.old) (O.contents out.new) (Chk cap.now))) }
    ensures kept { IfSome kept.new
        (WereRead (grid_calls R.Stream.contents R.Stream.remaining) place.now.grid.now) }
{
    let mut open = OpenGrid::take(rt, place, kept)?;
    let written = open.write_range(cap, range, out, progress);
    let noted = open.note(rt, place, progress);
    written?;
    noted?;
    *kept = Some(open);
    Ok(())
}
