// Puts of several files: words and lists, odd names, and files that are refused.

use crate::list_runs::{Came, ONES, run};
use catalogues::entry_count;
use std::alloc::AllocError;
use std::test::Fail;
use test_folders::{begins, path, placed, removes_all, writes};

// The cap of 56 zero bytes, at one share of one, which was computed by programs that share no code
// with these crates; and those of small files, which hold them in base32.
const ZEROS_CAP: &str = "URI:CHK:vwuwqphq6vtyhagrqwyqajtjoq:\
    mulphu6sadrudv3w5tjchnmax5njyq74hibk3qaudszblkawpxgq:1:1:56";

const ONE_CAP: &str = "URI:LIT:n5xgk";

const TWO_CAP: &str = "URI:LIT:or3w6";

const EMPTY_CAP: &str = "URI:LIT:";

// A put of three files of the folder under odd names.
fn put_odd_names(rt: &HostRuntime) -> Result<Came, AllocError> {
    let (zeros, one) = (path(rt, "/all zeros")?, path(rt, "/o\\n\ne")?);
    let (empty, grid) = (path(rt, "/empty")?, path(rt, "/grid")?);
    let files = [zeros.as_str(), one.as_str(), empty.as_str()];
    Ok(run(rt, "put", &files, grid.as_str(), &ONES))
}

// Whether a put wrote these lines, in which each `@` is the folder, of so many files.
fn wrote_lines(rt: &HostRuntime, came: &Came, lines: &str, count: u64) -> Result<bool, AllocError> {
    let lines = placed(rt, lines)?;
    let is_counted = matches!(entry_count(came.out.as_slice()), Ok(found) if found == count);
    Ok(is_counted && came.lines() == lines.as_bytes())
}

// Of several files a catalogue is written: the caps and the names as they were given, in order.
#[test]
fn several_files_make_a_catalogue(rt: HostRuntime) -> Result<(), Fail> {
    assert!(rt; begins(&rt));
    writes(&rt, "/all zeros", &[0; 56])?;
    writes(&rt, "/o\\n\ne", b"one")?;
    writes(&rt, "/empty", b"")?;
    let came = put_odd_names(&rt)?;
    let lines = format!(in rt.alloc();
        "{ZEROS_CAP}  @/all zeros\n\\{ONE_CAP}  @/o\\\\n\\ne\n{EMPTY_CAP}  @/empty\n"
    )?;
    assert!(rt; came.status == 0 && came.told.is_empty());
    assert!(rt; came.out.starts_with(b"# grid catalogue 1 begun "));
    assert!(rt; wrote_lines(&rt, &came, lines.as_str(), 3)?);
    assert!(rt; removes_all(&rt));
    Ok(())
}

// Writes a list of these names: each ends with a byte of zero, and the last lacks it.
fn write_names(rt: &HostRuntime, names: &[&[u8]]) -> Result<(), Fail> {
    let mut all = Vec::new(rt.alloc());
    for name in names {
        all.extend_from_slice(name)?;
        all.push(0)?;
    }
    all.pop();
    Ok(writes(rt, "/list", all.as_slice())?)
}

// A list of names of which two are files.
fn list_odd_names(rt: &HostRuntime) -> Result<(), Fail> {
    let (gone, one) = (path(rt, "/gone")?, path(rt, "/o\ne")?);
    let (grid, two) = (path(rt, "/grid")?, path(rt, "/two")?);
    let (gone, one) = (gone.as_bytes(), one.as_bytes());
    write_names(
        rt,
        &[gone, one, b"", b"\xff\n", grid.as_bytes(), two.as_bytes()],
    )
}

// A put of these files, and of those of the list, by this option.
fn put_list(rt: &HostRuntime, files: &[&str], option: &str) -> Result<Came, AllocError> {
    let (list, grid) = (path(rt, "/list")?, path(rt, "/grid")?);
    Ok(run(rt, "put", files, grid.as_str(), &[option, list.as_str()]))
}

// Whether each of the others is told with its name.
fn tells_odd_names(rt: &HostRuntime, came: &Came) -> Result<bool, AllocError> {
    let missing = placed(rt, "grid: 90 FileFault @/gone (@/gone)")?;
    Ok(
        came.tells(missing.as_bytes())
            && came.tells(b"grid: 90 FileFault  ()")
            && came.tells("grid: 90 FileFault \u{fffd}? (\u{fffd}?)".as_bytes()),
    )
}

// The names of a list: each ends with its byte, and the last may lack it. One that is no path, or
// at which no file stands, is told with its name; the others are stored.
#[test]
fn lists_with_odd_names(rt: HostRuntime) -> Result<(), Fail> {
    assert!(rt; begins(&rt));
    writes(&rt, "/o\ne", b"one")?;
    writes(&rt, "/two", b"two")?;
    list_odd_names(&rt)?;
    let came = put_list(&rt, &[], "--files0-from")?;
    let lines = format!(in rt.alloc(); "\\{ONE_CAP}  @/o\\ne\n{TWO_CAP}  @/two\n")?;
    assert!(rt; came.status == 7 && wrote_lines(&rt, &came, lines.as_str(), 2)?);
    assert!(rt; tells_odd_names(&rt, &came)? && removes_all(&rt));
    Ok(())
}

// A put of the file `one`, and of those of a list of lines.
fn put_word_and_lines(rt: &HostRuntime) -> Result<Came, Fail> {
    let (one, names) = (path(rt, "/one")?, placed(rt, "-\n@/two\n")?);
    writes(rt, "/list", names.as_bytes())?;
    Ok(put_list(rt, &[one.as_str()], "--files-from")?)
}

// A list of lines, behind a file that is a word; in a list `-` is a file of that name.
#[test]
fn words_and_lines(rt: HostRuntime) -> Result<(), Fail> {
    assert!(rt; begins(&rt));
    writes(&rt, "/one", b"one")?;
    writes(&rt, "/two", b"two")?;
    let came = put_word_and_lines(&rt)?;
    let lines = format!(in rt.alloc(); "{ONE_CAP}  @/one\n{TWO_CAP}  @/two\n")?;
    assert!(rt; came.status == 7 && wrote_lines(&rt, &came, lines.as_str(), 2)?);
    assert!(rt; came.tells(b"grid: 90 FileFault ./- (-)") && removes_all(&rt));
    Ok(())
}

// Whether a put of the file `one` twice is refused with this status before its first line.
fn twice_is_refused(
    rt: &HostRuntime,
    grid: &str,
    more: &[&str],
    status: u8,
) -> Result<bool, AllocError> {
    let (one, grid) = (path(rt, "/one")?, path(rt, grid)?);
    let files = [one.as_str(), one.as_str()];
    Ok(run(rt, "put", &files, grid.as_str(), more).is_silent(status))
}

// What may not be, and a list that cannot be read, end a put before its first line.
#[test]
fn nothing_is_begun(rt: HostRuntime) -> Result<(), Fail> {
    assert!(rt; begins(&rt));
    writes(&rt, "/one", b"one")?;
    assert!(rt; twice_is_refused(&rt, "/grid", &["--k", "11"], 3)?);
    assert!(rt; twice_is_refused(&rt, "/one", &[], 7)?);
    assert!(rt; put_list(&rt, &[], "--files-from")?.is_silent(7));
    let grid = path(&rt, "/grid")?;
    assert!(rt; run(&rt, "put", &[], grid.as_str(), &[]).is_silent(2));
    let came = run(&rt, "put", &["-"], grid.as_str(), &["--files-from", "-"]);
    assert!(rt; came.is_silent(3));
    assert!(rt; came.tells(b"standard input is the list, and cannot be a file too"));
    assert!(rt; removes_all(&rt));
    Ok(())
}
