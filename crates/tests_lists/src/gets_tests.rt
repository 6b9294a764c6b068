// Gets of the files of a catalogue: under their names, and nowhere else.

use crate::list_runs::{Came, ONES, run};
use std::alloc::{AllocError, Global};
use std::fs;
use std::os::unix::fs::symlink;
use std::test::Fail;
use test_folders::{begins, makes_folder, path, placed, removes_all, stands, writes};

// The first line of a catalogue, and the cap of three bytes, which holds them in base32.
const HEAD: &str = "# grid catalogue 1 begun 1764404400.123456789 k 3 n 10 segment 131072 \
    under w3hm5rcm33g237wuaijiuuup7q\n";

const ONE_CAP: &str = "URI:LIT:n5xgk";

// The words that name a catalogue and the folder of its files, and more behind them.
fn words_of<'a>(
    rt: &HostRuntime,
    caps: &'a str,
    into: &'a str,
    more: &[&'a str],
) -> Result<Vec<&'a str>, AllocError> {
    let mut words = Vec::from_slice(rt.alloc(), &["--caps", caps, "--into", into])?;
    words.extend_from_slice(more)?;
    Ok(words)
}

// Gets of this process's catalogue, with these words behind it.
fn get(rt: &HostRuntime, names: &[&str], more: &[&str]) -> Result<Came, AllocError> {
    let (grid, caps, into) = (path(rt, "/grid")?, path(rt, "/caps")?, path(rt, "/into")?);
    let words = words_of(rt, caps.as_str(), into.as_str(), more)?;
    Ok(run(rt, "get", names, grid.as_str(), words.as_slice()))
}

// Whether a file below the folder into which files are got has these bytes.
fn has(rt: &HostRuntime, name: &str, bytes: &[u8]) -> Result<bool, Fail> {
    let path = format!(in rt.alloc(); "{}/{name}", path(rt, "/into")?)?;
    match fs::read(rt, path.as_str()) {
        Ok(found) => Ok(found.as_slice() == bytes),
        Err(_) => Ok(false),
    }
}

// Makes a catalogue of files that all hold the same three bytes, over a grid without a server.
fn list(rt: &HostRuntime, names: &[&str]) -> Result<(), Fail> {
    let mut text = String::from_str(rt.alloc(), HEAD)?;
    for name in names {
        text.push_str(format!(in rt.alloc(); "{ONE_CAP}  {name}\n")?.as_str())?;
    }
    fs::create_dir_all(rt, path(rt, "/grid")?.as_str())?;
    fs::write(rt, path(rt, "/caps")?.as_str(), text.as_str())?;
    Ok(())
}

// Puts files of zeros and of ones, and one under an odd name; and writes the catalogue of them.
fn store_three(rt: &HostRuntime) -> Result<bool, Fail> {
    let (zeros, ones) = (path(rt, "/all zeros")?, path(rt, "/ones")?);
    let (odd, grid) = (path(rt, "/o\\n\ne")?, path(rt, "/grid")?);
    fs::write(rt, zeros.as_str(), [0; 56])?;
    fs::write(rt, ones.as_str(), [1; 56])?;
    fs::write(rt, odd.as_str(), "one")?;
    let files = [zeros.as_str(), odd.as_str(), ones.as_str()];
    let came = run(rt, "put", &files, grid.as_str(), &ONES);
    fs::write(rt, path(rt, "/caps")?.as_str(), came.out.as_slice())?;
    Ok(came.status == 0)
}

// Whether a file of this process's folder came back with these bytes.
fn has_own(rt: &HostRuntime, rest: &str, bytes: &[u8]) -> Result<bool, Fail> {
    has(rt, path(rt, rest)?.as_str(), bytes)
}

// Files that were put come back below a folder, over servers that stay open from one to the next.
#[test]
fn files_come_back(rt: HostRuntime) -> Result<(), Fail> {
    assert!(rt; begins(&rt));
    assert!(rt; store_three(&rt)?);
    let got = get(&rt, &[], &[])?;
    assert!(rt; got.status == 0 && got.out.is_empty() && got.told.is_empty());
    assert!(rt; has_own(&rt, "/all zeros", &[0; 56])? && has_own(&rt, "/ones", &[1; 56])?);
    assert!(rt; has_own(&rt, "/o\\n\ne", b"one")?);
    assert!(rt; removes_all(&rt));
    Ok(())
}

// A name of so many letters.
fn long_name(alloc: Global, length: usize) -> Result<String, AllocError> {
    let mut name = String::new(alloc);
    for _ in 0..length {
        name.push('n')?;
    }
    Ok(name)
}

// Names that are as long as file systems take them come back: the new file beside has another.
#[test]
fn long_names_come_back(rt: HostRuntime) -> Result<(), Fail> {
    assert!(rt; begins(&rt));
    let (most, less) = (long_name(rt.alloc(), 255)?, long_name(rt.alloc(), 248)?);
    list(&rt, &[most.as_str(), less.as_str()])?;
    let got = get(&rt, &[], &[])?;
    assert!(rt; got.status == 0 && got.told.is_empty());
    assert!(rt; has(&rt, most.as_str(), b"one")? && has(&rt, less.as_str(), b"one")?);
    assert!(rt; removes_all(&rt));
    Ok(())
}

// Whether a get of all is refused where another file stands under a name, which is told and stays.
fn stays_unasked(rt: &HostRuntime, name: &str) -> Result<bool, Fail> {
    let into = format!(in rt.alloc(); "{}{name}", path(rt, "/into")?)?;
    fs::write(rt, into.as_str(), "another")?;
    let told = format!(in rt.alloc(); "grid: 90 FileFault {into} ({name})")?;
    let refused = get(rt, &[], &[])?;
    let is_told = refused.status == 7 && refused.tells(told.as_bytes());
    Ok(is_told && has(rt, name, b"another")?)
}

// Whether it is written over where that is asked for.
fn goes_when_asked(rt: &HostRuntime, name: &str) -> Result<bool, Fail> {
    let over = get(rt, &[name], &["--overwrite"])?;
    Ok(over.status == 0 && over.told.is_empty() && has(rt, name, &[1; 56])?)
}

// None is written in place of another unless that is asked for.
#[test]
fn no_file_is_replaced_unasked(rt: HostRuntime) -> Result<(), Fail> {
    assert!(rt; begins(&rt));
    assert!(rt; store_three(&rt)?);
    let ones = path(&rt, "/ones")?;
    assert!(rt; get(&rt, &[ones.as_str()], &[])?.status == 0);
    assert!(rt; stays_unasked(&rt, ones.as_str())? && goes_when_asked(&rt, ones.as_str())?);
    assert!(rt; removes_all(&rt));
    Ok(())
}

// Makes a folder outside, and a link to it among those into which files are got.
fn link_outside(rt: &HostRuntime) -> Result<(), Fail> {
    makes_folder(rt, "/into")?;
    makes_folder(rt, "/outside")?;
    let (outside, link) = (path(rt, "/outside")?, path(rt, "/into/link")?);
    symlink(rt, outside.as_str(), link.as_str())?;
    Ok(())
}

// Whether a line is told, in which each `@` is the folder.
fn tells(rt: &HostRuntime, came: &Came, line: &str) -> Result<bool, AllocError> {
    Ok(came.tells(placed(rt, line)?.as_bytes()))
}

// A name that leads outside is refused, and so is one through a link, and what is no line; the
// files of other lines are written.
#[test]
fn nothing_is_written_outside(rt: HostRuntime) -> Result<(), Fail> {
    assert!(rt; begins(&rt));
    list(&rt, &["../up", "link/file", "a/b/c", "a/b", "link"])?;
    link_outside(&rt)?;
    let got = get(&rt, &[], &["--overwrite"])?;
    assert!(rt; got.status == 3 && got.tells(b"grid: 112 BadName (../up)"));
    assert!(rt; tells(&rt, &got, "grid: 90 FileFault @/into/link (link/file)")?);
    assert!(rt; tells(&rt, &got, "grid: 90 FileFault @/into/link (link)")?);
    assert!(rt; tells(&rt, &got, "grid: 90 FileFault @/into/a/b (a/b)")?);
    assert!(rt; has(&rt, "a/b/c", b"one")?);
    assert!(rt; !stands(&rt, "/up")? && !stands(&rt, "/outside/file")?);
    assert!(rt; removes_all(&rt));
    Ok(())
}

// The names of a catalogue.
const NAMES: [&str; 7] = [
    "./a.jpg",
    "/b.jpg",
    "c/d.jpg",
    "c/e*",
    "c/e",
    "c/\u{e9}f",
    "c/g/h",
];

// Patterns, and which of those names each chooses.
static CHOICES: [(&str, [bool; 7]); 9] = [
    ("*", [true, true, true, true, true, true, true]),
    ("*.jpg", [true, true, false, false, false, false, false]),
    ("/?.jpg", [true, true, false, false, false, false, false]),
    ("c/?f", [false, false, false, false, false, true, false]),
    ("c/e\\*", [false, false, false, true, false, false, false]),
    ("c/?*", [false, false, true, true, true, true, true]),
    ("./c/g", [false, false, false, false, false, false, true]),
    ("c/e", [false, false, false, false, true, false, false]),
    ("*/*/*", [false, false, false, false, false, false, true]),
];

// Whether the files that stand now are those that were chosen. They are removed then.
fn are_chosen(rt: &HostRuntime, chosen: &[bool; 7]) -> Result<bool, Fail> {
    let mut all = true;
    for (name, is_chosen) in NAMES.iter().zip(chosen.iter()) {
        all = all && has(rt, *name, b"one")? == *is_chosen;
    }
    fs::remove_dir_all(rt, path(rt, "/into")?.as_str())?;
    Ok(all)
}

// Whether a get of these names ends well, and tells nothing.
fn gets(rt: &HostRuntime, names: &[&str]) -> Result<bool, AllocError> {
    let got = get(rt, names, &[])?;
    Ok(got.status == 0 && got.told.is_empty())
}

// Names choose files as a shell's patterns do, and those below folders; that none is chosen is
// told.
#[test]
fn names_choose(rt: HostRuntime) -> Result<(), Fail> {
    assert!(rt; begins(&rt));
    list(&rt, &NAMES)?;
    for (pattern, chosen) in &CHOICES {
        assert!(rt;
            gets(&rt, &[*pattern])? && are_chosen(&rt, chosen)?,
            "{pattern}"
        );
    }
    assert!(rt; get(&rt, &["x", "c/g", "y"], &[])?.status == 0 && has(&rt, "c/g/h", b"one")?);
    let got = get(&rt, &["g", ""], &[])?;
    assert!(rt; got.status == 3 && got.tells(b"grid: 112 BadName"));
    assert!(rt; removes_all(&rt));
    Ok(())
}

// Whether a catalogue that has no first line is refused, and nothing is made.
fn needs_a_first_line(rt: &HostRuntime) -> Result<bool, Fail> {
    writes(rt, "/caps", b"URI:LIT:n5xgk  one\n")?;
    let got = get(rt, &[], &[])?;
    let is_told = got.status == 3 && got.tells(b"grid: 110 NotACatalogue");
    Ok(is_told && !stands(rt, "/into")?)
}

// Writes a catalogue with a name that is no UTF-8, and a last line that does not end.
fn list_odd_lines(rt: &HostRuntime) -> Result<(), Fail> {
    let mut text = Vec::from_slice(rt.alloc(), HEAD.as_bytes())?;
    text.extend_from_slice(b"URI:LIT:n5xgk  \xff\nURI:LIT:n5xgk  a\nURI:LIT:n5xgk  b")?;
    Ok(writes(rt, "/caps", text.as_slice())?)
}

// A text that is no catalogue is refused, and nothing is made; what is no line ends one, and a
// verify cap and a name that is no UTF-8 are told with their names.
#[test]
fn no_catalogue(rt: HostRuntime) -> Result<(), Fail> {
    assert!(rt; begins(&rt));
    list(&rt, &[])?;
    assert!(rt; needs_a_first_line(&rt)?);
    list_odd_lines(&rt)?;
    let got = get(&rt, &[], &[])?;
    assert!(rt; got.status == 7 && got.tells(b"grid: 111 NotALine 4"));
    assert!(rt; got.tells("grid: 90 FileFault \u{fffd} (\u{fffd})".as_bytes()));
    assert!(rt; has(&rt, "a", b"one")? && !has(&rt, "b", b"one")?);
    assert!(rt; get(&rt, &[], &["-o", "file"])?.status == 2);
    assert!(rt; removes_all(&rt));
    Ok(())
}

// The words that belong together.
#[test]
fn words_together(rt: HostRuntime) -> Result<(), Fail> {
    let rows: [&[&str]; 5] = [
        &["--caps", "caps"],
        &[ONE_CAP, "--into", "into"],
        &[ONE_CAP, "name"],
        &[ONE_CAP, "--overwrite"],
        &[],
    ];
    for words in rows {
        assert!(rt; run(&rt, "get", words, "grid", &[]).status == 2);
    }
    let literal = run(&rt, "get", &[ONE_CAP], "grid", &[]);
    assert!(rt; literal.status == 0 && literal.out.as_slice() == b"one".as_slice());
    Ok(())
}
