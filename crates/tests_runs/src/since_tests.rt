// Puts that keep lines of an earlier catalogue, by a clock that is an hour ahead.

use crate::host::{Odd, OddHost, Plan};
use crate::host_runs::{Ended, run};
use std::alloc::AllocError;
use std::fs::{self, File};
use std::os::unix::fs::symlink;
use std::rt::Clock;
use std::test::Fail;
use std::time::{Duration, SystemTime};
use test_folders::{begins, path, placed, removes_all, stands, writes};

// The caps of the words `one` and `two`, which hold them in base32, and of a longer one; the cap of
// 56 zero bytes at 3 of 10, by programs that share no code with these crates, and a verify cap.
const ONE_CAP: &str = "URI:LIT:n5xgk";

const TWO_CAP: &str = "URI:LIT:or3w6";

const SEVEN_CAP: &str = "URI:LIT:onsxmzlo";

const VERIFY_CAP: &str = "URI:CHK-Verifier:aaaaaaaaaaaaaaaaaaaaaaaaaa:\
    mulphu6sadrudv3w5tjchnmax5njyq74hibk3qaudszblkawpxgq:3:10:56";

// How a first line tells the usual numbers and no secret.
const USUAL: &str = "k 3 n 10 segment 131072 under haif3ovaz4vjer7wm3n5nqj47a";

// What is told where the first lines differ.
const ANEW: &str = "all files are read: the catalogue was begun with other numbers or another \
    secret, or later than now by the clock\n";

// By how many seconds the clock of these puts is ahead.
const HOUR: u64 = 3600;

// The seconds since 1970, by the system's clock.
fn now(rt: &HostRuntime) -> Result<u64, Fail> {
    Ok(rt.since_1970()?.as_secs())
}

// Writes a catalogue that was begun then, with such numbers and these lines.
fn list(rt: &HostRuntime, begun: u64, numbers: &str, lines: &str) -> Result<(), Fail> {
    let text = format!(in rt.alloc();
        "# grid catalogue 1 begun {begun}.000000000 {numbers}\n{lines}"
    )?;
    fs::write(rt, path(rt, "/caps")?.as_str(), text.as_str())?;
    Ok(())
}

// A put of these files since that catalogue, with options behind it.
fn put(rt: &HostRuntime, files: &str, options: &str) -> Result<Ended, AllocError> {
    let mut plan = Plan::new(Odd::Nothing);
    plan.ahead = HOUR;
    let (caps, grid) = (path(rt, "/caps")?, path(rt, "/grid")?);
    let line = format!(in rt.alloc(); "grid put {files} --grid {grid} --since {caps}{options}")?;
    run(
        &OddHost {
            rt: *rt,
            plan: &plan,
        },
        line.as_str(),
        false,
    )
}

// Whether these lines were written behind a first one, and nothing else was.
fn has_lines(ended: &Ended, lines: &str) -> bool {
    let out = ended.out.as_slice();
    let first = out.iter().position(|byte| *byte == b'\n').unwrap_or(0);
    let rest = out.get(first.saturating_add(1)..).unwrap_or(&[]);
    out.starts_with(b"# grid catalogue 1 begun ") && rest == lines.as_bytes()
}

// The line of a cap and the file `one`.
fn line(rt: &HostRuntime, cap: &str) -> Result<String, AllocError> {
    format!(in rt.alloc(); "{cap}  {}\n", path(rt, "/one")?)
}

// Whether a put of these files, with options behind it, writes these lines, and tells this.
fn gives(
    rt: &HostRuntime,
    (files, options): (&str, &str),
    lines: &str,
    told: &str,
) -> Result<bool, Fail> {
    let ended = put(rt, files, options)?;
    Ok(ended.status == 0 && has_lines(&ended, lines) && ended.err.rest() == told.as_bytes())
}

// Whether a put of the file `one` writes its line with this cap, and tells nothing.
fn gives_cap(rt: &HostRuntime, cap: &str) -> Result<bool, Fail> {
    let (one, lines) = (path(rt, "/one")?, line(rt, cap)?);
    gives(rt, (one.as_str(), ""), lines.as_str(), "")
}

// The lines of the files `one` and `o\n e` with the cap of another word, and a further one of the
// first with its own cap before them.
fn write_others(rt: &HostRuntime, lines: &str) -> Result<(), Fail> {
    let other = format!(in rt.alloc(); "{}{lines}", line(rt, ONE_CAP)?)?;
    list(rt, now(rt)?.saturating_add(600), USUAL, other.as_str())
}

// Whether both files keep those lines.
fn keeps_both(rt: &HostRuntime, one: &str, odd: &str) -> Result<bool, Fail> {
    let told = path(rt, "/o\\\\n\\ne")?;
    let lines = format!(in rt.alloc(); "{TWO_CAP}  {one}\n\\{TWO_CAP}  {told}\n")?;
    write_others(rt, lines.as_str())?;
    let files = format!(in rt.alloc(); "{one} {odd}")?;
    gives(rt, (files.as_str(), ""), lines.as_str(), "")
}

// Files that have not changed keep their lines, whatever is in them: words and those of lists, with
// one word alone too, and under odd names. The last line of a name counts.
#[test]
fn lines_are_kept(rt: HostRuntime) -> Result<(), Fail> {
    assert!(rt; begins(&rt));
    let (one, odd) = (path(&rt, "/one")?, path(&rt, "/o\\n\ne")?);
    fs::write(&rt, one.as_str(), "one")?;
    fs::write(&rt, odd.as_str(), "one")?;
    let both = keeps_both(&rt, one.as_str(), odd.as_str())?;
    let one_alone = gives_cap(&rt, TWO_CAP)?;
    assert!(rt; both && one_alone && keeps_listed(&rt, one.as_str(), odd.as_str())?);
    assert!(rt; removes_all(&rt));
    Ok(())
}

// Whether the line of a file is kept that a list names, behind that of one that is a word.
fn keeps_listed(rt: &HostRuntime, one: &str, odd: &str) -> Result<bool, Fail> {
    let (names, told) = (path(rt, "/names")?, path(rt, "/o\\\\n\\ne")?);
    fs::write(rt, names.as_str(), one)?;
    let options = format!(in rt.alloc(); " --files-from {names}")?;
    let lines = format!(in rt.alloc(); "\\{TWO_CAP}  {told}\n{TWO_CAP}  {one}\n")?;
    gives(rt, (odd, options.as_str()), lines.as_str(), "")
}

// Whether a put since a catalogue that was begun then, with such numbers and a line of this cap for
// the file `one`, writes its line with that cap, and tells this.
fn turns(
    rt: &HostRuntime,
    (begun, numbers): (u64, &str),
    (cap, wanted): (&str, &str),
    told: &str,
) -> Result<bool, Fail> {
    list(rt, begun, numbers, line(rt, cap)?.as_str())?;
    let (one, lines) = (path(rt, "/one")?, line(rt, wanted)?);
    gives(rt, (one.as_str(), ""), lines.as_str(), told)
}

// A file is read anew where it changed later than two seconds before the catalogue was begun, or
// where that has a later time than now, or no line of its size.
#[test]
fn others_are_read(rt: HostRuntime) -> Result<(), Fail> {
    assert!(rt; begins(&rt));
    fs::write(&rt, path(&rt, "/one")?.as_str(), "one")?;
    let now = now(&rt)?;
    let later = now.saturating_add(600);
    let soon = now.saturating_add(1);
    let early = now.saturating_sub(60);
    let far = later.saturating_add(HOUR);
    assert!(rt; turns(&rt, (later, USUAL), (TWO_CAP, TWO_CAP), "")?);
    assert!(rt; turns(&rt, (soon, USUAL), (TWO_CAP, ONE_CAP), "")?);
    assert!(rt; turns(&rt, (early, USUAL), (TWO_CAP, ONE_CAP), "")?);
    assert!(rt; turns(&rt, (far, USUAL), (TWO_CAP, ONE_CAP), ANEW)?);
    assert!(rt; turns(&rt, (later, USUAL), (SEVEN_CAP, ONE_CAP), "")?);
    assert!(rt; turns(&rt, (later, USUAL), (VERIFY_CAP, ONE_CAP), "")?);
    assert!(rt; removes_all(&rt));
    Ok(())
}

// So it is where the catalogue was begun with other numbers, or another secret.
#[test]
fn other_numbers_are_read(rt: HostRuntime) -> Result<(), Fail> {
    assert!(rt; begins(&rt));
    fs::write(&rt, path(&rt, "/one")?.as_str(), "one")?;
    let later = now(&rt)?.saturating_add(600);
    for numbers in [
        "k 2 n 10 segment 131072 under haif3ovaz4vjer7wm3n5nqj47a",
        "k 3 n 9 segment 131072 under haif3ovaz4vjer7wm3n5nqj47a",
        "k 3 n 10 segment 131071 under haif3ovaz4vjer7wm3n5nqj47a",
        "k 3 n 10 segment 131072 under aaaaaaaaaaaaaaaaaaaaaaaaaa",
    ] {
        assert!(rt; turns(&rt, (later, numbers), (TWO_CAP, ONE_CAP), ANEW)?);
    }
    assert!(rt; removes_all(&rt));
    Ok(())
}

// Whether the last of a name's lines counts, which keeps none.
fn last_counts(rt: &HostRuntime, begun: u64) -> Result<bool, Fail> {
    let lines = format!(in rt.alloc(); "{}{}", line(rt, TWO_CAP)?, line(rt, SEVEN_CAP)?)?;
    list(rt, begun, USUAL, lines.as_str())?;
    gives_cap(rt, ONE_CAP)
}

// Puts a link to it in the place of the file `one`.
fn link_one(rt: &HostRuntime) -> Result<(), Fail> {
    let (one, two) = (path(rt, "/one")?, path(rt, "/two")?);
    fs::rename(rt, one.as_str(), two.as_str())?;
    symlink(rt, two.as_str(), one.as_str())?;
    Ok(())
}

// The last of a name's lines counts, also where it keeps none; and a file behind a link is read
// anew.
#[test]
fn links_are_read(rt: HostRuntime) -> Result<(), Fail> {
    assert!(rt; begins(&rt));
    writes(&rt, "/one", b"one")?;
    let later = now(&rt)?.saturating_add(600);
    assert!(rt; last_counts(&rt, later)?);
    link_one(&rt)?;
    assert!(rt; turns(&rt, (later, USUAL), (TWO_CAP, ONE_CAP), "")?);
    assert!(rt; removes_all(&rt));
    Ok(())
}

// Says that the file `one` was written so many seconds after 1970.
fn set_written(rt: &HostRuntime, seconds: u64) -> Result<(), Fail> {
    let time = SystemTime::UNIX_EPOCH.checked_add(Duration::from_secs(seconds));
    let file = File::options()
        .write(true)
        .open(rt, path(rt, "/one")?.as_str())?;
    file.set_modified(time.unwrap_or(SystemTime::UNIX_EPOCH))?;
    Ok(())
}

// A file whose bytes are said to be younger than the catalogue is read anew.
#[test]
fn young_files_are_read(rt: HostRuntime) -> Result<(), Fail> {
    assert!(rt; begins(&rt));
    fs::write(&rt, path(&rt, "/one")?.as_str(), "one")?;
    let later = now(&rt)?.saturating_add(600);
    list(&rt, later, USUAL, line(&rt, TWO_CAP)?.as_str())?;
    set_written(&rt, later)?;
    assert!(rt; gives_cap(&rt, ONE_CAP)?);
    set_written(&rt, 0)?;
    assert!(rt; gives_cap(&rt, TWO_CAP)?);
    assert!(rt; removes_all(&rt));
    Ok(())
}

// Whether the lines of a put are kept that lost its last byte, and the last of its lines is read
// anew, which is told.
fn goes_on(rt: &HostRuntime, files: &str, out: &[u8]) -> Result<bool, Fail> {
    let kept = out.len().saturating_sub(1);
    writes(rt, "/caps", out.get(..kept).unwrap_or(&[]))?;
    let told = "line 3 of the catalogue is none, and what follows it is not looked at\n";
    gives(rt, (files, ""), lines_of(out), told)
}

// Whether it does once a put of all is done, and no share is made then.
fn goes_on_behind_all(rt: &HostRuntime, files: &str) -> Result<bool, Fail> {
    let first = put(rt, files, "")?;
    let is_well = first.status == 0 && first.err.rest().is_empty();
    fs::remove_dir_all(rt, path(rt, "/grid")?.as_str())?;
    Ok(is_well && goes_on(rt, files, first.out.as_slice())? && !stands(rt, "/grid")?)
}

// What a put wrote that was killed goes on: its whole lines are kept, and the rest is read anew,
// which is told. No share is made of a file whose line is kept.
#[test]
fn cut_catalogues_go_on(rt: HostRuntime) -> Result<(), Fail> {
    assert!(rt; begins(&rt));
    writes(&rt, "/one", &[0; 56])?;
    writes(&rt, "/two", b"two")?;
    list(&rt, now(&rt)?, USUAL, "")?;
    let files = placed(&rt, "@/one @/two")?;
    assert!(rt; goes_on_behind_all(&rt, files.as_str())? && removes_all(&rt));
    Ok(())
}

// The lines behind the first one.
fn lines_of(out: &[u8]) -> &str {
    let end = out.iter().position(|byte| *byte == b'\n').unwrap_or(0);
    str::from_utf8(out.get(end.saturating_add(1)..).unwrap_or(&[])).unwrap_or("")
}

// What is no catalogue is refused before anything is written.
#[test]
fn no_catalogue_to_go_on_from(rt: HostRuntime) -> Result<(), Fail> {
    assert!(rt; begins(&rt));
    let one = path(&rt, "/one")?;
    fs::write(&rt, one.as_str(), "one")?;
    let missing = put(&rt, one.as_str(), "")?;
    assert!(rt; missing.status == 7 && missing.out.is_empty());
    fs::write(
        &rt,
        path(&rt, "/caps")?.as_str(),
        line(&rt, TWO_CAP)?.as_str(),
    )?;
    let none = put(&rt, one.as_str(), "")?;
    assert!(rt; none.is(3, b"", "grid: 110 NotACatalogue\n"));
    assert!(rt; removes_all(&rt));
    Ok(())
}

// Whether a put with these words is refused before anything is written, and tells this.
fn is_refused(rt: &HostRuntime, words: &str, told: &str) -> Result<bool, Fail> {
    let plan = Plan::new(Odd::Nothing);
    let line = format!(in rt.alloc(); "grid put --grid {} {words}", path(rt, "/grid")?)?;
    let host = OddHost {
        rt: *rt,
        plan: &plan,
    };
    let ended = run(&host, line.as_str(), false)?;
    let tells = ended.err.rest().starts_with(told.as_bytes());
    Ok(ended.status == 3 && ended.out.is_empty() && tells)
}

// Two of the list, the catalogue and a file cannot be standard input.
#[test]
fn standard_input_is_one(rt: HostRuntime) -> Result<(), Fail> {
    assert!(rt; begins(&rt));
    let told = "standard input is the catalogue, and cannot be a file too\n";
    assert!(rt; is_refused(&rt, "- --since -", told)?);
    let told = "standard input is the list, and cannot be the catalogue too\n";
    assert!(rt; is_refused(&rt, "--files-from - --since -", told)?);
    let told = "standard input is the list, and cannot be a file too\n";
    assert!(rt; is_refused(&rt, "- --files0-from -", told)?);
    assert!(rt; removes_all(&rt));
    Ok(())
}
