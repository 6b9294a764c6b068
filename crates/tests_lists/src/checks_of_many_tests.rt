// Checks and repairs of the files of a catalogue.

use crate::list_runs::{Came, joined, run};
use std::alloc::AllocError;
use std::fs;
use std::test::Fail;
use test_folders::{begins, counted, makes_folder, path, placed, removes_all, writes};

// The first line of a catalogue.
const HEAD: &str = "# grid catalogue 1 begun 1764404400.123456789 k 3 n 10 segment 131072 \
    under w3hm5rcm33g237wuaijiuuup7q\n";

// The caps of the files of 56, of 300 and of 131,074 bytes whose byte i is i modulo 251, at 3 of
// 10, and that of 300 at 2 of 5 in segments of 20 bytes under the secret `abc`, which were computed
// by programs that share no code with these crates; and one of three bytes, which holds them in
// base32.
const COUNTED_CAP: &str = "URI:CHK:5ervuplwjtqf5caeknmrecgz54:\
    24yuguv5na3h27x2i5w2i77yy5yujv6vcnbabzeljhzb4gaqqzyq:3:10:56";

const VERIFY_CAP: &str = "URI:CHK-Verifier:btqtqeoqjcl3aeqkqmueqgjgiy:\
    24yuguv5na3h27x2i5w2i77yy5yujv6vcnbabzeljhzb4gaqqzyq:3:10:56";

const OTHER_CAP: &str = "URI:CHK:ozwxco23qrmvvwliolssdfgjmy:\
    lycpzylpr6mublhjyrxmq3gsvqzynokcnjzknnju7glhhwjqmmyq:2:5:300";

const LOST_CAP: &str = "URI:CHK:x45opozjlsd45uhibsv2apw46e:\
    upsh3wg4mj5hhojd7qv6ug2rqe7zphsxgbnniumsdns2twtt3vyq:3:10:131074";

const ONE_CAP: &str = "URI:LIT:n5xgk";

// Makes a grid with the first two of these files, each of whose ten or five shares stands at a
// server of its own, and a catalogue of them and of a file that nobody stored. Whether their caps
// are those.
fn fill(rt: &HostRuntime) -> Result<bool, Fail> {
    let (file, other) = (path(rt, "/file")?, path(rt, "/other")?);
    fs::write(rt, file.as_str(), counted(rt, 56)?.as_slice())?;
    fs::write(rt, other.as_str(), counted(rt, 300)?.as_slice())?;
    let grid = path(rt, "/grid")?;
    let first = run(rt, "put", &[file.as_str()], grid.as_str(), &["-q"]);
    let numbers = [
        "--k",
        "2",
        "--happy",
        "5",
        "--n",
        "5",
        "--segment",
        "20",
        "--secret",
        "abc",
    ];
    let second = run(rt, "put", &[other.as_str()], grid.as_str(), &numbers);
    let text = format!(in rt.alloc();
        "{HEAD}{COUNTED_CAP}  a/file\n{ONE_CAP}  b\n\\{VERIFY_CAP}  c\\\\\\nd\n{OTHER_CAP}  e\n\
        {LOST_CAP}  gone\n"
    )?;
    fs::write(rt, path(rt, "/caps")?.as_str(), text.as_str())?;
    Ok(
        first.out.starts_with(COUNTED_CAP.as_bytes())
            && second.out.starts_with(OTHER_CAP.as_bytes()),
    )
}

// A command over this process's catalogue, with these names and other words.
fn over(
    rt: &HostRuntime,
    command: &str,
    names: &[&str],
    more: &[&str],
) -> Result<Came, AllocError> {
    let (grid, caps) = (path(rt, "/grid")?, path(rt, "/caps")?);
    let words = joined(rt, "--caps", caps.as_str(), more)?;
    Ok(run(rt, command, names, grid.as_str(), words.as_slice()))
}

// Takes the folders of these servers away, with the shares in them.
fn remove_servers(rt: &HostRuntime, servers: &[&str]) -> Result<(), Fail> {
    for server in servers {
        let folder = format!(in rt.alloc(); "{}/server-00{server}", path(rt, "/grid")?)?;
        fs::remove_dir_all(rt, folder.as_str())?;
    }
    Ok(())
}

const ALL_LINES: &str = "healthy yes recoverable yes happiness 10  a/file\n\
    literal  b\n\
    \\healthy yes recoverable yes happiness 10  c\\\\\\nd\n\
    healthy yes recoverable yes happiness 5  e\n\
    healthy no recoverable no happiness 0  gone\n\
    files 5 healthy 4 recoverable 0 lost 1\n";

// Whether a check tells each file, and nothing else.
fn tells_all(rt: &HostRuntime) -> Result<bool, AllocError> {
    let came = over(rt, "check", &[], &[])?;
    Ok(came.told.is_empty() && came.wrote(5, ALL_LINES))
}

// Whether it does for some files that are well, and for none.
fn tells_some(rt: &HostRuntime) -> Result<bool, AllocError> {
    let well = over(rt, "check", &["a", "b", "e"], &["--strict"])?;
    let last = b"files 3 healthy 3 recoverable 0 lost 0\n";
    let none = over(rt, "check", &["x", "y*"], &[])?;
    let is_none = none.wrote(3, "files 0 healthy 0 recoverable 0 lost 0\n");
    let is_well = well.status == 0 && well.out.ends_with(last);
    Ok(is_well && is_none && none.tells(b"grid: 112 BadName"))
}

// Each file has its line in the order of the catalogue, also over sockets; one that nobody has does
// not keep the others back. The status is that of the worst.
#[test]
fn each_file_has_its_line(rt: HostRuntime) -> Result<(), Fail> {
    assert!(rt; begins(&rt));
    assert!(rt; fill(&rt)?);
    assert!(rt; tells_all(&rt)?);
    assert!(rt; over(&rt, "check", &[], &["--net"])?.wrote(5, ALL_LINES));
    assert!(rt; tells_some(&rt)?);
    assert!(rt; removes_all(&rt));
    Ok(())
}

// Makes the folders of these servers anew.
fn make_servers(rt: &HostRuntime, servers: &[&str]) -> Result<(), Fail> {
    for server in servers {
        let folder = format!(in rt.alloc(); "{}/server-00{server}", path(rt, "/grid")?)?;
        fs::create_dir_all(rt, folder.as_str())?;
    }
    Ok(())
}

// Whether shares that are gone are told, by the status too where that is asked for.
fn tells_worse(rt: &HostRuntime) -> Result<bool, AllocError> {
    let lines = "healthy no recoverable yes happiness 4  a/file\nliteral  b\n\
        files 2 healthy 1 recoverable 1 lost 0\n";
    let worse = over(rt, "check", &["a", "b"], &[])?;
    let strict = over(rt, "check", &["a", "b"], &["--strict"])?;
    Ok(worse.wrote(0, lines) && strict.wrote(5, lines))
}

// Whether a repair is refused that is to be happier than there are shares.
fn refuses_more(rt: &HostRuntime) -> Result<bool, AllocError> {
    let few = over(rt, "repair", &["a"], &["--happy", "11"])?;
    let is_told = few.tells(b"grid: 2 BadParameters (a/file)");
    Ok(is_told && few.wrote(3, "files 1 repaired 0 lost 0\n"))
}

// Whether a repair tells what is lost, and makes the others.
fn repairs(rt: &HostRuntime) -> Result<bool, AllocError> {
    let repaired = over(rt, "repair", &["a", "b", "e", "gone"], &["--happy", "5"])?;
    let is_told = repaired.tells(b"grid: 71 NotEnoughShares (gone)");
    let lines = b"happiness 10  a/file\nliteral  b\n";
    Ok(repaired.status == 5 && is_told && repaired.out.starts_with(lines))
}

// Shares that are gone are told, and a repair makes them again; what is lost stays lost, and does
// not keep the others from being repaired.
#[test]
fn repairs_make_them_healthy(rt: HostRuntime) -> Result<(), Fail> {
    assert!(rt; begins(&rt));
    assert!(rt; fill(&rt)?);
    let servers = ["0", "1", "2", "3", "4", "5"];
    remove_servers(&rt, &servers)?;
    assert!(rt; tells_worse(&rt)?);
    make_servers(&rt, &servers)?;
    assert!(rt; refuses_more(&rt)? && repairs(&rt)?);
    let after = over(&rt, "check", &["a", "b"], &["--strict"])?;
    let last = b"files 2 healthy 2 recoverable 0 lost 0\n";
    assert!(rt; after.status == 0 && after.out.ends_with(last));
    assert!(rt; removes_all(&rt));
    Ok(())
}

// What programs read: an object for each file, and one for all. A name that is no UTF-8 can be had
// back.
#[test]
fn objects(rt: HostRuntime) -> Result<(), Fail> {
    assert!(rt; begins(&rt));
    assert!(rt; fill(&rt)?);
    let mut text = Vec::from_slice(rt.alloc(), HEAD.as_bytes())?;
    text.extend_from_slice(format!(in rt.alloc(); "{COUNTED_CAP}  \"\u{e9}\n")?.as_bytes())?;
    text.extend_from_slice(b"\\URI:LIT:n5xgk  \\\\\\n\xff\x01\n")?;
    fs::write(&rt, path(&rt, "/caps")?.as_str(), text.as_slice())?;
    let came = over(&rt, "check", &[], &["--json"])?;
    let lines = "{\"name\":\"\\\"\u{e9}\",\"healthy\":true,\"recoverable\":true,\"happiness\":10}\n\
        {\"name\":\"\\\\\\u000a\\udcff\\u0001\",\"literal\":true}\n\
        {\"files\":2,\"healthy\":2,\"recoverable\":0,\"lost\":0}\n";
    assert!(rt; came.status == 0 && came.told.is_empty());
    assert!(rt; came.out.as_slice() == lines.as_bytes());
    assert!(rt; over(&rt, "repair", &[], &["--json"])?.status == 2);
    assert!(rt; removes_all(&rt));
    Ok(())
}

// Whether a check of a text that is no catalogue is refused.
fn needs_a_first_line(rt: &HostRuntime) -> Result<bool, Fail> {
    writes(rt, "/caps", b"URI:LIT:n5xgk  one\n")?;
    let came = over(rt, "check", &[], &[])?;
    Ok(came.is_silent(3) && came.tells(b"grid: 110 NotACatalogue"))
}

// Whether what is no line ends one, and a file that no server has is told.
fn ends_at_no_line(rt: &HostRuntime) -> Result<bool, Fail> {
    let text = format!(in rt.alloc(); "{HEAD}{ONE_CAP}  a\n{COUNTED_CAP}  b\n{ONE_CAP}  c")?;
    writes(rt, "/caps", text.as_bytes())?;
    let came = over(rt, "check", &[], &[])?;
    let none = placed(rt, "grid: 100 NoServers @/grid (b)")?;
    let is_told = came.tells(none.as_bytes()) && came.tells(b"grid: 111 NotALine 4");
    let lines = "literal  a\nfiles 2 healthy 1 recoverable 0 lost 0\n";
    Ok(is_told && came.wrote(5, lines))
}

// What is no catalogue, and what is no line of one.
#[test]
fn no_catalogue(rt: HostRuntime) -> Result<(), Fail> {
    assert!(rt; begins(&rt));
    makes_folder(&rt, "/grid")?;
    assert!(rt; needs_a_first_line(&rt)?);
    assert!(rt; ends_at_no_line(&rt)?);
    assert!(rt; over(&rt, "repair", &[], &["--happy", "0"])?.is_silent(3));
    assert!(rt; over(&rt, "check", &[], &["--known"])?.is_silent(3));
    assert!(rt; removes_all(&rt));
    Ok(())
}

// The status of a command without a catalogue, with these words.
fn status_of(
    rt: &HostRuntime,
    command: &str,
    files: &[&str],
    more: &[&str],
) -> Result<u8, AllocError> {
    Ok(run(rt, command, files, path(rt, "/grid")?.as_str(), more).status)
}

// A get of the cap that stands in a file.
fn get_from(rt: &HostRuntime, cap: &str) -> Result<Came, AllocError> {
    let grid = path(rt, "/grid")?;
    Ok(run(rt, "get", &[], grid.as_str(), &["--cap-file", cap]))
}

// Whether a file with this text is refused as that of a cap, and nothing is written.
fn is_no_cap(rt: &HostRuntime, text: &[u8]) -> Result<bool, Fail> {
    let cap = path(rt, "/cap")?;
    fs::write(rt, cap.as_str(), text)?;
    let refused = get_from(rt, cap.as_str())?;
    Ok(refused.status == 3 && refused.out.is_empty())
}

// Whether a get from the file of a cap gives the file of 56 bytes.
fn gets_from_a_file(rt: &HostRuntime) -> Result<bool, Fail> {
    writes(rt, "/cap", COUNTED_CAP.as_bytes())?;
    let got = get_from(rt, path(rt, "/cap")?.as_str())?;
    Ok(got.status == 0 && got.out.as_slice() == counted(rt, 56)?.as_slice())
}

// Whether a command on the cap that stands in a file writes what it does on the cap.
fn is_same(rt: &HostRuntime, command: &str) -> Result<bool, Fail> {
    let (grid, cap) = (path(rt, "/grid")?, path(rt, "/cap")?);
    let said = run(rt, command, &[VERIFY_CAP], grid.as_str(), &[]);
    let from = ["--cap-file", cap.as_str()];
    let read = run(rt, command, &[], grid.as_str(), &from);
    Ok(read.status == 0 && read.out.as_slice() == said.out.as_slice())
}

// A cap that stands in a file, with or without a line feed behind it, is as one that is a word.
#[test]
fn caps_in_files(rt: HostRuntime) -> Result<(), Fail> {
    assert!(rt; begins(&rt));
    assert!(rt; fill(&rt)?);
    assert!(rt; gets_from_a_file(&rt)?);
    let text = format!(in rt.alloc(); "{VERIFY_CAP}\n")?;
    writes(&rt, "/cap", text.as_bytes())?;
    assert!(rt; is_same(&rt, "check")? && is_same(&rt, "repair")?);
    assert!(rt; removes_all(&rt));
    Ok(())
}

// Whether a file that begins as a cap does, and has these behind it, is none.
fn is_none_with(rt: &HostRuntime, rest: &str) -> Result<bool, Fail> {
    let text = format!(in rt.alloc(); "{ONE_CAP}{rest}")?;
    is_no_cap(rt, text.as_bytes())
}

// Whether texts that are no caps are refused.
fn are_no_caps(rt: &HostRuntime) -> Result<bool, Fail> {
    let spaces = format!(in rt.alloc(); "{:300}", "")?;
    Ok(
        is_none_with(rt, spaces.as_str())?
            && is_none_with(rt, "\n\n")?
            && is_no_cap(rt, b"")?
            && is_no_cap(rt, b"\n")?
            && is_no_cap(rt, b"URI:LIT:n5xgk\xff")?,
    )
}

// Whether a file of a cap that is not there is a fault.
fn is_gone(rt: &HostRuntime) -> Result<bool, Fail> {
    let cap = path(rt, "/cap")?;
    fs::remove_file(rt, cap.as_str())?;
    let gone = over_grid(rt, "check", &["--cap-file", cap.as_str()])?;
    let told = format!(in rt.alloc(); "grid: 90 FileFault {cap}")?;
    Ok(gone.status == 7 && gone.tells(told.as_bytes()))
}

// A command on this process's grid with these words.
fn over_grid(rt: &HostRuntime, command: &str, more: &[&str]) -> Result<Came, AllocError> {
    Ok(run(rt, command, &[], path(rt, "/grid")?.as_str(), more))
}

// Commands, words behind them, and further ones behind the grid, that are wrong together.
static WRONG: [(&str, &[&str], &[&str]); 6] = [
    ("get", &[ONE_CAP], &["--cap-file", "cap"]),
    ("check", &[ONE_CAP], &["--cap-file", "cap"]),
    ("repair", &[], &["--cap-file", "cap", "--caps", "caps"]),
    ("check", &[ONE_CAP, "name"], &[]),
    ("repair", &[], &[]),
    ("check", &[], &["--json"]),
];

// What else a file has is no cap; and a cap is said once, and without what belongs to others.
#[test]
fn what_is_no_cap(rt: HostRuntime) -> Result<(), Fail> {
    assert!(rt; begins(&rt));
    makes_folder(&rt, "/grid")?;
    assert!(rt; are_no_caps(&rt)? && is_gone(&rt)?);
    for (command, files, more) in WRONG {
        assert!(rt; status_of(&rt, command, files, more)? == 2, "{command}");
    }
    assert!(rt; removes_all(&rt));
    Ok(())
}
