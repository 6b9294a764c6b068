// Files that are compared with their caps, and with those of catalogues.

use crate::host::{Odd, OddHost, Plan};
use crate::host_runs::{Ended, run};
use std::alloc::AllocError;
use std::test::Fail;
use test_folders::{begins, counted, makes_folder, placed, removes_all, writes};

// The caps of the files of 56 and of 131,074 bytes whose byte i is i modulo 251, at 3 of 10, the
// verify cap of the first, and the cap of that of 300 bytes at 2 of 5 in segments of 20 bytes under
// the secret `abc`, which were computed by programs that share no code with these crates; and one
// of three bytes, which holds them in base32.
const COUNTED_CAP: &str = "URI:CHK:5ervuplwjtqf5caeknmrecgz54:\
    24yuguv5na3h27x2i5w2i77yy5yujv6vcnbabzeljhzb4gaqqzyq:3:10:56";

const VERIFY_CAP: &str = "URI:CHK-Verifier:btqtqeoqjcl3aeqkqmueqgjgiy:\
    24yuguv5na3h27x2i5w2i77yy5yujv6vcnbabzeljhzb4gaqqzyq:3:10:56";

const LONG_CAP: &str = "URI:CHK:x45opozjlsd45uhibsv2apw46e:\
    upsh3wg4mj5hhojd7qv6ug2rqe7zphsxgbnniumsdns2twtt3vyq:3:10:131074";

const OTHER_CAP: &str = "URI:CHK:ozwxco23qrmvvwliolssdfgjmy:\
    lycpzylpr6mublhjyrxmq3gsvqzynokcnjzknnju7glhhwjqmmyq:2:5:300";

const ONE_CAP: &str = "URI:LIT:n5xgk";

// The first line of a catalogue of the usual numbers and no secret.
const HEAD: &str = "# grid catalogue 1 begun 1764404400.123456789 k 3 n 10 segment 131072 \
    under haif3ovaz4vjer7wm3n5nqj47a\n";

const SAME: (u8, &str) = (0, "same\n");

const DIFFERS: (u8, &str) = (5, "differs\n");

// A verify with these words, in which each `@` is the folder.
fn verify(rt: &HostRuntime, words: &str) -> Result<Ended, AllocError> {
    let plan = Plan::new(Odd::Nothing);
    let line = format!(in rt.alloc(); "grid verify {}", placed(rt, words)?)?;
    let host = OddHost {
        rt: *rt,
        plan: &plan,
    };
    run(&host, line.as_str(), false)
}

// Whether a verify of the file `file` with these words behind it comes to this, and tells nothing.
fn finds(rt: &HostRuntime, words: &str, (status, out): (u8, &str)) -> Result<bool, Fail> {
    let line = format!(in rt.alloc(); "@/file {words}")?;
    Ok(verify(rt, line.as_str())?.is(status, out.as_bytes(), ""))
}

// The same of this cap with these words behind it.
fn finds_with(rt: &HostRuntime, cap: &str, words: &str, found: (u8, &str)) -> Result<bool, Fail> {
    let line = format!(in rt.alloc(); "{cap} {words}")?;
    finds(rt, line.as_str(), found)
}

// Writes the file `file`.
fn write(rt: &HostRuntime, bytes: &[u8]) -> Result<(), Fail> {
    Ok(writes(rt, "/file", bytes)?)
}

// Whether a file of 56 bytes is compared so with its cap, and with its verify cap.
fn finds_counted(rt: &HostRuntime, bytes: &[u8], found: (u8, &str)) -> Result<bool, Fail> {
    write(rt, bytes)?;
    Ok(finds(rt, COUNTED_CAP, found)? && finds(rt, VERIFY_CAP, found)?)
}

// A file is the one of its cap, and of its verify cap, and a file that is one byte another is not.
#[test]
fn one_byte_differs(rt: HostRuntime) -> Result<(), Fail> {
    assert!(rt; begins(&rt));
    let mut bytes = counted(&rt, 56)?;
    assert!(rt; finds_counted(&rt, &bytes, SAME)?);
    assert!(rt; finds(&rt, LONG_CAP, DIFFERS)? && finds(&rt, ONE_CAP, DIFFERS)?);
    if let Some(last) = bytes.last_mut() {
        *last = 0;
    }
    assert!(rt; finds_counted(&rt, &bytes, DIFFERS)?);
    assert!(rt; removes_all(&rt));
    Ok(())
}

// So is one of more than one segment.
#[test]
fn segments(rt: HostRuntime) -> Result<(), Fail> {
    assert!(rt; begins(&rt));
    write(&rt, &counted(&rt, 131_074)?)?;
    assert!(rt; finds(&rt, LONG_CAP, SAME)?);
    assert!(rt; finds_with(&rt, LONG_CAP, "--segment 65536", DIFFERS)?);
    write(&rt, &counted(&rt, 131_075)?)?;
    assert!(rt; finds(&rt, LONG_CAP, DIFFERS)?);
    assert!(rt; removes_all(&rt));
    Ok(())
}

// The bytes of a cap that holds them are compared.
#[test]
fn literal_caps(rt: HostRuntime) -> Result<(), Fail> {
    assert!(rt; begins(&rt));
    write(&rt, b"one")?;
    assert!(rt; finds(&rt, ONE_CAP, SAME)? && finds(&rt, "URI:LIT:", DIFFERS)?);
    write(&rt, b"two")?;
    assert!(rt; finds(&rt, ONE_CAP, DIFFERS)?);
    write(&rt, b"")?;
    assert!(rt; finds(&rt, ONE_CAP, DIFFERS)? && finds(&rt, "URI:LIT:", SAME)?);
    assert!(rt; finds(&rt, COUNTED_CAP, DIFFERS)?);
    assert!(rt; removes_all(&rt));
    Ok(())
}

// The secret is said, stands in a file, or is the one that a grid keeps.
#[test]
fn secrets(rt: HostRuntime) -> Result<(), Fail> {
    assert!(rt; begins(&rt));
    write(&rt, &counted(&rt, 300)?)?;
    makes_folder(&rt, "/grid")?;
    let (bare, kept) = ("--segment 20", "--segment 20 --grid @/grid");
    assert!(rt; finds_with(&rt, OTHER_CAP, bare, DIFFERS)?);
    assert!(rt; finds_with(&rt, OTHER_CAP, kept, DIFFERS)?);
    writes(&rt, "/grid/grid-secret", b"abc\n")?;
    assert!(rt; finds_with(&rt, OTHER_CAP, kept, SAME)?);
    assert!(rt; finds_with(&rt, OTHER_CAP, "--segment 20 --secret abc", SAME)?);
    let read = "--segment 20 --secret-file @/grid/grid-secret";
    assert!(rt; finds_with(&rt, OTHER_CAP, read, SAME)?);
    let other = "--segment 20 --grid @/grid --secret abd";
    assert!(rt; finds_with(&rt, OTHER_CAP, other, DIFFERS)?);
    assert!(rt; removes_all(&rt));
    Ok(())
}

// The status of a verify with these words that writes nothing, and what it tells is this, where
// that is said.
fn is_refused(
    rt: &HostRuntime,
    words: &str,
    status: u8,
    told: Option<&str>,
) -> Result<bool, AllocError> {
    let ended = verify(rt, words)?;
    let is_told = match told {
        Some(told) => ended.err.rest() == told.as_bytes(),
        None => true,
    };
    Ok(ended.status == status && ended.out.is_empty() && is_told)
}

// Words, the status with which they are refused, and what is told then, where that is looked at.
static REFUSALS: [(&str, u8, Option<&str>); 9] = [
    (
        "- --cap-file -",
        3,
        Some("standard input is the file, and cannot have the cap too\ngrid: 2 BadParameters\n"),
    ),
    (
        "/dev/null URI:LIT:n5xgk --segment 0",
        3,
        Some("--segment is 0, and may be 1 to 1048576\ngrid: 2 BadParameters\n"),
    ),
    ("/none URI:LIT:n5xgk", 7, None),
    ("/dev/null URI:LIT:1", 3, None),
    ("/dev/null URI:LIT:n5xgk --grid @/grid", 7, None),
    ("/dev/null", 2, None),
    ("", 2, None),
    ("--caps caps --segment 20", 2, None),
    ("/dev/null URI:LIT: --into here", 2, None),
];

// What is refused, and what is told then.
#[test]
fn refusals(rt: HostRuntime) -> Result<(), Fail> {
    assert!(rt; begins(&rt));
    for (words, status, told) in REFUSALS {
        assert!(rt; is_refused(&rt, words, status, told)?, "{words}");
    }
    assert!(rt; removes_all(&rt));
    Ok(())
}

// Whether a verify of these bytes by the cap in a file tells that they differ, and this.
fn tells_why(rt: &HostRuntime, bytes: &[u8], told: &str) -> Result<bool, Fail> {
    write(rt, bytes)?;
    let ended = verify(rt, "@/file -v --cap-file @/cap")?;
    Ok(ended.is(5, b"differs\n", placed(rt, told)?.as_str()))
}

// With -v it is told why a file differs; and a cap may stand in a file.
#[test]
fn reasons(rt: HostRuntime) -> Result<(), Fail> {
    assert!(rt; begins(&rt));
    writes(&rt, "/cap", COUNTED_CAP.as_bytes())?;
    let told = "the file has the size of its cap, but other bytes, or another secret or segment \
        size (@/file)\n";
    assert!(rt; tells_why(&rt, &[0; 56], told)?);
    let told = "the file has not the size of its cap (@/file)\n";
    assert!(rt; tells_why(&rt, b"one", told)?);
    assert!(rt; removes_all(&rt));
    Ok(())
}

// Writes a catalogue of four files, of which one is missing, and the other three below a folder.
fn list(rt: &HostRuntime, head: &str) -> Result<(), Fail> {
    let text = format!(in rt.alloc();
        "{head}{COUNTED_CAP}  /a/file\n\\{ONE_CAP}  b\\\\\\n\n{VERIFY_CAP}  c\n{ONE_CAP}  gone\n"
    )?;
    writes(rt, "/caps", text.as_bytes())?;
    makes_folder(rt, "/into/a")?;
    writes(rt, "/into/a/file", counted(rt, 56)?.as_slice())?;
    writes(rt, "/into/b\\\n", b"one")?;
    writes(rt, "/into/c", &[0; 56])?;
    Ok(())
}

// A verify of this process's catalogue below its folder, with these words.
fn over(rt: &HostRuntime, words: &str) -> Result<Ended, AllocError> {
    let line = format!(in rt.alloc(); "--caps @/caps --into @/into{words}")?;
    verify(rt, line.as_str())
}

// Whether each file has its line, and the one that is refused is told.
fn tells_all(rt: &HostRuntime) -> Result<bool, AllocError> {
    let lines = "same  /a/file\n\\same  b\\\\\\n\ndiffers  c\nfiles 4 same 2 differ 1 refused 1\n";
    let all = over(rt, "")?;
    let gone = placed(rt, "grid: 90 FileFault @/into/gone (gone)\n")?;
    let is_told = all.err.rest().ends_with(gone.as_bytes());
    Ok(all.status == 7 && all.out.as_slice() == lines.as_bytes() && is_told)
}

// Each file has its line in the order of the catalogue; one that is refused is told, and does not
// keep the others back. The status is the greatest.
#[test]
fn each_file_has_its_line(rt: HostRuntime) -> Result<(), Fail> {
    assert!(rt; begins(&rt));
    list(&rt, HEAD)?;
    assert!(rt; tells_all(&rt)?);
    let lines = "same  /a/file\ndiffers  c\nfiles 2 same 1 differ 1 refused 0\n";
    assert!(rt; over(&rt, " a c")?.is(5, lines.as_bytes(), ""));
    let lines = "same  /a/file\nfiles 1 same 1 differ 0 refused 0\n";
    assert!(rt; over(&rt, " a")?.is(0, lines.as_bytes(), ""));
    let told = "no file of the catalogue has such a name\ngrid: 112 BadName\n";
    assert!(rt; over(&rt, " x")?.is(3, b"files 0 same 0 differ 0 refused 0\n", told));
    assert!(rt; removes_all(&rt));
    Ok(())
}

// The secret has to be the one of the first line, which tells the segments too.
#[test]
fn other_secrets(rt: HostRuntime) -> Result<(), Fail> {
    assert!(rt; begins(&rt));
    list(&rt, HEAD)?;
    let told = "the files of the catalogue were put under another secret\ngrid: 2 BadParameters\n";
    assert!(rt; over(&rt, " --secret abc")?.is(3, b"", told));
    assert!(rt; over(&rt, " a --secret")?.status == 2);
    writes(&rt, "/caps", b"URI:LIT:n5xgk  one\n")?;
    assert!(rt; over(&rt, "")?.is(3, b"", "grid: 110 NotACatalogue\n"));
    assert!(rt; removes_all(&rt));
    Ok(())
}

// What is no line ends it, and a name that leads out of the folder is refused.
#[test]
fn odd_lines(rt: HostRuntime) -> Result<(), Fail> {
    assert!(rt; begins(&rt));
    let text = format!(in rt.alloc(); "{HEAD}{ONE_CAP}  ../file\n{ONE_CAP}  b")?;
    writes(&rt, "/caps", text.as_bytes())?;
    let told = "grid: 112 BadName (../file)\ngrid: 111 NotALine 3\n";
    assert!(rt; over(&rt, "")?.is(3, b"files 1 same 0 differ 0 refused 1\n", told));
    assert!(rt; removes_all(&rt));
    Ok(())
}
