// What a catalogue tells of files by their names, and which of its lines are kept.
//
// Caps and fingerprints were computed by programs that share no code with these crates.

use cap_text::Cap;
use catalogues::{CatalogueError, FileState, Known, Moment, is_kept};
use std::test::Fail;

const FIRST: &str = "# grid catalogue 1 begun 1764404400.123456789 k 3 n 10 segment 131072 under \
    haif3ovaz4vjer7wm3n5nqj47a\n";

const OTHER: &str = "# grid catalogue 1 begun 1764404400.123456788 k 3 n 10 segment 131072 under \
    haif3ovaz4vjer7wm3n5nqj47a\n";

const CHK: &str = "URI:CHK:x45opozjlsd45uhibsv2apw46e:\
    upsh3wg4mj5hhojd7qv6ug2rqe7zphsxgbnniumsdns2twtt3vyq:3:10:131074";

const VERIFY: &str = "URI:CHK-Verifier:sgw7eoanvat7jiqms34bueiphi:\
    upsh3wg4mj5hhojd7qv6ug2rqe7zphsxgbnniumsdns2twtt3vyq:3:10:131074";

// The cap of three bytes, which holds them in base32.
const LIT: &str = "URI:LIT:n5xgk";

fn cap_of(text: &str) -> Option<Cap> {
    Cap::parse(text.as_bytes()).ok()
}

// The last line of a name counts; none behind what is no line does, and its number is told.
#[test]
fn names_have_their_last_caps(rt: HostRuntime) -> Result<(), Fail> {
    let lines = format!(in rt.alloc();
        "{FIRST}{LIT}  a\n{CHK}  b c\n\\{VERIFY}  d\\ne\n{VERIFY}  a\n"
    )?;
    let known = Known::read(rt.alloc(), lines.as_bytes())?;
    assert!(rt; known.fault().is_none() && known.head().begun.seconds == 1764404400);
    assert!(rt; known.cap_of(b"a") == cap_of(VERIFY) && known.cap_of(b"b c") == cap_of(CHK));
    assert!(rt; known.cap_of(b"d\ne") == cap_of(VERIFY) && known.cap_of(b"d\\ne").is_none());
    assert!(rt; known.cap_of(b"").is_none() && known.cap_of(b"b").is_none());
    let cut = format!(in rt.alloc(); "{FIRST}{LIT}  a\n{CHK}  a")?;
    let known = Known::read(rt.alloc(), cut.as_bytes())?;
    assert!(rt; known.cap_of(b"a") == cap_of(LIT));
    assert!(rt; known.fault() == Some(CatalogueError::NotALine(3)));
    let none = Known::read(rt.alloc(), LIT.as_bytes());
    assert!(rt; matches!(none, Err(CatalogueError::NotACatalogue)));
    Ok(())
}

// A moment so many seconds and nanoseconds behind 1764404398.123456789, which is two seconds before
// the catalogue was begun.
fn moment(seconds: i64, nanoseconds: u32) -> Moment {
    Moment {
        seconds: 1_764_404_398_u64.saturating_add_signed(seconds),
        nanoseconds,
    }
}

// A line is kept up to the last nanosecond, for a file of the cap's size.
#[test]
fn lines_are_kept_for_old_files(rt: HostRuntime) -> Result<(), Fail> {
    let known = Known::read(rt.alloc(), FIRST.as_bytes())?;
    let other = Known::read(rt.alloc(), OTHER.as_bytes())?;
    let (old, new) = (known.head(), other.head());
    assert!(rt; old.may_keep(old) && new.may_keep(old) && !old.may_keep(new));
    let (last, next) = (moment(0, 123_456_788), moment(0, 123_456_789));
    let (before, after) = (moment(-1, 999_999_999), moment(1, 0));
    let none = Moment {
        seconds: 0,
        nanoseconds: 1,
    };
    let rows = [
        (CHK, 131_074, last, last, true),
        (CHK, 131_074, before, none, true),
        (CHK, 131_073, last, last, false),
        (CHK, 131_074, next, last, false),
        (CHK, 131_074, last, next, false),
        (CHK, 131_074, after, last, false),
        (CHK, 131_074, last, after, false),
        (CHK, 131_074, none, last, false),
        (VERIFY, 131_074, last, last, false),
        (LIT, 3, before, before, true),
        (LIT, 2, before, before, false),
    ];
    for (text, size, changed, modified, kept) in rows {
        let cap = Cap::parse(text.as_bytes())?;
        let file = FileState {
            size,
            changed,
            modified,
        };
        assert!(rt; is_kept(old, old, &cap, &file) == kept);
        assert!(rt; !is_kept(old, new, &cap, &file));
    }
    Ok(())
}
