//! Downloads from servers of which some are late, or fall silent in the midst.

use crate::cases::{Case, Placed, Reads, Shape, Source, Wanted, Wrong};
use crate::course::right_ones;
use crate::shapes::{ALL_OF_SMALL, SMALL_COMES};

// Three segments of 131,073 bytes and less, of which three shares of ten are needed.
const THREE: Shape = Shape {
    size: 300_000,
    needed: 3,
    total: 10,
    segment: 131_072,
    servers: 10,
    mark: 0,
};

// The same of which one share of two is needed.
const ONE: Shape = Shape {
    needed: 1,
    total: 2,
    servers: 2,
    ..THREE
};

// As many shares at servers as are needed.
const NO_MORE: [Placed; 3] = [(0, 0, 0), (1, 1, 1), (2, 2, 2)];

// The whole file comes, no byte is asked twice of a share, and nobody is blamed.
const COMES: Wanted = Wanted {
    bytes: 300_000,
    parts: 3,
    seconds: 5,
    reads: Reads::Once,
    ..SMALL_COMES
};

const PRESSED: Case = Case {
    source: Source::Shares(THREE, &[]),
    to: 300_000,
    pressing: true,
    wanted: COMES,
    ..ALL_OF_SMALL
};

// A server falls silent: what it was asked is sent again after 5 seconds and lost after 20. Where
// its share is put aside the download ends with the first, and else with the second.
static SILENT: [Case; 7] = [
    // It tells which shares it holds, and no more.
    Case {
        wrong: Wrong::Silent(0, 0, 1),
        ..PRESSED
    },
    // It gives the beginning of its share, and no more.
    Case {
        wrong: Wrong::Silent(0, 0, 3),
        ..PRESSED
    },
    Case {
        wrong: Wrong::Silent(1, 1, 5),
        ..PRESSED
    },
    Case {
        wrong: Wrong::Silent(2, 2, 8),
        ..PRESSED
    },
    // Two do.
    Case {
        wrong: Wrong::Silent(1, 2, 10),
        ..PRESSED
    },
    // The one share that is opened is late.
    Case {
        source: Source::Shares(ONE, &[]),
        wrong: Wrong::Silent(0, 0, 1),
        ..PRESSED
    },
    // Without a share in its place it is waited for as ever.
    Case {
        source: Source::Shares(THREE, &NO_MORE),
        wrong: Wrong::Late(1, 5, 12),
        wanted: Wanted {
            seconds: 100,
            ..COMES
        },
        ..PRESSED
    },
];

// Answers come after all, of shares that were put aside and are read again.
static LATE: [Case; 3] = [
    Case {
        wrong: Wrong::Late(1, 5, 7),
        ..PRESSED
    },
    Case {
        source: Source::Shares(ONE, &[]),
        wrong: Wrong::LateAndSilent(0, 1, 8, 7),
        wanted: Wanted {
            seconds: 200,
            ..COMES
        },
        ..PRESSED
    },
    Case {
        source: Source::Shares(ONE, &[]),
        wrong: Wrong::LateAndSilent(1, 0, 8, 7),
        wanted: Wanted {
            seconds: 200,
            ..COMES
        },
        ..PRESSED
    },
];

#[test]
fn silent_servers_are_not_waited_for(rt: HostRuntime) {
    assert_eq!(rt; right_ones(rt.alloc(), &SILENT), SILENT.len());
}

#[test]
fn late_answers_are_taken(rt: HostRuntime) {
    assert_eq!(rt; right_ones(rt.alloc(), &LATE), LATE.len());
}
