//! Downloads from servers in memory, some of which do not do as they should.

use crate::cases::{Case, Fault, Pieces, Shape, Source, Wanted, Wrong};
use crate::course::right_ones;
use crate::shapes::{
    ALL_OF_SMALL, ALL_OF_TWO, DATA_OF_1, LAYOUT_OF_0, LAYOUT_OF_1, SMALL_COMES, TREE_OF_0, UEB_OF_0,
};
use download_core::status::DownloadStatus;

// Three segments, of 131,073, 131,073 and one byte. A read of blocks has 32,768 bytes at most, and
// a block 43,691: so the second read ends the first block, and not the second.
const THREE: Shape = Shape {
    size: 262_147,
    needed: 3,
    total: 10,
    segment: 131_072,
    servers: 10,
    mark: 0,
};

// All shares are needed, and a server holds many.
const ALL: Shape = Shape {
    size: 5_000,
    needed: 256,
    total: 256,
    segment: 1_024,
    servers: 7,
    mark: 0,
};

// Ranges of files, and of how many segments they are. Nothing goes wrong.
static RANGES: [Case; 8] = [
    ALL_OF_SMALL,
    ALL_OF_TWO,
    Case {
        from: 131_073,
        wanted: Wanted {
            bytes: 1,
            parts: 1,
            ..SMALL_COMES
        },
        ..ALL_OF_TWO
    },
    // The last byte of a segment and the first of the next are two pieces.
    Case {
        from: 131_072,
        wanted: Wanted {
            bytes: 2,
            parts: 2,
            pieces: Pieces::Each(&[1, 1]),
            ..SMALL_COMES
        },
        ..ALL_OF_TWO
    },
    Case {
        from: 131_071,
        to: 131_073,
        wanted: Wanted {
            bytes: 2,
            parts: 1,
            ..SMALL_COMES
        },
        ..ALL_OF_TWO
    },
    Case {
        from: 10_000,
        to: 10_000,
        wanted: Wanted {
            bytes: 0,
            parts: 0,
            ..SMALL_COMES
        },
        ..ALL_OF_SMALL
    },
    Case {
        from: 5_000,
        to: 20_000,
        wanted: Wanted {
            bytes: 15_000,
            parts: 4,
            ..SMALL_COMES
        },
        ..ALL_OF_SMALL
    },
    Case {
        source: Source::Shares(ALL, &[]),
        to: 5_000,
        wanted: Wanted {
            bytes: 5_000,
            parts: 5,
            ..SMALL_COMES
        },
        ..ALL_OF_SMALL
    },
];

// What goes wrong, where all of the small file comes, and which shares are blamed.
static FAULTS: [Case; 10] = [
    Case {
        wrong: Wrong::Silent(3, 9, 0),
        ..ALL_OF_SMALL
    },
    Case {
        wrong: Wrong::Share(2, Fault::Gone),
        ..ALL_OF_SMALL
    },
    // The header.
    Case {
        wrong: Wrong::Share(1, Fault::Flipped(3)),
        wanted: Wanted {
            blamed: &LAYOUT_OF_1,
            ..SMALL_COMES
        },
        ..ALL_OF_SMALL
    },
    Case {
        wrong: Wrong::Share(1, Fault::Flipped(30)),
        wanted: Wanted {
            blamed: &LAYOUT_OF_1,
            ..SMALL_COMES
        },
        ..ALL_OF_SMALL
    },
    // The blocks, and the trees.
    Case {
        wrong: Wrong::Share(1, Fault::Flipped(36)),
        wanted: Wanted {
            blamed: &DATA_OF_1,
            ..SMALL_COMES
        },
        ..ALL_OF_SMALL
    },
    Case {
        wrong: Wrong::Share(1, Fault::Flipped(9_999)),
        wanted: Wanted {
            blamed: &DATA_OF_1,
            ..SMALL_COMES
        },
        ..ALL_OF_SMALL
    },
    Case {
        wrong: Wrong::Share(0, Fault::Cut(20)),
        wanted: Wanted {
            blamed: &LAYOUT_OF_0,
            ..SMALL_COMES
        },
        ..ALL_OF_SMALL
    },
    Case {
        wrong: Wrong::Share(0, Fault::Cut(5_000)),
        wanted: Wanted {
            blamed: &LAYOUT_OF_0,
            ..SMALL_COMES
        },
        ..ALL_OF_SMALL
    },
    // The last byte, and one of the block tree.
    Case {
        wrong: Wrong::Share(0, Fault::Flipped(11_966)),
        wanted: Wanted {
            blamed: &UEB_OF_0,
            ..SMALL_COMES
        },
        ..ALL_OF_SMALL
    },
    Case {
        wrong: Wrong::Share(0, Fault::Flipped(11_467)),
        wanted: Wanted {
            blamed: &TREE_OF_0,
            ..SMALL_COMES
        },
        ..ALL_OF_SMALL
    },
];

// Servers that are silent, where there are not enough shares for all of a file: how many bytes are
// handed out, of how many segments.
static SILENCES: [Case; 4] = [
    Case {
        wrong: Wrong::Silent(2, 9, 0),
        wanted: Wanted {
            status: DownloadStatus::NotEnoughShares,
            bytes: 0,
            parts: 0,
            ..SMALL_COMES
        },
        ..ALL_OF_SMALL
    },
    Case {
        wrong: Wrong::Silent(0, 9, 21),
        wanted: Wanted {
            status: DownloadStatus::NotEnoughShares,
            bytes: 0,
            parts: 0,
            ..SMALL_COMES
        },
        ..ALL_OF_TWO
    },
    // The first segment is proved once the second read of each block section came, and the reads of
    // two shares' other blocks before it.
    Case {
        wrong: Wrong::Silent(0, 9, 34),
        wanted: Wanted {
            status: DownloadStatus::NotEnoughShares,
            bytes: 131_073,
            parts: 1,
            ..SMALL_COMES
        },
        ..ALL_OF_TWO
    },
    Case {
        source: Source::Shares(THREE, &[]),
        wrong: Wrong::Silent(0, 9, 38),
        to: 262_147,
        wanted: Wanted {
            status: DownloadStatus::NotEnoughShares,
            bytes: 131_073,
            parts: 1,
            ..SMALL_COMES
        },
        ..ALL_OF_TWO
    },
];

#[test]
fn ranges_come(rt: HostRuntime) {
    assert_eq!(rt; right_ones(rt.alloc(), &RANGES), RANGES.len());
}

#[test]
fn faults_cost_one_share(rt: HostRuntime) {
    assert_eq!(rt; right_ones(rt.alloc(), &FAULTS), FAULTS.len());
}

#[test]
fn silence_leaves_too_few(rt: HostRuntime) {
    assert_eq!(rt; right_ones(rt.alloc(), &SILENCES), SILENCES.len());
}
