//! Downloads from servers that hold wrong bytes: each wrong share is blamed for its own fault, at
//! its own server, and the others give the file.

use crate::cases::{Case, Fault, Placed, Reads, Section, Shape, Source, Wanted, Wrong};
use crate::course::{agree, ends_so, right_ones};
use crate::shapes::{
    ALL_OF_SMALL, ALL_OF_TWO, BLOCK_TREE, BLOCKS, CIPHERTEXT_TREE, DATA_OF_1, EXTENSION_BLOCK,
    HASHES_OF_0, LAYOUT_OF_0, SHARE_HASHES, SMALL, SMALL_COMES, TREE_OF_0, UEB_OF_0,
};
use download_core::status::{Blame, DownloadStatus};
use share_verify::Check;
use std::alloc::Global;
use test_shares::no_code_word::{SEGMENT_SIZE, SIZE};

const CIPHERTEXT_TREE_OF_0: [Blame; 1] = [Blame {
    server: 0,
    share: 0,
    check: Check::CiphertextTree,
}];

const UEB_OF_2: [Blame; 1] = [Blame {
    server: 2,
    share: 2,
    check: Check::Ueb,
}];

// All of the small file comes, this share is blamed, and no byte is asked for twice.
const SMALL_BUT_0: Wanted = Wanted {
    blamed: &LAYOUT_OF_0,
    reads: Reads::Once,
    ..SMALL_COMES
};

// The small file with other bytes.
const OTHER: Shape = Shape {
    size: 30_000,
    needed: 3,
    total: 10,
    segment: 4_096,
    servers: 10,
    mark: 1,
};

// A byte is changed in each section: the check that fails.
static DAMAGES: [Case; 7] = [
    Case {
        wrong: Wrong::Share(0, Fault::Flipped(CIPHERTEXT_TREE + 32 * 8)),
        wanted: Wanted {
            blamed: &CIPHERTEXT_TREE_OF_0,
            ..SMALL_BUT_0
        },
        ..ALL_OF_SMALL
    },
    Case {
        wrong: Wrong::Share(0, Fault::Flipped(BLOCK_TREE + 32 * 8)),
        wanted: Wanted {
            blamed: &TREE_OF_0,
            ..SMALL_BUT_0
        },
        ..ALL_OF_SMALL
    },
    // The numbers of the share hashes are of the layout.
    Case {
        wrong: Wrong::Share(0, Fault::Flipped(SHARE_HASHES)),
        wanted: Wanted {
            blamed: &LAYOUT_OF_0,
            ..SMALL_BUT_0
        },
        ..ALL_OF_SMALL
    },
    Case {
        wrong: Wrong::Share(0, Fault::Flipped(SHARE_HASHES + 2)),
        wanted: Wanted {
            blamed: &HASHES_OF_0,
            ..SMALL_BUT_0
        },
        ..ALL_OF_SMALL
    },
    Case {
        wrong: Wrong::Share(0, Fault::Flipped(EXTENSION_BLOCK + 20)),
        wanted: Wanted {
            blamed: &UEB_OF_0,
            ..SMALL_BUT_0
        },
        ..ALL_OF_SMALL
    },
    // The first byte of a block.
    Case {
        wrong: Wrong::Share(1, Fault::Flipped(BLOCKS)),
        wanted: Wanted {
            blamed: &DATA_OF_1,
            ..SMALL_BUT_0
        },
        ..ALL_OF_SMALL
    },
    // A server whose share is of another file of the same size, with an extension block of its own.
    Case {
        wrong: Wrong::Share(2, Fault::Other(OTHER)),
        wanted: Wanted {
            blamed: &UEB_OF_2,
            ..SMALL_BUT_0
        },
        ..ALL_OF_SMALL
    },
];

// Where a share is cut: in its blocks, in each of its trees, and in its extension block. What is
// read there has another length than was asked.
static CUTS: [Case; 11] = [
    Case {
        wrong: Wrong::Share(0, Fault::Cut(BLOCKS)),
        wanted: SMALL_BUT_0,
        ..ALL_OF_SMALL
    },
    Case {
        wrong: Wrong::Share(0, Fault::Cut(BLOCKS + 1)),
        wanted: SMALL_BUT_0,
        ..ALL_OF_SMALL
    },
    Case {
        wrong: Wrong::Share(0, Fault::Cut(BLOCKS + 9_999)),
        wanted: SMALL_BUT_0,
        ..ALL_OF_SMALL
    },
    Case {
        wrong: Wrong::Share(0, Fault::Cut(CIPHERTEXT_TREE + 479)),
        wanted: SMALL_BUT_0,
        ..ALL_OF_SMALL
    },
    Case {
        wrong: Wrong::Share(0, Fault::Cut(BLOCK_TREE + 300)),
        wanted: SMALL_BUT_0,
        ..ALL_OF_SMALL
    },
    Case {
        wrong: Wrong::Share(0, Fault::Cut(SHARE_HASHES)),
        wanted: SMALL_BUT_0,
        ..ALL_OF_SMALL
    },
    Case {
        wrong: Wrong::Share(0, Fault::Cut(SHARE_HASHES + 100)),
        wanted: SMALL_BUT_0,
        ..ALL_OF_SMALL
    },
    Case {
        wrong: Wrong::Share(0, Fault::Cut(EXTENSION_BLOCK)),
        wanted: SMALL_BUT_0,
        ..ALL_OF_SMALL
    },
    Case {
        wrong: Wrong::Share(0, Fault::Cut(EXTENSION_BLOCK + 3)),
        wanted: SMALL_BUT_0,
        ..ALL_OF_SMALL
    },
    Case {
        wrong: Wrong::Share(0, Fault::Cut(EXTENSION_BLOCK + 4)),
        wanted: SMALL_BUT_0,
        ..ALL_OF_SMALL
    },
    Case {
        wrong: Wrong::Share(0, Fault::Cut(EXTENSION_BLOCK + 300)),
        wanted: SMALL_BUT_0,
        ..ALL_OF_SMALL
    },
];

// A share whose extension block has the length 4,294,967,295: no byte behind that is asked for.
const LONG_BLOCK: Case = Case {
    wrong: Wrong::Share(0, Fault::Full(EXTENSION_BLOCK)),
    wanted: Wanted {
        reads: Reads::Some(BEHIND_THE_LENGTH, 0),
        ..SMALL_BUT_0
    },
    ..ALL_OF_SMALL
};

const BEHIND_THE_LENGTH: Section = Section {
    last: 0,
    from: EXTENSION_BLOCK as u64 + 4,
    to: u64::MAX,
};

// For one byte of a file of two segments, of 131,073 bytes and of one, no other byte of the data
// sections is read.
const LAST_BYTE: Case = Case {
    from: 131_073,
    wanted: Wanted {
        bytes: 1,
        parts: 1,
        reads: Reads::Some(DATA, 3),
        ..SMALL_COMES
    },
    ..ALL_OF_TWO
};

const DATA: Section = Section {
    last: 9,
    from: 36,
    to: 43_728,
};

// A server that offers share 3 as the numbers 0, 1 and 2 too.
const NUMBERS: [Placed; 10] = [
    (3, 0, 3),
    (3, 1, 3),
    (3, 2, 3),
    (3, 3, 3),
    (4, 4, 4),
    (5, 5, 5),
    (6, 6, 6),
    (7, 7, 7),
    (8, 8, 8),
    (9, 9, 9),
];

// Each of these is blamed, 0 and 1 for the numbers of the share hashes, 2, whose numbers are those
// of 3, for its block tree. The shares of others give the file.
const OTHER_NUMBERS: [Blame; 3] = [
    Blame {
        server: 3,
        share: 0,
        check: Check::Layout,
    },
    Blame {
        server: 3,
        share: 1,
        check: Check::Layout,
    },
    Blame {
        server: 3,
        share: 2,
        check: Check::BlockTree,
    },
];

// Of three numbers that are there, 0 is at the servers 0 and 5, and server 0 has 1 too.
const COPIES: [Placed; 4] = [(0, 0, 0), (0, 1, 1), (5, 0, 0), (6, 2, 2)];

const FIRST: [Placed; 3] = [(0, 0, 0), (1, 1, 1), (2, 2, 2)];

const LAST: [Placed; 3] = [(7, 7, 7), (8, 8, 8), (9, 9, 9)];

const LONG: Shape = Shape {
    size: 300_000,
    needed: 3,
    total: 10,
    segment: 4_096,
    servers: 10,
    mark: 0,
};

static OTHERS: [Case; 5] = [
    LONG_BLOCK,
    LAST_BYTE,
    Case {
        source: Source::Shares(SMALL, &NUMBERS),
        wanted: Wanted {
            blamed: &OTHER_NUMBERS,
            ..SMALL_COMES
        },
        ..ALL_OF_SMALL
    },
    // 0 is blamed at server 0 and good at server 5: neither the server nor the number is given up.
    Case {
        source: Source::Shares(SMALL, &COPIES),
        wrong: Wrong::Share(0, Fault::Flipped(SHARE_HASHES + 2)),
        wanted: Wanted {
            blamed: &HASHES_OF_0,
            ..SMALL_BUT_0
        },
        ..ALL_OF_SMALL
    },
    // Of three shares that are there, the server of the last is silent after so many answers: what
    // was proved is handed out, and it is not enough for more. It told what it holds, three reads
    // of its beginning, two of its trees, and one of its blocks: 23 of them.
    Case {
        source: Source::Shares(LONG, &FIRST),
        wrong: Wrong::Silent(2, 2, 7),
        to: 300_000,
        wanted: Wanted {
            status: DownloadStatus::NotEnoughShares,
            bytes: 94_254,
            parts: 23,
            ..SMALL_COMES
        },
        ..ALL_OF_SMALL
    },
];

static FROM_FIRST: Case = Case {
    source: Source::Shares(SMALL, &FIRST),
    ..ALL_OF_SMALL
};

static FROM_LAST: Case = Case {
    source: Source::Shares(SMALL, &LAST),
    ..ALL_OF_SMALL
};

// From the right shares of the file that is no code word all of it comes.
const RIGHT: Case = Case {
    source: Source::NoCodeWord(7, (0, 1)),
    to: SIZE as u64,
    wanted: Wanted {
        bytes: SIZE,
        parts: 2,
        ..SMALL_COMES
    },
    ..ALL_OF_SMALL
};

// From others its first segment alone.
const INCONSISTENT: Case = Case {
    wanted: Wanted {
        status: DownloadStatus::Inconsistent,
        bytes: SEGMENT_SIZE,
        parts: 1,
        ..SMALL_COMES
    },
    ..RIGHT
};

static ENDS: [Case; 7] = [
    RIGHT,
    Case {
        source: Source::NoCodeWord(8, (2, 3)),
        ..RIGHT
    },
    Case {
        source: Source::NoCodeWord(7, (2, 3)),
        ..INCONSISTENT
    },
    Case {
        source: Source::NoCodeWord(7, (0, 2)),
        ..INCONSISTENT
    },
    Case {
        source: Source::NoCodeWord(8, (0, 1)),
        ..INCONSISTENT
    },
    Case {
        source: Source::NoCodeWord(9, (0, 1)),
        ..INCONSISTENT
    },
    Case {
        source: Source::NoCodeWord(9, (2, 3)),
        ..INCONSISTENT
    },
];

// All of the least file comes that is not held by its cap, and a share is blamed.
const SMALLEST_BUT_0: Wanted = Wanted {
    bytes: 56,
    parts: 1,
    ..SMALL_BUT_0
};

// A share of it that ends at some offset.
const SMALLEST_CUT: Case = Case {
    source: Source::Shares(SMALLEST, &[]),
    to: 56,
    wanted: SMALLEST_BUT_0,
    ..ALL_OF_SMALL
};

const SMALLEST: Shape = Shape {
    size: 56,
    needed: 3,
    total: 10,
    segment: 4_096,
    servers: 10,
    mark: 0,
};

// The same, where nothing is cut.
static SMALLEST_WHOLE: [Case; 1] = [Case {
    wrong: Wrong::Share(0, Fault::Cut(633)),
    wanted: Wanted {
        blamed: &[],
        ..SMALLEST_BUT_0
    },
    ..SMALLEST_CUT
}];

// How many shares that are cut are blamed, from offset 0 on.
fn blamed_cuts(alloc: Global) -> usize {
    let mut kept = Vec::new(alloc);
    for cut in 0..633 {
        let case = Case {
            wrong: Wrong::Share(0, Fault::Cut(cut)),
            ..SMALLEST_CUT
        };
        if !ends_so(alloc, &case, &mut kept) {
            return cut;
        }
    }
    633
}

#[test]
fn each_section_has_its_check(rt: HostRuntime) {
    assert_eq!(rt; right_ones(rt.alloc(), &DAMAGES), DAMAGES.len());
}

#[test]
fn shares_that_end_early_are_blamed(rt: HostRuntime) {
    assert_eq!(rt; right_ones(rt.alloc(), &CUTS), CUTS.len());
}

#[test]
fn shares_that_end_anywhere_are_blamed(rt: HostRuntime) {
    assert_eq!(rt; right_ones(rt.alloc(), &SMALLEST_WHOLE), 1);
    assert_eq!(rt; blamed_cuts(rt.alloc()), 633);
}

#[test]
fn other_shares_give_the_file(rt: HostRuntime) {
    assert_eq!(rt; right_ones(rt.alloc(), &OTHERS), OTHERS.len());
}

#[test]
fn no_code_word_is_inconsistent(rt: HostRuntime) {
    assert_eq!(rt; right_ones(rt.alloc(), &ENDS), ENDS.len());
}

#[test]
fn downloads_from_other_shares_agree(rt: HostRuntime) {
    assert!(rt; agree(rt.alloc(), &FROM_FIRST, &FROM_LAST));
}
