//! Downloads whose segments are made eight side by side.

use crate::cases::{Case, Fault, Pieces, Shape, Source, Wanted, Wrong};
use crate::course::right_ones;
use crate::shapes::{ALL_OF_SMALL, BLOCKS, SMALL_COMES};
use download_core::status::Blame;
use share_verify::Check;

// 26 segments and 100 bytes, at three of five servers. Each block is as long as one read.
const ROWS: Shape = Shape {
    size: 26 * 98_304 + 100,
    needed: 3,
    total: 5,
    segment: 98_304,
    servers: 5,
    mark: 0,
};

// All of the file comes, eight segments at once as long as there are so many.
const ALL_COMES: Wanted = Wanted {
    bytes: 26 * 98_304 + 100,
    parts: 27,
    pieces: Pieces::Each(&[8, 8, 8, 1, 1, 1]),
    ..SMALL_COMES
};

const WHOLE: Case = Case {
    source: Source::Shares(ROWS, &[]),
    to: 26 * 98_304 + 100,
    wanted: ALL_COMES,
    ..ALL_OF_SMALL
};

// The first block of the share 0 of which the second row is made is wrong.
const DATA_OF_0: [Blame; 1] = [Blame {
    server: 0,
    share: 0,
    check: Check::Data,
}];

static CASES: [Case; 2] = [
    WHOLE,
    // One block of the second row is wrong: it is blamed, and the first eight come at once.
    Case {
        wrong: Wrong::Share(0, Fault::Flipped(BLOCKS + 10 * 32_768)),
        wanted: Wanted {
            blamed: &DATA_OF_0,
            pieces: Pieces::First(8),
            ..ALL_COMES
        },
        ..WHOLE
    },
];

#[test]
fn eight_segments_are_made_at_once(rt: HostRuntime) {
    assert_eq!(rt; right_ones(rt.alloc(), &CASES), CASES.len());
}
