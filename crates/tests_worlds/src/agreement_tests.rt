//! Downloads of a cap whose shares were made by nobody honest. They all pass their checks, and are
//! no code word: downloads from other servers decode other segments. Each ends Inconsistent, or
//! hands out what all others do: no position has two bytes.

use crate::course::right_ones;
use crate::steps::{Case, File, Kept, Liars, Step};
use world_operations::status::Status;

// Every two of the four servers: each pair answers a node of its own.
const PAIRS: &[(u8, u8)] = &[(0, 1), (0, 2), (0, 3), (1, 2), (1, 3), (2, 3)];

// Two sets of servers without a server in common.
const HALVES: &[(u8, u8)] = &[(0, 1), (2, 3)];

const STEPS: &[Step] = &[
    Step::DownloadKept,
    Step::Settle,
    Step::KeptEnd,
    Step::NoClash,
];

// From one pair of servers each, where no pair is right.
static SINGLE: [Case; 6] = [
    Case {
        honest: 4,
        liars: Liars::Keepers(Kept {
            told: 9,
            pairs: &[(0, 1)],
        }),
        steps: STEPS,
    },
    Case {
        honest: 4,
        liars: Liars::Keepers(Kept {
            told: 9,
            pairs: &[(0, 2)],
        }),
        steps: STEPS,
    },
    Case {
        honest: 4,
        liars: Liars::Keepers(Kept {
            told: 9,
            pairs: &[(0, 3)],
        }),
        steps: STEPS,
    },
    Case {
        honest: 4,
        liars: Liars::Keepers(Kept {
            told: 9,
            pairs: &[(1, 2)],
        }),
        steps: STEPS,
    },
    Case {
        honest: 4,
        liars: Liars::Keepers(Kept {
            told: 9,
            pairs: &[(1, 3)],
        }),
        steps: STEPS,
    },
    Case {
        honest: 4,
        liars: Liars::Keepers(Kept {
            told: 9,
            pairs: &[(2, 3)],
        }),
        steps: STEPS,
    },
];

// From several.
static SEVERAL: [Case; 6] = [
    Case {
        honest: 5,
        liars: Liars::Keepers(Kept {
            told: 7,
            pairs: HALVES,
        }),
        steps: STEPS,
    },
    Case {
        honest: 5,
        liars: Liars::Keepers(Kept {
            told: 8,
            pairs: HALVES,
        }),
        steps: STEPS,
    },
    Case {
        honest: 5,
        liars: Liars::Keepers(Kept {
            told: 9,
            pairs: HALVES,
        }),
        steps: STEPS,
    },
    Case {
        honest: 9,
        liars: Liars::Keepers(Kept {
            told: 7,
            pairs: PAIRS,
        }),
        steps: STEPS,
    },
    Case {
        honest: 9,
        liars: Liars::Keepers(Kept {
            told: 8,
            pairs: PAIRS,
        }),
        steps: STEPS,
    },
    Case {
        honest: 9,
        liars: Liars::Keepers(Kept {
            told: 9,
            pairs: PAIRS,
        }),
        steps: STEPS,
    },
];

#[test]
fn downloads_of_no_code_word_agree(rt: HostRuntime) {
    assert_eq!(rt; right_ones(rt.alloc(), &SINGLE), SINGLE.len());
    assert_eq!(rt; right_ones(rt.alloc(), &SEVERAL), SEVERAL.len());
}

const ZEROS: File = File::Filled(0, 1, 3);

// Beside those downloads, which are begun, a node uploads a file of zeros, and two others download
// it. So many seconds pass that what was not answered is lost.
static HONEST_BESIDE: [Case; 1] = [Case {
    honest: 9,
    liars: Liars::Keepers(Kept {
        told: 7,
        pairs: PAIRS,
    }),
    steps: &[
        Step::DownloadKept,
        Step::Upload(6, 1, 3, 3),
        Step::Settle,
        Step::Pass(20),
        Step::Tick(0),
        Step::Tick(1),
        Step::Tick(2),
        Step::Tick(3),
        Step::Tick(4),
        Step::Tick(5),
        Step::Tick(6),
        Step::Tick(7),
        Step::Tick(8),
        Step::Settle,
        Step::Download(7, ZEROS, 0, 56),
        Step::Download(8, ZEROS, 0, 56),
        Step::Settle,
        Step::KeptEnd,
        Step::Ends(6, Status::Happy(3), 0, 0, 0),
        Step::Ends(7, Status::Done, 1, 56, 0),
        Step::Ends(8, Status::Done, 1, 56, 0),
        Step::NoClash,
    ],
}];

#[test]
fn an_honest_file_beside_it_agrees(rt: HostRuntime) {
    assert_eq!(rt; right_ones(rt.alloc(), &HONEST_BESIDE), 1);
}
