//! Uploads of sources that change while they are read. Then a file of zeros is downloaded, and one
//! of bytes of 255.

use crate::course::{goes, right_ones};
use crate::steps::{Case, File, Liars, Step};
use upload_core::pieces::PieceFault;
use world_operations::status::Status;

const ZEROS: File = File::Filled(0, 1, 1);

const OTHERS: File = File::Filled(255, 1, 1);

static CHANGING: [Case; 5] = [
    // Both passes bring the other text: it is the file.
    Case {
        honest: 1,
        liars: Liars::None,
        steps: &[
            Step::Changing(0),
            Step::Drain,
            Step::Download(0, ZEROS, 0, 56),
            Step::Drain,
            Step::Download(0, OTHERS, 0, 56),
            Step::Drain,
            Step::Ends(0, Status::Happy(1), 0, 0, 0),
            Step::Ends(1, Status::NotEnoughShares, 0, 0, 0),
            Step::Ends(2, Status::Done, 1, 56, 255),
        ],
    },
    // The two passes bring different texts: nothing is sent.
    Case {
        honest: 1,
        liars: Liars::None,
        steps: &[
            Step::Changing(56),
            Step::Drain,
            Step::Download(0, ZEROS, 0, 56),
            Step::Drain,
            Step::Download(0, OTHERS, 0, 56),
            Step::Drain,
            Step::Ends(0, Status::Failed(PieceFault::SourceChanged), 0, 0, 0),
            Step::Ends(1, Status::NotEnoughShares, 0, 0, 0),
            Step::Ends(2, Status::NotEnoughShares, 0, 0, 0),
        ],
    },
    Case {
        honest: 1,
        liars: Liars::None,
        steps: &[
            Step::Changing(57),
            Step::Drain,
            Step::Download(0, ZEROS, 0, 56),
            Step::Drain,
            Step::Download(0, OTHERS, 0, 56),
            Step::Drain,
            Step::Ends(0, Status::Failed(PieceFault::SourceChanged), 0, 0, 0),
            Step::Ends(1, Status::NotEnoughShares, 0, 0, 0),
            Step::Ends(2, Status::NotEnoughShares, 0, 0, 0),
        ],
    },
    // It never changes.
    Case {
        honest: 1,
        liars: Liars::None,
        steps: &[
            Step::Changing(u64::MAX),
            Step::Drain,
            Step::Download(0, ZEROS, 0, 56),
            Step::Drain,
            Step::Download(0, OTHERS, 0, 56),
            Step::Drain,
            Step::Ends(0, Status::Happy(1), 0, 0, 0),
            Step::Ends(1, Status::Done, 1, 56, 0),
            Step::Ends(2, Status::NotEnoughShares, 0, 0, 0),
        ],
    },
    // Texts of two lengths, and a small file, are refused.
    Case {
        honest: 1,
        liars: Liars::None,
        steps: &[Step::Refused(56, 57), Step::Refused(55, 55)],
    },
];

#[test]
fn a_source_that_changes_is_not_uploaded_as_another(rt: HostRuntime) {
    assert_eq!(rt; right_ones(rt.alloc(), &CHANGING), CHANGING.len());
}

// It changes after both passes: what would be sent is not what was read, unless it is kept.
static KEPT: Case = Case {
    honest: 1,
    liars: Liars::None,
    steps: &[
        Step::Changing(112),
        Step::Drain,
        Step::Download(0, ZEROS, 0, 56),
        Step::Drain,
        Step::Download(0, OTHERS, 0, 56),
        Step::Drain,
        Step::Ends(0, Status::Happy(1), 0, 0, 0),
        Step::Ends(1, Status::Done, 1, 56, 0),
        Step::Ends(2, Status::NotEnoughShares, 0, 0, 0),
    ],
};

static NOT_KEPT: Case = Case {
    honest: 1,
    liars: Liars::None,
    steps: &[
        Step::Changing(112),
        Step::Drain,
        Step::Download(0, ZEROS, 0, 56),
        Step::Drain,
        Step::Download(0, OTHERS, 0, 56),
        Step::Drain,
        Step::Ends(0, Status::Failed(PieceFault::SourceChanged), 0, 0, 0),
        Step::Ends(1, Status::NotEnoughShares, 0, 0, 0),
        Step::Ends(2, Status::NotEnoughShares, 0, 0, 0),
    ],
};

#[test]
fn a_source_that_changes_later_is_not_uploaded_as_another(rt: HostRuntime) {
    assert!(rt; goes(rt.alloc(), &KEPT) || goes(rt.alloc(), &NOT_KEPT));
}
