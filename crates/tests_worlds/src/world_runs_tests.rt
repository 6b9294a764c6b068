//! Whole runs of worlds, whose ends were written down beforehand.

use crate::course::right_ones;
use crate::steps::{Case, File, Liars, Step};
use world_operations::status::Status;

// The read cap of 56 zeros with three shares, of which one is enough.
const ZEROS: File = File::Filled(0, 1, 3);

static RUNS: [Case; 2] = [
    // An upload to three honest nodes, in one run.
    Case {
        honest: 3,
        liars: Liars::None,
        steps: &[Step::Run, Step::Ends(0, Status::Happy(3), 0, 0, 0)],
    },
    // An upload, and then two downloads at once, of all of the file and of a part.
    Case {
        honest: 3,
        liars: Liars::None,
        steps: &[
            Step::Upload(0, 1, 3, 3),
            Step::Drain,
            Step::Download(1, ZEROS, 0, 56),
            Step::Download(2, ZEROS, 10, 20),
            Step::Drain,
            Step::Ends(0, Status::Happy(3), 0, 0, 0),
            Step::Ends(1, Status::Done, 1, 56, 0),
            Step::Ends(2, Status::Done, 1, 10, 0),
        ],
    },
];

#[test]
fn honest_worlds_end_well(rt: HostRuntime) {
    assert_eq!(rt; right_ones(rt.alloc(), &RUNS), RUNS.len());
}

// A liar is handed all that came to it, and what it says is sent under its own name. It has a turn
// once the Ask of an upload came to it twice: the first two messages are the Asks to both nodes.
static TURNS: [Case; 3] = [
    Case {
        honest: 1,
        liars: Liars::Counter(Some(0)),
        steps: &[
            Step::Upload(0, 1, 1, 1),
            Step::Deliver(1),
            Step::Deliver(1),
            Step::Turn(1),
            Step::Said(2, Some((1, 0, 2))),
        ],
    },
    // One that names no node, or fails, says nothing.
    Case {
        honest: 1,
        liars: Liars::Counter(Some(999)),
        steps: &[
            Step::Upload(0, 1, 1, 1),
            Step::Deliver(1),
            Step::Deliver(1),
            Step::Turn(1),
            Step::Said(2, None),
        ],
    },
    Case {
        honest: 1,
        liars: Liars::Counter(None),
        steps: &[
            Step::Upload(0, 1, 1, 1),
            Step::Deliver(1),
            Step::Deliver(1),
            Step::Turn(1),
            Step::Said(2, None),
        ],
    },
];

#[test]
fn a_liar_says_what_it_heard(rt: HostRuntime) {
    assert_eq!(rt; right_ones(rt.alloc(), &TURNS), TURNS.len());
}
