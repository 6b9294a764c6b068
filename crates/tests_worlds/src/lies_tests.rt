//! Worlds where servers lie about a file that was uploaded. Its shares are at honest servers, of
//! which none is blamed, and all they have is good. What is sent by liars is found out.

use crate::course::right_ones;
use crate::steps::{Case, Change, File, Liars, Room, Step, Table};
use share_reading::Verdict;
use share_verify::Check;
use world_operations::status::Status;

// The file that is uploaded: any two of its three shares are enough.
const OWN: File = File::Filled(0, 2, 3);

// A file of the same size.
const OTHER: File = File::Filled(255, 2, 3);

// The shares of both have 36 bytes of header, 28 of data up to offset 64, three trees of one node
// each, and from offset 160 on three share hashes. At offset 262 stands the length of the extension
// block, and at offset 266 its text.

// What a check finds.
const UEB: Verdict = Verdict::Corrupt(Check::Ueb);

const SHARE_HASHES: Verdict = Verdict::Corrupt(Check::ShareHashes);

const LAYOUT: Verdict = Verdict::Corrupt(Check::Layout);

const DATA: Verdict = Verdict::Corrupt(Check::Data);

// All operations are answered.
const ALWAYS: u64 = u64::MAX;

static SHARES: [Case; 6] = [
    // Extension blocks of its own: that of another file, and one that is changed. A download to
    // which honest servers answer first blames nobody.
    Case {
        honest: 3,
        liars: Liars::Tellers(&[Table {
            shares: &[
                (0, OTHER, 0, Change::None),
                (1, OWN, 1, Change::Set(270, &[0])),
            ],
            room: Room::None,
            until: ALWAYS,
        }]),
        steps: &[
            Step::Upload(0, 2, 3, 3),
            Step::Settle,
            Step::Ends(0, Status::Happy(3), 0, 0, 0),
            Step::Download(1, OWN, 0, 56),
            Step::LiarsFirst,
            Step::Settle,
            Step::Ends(1, Status::Done, 1, 56, 0),
            Step::Blames(1, &[(3, 0, Check::Ueb), (3, 1, Check::Ueb)]),
            Step::Check(2, OWN),
            Step::Settle,
            Step::Ends(2, Status::Done, 0, 0, 0),
            Step::Finds(2, 3, &[(3, 0, UEB), (3, 1, UEB)]),
            Step::Download(2, OWN, 0, 56),
            Step::Settle,
            Step::Ends(3, Status::Done, 1, 56, 0),
            Step::Blames(3, &[]),
        ],
    },
    // Two hold each other's share. A block tree of one node is a share hash, so a download finds
    // the block wrong.
    Case {
        honest: 3,
        liars: Liars::Tellers(&[
            Table {
                shares: &[(0, OWN, 1, Change::None)],
                room: Room::None,
                until: ALWAYS,
            },
            Table {
                shares: &[(1, OWN, 0, Change::None)],
                room: Room::None,
                until: ALWAYS,
            },
        ]),
        steps: &[
            Step::Upload(0, 2, 3, 3),
            Step::Settle,
            Step::Ends(0, Status::Happy(3), 0, 0, 0),
            Step::Download(1, OWN, 0, 56),
            Step::LiarsFirst,
            Step::Settle,
            Step::Ends(1, Status::Done, 1, 56, 0),
            Step::Blames(1, &[(3, 0, Check::Data), (4, 1, Check::Data)]),
            Step::Check(2, OWN),
            Step::Settle,
            Step::Ends(2, Status::Done, 0, 0, 0),
            Step::Finds(2, 3, &[(3, 0, SHARE_HASHES), (4, 1, SHARE_HASHES)]),
        ],
    },
    // One gives shares under the numbers of others: the share hashes of 0 and 1 are of the same
    // nodes, those of 2 are of others.
    Case {
        honest: 3,
        liars: Liars::Tellers(&[Table {
            shares: &[(0, OWN, 1, Change::None), (1, OWN, 2, Change::None)],
            room: Room::None,
            until: ALWAYS,
        }]),
        steps: &[
            Step::Upload(0, 2, 3, 3),
            Step::Settle,
            Step::Ends(0, Status::Happy(3), 0, 0, 0),
            Step::Download(1, OWN, 0, 56),
            Step::LiarsFirst,
            Step::Settle,
            Step::Ends(1, Status::Done, 1, 56, 0),
            Step::Blames(1, &[(3, 1, Check::Layout), (3, 0, Check::Data)]),
            Step::Check(2, OWN),
            Step::Settle,
            Step::Ends(2, Status::Done, 0, 0, 0),
            Step::Finds(2, 3, &[(3, 0, SHARE_HASHES), (3, 1, LAYOUT)]),
        ],
    },
    // One swaps the data of two shares, and all else is theirs.
    Case {
        honest: 3,
        liars: Liars::Tellers(&[Table {
            shares: &[
                (0, OWN, 0, Change::Swapped(1, 36, 64)),
                (1, OWN, 1, Change::Swapped(0, 36, 64)),
            ],
            room: Room::None,
            until: ALWAYS,
        }]),
        steps: &[
            Step::Upload(0, 2, 3, 3),
            Step::Settle,
            Step::Ends(0, Status::Happy(3), 0, 0, 0),
            Step::Download(1, OWN, 0, 56),
            Step::LiarsFirst,
            Step::Settle,
            Step::Ends(1, Status::Done, 1, 56, 0),
            Step::Blames(1, &[(3, 0, Check::Data), (3, 1, Check::Data)]),
            Step::Check(2, OWN),
            Step::Settle,
            Step::Ends(2, Status::Done, 0, 0, 0),
            Step::Finds(2, 3, &[(3, 0, DATA), (3, 1, DATA)]),
            Step::Download(2, OWN, 0, 56),
            Step::Settle,
            Step::Ends(3, Status::Done, 1, 56, 0),
            Step::Blames(3, &[]),
        ],
    },
    // One says that its extension block has 4,294,967,295 bytes: of that share nothing is asked for
    // but its header and that length. Of another it says, asked for a part, that it has none.
    Case {
        honest: 3,
        liars: Liars::Tellers(&[Table {
            shares: &[
                (0, OWN, 0, Change::Set(262, &[255; 4])),
                (2, OWN, 2, Change::Gone),
            ],
            room: Room::None,
            until: ALWAYS,
        }]),
        steps: &[
            Step::Upload(0, 2, 3, 3),
            Step::Settle,
            Step::Ends(0, Status::Happy(3), 0, 0, 0),
            Step::Download(1, OWN, 0, 56),
            Step::LiarsFirst,
            Step::Settle,
            Step::Ends(1, Status::Done, 1, 56, 0),
            Step::Blames(1, &[(3, 0, Check::Layout)]),
            Step::Check(2, OWN),
            Step::Settle,
            Step::Ends(2, Status::Done, 0, 0, 0),
            Step::Finds(2, 3, &[(3, 0, LAYOUT), (3, 2, Verdict::Lost)]),
            Step::Reads(3, 0, &[(0, 36), (262, 266)]),
        ],
    },
    // One share is at an honest server, and what two liars have is not the file's: too few are
    // left.
    Case {
        honest: 1,
        liars: Liars::Tellers(&[
            Table {
                shares: &[(0, OTHER, 0, Change::None), (1, OWN, 2, Change::None)],
                room: Room::None,
                until: ALWAYS,
            },
            Table {
                shares: &[(2, OWN, 2, Change::Swapped(0, 36, 64))],
                room: Room::None,
                until: ALWAYS,
            },
        ]),
        steps: &[
            Step::Upload(0, 2, 1, 3),
            Step::Settle,
            Step::Ends(0, Status::Happy(1), 0, 0, 0),
            Step::Download(0, OWN, 0, 56),
            Step::LiarsFirst,
            Step::Settle,
            Step::Ends(1, Status::NotEnoughShares, 0, 0, 0),
            Step::Blames(
                1,
                &[
                    (1, 0, Check::Ueb),
                    (1, 1, Check::Layout),
                    (2, 2, Check::Data),
                ],
            ),
            Step::Check(0, OWN),
            Step::Settle,
            Step::Ends(2, Status::Done, 0, 0, 0),
            Step::Finds(2, 1, &[(1, 0, UEB), (1, 1, LAYOUT), (2, 2, DATA)]),
        ],
    },
];

#[test]
fn lies_about_shares_are_found_out(rt: HostRuntime) {
    assert_eq!(rt; right_ones(rt.alloc(), &SHARES), SHARES.len());
}

// The file with four shares.
const FOUR: File = File::Filled(0, 2, 4);

static ROOM: [Case; 3] = [
    // It answers each Allocate by Closed, with a digest that is made up. That is no answer to it:
    // the request is lost, and the share goes to an honest server.
    Case {
        honest: 3,
        liars: Liars::Tellers(&[Table {
            shares: &[],
            room: Room::Closed,
            until: ALWAYS,
        }]),
        steps: &[
            Step::Upload(0, 2, 3, 3),
            Step::Settle,
            Step::Pass(20),
            Step::Tick(0),
            Step::Settle,
            Step::Ends(0, Status::Happy(3), 0, 0, 0),
            Step::Download(1, OWN, 0, 56),
            Step::LiarsFirst,
            Step::Settle,
            Step::Ends(1, Status::Done, 1, 56, 0),
            Step::Blames(1, &[]),
            Step::Check(2, OWN),
            Step::Settle,
            Step::Finds(2, 3, &[]),
        ],
    },
    // The same, where four servers are wanted: three are honest.
    Case {
        honest: 3,
        liars: Liars::Tellers(&[Table {
            shares: &[],
            room: Room::Closed,
            until: ALWAYS,
        }]),
        steps: &[
            Step::Upload(0, 2, 4, 4),
            Step::Settle,
            Step::Pass(20),
            Step::Tick(0),
            Step::Settle,
            Step::Ends(0, Status::Unhappy(3, 4), 0, 0, 0),
            Step::Download(1, FOUR, 0, 56),
            Step::LiarsFirst,
            Step::Settle,
            Step::Ends(1, Status::Done, 1, 56, 0),
            Step::Blames(1, &[]),
            Step::Check(2, FOUR),
            Step::Settle,
            Step::Finds(2, 4, &[]),
        ],
    },
    // It says that it took all bytes, and then Closed with a digest that is made up.
    Case {
        honest: 3,
        liars: Liars::Tellers(&[Table {
            shares: &[],
            room: Room::Granted,
            until: ALWAYS,
        }]),
        steps: &[
            Step::Upload(0, 2, 4, 4),
            Step::Settle,
            Step::Ends(0, Status::Unhappy(3, 4), 0, 0, 0),
            Step::Download(1, FOUR, 0, 56),
            Step::LiarsFirst,
            Step::Settle,
            Step::Ends(1, Status::Done, 1, 56, 0),
            Step::Blames(1, &[]),
            Step::Check(2, FOUR),
            Step::Settle,
            Step::Finds(2, 4, &[]),
        ],
    },
];

#[test]
fn made_up_digests_do_not_count(rt: HostRuntime) {
    assert_eq!(rt; right_ones(rt.alloc(), &ROOM), ROOM.len());
}

// One answers an upload and a download. At another download, and at a check, it says what it heard
// and said before, and no more.
static REPLAYED: [Case; 1] = [Case {
    honest: 3,
    liars: Liars::Tellers(&[Table {
        shares: &[(0, OTHER, 0, Change::None)],
        room: Room::None,
        until: 2,
    }]),
    steps: &[
        Step::Upload(0, 2, 3, 3),
        Step::Settle,
        Step::Ends(0, Status::Happy(3), 0, 0, 0),
        Step::Download(1, OWN, 0, 56),
        Step::LiarsFirst,
        Step::Settle,
        Step::Ends(1, Status::Done, 1, 56, 0),
        Step::Blames(1, &[(3, 0, Check::Ueb)]),
        Step::Download(1, OWN, 0, 56),
        Step::LiarsFirst,
        Step::Settle,
        Step::Ends(2, Status::Done, 1, 56, 0),
        Step::Blames(2, &[]),
        Step::Check(1, OWN),
        Step::LiarsFirst,
        Step::Settle,
        Step::Pass(20),
        Step::Tick(1),
        Step::Settle,
        Step::Ends(3, Status::Done, 0, 0, 0),
        Step::Finds(3, 3, &[]),
        Step::Ends(0, Status::Happy(3), 0, 0, 0),
        Step::Ends(1, Status::Done, 1, 56, 0),
        Step::Blames(1, &[(3, 0, Check::Ueb)]),
        Step::Says(3, 20),
    ],
}];

#[test]
fn frames_of_ended_operations_do_not_count(rt: HostRuntime) {
    assert_eq!(rt; right_ones(rt.alloc(), &REPLAYED), 1);
}
