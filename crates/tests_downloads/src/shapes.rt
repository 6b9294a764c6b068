//! The files that are downloaded, and downloads of all of them.

use crate::cases::{Case, Pieces, Reads, Shape, Source, Wanted, Wrong};
use download_core::status::{Blame, DownloadStatus};
use share_verify::Check;

// Eight segments of 4,098 bytes at most. Its shares have 11,967 bytes.
pub(crate) const SMALL: Shape = Shape {
    size: 30_000,
    needed: 3,
    total: 10,
    segment: 4_096,
    servers: 10,
    mark: 0,
};

// Where the sections of its shares begin: 10,000 bytes of blocks, two trees of 15 nodes after one
// that is no longer used, five share hashes with their numbers, and the extension block after its
// length.
pub(crate) const BLOCKS: usize = 36;

pub(crate) const CIPHERTEXT_TREE: usize = 10_516;

pub(crate) const BLOCK_TREE: usize = 10_996;

pub(crate) const SHARE_HASHES: usize = 11_476;

pub(crate) const EXTENSION_BLOCK: usize = 11_646;

// Two segments, of 131,073 bytes and of one.
pub(crate) const TWO: Shape = Shape {
    size: 131_074,
    needed: 3,
    total: 10,
    segment: 131_072,
    servers: 10,
    mark: 0,
};

// All of the small file comes, and nobody is blamed.
pub(crate) const SMALL_COMES: Wanted = Wanted {
    status: DownloadStatus::Done,
    bytes: 30_000,
    parts: 8,
    blamed: &[],
    seconds: u64::MAX,
    reads: Reads::Any,
    pieces: Pieces::Any,
};

// A download of it, each share being at its server.
pub(crate) const ALL_OF_SMALL: Case = Case {
    source: Source::Shares(SMALL, &[]),
    wrong: Wrong::Nothing,
    from: 0,
    to: 30_000,
    pressing: false,
    wanted: SMALL_COMES,
};

// A range of the second file.
pub(crate) const ALL_OF_TWO: Case = Case {
    source: Source::Shares(TWO, &[]),
    wrong: Wrong::Nothing,
    from: 0,
    to: 131_074,
    pressing: false,
    wanted: Wanted {
        bytes: 131_074,
        parts: 2,
        ..SMALL_COMES
    },
};

// A share at its server that fails this check.
pub(crate) const LAYOUT_OF_0: [Blame; 1] = [Blame {
    server: 0,
    share: 0,
    check: Check::Layout,
}];

pub(crate) const LAYOUT_OF_1: [Blame; 1] = [Blame {
    server: 1,
    share: 1,
    check: Check::Layout,
}];

pub(crate) const DATA_OF_1: [Blame; 1] = [Blame {
    server: 1,
    share: 1,
    check: Check::Data,
}];

pub(crate) const TREE_OF_0: [Blame; 1] = [Blame {
    server: 0,
    share: 0,
    check: Check::BlockTree,
}];

pub(crate) const HASHES_OF_0: [Blame; 1] = [Blame {
    server: 0,
    share: 0,
    check: Check::ShareHashes,
}];

pub(crate) const UEB_OF_0: [Blame; 1] = [Blame {
    server: 0,
    share: 0,
    check: Check::Ueb,
}];
