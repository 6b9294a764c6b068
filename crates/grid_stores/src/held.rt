//! What the folders of servers hold, by the names of their files.

ghost use Rattle.std.specs.Prelude.{◌≡◌};
ghost use Rattle.share_files.specs.Acts.{is_open};
ghost use Rattle.grid_stores.specs.Held.{count_of, held_in, held_with, is_damaged, is_share, plus};

use share_files::{FileKind, ShareFile};

/// How many files of each kind a server's folder has, or several of them have together.
#[derive(Clone, Copy, Debug, PartialEq, Eq)]
pub struct Held {
    /// Files of closed shares.
    pub shares: u64,
    /// How many bytes these have together, with those that are on their way to be set aside.
    pub bytes: u64,
    /// Files of open shares.
    pub opened: u64,
    /// Files of closed shares that were set aside, or are on their way there.
    pub damaged: u64,
}

impl Held {
    /// Nothing.
    pub const NONE: Held = Held {
        shares: 0,
        bytes: 0,
        opened: 0,
        damaged: 0,
    };

    /// These and others.
    pub fn with(&self, other: &Held) -> Held
        ensures { result ≡ held_with self.now other.now }
    {
        Held {
            shares: plus(self.shares, other.shares),
            bytes: plus(self.bytes, other.bytes),
            opened: plus(self.opened, other.opened),
            damaged: plus(self.damaged, other.damaged),
        }
    }
}

/// A sum, or the greatest number that is counted.
pub(crate) fn plus(count: u64, more: u64) -> u64
    ensures { result ≡ plus count more }
{
    count.saturating_add(more)
}

/// What a folder holds that has these files, whose shares have so many bytes together.
pub(crate) fn held_in(files: &[ShareFile], bytes: u64) -> Held
    ensures { result ≡ held_in files.now bytes }
{
    Held {
        shares: shares_in(files) as u64,
        bytes,
        opened: opened_in(files) as u64,
        damaged: damaged_in(files) as u64,
    }
}

// How many files are of closed shares, of open ones, and of those that were set aside.
fn shares_in(files: &[ShareFile]) -> usize
    ensures { result ≡ count_of is_share files.now }
{
    files.iter().filter(|file| is_share(file)).count()
}

fn opened_in(files: &[ShareFile]) -> usize
    ensures { result ≡ count_of is_open files.now }
{
    files.iter().filter(|file| is_open(file)).count()
}

fn damaged_in(files: &[ShareFile]) -> usize
    ensures { result ≡ count_of is_damaged files.now }
{
    files.iter().filter(|file| is_damaged(file)).count()
}

// Of a closed share, under its closed name.
fn is_share(file: &ShareFile) -> bool
    ensures { result ≡ is_share file.now.kind }
{
    matches!(file.kind, FileKind::Closed(_))
}

// Of an open share.
fn is_open(file: &ShareFile) -> bool
    ensures { result ≡ is_open file.now.kind }
{
    matches!(file.kind, FileKind::Open(_))
}

// Of a closed share, set aside or on its way there.
fn is_damaged(file: &ShareFile) -> bool
    ensures { result ≡ is_damaged file.now.kind }
{
    matches!(file.kind, FileKind::HalfAside(..) | FileKind::Aside(..))
}
