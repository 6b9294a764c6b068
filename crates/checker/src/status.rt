//! Where a check stands, and what it tells.

use share_reading::Verdict;
use std::marker::Model;
use wire::message::NodeId;

/// Where a check stands.
#[derive(Clone, Copy, PartialEq, Eq)]
pub enum CheckStatus {
    Running,
    /// Nothing is outstanding: there is a verdict on each share that was offered.
    Done,
    /// A call found no memory.
    Failed,
}

/// The verdict on one share at one server.
#[derive(Clone, Copy, PartialEq, Eq)]
pub struct ShareVerdict {
    /// The server.
    pub server: NodeId,
    /// The share's number.
    pub share: u8,
    /// The verdict.
    pub verdict: Verdict,
}

/// Verdicts, by server as asked and then by number.
#[derive(Drop)]
pub struct VerdictList {
    items: Vec<ShareVerdict>,
}

impl Model for VerdictList {
    ghost use Rattle.std.specs.Prelude.{List};
    ghost use Rattle.checker.specs.declared.status.ShareVerdict.{ShareVerdict};

    ghost Value = { List ShareVerdict };

    ghost view = { λ l. l.items.items };
}

impl VerdictList {
    ghost use Rattle.std.specs.Prelude.{◌≡◌};

    /// Takes the items over, without memory.
    pub(crate) fn from_vec(items: Vec<ShareVerdict>) -> VerdictList
        ensures { result ≡ items.items }
    {
        VerdictList { items }
    }

    /// The items.
    pub fn as_slice(&self) -> &[ShareVerdict]
        ensures { result.now ≡ self.now }
    {
        self.items.as_slice()
    }
}

/// What a check tells once it is done.
#[derive(Drop)]
pub struct Report {
    /// The verdict on each share that was offered, of a number below the file's.
    pub verdicts: VerdictList,
    /// There is a good share of each number.
    pub healthy: bool,
    /// There are good shares of as many numbers as are needed.
    pub recoverable: bool,
    /// The size of a largest matching of servers with their good shares.
    pub happiness: usize,
}
