//! What a check is made of, but for how it stands.

ghost use Rattle.std.specs.Prelude.{◌≡◌, ◌↔◌, IfOk, IsTrue};
ghost use Rattle.checker.specs.Book.{IsFresh, IsStanding};
ghost use Rattle.checker.specs.declared.status.CheckStatus.TheVariants.{Running};

use crate::offers::Offer;
use crate::status::CheckStatus;
use cap_text::VerifyCap;
use request_record::ledger::Ledger;
use std::alloc::{AllocError, Global};
use wire::message::NodeId;

/// Which of the offers are those of one server.
#[derive(Clone, Copy)]
pub(crate) struct Told {
    /// The position of the first.
    pub(crate) first: usize,
    /// How many there are.
    pub(crate) count: usize,
}

/// A check but for how it stands.
#[derive(Drop)]
pub(crate) struct Machine {
    pub(crate) alloc: Global,
    pub(crate) cap: VerifyCap,
    /// Whether it keeps the bytes of shares.
    pub(crate) keeps: bool,
    pub(crate) requests: Ledger,
    /// The shares that each server offered: none before it answered. The first requests, as many,
    /// ask for them.
    pub(crate) told: Vec<Told>,
    /// The share that each further request reads, by its position among the offers.
    pub(crate) owners: Vec<usize>,
    /// The shares that were offered.
    pub(crate) offers: Vec<Offer>,
    /// The position of the first that is not begun.
    pub(crate) begun: usize,
    /// How many are read.
    pub(crate) reading: usize,
    /// How many may be read at once.
    pub(crate) room: usize,
    /// How many pieces of a share are asked for at once, at most; one is at least.
    pub(crate) ahead: usize,
}

impl Machine {
    /// Asks each of these servers which shares it holds.
    pub(crate) fn begin(
        alloc: Global,
        cap: VerifyCap,
        servers: &[NodeId],
        session: u64,
        now: u64,
        keeps: bool,
        ahead: usize,
    ) -> Result<Machine, AllocError>
        ensures { IfOk result (IsFresh cap servers.now session now keeps) }
    {
        Ok(Machine {
            alloc,
            cap,
            keeps,
            requests: Ledger::begin(alloc, servers, session, now)?,
            told: vec![in alloc; Told { first: 0, count: 0 }; servers.len()]?,
            owners: Vec::new(alloc),
            offers: Vec::new(alloc),
            begun: 0,
            reading: 0,
            room: 1,
            ahead,
        })
    }

    /// Where it stands.
    pub(crate) fn standing(&self) -> CheckStatus
        ensures { IsStanding self.now.requests.entries result }
    {
        if 0 < self.requests.outstanding() {
            CheckStatus::Running
        } else {
            CheckStatus::Done
        }
    }
}

/// Whether a check that stands so runs.
pub(crate) fn is_running(status: CheckStatus) -> bool
    ensures { IsTrue result ↔ (status ≡ Running) }
{
    matches!(status, CheckStatus::Running)
}
