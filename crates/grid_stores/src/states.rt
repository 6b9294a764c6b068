//! How the servers of a grid stand, and what is counted of them.

ghost use Rattle.std.specs.Prelude.{◌≡◌};
ghost use Rattle.grid_stores.specs.States.{are_standing, counted, is_standing, lack_word};
ghost use Rattle.grid_stores.specs.States.{status_of, totals_of};

use crate::held::{Held, plus};
use file_encoding::Params;
use grid_marks::Mark;
use wire::message::NodeId;

/// The exit status where each server stands, or is served elsewhere.
const DONE: u8 = 0;

/// That where one does not.
const INCOMPLETE: u8 = 4;

/// Why a server does not stand.
#[derive(Clone, Copy, Debug, PartialEq, Eq)]
pub enum Lack {
    /// Nothing stands under its name.
    Missing,
    /// Its folder has no mark, in a grid that has one.
    NoMark,
    /// Its folder has another mark, or what is none.
    OtherMark,
    /// A file stands in place of its folder, and tells no address.
    NoAddress,
    /// What stands under its name cannot be looked at, or not be listed.
    Unreadable,
}

impl Lack {
    /// How it is told.
    pub fn word(&self) -> &'static str
        ensures { result.now ≡ lack_word self.now }
    {
        match self {
            Lack::Missing => "missing",
            Lack::NoMark => "no-mark",
            Lack::OtherMark => "other-mark",
            Lack::NoAddress => "no-address",
            Lack::Unreadable => "unreadable",
        }
    }
}

/// How a server of a grid stands.
#[derive(Drop)]
pub enum State {
    /// Its folder stands here, and holds these.
    Here(Held),
    /// It is served elsewhere, at this address, and was not asked.
    Elsewhere(String),
    Lacking(Lack),
}

/// A server of a grid.
#[derive(Drop)]
pub struct ServerState {
    pub server: NodeId,
    pub state: State,
}

impl ServerState {
    // Whether the server stands, here or elsewhere.
    fn is_standing(&self) -> bool
        ensures { result ≡ is_standing self.now }
    {
        match &self.state {
            State::Here(_) | State::Elsewhere(_) => true,
            State::Lacking(_) => false,
        }
    }
}

/// What a grid is.
#[derive(Drop)]
pub struct GridState {
    /// Its mark, where it knows its servers.
    pub mark: Option<Mark>,
    /// By which numbers its files are put, where it keeps them.
    pub ways: Option<Params>,
    /// Its servers, rising.
    pub servers: Vec<ServerState>,
}

/// Servers, by how many of them stand, and what their folders hold together.
#[derive(Clone, Copy, Debug, PartialEq, Eq)]
pub struct Totals {
    /// Those whose folders stand here.
    pub standing: u64,
    pub elsewhere: u64,
    pub held: Held,
}

impl Totals {
    /// Before the first server.
    pub const NONE: Totals = Totals {
        standing: 0,
        elsewhere: 0,
        held: Held::NONE,
    };

    // Counts a server.
    fn count(&mut self, found: &ServerState)
        ensures { self.new ≡ counted self.old found.now }
    {
        match &found.state {
            State::Here(held) => {
                self.standing = plus(self.standing, 1);
                self.held = self.held.with(held);
            }
            State::Elsewhere(_) => self.elsewhere = plus(self.elsewhere, 1),
            State::Lacking(_) => {}
        }
    }
}

/// The counts of all these servers.
pub(crate) fn totals_of(servers: &[ServerState]) -> Totals
    ensures { result ≡ totals_of servers.now }
{
    let mut totals = Totals::NONE;
    for found in servers {
        totals.count(found);
    }
    totals
}

/// The exit status of a grid with these servers.
pub(crate) fn status_of(servers: &[ServerState]) -> u8
    ensures { result ≡ status_of servers.now }
{
    if are_standing(servers) {
        DONE
    } else {
        INCOMPLETE
    }
}

// Whether all of them stand.
fn are_standing(servers: &[ServerState]) -> bool
    ensures { result ≡ are_standing servers.now }
{
    servers.iter().all(|found| found.is_standing())
}
