//! What stands in a mark.

ghost use Rattle.std.specs.Prelude.{◌≡◌, ◌++◌, ◌<◌, ◌≤◌, ℕ, List, codes, IfOk, IsSome, IfSome};
ghost use Rattle.std.specs.Prelude.{◌↔◌, IsSomeAnd, IsTrue, take};
ghost use Rattle.std.specs.String.{string_bytes};
ghost use Rattle.sha2.specs.Sha256.{sha256};
ghost use Rattle.cap_text.specs.Base32.{IsBytes, base32};
ghost use Rattle.grid_marks.specs.Marks.{IsMark, kind_text, mark_text, server_mark};
ghost use Rattle.grid_marks.specs.Servers.{IsAlike};

use cap_text::{CapError, from_base32, to_base32};
use sha2::{Digest, Sha256};
use std::alloc::Global;
use wire::message::NodeId;

/// What tells a grid from all others.
pub type Identity = [u8; 16];

/// The greatest number of servers of a grid, and so the greatest in a mark.
pub const MAX_SERVERS: u16 = 256;

/// The identity that is made of a seed: the first 16 bytes of its SHA-256.
pub fn identity_of(seed: &[u8]) -> Identity
    ensures { result ≡ take 16 (sha256 seed.now) }
{
    let mut identity = [0; 16];
    identity.copy_from_slice(&Sha256::digest(seed)[..16]);
    identity
}

// Where the identity's letters begin and end.
const IDENTITY_START: usize = 5;

const IDENTITY_END: usize = 31;

/// What a mark is of.
#[derive(Clone, Copy, PartialEq, Eq)]
pub enum Kind {
    /// A grid: its number is how many servers the grid has.
    Grid,
    /// A server, with its number.
    Server,
}

impl Kind {
    // The word before the number.
    fn text(self) -> &'static str
        ensures { result.now ≡ kind_text self }
    {
        match self {
            Kind::Grid => " servers ",
            Kind::Server => " server ",
        }
    }
}

/// A mark of a grid, or of one of its servers.
#[derive(Clone, Copy)]
pub struct Mark {
    pub identity: Identity,
    pub kind: Kind,
    /// How many servers the grid has, 0 to 256, or the number of the server.
    pub number: u16,
}

impl Mark {
    /// The mark of a server, in a grid of this identity.
    pub fn of_server(identity: Identity, server: NodeId) -> Mark
        ensures { result ≡ server_mark identity server }
    {
        Mark {
            identity,
            kind: Kind::Server,
            number: server,
        }
    }

    /// Whether another mark has this identity and this number.
    pub fn is_alike(&self, other: &Mark) -> bool
        ensures { IsTrue result ↔ IsAlike other.now self.now }
    {
        let (first, second) = (self.identity, other.identity);
        first == second && self.number == other.number
    }

    /// The text of the mark. Nothing but memory is refused.
    pub fn text(&self, alloc: Global) -> Result<String, CapError>
        ensures { IfOk result (λ text. string_bytes text ≡ mark_text self.now) }
    {
        let identity = to_base32(alloc, &self.identity)?;
        Ok(format!(in alloc; "grid {identity}{}{}\n", self.kind.text(), self.number)?)
    }

    /// The mark of this kind that has this text, which is read exactly where it is one. Nothing but
    /// memory is refused.
    pub fn read(alloc: Global, kind: Kind, text: &[u8]) -> Result<Option<Mark>, CapError>
        ensures value { IfOk result
            (λ read. IfSome read (λ mark. (mark.kind ≡ kind) × (text.now ≡ mark_text mark))) }
        ensures number { IfOk result (λ read. IfSome read (λ mark. mark.number ≤ MAX_SERVERS)) }
        ensures only { (mark : Mark) → IsMark mark → mark.kind ≡ kind → text.now ≡ mark_text mark
            → IfOk result IsSome }
    {
        let Some(identity) = identity_in(text) else {
            return Ok(None);
        };
        for number in 0..MAX_SERVERS + 1 {
            let mark = Mark {
                identity,
                kind,
                number,
            };
            if mark.text(alloc)?.as_bytes() == text {
                return Ok(Some(mark));
            }
        }
        Ok(None)
    }
}

// The identity in the text of a mark, of whichever kind and number.
fn identity_in(text: &[u8]) -> Option<Identity>
    ensures { (identity rest : List ℕ) → IsBytes 16 identity
        → text.now ≡ codes "grid " ++ (base32 identity ++ rest)
        → IsSomeAnd result (λ found. found ≡ identity) }
{
    if text.len() < IDENTITY_END {
        return None;
    }
    let mut identity = [0; 16];
    if !from_base32(&text[IDENTITY_START..IDENTITY_END], &mut identity) {
        return None;
    }
    Some(identity)
}
