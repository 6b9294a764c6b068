//! The servers of an upload, what it is for, and where it stands.

ghost use Rattle.std.specs.Prelude.{◌≡◌, ◌≤◌, length};
ghost use Rattle.upload_core.specs.Acknowledged.{is_digest_of};
ghost use Rattle.upload_core.specs.State.{with_ahead};

use crate::pieces::PieceFault;
use cap_text::VerifyCap;
use placement::ServerId;
use std::marker::Model;
use wire::message::{Digest, NodeId, ShareLength};

/// A server: its node, and the id by which servers are ordered.
#[derive(Clone, Copy, PartialEq, Eq)]
pub struct ServerInfo {
    pub node: NodeId,
    pub id: ServerId,
}

/// What an upload is for: the shares of a verify cap's file, by their digests and length; and how
/// many pieces of a share may wait for their answers at one server.
#[derive(Drop)]
pub struct UploadGoal {
    cap: VerifyCap,
    digests: Vec<Digest>,
    share_length: ShareLength,
    ahead: u8,
}

impl Model for UploadGoal {
    ghost use Rattle.std.specs.Prelude.{◌≤◌, length};
    ghost use Rattle.upload_core.specs.State.{Goal};

    ghost Value = { Goal };

    ghost view = { λ g. record {
      cap = g.cap;
      digests = g.digests.items;
      share_length = g.share_length;
      ahead = g.ahead;
    } };

    ghost invariant = { λ g.
        (length g.digests.items ≤ 256) × (1 ≤ g.ahead) × (1 ≤ g.share_length) };
}

impl UploadGoal {
    /// The shares of the cap's file that have these digests, by number, and this length each. There
    /// are at most 256. Each piece of a share waits for the answer to the one before it.
    pub fn new(cap: VerifyCap, digests: Vec<Digest>, share_length: ShareLength) -> UploadGoal
        requires { length digests.items ≤ 256 }
        ensures { result ≡ record {
          cap = cap;
          digests = digests.items;
          share_length = share_length;
          ahead = 1;
        } }
    {
        UploadGoal {
            cap,
            digests,
            share_length,
            ahead: 1,
        }
    }

    /// The same, where so many pieces of a share may wait for their answers at one server: 1 or
    /// more.
    pub fn with_ahead(self, ahead: u8) -> UploadGoal
        requires { 1 ≤ ahead }
        ensures { result ≡ with_ahead ahead self }
    {
        UploadGoal { ahead, ..self }
    }

    /// The verify cap.
    pub fn cap(&self) -> &VerifyCap
        ensures { result.now ≡ self.now.cap }
    {
        &self.cap
    }

    /// How many shares there are.
    pub fn share_count(&self) -> usize
        ensures count { result ≡ length self.now.digests }
        ensures few { result ≤ 256 }
    {
        self.digests.len()
    }

    /// The length of each share in bytes.
    pub fn share_length(&self) -> ShareLength
        ensures { result ≡ self.now.share_length }
    {
        self.share_length
    }

    /// How many pieces of a share may wait for their answers at one server.
    pub fn ahead(&self) -> u8
        ensures value { result ≡ self.now.ahead }
        ensures some { 1 ≤ result }
    {
        self.ahead
    }

    /// The digests of the shares, by number.
    pub fn digests(&self) -> &[Digest]
        ensures { result.now ≡ self.now.digests }
    {
        &self.digests
    }

    /// Is this the digest of the share of this number?
    pub fn is_digest_of(&self, share: u8, digest: &Digest) -> bool
        ensures { result ≡ is_digest_of self.now share digest.now }
    {
        match self.digests.get(usize::from(share)) {
            Some(own) => own == digest,
            None => false,
        }
    }
}

/// Pairs of a server and a share.
#[derive(Drop)]
pub struct PairList {
    items: Vec<(NodeId, u16)>,
}

impl Model for PairList {
    ghost use Rattle.std.specs.Prelude.{List};
    ghost use Rattle.placement.specs.Matching.{Pair};

    ghost Value = { List Pair };

    ghost view = { λ l. l.items.items };
}

impl PairList {
    /// Takes the items over, without memory.
    pub(crate) fn from_vec(items: Vec<(NodeId, u16)>) -> PairList
        ensures { result ≡ items.items }
    {
        PairList { items }
    }

    /// The items.
    pub fn as_slice(&self) -> &[(NodeId, u16)]
        ensures { result.now ≡ self.now }
    {
        self.items.as_slice()
    }
}

/// Servers by their nodes.
#[derive(Drop)]
pub struct NodeList {
    items: Vec<NodeId>,
}

impl Model for NodeList {
    ghost use Rattle.std.specs.Prelude.{List, ℕ};

    ghost Value = { List ℕ };

    ghost view = { λ l. l.items.items };
}

impl NodeList {
    /// Takes the items over, without memory.
    pub(crate) fn from_vec(items: Vec<NodeId>) -> NodeList
        ensures { result ≡ items.items }
    {
        NodeList { items }
    }

    /// The items.
    pub fn as_slice(&self) -> &[NodeId]
        ensures { result.now ≡ self.now }
    {
        self.items.as_slice()
    }
}

/// Where an upload stands.
#[derive(Drop)]
pub enum UploadStatus {
    Running,
    /// A largest matching of the acknowledged pairs, of at least as many as were wanted.
    Happy(PairList),
    /// The happiness that was reached, which is less than the one that was wanted, and a blocking
    /// set.
    Unhappy(u16, NodeList),
    /// A call found no memory, or a piece of a share could not be had.
    Failed(PieceFault),
}
