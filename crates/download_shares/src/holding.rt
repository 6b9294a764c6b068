//! A share at a server, and a check that it failed.

use share_verify::Check;
use wire::message::NodeId;

/// A share at a server that told it holds it.
#[derive(Clone, Copy, PartialEq, Eq)]
pub struct Holding {
    /// The server.
    pub server: NodeId,
    /// The share's number.
    pub share: u8,
    /// Whether it is left: it failed no check, and no read of it is lost or found no share.
    pub left: bool,
    /// Whether it is not to be chosen while others are.
    pub suspended: bool,
}

/// A share at a server that failed a check.
#[derive(Clone, Copy, PartialEq, Eq)]
pub struct Blame {
    /// The server.
    pub server: NodeId,
    /// The share's number.
    pub share: u8,
    /// The check.
    pub check: Check,
}
