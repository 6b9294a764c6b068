//! What is downloaded, what is wrong there, and what has to come of it.

use download_core::status::{Blame, DownloadStatus};
use wire::message::NodeId;

// A download that is tried. It is wrong in one way at most.
#[derive(Clone, Copy)]
pub(crate) struct Case {
    pub(crate) source: Source,
    pub(crate) wrong: Wrong,
    // The bytes of the file from one offset to before another.
    pub(crate) from: u64,
    pub(crate) to: u64,
    // Are shares of late servers put aside?
    pub(crate) pressing: bool,
    pub(crate) wanted: Wanted,
}

// A server, the number under which it offers a share, and the share that it holds.
pub(crate) type Placed = (NodeId, u8, u8);

// Which shares there are.
#[derive(Clone, Copy)]
pub(crate) enum Source {
    // These shares of a file, or where none are named each once, at its server.
    Shares(Shape, &'static [Placed]),
    // These two shares of the file that is no code word, whose ciphertext tree tells that its
    // second segment is such bytes.
    NoCodeWord(u8, (u8, u8)),
}

// How a file is laid out: its size, k, N, and the segment size.
#[derive(Clone, Copy)]
pub(crate) struct Shape {
    pub(crate) size: usize,
    pub(crate) needed: u64,
    pub(crate) total: u64,
    pub(crate) segment: u64,
    // Share n is at server n modulo this.
    pub(crate) servers: usize,
    // Files of one size differ by this in each byte.
    pub(crate) mark: u8,
}

// What goes wrong.
#[derive(Clone, Copy)]
pub(crate) enum Wrong {
    Nothing,
    // From this server on up to that one, none answers once so many answers were given there.
    Silent(NodeId, NodeId, usize),
    // This server answers so many times at once, and after that so many seconds late.
    Late(NodeId, usize, u64),
    // So does the first, and the second not at all any more.
    LateAndSilent(NodeId, NodeId, usize, u64),
    // With the share that stands here.
    Share(usize, Fault),
}

// What is wrong with a share.
#[derive(Clone, Copy)]
pub(crate) enum Fault {
    // The byte at this offset is another one.
    Flipped(usize),
    // The four bytes from this offset on are 255.
    Full(usize),
    // It ends at this offset.
    Cut(usize),
    // Its server says that there is none where it is asked for a part.
    Gone,
    // It is the last one of this file.
    Other(Shape),
}

// How a download has to end.
#[derive(Clone, Copy)]
pub(crate) struct Wanted {
    pub(crate) status: DownloadStatus,
    // How many bytes it handed out.
    pub(crate) bytes: usize,
    // For how many segments it has proof.
    pub(crate) parts: usize,
    // What is blamed, in order.
    pub(crate) blamed: &'static [Blame],
    // Within how many seconds it ends.
    pub(crate) seconds: u64,
    pub(crate) reads: Reads,
    pub(crate) pieces: Pieces,
}

// What is asked for.
#[derive(Clone, Copy)]
pub(crate) enum Reads {
    Any,
    // No byte twice.
    Once,
    // No byte twice, and of these bytes of shares so many.
    Some(Section, u64),
}

// How many pieces are handed out.
#[derive(Clone, Copy)]
pub(crate) enum Pieces {
    Any,
    // So many the first time that some are.
    First(usize),
    // So many each time that some are.
    Each(&'static [usize]),
}

// The bytes from one offset to before another, of the shares of a number up to that one.
#[derive(Clone, Copy)]
pub(crate) struct Section {
    pub(crate) last: u8,
    pub(crate) from: u64,
    pub(crate) to: u64,
}
