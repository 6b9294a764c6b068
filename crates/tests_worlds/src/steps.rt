//! What worlds are made to do, and what has to come of it.

use cap_text::{Cap, ReadCap};
use file_encoding::{Encoded, Params, encode_all};
use proved_parts::Bytes;
use share_reading::Verdict;
use share_verify::Check;
use std::alloc::Global;
use test_shares::no_code_word::NoCodeWord;
use wire::message::NodeId;
use world::event::Event;
use world_operations::job::Job;
use world_operations::status::Status;

// A world, and what is done there. A step that looks is taken where it is so.
#[derive(Clone, Copy)]
pub(crate) struct Case {
    // How many nodes are honest.
    pub(crate) honest: NodeId,
    // The nodes after them.
    pub(crate) liars: Liars,
    pub(crate) steps: &'static [Step],
}

#[derive(Clone, Copy)]
pub(crate) enum Liars {
    None,
    // One that says to this node how many messages it heard. Without a node its turns fail.
    Counter(Option<NodeId>),
    // The servers of a file that is no code word.
    Keepers(Kept),
    // Those that answer by tables.
    Tellers(&'static [Table]),
}

// Four servers hold a share each of the file that is no code word, whose ciphertext tree tells that
// its second segment is such bytes. Each of the first honest nodes is answered by two of them.
#[derive(Clone, Copy)]
pub(crate) struct Kept {
    pub(crate) told: u8,
    pub(crate) pairs: &'static [(u8, u8)],
}

// What a liar says. The digests that it tells are made up.
#[derive(Clone, Copy)]
pub(crate) struct Table {
    // The shares that it says it holds, by rising number.
    pub(crate) shares: &'static [Offer],
    // What it says where it is to keep a share.
    pub(crate) room: Room,
    // It answers the requests of the operations before this one. At each of a later one it says
    // once more all that it answered, to who sent it, and all that it said.
    pub(crate) until: u64,
}

// A number that a liar offers, and the share of a file that it gives for it, changed so.
pub(crate) type Offer = (u8, File, u8, Change);

#[derive(Clone, Copy)]
pub(crate) enum Room {
    // That it has none.
    None,
    // At once that the share is closed.
    Closed,
    // That there is some, that the bytes are written, and that the share is closed.
    Granted,
}

#[derive(Clone, Copy)]
pub(crate) enum Change {
    None,
    // It says that it has none where it is asked for a part.
    Gone,
    // These bytes stand at this offset.
    Set(usize, &'static [u8]),
    // From one offset to before another stand the bytes of the share of this number.
    Swapped(u8, usize, usize),
}

// A file that is uploaded, downloaded or checked.
#[derive(Clone, Copy)]
pub(crate) enum File {
    // 56 such bytes, of which so many shares of so many are enough.
    Filled(u8, u64, u64),
    NoCodeWord(u8),
}

#[derive(Clone, Copy)]
pub(crate) enum Step {
    // A node uploads 56 zeros, with these k, h and N.
    Upload(NodeId, u64, u64, u64),
    // Node 0 uploads a source of 56 bytes: so many of those that it hands out are zero, and later
    // ones 255.
    Changing(u64),
    // It cannot upload one whose texts have these lengths.
    Refused(usize, usize),
    // A node downloads a file, from one offset to before another.
    Download(NodeId, File, u64, u64),
    // Each node that is answered downloads the file that is no code word.
    DownloadKept,
    // A node checks the shares of a file.
    Check(NodeId, File),
    Deliver(usize),
    Turn(NodeId),
    Pass(u64),
    Tick(NodeId),
    // Each message that was not delivered yet is, oldest first, until none is left.
    Drain,
    // Messages are delivered and liars have their turns until nobody says anything more.
    Settle,
    // So are those of which a liar is the sender or the receiver, before all others.
    LiarsFirst,
    // An upload, and all of its messages, in one run; and a run whose second event is refused.
    Run,
    // The operation of this number came to this, and handed out so many pieces, of so many bytes,
    // which are all this one.
    Ends(usize, Status, usize, usize, u8),
    // The downloads of the file that is no code word end as they have to, and agree.
    KeptEnd,
    // The download of this number blames these shares at servers, in this order.
    Blames(usize, &'static [(NodeId, u8, Check)]),
    // The check of this number finds so many shares good, and this of each other.
    Finds(usize, usize, &'static [(NodeId, u8, Verdict)]),
    // What a node was asked to read of a share lies in these parts, each from one offset to before
    // another.
    Reads(NodeId, u8, &'static [(u64, u64)]),
    // A node said so many messages at least.
    Says(NodeId, usize),
    // The evidence of no two downloads clashes.
    NoClash,
    // The message at this offset, if there is one: who sent it, to whom, and its only byte.
    Said(usize, Option<(NodeId, NodeId, u8)>),
}

// What is one event. `None` where there is no memory for it too.
pub(crate) fn event_of(alloc: Global, step: &Step) -> Option<Event> {
    match step {
        Step::Deliver(offset) => Some(Event::Deliver(*offset)),
        Step::Turn(node) => Some(Event::Turn(*node)),
        Step::Pass(seconds) => Some(Event::Pass(*seconds)),
        Step::Tick(node) => Some(Event::Tick(*node)),
        Step::Upload(node, _, _, _) | Step::Download(node, _, _, _) | Step::Check(node, _) => {
            Some(Event::Start(*node, job_of(alloc, step)?))
        }
        _ => Some(Event::Start(0, job_of(alloc, step)?)),
    }
}

fn job_of(alloc: Global, step: &Step) -> Option<Job> {
    match step {
        Step::Upload(_, needed, happy, total) => upload(alloc, *needed, *happy, *total),
        Step::Changing(after) => changing(alloc, 56, 56, *after),
        Step::Refused(length, other) => changing(alloc, *length, *other, 0),
        Step::Download(_, file, from, to) => Some(Job::Download(cap_of(alloc, file)?, *from, *to)),
        Step::Check(_, file) => Some(Job::Check(cap_of(alloc, file)?.to_verify())),
        _ => None,
    }
}

fn filled(alloc: Global, byte: u8, length: usize) -> Option<Bytes> {
    Some(Bytes::from_vec(vec![in alloc; byte; length].ok()?))
}

fn upload(alloc: Global, needed: u64, happy: u64, total: u64) -> Option<Job> {
    let params = Params::new(needed, happy, total, 131_072).ok()?;
    let secret = Bytes::from_vec(Vec::new(alloc));
    Some(Job::Upload(filled(alloc, 0, 56)?, secret, params))
}

// The upload, by one server, of a source that changes.
fn changing(alloc: Global, length: usize, other: usize, after: u64) -> Option<Job> {
    let params = Params::new(1, 1, 1, 131_072).ok()?;
    let secret = Bytes::from_vec(Vec::new(alloc));
    let file = filled(alloc, 0, length)?;
    Some(Job::Changing(file, filled(alloc, 255, other)?, after, secret, params))
}

fn cap_of(alloc: Global, file: &File) -> Option<ReadCap> {
    match file {
        File::Filled(byte, needed, total) => cap_of_filled(alloc, *byte, *needed, *total),
        File::NoCodeWord(told) => Some(NoCodeWord::new(alloc, *told)?.cap),
    }
}

fn cap_of_filled(alloc: Global, byte: u8, needed: u64, total: u64) -> Option<ReadCap> {
    let Encoded { cap, .. } = encoded(alloc, byte, needed, total)?;
    match cap {
        Cap::Chk(cap) => Some(cap),
        Cap::Verify(_) | Cap::Lit(_) => None,
    }
}

fn encoded(alloc: Global, byte: u8, needed: u64, total: u64) -> Option<Encoded> {
    let params = Params::new(needed, total, total, 131_072).ok()?;
    encode_all(alloc, &[byte; 56], &[], &params).ok()
}

// The share of a number of a file.
pub(crate) fn share_of(alloc: Global, file: &File, share: u8) -> Option<Vec<u8>> {
    match file {
        File::Filled(byte, needed, total) => {
            let encoded = encoded(alloc, *byte, *needed, *total)?;
            let share = encoded.shares.get(usize::from(share))?;
            Vec::from_slice(alloc, share.as_slice()).ok()
        }
        File::NoCodeWord(told) => NoCodeWord::new(alloc, *told)?.share(alloc, share).ok(),
    }
}
