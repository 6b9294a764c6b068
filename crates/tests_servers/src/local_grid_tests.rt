//! An operation of the tests' own over servers in memory, some of which fail, and links that go
//! wrong.
//!
//! The test whose name begins with `refused_memory` passes too where any one allocation of its is
//! refused.

use local_grid::carry_on;
use local_grid::error::LoopError;
use local_grid::grid::LocalGrid;
use local_grid::link::{Link, MemoryLink, Way};
use local_grid::node::Node;
use request_record::operation::Operation;
use server_core::server::Server;
use share_store::memory::MemoryStore;
use share_store::store::Store;
use std::alloc::{AllocError, Global};
use std::test::Fail;
use wire::error::WireError;
use wire::feed::Feed;
use wire::message::{Body, Digest, Message, NodeId, ReadLength, ShareId, ShareLength, WriteData};

// The hash of `0123456789` under the tag of whole shares, by a program in Python.
const DIGEST: Digest =
    *b"\x9b\x43\x50\xa4\xfb\x28\x39\x4c\x37\xde\xae\xa3\xb5\x02\x95\x7b\x00\x3f\xa6\x5a\x79\x23\
        \x47\x14\x6d\xf8\xe9\x4f\x74\xd2\x43\x7d";

const SHARE: ShareId = ShareId {
    index: [0; 16],
    share: 3,
};

// A request about one share.
#[derive(Clone, Copy)]
enum Request {
    Ask,
    Allocate(u64),
    Write(u64, &'static [u8]),
    Close,
    Read(u64, u32),
}

// What is heard of an answer.
#[derive(Clone, Copy, PartialEq, Eq)]
enum Said {
    Have(usize),
    Granted,
    Wrote(u64),
    Closed(Digest),
    Data(usize),
    NoShare,
    Other,
}

// An answer: the node that it comes from, the second, the number of its request, and what it says.
type Heard = (NodeId, u64, u64, Said);

fn body(alloc: Global, request: Request) -> Option<Body> {
    Some(match request {
        Request::Ask => Body::Ask(SHARE.index),
        Request::Allocate(length) => Body::Allocate(SHARE, ShareLength::new(length)?),
        Request::Write(offset, bytes) => {
            let bytes = Vec::from_slice(alloc, bytes).ok()?;
            Body::Write(SHARE, offset, WriteData::from_vec(bytes)?)
        }
        Request::Close => Body::Close(SHARE),
        Request::Read(offset, length) => Body::Read(SHARE, offset, ReadLength::new(length)?),
    })
}

fn heard_of(body: &Body) -> Said {
    match body {
        Body::Have(_, held) => Said::Have(held.as_slice().len()),
        Body::Granted => Said::Granted,
        Body::Wrote(next) => Said::Wrote(*next),
        Body::Closed(digest) => Said::Closed(*digest),
        Body::Data(bytes) => Said::Data(bytes.as_slice().len()),
        Body::NoShare => Said::NoShare,
        _ => Said::Other,
    }
}

// An operation that sends its requests in turn, and is at its end after so many ticks.
#[derive(Drop)]
struct Asker<'a> {
    requests: &'a [(NodeId, Request)],
    sent: usize,
    heard: Vec<Heard>,
    ticks: u64,
    running: bool,
}

impl<'a> Asker<'a> {
    fn new(alloc: Global, requests: &'a [(NodeId, Request)], ticks: u64) -> Asker<'a> {
        Asker {
            requests,
            sent: 0,
            heard: Vec::new(alloc),
            ticks,
            running: 0 < ticks,
        }
    }
}

impl<'a> Operation for Asker<'a> {
    ghost use Rattle.request_record.specs.Asking.{fresh};

    ghost calls = { record {
      requests = λ asker. fresh 1 0;
      runs = λ asker. asker.running;
      takes = λ old taken new. Unit {0};
      hears = λ old from message now new. Unit {0};
      ticks = λ old now new. Unit {0};
      gives_up = λ old new. Unit {0};
    } };

    fn is_running(&self) -> bool {
        self.running
    }

    fn take_outgoing(&mut self, alloc: Global) -> Result<Option<(NodeId, Message)>, AllocError> {
        let Some((node, request)) = self.requests.get(self.sent) else {
            return Ok(None);
        };
        let Some(body) = body(alloc, *request) else {
            return Err(AllocError);
        };
        self.sent = self.sent.saturating_add(1);
        let message = Message {
            session: 1,
            number: self.sent as u64,
            body,
        };
        Ok(Some((*node, message)))
    }

    fn on_message(&mut self, from: NodeId, message: Message, now: u64) -> Result<(), AllocError> {
        self.heard
            .push((from, now, message.number, heard_of(&message.body)))?;
        Ok(())
    }

    fn tick(&mut self, _now: u64) -> Result<(), AllocError> {
        self.ticks = self.ticks.saturating_sub(1);
        self.running = 0 < self.ticks;
        Ok(())
    }
}

// A link over which junk comes after so many messages.
#[derive(Drop)]
struct JunkLink {
    link: MemoryLink,
    stream: Feed,
    left: u64,
}

impl JunkLink {
    fn new(alloc: Global, left: u64) -> JunkLink {
        JunkLink {
            link: MemoryLink::new(alloc),
            stream: Feed::new(alloc),
            left,
        }
    }
}

impl Link for JunkLink {
    ghost carries = { λ old way message came new. Unit {0} };

    ghost gives_up = { λ old new. Unit {0} };

    fn carry(
        &mut self,
        way: Way,
        message: &Message,
        frame: &mut Vec<u8>,
    ) -> Result<Option<Message>, AllocError> {
        if 0 < self.left {
            self.left -= 1;
            return self.link.carry(way, message, frame);
        }
        self.stream.feed(&[0xff; 4])?;
        match self.stream.next() {
            Ok(came) => Ok(came),
            Err(WireError::OutOfMemory) => Err(AllocError),
            Err(_) => Ok(None),
        }
    }
}

// A server of a case.
#[derive(Clone, Copy)]
enum Kind {
    Missing,
    Honest,
    // Its store fails the next time that it can.
    Failing,
    // Junk comes over its link after so many messages.
    Junk(u64),
}

use Kind::{Failing, Honest, Junk, Missing};

fn node(alloc: Global, kind: Kind) -> Option<Node<MemoryStore, JunkLink>> {
    let mut server = Server::start(alloc, MemoryStore::new(alloc), 100, false);
    let left = match kind {
        Missing => return None,
        Honest => u64::MAX,
        Failing => {
            server.fail_store();
            u64::MAX
        }
        Junk(left) => left,
    };
    Some(Node::new(server, JunkLink::new(alloc, left)))
}

fn grid(alloc: Global, kinds: &[Kind]) -> Result<LocalGrid<MemoryStore, JunkLink>, AllocError> {
    let mut nodes = Vec::with_capacity(alloc, kinds.len())?;
    for kind in kinds {
        nodes.push(node(alloc, *kind))?;
    }
    Ok(LocalGrid::new(alloc, nodes))
}

// Which nodes are silent: 1 for node 0, and twice as much for each node after one.
fn silent_nodes(grid: &LocalGrid<MemoryStore, JunkLink>) -> u64 {
    let mut silent: u64 = 0;
    for node in grid.nodes().iter().rev() {
        let is_silent = match node {
            Some(node) => node.is_silent(),
            None => false,
        };
        silent = silent.wrapping_mul(2) | u64::from(is_silent);
    }
    silent
}

// What is seen after a run.
#[derive(Clone, Copy, PartialEq, Eq)]
struct Seen {
    ending: Result<(), LoopError>,
    clock: u64,
    silent: u64,
}

struct Case {
    kinds: &'static [Kind],
    requests: &'static [(NodeId, Request)],
    ticks: u64,
    limit: u64,
    heard: &'static [Heard],
    seen: Seen,
}

const WHOLE_SHARE: [(NodeId, Request); 7] = [
    (0, Request::Ask),
    (0, Request::Allocate(10)),
    (0, Request::Write(0, b"0123")),
    (0, Request::Write(4, b"456789")),
    (0, Request::Close),
    (0, Request::Ask),
    (0, Request::Read(8, 5)),
];

const WHOLE_SHARE_HEARD: [Heard; 7] = [
    (0, 0, 1, Said::Have(0)),
    (0, 0, 2, Said::Granted),
    (0, 0, 3, Said::Wrote(4)),
    (0, 0, 4, Said::Wrote(10)),
    (0, 0, 5, Said::Closed(DIGEST)),
    (0, 0, 6, Said::Have(1)),
    (0, 0, 7, Said::Data(2)),
];

// Two nodes are asked in turn, and two that are not there.
const TWO_NODES: [(NodeId, Request); 6] = [
    (1, Request::Allocate(10)),
    (2, Request::Ask),
    (0, Request::Ask),
    (900, Request::Ask),
    (1, Request::Write(0, b"01")),
    (0, Request::Write(0, b"01")),
];

const ONE_AFTER_ANOTHER: [(NodeId, Request); 4] = [
    (1, Request::Allocate(10)),
    (1, Request::Write(0, b"01")),
    (1, Request::Allocate(10)),
    (0, Request::Ask),
];

static CASES: [Case; 8] = [
    Case {
        kinds: &[Honest],
        requests: &WHOLE_SHARE,
        ticks: 1,
        limit: 8,
        heard: &WHOLE_SHARE_HEARD,
        seen: Seen {
            ending: Ok(()),
            clock: 5,
            silent: 0,
        },
    },
    Case {
        kinds: &[Honest],
        requests: &WHOLE_SHARE,
        ticks: 1,
        limit: 7,
        heard: &WHOLE_SHARE_HEARD,
        seen: Seen {
            ending: Err(LoopError::TurnLimit),
            clock: 0,
            silent: 0,
        },
    },
    Case {
        kinds: &[Honest, Honest, Missing],
        requests: &TWO_NODES,
        ticks: 4,
        limit: 100,
        heard: &[
            (1, 0, 1, Said::Granted),
            (0, 0, 3, Said::Have(0)),
            (1, 0, 5, Said::Wrote(2)),
            (0, 0, 6, Said::NoShare),
        ],
        seen: Seen {
            ending: Ok(()),
            clock: 20,
            silent: 0,
        },
    },
    // The store fails at the write: nothing comes any more.
    Case {
        kinds: &[Honest, Failing],
        requests: &ONE_AFTER_ANOTHER,
        ticks: 1,
        limit: 100,
        heard: &[(1, 0, 1, Said::Granted), (0, 0, 4, Said::Have(0))],
        seen: Seen {
            ending: Ok(()),
            clock: 5,
            silent: 2,
        },
    },
    // Junk comes to the server.
    Case {
        kinds: &[Honest, Junk(2)],
        requests: &ONE_AFTER_ANOTHER,
        ticks: 1,
        limit: 100,
        heard: &[(1, 0, 1, Said::Granted), (0, 0, 4, Said::Have(0))],
        seen: Seen {
            ending: Ok(()),
            clock: 5,
            silent: 2,
        },
    },
    // Junk comes from the server.
    Case {
        kinds: &[Honest, Junk(1)],
        requests: &ONE_AFTER_ANOTHER,
        ticks: 1,
        limit: 100,
        heard: &[(0, 0, 4, Said::Have(0))],
        seen: Seen {
            ending: Ok(()),
            clock: 5,
            silent: 2,
        },
    },
    Case {
        kinds: &[Junk(0)],
        requests: &WHOLE_SHARE,
        ticks: 3,
        limit: 9,
        heard: &[],
        seen: Seen {
            ending: Err(LoopError::TurnLimit),
            clock: 10,
            silent: 1,
        },
    },
    // An operation that is at its end is not asked.
    Case {
        kinds: &[Honest],
        requests: &WHOLE_SHARE,
        ticks: 0,
        limit: 100,
        heard: &[],
        seen: Seen {
            ending: Ok(()),
            clock: 0,
            silent: 0,
        },
    },
];

// Does a run go as it is to, by the loop of one process or by that over whatever there is?
fn is_right(alloc: Global, case: &Case, over_any: bool) -> Result<bool, AllocError> {
    let mut grid = grid(alloc, case.kinds)?;
    let mut asker = Asker::new(alloc, case.requests, case.ticks);
    let ending = match over_any {
        true => carry_on(alloc, &mut grid, &mut asker, case.limit),
        false => grid.run_within(&mut asker, case.limit),
    };
    let seen = Seen {
        ending,
        clock: grid.clock(),
        silent: silent_nodes(&grid),
    };
    Ok(asker.heard.as_slice() == case.heard && seen == case.seen)
}

#[test]
fn cases(rt: HostRuntime) -> Result<(), Fail> {
    for (i, case) in CASES.iter().enumerate() {
        assert!(rt; is_right(rt.alloc(), case, false)?, "case {i}");
        assert!(rt; is_right(rt.alloc(), case, true)?, "case {i} over any");
    }
    Ok(())
}

// A run that ended by its limit goes on in the next one.
#[test]
fn goes_on_after_the_limit(rt: HostRuntime) -> Result<(), Fail> {
    let mut grid = grid(rt.alloc(), &[Honest])?;
    let mut asker = Asker::new(rt.alloc(), &WHOLE_SHARE, 2);
    for turns in [0, 3, 5] {
        assert!(rt; grid.run_within(&mut asker, turns) == Err(LoopError::TurnLimit));
    }
    assert_eq!(rt; grid.clock(), 5);
    assert!(rt; grid.run(&mut asker) == Ok(()));
    assert_eq!(rt; grid.clock(), 10);
    assert!(rt; asker.heard.as_slice() == &WHOLE_SHARE_HEARD[..]);
    Ok(())
}

// What is heard of a write where so many ticks came between it and its share's beginning.
fn write_after(alloc: Global, ticks: u64) -> Result<Option<Said>, AllocError> {
    let mut grid = grid(alloc, &[Honest])?;
    let mut first = Asker::new(alloc, &[(0, Request::Allocate(10))], ticks);
    let mut second = Asker::new(alloc, &[(0, Request::Write(0, b"01"))], 1);
    if grid.run(&mut first).is_err() || grid.run(&mut second).is_err() {
        return Err(AllocError);
    }
    Ok(match second.heard.as_slice() {
        [(_, _, _, said)] => Some(*said),
        _ => None,
    })
}

// The servers tick too: a bucket is dropped after 600 seconds.
#[test]
fn servers_tick(rt: HostRuntime) -> Result<(), Fail> {
    assert!(rt; write_after(rt.alloc(), 119)? == Some(Said::Wrote(2)));
    assert!(rt; write_after(rt.alloc(), 120)? == Some(Said::NoShare));
    Ok(())
}

// What the server holds at the end, with links in memory.
fn held(alloc: Global) -> Result<(Result<(), LoopError>, Option<Digest>), AllocError> {
    let server = Server::start(alloc, MemoryStore::new(alloc), 100, false);
    let mut nodes = Vec::with_capacity(alloc, 1)?;
    nodes.push(Some(Node::new(server, MemoryLink::new(alloc))))?;
    let mut grid = LocalGrid::new(alloc, nodes);
    let mut asker = Asker::new(alloc, &WHOLE_SHARE, 1);
    let ending = grid.run(&mut asker);
    let digest = match grid.nodes() {
        [Some(node)] => node.server().store().closed(&SHARE),
        _ => None,
    };
    Ok((ending, digest))
}

#[test]
fn holds_the_share(rt: HostRuntime) -> Result<(), Fail> {
    assert!(rt; held(rt.alloc())? == (Ok(()), Some(DIGEST)));
    Ok(())
}

#[test]
fn refused_memory_holds_the_share(rt: HostRuntime) {
    let is_right = match held(rt.alloc()) {
        Ok((Ok(()), digest)) => digest == Some(DIGEST),
        Ok((Err(refusal), _)) => refusal == LoopError::OutOfMemory,
        Err(AllocError) => true,
    };
    assert!(rt; is_right);
}

#[test]
fn refusals(rt: HostRuntime) -> Result<(), Fail> {
    let text = format!(in rt.alloc(); "{} {}", LoopError::OutOfMemory, LoopError::TurnLimit)?;
    assert!(rt; text.as_str() == "OutOfMemory TurnLimit");
    Ok(())
}
