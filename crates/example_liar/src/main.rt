//! A world of three honest nodes and a liar of one's own, of which nothing is assumed. It says that
//! it holds the first share of every file, gives zeros for it, and is always heard first.
#![tactic(auto)]

use cap_text::Cap;
use download_core::status::Blame;
use file_encoding::{Params, encode_all};
use proved_parts::Bytes;
use std::alloc::Global;
use std::io;
use wire::decoding::decode;
use wire::message::{Body, HeldList, HeldShare, NodeId, ReadData};
use world::World;
use world::event::Event::{Deliver, Start, Turn};
use world::liar::{Liar, LiarFault};
use world_operations::job::Job;
use world_operations::message::Sent;
use world_operations::status::Status;
use world_operations::task::Task;

// A file of more than 55 bytes: a shorter one stands whole in its cap, and has no shares.
const FILE: &[u8] = b"Nobody keeps one file. Nobody trusts one server either.\n";
// Nodes 0 to 2 are honest. The liar is the one behind them.
const LIAR: NodeId = 3;

#[derive(Drop)]
struct Zeros(Global);

impl Liar for Zeros {
    fn turn(&mut self, heard: &[Sent]) -> Result<Option<(NodeId, Bytes)>, LiarFault> {
        Ok(heard.last().and_then(|request| answer(self.0, request)))
    }
}

fn answer(alloc: Global, request: &Sent) -> Option<(NodeId, Bytes)> {
    let mut lie = decode(alloc, request.body.as_slice()).ok()?;
    let digest = [0; 32];
    let first = vec![in alloc; HeldShare { share: 0, digest }].ok()?;
    lie.body = match lie.body {
        Body::Ask(_) => Body::Have(false, HeldList::from_vec(first)?),
        _ => Body::Data(ReadData::from_vec(vec![in alloc; 0; 100].ok()?)?),
    };
    Some((request.from, Bytes::from_vec(lie.encode_body(alloc).ok()?)))
}

// Node 0 puts the file on three servers, and node 1 gets it. What the liar says is heard first.
fn played(alloc: Global) -> Option<(bool, Vec<Blame>)> {
    let liar: Box<dyn Liar> = Box::new(alloc, Zeros(alloc)).ok()?;
    let mut world = World::new(alloc, LIAR, vec![in alloc; liar].ok()?).ok()?;
    let two_of_three = Params::new(2, 3, 3, 131_072).ok()?;
    let file = Bytes::from_vec(Vec::from_slice(alloc, FILE).ok()?);
    let put = Job::Upload(file, Bytes::from_vec(Vec::new(alloc)), two_of_three);
    let cap = encode_all(alloc, FILE, &[], &two_of_three).ok()?.cap;
    let Cap::Chk(cap) = cap else { return None };
    for start in [Start(0, put), Start(1, Job::Download(cap, 0, cap.size()))] {
        let sent_before = world.sent().len();
        world.step(&start).ok()?;
        for position in sent_before..1_000 {
            if let Some(sent) = world.sent().get(position) {
                let taken = if sent.to == LIAR { 3 } else { 1 };
                let events = [Deliver(position), Turn(LIAR), Deliver(world.sent().len())];
                world.run(&events[..taken]).1.ok()?;
            }
        }
    }
    let done = world.status(0)? == Status::Happy(3) && world.status(1)? == Status::Done;
    match &world.operations().last()?.task {
        Task::Downloading(get) => Some((done, Vec::from_slice(alloc, get.blamed()).ok()?)),
        _ => None,
    }
}

fn main(rt: HostRuntime) -> io::Result<()> {
    let (done, blamed) = played(rt.alloc()).ok_or(io::ErrorKind::OutOfMemory)?;
    for Blame { server, share, .. } in blamed.iter() {
        println!(rt; "blamed: node {server}, for share {share}")?;
    }
    println!(rt; "put on three servers, and got: {done}")
}
