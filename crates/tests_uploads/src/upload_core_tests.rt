//! Whole uploads of three shares to four servers in memory, some of which do not do as they should.

ghost use Rattle.std.specs.Prelude.{◌≡◌, IfSome, length, map, nat_eq};
ghost use Rattle.std.specs.List.{IsDistinct};
ghost use Rattle.upload_core.specs.declared.status.ServerInfo.{ServerInfo};

use cap_text::{ReadCap, VerifyCap};
use placement::ServerId;
use request_record::operation::Operation;
use server_core::server::Server;
use share_store::memory::MemoryStore;
use share_store::store::Store;
use std::alloc::Global;
use tagged_hash::share_digest;
use upload_core::pieces::WholeShares;
use upload_core::status::{ServerInfo, UploadGoal, UploadStatus};
use upload_core::{ReadyUpload, Upload};
use wire::message::{Body, Message, NodeId, ShareId, ShareLength};

// How many bytes each share has: two writes.
pub(crate) const SHARE_LENGTH: usize = 40_000;

// The order in which the servers are asked, by a program in Python.
const ORDER: [NodeId; 4] = [0, 3, 2, 1];

pub(crate) const SERVERS: [ServerInfo; 4] = [
    ServerInfo {
        node: 0,
        id: ServerId([0; 20]),
    },
    ServerInfo {
        node: 1,
        id: ServerId([1; 20]),
    },
    ServerInfo {
        node: 2,
        id: ServerId([2; 20]),
    },
    ServerInfo {
        node: 3,
        id: ServerId([3; 20]),
    },
];

// What a server does.
#[derive(Clone, Copy, PartialEq, Eq)]
pub(crate) enum Conduct {
    Honest,
    // It never answers.
    Silent,
    // It holds what it holds, and takes nothing.
    ReadOnly,
    // It has no room for a share.
    Full,
    // It answers all as it should, but says that it keeps shares of another digest.
    OtherDigest,
    // It answers each Write with a position that is not the next one.
    Miscounts,
}

use Conduct::{Full, Honest, Miscounts, OtherDigest, ReadOnly, Silent};

// How an upload ended: the number of servers that keep distinct shares.
#[derive(Clone, Copy, PartialEq, Eq)]
enum Ending {
    Happy(usize),
    Unhappy(u16),
    Running,
    Failed,
}

// What the four servers do, how many are wanted, and the ending.
const UPLOADS: [([Conduct; 4], u16, Ending); 12] = [
    ([Honest, Honest, Honest, Honest], 3, Ending::Happy(3)),
    ([Honest, Honest, Honest, Honest], 1, Ending::Happy(3)),
    ([Honest, Honest, Honest, Honest], 4, Ending::Unhappy(3)),
    ([Silent, Honest, Honest, Honest], 3, Ending::Happy(3)),
    ([Silent, Silent, Honest, Honest], 3, Ending::Unhappy(2)),
    ([Silent, Silent, Honest, Honest], 2, Ending::Happy(2)),
    ([Full, Honest, ReadOnly, Honest], 3, Ending::Unhappy(2)),
    ([Full, Honest, Honest, Honest], 3, Ending::Happy(3)),
    ([OtherDigest, Honest, Honest, Honest], 3, Ending::Happy(3)),
    (
        [OtherDigest, OtherDigest, Honest, Honest],
        3,
        Ending::Unhappy(2),
    ),
    ([Miscounts, Honest, Honest, Honest], 3, Ending::Happy(3)),
    ([Silent, Silent, Silent, Silent], 1, Ending::Unhappy(0)),
];

pub(crate) fn verify_cap() -> Option<VerifyCap> {
    let cap = ReadCap::new([1; 16], [2; 32], 2, 3, 80_000).ok()?;
    Some(cap.to_verify())
}

// A share of so many bytes of one value.
pub(crate) fn share(alloc: Global, value: u8) -> Option<Vec<u8>>
    ensures { IfSome result (λ share. length share.items ≡ 40000) }
{
    vec![in alloc; value; SHARE_LENGTH].ok()
}

// An upload of three shares to these servers.
fn begun_at(alloc: Global, happy: u16, servers: &[ServerInfo]) -> Option<Upload<WholeShares>>
    requires { IsDistinct nat_eq (map (λ (s : ServerInfo). s.node) servers.now) }
{
    let all = vec![in alloc; share(alloc, 7)?, share(alloc, 8)?, share(alloc, 9)?].ok()?;
    let shares = WholeShares::new(all);
    let digests = shares.digests(alloc).ok()?;
    let goal = UploadGoal::new(
        verify_cap()?,
        digests,
        ShareLength::new(SHARE_LENGTH as u64)?,
    );
    let ready = ReadyUpload::new(shares, goal, happy);
    ready.start(alloc, servers, 5, 0).ok()
}

// An upload of three shares to the four servers.
pub(crate) fn begun(alloc: Global, happy: u16) -> Option<Upload<WholeShares>> {
    begun_at(alloc, happy, &SERVERS)
}

fn server(alloc: Global, conduct: Conduct) -> Server<MemoryStore> {
    let capacity = if conduct == Full { 100 } else { 1_000_000 };
    Server::start(
        alloc,
        MemoryStore::new(alloc),
        capacity,
        conduct == ReadOnly,
    )
}

pub(crate) fn servers(alloc: Global, conducts: &[Conduct]) -> Option<Vec<Server<MemoryStore>>> {
    let mut all = Vec::with_capacity(alloc, conducts.len()).ok()?;
    for conduct in conducts {
        all.push(server(alloc, *conduct)).ok()?;
    }
    Some(all)
}

// What a server says in place of its answer.
fn said(conduct: Conduct, answer: Body) -> Body {
    match (conduct, answer) {
        (OtherDigest, Body::Closed(_)) => Body::Closed([0; 32]),
        (Miscounts, Body::Wrote(_)) => Body::Wrote(1),
        (_, answer) => answer,
    }
}

// What comes back from a server, if anything does.
pub(crate) fn answer(
    grid: &mut [Server<MemoryStore>],
    conducts: &[Conduct],
    node: NodeId,
    request: &Message,
    now: u64,
) -> Option<Message> {
    let conduct = *conducts.get(usize::from(node))?;
    if conduct == Silent {
        return None;
    }
    let server = grid.get_mut(usize::from(node))?;
    let answer = server.on_message(100, request, now).ok()??;
    Some(Message {
        session: answer.session,
        number: answer.number,
        body: said(conduct, answer.body),
    })
}

// Carries messages, and lets five seconds pass where there are none, up to the upload's end. `None`
// where memory is out.
fn carry(
    alloc: Global,
    upload: &mut Upload<WholeShares>,
    grid: &mut [Server<MemoryStore>],
    conducts: &[Conduct; 4],
) -> Option<()> {
    let mut now: u64 = 0;
    for _ in 0..200 {
        match upload.take_outgoing(alloc).ok()? {
            Some((node, request)) => {
                if let Some(message) = answer(grid, conducts, node, &request, now) {
                    upload.on_message(node, message, now).ok()?;
                }
            }
            None => {
                now = now.saturating_add(5);
                upload.tick(now).ok()?;
            }
        }
    }
    Some(())
}

// Whether the server keeps the share, with the digest of its bytes.
fn keeps(alloc: Global, server: &Server<MemoryStore>, number: u16) -> Option<bool> {
    let number = u8::try_from(number).ok()?;
    let id = ShareId {
        index: *verify_cap()?.storage_index(),
        share: number,
    };
    let bytes = share(alloc, number.saturating_add(7))?;
    Some(server.store().closed(&id) == Some(share_digest(&bytes)))
}

// How an upload ended. Happy counts where each server of the matching keeps its share.
fn end_of(alloc: Global, upload: &Upload<WholeShares>, grid: &[Server<MemoryStore>]) -> Ending {
    match upload.status() {
        UploadStatus::Running => Ending::Running,
        UploadStatus::Failed(_) => Ending::Failed,
        UploadStatus::Unhappy(reached, _) => Ending::Unhappy(*reached),
        UploadStatus::Happy(pairs) => {
            for (node, number) in pairs.as_slice() {
                let is_kept = match grid.get(usize::from(*node)) {
                    Some(server) => keeps(alloc, server, *number) == Some(true),
                    None => false,
                };
                if !is_kept {
                    return Ending::Failed;
                }
            }
            Ending::Happy(pairs.as_slice().len())
        }
    }
}

// An upload to servers that do so, and its ending.
fn upload_ends(alloc: Global, conducts: &[Conduct; 4], happy: u16) -> Option<Ending> {
    let mut grid = servers(alloc, conducts)?;
    let mut upload = begun(alloc, happy)?;
    carry(alloc, &mut upload, &mut grid, conducts)?;
    Some(end_of(alloc, &upload, &grid))
}

#[test]
fn uploads(rt: HostRuntime) {
    for (i, (conducts, happy, expected)) in UPLOADS.iter().enumerate() {
        let ended = upload_ends(rt.alloc(), conducts, *happy);
        assert!(rt; ended == Some(*expected), "upload {i}");
    }
}

// All servers are asked first, in the order of the file.
fn first_nodes(alloc: Global) -> Option<Vec<NodeId>> {
    let mut upload = begun(alloc, 3)?;
    let mut nodes = Vec::new(alloc);
    for _ in 0..5 {
        if let Some((node, request)) = upload.take_outgoing(alloc).ok()? {
            if let Body::Ask(_) = request.body {
                nodes.push(node).ok()?;
            }
        }
    }
    Some(nodes)
}

#[test]
fn asks_in_order(rt: HostRuntime) {
    let is_right = match first_nodes(rt.alloc()) {
        Some(nodes) => nodes.as_slice() == &ORDER[..],
        None => false,
    };
    assert!(rt; is_right);
}

// With no server to ask, an upload ends as it begins.
#[test]
fn ends_without_servers(rt: HostRuntime) {
    let has_ended = match begun_at(rt.alloc(), 1, &[]) {
        Some(upload) => matches!(upload.status(), UploadStatus::Unhappy(0, _)),
        None => false,
    };
    assert!(rt; has_ended);
}
