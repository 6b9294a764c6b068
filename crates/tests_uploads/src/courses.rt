//! What goes between an upload and its servers in a test, with the requests that were sent.

use crate::upload_core_tests::{Conduct, answer, servers};
use cap_text::VerifyCap;
use request_record::operation::Operation;
use server_core::server::Server;
use share_store::memory::MemoryStore;
use share_store::store::Store;
use std::alloc::Global;
use tagged_hash::share_digest;
use upload_core::Upload;
use upload_core::pieces::WholeShares;
use wire::message::{Body, NodeId, ShareId};

// What a request asks, and of which share; of a Write, from which position on.
#[derive(Clone, Copy, PartialEq, Eq)]
pub(crate) enum Asked {
    Ask,
    Allocate(u8),
    Write(u8, u64),
    Close(u8),
    Abort(u8),
    Other,
}

// A request that was sent: the second, and the server's node.
pub(crate) type Sent = (u64, NodeId, Asked);

pub(crate) fn asked_by(body: &Body) -> Asked {
    match body {
        Body::Ask(_) => Asked::Ask,
        Body::Allocate(id, _) => Asked::Allocate(id.share),
        Body::Write(id, offset, _) => Asked::Write(id.share, *offset),
        Body::Close(id) => Asked::Close(id.share),
        Body::Abort(id) => Asked::Abort(id.share),
        _ => Asked::Other,
    }
}

// What goes between an upload and its servers: the first request that is named as unheard is lost
// on its way, and so is the first answer to the one that is named as lost.
#[derive(Drop)]
pub(crate) struct Course<'a> {
    pub(crate) grid: Vec<Server<MemoryStore>>,
    conducts: &'a [Conduct],
    pub(crate) lost: Option<Asked>,
    pub(crate) unheard: Option<Asked>,
    sent: Vec<Sent>,
}

impl<'a> Course<'a> {
    pub(crate) fn new(alloc: Global, conducts: &'a [Conduct]) -> Option<Course<'a>> {
        Some(Course {
            grid: servers(alloc, conducts)?,
            conducts,
            lost: None,
            unheard: None,
            sent: Vec::new(alloc),
        })
    }

    // Is this the request that is lost? A second one is not.
    fn is_unheard(&mut self, asked: Asked) -> bool {
        let is_unheard = self.unheard == Some(asked);
        if is_unheard {
            self.unheard = None;
        }
        is_unheard
    }

    // Is this the request whose answer is lost? A second one is not.
    fn loses(&mut self, asked: Asked) -> bool {
        let is_lost = self.lost == Some(asked);
        if is_lost {
            self.lost = None;
        }
        is_lost
    }

    // Sends the next request and takes its answer, or lets five seconds pass where there is none.
    // Gives the second.
    fn step(&mut self, alloc: Global, upload: &mut Upload<WholeShares>, now: u64) -> Option<u64> {
        let Some((node, request)) = upload.take_outgoing(alloc).ok()? else {
            let later = now.saturating_add(5);
            upload.tick(later).ok()?;
            return Some(later);
        };
        let asked = asked_by(&request.body);
        self.sent.push((now, node, asked)).ok()?;
        if self.is_unheard(asked) {
            return Some(now);
        }
        if let Some(message) = answer(&mut self.grid, self.conducts, node, &request, now) {
            if !self.loses(asked) {
                upload.on_message(node, message, now).ok()?;
            }
        }
        Some(now)
    }

    // Carries an upload to its end.
    pub(crate) fn carry(&mut self, alloc: Global, upload: &mut Upload<WholeShares>) -> Option<()> {
        let mut now: u64 = 0;
        for _ in 0..400 {
            now = self.step(alloc, upload, now)?;
        }
        Some(())
    }

    // Does a server keep these bytes under the share's number?
    pub(crate) fn keeps(&self, cap: &VerifyCap, node: NodeId, number: u8, bytes: &[u8]) -> bool {
        let id = ShareId {
            index: *cap.storage_index(),
            share: number,
        };
        match self.grid.get(usize::from(node)) {
            Some(server) => server.store().closed(&id) == Some(share_digest(bytes)),
            None => false,
        }
    }

    // The requests that were sent to a node, each with its second.
    fn sent_to(&self, alloc: Global, node: NodeId) -> Option<Vec<(u64, Asked)>> {
        let mut found = Vec::new(alloc);
        for (second, to, asked) in &self.sent {
            if *to == node {
                found.push((*second, *asked)).ok()?;
            }
        }
        Some(found)
    }

    // The Allocates, by node and share, in the order in which they were sent.
    pub(crate) fn allocated(&self, alloc: Global) -> Option<Vec<(NodeId, u8)>> {
        let mut found = Vec::new(alloc);
        for (_, to, asked) in &self.sent {
            if let Asked::Allocate(number) = asked {
                found.push((*to, *number)).ok()?;
            }
        }
        Some(found)
    }

    // Are these the requests that were sent to a node?
    pub(crate) fn has_sent_to(
        &self,
        alloc: Global,
        node: NodeId,
        expected: &[(u64, Asked)],
    ) -> bool {
        match self.sent_to(alloc, node) {
            Some(sent) => sent.as_slice() == expected,
            None => false,
        }
    }

    // Are these the Allocates that were sent?
    pub(crate) fn has_allocated(&self, alloc: Global, expected: &[(NodeId, u8)]) -> bool {
        match self.allocated(alloc) {
            Some(allocated) => allocated.as_slice() == expected,
            None => false,
        }
    }
}
