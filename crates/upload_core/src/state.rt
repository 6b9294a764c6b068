//! The course of an upload, whatever the bytes of its shares: how it begins, and where it stands.

ghost use Rattle.std.specs.Prelude.{◌≡◌, ◌<◌, ◌↔◌, All, IfOk, IfSome, IsTrue, length, map, nat_eq};
ghost use Rattle.std.specs.List.{IsDistinct};
ghost use Rattle.request_record.specs.Record.{IsRecord};
ghost use Rattle.request_record.specs.Written.{IsKeptAt};
ghost use Rattle.upload_core.specs.declared.status.ServerInfo.{ServerInfo};
ghost use Rattle.upload_core.specs.Course.{IsCourse, IsInside};
ghost use Rattle.upload_core.specs.Moves.{AreInOrder, Begins, node_at};
ghost use Rattle.upload_core.specs.Sending.{AsksAt, first_to_send};

use crate::status::{ServerInfo, UploadGoal, UploadStatus};
use placement::{ServerId, order};
use request_record::ledger::Ledger;
use request_record::requests::Asked;
use std::alloc::{AllocError, Global};
use std::marker::Model;
use wire::message::{NodeId, StorageIndex};

/// An upload without the source of its bytes.
#[derive(Drop)]
pub(crate) struct Course {
    pub(crate) goal: UploadGoal,
    /// The happiness that is wanted.
    pub(crate) happy: u16,
    /// All of them, in the order of the file.
    pub(crate) servers: Vec<NodeId>,
    pub(crate) requests: Ledger,
    /// The position of the first transfer of the last placing, 0 before the first.
    pub(crate) round: usize,
    pub(crate) status: UploadStatus,
}

impl Model for Course {
    ghost use Rattle.upload_core.specs.Course.{IsCourse};
    ghost use Rattle.upload_core.specs.State.{UploadState, upload_state};

    ghost Value = { UploadState };

    ghost view = { λ c.
        upload_state c.goal c.happy c.servers.items c.requests c.round c.status };

    ghost invariant = { λ c. IsCourse
        (upload_state c.goal c.happy c.servers.items c.requests c.round c.status) };
}

impl Course {
    /// Asks all servers, in the order of the file, which shares they hold. With none it ends.
    pub(crate) fn begin(
        alloc: Global,
        goal: UploadGoal,
        happy: u16,
        servers: &[ServerInfo],
        session: u64,
        now: u64,
    ) -> Result<Course, AllocError>
        requires distinct { IsDistinct nat_eq (map (λ (s : ServerInfo). s.node) servers.now) }
        ensures ok { IfOk result (Begins goal happy servers.now session now) }
        ensures right { IfOk result IsCourse }
    {
        let servers = nodes_in_order(alloc, &goal, servers)?;
        let requests = Ledger::begin(alloc, servers.as_slice(), session, now)?;
        let mut course = Course {
            goal,
            happy,
            servers,
            requests,
            round: 0,
            status: UploadStatus::Running,
        };
        course.go_on()?;
        Ok(course)
    }

    /// Where it stands.
    pub(crate) fn status(&self) -> &UploadStatus
        ensures value { result.now ≡ self.now.status }
        ensures right { IsCourse self.now }
        ensures recorded { IsRecord self.now.requests }
    {
        let _ = self.requests.len();
        &self.status
    }

    /// Does it run?
    pub(crate) fn is_running(&self) -> bool
        ensures { IsTrue result ↔ (self.now.status ≡ UploadStatus.Running) }
    {
        matches!(self.status, UploadStatus::Running)
    }

    /// The position of the first request to send. `None` too where the upload failed.
    pub(crate) fn first(&self) -> Option<usize>
        ensures value { result ≡ first_to_send self.now }
        ensures there { IfSome result (λ position. position < length self.now.requests.entries) }
        ensures kept { IfSome result (IsKeptAt self.now.requests.entries) }
        ensures recorded { IsRecord self.now.requests }
    {
        let _ = self.requests.len();
        match self.status {
            UploadStatus::Failed(_) => None,
            _ => self.requests.first(),
        }
    }

    /// The server of the request at a position, and what it asks.
    pub(crate) fn request_at(&self, position: usize) -> (NodeId, Asked)
        requires { IsKeptAt self.now.requests.entries position }
        ensures value { AsksAt self.now position result.0 result.1 }
        ensures inside { IsInside self.now.goal result.1 }
    {
        let request = self.requests.request(position);
        (request.server, request.asked)
    }

    /// The storage index of the shares.
    pub(crate) fn storage_index(&self) -> StorageIndex
        ensures { result ≡ self.now.goal.cap.storage_index }
    {
        *self.goal.cap().storage_index()
    }
}

// The nodes of the servers, in the order of the file.
fn nodes_in_order(
    alloc: Global,
    goal: &UploadGoal,
    servers: &[ServerInfo],
) -> Result<Vec<NodeId>, AllocError>
    ensures { IfOk result
        (λ nodes. AreInOrder goal.now.cap.storage_index servers.now nodes.items) }
{
    let ids = ids_of(alloc, servers)?;
    let positions = order(alloc, goal.cap().storage_index(), &ids)?;
    nodes_at(alloc, servers, &positions)
}

fn ids_of(alloc: Global, servers: &[ServerInfo]) -> Result<Vec<ServerId>, AllocError>
    ensures { IfOk result (λ ids. ids.items ≡ map (λ (s : ServerInfo). s.id) servers.now) }
{
    servers.iter().map(|server| server.id).collect(alloc)
}

// The nodes of the servers at these positions.
fn nodes_at(
    alloc: Global,
    servers: &[ServerInfo],
    positions: &[usize],
) -> Result<Vec<NodeId>, AllocError>
    requires { All (λ position. position < length servers.now) positions.now }
    ensures { IfOk result (λ nodes. nodes.items ≡ map (node_at servers.now) positions.now) }
{
    let mut nodes = Vec::with_capacity(alloc, positions.len())?;
    for position in positions {
        nodes.push(servers[*position].node)?;
    }
    Ok(nodes)
}
