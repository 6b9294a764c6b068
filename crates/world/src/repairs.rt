//! How repairs begin, by what a check of a world found.

ghost use Rattle.std.specs.Prelude.{◌≡◌, ◌+◌, ◌<◌, ◌≤◌, IfNone, IfOk, IfSome, IsErrOf, OnOk};
ghost use Rattle.std.specs.Prelude.{length, map, nat_eq};
ghost use Rattle.std.specs.List.{IsDistinct};
ghost use Rattle.file_upload.specs.Shares.{MayWant};
ghost use Rattle.checker.specs.State.{CheckState};
ghost use Rattle.upload_core.specs.declared.status.ServerInfo.{ServerInfo};
ghost use Rattle.world_operations.specs.Follow.{IsNewTask};
ghost use Rattle.world_operations.specs.Tasks.{IsRightTask};
ghost use Rattle.world.specs.Admitted.{MayRepair};
ghost use Rattle.world.specs.Consistent.{IsConsistent, Preserves};
ghost use Rattle.world.specs.State.{nodes_of, servers_of, state_of};
ghost use Rattle.world.specs.Step.{IsDoneCheck, RepairBegins, RepairStarts};

use crate::nodes::{nodes_up_to, servers_at};
use crate::parts::done_check;
use crate::scene::Scene;
use checker::Check;
use std::alloc::AllocError;
use upload_core::status::ServerInfo;
use wire::message::NodeId;
use world_operations::job::Job;
use world_operations::task::{StartError, Task};

impl Scene {
    // The check of this number, if it is one of this node that is done.
    fn done_check_at(&self, node: NodeId, number: usize) -> Option<&Check>
        ensures some { IfSome result
            (λ check. IsDoneCheck (state_of self.now) node number check.now) }
        ensures none { IfNone result ((check : CheckState)
            → IsDoneCheck (state_of self.now) node number check → ⊥) }
    {
        match self.operations.get(number) {
            Some(operation) => {
                if operation.node != node {
                    return None;
                }
                done_check(operation)
            }
            None => None,
        }
    }

    // The job and the machine of a repair that begins.
    fn begin_repair(
        &self,
        node: NodeId,
        number: usize,
        happy: u16,
    ) -> Result<(Job, Task), StartError>
        requires few { length self.now.servers.items + length self.now.heard.items ≤ 256 }
        requires consistent { IsConsistent (state_of self.now) }
        ensures begins { IfOk result (λ begun.
            RepairBegins (state_of self.now) node number happy begun.0 begun.1) }
        ensures may { IfOk result (λ _. MayRepair (state_of self.now) node number happy) }
        ensures new { IfOk result (λ begun. IsNewTask (nodes_of (state_of self.now))
            (length self.now.operations.items) begun.0 begun.1) }
        ensures refused { IsErrOf result StartError.Refused
            → MayRepair (state_of self.now) node number happy → ⊥ }
        ensures right { IfOk result (λ begun. IsRightTask begun.1) }
    {
        let Some(check) = self.done_check_at(node, number) else {
            return Err(StartError::Refused);
        };
        if happy == 0 || happy > check.cap().total() {
            return Err(StartError::Refused);
        }
        Ok(self.mend(node, number, happy, check)?)
    }

    // The job and the machine of a repair of what a check found that is done.
    fn mend(
        &self,
        node: NodeId,
        number: usize,
        happy: u16,
        check: &Check,
    ) -> Result<(Job, Task), AllocError>
        requires few { length self.now.servers.items + length self.now.heard.items ≤ 256 }
        requires consistent { IsConsistent (state_of self.now) }
        requires done { IsDoneCheck (state_of self.now) node number check.now }
        requires may { MayWant check.now.cap happy }
        ensures begins { IfOk result (λ begun.
            RepairBegins (state_of self.now) node number happy begun.0 begun.1) }
        ensures new { IfOk result (λ begun. IsNewTask (nodes_of (state_of self.now))
            (length self.now.operations.items) begun.0 begun.1) }
        ensures right { IfOk result (λ begun. IsRightTask begun.1) }
    {
        let Some(good) = check.good_shares(self.alloc)? else {
            unreachable!();
        };
        let session = self.operations.len() as u64;
        let servers = self.all_servers()?;
        let (job, task) = Task::begin_repair(
            self.alloc,
            check.cap(),
            happy,
            good,
            &servers,
            session,
            self.clock,
        )?;
        task.know_right();
        Ok((job, task))
    }

    // All nodes, as the servers of an operation.
    fn all_servers(&self) -> Result<Vec<ServerInfo>, AllocError>
        requires { length self.now.servers.items + length self.now.heard.items ≤ 256 }
        ensures all { IfOk result (λ servers. servers.items ≡ servers_of (state_of self.now)) }
        ensures distinct { IfOk result (λ servers.
            IsDistinct nat_eq (map (λ (s : ServerInfo). s.node) servers.items)) }
    {
        let nodes = nodes_up_to(self.alloc, self.servers.len() + self.heard.len())?;
        let servers = servers_at(self.alloc, &nodes)?;
        Ok(servers)
    }

    /// An honest node starts a repair of what its check of this number found, unless that is no
    /// check that is done, or so many servers cannot be wanted for its file.
    pub(crate) fn repair(
        &mut self,
        node: NodeId,
        number: usize,
        happy: u16,
    ) -> Result<(), StartError>
        requires few { length self.old.servers.items + length self.old.heard.items ≤ 256 }
        requires honest { node < length self.old.servers.items }
        requires consistent { IsConsistent (state_of self.old) }
        ensures may { OnOk result (MayRepair (state_of self.old) node number happy) }
        ensures ok { OnOk result
            (RepairStarts (state_of self.old) node number happy (state_of self.new)) }
        ensures refused { IsErrOf result StartError.Refused
            → (state_of self.new ≡ state_of self.old)
            × (MayRepair (state_of self.old) node number happy → ⊥) }
        ensures keeps { Preserves (state_of self.old) (state_of self.new) }
    {
        let (job, task) = self.begin_repair(node, number, happy)?;
        self.open(node, job, task)?;
        Ok(())
    }
}
