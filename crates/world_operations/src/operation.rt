//! Operations.

ghost use Rattle.std.specs.Prelude.{◌≡◌, ◌++◌, [], List, ℕ, nat_eq, map, true, false};
ghost use Rattle.std.specs.Prelude.{IfOk, IsErrOf, OnErr, OnOk, length};
ghost use Rattle.std.specs.List.{IsDistinct};
ghost use Rattle.upload_core.specs.declared.status.ServerInfo.{ServerInfo};
ghost use Rattle.download_segments.specs.declared.piece.Piece.{Piece};
ghost use Rattle.world_operations.specs.declared.message.Sent.{Sent};
ghost use Rattle.request_record.specs.Follow.{IsSaid};
ghost use Rattle.world_operations.specs.Follow.{GoesOn, IsSameOperation, Moves};
ghost use Rattle.request_record.specs.Follow.{Nothing};
ghost use Rattle.world_operations.specs.Follow.{SendsSome};
ghost use Rattle.world_operations.specs.Given.{AreGivenBy};
ghost use Rattle.world_operations.specs.Jobs.{MayStart};
ghost use Rattle.world_operations.specs.Moves.{HandsOne, HandsOut, IsFlushed, OperationGets};
ghost use Rattle.world_operations.specs.Moves.{OperationTicks, SendsAll, SendsOne};
ghost use Rattle.world_operations.specs.Tasks.{IsRightTask, requests_of};

use crate::job::Job;
use crate::message::{Sent, push_sent, spell};
use crate::pieces::PieceList;
use crate::task::{StartError, Task};
use request_record::operation::Operation as _;
use std::alloc::{AllocError, Global};
use upload_core::status::ServerInfo;
use wire::message::{Message, NodeId};

/// What became of an operation, beside what its machine says.
#[derive(Clone, Copy, PartialEq, Eq)]
pub enum Life {
    Live,
    /// By a restart of its node: no message and no tick comes to it any more.
    Forgotten,
    /// By a refusal: it failed.
    Refused,
}

/// An operation of a node. It is kept after its end, and after a restart.
#[derive(Drop)]
pub struct Operation {
    /// The node.
    pub node: NodeId,
    /// What it was started for.
    pub job: Job,
    /// How many messages were sent when it began.
    pub sent_before: usize,
    /// What became of it.
    pub life: Life,
    /// Its machine.
    pub task: Task,
    /// What it handed out.
    pub given: PieceList,
}

impl Operation {
    /// An operation that begins, whose machine has not sent anything yet.
    pub fn new(alloc: Global, node: NodeId, job: Job, sent_before: usize, task: Task) -> Operation
        ensures { result ≡ record {
          node = node;
          job = job;
          sent_before = sent_before;
          life = Life.Live;
          task = task;
          given = [];
        } }
    {
        Operation {
            node,
            job,
            sent_before,
            life: Life::Live,
            task,
            given: PieceList::new(alloc),
        }
    }

    /// Takes a message from a node over, at a second. Without memory its machine failed, or less
    /// was handed out and sent than there was.
    pub fn on_message(
        &mut self,
        alloc: Global,
        from: NodeId,
        message: Message,
        now: u64,
        sent: &mut Vec<Sent>,
    ) -> Result<(), AllocError>
        ensures ok { OnOk result ((more : List Sent) × (sent.new.items ≡ sent.old.items ++ more)
            × OperationGets from message now self.old more self.new) }
        ensures some { Moves (IsSaid from message (requests_of self.old.task).session)
            self.old self.new sent.old.items sent.new.items }
    {
        self.task.on_message(from, message, now)?;
        self.flush(alloc, sent)
    }

    /// Takes note of a second; else as `on_message`.
    pub fn tick(&mut self, alloc: Global, now: u64, sent: &mut Vec<Sent>) -> Result<(), AllocError>
        ensures ok { OnOk result ((more : List Sent) × (sent.new.items ≡ sent.old.items ++ more)
            × OperationTicks now self.old more self.new) }
        ensures some { Moves Nothing self.old self.new sent.old.items sent.new.items }
    {
        self.task.tick(now)?;
        self.flush(alloc, sent)
    }

    /// Hands out what its machine made, and sends what it has to send.
    pub fn flush(&mut self, alloc: Global, sent: &mut Vec<Sent>) -> Result<(), AllocError>
        ensures ok { OnOk result ((more : List Sent) × (sent.new.items ≡ sent.old.items ++ more)
            × IsFlushed self.old more self.new) }
        ensures same { IsSameOperation self.old self.new }
        ensures given { AreGivenBy self.old.task self.old.given
            → AreGivenBy self.new.task self.new.given }
        ensures some { SendsSome Nothing self.old.node self.old.task self.new.task sent.old.items
            sent.new.items }
    {
        hand_out(&mut self.task, &mut self.given)?;
        send_all(alloc, self.node, &mut self.task, sent)
    }

    /// A law: its machine is right. The call does nothing.
    pub fn know_right(&self)
        ensures { IsRightTask self.now.task }
    {
        self.task.know_right();
    }
}

// Sends the next message of a machine, if there is one, and says whether there was.
fn send_one(
    alloc: Global,
    node: NodeId,
    task: &mut Task,
    sent: &mut Vec<Sent>,
) -> Result<bool, AllocError>
    ensures one { IfOk result
        (λ more. SendsOne node task.old sent.old.items more task.new sent.new.items) }
    ensures some { SendsSome Nothing node task.old task.new sent.old.items sent.new.items }
{
    let Some((to, message)) = task.take_outgoing(alloc)? else {
        return Ok(false);
    };
    push_sent(sent, spell(alloc, node, to, &message)?)?;
    Ok(true)
}

// Sends all that a machine has to send.
fn send_all(
    alloc: Global,
    node: NodeId,
    task: &mut Task,
    sent: &mut Vec<Sent>,
) -> Result<(), AllocError>
    ensures all { OnOk result ((more : List Sent) × (sent.new.items ≡ sent.old.items ++ more)
        × SendsAll node task.old more task.new) }
    ensures some { SendsSome Nothing node task.old task.new sent.old.items sent.new.items }
{
    while send_one(alloc, node, task, sent)? {}
    Ok(())
}

// Hands out the next piece that a machine made, if there is one, and says whether there was.
fn hand_one(task: &mut Task, given: &mut PieceList) -> Result<bool, AllocError>
    ensures one { IfOk result (λ more. HandsOne task.old given.old more task.new given.new) }
    ensures goes { GoesOn Nothing task.old task.new }
    ensures given { AreGivenBy task.old given.old → AreGivenBy task.new given.new }
    ensures some { (pieces : List Piece) × (given.new ≡ given.old ++ pieces) }
{
    let Some(piece) = task.take_piece() else {
        return Ok(false);
    };
    given.push(piece)?;
    Ok(true)
}

// Hands out all pieces that a machine made.
fn hand_out(task: &mut Task, given: &mut PieceList) -> Result<(), AllocError>
    ensures all { OnOk result ((pieces : List Piece) × (given.new ≡ given.old ++ pieces)
        × HandsOut task.old pieces task.new) }
    ensures goes { GoesOn Nothing task.old task.new }
    ensures given { AreGivenBy task.old given.old → AreGivenBy task.new given.new }
    ensures some { (pieces : List Piece) × (given.new ≡ given.old ++ pieces) }
{
    while hand_one(task, given)? {}
    Ok(())
}
