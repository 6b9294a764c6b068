//! The parts of a world: a server, or an operation, at its position.

ghost use Rattle.std.specs.Prelude.{◌≡◌, ◌≢◌, ◌<◌, ◌++◌, ◌∷◌, [], List, Some, OnErr, OnOk, map};
ghost use Rattle.std.specs.Prelude.{IfNone, IfOk, IfSome};
ghost use Rattle.std.specs.Prelude.{slice_get, slice_set, vec_len};
ghost use Rattle.wire.specs.declared.message.Message.{Message};
ghost use Rattle.wire.specs.Frames.{IsBodyOf};
ghost use Rattle.server_core.specs.ServerState.{RestartsTo, Ticks};
ghost use Rattle.server_core.specs.Sound.{is_request};
ghost use Rattle.share_store.specs.Memory.{memory_calls};
ghost use Rattle.checker.specs.State.{CheckState};
ghost use Rattle.request_record.specs.Follow.{Nothing};
ghost use Rattle.world_operations.specs.Follow.{Moves};
ghost use Rattle.world_operations.specs.Moves.{IsFlushed, OperationGets};
ghost use Rattle.world_operations.specs.Status.{status_of};
ghost use Rattle.world_operations.specs.declared.message.Sent.{Sent};
ghost use Rattle.world_operations.specs.declared.operation.Operation.{Operation};
ghost use Rattle.world_operations.specs.declared.status.Status.TheVariants.{Done};
ghost use Rattle.world_operations.specs.declared.task.Task.TheVariants.{Checking};
ghost use Rattle.world.specs.Parts.{NothingNew, OperationBecomes, OperationMoves, SaidBy};
ghost use Rattle.world.specs.Parts.{ServerBecomes, ServesBy};
ghost use Rattle.world.specs.Step.{TicksOrStays, failing, forgotten_by, is_live_at, is_running};
ghost use Rattle.world.specs.Step.{with_life};

use checker::Check;
use server_core::error::ServerFault;
use server_core::server::Server;
use share_store::memory::MemoryStore;
use std::alloc::{AllocError, Global};
use wire::decoding::decode;
use wire::error::WireError;
use wire::message::{Body, Message, NodeId};
use world_operations::message::Sent;
use world_operations::operation::{Life, Operation};
use world_operations::status::Status;
use world_operations::task::Task;

/// Is it a message that a server answers?
pub fn is_request(body: &Body) -> bool
    ensures { result ≡ is_request body.now }
{
    matches!(
        body,
        Body::Ask(_)
            | Body::Allocate(_, _)
            | Body::Write(_, _, _)
            | Body::Close(_)
            | Body::Abort(_)
            | Body::Read(_, _, _)
    )
}

/// The message of a body, or none where the bytes are no body.
pub fn read_body(alloc: Global, body: &[u8]) -> Result<Option<Message>, AllocError>
    ensures some { IfOk result (λ read. IfSome read (λ m. IsBodyOf m body.now)) }
    ensures none { IfOk result
        (λ read. IfNone read ((m : Message) → IsBodyOf m body.now → ⊥)) }
{
    match decode(alloc, body) {
        Ok(message) => Ok(Some(message)),
        Err(WireError::BadLength) => Ok(None),
        Err(WireError::BadKind) => Ok(None),
        Err(WireError::BadFields) => Ok(None),
        Err(WireError::OutOfMemory) => Err(AllocError),
    }
}

/// The server at a position answers a message.
pub(crate) fn serve_at(
    servers: &mut Vec<Server<MemoryStore>>,
    position: usize,
    from: NodeId,
    message: &Message,
    now: u64,
) -> Result<Option<Message>, ServerFault>
    requires { position < vec_len servers.old }
    ensures { ServerBecomes (ServesBy from message.now now result) servers.old.items position
        servers.new.items }
{
    servers[position].on_message(from, message, now)
}

/// The server at a position takes note of a second.
pub(crate) fn tick_server(servers: &mut Vec<Server<MemoryStore>>, position: usize, now: u64)
    requires { position < vec_len servers.old }
    ensures { ServerBecomes (λ before after. Ticks before now after) servers.old.items position
        servers.new.items }
{
    servers[position].tick(now);
}

/// The server at a position forgets its open buckets.
pub(crate) fn restart_server(servers: &mut Vec<Server<MemoryStore>>, position: usize)
    requires { position < vec_len servers.old }
    ensures { ServerBecomes (RestartsTo memory_calls.restart_gives) servers.old.items position
        servers.new.items }
{
    servers[position].restart();
}

/// The store of the server at a position fails at its next call that can fail.
pub(crate) fn fail_server(servers: &mut Vec<Server<MemoryStore>>, position: usize)
    requires { position < vec_len servers.old }
    ensures { ServerBecomes (λ before after. after ≡ failing before) servers.old.items position
        servers.new.items }
{
    servers[position].fail_store();
}

/// Is it a live operation of this node?
pub(crate) fn is_live_at(operation: &Operation, node: NodeId) -> bool
    ensures { result ≡ is_live_at node operation.now }
{
    operation.node == node && operation.life == Life::Live
}

/// Does an operation run?
pub(crate) fn is_running(operation: &Operation) -> bool
    ensures { result ≡ is_running operation.now }
{
    operation.life == Life::Live && operation.task.runs()
}

/// The check that an operation is, if it is done.
pub(crate) fn done_check(operation: &Operation) -> Option<&Check>
    ensures some { IfSome result (λ check. (operation.now.task ≡ Checking check.now)
        × (status_of operation.now ≡ Done)) }
    ensures none { IfNone result ((check : CheckState) → operation.now.task ≡ Checking check
        → status_of operation.now ≢ Done) }
{
    match &operation.task {
        Task::Checking(check) => {
            if operation.status() != Status::Done {
                return None;
            }
            Some(check)
        }
        _ => None,
    }
}

/// The operation at a position takes a message over.
pub(crate) fn answer_at(
    alloc: Global,
    operations: &mut Vec<Operation>,
    position: usize,
    from: NodeId,
    message: Message,
    now: u64,
    sent: &mut Vec<Sent>,
) -> Result<(), AllocError>
    requires { position < vec_len operations.old }
    ensures ok { OnOk result (OperationBecomes (λ op more next. OperationGets from message now op
        more next) operations.old.items position sent.old.items operations.new.items
        sent.new.items) }
    ensures some { OperationMoves (SaidBy from message) operations.old.items position sent.old.items
        operations.new.items sent.new.items }
{
    let operation = &mut operations[position];
    let outcome = operation.on_message(alloc, from, message, now, sent);
    operation.know_right();
    outcome
}

/// The operation at a position hands out what its machine made, and sends what it has to send.
pub(crate) fn flush_at(
    alloc: Global,
    operations: &mut Vec<Operation>,
    position: usize,
    sent: &mut Vec<Sent>,
) -> Result<(), AllocError>
    requires { position < vec_len operations.old }
    ensures ok { OnOk result (OperationBecomes IsFlushed operations.old.items position
        sent.old.items
        operations.new.items sent.new.items) }
    ensures some { OperationMoves NothingNew operations.old.items position sent.old.items
        operations.new.items sent.new.items }
{
    let operation = &mut operations[position];
    let outcome = operation.flush(alloc, sent);
    operation.know_right();
    outcome
}

// An operation takes note of a second, if it is a live one of this node.
fn tick_one(
    alloc: Global,
    operation: &mut Operation,
    node: NodeId,
    now: u64,
    sent: &mut Vec<Sent>,
) -> Result<(), AllocError>
    ensures ok { OnOk result ((more : List Sent) × (sent.new.items ≡ sent.old.items ++ more)
        × TicksOrStays node now operation.old more operation.new) }
    ensures some { Moves Nothing operation.old operation.new sent.old.items sent.new.items }
{
    if !is_live_at(operation, node) {
        return Ok(());
    }
    operation.tick(alloc, now, sent)
}

/// The operation at a position takes note of a second, if it is a live one of this node.
pub(crate) fn tick_at(
    alloc: Global,
    operations: &mut Vec<Operation>,
    position: usize,
    node: NodeId,
    now: u64,
    sent: &mut Vec<Sent>,
) -> Result<(), AllocError>
    requires { position < vec_len operations.old }
    ensures ok { OnOk result (OperationBecomes (TicksOrStays node now) operations.old.items position
        sent.old.items operations.new.items sent.new.items) }
    ensures some { OperationMoves NothingNew operations.old.items position sent.old.items
        operations.new.items sent.new.items }
{
    let operation = &mut operations[position];
    let outcome = tick_one(alloc, operation, node, now, sent);
    operation.know_right();
    outcome
}

/// One more operation.
pub(crate) fn push_operation(
    operations: &mut Vec<Operation>,
    operation: Operation,
) -> Result<(), AllocError>
    ensures ok { OnOk result (operations.new.items ≡ operations.old.items ++ operation ∷ []) }
    ensures err { OnErr result (operations.new.items ≡ operations.old.items) }
{
    operations.push(operation)?;
    Ok(())
}

/// This is what became of the operation at a position.
pub(crate) fn set_life(operations: &mut Vec<Operation>, position: usize, life: Life)
    requires { position < vec_len operations.old }
    ensures { (op : Operation) → slice_get operations.old.items position ≡ Some op
        → operations.new.items ≡ slice_set operations.old.items position (with_life life op) }
{
    operations[position].life = life;
}

// An operation is forgotten, if it is one of this node and runs.
fn forget_one(operation: &mut Operation, node: NodeId)
    ensures { operation.new ≡ forgotten_by node operation.old }
{
    if operation.node == node && is_running(operation) {
        operation.life = Life::Forgotten;
    }
}

/// The operations of a node that run are forgotten.
pub(crate) fn forget_all(operations: &mut Vec<Operation>, node: NodeId)
    ensures { operations.new.items ≡ map (forgotten_by node) operations.old.items }
{
    for operation in operations.iter_mut() {
        forget_one(operation, node);
    }
}
