//! The events of commands that choose no messages.

ghost use Rattle.std.specs.Prelude.{◌≡◌, ◌≢◌, ◌∷◌, ◌++◌, [], Err, IfNone, IfOk, IfSome, List, map};
ghost use Rattle.std.specs.Prelude.{ℕ, reverse};
ghost use Rattle.std.specs.List.{range_with_len};
ghost use Rattle.cap_text.specs.Cap.{ReadCapValue};
ghost use Rattle.file_upload.specs.Prepared.{prepared_of};
ghost use Rattle.world_operations.specs.Jobs.{IsUpload};
ghost use Rattle.world_operations.specs.declared.job.Job.{Job};
ghost use Rattle.world_operations.specs.declared.job.Job.TheVariants.{Upload};
ghost use Rattle.world.specs.declared.event.Event.{Event};
ghost use Rattle.world.specs.declared.event.Event.TheVariants.{Pass, Start, Tick};
ghost use Rattle.world.specs.declared.event.WorldError.TheVariants.{BadEvent, Stopped};
ghost use Rattle.world_script.specs.Events.{AreEventsOf, IsCapOf, IsEventOf, IsNodeNumber};
ghost use Rattle.world_script.specs.Events.{IsRepairOf};
ghost use Rattle.world_script.specs.Plans.{IsUploadCap};

use crate::command::Command;
use cap_text::ReadCap;
use file_encoding::{EncodeError, MAX_SECRET_SIZE};
use file_upload::prepared::{FileUpload, prepare};
use proved_parts::Bytes;
use std::alloc::{AllocError, Global};
use wire::message::NodeId;
use world::event::{Event, WorldError};
use world_operations::job::Job;
use world_operations::message::copied;
use world_operations::operation::Operation;

// The events of a command that chooses no messages, the last one first.
pub(crate) fn events_of(
    alloc: Global,
    command: &Command,
    honest: u16,
    operations: &[Operation],
) -> Result<Vec<Event>, WorldError>
    ensures value { IfOk result (λ events.
        AreEventsOf command.now honest operations.now (reverse events.items)) }
    ensures refused { result ≡ Err BadEvent
        → (events : List Event) → ¬ AreEventsOf command.now honest operations.now events }
    ensures going { result ≢ Err Stopped }
{
    match command {
        Command::Pass(seconds) => Ok(passing(alloc, *seconds, honest)?),
        _ => Ok(only(alloc, event_of(alloc, command, operations)?)?),
    }
}

// So many seconds pass, and then each honest node's clock ticks: the last event first.
fn passing(alloc: Global, seconds: u64, honest: u16) -> Result<Vec<Event>, AllocError>
    ensures { IfOk result (λ events.
        reverse events.items ≡ Pass seconds ∷ map Tick (range_with_len 0 honest)) }
{
    let mut events = Vec::with_capacity(alloc, usize::from(honest).saturating_add(1))?;
    for later in 0..honest {
        events.push(Event::Tick(honest - 1 - later))?;
    }
    events.push(Event::Pass(seconds))?;
    Ok(events)
}

// One event.
fn only(alloc: Global, event: Event) -> Result<Vec<Event>, AllocError>
    ensures { IfOk result (λ events. events.items ≡ event ∷ []) }
{
    let mut events = Vec::with_capacity(alloc, 1)?;
    events.push(event)?;
    Ok(events)
}

// The event of a command that has one.
fn event_of(alloc: Global, command: &Command, operations: &[Operation]) -> Result<Event, WorldError>
    ensures value { IfOk result (IsEventOf command.now operations.now) }
    ensures refused { result ≡ Err BadEvent
        → (event : Event) → ¬ IsEventOf command.now operations.now event }
    ensures going { result ≢ Err Stopped }
{
    match command {
        Command::Deliver(position) => Ok(Event::Deliver(*position as usize)),
        Command::Refuse(number) => Ok(Event::Refuse(*number as usize)),
        Command::Restart(node) => node_of(*node).map(Event::Restart),
        Command::Fail(node) => node_of(*node).map(Event::FailStore),
        Command::Turn(node) => node_of(*node).map(Event::Turn),
        Command::Repair(node, operation, happy) => repair_of(*node, *operation, *happy),
        Command::Forge(from, to, body) => {
            let (from, to) = (node_of(*from)?, node_of(*to)?);
            Ok(Event::Forge(from, to, copied(alloc, body)?))
        }
        _ => start_of(alloc, command, operations),
    }
}

// The repair of what the check of this number found.
fn repair_of(node: u64, operation: u64, happy: u64) -> Result<Event, WorldError>
    ensures value { IfOk result (IsRepairOf node operation happy) }
    ensures refused { result ≡ Err BadEvent
        → (event : Event) → ¬ IsRepairOf node operation happy event }
    ensures going { result ≢ Err Stopped }
{
    let node = node_of(node)?;
    if happy > u64::from(u16::MAX) {
        return Err(WorldError::BadEvent);
    }
    Ok(Event::Repair(node, operation as usize, happy as u16))
}

// The start of the operation of a command that starts one.
fn start_of(alloc: Global, command: &Command, operations: &[Operation]) -> Result<Event, WorldError>
    ensures value { IfOk result (IsEventOf command.now operations.now) }
    ensures refused { result ≡ Err BadEvent
        → (node : ℕ) → (job : Job) → ¬ IsEventOf command.now operations.now (Start node job) }
    ensures going { result ≢ Err Stopped }
{
    match command {
        Command::Upload(node, file, params) => {
            let secret = Bytes::from_vec(Vec::new(alloc));
            let job = Job::Upload(copied(alloc, file)?, secret, *params);
            Ok(Event::Start(node_of(*node)?, job))
        }
        Command::Download(node, upload) => {
            let cap = cap_of(alloc, operations, *upload)?;
            let job = Job::Download(cap, 0, cap.size());
            Ok(Event::Start(node_of(*node)?, job))
        }
        Command::DownloadRange(node, upload, from, to) => {
            let job = Job::Download(cap_of(alloc, operations, *upload)?, *from, *to);
            Ok(Event::Start(node_of(*node)?, job))
        }
        Command::Check(node, upload) => {
            let job = Job::Check(cap_of(alloc, operations, *upload)?.to_verify());
            Ok(Event::Start(node_of(*node)?, job))
        }
        _ => Err(WorldError::BadEvent),
    }
}

// The node of a number.
fn node_of(number: u64) -> Result<NodeId, WorldError>
    ensures value { IfOk result (λ node. node ≡ number) }
    ensures refused { result ≡ Err BadEvent → ¬ IsNodeNumber number }
    ensures going { result ≢ Err Stopped }
{
    if number > u64::from(NodeId::MAX) {
        return Err(WorldError::BadEvent);
    }
    Ok(number as NodeId)
}

// The read cap of the upload that has a number.
fn cap_of(alloc: Global, operations: &[Operation], upload: u64) -> Result<ReadCap, WorldError>
    ensures value { IfOk result (IsCapOf operations.now upload) }
    ensures refused { result ≡ Err BadEvent
        → (cap : ReadCapValue) → ¬ IsCapOf operations.now upload cap }
    ensures going { result ≢ Err Stopped }
{
    match operations.get(upload as usize) {
        Some(operation) => match upload_cap(alloc, &operation.job)? {
            Some(cap) => Ok(cap),
            None => Err(WorldError::BadEvent),
        },
        None => Err(WorldError::BadEvent),
    }
}

/// The read cap of the file that a job uploads, or none where it is no upload that can be started.
pub(crate) fn upload_cap(alloc: Global, job: &Job) -> Result<Option<ReadCap>, AllocError>
    ensures { IfOk result (IsUploadCap job.now) }
{
    let Job::Upload(file, secret, params) = job else {
        return Ok(None);
    };
    if secret.as_slice().len() > MAX_SECRET_SIZE {
        return Ok(None);
    }
    let _ = params.needed();
    match prepare(alloc, file.as_slice(), secret.as_slice(), params) {
        Ok(FileUpload::Shares(prepared)) => Ok(Some(*prepared.cap())),
        Ok(FileUpload::Literal(_)) => Ok(None),
        Err(EncodeError::OutOfMemory) => Err(AllocError),
        Err(_) => Ok(None),
    }
}
