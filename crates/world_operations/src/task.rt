//! The machine of an operation.

ghost use Rattle.std.specs.Prelude.{◌≡◌, ℕ, List, IfOk, IfSome, IsErrOf, OnErr, OnOk, length, map};
ghost use Rattle.std.specs.Prelude.{nat_eq};
ghost use Rattle.std.specs.List.{IsDistinct};
ghost use Rattle.request_record.specs.Follow.{Follows, IsSaid, Nothing};
ghost use Rattle.upload_core.specs.declared.status.ServerInfo.{ServerInfo};
ghost use Rattle.world_operations.specs.declared.job.Job.TheVariants as jobs;
ghost use Rattle.world_operations.specs.declared.task.StartError.{StartError};
ghost use Rattle.world_operations.specs.Follow.{GoesOn};
ghost use Rattle.world_operations.specs.Given.{IsGivenBy};
ghost use Rattle.world_operations.specs.Jobs.{MayStart, changing};
ghost use Rattle.world_operations.specs.Moves.{Advances, Begins, GivesUp, Takes, TakesPiece};
ghost use Rattle.world_operations.specs.Moves.{TicksOn};
ghost use Rattle.world_operations.specs.Moves.{task_calls};
ghost use Rattle.world_operations.specs.StartError.{refusal_number};
ghost use Rattle.world_operations.specs.Tasks.{IsRightTask, requests_of, runs};

use crate::job::Job;
use crate::upload_pieces::UploadPieces;
use cap_text::{ReadCap, VerifyCap};
use checker::Check;
use checker::status::CheckStatus;
use download_core::Download;
use download_core::status::{DownloadError, DownloadStatus, Piece};
use file_encoding::{EncodeError, MAX_SECRET_SIZE, Params};
use file_streaming::PrepareError;
use file_upload::prepared::{FileUpload, prepare};
use file_upload::streamed_prepared::prepare_stream;
use request_record::operation::Operation;
use sources::ChangingSource;
use std::alloc::{AllocError, Global};
use ueb::MIN_FILE_SIZE;
use upload_core::Upload;
use upload_core::status::{ServerInfo, UploadStatus};
use wire::message::{Message, NodeId};

/// Why an operation is not started.
#[derive(Clone, Copy, Debug, PartialEq, Eq)]
pub enum StartError {
    /// There was not enough memory.
    OutOfMemory,
    /// The job is none that may be started.
    Refused,
}

impl StartError {
    /// The number of the refusal.
    pub fn number(self) -> u8
        ensures { result ≡ refusal_number self }
    {
        match self {
            StartError::OutOfMemory => 1,
            StartError::Refused => 80,
        }
    }
}

impl From<AllocError> for StartError {
    ghost from_gives = { λ alloc e. e ≡ StartError.OutOfMemory };

    fn from(_: AllocError) -> StartError {
        StartError::OutOfMemory
    }
}

/// The machine of an operation, whichever it is.
#[derive(Drop)]
pub enum Task {
    Uploading(Upload<UploadPieces>),
    Downloading(Download),
    Checking(Check),
    /// There is no machine, only the operation's number: a repair made no shares, or the source of
    /// an upload changed while it was read.
    Gone(u64),
}

impl Task {
    /// Begins a job that is no repair, with all of these servers, which are of distinct nodes.
    /// `nodes` are the same servers by their nodes.
    pub fn begin(
        alloc: Global,
        job: &Job,
        servers: &[ServerInfo],
        nodes: &[NodeId],
        session: u64,
        now: u64,
    ) -> Result<Task, StartError>
        requires servers { IsDistinct nat_eq (map (λ (s : ServerInfo). s.node) servers.now) }
        requires nodes { IsDistinct nat_eq nodes.now }
        ensures begins { IfOk result (Begins job.now servers.now nodes.now session now) }
        ensures may { IfOk result (λ _. MayStart job.now) }
        ensures refused { IsErrOf result StartError.Refused → MayStart job.now → ⊥ }
    {
        match job {
            Job::Upload(file, secret, params) => begin_upload(
                alloc,
                file.as_slice(),
                secret.as_slice(),
                params,
                servers,
                session,
                now,
            ),
            Job::Changing(file, other, after, secret, params) => begin_changing(
                alloc,
                file.as_slice(),
                other.as_slice(),
                *after,
                secret.as_slice(),
                params,
                servers,
                session,
                now,
            ),
            Job::Download(cap, from, to) => {
                begin_download(alloc, *cap, *from, *to, nodes, session, now)
            }
            Job::Check(cap) => begin_check(alloc, *cap, nodes, session, now),
            Job::Repair(_, _) | Job::NoRepair(_, _) => Err(StartError::Refused),
        }
    }

    /// Takes the next piece of a download's file.
    pub fn take_piece(&mut self) -> Option<Piece>
        ensures takes { TakesPiece self.old result self.new }
        ensures given { IfSome result (IsGivenBy self.new) }
    {
        match self {
            Task::Downloading(download) => download.take_bytes(),
            Task::Uploading(_) | Task::Checking(_) | Task::Gone(_) => None,
        }
    }

    /// Does it still run, by its status?
    pub fn runs(&self) -> bool
        ensures { result ≡ runs self.now }
    {
        match self {
            Task::Uploading(upload) => matches!(upload.status(), UploadStatus::Running),
            Task::Downloading(download) => download.status() == DownloadStatus::Running,
            Task::Checking(check) => check.status() == CheckStatus::Running,
            Task::Gone(_) => false,
        }
    }

    /// A law: its machine is right. The call does nothing.
    pub fn know_right(&self)
        ensures { IsRightTask self.now }
    {
        match self {
            Task::Uploading(upload) => {
                let _ = upload.status();
            }
            Task::Downloading(download) => {
                let _ = download.status();
            }
            Task::Checking(check) => {
                let _ = check.status();
            }
            Task::Gone(_) => {}
        }
    }
}

impl Operation for Task {
    ghost calls = { task_calls };

    fn is_running(&self) -> bool {
        match self {
            Task::Uploading(upload) => upload.is_running(),
            Task::Downloading(download) => download.is_running(),
            Task::Checking(check) => check.is_running(),
            Task::Gone(_) => false,
        }
    }

    /// Without memory it is as it was.
    fn take_outgoing(&mut self, alloc: Global) -> Result<Option<(NodeId, Message)>, AllocError>
        ensures ok { IfOk result (λ taken. Takes self.old taken self.new) }
        ensures err { OnErr result (GivesUp self.old self.new) }
        ensures follows { Follows Nothing (requests_of self.old) (requests_of self.new) }
        ensures same { OnErr result (self.new ≡ self.old) }
    {
        match self {
            Task::Uploading(upload) => upload.take_outgoing(alloc),
            Task::Downloading(download) => download.take_outgoing(alloc),
            Task::Checking(check) => check.take_outgoing(alloc),
            Task::Gone(_) => Ok(None),
        }
    }

    /// On an `Err` its machine failed, or it had ended; it goes on even so.
    fn on_message(&mut self, from: NodeId, message: Message, now: u64) -> Result<(), AllocError>
        ensures ok { OnOk result (Advances from message now self.old self.new) }
        ensures err { OnErr result (GivesUp self.old self.new) }
        ensures follows { Follows (IsSaid from message (requests_of self.old).session)
            (requests_of self.old) (requests_of self.new) }
        ensures goes { GoesOn (IsSaid from message (requests_of self.old).session)
            self.old self.new }
    {
        match self {
            Task::Uploading(upload) => upload.on_message(from, message, now),
            Task::Downloading(download) => download.on_message(from, message, now),
            Task::Checking(check) => check.on_message(from, message, now),
            Task::Gone(_) => Ok(()),
        }
    }

    /// As `on_message`.
    fn tick(&mut self, now: u64) -> Result<(), AllocError>
        ensures ok { OnOk result (TicksOn now self.old self.new) }
        ensures err { OnErr result (GivesUp self.old self.new) }
        ensures follows { Follows Nothing (requests_of self.old) (requests_of self.new) }
        ensures goes { GoesOn Nothing self.old self.new }
    {
        match self {
            Task::Uploading(upload) => upload.tick(now),
            Task::Downloading(download) => download.tick(now),
            Task::Checking(check) => check.tick(now),
            Task::Gone(_) => Ok(()),
        }
    }
}

// Begins an upload.
fn begin_upload(
    alloc: Global,
    file: &[u8],
    secret: &[u8],
    params: &Params,
    servers: &[ServerInfo],
    session: u64,
    now: u64,
) -> Result<Task, StartError>
    requires { IsDistinct nat_eq (map (λ (s : ServerInfo). s.node) servers.now) }
    ensures begins { (nodes : List ℕ) → IfOk result
        (Begins (jobs.Upload file.now secret.now params.now) servers.now nodes session now) }
    ensures may { IfOk result (λ _. MayStart (jobs.Upload file.now secret.now params.now)) }
    ensures refused { IsErrOf result StartError.Refused
        → MayStart (jobs.Upload file.now secret.now params.now) → ⊥ }
{
    if (file.len() as u64) < MIN_FILE_SIZE || secret.len() > MAX_SECRET_SIZE {
        return Err(StartError::Refused);
    }
    let _ = params.needed();
    match prepare(alloc, file, secret, params) {
        Ok(FileUpload::Shares(prepared)) => {
            let ready = UploadPieces::of_whole(prepared.into_upload());
            Ok(Task::Uploading(ready.start(alloc, servers, session, now)?))
        }
        Ok(FileUpload::Literal(_)) => Err(StartError::Refused),
        Err(EncodeError::OutOfMemory) => Err(StartError::OutOfMemory),
        Err(_) => Err(StartError::Refused),
    }
}

// Begins the upload of a source that changes. It has failed where the two passes over it had two
// keys.
fn begin_changing(
    alloc: Global,
    file: &[u8],
    other: &[u8],
    after: u64,
    secret: &[u8],
    params: &Params,
    servers: &[ServerInfo],
    session: u64,
    now: u64,
) -> Result<Task, StartError>
    requires { IsDistinct nat_eq (map (λ (s : ServerInfo). s.node) servers.now) }
    ensures begins { (nodes : List ℕ) → IfOk result
        (Begins (jobs.Changing file.now other.now after secret.now params.now) servers.now nodes
        session now) }
    ensures may { IfOk result
        (λ _. MayStart (jobs.Changing file.now other.now after secret.now params.now)) }
    ensures refused { IsErrOf result StartError.Refused
        → MayStart (jobs.Changing file.now other.now after secret.now params.now) → ⊥ }
{
    if (file.len() as u64) < MIN_FILE_SIZE
        || secret.len() > MAX_SECRET_SIZE
        || other.len() != file.len()
    {
        return Err(StartError::Refused);
    }
    let _ = params.needed();
    let source = two_texts(alloc, file, other, after)?;
    match prepare_stream(alloc, source, secret, params) {
        Ok(ready) => {
            let ready = UploadPieces::of_stream(ready);
            Ok(Task::Uploading(ready.start(alloc, servers, session, now)?))
        }
        Err(PrepareError::SourceChanged) => Ok(Task::Gone(session)),
        Err(PrepareError::OutOfMemory) => Err(StartError::OutOfMemory),
        Err(PrepareError::SourceFault) => unreachable!(),
        Err(_) => Err(StartError::Refused),
    }
}

// A source of two texts of one length.
fn two_texts(
    alloc: Global,
    file: &[u8],
    other: &[u8],
    after: u64,
) -> Result<ChangingSource, AllocError>
    requires { length other.now ≡ length file.now }
    ensures { IfOk result (λ source. source ≡ changing file.now other.now after) }
{
    let file = Vec::from_slice(alloc, file)?;
    let other = Vec::from_slice(alloc, other)?;
    Ok(ChangingSource::new(file, other, after))
}

// Begins a download.
fn begin_download(
    alloc: Global,
    cap: ReadCap,
    from: u64,
    to: u64,
    nodes: &[NodeId],
    session: u64,
    now: u64,
) -> Result<Task, StartError>
    requires { IsDistinct nat_eq nodes.now }
    ensures begins { (servers : List ServerInfo) → IfOk result
        (Begins (jobs.Download cap from to) servers nodes.now session now) }
    ensures may { IfOk result (λ _. MayStart (jobs.Download cap from to)) }
    ensures refused { IsErrOf result StartError.Refused
        → MayStart (jobs.Download cap from to) → ⊥ }
{
    match Download::start(alloc, cap, from, to, nodes, session, now) {
        Ok(download) => Ok(Task::Downloading(download)),
        Err(DownloadError::OutOfMemory) => Err(StartError::OutOfMemory),
        Err(DownloadError::BadRange) => Err(StartError::Refused),
    }
}

// Begins a check, which keeps the bytes of the shares that it reads: a repair may follow.
fn begin_check(
    alloc: Global,
    cap: VerifyCap,
    nodes: &[NodeId],
    session: u64,
    now: u64,
) -> Result<Task, StartError>
    requires { IsDistinct nat_eq nodes.now }
    ensures begins { (servers : List ServerInfo) → IfOk result
        (Begins (jobs.Check cap) servers nodes.now session now) }
    ensures refused { IsErrOf result StartError.Refused → ⊥ }
{
    match Check::start_keeping(alloc, cap, nodes, session, now) {
        Ok(check) => Ok(Task::Checking(check)),
        Err(_) => Err(StartError::OutOfMemory),
    }
}
