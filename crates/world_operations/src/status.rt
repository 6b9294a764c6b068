//! What became of operations.

ghost use Rattle.std.specs.Prelude.{◌≡◌};
ghost use Rattle.world_operations.specs.Status.{check_status, download_status, gone_status};
ghost use Rattle.world_operations.specs.Status.{happy_of, machine_status, status_of, unmade_status};
ghost use Rattle.world_operations.specs.Status.{upload_status};

use crate::job::{Job, Unmade};
use crate::operation::{Life, Operation};
use crate::task::Task;
use checker::status::CheckStatus;
use download_core::status::DownloadStatus;
use upload_core::pieces::PieceFault;
use upload_core::status::UploadStatus;

/// What became of an operation.
#[derive(Clone, Copy, PartialEq, Eq)]
pub enum Status {
    Running,
    /// A restart of its node forgot it while it ran.
    Forgotten,
    /// So many servers hold a share of their own.
    Happy(usize),
    /// So many servers do, which is less than the second number, that was wanted.
    Unhappy(u16, u16),
    /// A download handed all of its range out, or a check has a verdict on each share.
    Done,
    NotEnoughShares,
    Inconsistent,
    /// By this cause: a piece of a share could not be had, two passes over the source of an upload
    /// differed as it began, or a call found no memory.
    Failed(PieceFault),
}

impl Operation {
    /// What became of it. A restart forgets what runs, and leaves what ended as it is.
    pub fn status(&self) -> Status
        ensures { result ≡ status_of self.now }
    {
        let status = machine_status(&self.job, &self.task);
        match self.life {
            Life::Live => status,
            Life::Refused => Status::Failed(PieceFault::OutOfMemory),
            Life::Forgotten if status == Status::Running => Status::Forgotten,
            Life::Forgotten => status,
        }
    }
}

// What the machine of a job came to.
fn machine_status(job: &Job, task: &Task) -> Status
    ensures { result ≡ machine_status job.now task.now }
{
    match task {
        Task::Uploading(upload) => upload_status(happy_of(job), upload.status()),
        Task::Downloading(download) => download_status(download.status()),
        Task::Checking(check) => check_status(check.status()),
        Task::Gone(_) => gone_status(job),
    }
}

// What an operation without a machine came to.
fn gone_status(job: &Job) -> Status
    ensures { result ≡ gone_status job.now }
{
    match job {
        Job::NoRepair(_, why) => unmade_status(*why),
        _ => Status::Failed(PieceFault::SourceChanged),
    }
}

fn unmade_status(why: Unmade) -> Status
    ensures { result ≡ unmade_status why }
{
    match why {
        Unmade::NotEnoughShares => Status::NotEnoughShares,
        Unmade::Inconsistent => Status::Inconsistent,
    }
}

// On how many servers the shares of an upload or of a repair have to be.
fn happy_of(job: &Job) -> u16
    ensures { result ≡ happy_of job.now }
{
    match job {
        Job::Upload(_, _, params) | Job::Changing(_, _, _, _, params) => params.happy(),
        Job::Repair(_, happy) => *happy,
        Job::Download(_, _, _) | Job::Check(_) | Job::NoRepair(_, _) => 0,
    }
}

fn upload_status(wanted: u16, status: &UploadStatus) -> Status
    ensures { result ≡ upload_status wanted status.now }
{
    match status {
        UploadStatus::Running => Status::Running,
        UploadStatus::Happy(pairs) => Status::Happy(pairs.as_slice().len()),
        UploadStatus::Unhappy(reached, _) => Status::Unhappy(*reached, wanted),
        UploadStatus::Failed(fault) => Status::Failed(*fault),
    }
}

fn download_status(status: DownloadStatus) -> Status
    ensures { result ≡ download_status status }
{
    match status {
        DownloadStatus::Running => Status::Running,
        DownloadStatus::Done => Status::Done,
        DownloadStatus::NotEnoughShares => Status::NotEnoughShares,
        DownloadStatus::Inconsistent => Status::Inconsistent,
        DownloadStatus::Failed => Status::Failed(PieceFault::OutOfMemory),
    }
}

fn check_status(status: CheckStatus) -> Status
    ensures { result ≡ check_status status }
{
    match status {
        CheckStatus::Running => Status::Running,
        CheckStatus::Done => Status::Done,
        CheckStatus::Failed => Status::Failed(PieceFault::OutOfMemory),
    }
}
