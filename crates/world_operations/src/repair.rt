// How repairs begin.

ghost use Rattle.std.specs.Prelude.{◌≡◌, map, nat_eq, IfOk};
ghost use Rattle.std.specs.List.{IsDistinct};
ghost use Rattle.file_upload.specs.Shares.{MayWant};
ghost use Rattle.upload_core.specs.declared.status.ServerInfo.{ServerInfo};
ghost use Rattle.world_operations.specs.Repairs.{BeginsRepair};

use crate::job::{Job, Unmade};
use crate::task::Task;
use crate::upload_pieces::UploadPieces;
use cap_text::VerifyCap;
use file_upload::repair::{RepairError, prepare_repair};
use std::alloc::{AllocError, Global};
use upload_core::status::ServerInfo;

impl Task {
    /// Begins the repair of a cap's file, of shares that a check found good, each with its number:
    /// the upload of all shares, made anew, with all of these servers, which are of distinct nodes,
    /// and of which `happy` at least are to hold a share of their own. The good shares are let go
    /// before the others are made. Where none can be made the repair is over, and its job says why.
    pub fn begin_repair(
        alloc: Global,
        cap: &VerifyCap,
        happy: u16,
        good: Vec<(u16, Vec<u8>)>,
        servers: &[ServerInfo],
        session: u64,
        now: u64,
    ) -> Result<(Job, Task), AllocError>
        requires may { MayWant cap.now happy }
        requires servers { IsDistinct nat_eq (map (λ (s : ServerInfo). s.node) servers.now) }
        ensures { IfOk result (λ begun. BeginsRepair cap.now happy (map (λ s. s.0) good.items)
            (map (λ s. s.1.items) good.items) servers.now session now begun.0 begun.1) }
    {
        match prepare_repair(alloc, cap, happy, good) {
            Ok(ready) => {
                let ready = UploadPieces::of_whole(ready);
                let upload = ready.start(alloc, servers, session, now)?;
                Ok((Job::Repair(*cap, happy), Task::Uploading(upload)))
            }
            Err(RepairError::NotEnoughShares) => Ok(over(cap, Unmade::NotEnoughShares, session)),
            Err(RepairError::Inconsistent) => Ok(over(cap, Unmade::Inconsistent, session)),
            Err(RepairError::OutOfMemory) => Err(AllocError),
            Err(RepairError::BadParameters) => unreachable!(),
        }
    }
}

// A repair that makes no shares.
fn over(cap: &VerifyCap, why: Unmade, session: u64) -> (Job, Task)
    ensures job { result.0 ≡ Job.NoRepair cap.now why }
    ensures task { result.1 ≡ Task.Gone session }
{
    (Job::NoRepair(*cap, why), Task::Gone(session))
}
