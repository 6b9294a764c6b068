//! What the end of an upload or a download is for its user.

ghost use Rattle.std.specs.Prelude.{◌≡◌};
ghost use Rattle.grid_rules.specs.Ending.{end_of_download, ending_of, world_status};

use crate::becoming::fault_of_piece;
use download_core::status::DownloadStatus;
use grid_faults::Fault;
use upload_core::status::UploadStatus;

/// The happiness that an upload reached, of which so much was wanted, or the fault that it ended
/// with.
pub fn reached_happiness(status: &UploadStatus, wanted: u16) -> Result<usize, Fault>
    ensures { result ≡ ending_of wanted status.now }
{
    match status {
        UploadStatus::Running => Err(Fault::TurnLimit),
        UploadStatus::Happy(pairs) => Ok(pairs.as_slice().len()),
        UploadStatus::Unhappy(reached, _) => Err(Fault::Unhappy {
            reached: *reached,
            wanted,
        }),
        UploadStatus::Failed(fault) => Err(fault_of_piece(*fault)),
    }
}

/// The exit status of a script: 0 where all bytes agree that its world handed out, else 6.
pub fn world_status(agrees: bool) -> u8
    ensures { result ≡ world_status agrees }
{
    if agrees { 0 } else { 6 }
}

/// Refuses a download that did not hand out all bytes of its range, with the fault that it ended
/// with.
pub fn reached_range_end(status: DownloadStatus) -> Result<(), Fault>
    ensures { result ≡ end_of_download status }
{
    match status {
        DownloadStatus::Running => Err(Fault::TurnLimit),
        DownloadStatus::Done => Ok(()),
        DownloadStatus::NotEnoughShares => Err(Fault::NotEnoughShares),
        DownloadStatus::Inconsistent => Err(Fault::Inconsistent),
        DownloadStatus::Failed => Err(Fault::OutOfMemory),
    }
}
