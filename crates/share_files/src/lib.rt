//! The share files of a server's folder, by their names: what each is, what may be done to it, and
//! what was done, which contracts see act by act.
#![tactic(auto)]

mod acts;
mod aside;
mod bytes;
mod changes;
mod fate;
mod files;
mod known;
pub mod laws;
mod name;
mod reading;
mod seen;

pub use acts::{Act, Standing};
pub use aside::{Went, closed_fate, set_aside, settle};
pub use bytes::{Verdict, Watch, check_bytes};
pub use fate::{Claim, Fate, Wanted, fate_of, fate_read};
pub use files::{FolderFiles, Listing, OPEN_SECONDS};
pub use known::KnownFiles;
pub use name::{FileKind, ShareFile};
pub use reading::{MOST_LANES, SharePath, see_whole};
pub use seen::SeenWhole;
