//! Whether a share of Tahoe-LAFS is the one that its cap and number ask for, and what it says.
#![tactic(auto)]

mod blocks;
mod chain;
mod check;
mod fault;
mod hashed;
mod hashing;
mod judging;
mod reading;
mod sections;
mod tree;
mod verify;

pub use check::{Check, first_faults_fail, sound_shares_lead, sound_shares_pass};
pub use fault::ShareFault;
pub use hashed::{HashSections, HashedBlocks, verify_hashed};
pub use judging::Judging;
pub use reading::{ReadShare, geometry_of, read_share, read_ueb};
pub use tree::leaves_in;
pub use verify::verify_share;
