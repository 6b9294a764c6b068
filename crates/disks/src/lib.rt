//! A folder on a disk: what its calls do, what a crash leaves of it, and what other programs may
//! do.
#![tactic(auto)]

pub mod closing;
pub mod disk;
pub mod error;
pub mod laws;
pub mod memory;
pub mod moving;
pub mod opening;
pub mod own;
pub mod reading;
pub mod system;
pub mod whole;
pub mod written;
