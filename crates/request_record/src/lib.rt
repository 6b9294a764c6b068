//! The record of what one operation asks of servers: what is outstanding, what is sent again, which
//! answer counts, and what is lost.
#![tactic(auto)]

pub mod entries;
pub mod kept;
pub mod laws;
pub mod ledger;
pub mod operation;
mod past;
mod positions;
pub mod requests;
