//! One share at one server as a supply of blocks, from the moment on at which an extension block is
//! accepted: which parts of its plan are asked, which of them were taken, and what was taken. It
//! knows nothing of messages: the position of an answer is a number that it hands back.
//!
//! The parts of each section are asked in one order, and taken in it. No part is asked twice.
#![tactic(auto)]

mod batch;
mod cursors;
mod laws;
mod supply;
mod tree;
mod wanted;

pub use cursors::Cursors;
pub use laws::{
    due_is_proved, first_is_due, joined_has_length, leaves_are_known, longer_plans_hold_more,
    over_proves, supply_parts_are_apart, taken_is_ready, taken_nodes_are_known, waiting_goes_on,
    waiting_goes_on_giving, waiting_stays_ordered, waiting_stays_ordered_giving,
};
pub use supply::Supply;
pub use wanted::Wanted;
