//! What the folders of a grid's servers hold: a `scrub` reads their shares, and a `status` counts
//! their files by their names.
#![tactic(auto)]

mod finding;
mod held;
mod scrub_telling;
mod scrubbing;
mod showing;
mod states;
mod status_json;
mod status_lines;

pub use held::Held;
pub use scrubbing::scrub;
pub use showing::status;
pub use states::{GridState, Lack, ServerState, State, Totals};
