//! What the commands of `grid` tell and decide, apart from the files that they work on.
//!
//! An error of a crate below becomes a fault; a cap is told in lines, and so are a check and a
//! scrub, which are told as JSON too; an upload's end is its happiness or a fault, and that of a
//! download nothing or a fault; a range is one of the file or refused; and how many turns of the
//! loop a command may take is a number. The ways of a grid, by which its files are put, are a line
//! of text.
#![tactic(auto)]

pub mod becoming;
mod checking;
mod checking_json;
mod describing;
mod ending;
mod range;
mod scrubbing;
mod turns;
mod ways;

pub use checking::{report_lines, report_status, report_words};
pub use checking_json::{bool_json, missing_shares, report_json};
pub use describing::{cap_lines, read_cap};
pub use ending::{reached_happiness, reached_range_end, world_status};
pub use range::{ByteRange, range_of};
pub use scrubbing::{Scrubbed, finding_json, finding_line};
pub use turns::turn_limit;
pub use ways::{read_ways, ways_text};
