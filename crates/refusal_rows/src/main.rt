//! Writes each refusal in the order of the numbers: `NUMBER NAME CRATE::TYPE`, and behind a fault
//! of the program `NUMBER NAME status STATUS`.
//!
//! The name is what the text of a refusal begins with, or its variant where it has no text.
#![tactic(auto)]

mod bytes;
mod files;
mod machines;
mod program;
mod rows;

use rows::Rows;
use std::io;

fn main(rt: HostRuntime) -> io::Result<()> {
    let mut rows = Rows::new(rt.alloc());
    bytes::tell_all(&mut rows)?;
    files::tell_all(&mut rows)?;
    machines::tell_all(&mut rows)?;
    program::tell_all(rt.alloc(), &mut rows)?;
    rows.print(&rt)
}
