//! The ranges of a command's numbers.

ghost use Rattle.std.specs.Prelude.{◌≡◌, ◌↔◌, ◌≤◌, IfOk, IsTrue};
ghost use Rattle.std.specs.String.{string_bytes};
ghost use Rattle.grid_faults.specs.Limits.{IsKept, limit_line};

use std::alloc::{AllocError, Global};

/// What was given for an option, and the numbers that may be given.
#[derive(Clone, Copy)]
pub struct Limit<'a> {
    pub option: &'a str,
    pub value: u64,
    pub least: u64,
    pub most: u64,
}

impl<'a> Limit<'a> {
    /// Whether the number is in its range.
    pub fn is_kept(&self) -> bool
        ensures { IsTrue result ↔ IsKept self.now }
    {
        self.least <= self.value && self.value <= self.most
    }

    /// The line that tells of a number outside its range.
    pub fn line(&self, alloc: Global) -> Result<String, AllocError>
        ensures { IfOk result (λ line. string_bytes line ≡ limit_line self.now) }
    {
        let (option, value) = (self.option, self.value);
        let (least, most) = (self.least, self.most);
        format!(in alloc; "{option} is {value}, and may be {least} to {most}\n")
    }
}
