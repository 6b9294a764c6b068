//! What is done with each file of a catalogue that is looked at, what that came to, and how files
//! are counted.

ghost use Rattle.std.specs.Prelude.{◌≡◌, map};
ghost use Rattle.grid_surveys.specs.LookEnds.{grid_of, task_of};
ghost use Rattle.grid_surveys.specs.Looks.{counted, fault_class, is_json, is_strict, names_of};
ghost use Rattle.grid_surveys.specs.Looks.{seen_class, seen_status};

use checker::status::Report;
use grid_faults::Fault;
use grid_lists::DONE;
use grid_rules::report_status;
use grid_shares::Stored;
use grid_words::{CheckFilesWords, RepairFilesWords};

/// What is done with each file.
#[derive(Clone, Copy)]
pub(crate) enum Look<'a> {
    Check(&'a CheckFilesWords<'a>),
    Repair(&'a RepairFilesWords<'a>),
}

impl<'a> Look<'a> {
    /// The patterns of its words.
    pub(crate) fn names(self) -> &'a [&'a str]
        ensures { map (λ n. n.now) result.now ≡ names_of (task_of self.entry) }
    {
        match self {
            Look::Check(words) => words.chosen.names.as_slice(),
            Look::Repair(words) => words.chosen.names.as_slice(),
        }
    }

    /// The folder of its grid.
    pub(crate) fn grid(self) -> &'a str
        ensures { result.now ≡ grid_of self.entry }
    {
        match self {
            Look::Check(words) => words.grid,
            Look::Repair(words) => words.grid,
        }
    }

    /// Whether files are told to programs.
    pub(crate) fn is_json(self) -> bool
        ensures { result ≡ is_json (task_of self.entry) }
    {
        match self {
            Look::Check(words) => words.json,
            Look::Repair(_) => false,
        }
    }

    // Whether each file is to be healthy.
    fn is_strict(self) -> bool
        ensures { result ≡ is_strict (task_of self.entry) }
    {
        match self {
            Look::Check(words) => words.strict,
            Look::Repair(_) => false,
        }
    }
}

/// What was found of a file, or made of it.
#[derive(Drop)]
pub enum Seen {
    /// Its cap holds it.
    Literal,
    /// What a check tells.
    Checked(Report),
    /// What became of its shares.
    Repaired(Stored),
}

impl Seen {
    /// The status of a check or a repair of this file alone.
    pub(crate) fn status(&self, look: Look<'_>) -> u8
        ensures { result ≡ seen_status (task_of look.entry) self.now }
    {
        match self {
            Seen::Literal => DONE,
            Seen::Checked(report) => report_status(report, look.is_strict()),
            Seen::Repaired(stored) => stored.status(),
        }
    }

    /// How the file is counted.
    pub(crate) fn class(&self) -> Class
        ensures { result ≡ seen_class self.now }
    {
        match self {
            Seen::Literal | Seen::Repaired(_) => Class::Whole,
            Seen::Checked(report) if report.healthy => Class::Whole,
            Seen::Checked(report) if report.recoverable => Class::Weak,
            Seen::Checked(_) => Class::Lost,
        }
    }
}

/// How a file is counted.
#[derive(Clone, Copy)]
pub enum Class {
    /// It is healthy, or was repaired.
    Whole,
    /// It can be recovered.
    Weak,
    /// It cannot.
    Lost,
    /// It was refused.
    Other,
}

/// How a file is counted that was refused.
pub(crate) fn fault_class(fault: &Fault) -> Class
    ensures { result ≡ fault_class fault.now }
{
    match fault {
        Fault::NotEnoughShares => Class::Lost,
        _ => Class::Other,
    }
}

/// How many files there are.
#[derive(Clone, Copy)]
pub struct Counts {
    pub files: u64,
    pub whole: u64,
    pub weak: u64,
    pub lost: u64,
}

impl Counts {
    /// With one file more.
    pub(crate) fn counted(self, class: Class) -> Counts
        ensures { result ≡ counted self class }
    {
        let mut counts = self;
        counts.files = counts.files.saturating_add(1);
        match class {
            Class::Whole => counts.whole = counts.whole.saturating_add(1),
            Class::Weak => counts.weak = counts.weak.saturating_add(1),
            Class::Lost => counts.lost = counts.lost.saturating_add(1),
            Class::Other => {}
        }
        counts
    }
}
