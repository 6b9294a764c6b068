//! Why bytes of a source were not read.

ghost use Rattle.std.specs.Prelude.{◌≡◌};
ghost use Rattle.sources.specs.Faults.{part_fault_number, source_fault_number};

/// Why a read of a source brought nothing.
#[derive(Clone, Copy, Debug, PartialEq, Eq)]
pub enum SourceFault {
    /// The bytes could not be read.
    Unreadable,
}

impl SourceFault {
    /// The number of the refusal.
    pub fn number(self) -> u8
        ensures { result ≡ source_fault_number self }
    {
        match self {
            SourceFault::Unreadable => 75,
        }
    }
}

/// Why a part of a source was not read.
#[derive(Clone, Copy, Debug, PartialEq, Eq)]
pub enum PartFault {
    /// The source has no more bytes.
    Ended,
    /// A read failed.
    Unreadable,
}

impl PartFault {
    /// The number of the refusal.
    pub fn number(self) -> u8
        ensures { result ≡ part_fault_number self }
    {
        match self {
            PartFault::Ended => 74,
            PartFault::Unreadable => 75,
        }
    }
}
