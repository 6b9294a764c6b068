//! Why bytes of a share are not taken.

ghost use Rattle.std.specs.Prelude.{◌≡◌};
ghost use Rattle.download_parts.specs.TreeFault.{fault_number};

use share_verify::Check;
use std::alloc::AllocError;

/// Why bytes of a share are not taken.
#[derive(Clone, Copy, Debug, PartialEq, Eq)]
pub enum TreeFault {
    /// An allocation was refused.
    OutOfMemory,
    /// The bytes do not pass this check.
    Check(Check),
}

impl TreeFault {
    /// The number of the refusal, which for a check is the check's.
    pub fn number(self) -> u8
        ensures { result ≡ fault_number self }
    {
        match self {
            TreeFault::OutOfMemory => 1,
            TreeFault::Check(check) => check.number(),
        }
    }
}

impl From<AllocError> for TreeFault {
    ghost use Rattle.download_parts.specs.declared.error.TreeFault.TheVariants.{OutOfMemory};

    ghost from_gives = { λ _ e. e ≡ OutOfMemory };

    fn from(_error: AllocError) -> TreeFault {
        TreeFault::OutOfMemory
    }
}
