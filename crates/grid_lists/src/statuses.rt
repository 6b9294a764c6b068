//! The exit statuses of commands over many files.

ghost use Rattle.std.specs.Prelude.{◌≡◌};
ghost use Rattle.grid_lists.specs.Statuses.{status_after};

/// That of what is done.
pub const DONE: u8 = 0;

/// That of what is refused as it is read.
pub const UNREAD: u8 = 3;

/// The status of files by that of the first ones and that of one more.
pub(crate) fn status_after(first: u8, status: u8) -> u8
    ensures { result ≡ status_after first status }
{
    if first == DONE { status } else { first }
}
