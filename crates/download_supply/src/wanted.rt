//! A part of a plan that is asked.

use download_parts::{Part, Read};

/// A part of a plan that is asked, and where it is in the share.
#[derive(Clone, Copy, Debug, PartialEq, Eq)]
pub struct Wanted {
    /// The part.
    pub part: Part,
    /// Its bytes.
    pub read: Read,
}
