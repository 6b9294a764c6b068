//! How far the beginning of a share is read.

ghost use Rattle.std.specs.Prelude.{◌≡◌};
ghost use Rattle.download_shares.specs.BeginningState.{unbegun};

use share_reading::Opening;

/// How far the beginning of a share at a server is read, and who reads it.
#[derive(Clone, Copy, PartialEq, Eq)]
pub struct Begun {
    /// The opening of which the next read was asked last.
    pub opening: Option<Opening>,
    /// The position of the request for that, while its answer is not taken.
    pub waiting: Option<usize>,
    /// The number of the reader of the share, once an extension block is accepted.
    pub reader: Option<usize>,
}

impl Begun {
    /// Nothing is read.
    pub(crate) fn new() -> Begun
        ensures { result ≡ unbegun }
    {
        Begun {
            opening: None,
            waiting: None,
            reader: None,
        }
    }
}
