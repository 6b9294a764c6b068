//! The kinds of message, by their numbers.

ghost use Rattle.std.specs.Prelude.{◌≡◌};
ghost use Rattle.wire.specs.Kinds.{number_of, kind_of, kind_named};

use crate::message::Body;

/// A kind of message. Its number is the first byte of a frame's body.
#[derive(Clone, Copy, PartialEq, Eq)]
pub enum Kind {
    Ask = 1,
    Have = 2,
    Allocate = 3,
    Granted = 4,
    Already = 5,
    Busy = 6,
    Full = 7,
    Write = 8,
    Wrote = 9,
    WrongOffset = 10,
    Close = 11,
    Closed = 12,
    NotComplete = 13,
    Abort = 14,
    Read = 15,
    Data = 16,
    NoShare = 17,
}

impl Kind {
    /// The kind of what a message says.
    pub fn of(body: &Body) -> Kind
        ensures { result ≡ kind_of body.now }
    {
        match body {
            Body::Ask(_) => Kind::Ask,
            Body::Have(_, _) => Kind::Have,
            Body::Allocate(_, _) => Kind::Allocate,
            Body::Granted => Kind::Granted,
            Body::Already(_) => Kind::Already,
            Body::Busy => Kind::Busy,
            Body::Full => Kind::Full,
            Body::Write(_, _, _) => Kind::Write,
            Body::Wrote(_) => Kind::Wrote,
            Body::WrongOffset(_) => Kind::WrongOffset,
            Body::Close(_) => Kind::Close,
            Body::Closed(_) => Kind::Closed,
            Body::NotComplete(_) => Kind::NotComplete,
            Body::Abort(_) => Kind::Abort,
            Body::Read(_, _, _) => Kind::Read,
            Body::Data(_) => Kind::Data,
            Body::NoShare => Kind::NoShare,
        }
    }

    /// The kind's number, 1 to 17.
    pub fn number(self) -> u8
        ensures { result ≡ number_of self }
    {
        self as u8
    }

    /// The kind of that number, or `None` where there is none.
    pub fn from_number(number: u8) -> Option<Kind>
        ensures { result ≡ kind_named number }
    {
        Some(match number {
            1 => Kind::Ask,
            2 => Kind::Have,
            3 => Kind::Allocate,
            4 => Kind::Granted,
            5 => Kind::Already,
            6 => Kind::Busy,
            7 => Kind::Full,
            8 => Kind::Write,
            9 => Kind::Wrote,
            10 => Kind::WrongOffset,
            11 => Kind::Close,
            12 => Kind::Closed,
            13 => Kind::NotComplete,
            14 => Kind::Abort,
            15 => Kind::Read,
            16 => Kind::Data,
            17 => Kind::NoShare,
            _ => return None,
        })
    }
}
