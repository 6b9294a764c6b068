//! Links over sockets, and beside them those in memory.

ghost use Rattle.std.specs.Prelude.{◌≡◌, ◌⊎◌, IfNone, IfOk, IfSome, None, OnOk, Some};
ghost use Rattle.wire.specs.Frames.{frame};
ghost use Rattle.local_grid.specs.Carrying.{Breaks, Carries};
ghost use Rattle.local_grid.specs.Links.{ComesElse, IsCarried, IsCarriedOver, IsGivenUp};

use crate::ends::Ends;
use crate::frames::message_of;
use crate::link::{Link, MemoryLink, Way};
use crate::passing::{CarryFault, carry};
use std::alloc::{AllocError, Global};
use std::marker::Model;
use wire::message::Message;

/// A link over both ends of a connection, until one of them fails, or something else than a frame
/// comes, or memory is refused: then both are closed, and it carries nothing any more.
#[derive(Drop)]
pub struct SocketLink<E: Ends> {
    alloc: Global,
    ends: Option<E>,
}

impl<E: Ends> Model for SocketLink<E> {
    ghost use Rattle.std.specs.Prelude.{Option};

    ghost Value = { Option E };

    ghost view = { λ l. l.ends };
}

impl<E: Ends> SocketLink<E> {
    /// A link over these ends, or one that carries nothing.
    pub fn new(alloc: Global, ends: Option<E>) -> SocketLink<E>
        ensures { result ≡ ends }
    {
        SocketLink { alloc, ends }
    }
}

impl<E: Ends + Drop> Link for SocketLink<E> {
    ghost carries = { λ link way m came after. IsCarried E.calls link way m came after };

    ghost gives_up = { λ link after. after ≡ None };

    fn carry(
        &mut self,
        way: Way,
        message: &Message,
        frame: &mut Vec<u8>,
    ) -> Result<Option<Message>, AllocError> {
        let came = carried_over(self.alloc, &mut self.ends, way, message, frame);
        if !matches!(&came, Ok(Some(_))) {
            self.ends = None;
        }
        came
    }
}

// What comes out where a message goes a way over the ends, while there are any.
fn carried_over<E: Ends>(
    alloc: Global,
    ends: &mut Option<E>,
    way: Way,
    message: &Message,
    frame: &mut Vec<u8>,
) -> Result<Option<Message>, AllocError>
    ensures some { IfOk result (λ o. IfSome o
        (λ out. IsCarried E.calls ends.old way message.now (Some out) ends.new)) }
    ensures none { IfOk result (λ o. IfNone o
        (IsCarried E.calls ends.old way message.now None None)) }
{
    message.encode_to(frame)?;
    match ends {
        Some(ends) => carried(alloc, ends, way, frame),
        None => Ok(None),
    }
}

// What comes out where a frame goes a way. `None` where a call on an end failed, or no frame came.
fn carried<E: Ends>(
    alloc: Global,
    ends: &mut E,
    way: Way,
    sent: &[u8],
) -> Result<Option<Message>, AllocError>
    ensures some { IfOk result (λ o. IfSome o
        (λ out. Carries E.calls way ends.old sent.now (frame out) ends.new)) }
    ensures none { IfOk result (λ o. IfNone o
        (Breaks E.calls way ends.old ⊎ ComesElse E.calls way ends.old sent.now)) }
{
    let mut came = Vec::with_capacity(alloc, sent.len())?;
    match carry(ends, way, sent, &mut came) {
        Ok(()) => message_of(alloc, &came),
        Err(CarryFault::Socket) => Ok(None),
        Err(CarryFault::OutOfMemory) => Err(AllocError),
    }
}

/// A link in memory or over sockets.
#[derive(Drop)]
pub enum GridLink<E: Ends> {
    Memory(MemoryLink),
    Sockets(SocketLink<E>),
}

impl<E: Ends + Drop> Link for GridLink<E> {
    ghost carries = { λ link way m came after. IsCarriedOver E.calls link way m came after };

    ghost gives_up = { IsGivenUp };

    fn carry(
        &mut self,
        way: Way,
        message: &Message,
        frame: &mut Vec<u8>,
    ) -> Result<Option<Message>, AllocError> {
        match self {
            GridLink::Memory(link) => link.carry(way, message, frame),
            GridLink::Sockets(link) => link.carry(way, message, frame),
        }
    }
}
