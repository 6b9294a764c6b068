//! An operation that asks servers for bytes of the long share.

use crate::server::LONG;
use request_record::operation::Operation;
use std::alloc::{AllocError, Global};
use wire::message::{Body, Message, NodeId, ReadLength};

/// An answer: its server, its number, how many bytes it has, and the second.
pub(crate) type Heard = (NodeId, u64, usize, u64);

/// An operation that asks for so many bytes of so many servers, one request after the other, and is
/// at its end when all answered or at a second.
#[derive(Drop)]
pub(crate) struct Asking {
    asks: Vec<(NodeId, u32)>,
    asked: usize,
    pub(crate) heard: Vec<Heard>,
    pub(crate) ticks: Vec<u64>,
    until: u64,
    running: bool,
}

impl Asking {
    pub(crate) fn new(
        alloc: Global,
        asks: &[(NodeId, u32)],
        until: u64,
    ) -> Result<Asking, AllocError> {
        Ok(Asking {
            asks: Vec::from_slice(alloc, asks)?,
            asked: 0,
            heard: Vec::new(alloc),
            ticks: Vec::new(alloc),
            until,
            running: true,
        })
    }

    /// Whether each server answered what it was asked, in order, at these seconds.
    pub(crate) fn is_answered(&self, from: u64, to: u64) -> bool {
        self.heard.len() == self.asks.len()
            && self
                .heard
                .iter()
                .all(|heard| self.is_right(heard, from, to))
    }

    fn is_right(&self, (server, number, length, second): &Heard, from: u64, to: u64) -> bool {
        let Some(position) = usize::try_from(number.saturating_sub(1)).ok() else {
            return false;
        };
        let Some(length) = u32::try_from(*length).ok() else {
            return false;
        };
        self.asks.get(position) == Some(&(*server, length)) && from <= *second && *second <= to
    }
}

impl Operation for Asking {
    ghost use Rattle.request_record.specs.Asking.{fresh};

    ghost calls = { record {
      requests = λ asking. fresh 1 0;
      runs = λ asking. asking.running;
      takes = λ old taken new. Unit {0};
      hears = λ old from message now new. Unit {0};
      ticks = λ old now new. Unit {0};
      gives_up = λ old new. Unit {0};
    } };

    fn is_running(&self) -> bool {
        self.running
    }

    fn take_outgoing(&mut self, _alloc: Global) -> Result<Option<(NodeId, Message)>, AllocError> {
        let Some((node, length)) = self.asks.get(self.asked) else {
            return Ok(None);
        };
        let Some(length) = ReadLength::new(*length) else {
            return Ok(None);
        };
        self.asked = self.asked.saturating_add(1);
        let message = Message {
            session: 1,
            number: self.asked as u64,
            body: Body::Read(LONG, 0, length),
        };
        Ok(Some((*node, message)))
    }

    fn on_message(&mut self, from: NodeId, message: Message, now: u64) -> Result<(), AllocError> {
        let length = match &message.body {
            Body::Data(bytes) => bytes.as_slice().len(),
            _ => 0,
        };
        self.heard.push((from, message.number, length, now))?;
        self.running = self.heard.len() < self.asks.len();
        Ok(())
    }

    fn tick(&mut self, now: u64) -> Result<(), AllocError> {
        self.ticks.push(now)?;
        self.running = self.running && now < self.until;
        Ok(())
    }
}
