//! The reading of a range of one share at one server.

ghost use Rattle.std.specs.Prelude.{◌≡◌, ◌+◌, ◌*◌, ◌<◌, ◌^◌, IfOk, IsTrue, List, ℕ, drop, false};
ghost use Rattle.std.specs.Prelude.{length, take};
ghost use Rattle.wire.specs.Limits.{most_data};
ghost use Rattle.carried_operations.specs.Fetches.{Begins, IsFetched, IsReadBy, fetch_calls, part};
ghost use Rattle.carried_operations.specs.Ranges.{read_count};

use crate::range::ShareRange;
use request_record::operation::Operation;
use request_record::requests::Requests;
use std::alloc::{AllocError, Global};
use std::marker::Model;
use wire::message::{MAX_PIECE, Message, NodeId, StorageIndex};

/// The reading of a range of one share at one server. It asks for the whole range at once, so it
/// holds as many bytes as the range has.
///
/// An answer counts only if it comes from that server and answers one of the reads. A read that is
/// not answered is sent again, and is lost after 20 seconds.
#[derive(Drop)]
pub struct Fetch {
    index: StorageIndex,
    range: ShareRange,
    requests: Requests,
}

impl Model for Fetch {
    ghost use Rattle.carried_operations.specs.Fetches.{AreAsked, FetchState};

    ghost Value = { FetchState };

    ghost view = { λ f. record { index = f.index; range = f.range; requests = f.requests } };

    ghost invariant = { λ f. AreAsked f.range f.requests.entries };
}

impl Fetch {
    /// Asks for a range of a share of the file of this storage index. Its bytes end before 2^64.
    pub fn start(
        alloc: Global,
        index: StorageIndex,
        range: ShareRange,
        session: u64,
        now: u64,
    ) -> Result<Fetch, AllocError>
        requires { range.offset + range.length < 2 ^ 64 }
        ensures { IfOk result (Begins index range session now) }
    {
        let mut requests = Requests::new(alloc, session, now);
        'reads: for number in 0..range.read_count() {
            requests.ask(range.place.server, range.read_at(number))?;
        }
        Ok(Fetch {
            index,
            range,
            requests,
        })
    }

    /// Copies the bytes of the range, where each read of it was answered by as many bytes as it
    /// asked for, and says whether it was. Else `out` holds any bytes.
    pub fn copy_to(&self, out: &mut [u8]) -> bool
        requires { length out.old ≡ self.now.range.length }
        ensures fetched { IsTrue result → IsFetched self.now out.new }
        ensures missing { result ≡ false → (bytes : List ℕ) → IsFetched self.now bytes → ⊥ }
    {
        'reads: for number in 0..self.range.read_count() {
            let start = number as usize * MAX_PIECE;
            let end = out.len().min(start + MAX_PIECE);
            if !self.copy_read(number, &mut out[start..end]) {
                return false;
            }
        }
        true
    }

    // Copies the bytes that answered the read of this number, where they are as many as `out` has.
    fn copy_read(&self, number: u64, out: &mut [u8]) -> bool
        requires { number < read_count self.now.range.length }
        ensures read { IsTrue result
            → IsReadBy self.now.range self.now.requests.entries number out.new }
        ensures missing { result ≡ false → (bytes : List ℕ) → length bytes ≡ length out.old
            → IsReadBy self.now.range self.now.requests.entries number bytes → ⊥ }
    {
        let Some(bytes) = self.requests.bytes_at(number as usize) else {
            return false;
        };
        if bytes.len() != out.len() {
            return false;
        }
        out.copy_from_slice(bytes);
        true
    }
}

impl Operation for Fetch {
    ghost calls = { fetch_calls };

    fn is_running(&self) -> bool {
        0 < self.requests.outstanding()
    }

    /// It needs no memory.
    fn take_outgoing(&mut self, _alloc: Global) -> Result<Option<(NodeId, Message)>, AllocError> {
        Ok(self.requests.send_next(self.index))
    }

    /// It needs no memory.
    fn on_message(&mut self, from: NodeId, message: Message, now: u64) -> Result<(), AllocError> {
        self.requests.take_answer(from, message, now);
        Ok(())
    }

    fn tick(&mut self, now: u64) -> Result<(), AllocError> {
        self.requests.tick(now)?;
        Ok(())
    }
}
