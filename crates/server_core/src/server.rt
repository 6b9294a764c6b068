//! The server over a store.

ghost use Rattle.std.specs.Prelude.{◌≡◌, ◌≤◌, ◌<◌, ℕ, [], IfSome, length, max, true};
ghost use Rattle.server_core.specs.ServerState.{Does, DoesFor, Serves, Ticks, RestartsTo};
ghost use Rattle.server_core.specs.ServerState.{KeepsTerms};
ghost use Rattle.server_core.specs.ServerState.{ListsHoldings, outcome_of, is_full, line_of};
ghost use Rattle.server_core.specs.ServerState.{allocate_line, write_line, close_line, abort_line};
ghost use Rattle.server_core.specs.ServerState.{read_line, without_client, LetsGoOfEnded};
ghost use Rattle.server_core.specs.Buckets.{HasHasherAt, bucket_at};
ghost use Rattle.server_core.specs.Sound.{OthersBucketsStay};
ghost use Rattle.tagged_hash.specs.TaggedHasher.{input_of};

use crate::bucket::{Bucket, Gathered};
use crate::buckets::Buckets;
use crate::error::ServerFault;
use share_store::error::StoreError;
use share_store::memory::MemoryStore;
use share_store::store::Store;
use std::alloc::Global;
use std::marker::Model;
use tagged_hash::{TaggedHasher, WaitingHasher};
pub use wire::message::NodeId;
use wire::message::{Body, Message, ReadLength, ShareId, ShareLength, StorageIndex};

/// The bytes of closed shares that a server of a grid or of a world takes at most: more than one
/// share of the greatest file has, also where one share is as long as the file.
pub const CAPACITY: u64 = 1 << 42;

/// The most buckets that are open at a time.
const MOST_BUCKETS: usize = 1024;

/// A server over any store. Each message of a client is answered by the first line of the table
/// that fits:
///
/// | Request | State | Answer and change |
/// |---|---|---|
/// | `Ask` | any | `Have` with all closed shares of the file |
/// | `Allocate` | the share is closed | `Already` |
/// | `Allocate` | the client's own bucket, of that length | `Granted`; touched |
/// | `Allocate` | any other bucket of the share | `Busy` |
/// | `Allocate` | the server takes no shares, has 1,024 buckets, or too little room | `Full` |
/// | `Allocate` | else | `Granted`; an empty bucket |
/// | `Write` | the share is closed | `Already` |
/// | `Write` | no bucket of the client's own | `NoShare` |
/// | `Write` | not at the bytes so far, or past the length | `WrongOffset`; touched |
/// | `Write` | else | the store's write, then `Wrote`; touched |
/// | `Close` | the share is closed | `Closed` |
/// | `Close` | no bucket of the client's own | `NoShare` |
/// | `Close` | fewer bytes than the length | `NotComplete`; touched |
/// | `Close` | else | the store's close, and then `Closed`; the bucket ends |
/// | `Abort` | the client's own bucket | `NoShare`; the bucket ends |
/// | `Abort` | else | `NoShare` |
/// | `Read` | the share is closed | `Data` |
/// | `Read` | else | `NoShare` |
/// | any other message | any | nothing |
///
/// A bucket is a client's own in the session that opened it.
#[derive(Drop)]
pub struct Server<S: Store> {
    store: S,
    buckets: Buckets,
    clock: u64,
    capacity: u64,
    readonly: bool,
}

impl<S: Store> Model for Server<S> {
    ghost use Rattle.server_core.specs.ServerState.{ServerState};

    ghost Value = { ServerState S };

    ghost view = { λ s. record {
      store = s.store;
      buckets = s.buckets;
      clock = s.clock;
      capacity = s.capacity;
      readonly = s.readonly;
    } };
}

// An answer repeats the request's session and number.
fn replied(
    message: &Message,
    body: Result<Body, ServerFault>,
) -> Result<Option<Message>, ServerFault>
    ensures { result ≡ outcome_of message.now body }
{
    Ok(Some(Message {
        session: message.session,
        number: message.number,
        body: body?,
    }))
}

impl<S: Store> Server<S> {
    /// A server with no bucket open.
    pub fn start(alloc: Global, store: S, capacity: u64, readonly: bool) -> Server<S>
        ensures { result ≡ record {
          store = store;
          buckets = [];
          clock = 0;
          capacity = capacity;
          readonly = readonly;
        } }
    {
        Server {
            store,
            buckets: Buckets::new(alloc),
            clock: 0,
            capacity,
            readonly,
        }
    }

    /// The store.
    pub fn store(&self) -> &S
        ensures { result.now ≡ self.now.store }
    {
        &self.store
    }

    /// The first bucket from a position on whose hasher has something waiting: its position, and
    /// the hasher.
    pub fn waiting_from(&self, position: usize) -> Option<(usize, &WaitingHasher)>
        ensures own { IfSome result
            (λ found. HasHasherAt found.0 found.1.now self.now.buckets) }
        ensures within { IfSome result (λ found. found.0 < length self.now.buckets) }
    {
        self.buckets.waiting_from(position)
    }

    /// What waited in the bucket at a position was hashed elsewhere.
    pub fn take_over(&mut self, position: usize, hashed: TaggedHasher)
        requires within { position < length self.old.buckets }
        requires own { HasHasherAt position (input_of hashed) self.old.buckets }
        ensures { self.new ≡ self.old }
    {
        self.buckets.take_over(position, hashed);
    }

    // The time, which does not go back.
    fn later(&self, now: u64) -> u64
        ensures { result ≡ max self.now.clock now }
    {
        self.clock.max(now)
    }

    // Is there no room for a share of this length?
    fn is_full(&self, length: ShareLength) -> bool
        ensures { result ≡ is_full S.calls self.now length }
    {
        if self.readonly || self.buckets.count() >= MOST_BUCKETS {
            return true;
        }
        let room = self.capacity.saturating_sub(self.store.used());
        self.buckets.room_beside(room) < length.get()
    }

    // All closed shares of a file.
    fn list(&mut self, index: StorageIndex) -> Result<Body, ServerFault>
        ensures does { (now : ℕ)
            → DoesFor S.calls (ListsHoldings index) now self.old result self.new }
        ensures clock { self.new.clock ≡ self.old.clock }
        ensures terms { KeepsTerms self.old self.new }
    {
        let alloc = self.buckets.allocator();
        let found = self.store.list(alloc, &index)?;
        Ok(Body::Have(self.readonly, found))
    }

    // A bucket for a share of this length.
    fn allocate(
        &mut self,
        from: NodeId,
        session: u64,
        id: ShareId,
        length: ShareLength,
        now: u64,
    ) -> Result<Body, ServerFault>
        ensures does { DoesFor S.calls
            (allocate_line from session id length (is_full S.calls self.old length)
            (S.calls.told self.old.store id) (bucket_at id self.old.buckets))
            now self.old result self.new }
        ensures clock { self.new.clock ≡ self.old.clock }
        ensures terms { KeepsTerms self.old self.new }
    {
        if let Some(digest) = self.store.closed(&id) {
            return Ok(Body::Already(digest));
        }
        if let Some((position, bucket)) = self.buckets.find(id) {
            if !bucket.is_owned(from, session) || bucket.length != length {
                return Ok(Body::Busy);
            }
            self.buckets.touch(position, now);
            return Ok(Body::Granted);
        }
        if self.is_full(length) {
            return Ok(Body::Full);
        }
        let alloc = self.buckets.allocator();
        let bucket = Bucket::new(alloc, from, session, id, length, now);
        self.buckets.open(bucket)?;
        Ok(Body::Granted)
    }

    // The next bytes of a share.
    fn write(
        &mut self,
        from: NodeId,
        session: u64,
        id: ShareId,
        offset: u64,
        bytes: &[u8],
        now: u64,
    ) -> Result<Body, ServerFault>
        requires { 1 ≤ length bytes.now }
        ensures does { DoesFor S.calls
            (write_line from session id offset bytes.now
            (S.calls.told self.old.store id) (bucket_at id self.old.buckets))
            now self.old result self.new }
        ensures clock { self.new.clock ≡ self.old.clock }
        ensures terms { KeepsTerms self.old self.new }
    {
        if let Some(digest) = self.store.closed(&id) {
            return Ok(Body::Already(digest));
        }
        let Some((position, bucket)) = self.buckets.find(id) else {
            return Ok(Body::NoShare);
        };
        if !bucket.is_owned(from, session) {
            return Ok(Body::NoShare);
        }
        let so_far = bucket.bytes_so_far();
        let room = bucket.length.get().saturating_sub(so_far);
        if offset != so_far || room < bytes.len() as u64 {
            self.buckets.touch(position, now);
            return Ok(Body::WrongOffset(so_far));
        }
        match self.store.write(&id, offset, bytes) {
            Ok(()) => {
                self.buckets.push(position, bytes, now);
                Ok(Body::Wrote(offset + bytes.len() as u64))
            }
            Err(StoreError::StoreFault) => {
                self.buckets.give_up(position);
                Err(ServerFault::StoreFault)
            }
            Err(StoreError::OutOfMemory) => Err(ServerFault::OutOfMemory),
        }
    }

    // The share is kept once its bucket has all bytes.
    fn close(
        &mut self,
        from: NodeId,
        session: u64,
        id: ShareId,
        now: u64,
    ) -> Result<Body, ServerFault>
        ensures does { DoesFor S.calls
            (close_line from session id
            (S.calls.told self.old.store id) (bucket_at id self.old.buckets))
            now self.old result self.new }
        ensures clock { self.new.clock ≡ self.old.clock }
        ensures terms { KeepsTerms self.old self.new }
    {
        if let Some(digest) = self.store.closed(&id) {
            return Ok(Body::Closed(digest));
        }
        let Some((position, bucket)) = self.buckets.find(id) else {
            return Ok(Body::NoShare);
        };
        if !bucket.is_owned(from, session) {
            return Ok(Body::NoShare);
        }
        let digest = match &bucket.gathered {
            Gathered::Whole(digest) => *digest,
            Gathered::Part(count, _) => {
                let count = *count;
                self.buckets.touch(position, now);
                return Ok(Body::NotComplete(count));
            }
        };
        match self.store.close(&id, &digest) {
            Ok(()) => {
                self.buckets.end(position);
                Ok(Body::Closed(digest))
            }
            Err(StoreError::StoreFault) => {
                self.buckets.give_up(position);
                Err(ServerFault::StoreFault)
            }
            Err(StoreError::OutOfMemory) => Err(ServerFault::OutOfMemory),
        }
    }

    // The client's own bucket ends.
    fn abort(&mut self, from: NodeId, session: u64, id: ShareId) -> Result<Body, ServerFault>
        ensures does { (now : ℕ) → DoesFor S.calls
            (abort_line from session id (bucket_at id self.old.buckets))
            now self.old result self.new }
        ensures clock { self.new.clock ≡ self.old.clock }
        ensures terms { KeepsTerms self.old self.new }
    {
        if let Some((position, bucket)) = self.buckets.find(id) {
            if bucket.is_owned(from, session) {
                self.buckets.give_up(position);
            }
        }
        Ok(Body::NoShare)
    }

    // Some bytes of a closed share.
    fn read(&mut self, id: ShareId, offset: u64, length: ReadLength) -> Result<Body, ServerFault>
        ensures does { (now : ℕ) → DoesFor S.calls
            (read_line id offset length (S.calls.told self.old.store id))
            now self.old result self.new }
        ensures clock { self.new.clock ≡ self.old.clock }
        ensures terms { KeepsTerms self.old self.new }
    {
        if self.store.closed(&id).is_none() {
            return Ok(Body::NoShare);
        }
        let alloc = self.buckets.allocator();
        let bytes = self.store.read(alloc, &id, offset, length)?;
        Ok(Body::Data(bytes))
    }

    /// Answers one message, by the first line that fits.
    pub fn on_message(
        &mut self,
        from: NodeId,
        message: &Message,
        now: u64,
    ) -> Result<Option<Message>, ServerFault>
        ensures serves { Serves S.calls self.old from message.now now result self.new }
        ensures others { OthersBucketsStay from message.now.session self.old.buckets
            self.new.buckets }
    {
        let now = self.later(now);
        let answer = self.answer(from, message, now);
        if !matches!(answer, Err(ServerFault::OutOfMemory)) {
            self.clock = now;
        }
        answer
    }

    // What a message does at a time.
    fn answer(
        &mut self,
        from: NodeId,
        message: &Message,
        now: u64,
    ) -> Result<Option<Message>, ServerFault>
        ensures does { Does S.calls
            (line_of S.calls self.old from message.now.session message.now.body)
            now self.old message.now result self.new }
        ensures clock { self.new.clock ≡ self.old.clock }
        ensures terms { KeepsTerms self.old self.new }
    {
        let session = message.session;
        match &message.body {
            Body::Ask(index) => replied(message, self.list(*index)),
            Body::Allocate(id, length) => {
                replied(message, self.allocate(from, session, *id, *length, now))
            }
            Body::Write(id, offset, bytes) => {
                let bytes = bytes.as_slice();
                replied(message, self.write(from, session, *id, *offset, bytes, now))
            }
            Body::Close(id) => replied(message, self.close(from, session, *id, now)),
            Body::Abort(id) => replied(message, self.abort(from, session, *id)),
            Body::Read(id, offset, length) => replied(message, self.read(*id, *offset, *length)),
            _ => Ok(None),
        }
    }

    /// The time. Buckets that were not touched for 600 seconds are dropped.
    pub fn tick(&mut self, now: u64)
        ensures { Ticks self.old now self.new }
    {
        let now = self.later(now);
        self.clock = now;
        self.buckets.drop_stale(now);
    }

    /// A client is gone: its buckets end, as if it had given up each of them.
    pub fn forget(&mut self, client: NodeId)
        ensures { self.new ≡ without_client client self.old }
    {
        self.buckets.end_those_of(client);
    }

    /// The store lets go of what it holds for shares whose buckets ended with no close: they were
    /// given up, not touched for 600 seconds, or met a fault, or their client was forgotten. A
    /// server that lives long does so after each message and each tick.
    #[tactic(auto, using(crate::proofs::Ended::none_gone, crate::proofs::Ended::gone_on))]
    pub fn let_go(&mut self)
        ensures { LetsGoOfEnded S.calls self.old self.new }
    {
        let most = self.buckets.given_up();
        for _ in 0..most {
            self.let_go_of_next();
        }
    }

    // The store lets go of the next of them, if there is one.
    #[tactic(auto, using(crate::proofs::Ended::none_gone))]
    fn let_go_of_next(&mut self)
        ensures { LetsGoOfEnded S.calls self.old self.new }
    {
        if let Some(id) = self.buckets.next_given_up() {
            self.store.let_go(&id);
        }
    }

    /// A restart forgets the open buckets.
    pub fn restart(&mut self)
        ensures { RestartsTo S.calls.restart_gives self.old self.new }
    {
        self.store.restart();
        self.buckets.clear();
    }
}

impl Server<MemoryStore> {
    /// The store's next call that can fail does.
    pub fn fail_store(&mut self)
        ensures { self.new ≡ record {
          store = record {
            shelf = self.old.store.shelf;
            failures = self.old.store.failures;
            failing = true;
          };
          buckets = self.old.buckets;
          clock = self.old.clock;
          capacity = self.old.capacity;
          readonly = self.old.readonly;
        } }
    {
        self.store.fail_next();
    }
}
