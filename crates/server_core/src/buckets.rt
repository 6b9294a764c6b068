//! The open buckets of a server.

ghost use Rattle.std.specs.Prelude.{◌≡◌, ◌<◌, ◌-◌, ◌∷◌, ◌++◌, [], filter, length, slice_get};
ghost use Rattle.std.specs.Prelude.{IfNone, IfSome, None, OnErr, OnOk, Some};
ghost use Rattle.server_core.specs.Buckets.{GoesOn, HasHasherAt, HasRoom, bucket_at, changed};
ghost use Rattle.server_core.specs.Buckets.{ended, is_of_another, position_of};
ghost use Rattle.server_core.specs.Buckets.{promised, touched, with_bytes};
ghost use Rattle.server_core.specs.ServerState.{is_fresh_at};
ghost use Rattle.server_core.specs.declared.bucket.Bucket.{Bucket};
ghost use Rattle.server_core.specs.declared.bucket.Gathered.{Gathered};
ghost use Rattle.tagged_hash.specs.TaggedHasher.{input_of};
ghost use Rattle.wire.specs.declared.message.ShareId.{ShareId};

use crate::bucket::Bucket;
use std::alloc::{AllocError, Global};
use std::marker::Model;
use tagged_hash::{TaggedHasher, WaitingHasher};
use wire::message::{NodeId, ShareId};

/// The seconds after which a bucket that was not touched is dropped.
const IDLE_LIMIT: u64 = 600;

/// The open buckets. No share has two.
#[derive(Drop)]
pub struct Buckets {
    open: Vec<Bucket>,
    // The shares whose buckets ended with no close. Where a bucket is opened there is room made for
    // its share too.
    given_up: Vec<ShareId>,
}

impl Model for Buckets {
    ghost use Rattle.std.specs.Prelude.{List};
    ghost use Rattle.server_core.specs.declared.bucket.Bucket.{Bucket};
    ghost use Rattle.server_core.specs.Sound.{AreApart};

    ghost Value = { List Bucket };

    ghost view = { λ b. b.open.items };

    ghost invariant = { λ b. AreApart b.open.items };
}

impl Buckets {
    /// None is open.
    pub fn new(alloc: Global) -> Buckets
        ensures { result ≡ [] }
    {
        Buckets {
            open: Vec::new(alloc),
            given_up: Vec::new(alloc),
        }
    }

    /// Where their memory comes from.
    pub fn allocator(&self) -> Global {
        *self.open.allocator()
    }

    /// How many are open.
    pub fn count(&self) -> usize
        ensures { result ≡ length self.now }
    {
        self.open.len()
    }

    /// The bucket of a share, and where it stands.
    pub fn find(&self, id: ShareId) -> Option<(usize, &Bucket)>
        ensures none { IfNone result (bucket_at id self.now ≡ None) }
        ensures some { IfSome result (λ found. bucket_at id self.now ≡ Some found.1.now) }
        ensures position { IfSome result (λ found. position_of id self.now ≡ Some found.0) }
        ensures within { IfSome result (λ found. found.0 < length self.now) }
        ensures there { IfSome result (λ found. slice_get self.now found.0 ≡ Some found.1.now) }
    {
        find_in(self.open.as_slice(), id)
    }

    /// What is left of some room, in bytes, beside what the buckets are to hold.
    pub fn room_beside(&self, room: u64) -> u64
        ensures { result ≡ room - promised self.now }
    {
        let mut left = room;
        for bucket in &self.open {
            left = left.saturating_sub(bucket.length.get());
        }
        left
    }

    /// Opens a bucket of a share that has none.
    pub fn open(&mut self, bucket: Bucket) -> Result<(), AllocError>
        requires { bucket_at bucket.id self.old ≡ None }
        ensures ok { OnOk result (self.new ≡ self.old ++ bucket ∷ []) }
        ensures err { OnErr result (self.new ≡ self.old) }
    {
        self.given_up.reserve(self.open.len() + 1)?;
        self.open.push(bucket)?;
        Ok(())
    }

    /// The bucket at a position was touched.
    pub fn touch(&mut self, position: usize, now: u64)
        requires { position < length self.old }
        ensures { (id : ShareId) → position_of id self.old ≡ Some position
            → self.new ≡ changed id (touched now) self.old }
    {
        self.open[position].touched = now;
    }

    /// Adds bytes to the bucket at a position.
    pub fn push(&mut self, position: usize, bytes: &[u8], now: u64)
        requires room { IfSome (slice_get self.old position)
            (λ b. HasRoom b.length (length bytes.now) b.gathered) }
        requires within { position < length self.old }
        ensures { (id : ShareId) (b : Bucket) → position_of id self.old ≡ Some position
            → bucket_at id self.old ≡ Some b → (gathered : Gathered)
            × GoesOn b.length bytes.now b.gathered gathered
            × (self.new ≡ changed id (with_bytes now gathered) self.old) }
    {
        self.open[position].push(bytes, now);
    }

    /// The first bucket from a position on whose hasher has something waiting: its position, and
    /// the hasher.
    pub fn waiting_from(&self, position: usize) -> Option<(usize, &WaitingHasher)>
        ensures own { IfSome result (λ found. HasHasherAt found.0 found.1.now self.now) }
        ensures within { IfSome result (λ found. found.0 < length self.now) }
    {
        for place in position..self.open.len() {
            if let Some(hasher) = self.open[place].gathered.waiting() {
                return Some((place, hasher));
            }
        }
        None
    }

    /// What waited in the bucket at a position was hashed elsewhere.
    pub fn take_over(&mut self, position: usize, hashed: TaggedHasher)
        requires within { position < length self.old }
        requires own { HasHasherAt position (input_of hashed) self.old }
        ensures { self.new ≡ self.old }
    {
        self.open[position].gathered.take_over(hashed);
    }

    /// Ends the bucket at a position, whose share was closed.
    pub fn end(&mut self, position: usize)
        requires { position < length self.old }
        ensures { (id : ShareId) → position_of id self.old ≡ Some position
            → self.new ≡ ended id self.old }
    {
        let _ = self.open.remove(position);
    }

    /// Ends the bucket at a position with no close.
    pub fn give_up(&mut self, position: usize)
        requires { position < length self.old }
        ensures { (id : ShareId) → position_of id self.old ≡ Some position
            → self.new ≡ ended id self.old }
    {
        let bucket = self.open.remove(position);
        note(&mut self.given_up, bucket.id);
    }

    /// Drops those that were not touched for 600 seconds.
    pub fn drop_stale(&mut self, now: u64)
        ensures { self.new ≡ filter (is_fresh_at now) self.old }
    {
        note_stale(&mut self.given_up, self.open.as_slice(), now);
        self.open
            .retain(|bucket| now.saturating_sub(bucket.touched) < IDLE_LIMIT);
    }

    /// Ends those of a client.
    pub fn end_those_of(&mut self, client: NodeId)
        ensures { self.new ≡ filter (is_of_another client) self.old }
    {
        note_those_of(&mut self.given_up, self.open.as_slice(), client);
        self.open.retain(|bucket| bucket.client != client);
    }

    /// Ends all, and no share is to be let go of.
    pub fn clear(&mut self)
        ensures { self.new ≡ [] }
    {
        self.open.clear();
        self.given_up.clear();
    }

    /// How many shares are to be let go of at most: their buckets ended with no close.
    pub fn given_up(&self) -> usize {
        self.given_up.len()
    }

    /// The next of them, where it has no bucket again. It is the store's then to let go of it.
    pub fn next_given_up(&mut self) -> Option<ShareId>
        ensures same { self.new ≡ self.old }
        ensures idle { IfSome result (λ id. bucket_at id self.old ≡ None) }
    {
        let id = self.given_up.pop()?;
        match self.find(id) {
            Some(_) => None,
            None => Some(id),
        }
    }
}

// Notes a share to let go of. Room was made for it where its bucket was opened.
fn note(given_up: &mut Vec<ShareId>, id: ShareId) {
    let _ = given_up.push(id);
}

// Notes those that were not touched for 600 seconds.
fn note_stale(given_up: &mut Vec<ShareId>, buckets: &[Bucket], now: u64) {
    for bucket in buckets {
        if now.saturating_sub(bucket.touched) >= IDLE_LIMIT {
            note(given_up, bucket.id);
        }
    }
}

// Notes those of a client.
fn note_those_of(given_up: &mut Vec<ShareId>, buckets: &[Bucket], client: NodeId) {
    for bucket in buckets {
        if bucket.client == client {
            note(given_up, bucket.id);
        }
    }
}

// The bucket of a share, and where it stands.
fn find_in(buckets: &[Bucket], id: ShareId) -> Option<(usize, &Bucket)>
    ensures none { IfNone result (bucket_at id buckets.now ≡ None) }
    ensures some { IfSome result (λ found. bucket_at id buckets.now ≡ Some found.1.now) }
    ensures position { IfSome result (λ found. position_of id buckets.now ≡ Some found.0) }
    ensures within { IfSome result (λ found. found.0 < length buckets.now) }
    ensures there { IfSome result (λ found. slice_get buckets.now found.0 ≡ Some found.1.now) }
{
    for (position, bucket) in buckets.iter().enumerate() {
        if bucket.id == id {
            return Some((position, bucket));
        }
    }
    None
}
