//! A bucket: a share that a client is writing.

ghost use Rattle.std.specs.Prelude.{◌≡◌, IfSome, length};
ghost use Rattle.server_core.specs.Buckets.{GoesOn, HasHasher, HasRoom, IsNothing, IsFresh};
ghost use Rattle.server_core.specs.Buckets.{is_owned, with_bytes, count_in, bytes_so_far};
ghost use Rattle.server_core.specs.declared.bucket.Gathered.{Gathered};
ghost use Rattle.tagged_hash.specs.TaggedHasher.{input_of};

use std::alloc::Global;
use std::mem;
use tagged_hash::{Tag, TaggedHasher, WaitingHasher};
use wire::message::{Digest, NodeId, ShareId, ShareLength};

/// The bytes of a share so far. They are not kept, but for the last piece until it is hashed: the
/// store has them.
#[derive(Drop)]
pub enum Gathered {
    /// How many there are, fewer than the share's length, and a hasher that was given them.
    Part(u64, WaitingHasher),
    /// The digest of the whole share.
    Whole(Digest),
}

/// A share that one client is writing in one session.
#[derive(Drop)]
pub struct Bucket {
    pub client: NodeId,
    pub session: u64,
    pub id: ShareId,
    /// The length of the whole share.
    pub length: ShareLength,
    pub gathered: Gathered,
    /// The second at which the client last touched it.
    pub touched: u64,
}

impl Gathered {
    // No bytes.
    fn nothing(alloc: Global) -> Gathered
        ensures { IsNothing result }
    {
        Gathered::Part(0, WaitingHasher::new(alloc, Tag::WholeShare))
    }

    // How many bytes there are, of a share of this length.
    fn count(&self, share_length: ShareLength) -> u64
        ensures { result ≡ count_in share_length self.now }
    {
        match self {
            Gathered::Part(count, _) => *count,
            Gathered::Whole(_) => share_length.get(),
        }
    }

    /// The hasher, where something waits in it.
    pub(crate) fn waiting(&self) -> Option<&WaitingHasher>
        ensures { IfSome result (λ hasher. HasHasher hasher.now self.now) }
    {
        match self {
            Gathered::Part(_, hasher) if hasher.has_waiting() => Some(hasher),
            _ => None,
        }
    }

    /// What waited was hashed elsewhere.
    pub(crate) fn take_over(&mut self, hashed: TaggedHasher)
        requires { HasHasher (input_of hashed) self.old }
        ensures { self.new ≡ self.old }
    {
        if let Gathered::Part(_, hasher) = self {
            hasher.take_over(hashed);
        }
    }

    // More bytes, of a share of this length.
    fn followed_by(self, bytes: &[u8], share_length: ShareLength) -> Gathered
        requires { HasRoom share_length (length bytes.now) self }
        ensures { GoesOn share_length bytes.now self result }
    {
        match self {
            Gathered::Part(count, mut hasher) => {
                hasher.update(bytes);
                let count = count + bytes.len() as u64;
                if count == share_length.get() {
                    Gathered::Whole(hasher.finish())
                } else {
                    Gathered::Part(count, hasher)
                }
            }
            Gathered::Whole(digest) => Gathered::Whole(digest),
        }
    }
}

impl Bucket {
    /// An empty bucket.
    pub fn new(
        alloc: Global,
        client: NodeId,
        session: u64,
        id: ShareId,
        length: ShareLength,
        now: u64,
    ) -> Bucket
        ensures { IsFresh client session id length now result }
    {
        Bucket {
            client,
            session,
            id,
            length,
            gathered: Gathered::nothing(alloc),
            touched: now,
        }
    }

    /// Is it this client's, in this session?
    pub fn is_owned(&self, client: NodeId, session: u64) -> bool
        ensures { result ≡ is_owned client session self.now }
    {
        self.client == client && self.session == session
    }

    /// How many bytes were written.
    pub fn bytes_so_far(&self) -> u64
        ensures { result ≡ bytes_so_far self.now }
    {
        self.gathered.count(self.length)
    }

    // More bytes came.
    pub(crate) fn push(&mut self, bytes: &[u8], now: u64)
        requires { HasRoom self.old.length (length bytes.now) self.old.gathered }
        ensures { (gathered : Gathered)
            × GoesOn self.old.length bytes.now self.old.gathered gathered
            × (self.new ≡ with_bytes now gathered self.old) }
    {
        // what stands there meanwhile is never read, and takes no hasher
        let gathered = mem::replace(&mut self.gathered, Gathered::Whole([0; 32]));
        self.gathered = gathered.followed_by(bytes, self.length);
        self.touched = now;
    }
}
