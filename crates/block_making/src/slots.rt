//! Rings of slots.

ghost use Rattle.std.specs.Prelude.{◌≡◌, ◌⊎◌, ◌<◌, ◌≤◌, ◌*◌, ℕ, All, IfOk, IfSome, None, length};
ghost use Rattle.std.specs.Prelude.{map, replicate, true};
ghost use Rattle.block_making.specs.Slots.{Keeps, KeptBlock, held};

use crate::slot::Slot;
use std::alloc::{AllocError, Global};
use std::marker::Model;

/// The bytes of a share that its ring has slots for, beside two blocks: those of two pieces of
/// 32,768 bytes.
pub const PIECES_ROOM: u32 = 65_536;

/// The bytes that the blocks in all slots take together at most: 512 MiB, which are two blocks of a
/// MiB for each of 256 shares. Of more shares than fit only the first have slots.
pub const MAX_ROOM: u64 = 1 << 29;

/// How many slots there are at most: a slot takes some 64 bytes beside its block.
pub const MAX_SLOTS: u64 = 1 << 20;

/// How many slots a share of a file has: for the blocks of two pieces and two more, but no more
/// than the file has segments. Blocks have `block_size` bytes.
pub fn window_for(block_size: u32, segments: u32) -> u32
    requires size { 0 < block_size }
    requires some { 0 < segments }
    ensures { 0 < result }
{
    (2 + PIECES_ROOM / block_size).min(segments)
}

/// Blocks of the first shares of a file, each in the slot of its number, and where each of these
/// shares goes on.
#[derive(Drop)]
pub struct BlockSlots {
    slots: Vec<Slot>,
    // The number of the block that each share goes on with.
    next: Vec<u64>,
    block_size: u32,
    window: u32,
}

impl Model for BlockSlots {
    ghost use Rattle.std.specs.Prelude.{◌≡◌, ◌<◌, ◌*◌, All, length, map};
    ghost use Rattle.block_making.specs.Slots.{Slots, held};

    ghost Value = { Slots };

    ghost view = { λ s. record {
      shares = length s.next.items;
      block_size = s.block_size;
      blocks = map (λ slot. held slot.name slot.bytes.items) s.slots.items;
    } };

    ghost invariant = { λ s. (0 < s.window)
        × (length s.slots.items ≡ length s.next.items * s.window)
        × All (λ slot. length slot.bytes.items ≡ s.block_size) s.slots.items };
}

impl BlockSlots {
    /// Rings of `window` slots each, for as many of the shares as there is room for. No block is
    /// kept yet, and each share begins with its first.
    pub fn new(
        alloc: Global,
        shares: u16,
        block_size: u32,
        window: u32,
    ) -> Result<BlockSlots, AllocError>
        requires { 0 < window }
        ensures none { IfOk result (λ slots. (block : KeptBlock) → Keeps slots.blocks block → ⊥) }
        ensures shares { IfOk result (λ slots. slots.shares ≤ shares) }
        ensures size { IfOk result (λ slots. slots.block_size ≡ block_size) }
    {
        let ring = u64::from(window).saturating_mul(u64::from(block_size));
        let count = (MAX_ROOM / ring.max(1))
            .min(MAX_SLOTS / u64::from(window))
            .min(u64::from(shares)) as usize;
        let mut next = Vec::with_capacity(alloc, count)?;
        next.resize(count, 0)?;
        Ok(BlockSlots {
            slots: free_slots(alloc, count * window as usize, block_size as usize)?,
            next,
            block_size,
            window,
        })
    }

    /// The block of a share, where it is kept.
    pub fn get(&self, share: u8, number: u32) -> Option<&[u8]>
        ensures { IfSome result (λ bytes. Keeps self.now.blocks
            (record { share = share; number = number; bytes = bytes.now })) }
    {
        let position = position_of(self.window, share, number);
        if position >= self.slots.len() {
            return None;
        }
        self.slots[position].get(share, number)
    }

    /// Keeps a block, where its share has slots. Blocks that were kept before it may be lost.
    pub fn put(&mut self, share: u8, number: u32, bytes: &[u8])
        requires { length bytes.now ≤ self.old.block_size }
        ensures others { (block : KeptBlock) → Keeps self.new.blocks block
            → (block ≡ record { share = share; number = number; bytes = bytes.now })
            ⊎ Keeps self.old.blocks block }
        ensures kept { share < self.old.shares → Keeps self.new.blocks
            (record { share = share; number = number; bytes = bytes.now }) }
        ensures shares { self.new.shares ≡ self.old.shares }
        ensures size { self.new.block_size ≡ self.old.block_size }
    {
        let position = position_of(self.window, share, number);
        if position < self.slots.len() {
            self.slots[position].set(share, number, bytes);
        }
    }

    /// Whether a block is one of the next of its share, as many as it has slots, and is not kept.
    pub fn wants(&self, share: u8, number: u32) -> bool
        ensures { result ≡ true → share < self.now.shares }
    {
        let Some(next) = self.next.get(usize::from(share)) else {
            return false;
        };
        let number64 = u64::from(number);
        *next <= number64
            && number64 - *next < u64::from(self.window)
            && self.get(share, number).is_none()
    }

    /// Tells with which block a share goes on.
    pub fn advance(&mut self, share: u8, number: u64)
        ensures { self.new ≡ self.old }
    {
        if let Some(next) = self.next.get_mut(usize::from(share)) {
            *next = number;
        }
    }
}

// The slot in which a block of a share stands, where each share has so many slots.
fn position_of(window: u32, share: u8, number: u32) -> usize
    requires { 0 < window }
    ensures { (shares : ℕ) → share < shares → result < shares * window }
{
    usize::from(share) * window as usize + (number % window) as usize
}

// Slots that are free, for blocks of at most so many bytes.
fn free_slots(alloc: Global, count: usize, room: usize) -> Result<Vec<Slot>, AllocError>
    ensures count { IfOk result (λ slots. length slots.items ≡ count) }
    ensures free { IfOk result (λ slots. map (λ slot. held slot.name slot.bytes.items) slots.items
        ≡ replicate count None) }
    ensures room { IfOk result (λ slots.
        All (λ slot. length slot.bytes.items ≡ room) slots.items) }
{
    let mut slots = Vec::with_capacity(alloc, count)?;
    while slots.len() < count {
        slots.push(Slot::free(alloc, room)?)?;
    }
    Ok(slots)
}
