// Room for one block.

ghost use Rattle.std.specs.Prelude.{◌≡◌, ◌≤◌, ◌++◌, IfOk, IfSome, None, Some, drop, length};
ghost use Rattle.block_making.specs.Slots.{held};

use std::alloc::{AllocError, Global};

/// Which block a slot holds: its share, the number of its segment, and its length in bytes.
#[derive(Clone, Copy, Debug, PartialEq, Eq)]
pub(crate) struct Name {
    pub share: u8,
    pub number: u32,
    pub length: usize,
}

/// Room for a block, which stands at its beginning.
#[derive(Drop)]
pub(crate) struct Slot {
    pub name: Option<Name>,
    pub bytes: Vec<u8>,
}

impl Slot {
    /// A slot that is free, for blocks of at most so many bytes.
    pub(crate) fn free(alloc: Global, room: usize) -> Result<Slot, AllocError>
        ensures free { IfOk result (λ slot. held slot.name slot.bytes.items ≡ None) }
        ensures room { IfOk result (λ slot. length slot.bytes.items ≡ room) }
    {
        Ok(Slot {
            name: None,
            bytes: vec![in alloc; 0u8; room]?,
        })
    }

    /// The block, where it is this one.
    pub(crate) fn get(&self, share: u8, number: u32) -> Option<&[u8]>
        ensures { IfSome result (λ bytes. held self.now.name self.now.bytes.items
            ≡ Some (record { share = share; number = number; bytes = bytes.now })) }
    {
        match self.name {
            Some(name) if name.share == share && name.number == number => {
                self.bytes.get(..name.length)
            }
            _ => None,
        }
    }

    /// Takes a block in, in place of the one that it held. There is room for it.
    pub(crate) fn set(&mut self, share: u8, number: u32, bytes: &[u8])
        requires { length bytes.now ≤ length self.old.bytes.items }
        ensures held { held self.new.name self.new.bytes.items
            ≡ Some (record { share = share; number = number; bytes = bytes.now }) }
        ensures room { length self.new.bytes.items ≡ length self.old.bytes.items }
    {
        put_front(&mut self.bytes, bytes);
        self.name = Some(Name {
            share,
            number,
            length: bytes.len(),
        });
    }
}

// Writes bytes over the first ones.
fn put_front(room: &mut [u8], bytes: &[u8])
    requires { length bytes.now ≤ length room.old }
    ensures { room.new ≡ bytes.now ++ drop (length bytes.now) room.old }
{
    room[..bytes.len()].copy_from_slice(bytes);
}
