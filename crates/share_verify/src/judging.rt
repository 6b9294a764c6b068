//! A share of which the bytes come piece by piece.

ghost use Rattle.std.specs.Prelude.{◌≡◌, ◌↔◌, ◌≤◌, ◌<◌, ◌*◌, ◌-◌, ◌^◌, ◌++◌, List, [], ℕ, length};
ghost use Rattle.std.specs.Prelude.{IsTrue, MatchResult, OnErr, OnOk};
ghost use Rattle.cap_text.specs.Cap.{VerifyCapValue};
ghost use Rattle.ueb.specs.Shape.{Contents};
ghost use Rattle.share_layout.specs.Geometry.{block_size};
ghost use Rattle.share_verify.specs.CapBlock.{IsUebFor, geometry_by};
ghost use Rattle.share_verify.specs.Verify.{IsFirstFault, IsSoundShare};
ghost use Rattle.share_verify.specs.Judging.{HasTaken, IsWhole, between_size, share_with};

use crate::fault::ShareFault;
use crate::hashed::{HashSections, HashedBlocks, verify_hashed};
use crate::hashing::hash_first;
use crate::reading::geometry_of;
use share_layout::Geometry;
use std::alloc::{AllocError, Global};
use ueb::Ueb;

/// How many blocks are hashed side by side.
const GROUP: usize = 8;

/// A share of which the extension block is known, and the bytes between its header and its
/// extension block are judged as they come.
///
/// It keeps 32 bytes for each block that is hashed, and the bytes behind these blocks: fewer than
/// eight blocks and what the last call brought, and, once the blocks are there, the trees and the
/// share hashes. Its two lists may have room for twice as much.
#[derive(Drop)]
pub struct Judging {
    alloc: Global,
    ueb: Ueb,
    /// The hashes of the first blocks.
    hashes: Vec<[u8; 32]>,
    /// The bytes behind these blocks.
    kept: Vec<u8>,
}

impl Judging {
    /// Nothing was taken of a share with this extension block. Takes no memory.
    pub fn begin(alloc: Global, ueb: &Ueb) -> Judging
        ensures { HasTaken result ueb.now [] }
    {
        Judging {
            alloc,
            ueb: *ueb,
            hashes: Vec::new(alloc),
            kept: Vec::new(alloc),
        }
    }

    /// Takes the next bytes of the share. Without memory it is as it was: it took none of them.
    pub fn take(&mut self, bytes: &[u8]) -> Result<(), AllocError>
        ensures ok { OnOk result ((u : Contents) (taken : List ℕ) → HasTaken self.old u taken
            → HasTaken self.new u (taken ++ bytes.now)) }
        ensures err { OnErr result ((u : Contents) (taken : List ℕ) → HasTaken self.old u taken
            → HasTaken self.new u taken) }
    {
        self.hash_groups()?;
        self.kept.extend_from_slice(bytes)
    }

    /// Whether all bytes are taken that stand between the share's header and the length of its
    /// extension block, and no more.
    pub fn is_whole(&self) -> bool
        ensures whole { IsTrue result ↔ IsWhole self.now }
        ensures taken { (u : Contents) (taken : List ℕ) → HasTaken self.now u taken
            → IsTrue result ↔ (length taken ≡ between_size (geometry_by u)) }
    {
        let geometry = geometry_of(&self.ueb);
        let data = geometry.share_data_size() as usize;
        let trees = 3 * geometry.tree_size() as usize + geometry.hashes_size() as usize;
        let hashed = self.hashed(&geometry);
        hashed <= data && self.kept.len() == data - hashed + trees
    }

    /// What `verify_share` says of the whole share, as share `num` of the file.
    pub fn verdict(&self, num: u16) -> Result<(), ShareFault>
        requires { IsWhole self.now }
        ensures { (cap : VerifyCapValue) (u : Contents) (taken extension_block : List ℕ)
            → HasTaken self.now u taken → IsUebFor cap extension_block u
            → let share = share_with u taken extension_block in
            MatchResult result (λ _. IsSoundShare cap num share) (IsFirstFault cap num share) }
    {
        let geometry = geometry_of(&self.ueb);
        let data = geometry.share_data_size() as usize;
        let (rest, behind) = self.kept.split_at(data - self.hashed(&geometry));
        let blocks = HashedBlocks {
            hashes: &self.hashes,
            rest,
        };
        let sections = HashSections::cut(behind, &geometry);
        verify_hashed(&self.ueb, num, &blocks, &sections)
    }

    // How many bytes the blocks had that are hashed. As many as a number can be where it is more.
    fn hashed(&self, geometry: &Geometry) -> usize
        ensures low { result ≤ length self.now.hashes.items * block_size geometry.now }
        ensures value { length self.now.hashes.items * block_size geometry.now < 2 ^ 64
            → result ≡ length self.now.hashes.items * block_size geometry.now }
        ensures high { 2 ^ 64 ≤ length self.now.hashes.items * block_size geometry.now
            → result ≡ 2 ^ 64 - 1 }
    {
        self.hashes
            .len()
            .saturating_mul(geometry.block_size() as usize)
    }

    // Hashes the blocks that are there whole, eight at a time, and lets their bytes go.
    fn hash_groups(&mut self) -> Result<(), AllocError>
        ensures { (u : Contents) (taken : List ℕ) → HasTaken self.old u taken
            → HasTaken self.new u taken }
    {
        let geometry = geometry_of(&self.ueb);
        let size = geometry.block_size() as usize;
        let data = (geometry.share_data_size() as usize).saturating_sub(self.hashed(&geometry));
        let count = whole_groups(data, self.kept.len(), size);
        hash_first(self.alloc, &mut self.hashes, &mut self.kept, size, count)
    }
}

// How many blocks of `size` bytes are there whole among so many bytes, of which the blocks are the
// first: in groups of eight.
fn whole_groups(length: usize, there: usize, size: usize) -> usize
    requires { 0 < size }
    ensures within { result * size ≤ length }
    ensures there { result * size ≤ there }
{
    let whole = length.min(there) / size;
    whole - whole % GROUP
}
