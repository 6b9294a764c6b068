//! The contents of an extension block.

ghost use Rattle.std.specs.Prelude.{◌≡◌};
ghost use Rattle.ueb.specs.Shape.{IsFile, IsSegmentSize, num_segments, tail_size, rounded_up};

use crate::key::Key;
use crate::values::Value;
use std::marker::Model;

/// What a reader knows of a file before it has the file's extension block: the numbers in its cap.
///
/// Its ranges are `1 <= needed <= total <= 256`, and a size from `MIN_FILE_SIZE` to
/// `MAX_FILE_SIZE`.
#[derive(Clone, Copy, Debug, PartialEq, Eq)]
pub struct Expect {
    /// How many shares give the file back.
    pub needed: u16,
    /// How many shares there are in all.
    pub total: u16,
    /// The file's size in bytes.
    pub size: u64,
    pub ghost in_range: { IsFile needed total size },
}

/// The contents of an extension block: four numbers and three hashes. The rest of its text follows
/// from them.
///
/// There are 1 to 256 shares, of which at least one is needed and at most all. The file has
/// `MIN_FILE_SIZE` to `MAX_FILE_SIZE` bytes. The segment size is a multiple of the shares needed,
/// at most `MAX_SEGMENT_SIZE` and at most the file's size rounded up to such a multiple, and gives
/// at most `MAX_SEGMENTS` segments.
#[derive(Clone, Copy, Debug, PartialEq, Eq)]
pub struct Ueb {
    needed_shares: u16,
    total_shares: u16,
    size: u64,
    segment_size: u32,
    crypttext_hash: [u8; 32],
    crypttext_root_hash: [u8; 32],
    share_root_hash: [u8; 32],
}

impl Model for Ueb {
    ghost use Rattle.ueb.specs.Shape.{Contents, IsShape};

    ghost Value = { Contents };

    ghost view = { λ u. record {
      needed_shares = u.needed_shares;
      total_shares = u.total_shares;
      size = u.size;
      segment_size = u.segment_size;
      crypttext_hash = u.crypttext_hash;
      crypttext_root_hash = u.crypttext_root_hash;
      share_root_hash = u.share_root_hash;
    } };

    ghost invariant = { λ u. IsShape u.needed_shares u.total_shares u.size u.segment_size };

    ghost inverse = { λ c. record {
      needed_shares = c.needed_shares;
      total_shares = c.total_shares;
      size = c.size;
      segment_size = c.segment_size;
      crypttext_hash = c.crypttext_hash;
      crypttext_root_hash = c.crypttext_root_hash;
      share_root_hash = c.share_root_hash;
    } };
}

impl Ueb {
    ghost use Rattle.ueb.specs.Shape.{AreContents};
    ghost use Rattle.ueb.specs.Block.{value_text};
    ghost use Rattle.ueb.specs.Value.{value_bytes};

    /// The extension block of a file of `expect`'s numbers, with segments of `segment_size` bytes,
    /// and these hashes: of the whole ciphertext, the root over its segments' hashes, and the root
    /// over the shares' block trees.
    pub fn new(
        expect: &Expect,
        segment_size: u32,
        crypttext_hash: [u8; 32],
        crypttext_root_hash: [u8; 32],
        share_root_hash: [u8; 32],
    ) -> Ueb
        requires { IsSegmentSize expect.now.needed expect.now.size segment_size }
        ensures contents { result ≡ record {
          needed_shares = expect.now.needed;
          total_shares = expect.now.total;
          size = expect.now.size;
          segment_size = segment_size;
          crypttext_hash = crypttext_hash;
          crypttext_root_hash = crypttext_root_hash;
          share_root_hash = share_root_hash;
        } }
        ensures valid { AreContents result }
    {
        Ueb {
            needed_shares: expect.needed,
            total_shares: expect.total,
            size: expect.size,
            segment_size,
            crypttext_hash,
            crypttext_root_hash,
            share_root_hash,
        }
    }

    /// How many shares give the file back.
    pub fn needed_shares(&self) -> u16
        ensures value { result ≡ self.now.needed_shares }
        ensures valid { AreContents self.now }
    {
        self.needed_shares
    }

    /// How many shares there are in all.
    pub fn total_shares(&self) -> u16
        ensures value { result ≡ self.now.total_shares }
        ensures valid { AreContents self.now }
    {
        self.total_shares
    }

    /// The file's size in bytes.
    pub fn size(&self) -> u64
        ensures value { result ≡ self.now.size }
        ensures valid { AreContents self.now }
    {
        self.size
    }

    /// The size of each segment but the last, in bytes.
    pub fn segment_size(&self) -> u32
        ensures value { result ≡ self.now.segment_size }
        ensures valid { AreContents self.now }
    {
        self.segment_size
    }

    /// How many segments the file has; the last one may be shorter than the others.
    pub fn num_segments(&self) -> u32
        ensures value { result ≡ num_segments self.now.size self.now.segment_size }
        ensures valid { AreContents self.now }
    {
        self.size.div_ceil(u64::from(self.segment_size)) as u32
    }

    /// The hash of the whole ciphertext.
    pub fn crypttext_hash(&self) -> &[u8; 32]
        ensures { result.now ≡ self.now.crypttext_hash }
    {
        &self.crypttext_hash
    }

    /// The root over the hashes of the ciphertext's segments.
    pub fn crypttext_root_hash(&self) -> &[u8; 32]
        ensures { result.now ≡ self.now.crypttext_root_hash }
    {
        &self.crypttext_root_hash
    }

    /// The root over the roots of the shares' block trees.
    pub fn share_root_hash(&self) -> &[u8; 32]
        ensures { result.now ≡ self.now.share_root_hash }
    {
        &self.share_root_hash
    }

    // The length of the last segment, rounded up to a multiple of the shares needed.
    fn padded_tail(&self) -> u64
        ensures { result
            ≡ rounded_up (tail_size self.now.size self.now.segment_size) self.now.needed_shares }
    {
        let segment = u64::from(self.segment_size);
        let left = self.size % segment;
        let tail = if left == 0 { segment } else { left };
        let needed = u64::from(self.needed_shares);
        tail.div_ceil(needed) * needed
    }

    /// What stands under a key.
    #[tactic(auto, unfolding(crate::specs::Block::value_text))]
    pub(crate) fn value(&self, key: Key) -> Value<'_>
        ensures { value_bytes result ≡ value_text self.now key }
    {
        let needed = u64::from(self.needed_shares);
        let total = u64::from(self.total_shares);
        match key {
            Key::CodecName => Value::Bytes(b"crs"),
            Key::CodecParams => Value::Params(u64::from(self.segment_size), needed, total),
            Key::CrypttextHash => Value::Bytes(&self.crypttext_hash),
            Key::CrypttextRootHash => Value::Bytes(&self.crypttext_root_hash),
            Key::NeededShares => Value::Number(needed),
            Key::NumSegments => Value::Number(u64::from(self.num_segments())),
            Key::SegmentSize => Value::Number(u64::from(self.segment_size)),
            Key::ShareRootHash => Value::Bytes(&self.share_root_hash),
            Key::Size => Value::Number(self.size),
            Key::TailCodecParams => Value::Params(self.padded_tail(), needed, total),
            Key::TotalShares => Value::Number(total),
        }
    }
}
