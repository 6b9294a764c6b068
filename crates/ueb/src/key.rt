//! The known keys of an extension block.

ghost use Rattle.std.specs.Prelude.{◌≡◌};

/// A known key, in the order of the keys' bytes, in which an extension block has them.
#[derive(Clone, Copy, Debug, PartialEq, Eq)]
pub enum Key {
    /// The name of the erasure code.
    CodecName,
    /// Segment size, shares needed and shares in all.
    CodecParams,
    /// The hash of the whole ciphertext.
    CrypttextHash,
    /// The root over the hashes of the ciphertext's segments.
    CrypttextRootHash,
    /// How many shares give the file back.
    NeededShares,
    /// How many segments there are.
    NumSegments,
    /// The size of each segment but the last.
    SegmentSize,
    /// The root over the roots of the shares' block trees.
    ShareRootHash,
    /// The file's size.
    Size,
    /// Padded size of the last segment, shares needed and shares in all.
    TailCodecParams,
    /// How many shares there are in all.
    TotalShares,
}

impl Key {
    ghost use Rattle.ueb.specs.Key.{key_name};

    /// All keys, in their order.
    pub const ALL: [Key; 11] = [
        Key::CodecName,
        Key::CodecParams,
        Key::CrypttextHash,
        Key::CrypttextRootHash,
        Key::NeededShares,
        Key::NumSegments,
        Key::SegmentSize,
        Key::ShareRootHash,
        Key::Size,
        Key::TailCodecParams,
        Key::TotalShares,
    ];

    /// The key as it stands in the block: 4 to 19 letters and `_`.
    #[tactic(auto, unfolding(crate::specs::Key::key_name))]
    pub fn name(self) -> &'static str
        ensures { result.now ≡ key_name self }
    {
        match self {
            Key::CodecName => "codec_name",
            Key::CodecParams => "codec_params",
            Key::CrypttextHash => "crypttext_hash",
            Key::CrypttextRootHash => "crypttext_root_hash",
            Key::NeededShares => "needed_shares",
            Key::NumSegments => "num_segments",
            Key::SegmentSize => "segment_size",
            Key::ShareRootHash => "share_root_hash",
            Key::Size => "size",
            Key::TailCodecParams => "tail_codec_params",
            Key::TotalShares => "total_shares",
        }
    }
}
