//! The limits of the format.

ghost use Rattle.std.specs.Prelude.{◌≡◌};
ghost use Rattle.ueb.specs.Limits.{max_file_size, max_length, max_segment_size, max_segments};
ghost use Rattle.ueb.specs.Limits.{max_shares, min_file_size};

/// The greatest length of an extension block, in bytes.
pub const MAX_LENGTH: usize = 4_096;

/// The size of the smallest file that has an extension block, in bytes: the contents of a smaller
/// one stand in its cap.
pub const MIN_FILE_SIZE: u64 = 56;

/// The size of the greatest file, in bytes.
pub const MAX_FILE_SIZE: u64 = 1 << 40;

/// The greatest number of shares of a file.
pub const MAX_SHARES: u16 = 256;

/// The greatest size of a segment, in bytes: 2^20 rounded up to a multiple of the shares needed is
/// no more.
pub const MAX_SEGMENT_SIZE: u32 = 1_048_831;

/// The greatest number of segments of a file.
pub const MAX_SEGMENTS: u32 = 1_048_576;

/// A law: these constants are the limits of the definitions. The law is the contract; the call does
/// nothing.
pub fn constants_are_the_limits()
    ensures length { MAX_LENGTH ≡ max_length }
    ensures smallest { MIN_FILE_SIZE ≡ min_file_size }
    ensures greatest { MAX_FILE_SIZE ≡ max_file_size }
    ensures shares { MAX_SHARES ≡ max_shares }
    ensures segment_size { MAX_SEGMENT_SIZE ≡ max_segment_size }
    ensures segments { MAX_SEGMENTS ≡ max_segments }
{}
