//! Why a share was not laid out, read or written.

ghost use Rattle.std.specs.Prelude.{◌≡◌};

use std::error::Error;
use std::fmt;

/// A part of a share, in the order in which they stand in it.
#[derive(Clone, Copy, Debug, PartialEq, Eq)]
pub enum Section {
    /// The header: the version and eight numbers.
    Header,
    /// The blocks, one for each segment.
    Data,
    /// The section of a tree that is no longer used.
    Unused,
    /// The tree over the hashes of the ciphertext's segments.
    CiphertextTree,
    /// The tree over the hashes of the blocks.
    BlockTree,
    /// The hashes that lead from the share to the root over all shares.
    ShareHashes,
    /// The extension block, with its length before it.
    Ueb,
}

/// Why a share was not laid out, read or written. Each call tells the first fault, in the order of
/// its documentation.
#[derive(Clone, Copy, Debug, PartialEq, Eq)]
pub enum LayoutError {
    /// A parameter lies outside its range.
    BadParameters,
    /// The file is larger than `ueb::MAX_FILE_SIZE`.
    TooLarge,
    /// There are more than `ueb::MAX_SEGMENTS` segments.
    TooManySegments,
    /// The layout's version is not the one that it has to be.
    BadVersion,
    /// A number of the header is not the one that it has to be, the extension block is too long, or
    /// bytes follow it.
    BadOffset,
    /// The share ends too early: the first byte that is missing belongs to this section.
    Truncated(Section),
    /// The share hashes are of other nodes than the share's, or there is no such share.
    BadShareHashes,
    /// The writer failed.
    WriterFault,
}

impl Section {
    ghost use Rattle.share_layout.specs.Error.{section_name};

    /// The section's name.
    pub fn name(self) -> &'static str
        ensures { result.now ≡ section_name self }
    {
        match self {
            Section::Header => "Header",
            Section::Data => "Data",
            Section::Unused => "Unused",
            Section::CiphertextTree => "CiphertextTree",
            Section::BlockTree => "BlockTree",
            Section::ShareHashes => "ShareHashes",
            Section::Ueb => "Ueb",
        }
    }
}

impl LayoutError {
    ghost use Rattle.share_layout.specs.Error.{number_of};

    /// The number of the refusal.
    pub fn number(self) -> u8
        ensures { result ≡ number_of self }
    {
        match self {
            LayoutError::BadParameters => 2,
            LayoutError::TooLarge => 30,
            LayoutError::TooManySegments => 31,
            LayoutError::BadVersion => 32,
            LayoutError::BadOffset => 33,
            LayoutError::Truncated(_) => 34,
            LayoutError::BadShareHashes => 35,
            LayoutError::WriterFault => 36,
        }
    }
}

impl fmt::Display for LayoutError {
    ghost use Rattle.std.specs.Prelude.{Some};
    ghost use Rattle.share_layout.specs.Error.{name_of};

    ghost output = { λ error. Some (name_of error) };

    fn fmt<W: fmt::Write>(&self, f: &mut fmt::Formatter<W>) -> fmt::Result {
        let (name, section) = match self {
            LayoutError::BadParameters => ("BadParameters", ""),
            LayoutError::TooLarge => ("TooLarge", ""),
            LayoutError::TooManySegments => ("TooManySegments", ""),
            LayoutError::BadVersion => ("BadVersion", ""),
            LayoutError::BadOffset => ("BadOffset", ""),
            LayoutError::Truncated(section) => ("Truncated ", section.name()),
            LayoutError::BadShareHashes => ("BadShareHashes", ""),
            LayoutError::WriterFault => ("WriterFault", ""),
        };
        write!(f, "{name}{section}")
    }
}

impl Error for LayoutError {}
