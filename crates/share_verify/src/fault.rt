//! Why a share does not pass.

use share_layout::LayoutError;
use ueb::UebError;

/// Why a share is not the one that its cap and number ask for. `verify_share` tells the first
/// fault, in the order of its documentation.
#[derive(Clone, Copy, Debug, PartialEq, Eq)]
pub enum ShareFault {
    /// It is not laid out as a share.
    Layout(LayoutError),
    /// The hash of its extension block is not the cap's.
    OtherUeb,
    /// Its extension block is not one of a file with the cap's numbers.
    Ueb(UebError),
    /// The section of the tree that is no longer used holds other bytes than zeros.
    Unused,
    /// The ciphertext tree has wrong inner nodes or padding, or another root than the extension
    /// block's.
    CiphertextTree,
    /// The block tree has wrong inner nodes or padding.
    BlockTree,
    /// The share hashes do not lead from the block tree's root to the extension block's share root.
    ShareHashes,
    /// The hash of a block is not its leaf in the block tree.
    Data,
}
