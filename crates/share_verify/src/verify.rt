//! Whether a share is what its file's cap says.

ghost use Rattle.std.specs.Prelude.{◌≡◌, ◌↔◌, IsOk, Err};
ghost use Rattle.share_verify.specs.Verify.{IsFirstFault, IsSoundShare};
ghost use Rattle.share_verify.specs.declared.fault.ShareFault.{ShareFault};

use crate::fault::ShareFault;
use crate::reading::read_share;
use crate::sections::check_view;
use cap_text::VerifyCap;

/// Whether a string is share `num` of the cap's file, as far as the cap tells.
///
/// Otherwise the first fault in this order: `Layout` (40), where no extension block is found by the
/// share's own header; `OtherUeb` and `Ueb` (42), where it is not the cap's; `Layout` (40), where
/// the string is no share of this number under the extension block's geometry; `Unused` (41),
/// `CiphertextTree` (43), `BlockTree` (44), `ShareHashes` (45), `Data` (46).
///
/// A string that passes for the verify cap of a file's encoding is the encoding's share of that
/// number, byte for byte, where no two different strings among the hash inputs of the encoding and
/// of this share have one hash. So the law `file_shares_are_bound` of `file_encoding` says.
pub fn verify_share(cap: &VerifyCap, num: u16, share: &[u8]) -> Result<(), ShareFault>
    ensures sound { IsOk result ↔ IsSoundShare cap.now num share.now }
    ensures refused { (fault : ShareFault) → (result ≡ Err fault)
        ↔ IsFirstFault cap.now num share.now fault }
{
    match read_share(cap, num, share) {
        Ok(read) => check_view(&read.ueb, &read.geometry, num, &read.view),
        Err(fault) => Err(fault),
    }
}
