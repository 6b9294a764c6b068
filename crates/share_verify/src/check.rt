//! The checks of a share.

ghost use Rattle.std.specs.Prelude.{◌≡◌};
ghost use Rattle.share_verify.specs.Checks.{FirstFaultsFail, SoundSharesPass, check_number};
ghost use Rattle.share_verify.specs.Checks.{check_of, fault_number};
ghost use Rattle.share_verify.specs.Inputs.{SoundSharesLead};

use crate::fault::ShareFault;

/// A check of a share, by what it is about.
#[derive(Clone, Copy, Debug, PartialEq, Eq)]
pub enum Check {
    /// The layout: the header, the offsets of the sections and the numbers of the share hashes.
    Layout,
    /// The extension block, against the cap.
    Ueb,
    /// The offset of the tree that is no longer used.
    Unused,
    /// The ciphertext tree, against the extension block's root.
    CiphertextTree,
    /// The block tree.
    BlockTree,
    /// The share hashes, from the block tree's root to the extension block's share root.
    ShareHashes,
    /// The blocks, against the block tree.
    Data,
}

impl Check {
    /// The number of the refusal of a share that does not pass the check.
    pub fn number(self) -> u8
        ensures { result ≡ check_number self }
    {
        match self {
            Check::Layout => 40,
            Check::Unused => 41,
            Check::Ueb => 42,
            Check::CiphertextTree => 43,
            Check::BlockTree => 44,
            Check::ShareHashes => 45,
            Check::Data => 46,
        }
    }
}

impl ShareFault {
    /// The number of the fault, which is its check's.
    pub fn number(self) -> u8
        ensures { result ≡ fault_number self }
    {
        self.check().number()
    }

    /// The check that the fault is of.
    pub fn check(&self) -> Check
        ensures { result ≡ check_of self.now }
    {
        match self {
            ShareFault::Layout(_) => Check::Layout,
            ShareFault::OtherUeb | ShareFault::Ueb(_) => Check::Ueb,
            ShareFault::Unused => Check::Unused,
            ShareFault::CiphertextTree => Check::CiphertextTree,
            ShareFault::BlockTree => Check::BlockTree,
            ShareFault::ShareHashes => Check::ShareHashes,
            ShareFault::Data => Check::Data,
        }
    }
}

/// A law of the definitions: a share that passes `verify_share` passes each check. The law is the
/// contract; the call does nothing.
pub fn sound_shares_pass()
    ensures { SoundSharesPass }
{}

/// A law of the definitions: the fault that `verify_share` tells is one of a check that the share
/// does not pass. The law is the contract; the call does nothing.
pub fn first_faults_fail()
    ensures { FirstFaultsFail }
{}

/// A law of the definitions: what is hashed for a share that passes `verify_share` leads to what
/// its extension block tells. The law is the contract; the call does nothing.
pub fn sound_shares_lead()
    ensures { SoundSharesLead }
{}
