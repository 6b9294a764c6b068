// All shares of a file, made anew of others without the key.

ghost use Rattle.std.specs.Prelude.{◌≡◌, ◌≤◌, ◌<◌, ◌⊎◌, ◌↔◌, ℕ, List, map, IfOk, IfErr, IsErrAnd};
ghost use Rattle.std.specs.Prelude.{[], IsErrOf, IsTrue, MatchResult, slice_index_or};
ghost use Rattle.cap_text.specs.Cap.{VerifyCapValue};
ghost use Rattle.merkle.specs.Tree.{tree_root};
ghost use Rattle.share_verify.specs.Verify.{IsSoundShare};
ghost use Rattle.file_encoding.specs.Decoded.{AreMade, IsDecodedFrom};
ghost use Rattle.file_encoding.specs.Encoding.{Parameters, encoding_of};
ghost use Rattle.file_encoding.specs.GoodShares.{AreEnoughGoodShares};
ghost use Rattle.file_encoding.specs.Reading.{LacksShares};
ghost use Rattle.file_encoding.specs.Refusals.{regenerate_refusal_number};
ghost use Rattle.file_encoding.specs.Regenerated.{AreRegenerated, CannotRegenerate};
ghost use Rattle.file_encoding.specs.Regenerated.{IsRegenerated};
ghost use Rattle.file_encoding.specs.RemadeLaws.{ArePassing};

use crate::decoded::{DecodedFile, decode_shares};
use crate::encoding::begin_file;
use crate::reading::ReadError;
use crate::share::Share;
use crate::shares::{build_share_tree, finish_shares};
use cap_text::VerifyCap;
use merkle::Tree;
use std::alloc::Global;

/// Why a share is not made anew.
#[derive(Clone, Copy, Debug, PartialEq, Eq)]
pub enum RegenerateError {
    /// No memory was left.
    OutOfMemory,
    /// The file has no share of this number.
    BadNumber,
    /// Fewer shares pass every check than are needed.
    NotEnoughShares,
    /// The shares pass, but they contradict one another, or are no code word of the file.
    Inconsistent,
}

impl RegenerateError {
    /// The number of the refusal.
    pub fn number(self) -> u8
        ensures { result ≡ regenerate_refusal_number self }
    {
        match self {
            RegenerateError::OutOfMemory => 1,
            RegenerateError::BadNumber => 2,
            RegenerateError::NotEnoughShares => 71,
            RegenerateError::Inconsistent => 72,
        }
    }
}

impl From<ReadError> for RegenerateError {
    ghost use Rattle.file_encoding.specs.RegenerateError.{refusal_of_all};

    ghost from_gives = { λ error refusal. refusal ≡ refusal_of_all error };

    fn from(error: ReadError) -> RegenerateError {
        match error {
            ReadError::OutOfMemory => RegenerateError::OutOfMemory,
            ReadError::NotEnoughShares => RegenerateError::NotEnoughShares,
            ReadError::Inconsistent => RegenerateError::Inconsistent,
        }
    }
}

/// The share of a verify cap's file with this number, as `regenerate_all` makes it. Refuses
/// `BadNumber` exactly where the file has none of this number, and then as `regenerate_all` does.
pub fn regenerate(
    alloc: Global,
    cap: &VerifyCap,
    shares: &[(u16, &[u8])],
    num: u16,
) -> Result<Vec<u8>, RegenerateError>
    ensures share { IfOk result (λ share. IsRegenerated cap.now (map (λ s. s.0) shares.now)
        (map (λ s. s.1.now) shares.now) num share.items) }
    // Of enough good shares of an encoding it is the encoding's own, and always comes, but where no
    // memory is left.
    ensures own { (file secret : List ℕ) (p : Parameters) → AreEnoughGoodShares file secret p
        cap.now (map (λ s. s.0) shares.now) (map (λ s. s.1.now) shares.now)
        → num < cap.now.total → MatchResult result
        (λ share. share.items ≡ slice_index_or (encoding_of file secret p).shares num [])
        (λ e. e ≡ RegenerateError.OutOfMemory) }
    ensures passes { IfOk result (λ share. IsSoundShare cap.now num share.items) }
    ensures bad_number { IsErrOf result RegenerateError.BadNumber ↔ (cap.now.total ≤ num) }
    // Of too few shares nothing else comes, but where no memory is left.
    ensures lacking { num < cap.now.total → LacksShares cap.now (map (λ s. s.0) shares.now)
        (map (λ s. s.1.now) shares.now)
        → IsErrAnd result (λ e. (e ≡ RegenerateError.NotEnoughShares)
        ⊎ (e ≡ RegenerateError.OutOfMemory)) }
    ensures not_enough { IsErrOf result RegenerateError.NotEnoughShares
        → LacksShares cap.now (map (λ s. s.0) shares.now) (map (λ s. s.1.now) shares.now) }
    ensures inconsistent { IsErrOf result RegenerateError.Inconsistent
        → CannotRegenerate cap.now (map (λ s. s.0) shares.now) (map (λ s. s.1.now) shares.now) }
{
    if num >= cap.total() {
        return Err(RegenerateError::BadNumber);
    }
    let mut made = regenerate_all(alloc, cap, shares)?;
    Ok(made.swap_remove(usize::from(num)).into_vec())
}

/// All shares of a verify cap's file, by number, made anew without its key, from the shares that
/// `read_from` takes. Whoever owns these can let them go between `decode_shares` and
/// `DecodedFile::make_shares`, of which it is made.
///
/// Refuses `NotEnoughShares` exactly where `read_from` does, and
/// `Inconsistent` where the shares that are taken contradict one another, or the root over the
/// shares that are made is not the one that the extension block tells.
pub fn regenerate_all(
    alloc: Global,
    cap: &VerifyCap,
    shares: &[(u16, &[u8])],
) -> Result<Vec<Share>, ReadError>
    ensures made { IfOk result (λ made. AreRegenerated cap.now (map (λ s. s.0) shares.now)
        (map (λ s. s.1.now) shares.now) made.items) }
    // Of enough good shares of an encoding they are the encoding's own, and always come, but where
    // no memory is left.
    ensures own { (file secret : List ℕ) (p : Parameters) → AreEnoughGoodShares file secret p
        cap.now (map (λ s. s.0) shares.now) (map (λ s. s.1.now) shares.now) → MatchResult result
        (λ made. made.items ≡ (encoding_of file secret p).shares)
        (λ e. e ≡ ReadError.OutOfMemory) }
    ensures pass { IfOk result (λ made. ArePassing cap.now made.items) }
    ensures not_enough { IsErrOf result ReadError.NotEnoughShares
        → LacksShares cap.now (map (λ s. s.0) shares.now) (map (λ s. s.1.now) shares.now) }
    // Of too few shares nothing else comes, but where no memory is left.
    ensures lacking { LacksShares cap.now (map (λ s. s.0) shares.now)
        (map (λ s. s.1.now) shares.now)
        → IsErrAnd result (λ e. (e ≡ ReadError.NotEnoughShares) ⊎ (e ≡ ReadError.OutOfMemory)) }
    ensures inconsistent { IsErrOf result ReadError.Inconsistent
        → CannotRegenerate cap.now (map (λ s. s.0) shares.now) (map (λ s. s.1.now) shares.now) }
{
    let file = decode_shares(alloc, cap, shares)?;
    file.make_shares(alloc)
}

impl DecodedFile {
    /// All shares of the file, by number, made anew without its key in one pass over its segments.
    /// The extension block is copied.
    ///
    /// Refuses `Inconsistent` where the root over the shares is not the one that the extension
    /// block tells, and `OutOfMemory`.
    pub fn make_shares(&self, alloc: Global) -> Result<Vec<Share>, ReadError>
        ensures made { IfOk result (λ shares. AreMade self.now shares.items) }
        ensures regenerated { (cap : VerifyCapValue) (numbers : List ℕ)
            (strings : List (List ℕ)) → IsDecodedFrom cap numbers strings self.now
            → IfOk result (λ shares. AreRegenerated cap numbers strings shares.items) }
        // Of enough good shares of an encoding they are the encoding's own, and always come, but
        // where no memory is left.
        ensures own { (cap : VerifyCapValue) (numbers : List ℕ) (strings : List (List ℕ))
            → IsDecodedFrom cap numbers strings self.now → (file secret : List ℕ)
            (p : Parameters) → AreEnoughGoodShares file secret p cap numbers strings
            → MatchResult result (λ shares. shares.items ≡ (encoding_of file secret p).shares)
            (λ e. e ≡ ReadError.OutOfMemory) }
        ensures pass { (cap : VerifyCapValue) (numbers : List ℕ) (strings : List (List ℕ))
            → IsDecodedFrom cap numbers strings self.now
            → IfOk result (λ shares. ArePassing cap shares.items) }
        ensures inconsistent { (cap : VerifyCapValue) (numbers : List ℕ)
            (strings : List (List ℕ)) → IsDecodedFrom cap numbers strings self.now
            → IsErrOf result ReadError.Inconsistent → CannotRegenerate cap numbers strings }
        ensures no_other { IfErr result (λ e. (e ≡ ReadError.OutOfMemory)
            ⊎ (e ≡ ReadError.Inconsistent)) }
    {
        let ciphertext_tree = Tree::build(alloc, &self.leaves)?;
        let begun = begin_file(alloc, &self.geometry, &self.text, &ciphertext_tree)?;
        let share_tree = build_share_tree(alloc, &begun)?;
        if !is_root(&share_tree, &self.share_root) {
            return Err(ReadError::Inconsistent);
        }
        Ok(finish_shares(alloc, begun, &share_tree, &self.extension_block)?)
    }
}

// Whether this is the root of a tree.
fn is_root(tree: &Tree, root: &[u8; 32]) -> bool
    ensures { IsTrue result ↔ (tree_root tree.now ≡ root.now) }
{
    tree.root() == *root
}
