//! What is known of a file whose bytes were read.

ghost use Rattle.std.specs.Prelude.{◌≡◌};
ghost use Rattle.std.specs.Option.{ForSome};
ghost use Rattle.std.specs.Bool.{OnTrue};
ghost use Rattle.tagged_hash.specs.TaggedHash.{share_digest};
ghost use Rattle.share_files.specs.declared.bytes.Verdict.TheVariants.{Whole};
ghost use Rattle.share_files.specs.Verdict.{IsReadAs};

use std::io::Read;
use std::snapshot::Snapshot;
use wire::message::Digest;

/// That a file was opened whose bytes have a share's digest.
#[derive(Drop)]
pub struct SeenWhole<F: Read> {
    // the file as it was opened
    file: Snapshot<F>,
    digest: Digest,
    ghost whole: { ForSome (F.remaining file.value) (λ bytes. share_digest bytes ≡ digest) },
}

impl<F: Read> SeenWhole<F> {
    // Of this file, which was read to its end.
    pub(crate) fn new(file: Snapshot<F>, digest: Digest) -> SeenWhole<F>
        requires { ForSome (F.remaining file.value) (λ bytes. share_digest bytes ≡ digest) }
    {
        SeenWhole { file, digest }
    }

    /// Is this the digest that its bytes have?
    pub fn is_of(&self, digest: &Digest) -> bool
        ensures { OnTrue result (IsReadAs F.remaining digest.now Whole) }
    {
        self.digest == *digest
    }
}
