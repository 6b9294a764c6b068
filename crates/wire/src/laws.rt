//! What holds of frames and streams, whoever reads or writes them. Each law is a contract; its call
//! does nothing.

ghost use Rattle.std.specs.Prelude.{◌≡◌, ◌++◌, ℕ, List, All};
ghost use Rattle.wire.specs.Frames.{IsBodyOf, IsMessage, frame};
ghost use Rattle.wire.specs.Stream.{HasNoMessage, stream};
ghost use Rattle.wire.specs.declared.message.Message.{Message};

/// A body spells one message alone.
pub fn spelled_once()
    ensures { (m n : Message) (bytes : List ℕ) → IsBodyOf m bytes → IsBodyOf n bytes → m ≡ n }
{}

/// No frame begins another: where two frames begin the same bytes, they are one message's.
pub fn no_frame_begins_another()
    ensures { (m n : Message) (x y : List ℕ) → IsMessage m → IsMessage n
        → frame m ++ x ≡ frame n ++ y → (m ≡ n) × (x ≡ y) }
{}

/// A stream has one reading: the messages that its frames are, up to where no message follows, and
/// what stands there, are the same whoever reads them and however the stream was cut into pieces.
pub fn one_reading()
    ensures { (ms ns : List Message) (r s : List ℕ) → All IsMessage ms → All IsMessage ns
        → HasNoMessage r → HasNoMessage s → stream ms r ≡ stream ns s → (ms ≡ ns) × (r ≡ s) }
{}
