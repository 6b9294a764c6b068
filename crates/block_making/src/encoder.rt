//! What segments are encrypted and encoded by, eight blocks of one length side by side.

ghost use Rattle.std.specs.Prelude.{◌≡◌, ◌+◌, ◌*◌, ◌<◌, ◌≤◌, ◌≢◌, ℕ, drop, length, take};
ghost use Rattle.zfec_code.specs.ShareValue.{share_block};

use aes_ctr::Aes128;
use zfec_code::Code;

/// What segments are encrypted and encoded by. Without a cipher they are ciphertext already.
#[derive(Drop)]
pub struct Encoder {
    pub code: Code,
    pub cipher: Option<Aes128>,
}

/// The block in this lane, of lanes of `size` bytes that stand one after another.
pub fn lane_of(lanes: &[u8], size: usize, lane: usize) -> &[u8]
    requires { lane * size + size ≤ length lanes.now }
    ensures value { result.now ≡ take size (drop (lane * size) lanes.now) }
    ensures long { length result.now ≡ size }
{
    let start = lane * size;
    &lanes[start..start + size]
}

/// Writes a share's block of a padded segment into a lane of `size` bytes. Other lanes stay.
pub fn encode_lane(
    code: &Code,
    padded: &[u8],
    share: u16,
    size: usize,
    lane: usize,
    lanes: &mut [u8],
)
    requires some { 0 < code.now.k }
    requires small { code.now.k ≤ 256 }
    requires share { share < code.now.n }
    requires padded { length padded.now ≡ code.now.k * size }
    requires room { lane * size + size ≤ length lanes.old }
    ensures block { take size (drop (lane * size) lanes.new)
        ≡ share_block code.now.k share size padded.now }
    ensures others { (i : ℕ) → i ≢ lane → take size (drop (i * size) lanes.new)
        ≡ take size (drop (i * size) lanes.old) }
{
    let start = lane * size;
    code.encode(padded, share, &mut lanes[start..start + size]);
}
