//! The schedules of eight blocks in a row, side by side (FIPS 180-4, 6.2.2, step 1), with the
//! constants of the rounds added.

ghost use Rattle.std.specs.Prelude.{◌≡◌, ◌+◌, ◌*◌, ◌<◌, ◌≤◌, ℕ, List};
ghost use Rattle.std.specs.Prelude.{drop, length, slice_index, take};
ghost use Rattle.sha2.specs.Sha256.{add32, round_constants};
ghost use Rattle.sha2_lanes.specs.Lanes.{AreSums, AreSumsAt, AreVectors, AreWords, lane};

use crate::round::{K32, next_word};
use crate::words::words;
use std::simd::prelude::*;

// The words of eight blocks in a row.
#[inline(always)]
pub(crate) fn first_words(group: &[u8]) -> [u32x8; 16]
    requires { 512 ≤ length group.now }
    ensures { AreWords (λ j. take 64 (drop (j * 64) group.now)) result }
{
    words(
        &[
            &group[..64],
            &group[64..128],
            &group[128..192],
            &group[192..256],
            &group[256..320],
            &group[320..384],
            &group[384..448],
            &group[448..512],
        ],
        0,
    )
}

// Word `t` of eight schedules, with the constant of its round.
#[inline(always)]
fn with_constant(word: u32x8, t: usize) -> u32x8
    requires long { length word ≡ 8 }
    requires round { t < 64 }
    ensures long { length result ≡ 8 }
    ensures sums { (j : ℕ) → j < 8
        → slice_index result j ≡ add32 (slice_index word j) (slice_index round_constants t) }
{
    word + u32x8::splat(K32[t])
}

// The words of each block, the `position`-th of turn `turn` next: it goes into the ring of the last
// 16 words, and with its round's constant into `all`.
#[inline(always)]
fn make_word(w: &mut [u32x8; 16], all: &mut [u32x8; 64], turn: usize, position: usize)
    requires low { 1 ≤ turn }
    requires high { turn < 4 }
    requires position { position < 16 }
    requires ring { AreVectors 16 w.old }
    requires vectors { AreVectors 64 all.old }
    ensures ring { AreVectors 16 w.new }
    ensures vectors { AreVectors 64 all.new }
    ensures sums { (b : ℕ → List ℕ) → AreSumsAt b w.old all.old (16 * turn + position)
        → AreSumsAt b w.new all.new (16 * turn + (position + 1)) }
{
    let t = 16 * turn + position;
    all[t] = with_constant(next_word(w, position), t);
}

#[inline(always)]
fn make_four(w: &mut [u32x8; 16], all: &mut [u32x8; 64], turn: usize, position: usize)
    requires low { 1 ≤ turn }
    requires high { turn < 4 }
    requires position { position + 4 ≤ 16 }
    requires ring { AreVectors 16 w.old }
    requires vectors { AreVectors 64 all.old }
    ensures ring { AreVectors 16 w.new }
    ensures vectors { AreVectors 64 all.new }
    ensures sums { (b : ℕ → List ℕ) → AreSumsAt b w.old all.old (16 * turn + position)
        → AreSumsAt b w.new all.new (16 * turn + (position + 4)) }
{
    make_word(w, all, turn, position);
    make_word(w, all, turn, position + 1);
    make_word(w, all, turn, position + 2);
    make_word(w, all, turn, position + 3);
}

// Makes the schedules of eight blocks in a row, with the constants of the rounds: lane `j` is that
// of block `j`.
pub(crate) fn make_schedules(group: &[u8], all: &mut [u32x8; 64])
    requires group { 512 ≤ length group.now }
    requires room { AreVectors 64 all.old }
    ensures vectors { AreVectors 64 all.new }
    ensures lanes { (j : ℕ) → j < 8
        → AreSums (take 64 (drop (j * 64) group.now)) (lane all.new j) 64 }
{
    let mut w = first_words(group);
    'first: for t in 0..16 {
        all[t] = with_constant(w[t], t);
    }
    // Sixteen words a turn, so that each word's position in the ring is a constant.
    'words: for turn in 1..4 {
        make_four(&mut w, all, turn, 0);
        make_four(&mut w, all, turn, 4);
        make_four(&mut w, all, turn, 8);
        make_four(&mut w, all, turn, 12);
    }
}
