//! How many turns of the loop a command takes.

ghost use Rattle.std.specs.Prelude.{◌≡◌, ◌≤◌, ◌^◌};
ghost use Rattle.grid_rules.specs.Turns.{piece_count, turn_limit};

/// How many bytes of a share one message carries.
const PIECE: u64 = 32_768;

/// How many turns each piece may take: it is sent again up to three times.
const TURNS_OF_A_PIECE: u64 = 4;

/// How many turns any command may take.
const FEWEST_TURNS: u64 = 100_000_000;

/// How many turns of the loop a command may take that carries so many shares of so many bytes each:
/// four for each piece of 32,768 bytes, and at least 100,000,000. A loop without an end ends then.
pub fn turn_limit(shares: u64, share_length: u64) -> u64
    ensures { result ≡ turn_limit (piece_count shares share_length) }
{
    let pieces = shares.saturating_mul(share_length.div_ceil(PIECE));
    pieces.saturating_mul(TURNS_OF_A_PIECE).max(FEWEST_TURNS)
}
