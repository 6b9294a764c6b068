//! What stands in a greeting, and which two fit.

ghost use Rattle.std.specs.Prelude.{◌≡◌, ◌≤◌, ◌↔◌, IfOk, IsTrue, length};
ghost use Rattle.connections.specs.Greetings.{Fits, greeting_of, greeting_with};

use cap_text::CapError;
use grid_marks::Mark;
use std::alloc::Global;

/// How many bytes a greeting has.
pub const GREETING_SIZE: usize = 64;

/// What an end of a connection says before its frames.
pub type Greeting = [u8; GREETING_SIZE];

// How each greeting begins: a name that no other protocol has, and the version of the frames.
const VERSION: &str = "grid-frames 1 ";

const VERSION_SIZE: usize = 14;

// The greeting of a client that wants no mark, and of a server that has none.
const UNMARKED: &Greeting = b"grid-frames 1 no mark\n                                          ";

/// The greeting of a client that wants this mark, or none, and of a server that has it, or none.
/// Nothing but memory is refused.
pub fn greeting(alloc: Global, mark: Option<Mark>) -> Result<Greeting, CapError>
    ensures { IfOk result (λ greeting. greeting ≡ greeting_of mark) }
{
    match mark {
        None => Ok(*UNMARKED),
        Some(mark) => Ok(greeting_with(mark.text(alloc)?.as_bytes())),
    }
}

// The greeting of an end that tells this line.
fn greeting_with(line: &[u8]) -> Greeting
    requires { length line.now ≤ 50 }
    ensures { result ≡ greeting_with line.now }
{
    let mut greeting = [b' '; GREETING_SIZE];
    greeting[..VERSION_SIZE].copy_from_slice(VERSION.as_bytes());
    greeting[VERSION_SIZE..VERSION_SIZE + line.len()].copy_from_slice(line);
    greeting
}

/// Whether a client with the one greeting and a server with the other fit. Both ends ask this of
/// the same two texts.
pub fn fits(client: &Greeting, server: &Greeting) -> bool
    ensures { IsTrue result ↔ Fits client.now server.now }
{
    client == server || (client == UNMARKED && server.starts_with(VERSION.as_bytes()))
}
