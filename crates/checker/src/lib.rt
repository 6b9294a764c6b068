//! Checks of a file's shares by its verify cap: what one asks of servers, and its verdict on each
//! share that they offer.
//!
//! A check asks every server once what it holds, and reads each share offered to its end, in pieces
//! of at most 32,768 bytes. One begun by `start_ahead` asks for several pieces of a share at once,
//! eight at most (`MOST_PIECES`), which costs as many round trips less; others ask for one at a
//! time. Pieces are asked for in order, and their answers may come in any order, late, twice or
//! never: what comes before its turn is kept until then, seven pieces of a share at most. A share
//! ends only once none of its pieces waits, so that its verdict rests on all that was asked of it.
//! The beginning of a share is read one piece at a time, since each tells the next.
//!
//! A share is judged as its bytes come (`share_reading`): of one that is read a check has a hash
//! for each block and the trees, and of one that was read 8 bytes for each read, beside the record,
//! which keeps no bytes of shares. A check begun by `start_keeping` keeps the bytes of the shares
//! too, but for those of one that is not good, for the good shares that it hands out.
//!
//! It begins to read a share while fewer requests wait than there are servers and 64 more, and no
//! more shares at once than may be judged in 64 MiB, with the pieces that may wait for their turn,
//! by the first extension block that was read; before that one at a time. So a server that offers
//! shares and then says nothing holds the others up: until its reads are lost, 20 seconds later,
//! and one after another where no extension block is read yet.
#![tactic(auto)]

mod check;
mod ending;
mod good;
mod hearing;
mod offers;
mod pieces;
mod report;
mod state;
pub mod status;
mod steps;
mod wanted;

pub use check::Check;
pub use wanted::MOST_PIECES;
