//! Files that are encoded segment by segment: of a file that is made ready for its upload only
//! hashes are kept, and its shares are made again piece by piece.
#![tactic(auto)]

mod error;
mod finishing;
mod first_pass;
mod gathering;
mod geometry;
mod laws;
mod passes;
mod prepared;
mod remade;
mod remade_ending;
mod remade_laws;
mod remake_error;
mod remaking;

pub use block_making::PieceError;
pub use error::PrepareError;
pub use laws::pieces_are_right;
pub use prepared::{Prepared, prepare};
pub use remade::{RemadeFile, padded_size, prepare_remade};
pub use remade_laws::{pieces_are_remade, texts_pass};
pub use remake_error::RemakeError;
