//! What is said of the pieces of a file's shares. Each law is a contract; its call does nothing.

ghost use Rattle.file_streaming.specs.Piece.{PiecesAreRight};

/// A piece whose blocks have the hashes that are kept is the piece of the file's share, or two
/// different hash inputs with one hash are at hand.
pub fn pieces_are_right()
    ensures { PiecesAreRight }
{}
