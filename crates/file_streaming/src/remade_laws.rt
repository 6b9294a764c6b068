//! What is said of shares that are made anew. Each law is a contract; its call does nothing.

ghost use Rattle.file_streaming.specs.Remade.{PiecesAreRemade, TextsPass};

/// The shares of a padded ciphertext whose roots are those that a cap's extension block
/// tells pass `verify_share`, each with its own number, and have one length.
pub fn texts_pass()
    ensures { TextsPass }
{}

/// For each padded ciphertext whose hashes are kept, a piece is that of its share, or one of
/// the blocks that it is made of is not the share's and has its hash.
pub fn pieces_are_remade()
    ensures { PiecesAreRemade }
{}
