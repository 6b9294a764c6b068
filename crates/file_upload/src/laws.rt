//! What an upload of a file that is not held has to do with the file's encoding. The law is a
//! contract; its call does nothing.

ghost use Rattle.file_upload.specs.Laws.{GoalsAreOne};
ghost use Rattle.file_upload.specs.RemadeStream.{RemadeGoalsAreOne};

/// By what is kept of a file the same is to be placed as by its whole shares: their digests and
/// their length, for the file's verify cap.
pub fn goals_are_one()
    ensures { GoalsAreOne }
{}

/// By what is kept of a padded ciphertext the same is to be placed as by its whole shares: their
/// digests and their length, for the verify cap.
pub fn remade_goals_are_one()
    ensures { RemadeGoalsAreOne }
{}
