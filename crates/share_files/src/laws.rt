//! That other programs reckon with what is done to share files. Each law is a contract; its call
//! does nothing. They hold where of the files of shares whole closed ones alone are relied on.

ghost use Rattle.share_files.specs.Polite.{ClosedMayGo, HalfMayGo, HalfMayReturn, LeftMayGo};
ghost use Rattle.share_files.specs.Polite.{PlaceMayBeMade, WholeComesBack};

/// A closed share's file that is damaged, or is not relied on, gets a name on its way to be set
/// aside.
pub fn closed_may_go()
    ensures { ClosedMayGo }
{}

/// From there it gets one of those that are set aside.
pub fn half_may_go()
    ensures { HalfMayGo }
{}

/// Or its closed name, where it is a whole share.
pub fn half_may_return()
    ensures { HalfMayReturn }
{}

/// An open file, or an empty one that was made in vain, is removed.
pub fn left_may_go()
    ensures { LeftMayGo }
{}

/// A file is made where nothing stands.
pub fn place_may_be_made()
    ensures { PlaceMayBeMade }
{}

/// A whole share that was taken all the same is not lost, and comes back.
pub fn whole_comes_back()
    ensures { WholeComesBack }
{}
