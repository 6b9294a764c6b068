//! What holds of passes over sources. Each law is a contract; its call does nothing.

ghost use Rattle.sources.specs.Laws.{ChangesAreBrought, TextsStay, UnlikePassesDiffer};

use crate::source::Source;

/// Two passes over one source that brought different bytes brought them for one offset.
pub fn unlike_passes_differ<S: Source>()
    ensures { UnlikePassesDiffer S.gives }
{}

/// A pass over a text in memory brings that text.
pub fn texts_stay()
    ensures { TextsStay }
{}

/// A pass over a source that changes brings so many bytes of the one text as it has left, and then
/// the other.
pub fn changes_are_brought()
    ensures { ChangesAreBrought }
{}
