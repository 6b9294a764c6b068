//! Laws of the definitions. Each call does nothing: the law is its contract.

ghost use Rattle.catalogues.specs.Laws.{CataloguesAreOne, LinesAreOne, LinesAreRead};

/// What is written for a cap and a name is read back, whatever follows it.
pub fn lines_are_read()
    ensures { LinesAreRead }
{}

/// No line begins another: no text is that of two caps, or of two names.
pub fn lines_are_one()
    ensures { LinesAreOne }
{}

/// A text is the catalogue of one first line and of one list of files.
pub fn catalogues_are_one()
    ensures { CataloguesAreOne }
{}
