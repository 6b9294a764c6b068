//! What holds of greetings. Each law is a contract; its call does nothing.

ghost use Rattle.std.specs.Prelude.{◌≡◌, None, Option, Some};
ghost use Rattle.grid_marks.specs.Marks.{IsMark};
ghost use Rattle.grid_marks.specs.declared.mark.Mark.{Mark};
ghost use Rattle.connections.specs.Greetings.{Fits, MayBeMark, greeting_of};

/// A client and a server of one mark fit, and so do two of none.
pub fn own_greeting_fits()
    ensures { (mark : Option Mark) → Fits (greeting_of mark) (greeting_of mark) }
{}

/// A client that wants no mark fits with a server of any.
pub fn any_server_fits_no_mark()
    ensures { (mark : Option Mark) → Fits (greeting_of None) (greeting_of mark) }
{}

/// A client that wants a mark fits with the servers of this mark alone.
pub fn wanted_mark_fits_alone()
    ensures { (wanted : Mark) (mark : Option Mark) → IsMark wanted → MayBeMark mark
        → Fits (greeting_of (Some wanted)) (greeting_of mark) → mark ≡ Some wanted }
{}
