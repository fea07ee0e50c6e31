//! Laws of the definitions. Each is the contract of a function that does nothing.

ghost use Rattle.ap_certify.specs.Laws.{SoundLaw, UnrefusedLaw, DifferLaw, StrictLaw, SafeLaw};

/// A table that covers all that is given to it, and gives what the groups leave out, makes the program sound.
pub fn sound_law()
    ensures { SoundLaw }
{}

/// A program is refused for want of memory alone where the table covers all that is given to it, and gives what the
/// groups leave out.
pub fn unrefused_law()
    ensures { UnrefusedLaw }
{}

/// The pattern of a table that is refused, and what is given to it, differ.
pub fn differ_law()
    ensures { DifferLaw }
{}

/// Where the checks that aren't written hold, and the written ones do, the goals are strictly independent.
pub fn strict_law()
    ensures { StrictLaw }
{}

/// The search of each query for which a program is certified is safe.
pub fn safe_law()
    ensures { SafeLaw }
{}
