//! The law of programs that are alike.

ghost use Rattle.ap_alike.specs.Laws.{AlikeLaw};

/// What is made of one program is made of another one that is alike.
pub fn alike_law()
    ensures { AlikeLaw }
{}
