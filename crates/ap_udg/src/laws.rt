//! Laws of the definitions. Each is the contract of a function that does nothing.

ghost use Rattle.ap_udg.specs.Laws.{AnnotatedLaw, OneAnnotatedLaw};

/// Without its groups the annotated program is the program, and which groups are made.
pub fn annotated_law()
    ensures { AnnotatedLaw }
{}

/// By a rule and a table a program has one annotation, and no other one.
pub fn one_annotated_law()
    ensures { OneAnnotatedLaw }
{}
