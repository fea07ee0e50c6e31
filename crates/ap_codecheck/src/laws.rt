//! What a machine has of sound code, each law as the contract of a function without a body.

ghost use Rattle.ap_codecheck.specs.Laws.{PlaceLaw, WayLaw, ArgumentsLaw, UnsetLaw, LaidLaw};

/// Wherever control comes to, an instruction of the predicate stands that keeps every rule.
pub fn place_law()
    ensures { PlaceLaw }
{}

/// Control comes to where a clause begins, and from there on to where its instructions lead.
pub fn way_law()
    ensures { WayLaw }
{}

/// A structure has its arguments behind it.
pub fn arguments_law()
    ensures { ArgumentsLaw }
{}

/// What code asks for doesn't depend on what registers hold that aren't set.
pub fn unset_law()
    ensures { UnsetLaw }
{}

/// Code that is laid out clause by clause, each clause a walk, is sound, so no rule of it is named as broken.
pub fn laid_law()
    ensures { LaidLaw }
{}
