//! Laws of the definitions. Each is the contract of a function that does nothing.

ghost use Rattle.ap_sharing.specs.Laws.{CanonicalLaw, JoinLaw, FormLaw, ClosureLaw, PairsLaw, CoveringLaw, SharingLaw};

/// Sets, and lists of sets, with the same members are equal.
pub fn canonical_law()
    ensures { CanonicalLaw }
{}

/// Joined lists have the sets of both.
pub fn join_law()
    ensures { JoinLaw }
{}

/// A Share is kept in one form.
pub fn form_law()
    ensures { FormLaw }
{}

/// The closure is the least list that has the sets and is closed under union.
pub fn closure_law()
    ensures { ClosureLaw }
{}

/// The pairs are the unions of one set of each list.
pub fn pairs_law()
    ensures { PairsLaw }
{}

/// What is covered stays covered.
pub fn covering_law()
    ensures { CoveringLaw }
{}

/// Variables that no member has together have no variable in common, and one that no member has is ground.
pub fn sharing_law()
    ensures { SharingLaw }
{}
