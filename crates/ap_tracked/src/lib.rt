//! Floor: model. States of the search that keep their groups' texts: groups as marks among goals, and what a certificate
//! is worth at each state that a search comes to.
//!
//! Stands on `ap_term`. Each function here has an empty body; its contract is a law. The crates above use one
//! contract: what the search of a safe state comes to is safe, and its checks go on saying what they say in the clause.
#![tactic(auto)]

ghost use Rattle.ap_tracked.specs.Laws.{TrackedLaw, SafeLaw, MarksLaw, KeptLaw};

/// Searches as without what a state keeps beside its groups.
pub fn tracked_law()
    ensures { TrackedLaw }
{}

/// Keeps safety along the search, and passes it to the goals of a group that comes first.
pub fn safe_law()
    ensures { SafeLaw }
{}

/// Tells the groups of a list of goals, and of its instances, by marks.
pub fn marks_law()
    ensures { MarksLaw }
{}

/// Keeps what a group's checks say, and safety, at each state that a search comes to.
pub fn kept_law()
    ensures { KeptLaw }
{}
