//! Laws of a listed switch. Each is the contract of a function that does nothing.

ghost use Rattle.ap_listing.specs.Laws.{LeadsLaw, UnboundLaw, IndexLaw};

/// A switch leads a call to the clauses that its first argument leaves, in order.
pub fn leads_law()
    ensures { LeadsLaw }
{}

/// A switch leads a call whose first argument is a variable to all clauses.
pub fn unbound_law()
    ensures { UnboundLaw }
{}

/// Of the clauses that the index gives for a key the switch leaves out none but those that ask for another one.
pub fn index_law()
    ensures { IndexLaw }
{}
