//! Laws of the definitions. Each is the contract of a function that does nothing.

ghost use Rattle.ap_fixpoint.specs.Laws.{ClosedLaw, TableLaw, OneTableLaw};

/// The table covers all that is given to it.
pub fn closed_law()
    ensures { ClosedLaw }
{}

/// There is such a table, whatever the program and its entries.
pub fn table_law()
    ensures { TableLaw }
{}

/// There is no other one.
pub fn one_table_law()
    ensures { OneTableLaw }
{}
