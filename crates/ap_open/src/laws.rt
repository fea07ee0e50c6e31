//! Laws, each as the contract of a function that does nothing.

ghost use Rattle.ap_open.specs.Calling.{CallingLaw};
ghost use Rattle.ap_open.specs.InTurn.{InTurnLaw};
ghost use Rattle.ap_open.specs.Moving.{MovingLaw};
ghost use Rattle.ap_open.specs.Reading.{ReadingLaw};
ghost use Rattle.ap_open.specs.Sharing.{OutcomeLaw, SharingLaw};
ghost use Rattle.ap_open.specs.Solving.{BlockLaw, SolvingLaw};

use ap_graft::start_law;
use ap_tied::{beginning_law, resting_law, settling_law, slot_calls_law, stop_calls_law};

/// Moves the innermost section: the search goes on.
pub fn moving_law()
    ensures { MovingLaw }
{
    slot_calls_law();
}

/// Opens a section for a slot, or closes the innermost one: the search goes on.
pub fn calling_law()
    ensures { CallingLaw }
{
    beginning_law();
    slot_calls_law();
    resting_law();
    settling_law();
}

/// Begins the search of a query, and gives its answers.
pub fn solving_law()
    ensures { SolvingLaw }
{
    beginning_law();
    start_law();
    resting_law();
}

/// Ends the search of a query: what was given is a block of it.
pub fn block_law()
    ensures { BlockLaw }
{
    resting_law();
    settling_law();
}

/// Reads groups as conjunctions: the block is one of the program and the query that were read.
pub fn reading_law()
    ensures { ReadingLaw }
{
    start_law();
}

/// Moves and calls open sections whose goals may be away: whatever they are tied to, events lead it to what they are tied to then.
pub fn sharing_law()
    ensures { SharingLaw }
{
    beginning_law();
    slot_calls_law();
    stop_calls_law();
    resting_law();
    settling_law();
}

/// Makes a goal's own search an outcome, which fits wherever that goal was asked for.
pub fn outcome_law()
    ensures { OutcomeLaw }
{
    beginning_law();
    resting_law();
    settling_law();
}

/// Reads groups as their goals in turn: the program and the query stay what was read, and each query is safe.
pub fn in_turn_law()
    ensures { InTurnLaw }
{}
