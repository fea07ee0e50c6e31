//! What is given to a slot, unless its pattern covers it.

ghost use Rattle.std.specs.Prelude.{◌≡◌, ◌++◌, ◌∷◌, [], OnOk};
ghost use Rattle.ap_absunify.specs.declared.states.State.TheVariants.{Unreachable};
ghost use Rattle.ap_patterns.specs.Given.{patterns};
ghost use Rattle.ap_fixpoint.specs.Uncovered.{uncovered};

use ap_absunify::State;
use ap_patterns::{Given, Table, is_covered, pattern_at};
use ap_term::NoMemory;

/// Puts in what is given, unless the table covers it.
pub fn add_uncovered(table: &Table, g: Given, given: &mut Vec<Given>) -> Result<(), NoMemory>
    ensures { OnOk result (given.new.items ≡ given.old.items ++ uncovered (patterns table.now) (g ∷ [])) }
{
    let unreachable = State::Unreachable;
    if !is_covered(&g.pattern, pattern_at(table, g.slot, &unreachable)) {
        given.push(g)?;
    }
    Ok(())
}
