//! What the entries of a program give to the patterns of a table.

ghost use Rattle.std.specs.Prelude.{◌≡◌, ◌++◌, [], ◌∷◌, IfOk, OnOk};
ghost use Rattle.ap_patterns.specs.Given.{given_by_heads, given_by_entries};
ghost use Rattle.ap_patterns.specs.declared.slots.Slot.TheVariants.{Call};
ghost use Rattle.ap_term.specs.declared.fixed.TheConstants.{QUERY};
ghost use Rattle.ap_patterns.specs.Entry.{IsMarked};

use ap_patterns::{Entries, Given, Predicate, Slot, any_pattern, arity, query_call};
use ap_term::{Clause, NoMemory, Program};
use std::alloc::Global;

/// Puts in a call with anything of the head's predicate.
#[tactic(auto, using(crate::proofs::Formed::rules_of_clauses))]
fn add_head(alloc: Global, clause: &Clause, given: &mut Vec<Given>) -> Result<(), NoMemory>
    ensures { OnOk result (given.new.items ≡ given.old.items ++ given_by_heads (clause.now ∷ [])) }
{
    let head = clause.head();
    let Some(predicate) = Predicate::of(head) else {
        return Ok(());
    };
    let pattern = any_pattern(alloc, arity(head));
    let slot = Slot::Call(predicate);
    given.push(Given { slot, pattern })?;
    Ok(())
}

/// Puts in a call with anything of each predicate that has a clause.
fn add_heads(alloc: Global, clauses: &[Clause], given: &mut Vec<Given>) -> Result<(), NoMemory>
    ensures { OnOk result (given.new.items ≡ given.old.items ++ given_by_heads clauses.now) }
{
    for clause in clauses {
        add_head(alloc, clause, given)?;
    }
    Ok(())
}

/// The calls with which a program is entered.
pub fn given_by_entries(
    alloc: Global,
    entries: &Entries,
    program: &Program,
) -> Result<Vec<Given>, NoMemory>
    requires { IsMarked entries.now }
    ensures { IfOk result (λ r. r.items ≡ given_by_entries entries.now program.now) }
{
    let mut given = Vec::new(alloc);
    match entries {
        Entries::All => {
            add_heads(alloc, program.as_slice(), &mut given)?;
            Ok(given)
        }
        Entries::One(entry) => {
            given.push(entry.call(alloc)?)?;
            Ok(given)
        }
        Entries::Query => {
            given.push(query_call(alloc))?;
            Ok(given)
        }
    }
}
