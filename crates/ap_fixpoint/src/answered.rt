//! Programs the goals of whose groups have answers.

ghost use Rattle.std.specs.Prelude.{◌≡◌, true, map};
ghost use Rattle.std.specs.List.{list_all};
ghost use Rattle.ap_term.specs.TermView.{tree_of, trees_of};
ghost use Rattle.ap_term.specs.GoalView.{part_of};
ghost use Rattle.ap_cge.specs.Stripped.{stripped};
ghost use Rattle.ap_patterns.specs.Given.{patterns};
ghost use Rattle.ap_fixpoint.specs.Answered.{is_answered, are_answered, is_part_answered, is_body_answered, all_answered};
ghost use Rattle.ap_fixpoint.specs.Fix.{IsFix};

use ap_absunify::State;
use ap_patterns::{Entries, Table, success_at};
use ap_term::{Clause, Part, Term};

/// Whether a goal's predicate has an answer as far as the table tells.
fn is_answered(table: &Table, goal: &Term) -> bool
    ensures { result ≡ is_answered (patterns table.now) (tree_of goal.now) }
{
    match success_at(table, goal) {
        Some(success) => matches!(success, State::Reachable { .. }),
        None => false,
    }
}

fn are_answered(table: &Table, goals: &[Term]) -> bool
    ensures { result ≡ are_answered (patterns table.now) (trees_of goals.now) }
{
    for goal in goals {
        if !is_answered(table, goal) {
            return false;
        }
    }
    true
}

/// Whether each goal of a group has an answer.
fn is_part_answered(table: &Table, part: &Part) -> bool
    ensures { result ≡ is_part_answered (patterns table.now) (part_of part.now) }
{
    match part {
        Part::Call(_) => true,
        Part::Group { calls, .. } => are_answered(table, calls.as_slice()),
    }
}

fn is_body_answered(table: &Table, parts: &[Part]) -> bool
    ensures { result ≡ is_body_answered (patterns table.now) (map part_of parts.now) }
{
    for part in parts {
        if !is_part_answered(table, part) {
            return false;
        }
    }
    true
}

fn all_answered(table: &Table, clauses: &[Clause]) -> bool
    ensures { result ≡ all_answered (patterns table.now) clauses.now }
{
    for clause in clauses {
        if !is_body_answered(table, clause.body().as_slice()) {
            return false;
        }
    }
    true
}

/// Whether the table of a program without its groups is surely that of the program too: it is entered by any call, and
/// each goal of a group has an answer, so a clause, so that it is called with anything from the first round on.
pub fn is_table_with_groups(table: &Table, entries: &Entries, clauses: &[Clause]) -> bool
    ensures { result ≡ true → IsFix entries.now (stripped clauses.now) (patterns table.now) → IsFix entries.now clauses.now (patterns table.now) }
{
    match entries {
        Entries::All => all_answered(table, clauses),
        Entries::One(_) | Entries::Query => false,
    }
}
