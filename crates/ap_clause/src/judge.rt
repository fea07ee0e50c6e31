//! The verdict on a clause by its term: too many names, a name from outside, too large.

ghost use Rattle.std.specs.Prelude.{◌≡◌, ℕ, ◌+◌, ◌≤◌, not, nat_lt, length, true, IfOk};
ghost use Rattle.ap_term.specs.AtomTable.{capacity};
ghost use Rattle.ap_term.specs.Tree.{Tree};
ghost use Rattle.ap_term.specs.TermView.{tree_of};
ghost use Rattle.ap_reader.specs.Leaves.{texts};
ghost use Rattle.ap_lifting.specs.BodyView.{body_if};
ghost use Rattle.ap_lifting.specs.Rule.{IsRule};
ghost use Rattle.ap_lifting.specs.Sizes.{predicates_if};
ghost use Rattle.ap_clause.specs.Clause.{rule_of};
ghost use Rattle.ap_clause.specs.Limit as limit;
ghost use Rattle.ap_clause.specs.Reads as spec;
ghost use Rattle.ap_clause.specs.Verdict.{CanBeRule, LimitedAs, IsCounted, Gives};

use crate::clause::halves;
use crate::limit::{MAX_CLAUSES, MAX_GOALS, MAX_GROUP, MAX_VARIABLES, is_narrow};
use crate::outside::first_outside;
use crate::refusal::{Refusal, What};
use crate::source::Source;
use ap_lifting::{Rule, RuleBody, Sizes, predicates_of, sizes_of};
use ap_reader::own_names;
use ap_term::{Atom, Atoms, MAX_ATOMS, Name, NoMemory, Term, fixed};
use std::alloc::Global;

/// How many predicates were lifted and clauses made before a clause.
#[derive(Clone, Copy)]
pub struct Counts {
    pub lifted: u64,
    pub clauses: u64,
}

/// A clause that was read, the names of its variables as they stand in the text, and the counts behind it.
#[derive(Drop)]
pub struct Read<'a> {
    pub rule: Rule,
    pub names: Vec<&'a str>,
    pub counts: Counts,
}

/// Whether the table has room for so many more names.
fn has_room(atoms: &Atoms, more: u64) -> bool
    ensures { nat_lt capacity (length atoms.now + more) ≡ not result }
{
    let capacity = (fixed::COUNT + MAX_ATOMS) as u64;
    if more > capacity {
        return false;
    }
    atoms.get(Atom::at((capacity - more) as u32)).is_none()
}

fn own_clauses(source: Source) -> u64
    ensures { result ≡ limit.own_clauses source }
{
    match source {
        Source::Program => 1,
        Source::Query => 0,
    }
}

/// The first limit that what lifting makes of a clause passes.
fn passed_lifted(sizes: Sizes, clauses: u64) -> Option<What>
    ensures { result ≡ limit.passed_sizes sizes.goals sizes.group clauses }
{
    if sizes.goals > MAX_GOALS {
        Some(What::Goals)
    } else if sizes.group > MAX_GROUP {
        Some(What::Group)
    } else if clauses > MAX_CLAUSES {
        Some(What::Clauses)
    } else {
        None
    }
}

/// The clause of a head and a body, and how many clauses there are with it; or what is too large. It is known of
/// their term whether it is narrow.
fn limited(
    source: Source,
    narrow: bool,
    halves: (Term, RuleBody),
    vars: usize,
    line: u64,
    before: u64,
) -> Result<(Rule, u64), What>
    requires { vars ≤ MAX_VARIABLES → narrow ≡ true → IsRule (rule_of (tree_of halves.0, body_if halves.1) vars line) }
    ensures { (t : Tree) → narrow ≡ limit.is_narrow t → LimitedAs source t (rule_of (tree_of halves.0, body_if halves.1) vars line) before result }
{
    if vars > MAX_VARIABLES {
        return Err(What::Variables);
    }
    if !narrow {
        return Err(What::Arity);
    }
    let (head, body) = halves;
    let rule = Rule::new(head, body, vars as u64, line);
    let sizes = sizes_of(&rule);
    let own = own_clauses(source).saturating_add(sizes.clauses);
    let clauses = before.saturating_add(own);
    match passed_lifted(sizes, clauses) {
        Some(what) => Err(what),
        None => Ok((rule, clauses)),
    }
}

/// The names of a clause's variables, each its own.
pub(crate) fn variables_of(alloc: Global, read: &Read) -> Result<Vec<Name>, NoMemory>
    ensures { IfOk result (λ v. v.items ≡ texts read.now.names.items) }
{
    own_names(alloc, &read.names)
}

/// The verdict on a clause by its term, whose names the table has.
pub(crate) fn judge<'a>(
    alloc: Global,
    source: Source,
    term: Term,
    names: Vec<&'a str>,
    line: u64,
    before: Counts,
    atoms: &Atoms,
) -> Result<Read<'a>, Refusal>
    requires { CanBeRule source (tree_of term) (length (texts names.items)) line }
    ensures verdict { Gives (λ v. v ≡ spec.judged_term source before atoms.now (texts names.entry.items) line (tree_of term)) atoms.now result }
    ensures counted { IfOk result (λ r. IsCounted before r atoms.now) }
{
    let narrow = is_narrow(&term);
    let Ok(halves) = halves(alloc, source, term) else {
        return Err(Refusal::NoMemory);
    };
    let lifted = before.lifted.saturating_add(predicates_of(&halves.1));
    if !has_room(atoms, lifted) {
        return Err(Refusal::TooManyAtoms { line });
    }
    if let Some(name) = first_outside(source, &halves.0, &halves.1) {
        return Err(Refusal::Outside { line, name });
    }
    match limited(source, narrow, halves, names.len(), line, before.clauses) {
        Ok((rule, clauses)) => Ok(Read {
            rule,
            names,
            counts: Counts { lifted, clauses },
        }),
        Err(what) => Err(Refusal::TooLarge { line, what }),
    }
}
