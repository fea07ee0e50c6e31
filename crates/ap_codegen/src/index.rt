//! The clauses of each predicate, found by its name and arity.

ghost use Rattle.std.specs.Prelude.{◌≡◌, ℕ, [], ◌∷◌, ◌++◌, if◌then◌else◌, map, IfOk, OnOk};
ghost use Rattle.ap_instr.specs.Table.{is_key};
ghost use Rattle.ap_codegen.specs.Assembled.{heads};
ghost use Rattle.ap_codegen.specs.Index.{clauses_at, Indexes};

use crate::permanent::count;
use ap_term::{Clause, NoMemory, Term};
use indexmap::IndexMap;
use std::alloc::Global;

/// The clauses of each predicate that has one, in their order.
pub type Index<'a> = IndexMap<(u32, u8), Vec<&'a Clause>>;

/// One more clause of a predicate. Those that are there are taken out and put back.
fn add_clause<'a>(
    alloc: Global,
    index: &mut Index<'a>,
    key: (u32, u8),
    clause: &'a Clause,
) -> Result<(), NoMemory>
    ensures { OnOk result ((k : ℕ × ℕ) → clauses_at index.new k ≡ (if is_key key k then clauses_at index.old k ++ clause.now ∷ [] else clauses_at index.old k)) }
{
    let mut own = match index.swap_remove(&key) {
        Some(held) => held,
        None => Vec::new(alloc),
    };
    own.push(clause)?;
    index.insert(key, own)?;
    Ok(())
}

/// One more clause.
fn add_by_head<'a>(alloc: Global, index: &mut Index<'a>, clause: &'a Clause) -> Result<(), NoMemory>
    ensures { OnOk result ((k : ℕ × ℕ) → clauses_at index.new k ≡ (if heads k clause.now.head then clauses_at index.old k ++ clause.now ∷ [] else clauses_at index.old k)) }
{
    match clause.head() {
        Term::Var(_) | Term::Int(_) => Ok(()),
        Term::Atom(a) => add_clause(alloc, index, (a.number(), 0), clause),
        Term::Node(a, args) => add_clause(alloc, index, (a.number(), count(args)?), clause),
    }
}

/// The clauses by their predicates.
pub fn index_of(alloc: Global, clauses: &[Clause]) -> Result<Index<'_>, NoMemory>
    ensures { IfOk result (λ index. Indexes index clauses.now) }
{
    let mut index = IndexMap::new(alloc);
    for clause in clauses {
        add_by_head(alloc, &mut index, clause)?;
    }
    Ok(index)
}
