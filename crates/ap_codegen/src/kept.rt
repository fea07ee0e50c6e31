//! Code of a program that is kept, and code of a query's clauses behind it.

ghost use Rattle.std.specs.Prelude.{◌≡◌, true, take, ◌++◌, is_none, IfOk, IfSome, OnOk};
ghost use Rattle.std.specs.List.{filter};
ghost use Rattle.ap_term.specs.declared.fixed.TheConstants.{QUERY};
ghost use Rattle.ap_term.specs.Goals.{Program as Clauses};
ghost use Rattle.ap_instr.specs.StandsFor.{StandsForQuery};
ghost use Rattle.ap_instr.specs.Table.{goal_key};
ghost use Rattle.ap_needs.specs.Behind.{Begins};
ghost use Rattle.ap_codecheck.specs.Rules.{IsSound};
ghost use Rattle.ap_codecheck.specs.Tables.{GoesOnBehind, IsExtentOf};
ghost use Rattle.ap_codegen.specs.Assembled.{Grows, StandsBeside};
ghost use Rattle.ap_codegen.specs.Kept.{AreMade, made_code, is_new, are_new};
ghost use Rattle.ap_codegen.specs.KeptCode.{IsKept, code_of, has_one_of};

use crate::asking::asked_clauses;
use crate::index::index_of;
use crate::permanent::count;
use crate::programs::{Made, add_heads, add_predicates, none_made};
use crate::tables::Tables;
use ap_codecheck::Extent;
use ap_instr::Code;
use ap_term::{Atom, Clause, NoMemory, Program, Query, Term, fixed};
use std::alloc::Global;

/// Code of a program, and of all that it calls.
#[derive(Drop)]
pub struct Kept {
    tables: Tables,
    made: Made,
    listed: usize,
}

/// The number of a query's variables, which are the arguments of its clause.
fn arity_of(query: &Query) -> u8
    ensures { result ≡ query.now.question.vars }
{
    query.question().vars() as u8
}

/// Whether no predicate of the table is that of the clause.
fn is_new(tables: &Tables, clause: &Clause) -> Result<bool, NoMemory>
    ensures { IfOk result (λ b. b ≡ is_new tables.now.predicates (goal_key clause.now.head)) }
{
    match clause.head() {
        Term::Var(_) | Term::Int(_) => Ok(true),
        Term::Atom(a) => Ok(!tables.has(*a, 0)),
        Term::Node(a, args) => Ok(!tables.has(*a, count(args)?)),
    }
}

/// Whether no predicate of the table is one of the clauses.
#[tactic(auto, using(crate::proofs::Keeping::rules_of_new))]
fn are_new(tables: &Tables, clauses: &[Clause]) -> Result<bool, NoMemory>
    ensures { IfOk result (λ b. b ≡ are_new tables.now.predicates clauses.now) }
{
    for clause in clauses {
        if !is_new(tables, clause)? {
            return Ok(false);
        }
    }
    Ok(true)
}

/// Copies what is made.
fn copy_made(alloc: Global, made: &Made) -> Result<Made, NoMemory>
    ensures instructions { IfOk result (λ copy. copy.instructions.items ≡ made.now.instructions.items) }
    ensures predicates { IfOk result (λ copy. copy.predicates.items ≡ made.now.predicates.items) }
{
    let instructions = Vec::from_slice(alloc, made.instructions.as_slice())?;
    let predicates = Vec::from_slice(alloc, made.predicates.as_slice())?;
    Ok(Made {
        instructions,
        predicates,
    })
}

/// Code for clauses of a query behind what is made of a program. None of its predicates has such a clause.
fn code_behind(
    alloc: Global,
    tables: &mut Tables,
    mut made: Made,
    listed: usize,
    own: &[Clause],
    arity: u8,
) -> Result<Code, NoMemory>
    ensures grows { OnOk result (Grows tables.old tables.new) }
    ensures begins { IfOk result (λ code. Begins (made_code tables.old made) code) }
    ensures stands { IfOk result (λ code. (p : Clauses) → AreMade tables.old made listed p → are_new tables.old.predicates own.now ≡ true → StandsBeside code (QUERY, arity) p (p ++ own.now)) }
{
    add_heads(tables, own)?;
    let query = tables.predicate(Atom::at(fixed::QUERY), arity)?;
    let index = index_of(alloc, own)?;
    add_predicates(alloc, tables, &index, listed, &mut made)?;
    let Made {
        instructions,
        predicates,
    } = made;
    let integers = Vec::from_slice(alloc, tables.integers())?;
    Ok(Code::new(instructions, integers, predicates, Some(query)))
}

impl Kept {
    /// Compiles a program.
    pub fn of(alloc: Global, program: &Program) -> Result<Kept, NoMemory>
        ensures { IfOk result (λ kept. IsKept kept program.now) }
    {
        let own = program.as_slice();
        let mut tables = Tables::new(alloc);
        add_heads(&mut tables, own)?;
        let listed = tables.predicate_count();
        let index = index_of(alloc, own)?;
        let mut made = none_made(alloc);
        add_predicates(alloc, &mut tables, &index, listed, &mut made)?;
        Ok(Kept {
            tables,
            made,
            listed,
        })
    }

    /// The code, which is no query's.
    pub fn code(&self, alloc: Global) -> Result<Code, NoMemory>
        ensures { IfOk result (λ code. code ≡ code_of self.now) }
    {
        let made = copy_made(alloc, &self.made)?;
        let integers = Vec::from_slice(alloc, self.tables.integers())?;
        let Made {
            instructions,
            predicates,
        } = made;
        Ok(Code::new(instructions, integers, predicates, None))
    }

    /// How long the code is.
    pub fn extent(&self) -> Extent
        ensures { IsExtentOf (code_of self.now) result }
    {
        Extent {
            instructions: self.made.instructions.len(),
            integers: self.tables.integer_count(),
            predicates: self.made.predicates.len(),
        }
    }

    /// Code of the program beside a query. What is made for the query isn't kept. None just where the program has or calls a predicate of the
    /// query's clauses.
    pub fn beside(&mut self, alloc: Global, query: &Query) -> Result<Option<Code>, NoMemory>
        ensures stands { IfOk result (λ o. IfSome o (λ code. (p : Clauses) → IsKept self.old p → StandsForQuery code p query.now)) }
        ensures sound { IfOk result (λ o. IfSome o (λ code. (p : Clauses) → IsKept self.old p → IsSound code)) }
        ensures behind { IfOk result (λ o. IfSome o (λ code. GoesOnBehind code (code_of self.old))) }
        ensures none { IfOk result (λ o. is_none o ≡ has_one_of self.old query.now) }
        ensures same { OnOk result (self.new ≡ self.old) }
    {
        let own = asked_clauses(alloc, query)?;
        let clauses = own.as_slice();
        let all_new = are_new(&self.tables, clauses)?;
        if !all_new {
            return Ok(None);
        }
        let made = copy_made(alloc, &self.made)?;
        let integers = self.tables.integer_count();
        let predicates = self.tables.predicate_count();
        let arity = arity_of(query);
        let listed = self.listed;
        let code = code_behind(alloc, &mut self.tables, made, listed, clauses, arity)?;
        self.tables.cut_to(integers, predicates);
        Ok(Some(code))
    }
}
