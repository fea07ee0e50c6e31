//! Code for a whole program beside a query.

ghost use Rattle.std.specs.Prelude.{◌≡◌, ℕ, ◌+◌, nat_lt, if◌then◌else◌, List, [], ◌++◌, map, length, take, slice_get, Some, None, IfOk, OnOk};
ghost use Rattle.std.specs.List.{filter, IsDistinct};
ghost use Rattle.ap_term.specs.declared.fixed.TheConstants.{QUERY};
ghost use Rattle.ap_term.specs.Goals.{Program as Clauses, joined};
ghost use Rattle.ap_instr.specs.declared.instruction.Instr.{Instr};
ghost use Rattle.ap_instr.specs.Code.{Compiled};
ghost use Rattle.ap_instr.specs.StandsFor.{StandsForQuery, asked_query};
ghost use Rattle.ap_instr.specs.Table.{is_key, key_of, head_key};
ghost use Rattle.ap_codecheck.specs.Rules.{IsSound};
ghost use Rattle.ap_codegen.specs.Assembled.{Numbered, Grows, Holds, AreInstructionsOf, AreCoded, chosen, IsBlock, IsMade, StandsBeside};
ghost use Rattle.ap_codegen.specs.Index.{clauses_at, HasClauses, IndexesBeside};
ghost use Rattle.ap_codegen.specs.Permanent.{is_builtin_key};
ghost use Rattle.ap_codegen.specs.Heads.{with_key, with_heads};

use crate::asking::asked_program;
use crate::assembly::assemble;
use crate::builtin_goals::{builtin_named, is_apart};
use crate::index::{Index, index_of};
use crate::layout::{first_place, lay, lay_builtin};
use crate::permanent::{above, count};
use crate::tables::Tables;
use crate::temporary::clause_steps;
use ap_instr::{Code, Instr, Predicate};
use ap_term::{Atom, Clause, NoMemory, Program, Query, Term, fixed};
use std::alloc::Global;

/// The code of a clause that begins at a place.
fn clause_code(
    alloc: Global,
    tables: &mut Tables,
    clause: &Clause,
    start: u32,
) -> Result<Vec<Instr>, NoMemory>
    ensures grows { OnOk result (Grows tables.old tables.new) }
    ensures code { IfOk result (λ is. (code : Compiled) → Holds tables.new code → AreInstructionsOf code start clause.now is.items) }
{
    let steps = clause_steps(alloc, clause)?;
    let out = assemble(alloc, tables, steps.as_slice(), start)?;
    Ok(out)
}

/// The codes of clauses, in order, the first of which begins at a place.
fn clause_codes(
    alloc: Global,
    tables: &mut Tables,
    clauses: &[&Clause],
    first: u32,
) -> Result<Vec<Vec<Instr>>, NoMemory>
    ensures grows { OnOk result (Grows tables.old tables.new) }
    ensures count { IfOk result (λ codes. length codes.items ≡ length clauses.now) }
    ensures codes { IfOk result (λ codes. (code : Compiled) → Holds tables.new code → AreCoded code first (map (λ v. v.items) codes.items) (map (λ c. c.now) clauses.now)) }
{
    let mut codes = Vec::new(alloc);
    let mut at = first;
    for clause in clauses {
        let code = clause_code(alloc, tables, clause, at)?;
        at = above(at, code.len())?;
        codes.push(code)?;
    }
    Ok(codes)
}

/// The codes of a predicate's clauses, where the predicate begins at a place.
fn predicate_codes(
    alloc: Global,
    tables: &mut Tables,
    index: &Index,
    name: u32,
    arity: u8,
    start: u32,
) -> Result<Vec<Vec<Instr>>, NoMemory>
    ensures grows { OnOk result (Grows tables.old tables.new) }
    ensures codes { IfOk result (λ codes. (code : Compiled) → Holds tables.new code → AreCoded code (start + chosen (length codes.items)) (map (λ v. v.items) codes.items) (clauses_at index.now (name, arity))) }
{
    match index.get(&(name, arity)) {
        Some(own) => {
            let first = first_place(start, own.len())?;
            let codes = clause_codes(alloc, tables, own.as_slice(), first)?;
            Ok(codes)
        }
        None => Ok(Vec::new(alloc)),
    }
}

/// Puts the instructions of a predicate behind others: those of a built-in goal, or of its clauses.
fn lay_predicate(
    alloc: Global,
    tables: &mut Tables,
    index: &Index,
    name: u32,
    arity: u8,
    out: &mut Vec<Instr>,
) -> Result<(), NoMemory>
    ensures grows { OnOk result (Grows tables.old tables.new) }
    ensures begins { OnOk result (take (length out.old.items) out.new.items ≡ out.old.items) }
    ensures block { OnOk result ((p : Clauses) → HasClauses index.now (name, arity) p → (own : List Instr) × (out.new.items ≡ out.old.items ++ own) × IsBlock tables.new out.old.items own (name, arity) p) }
{
    if let Some(builtin) = builtin_named(Atom::at(name), arity) {
        lay_builtin(builtin, out)?;
        return Ok(());
    }
    let start = above(0, out.len())?;
    let codes = predicate_codes(alloc, tables, index, name, arity, start)?;
    lay(codes.as_slice(), out)?;
    Ok(())
}

/// Instructions and predicates so far.
#[derive(Drop)]
pub struct Made {
    pub instructions: Vec<Instr>,
    pub predicates: Vec<Predicate>,
}

/// The predicate of the next number, which calls or groups name or clauses have.
fn add_predicate(
    alloc: Global,
    tables: &mut Tables,
    index: &Index,
    name: u32,
    arity: u8,
    is_listed: bool,
    made: &mut Made,
) -> Result<(), NoMemory>
    ensures grows { OnOk result (Grows tables.old tables.new) }
    ensures count { OnOk result (length made.new.predicates.items ≡ length made.old.predicates.items + 1) }
    ensures listed { OnOk result ((m : ℕ) → is_listed ≡ nat_lt (length made.old.predicates.items) m → filter (λ q. q.is_listed) made.old.predicates.items ≡ take m made.old.predicates.items → filter (λ q. q.is_listed) made.new.predicates.items ≡ take m made.new.predicates.items) }
    ensures instructions { OnOk result (take (length made.old.instructions.items) made.new.instructions.items ≡ made.old.instructions.items) }
    ensures predicates { OnOk result (take (length made.old.predicates.items) made.new.predicates.items ≡ made.old.predicates.items) }
    ensures made { OnOk result ((p : Clauses) → HasClauses index.now (name, arity) p → slice_get tables.old.predicates (length made.old.predicates.items) ≡ Some (name, arity) → IsMade tables.old made.old.instructions.items made.old.predicates.items p → IsMade tables.new made.new.instructions.items made.new.predicates.items p) }
{
    let start = above(0, made.instructions.len())?;
    lay_predicate(alloc, tables, index, name, arity, &mut made.instructions)?;
    let end = above(0, made.instructions.len())?;
    made.predicates.push(Predicate {
        name: Atom::at(name),
        arity,
        start,
        end,
        is_listed,
    })?;
    Ok(())
}

/// A number for the predicate of this name and arity, unless it is that of built-in goals, which no clause answers.
fn add_head(tables: &mut Tables, name: Atom, arity: u8) -> Result<(), NoMemory>
    ensures keys { OnOk result (tables.new.predicates ≡ with_key tables.old.predicates (if is_builtin_key (name, arity) then None else Some (name, arity))) }
    ensures grows { OnOk result (Grows tables.old tables.new) }
{
    if is_apart(name, arity) {
        tables.predicate(name, arity)?;
    }
    Ok(())
}

/// A number for the predicate of a clause.
fn add_clause_head(tables: &mut Tables, clause: &Clause) -> Result<(), NoMemory>
    ensures keys { OnOk result (tables.new.predicates ≡ with_key tables.old.predicates (head_key clause.now.head)) }
    ensures grows { OnOk result (Grows tables.old tables.new) }
{
    match clause.head() {
        Term::Var(_) | Term::Int(_) => Ok(()),
        Term::Atom(a) => add_head(tables, *a, 0),
        Term::Node(a, args) => {
            let arity = count(args)?;
            add_head(tables, *a, arity)
        }
    }
}

/// Numbers for the predicates of clauses, in order.
pub fn add_heads(tables: &mut Tables, clauses: &[Clause]) -> Result<(), NoMemory>
    ensures keys { OnOk result (tables.new.predicates ≡ with_heads tables.old.predicates clauses.now) }
    ensures grows { OnOk result (Grows tables.old tables.new) }
{
    for clause in clauses {
        add_clause_head(tables, clause)?;
    }
    Ok(())
}

/// Makes all predicates that clauses have or calls name, behind those that are made. So many are listed.
pub fn add_predicates(
    alloc: Global,
    tables: &mut Tables,
    index: &Index,
    listed: usize,
    made: &mut Made,
) -> Result<(), NoMemory>
    ensures grows { OnOk result (Grows tables.old tables.new) }
    ensures all { OnOk result (slice_get tables.new.predicates (length made.new.predicates.items) ≡ None) }
    ensures once { OnOk result (IsDistinct is_key tables.new.predicates) }
    ensures listed { OnOk result (filter (λ q. q.is_listed) made.old.predicates.items ≡ take listed made.old.predicates.items → filter (λ q. q.is_listed) made.new.predicates.items ≡ take listed made.new.predicates.items) }
    ensures instructions { OnOk result (take (length made.old.instructions.items) made.new.instructions.items ≡ made.old.instructions.items) }
    ensures predicates { OnOk result (take (length made.old.predicates.items) made.new.predicates.items ≡ made.old.predicates.items) }
    ensures made { OnOk result ((p : Clauses) → IndexesBeside (map key_of made.old.predicates.items) index.now p → IsMade tables.old made.old.instructions.items made.old.predicates.items p → IsMade tables.new made.new.instructions.items made.new.predicates.items p) }
{
    for number in made.predicates.len()..4294967295usize {
        let Some((name, arity)) = tables.predicate_at(number) else {
            return Ok(());
        };
        let is_listed = number < listed;
        add_predicate(alloc, tables, index, name, arity, is_listed, made)?;
    }
    Err(NoMemory)
}

/// Nothing yet.
pub fn none_made(alloc: Global) -> Made
    ensures none { result.predicates.items ≡ [] }
    ensures made { (t : Numbered) (p : Clauses) → IsMade t result.instructions.items result.predicates.items p }
{
    Made {
        instructions: Vec::new(alloc),
        predicates: Vec::new(alloc),
    }
}

/// Code for clauses, the query's among them, whose head has so many arguments. The predicates of `own` are listed.
fn compile_clauses(
    alloc: Global,
    clauses: &[Clause],
    own: &[Clause],
    arity: u8,
) -> Result<Code, NoMemory>
    ensures { IfOk result (λ code. StandsBeside code (QUERY, arity) own.now clauses.now) }
{
    let mut tables = Tables::new(alloc);
    add_heads(&mut tables, own)?;
    let listed = tables.predicate_count();
    add_heads(&mut tables, clauses)?;
    let query = tables.predicate(Atom::at(fixed::QUERY), arity)?;
    let index = index_of(alloc, clauses)?;
    let mut made = none_made(alloc);
    add_predicates(alloc, &mut tables, &index, listed, &mut made)?;
    let Made {
        instructions,
        predicates,
    } = made;
    let integers = Vec::from_slice(alloc, tables.integers())?;
    Ok(Code::new(instructions, integers, predicates, Some(query)))
}

/// Code for a program and the clauses of a query.
fn compile_beside(alloc: Global, program: &Program, query: &Query) -> Result<Code, NoMemory>
    ensures { IfOk result (λ code. StandsBeside code (QUERY, query.now.question.vars) program.now (joined program.now (asked_query query.now))) }
{
    let own = program.as_slice();
    let all = asked_program(alloc, own, query)?;
    let arity = query.question().vars() as u8;
    let code = compile_clauses(alloc, all.as_slice(), own, arity)?;
    Ok(code)
}

/// Code for a program beside a query. Its predicates are those of the program in order of first clause, then the query's,
/// `?-` on the query's variables, and then those that are called and have no clause, whose code is `fail`, and built-in goals
/// of groups. A clause's code is Warren's (An Abstract Prolog Instruction Set, 1983), a group's Hermenegildo's (An Abstract
/// Machine Based Execution Model, 1986). A structure of more than 255 arguments, and more than 4,294,967,295 places or
/// registers, are want of memory.
pub fn compile(alloc: Global, program: &Program, query: &Query) -> Result<Code, NoMemory>
    ensures stands { IfOk result (λ code. StandsForQuery code program.now query.now) }
    ensures sound { IfOk result (λ code. IsSound code) }
{
    let code = compile_beside(alloc, program, query)?;
    Ok(code)
}
