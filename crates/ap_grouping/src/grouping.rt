//! The groups of a program for one query.

ghost use Rattle.std.specs.Prelude.{◌≡◌, ◌++◌, length, IfOk, OnOk};
ghost use Rattle.ap_term.specs.Goals.{joined};
ghost use Rattle.ap_mel.specs.Lone.{is_lone};
ghost use Rattle.ap_grouping.specs.Groups.{AreGroups};

use ap_cge::Annotated;
use ap_mel::{Kind, is_lone, is_lone_clause, sound_clauses};
use ap_patterns::Entries;
use ap_term::{Clause, Name, NoMemory, Program, Query, copy_clause};
use ap_udg::program_of;
use std::alloc::Global;

/// A program and a query with groups.
#[derive(Drop)]
pub struct Grouped {
    pub program: Program,
    pub query: Query,
}

fn add_copies(alloc: Global, clauses: &[Clause], out: &mut Program) -> Result<(), NoMemory>
    ensures { OnOk result (out.new ≡ out.old ++ clauses.now) }
{
    for clause in clauses {
        out.push(copy_clause(alloc, clause)?)?;
    }
    Ok(())
}

pub(crate) fn copy_names(alloc: Global, names: &[Name]) -> Result<Vec<Name>, NoMemory>
    ensures { IfOk result (λ copy. copy.items ≡ names.now) }
{
    let mut copy = Vec::new(alloc);
    for name in names {
        copy.push(Name::new(alloc, name.as_str())?)?;
    }
    Ok(copy)
}

fn copy_query(alloc: Global, query: &Query) -> Result<Query, NoMemory>
    ensures { IfOk result (λ copy. copy ≡ query.now) }
{
    let question = copy_clause(alloc, query.question())?;
    let mut lifted = Program::new(alloc);
    add_copies(alloc, query.lifted(), &mut lifted)?;
    let names = copy_names(alloc, query.names())?;
    Ok(Query::new(question, lifted, names))
}

/// The program with the query's clauses behind its own, which stay where they are.
fn join(alloc: Global, program: Program, query: &Query) -> Result<Program, NoMemory>
    ensures { IfOk result (λ all. all ≡ joined program query.now) }
{
    let mut all = program;
    all.push(copy_clause(alloc, query.question())?)?;
    add_copies(alloc, query.lifted(), &mut all)?;
    Ok(all)
}

/// Whether neither has a clause with a group, or with two goals in a row that aren't built in.
fn are_lone(program: &Program, query: &Query) -> bool
    ensures { result ≡ is_lone (joined program.now query.now) }
{
    is_lone(program.as_slice()) && is_lone_clause(query.question()) && is_lone(query.lifted())
}

/// The program and the query with groups, cut out of the clauses that were annotated.
fn group_by_passes(
    alloc: Global,
    program: Program,
    query: &Query,
    kind: Kind,
) -> Result<Grouped, NoMemory>
    ensures { IfOk result (λ g. AreGroups kind program query.now g.program g.query) }
{
    let _kept = query.question();
    let count = program.as_slice().len();
    let asked = Annotated::new(join(alloc, program, query)?);
    let mut front = sound_clauses(alloc, &asked, &Entries::Query, kind)?;
    let mut behind = front.split_off(count)?;
    let question = behind.remove(0);
    let lifted = program_of(alloc, behind)?;
    let names = copy_names(alloc, query.names())?;
    Ok(Grouped {
        program: program_of(alloc, front)?,
        query: Query::new(question, lifted, names),
    })
}

/// Annotates a program beside a query, for that query alone. Where there is nothing to group it is the program that was handed in. Fails
/// only for want of memory.
pub fn group_query(
    alloc: Global,
    program: Program,
    query: &Query,
    kind: Kind,
) -> Result<Grouped, NoMemory>
    ensures { IfOk result (λ g. AreGroups kind program query.now g.program g.query) }
{
    let _good = program.as_slice();
    let _kept = query.question();
    if are_lone(&program, query) {
        return Ok(Grouped {
            program,
            query: copy_query(alloc, query)?,
        });
    }
    group_by_passes(alloc, program, query, kind)
}
