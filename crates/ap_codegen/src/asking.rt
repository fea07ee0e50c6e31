//! The query as a clause whose head has the query's variables: to call it on new variables is to ask the query.

ghost use Rattle.std.specs.Prelude.{◌≡◌, [], ◌∷◌, ◌++◌, IfOk, OnOk};
ghost use Rattle.ap_term.specs.declared.fixed.TheConstants.{QUERY};
ghost use Rattle.ap_term.specs.TermView.{tree_of};
ghost use Rattle.ap_term.specs.Goals.{joined};
ghost use Rattle.ap_term.specs.Search.{variables};
ghost use Rattle.ap_instr.specs.Runs.{applied};
ghost use Rattle.ap_instr.specs.StandsFor.{asked, asked_query};

use ap_term::{
    Args, Atom, Body, Clause, NoMemory, Program, Query, Term, add_copies, copy_clause, fixed,
};
use std::alloc::Global;

/// The variables from 1 to `vars`.
#[tactic(auto, using(crate::proofs::AskedClause::variables_more))]
fn tuple(alloc: Global, vars: u64) -> Result<Args, NoMemory>
    ensures { IfOk result (λ ts. ts ≡ variables vars) }
{
    let mut args = Args::new(alloc);
    for x in 0..vars {
        args.push(Term::Var(x + 1))?;
    }
    Ok(args)
}

fn asked_head(alloc: Global, vars: u64) -> Result<Term, NoMemory>
    ensures { IfOk result (λ t. tree_of t ≡ applied QUERY (variables vars)) }
{
    if vars == 0 {
        return Ok(Term::Atom(Atom::at(fixed::QUERY)));
    }
    let args = tuple(alloc, vars)?;
    Ok(Term::Node(Atom::at(fixed::QUERY), args))
}

fn asked(alloc: Global, query: &Query) -> Result<Clause, NoMemory>
    ensures { IfOk result (λ c. c ≡ asked query.now) }
{
    let question = query.question();
    let head = asked_head(alloc, question.vars())?;
    let mut body = Body::new(alloc);
    add_copies(alloc, question.body().as_slice(), &mut body)?;
    Ok(Clause::new(head, body, question.vars(), question.line()))
}

fn add_clauses(alloc: Global, clauses: &[Clause], out: &mut Program) -> Result<(), NoMemory>
    ensures { OnOk result (out.new ≡ out.old ++ clauses.now) }
{
    for clause in clauses {
        out.push(copy_clause(alloc, clause)?)?;
    }
    Ok(())
}

/// The query's clauses, in that form.
pub fn asked_clauses(alloc: Global, query: &Query) -> Result<Program, NoMemory>
    ensures { IfOk result (λ p. p ≡ asked query.now ∷ query.now.lifted) }
{
    let mut own = Program::new(alloc);
    own.push(asked(alloc, query)?)?;
    add_clauses(alloc, query.lifted(), &mut own)?;
    Ok(own)
}

/// The program with the query, in that form, behind it.
pub fn asked_program(alloc: Global, program: &[Clause], query: &Query) -> Result<Program, NoMemory>
    ensures { IfOk result (λ p. p ≡ joined program.now (asked_query query.now)) }
{
    let mut all = Program::new(alloc);
    add_clauses(alloc, program, &mut all)?;
    all.push(asked(alloc, query)?)?;
    add_clauses(alloc, query.lifted(), &mut all)?;
    Ok(all)
}
