//! Lifting one clause's body.

ghost use Rattle.std.specs.Prelude.{◌≡◌, ℕ, ◌+◌, ◌≤◌, ◌<◌, ◌++◌, ◌∷◌, [], map, Some, None, length, slice_index, slice_set, IfOk, OnOk, IsTrue, ◌&&◌};
ghost use Rattle.std.specs.List.{list_all};
ghost use Rattle.ap_term.specs.Tree.{more, none, append_trees};
ghost use Rattle.ap_term.specs.TermView.{tree_of};
ghost use Rattle.ap_term.specs.WellFormed.{well_formed_part, numbered_check};
ghost use Rattle.ap_term.specs.Search.{variables};
ghost use Rattle.ap_term.specs.Goals.{plain_goals};
ghost use Rattle.ap_lifting.specs.Body.{disjunction, numbered_condition, well_formed};
ghost use Rattle.ap_lifting.specs.BodyView.{body_of};
ghost use Rattle.ap_lifting.specs.Lifted.{check_of, checks_of, lifted, lifted_goal, lifted_clause, operand, raised, either};
ghost use Rattle.ap_lifting.specs.Lifts.{Lifts};
ghost use Rattle.ap_lifting.specs.Sizes.{predicates, measured_operand};

use crate::bodies::{Body, Condition};
use ap_term::{Args, Atom, Body as Parts, Check, Checks, Clause, NoMemory, Part, Term};
use std::alloc::Global;

/// What the clauses that are lifted from a clause have from it, and their names.
#[derive(Drop)]
pub struct Origin<'a> {
    pub alloc: Global,
    /// The names of lifted predicates by their numbers.
    pub names: &'a [Atom],
    pub vars: u64,
    pub line: u64,
}

/// What was lifted: a place for each clause, in the order of the predicates' numbers.
#[derive(Drop)]
pub struct Raised {
    /// The number of the first lifted predicate that isn't used yet.
    pub next: usize,
    /// A clause's place is kept free until its body is lifted.
    pub clauses: Vec<Option<Clause>>,
}

/// The variables from 1 to n.
fn variables(alloc: Global, n: u64) -> Result<Args, NoMemory>
    ensures { IfOk result (λ ts. ts ≡ variables n) }
{
    let mut list = Args::new(alloc);
    for x in 0..n {
        list.push(Term::Var(x + 1))?;
    }
    Ok(list)
}

fn add_check(condition: &Condition, checks: &mut Checks) -> Result<(), NoMemory>
    ensures { OnOk result (checks.new ≡ checks.old ++ check_of condition.now) }
{
    match condition {
        Condition::True => Ok(()),
        Condition::Ground(x) => checks.push(Check::Ground(*x)),
        Condition::Indep(x, y) => checks.push(Check::Indep(*x.min(y), *x.max(y))),
    }
}

/// The checks that conditions stand for.
fn checks_of(alloc: Global, conditions: &[Condition]) -> Result<Checks, NoMemory>
    ensures checks { IfOk result (λ cs. cs ≡ checks_of conditions.now) }
    ensures numbered { IfOk result (λ cs. (n : ℕ) → IsTrue (list_all (numbered_condition n) conditions.now) → IsTrue (list_all (numbered_check n) cs)) }
{
    let mut checks = Checks::new(alloc);
    for condition in conditions {
        add_check(condition, &mut checks)?;
    }
    Ok(checks)
}

impl Origin<'_> {
    /// The call of a lifted predicate, on all variables of the clause.
    fn goal(&self, number: usize) -> Result<Term, NoMemory>
        requires { number < length self.now.names.now }
        ensures { IfOk result (λ t. tree_of t ≡ lifted_goal (slice_index self.now.names.now) self.now.vars self.now.line number) }
    {
        let name = self.names[number];
        let args = variables(self.alloc, self.vars)?;
        if self.vars == 0 {
            return Ok(Term::Atom(name));
        }
        Ok(Term::Node(name, args))
    }

    /// A clause of a lifted predicate.
    fn clause(&self, number: usize, body: Parts) -> Result<Clause, NoMemory>
        requires named { number < length self.now.names.now }
        requires few { self.now.vars ≤ 255 }
        requires body { IsTrue (list_all (well_formed_part self.now.vars) body) }
        ensures { IfOk result (λ c. c ≡ lifted_clause (slice_index self.now.names.now) self.now.vars self.now.line number body) }
    {
        let head = self.goal(number)?;
        Ok(Clause::new(head, body, self.vars, self.line))
    }
}

impl Raised {
    pub fn new(alloc: Global) -> Raised
        ensures next { result.next ≡ 0 }
        ensures clauses { result.clauses.items ≡ [] }
    {
        Raised {
            next: 0,
            clauses: Vec::new(alloc),
        }
    }

    /// Keeps a place for a clause, and says where.
    fn keep_place(&mut self) -> Result<usize, NoMemory>
        ensures place { IfOk result (λ place. place ≡ length self.old.clauses.items) }
        ensures clauses { OnOk result (self.new.clauses.items ≡ self.old.clauses.items ++ None ∷ []) }
        ensures room { OnOk result (length self.new.clauses.items ≡ length self.old.clauses.items + 1) }
        ensures next { self.new.next ≡ self.old.next }
    {
        let place = self.clauses.len();
        self.clauses.push(None)?;
        Ok(place)
    }

    fn fill(&mut self, place: usize, clause: Clause)
        requires { place < length self.old.clauses.items }
        ensures clauses { self.new.clauses.items ≡ slice_set self.old.clauses.items place (Some clause) }
        ensures next { self.new.next ≡ self.old.next }
    {
        self.clauses[place] = Some(clause);
    }
}

/// Adds the parts of a body to those before it. The checks are those of the group that it is, where it is one.
#[tactic(auto, using(crate::proofs::Kept::lifting))]
#[cycle(lift)]
pub fn add_parts(
    origin: &Origin,
    body: Body,
    checks: Checks,
    out: &mut Raised,
    parts: &mut Parts,
) -> Result<(), NoMemory>
    requires few { origin.now.vars ≤ 255 }
    requires body { IsTrue (well_formed origin.now.vars (body_of body)) }
    requires checks { IsTrue (list_all (numbered_check origin.now.vars) checks) }
    requires named { out.old.next + predicates (body_of body) ≤ length origin.now.names.now }
    ensures parts { OnOk result (parts.new ≡ parts.old ++ (lifted (slice_index origin.now.names.now) origin.now.vars origin.now.line (body_of body) checks out.old.next).parts) }
    ensures lifts { OnOk result (Lifts (lifted (slice_index origin.now.names.now) origin.now.vars origin.now.line (body_of body) checks out.old.next) out.old out.new) }
    ensures next { OnOk result (out.new.next ≡ out.old.next + predicates (body_of body)) }
{
    match body {
        Body::Goal(goal) => parts.push(Part::Call(goal)),
        Body::Conjunction(first, second) => {
            add_parts(
                origin,
                Box::into_inner(first),
                Checks::new(origin.alloc),
                out,
                parts,
            )?;
            add_parts(
                origin,
                Box::into_inner(second),
                Checks::new(origin.alloc),
                out,
                parts,
            )
        }
        Body::Disjunction(first, second) => {
            let goal = raise_two(origin, Box::into_inner(first), Box::into_inner(second), out)?;
            parts.push(Part::Call(goal))
        }
        Body::Parallel(first, last) => {
            let mut calls = Args::new(origin.alloc);
            add_operand(origin, Box::into_inner(first), false, out, &mut calls)?;
            add_operand(origin, Box::into_inner(last), true, out, &mut calls)?;
            parts.push(Part::Group { checks, calls })
        }
        Body::Conditional(conditions, body) => {
            let checks = checks_of(origin.alloc, &conditions)?;
            add_parts(origin, Box::into_inner(body), checks, out, parts)
        }
    }
}

/// Adds the goal of an operand of `&`, or the goals of a group that goes on.
#[tactic(auto, using(crate::proofs::Kept::lifting))]
#[cycle(lift)]
fn add_operand(
    origin: &Origin,
    body: Body,
    is_last: bool,
    out: &mut Raised,
    calls: &mut Args,
) -> Result<(), NoMemory>
    requires few { origin.now.vars ≤ 255 }
    requires body { IsTrue (well_formed origin.now.vars (body_of body)) }
    requires named { out.old.next + (measured_operand is_last (body_of body)).predicates ≤ length origin.now.names.now }
    ensures calls { OnOk result (calls.new ≡ append_trees calls.old (plain_goals (operand (slice_index origin.now.names.now) origin.now.vars origin.now.line is_last (body_of body) out.old.next).parts)) }
    ensures lifts { OnOk result (Lifts (operand (slice_index origin.now.names.now) origin.now.vars origin.now.line is_last (body_of body) out.old.next) out.old out.new) }
    ensures next { OnOk result (out.new.next ≡ out.old.next + (measured_operand is_last (body_of body)).predicates) }
{
    match body {
        Body::Goal(goal) => calls.push(goal),
        Body::Disjunction(first, second) => {
            let goal = raise_two(origin, Box::into_inner(first), Box::into_inner(second), out)?;
            calls.push(goal)
        }
        Body::Parallel(first, last) => {
            if is_last {
                add_operand(origin, Box::into_inner(first), false, out, calls)?;
                add_operand(origin, Box::into_inner(last), true, out, calls)
            } else {
                let goal = raise(origin, Body::Parallel(first, last), out)?;
                calls.push(goal)
            }
        }
        body => {
            let goal = raise(origin, body, out)?;
            calls.push(goal)
        }
    }
}

/// Lifts a body to a clause of a predicate, for which a place is kept.
#[tactic(auto, using(crate::proofs::Kept::lifting))]
#[cycle(lift)]
fn fill_place(
    origin: &Origin,
    body: Body,
    number: usize,
    place: usize,
    out: &mut Raised,
) -> Result<(), NoMemory>
    requires few { origin.now.vars ≤ 255 }
    requires body { IsTrue (well_formed origin.now.vars (body_of body)) }
    requires number { number < length origin.now.names.now }
    requires place { place < length out.old.clauses.items }
    requires named { out.old.next + predicates (body_of body) ≤ length origin.now.names.now }
    ensures clauses { OnOk result (let x = lifted (slice_index origin.now.names.now) origin.now.vars origin.now.line (body_of body) [] out.old.next in out.new.clauses.items ≡ slice_set (out.old.clauses.items ++ map Some x.clauses) place (Some (lifted_clause (slice_index origin.now.names.now) origin.now.vars origin.now.line number x.parts))) }
    ensures next { OnOk result (out.new.next ≡ (lifted (slice_index origin.now.names.now) origin.now.vars origin.now.line (body_of body) [] out.old.next).next) }
    ensures used { OnOk result (out.new.next ≡ out.old.next + predicates (body_of body)) }
    ensures room { OnOk result (length out.old.clauses.items ≤ length out.new.clauses.items) }
{
    let mut parts = Parts::new(origin.alloc);
    add_parts(origin, body, Checks::new(origin.alloc), out, &mut parts)?;
    out.fill(place, origin.clause(number, parts)?);
    Ok(())
}

/// Lifts a body to the clause of a predicate, which is called in its place.
#[tactic(auto, using(crate::proofs::Kept::lifting))]
#[cycle(lift)]
fn raise(origin: &Origin, body: Body, out: &mut Raised) -> Result<Term, NoMemory>
    requires few { origin.now.vars ≤ 255 }
    requires body { IsTrue (well_formed origin.now.vars (body_of body)) }
    requires named { out.old.next + 1 + predicates (body_of body) ≤ length origin.now.names.now }
    ensures goal { IfOk result (λ t. tree_of t ≡ lifted_goal (slice_index origin.now.names.now) origin.now.vars origin.now.line out.old.next) }
    ensures lifts { OnOk result (Lifts (raised (slice_index origin.now.names.now) origin.now.vars origin.now.line out.old.next (lifted (slice_index origin.now.names.now) origin.now.vars origin.now.line (body_of body) [] (out.old.next + 1))) out.old out.new) }
    ensures next { OnOk result (out.new.next ≡ out.old.next + 1 + predicates (body_of body)) }
{
    let number = out.next;
    let place = out.keep_place()?;
    out.next += 1;
    fill_place(origin, body, number, place, out)?;
    origin.goal(number)
}

/// Lifts two bodies to the clauses of a predicate, which is called in their place.
#[tactic(auto, using(crate::proofs::Kept::lifting))]
#[cycle(lift)]
fn raise_two(origin: &Origin, first: Body, second: Body, out: &mut Raised) -> Result<Term, NoMemory>
    requires few { origin.now.vars ≤ 255 }
    requires first { IsTrue (well_formed origin.now.vars (body_of first)) }
    requires second { IsTrue (well_formed origin.now.vars (body_of second)) }
    requires named { out.old.next + 1 + predicates (body_of first) + predicates (body_of second) ≤ length origin.now.names.now }
    ensures goal { IfOk result (λ t. tree_of t ≡ lifted_goal (slice_index origin.now.names.now) origin.now.vars origin.now.line out.old.next) }
    ensures lifts { OnOk result (Lifts (lifted (slice_index origin.now.names.now) origin.now.vars origin.now.line (disjunction (body_of first) (body_of second)) [] out.old.next) out.old out.new) }
    ensures next { OnOk result (out.new.next ≡ out.old.next + 1 + predicates (body_of first) + predicates (body_of second)) }
{
    let number = out.next;
    let first_place = out.keep_place()?;
    let second_place = out.keep_place()?;
    out.next += 1;
    fill_place(origin, first, number, first_place, out)?;
    fill_place(origin, second, number, second_place, out)?;
    origin.goal(number)
}
