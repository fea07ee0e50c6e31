//! States of a search, and the states that one call leads to.

ghost use Rattle.std.specs.Prelude.{◌≡◌, ◌+◌, ◌<◌, ◌^◌, [], ◌∷◌, ◌++◌, map, length, ◌↔◌, IsSome, IsTrue, ℕ, is_ok, if◌then◌else◌, Option, Some, None, IfOk, OnOk, MatchOption};
ghost use Rattle.std.specs.List.{flat_map};
ghost use Rattle.ap_term.specs.TermView.{tree_of, trees_of};
ghost use Rattle.ap_term.specs.GoalView.{part_of};
ghost use Rattle.ap_term.specs.Goals.{opened, calls, instance_part, call};
ghost use Rattle.ap_term.specs.Tree.{Tree};
ghost use Rattle.ap_term.specs.Substitution.{instance, shift};
ghost use Rattle.ap_term.specs.Unification.{mgu};
ghost use Rattle.ap_term.specs.Search.{child, children, children_by, clause_way, ways, ways_by, way_if};
ghost use Rattle.ap_spec.specs.States.{state_of, behind_of, rules_of, taken_before, taken_behind};

use crate::builtins::{Called, builtin};
use crate::substitutions::{Shift, Subst};
use crate::unification::unify;
use ap_term::{
    Args, Bindings, Body, Clause, Fault, NoMemory, Part, Program, Query, Term, add_instances,
    instance, instances,
};
use std::alloc::Global;
use std::collections::VecDeque;
use std::marker::Model;

/// A state of a search: the goals left, the instance of the query's variables, the first unused variable, the number
/// of calls made on the way, and the fault that the last of them met.
#[derive(Drop)]
pub struct State {
    pub goals: Body,
    pub tuple: Args,
    pub next: u64,
    pub steps: u64,
    pub fault: Option<Fault>,
}

/// A list of states, the next one first.
#[derive(Drop)]
pub struct States {
    items: VecDeque<State>,
}

impl Model for States {
    ghost use Rattle.std.specs.Prelude.{List, map};
    ghost use Rattle.ap_term.specs.Search.{State as Reached};
    ghost use Rattle.ap_spec.specs.StateCode.{states_code};

    ghost Value = { List Reached };

    ghost coded = { states_code };

    ghost use Rattle.ap_spec.specs.States.{state_of};

    ghost view = { λ a. map state_of a.items.items };
}

impl States {
    pub fn new(alloc: Global) -> States
        ensures { result ≡ [] }
    {
        States {
            items: VecDeque::new(alloc),
        }
    }

    pub fn push_back(&mut self, state: State) -> Result<(), NoMemory>
        ensures { self.new ≡ (if is_ok result then self.old ++ state_of state ∷ [] else self.old) }
    {
        self.items.push_back(state)?;
        Ok(())
    }

    pub fn push_front(&mut self, state: State) -> Result<(), NoMemory>
        ensures { self.new ≡ (if is_ok result then state_of state ∷ self.old else self.old) }
    {
        self.items.push_front(state)?;
        Ok(())
    }

    pub fn pop_front(&mut self) -> Option<State>
        ensures { self.old ≡ taken_before result self.new }
    {
        match self.items.pop_front() {
            Some(first) => Some(first),
            None => None,
        }
    }

    pub fn pop_back(&mut self) -> Option<State>
        ensures { self.old ≡ taken_behind self.new result }
    {
        match self.items.pop_back() {
            Some(last) => Some(last),
            None => None,
        }
    }
}

/// The goals behind the first one: calls of the group that it stands in, and then the other parts.
#[derive(Drop)]
pub struct Behind<'a> {
    pub calls: &'a [Term],
    pub parts: &'a [Part],
}

/// The first goal, the groups that come first being read as conjunctions, and the goals behind it.
pub fn first_goal(parts: &[Part]) -> Option<(&Term, Behind)>
    ensures { MatchOption result (opened (map part_of parts.now) ≡ []) (λ p. opened (map part_of parts.now) ≡ call (tree_of p.0.now) ∷ behind_of p.1) }
{
    let mut left = parts;
    loop {
        let (first, rest) = left.split_first()?;
        match first {
            Part::Call(goal) => {
                return Some((
                    goal,
                    Behind {
                        calls: &[],
                        parts: rest,
                    },
                ));
            }
            Part::Group { calls, .. } => match calls.as_slice() {
                [goal, others @ ..] => {
                    return Some((
                        goal,
                        Behind {
                            calls: others,
                            parts: rest,
                        },
                    ));
                }
                [] => left = rest,
            },
        }
    }
}

/// The clauses that a search uses: a program's, and then a query's.
#[derive(Drop)]
pub struct Rules<'a> {
    pub program: &'a [Clause],
    pub query: Option<&'a Query>,
}

/// Adds the instances of terms as calls.
pub fn add_calls<B: Bindings>(
    alloc: Global,
    bindings: &B,
    terms: &[Term],
    out: &mut Body,
) -> Result<(), NoMemory>
    ensures { OnOk result (out.new ≡ out.old ++ map (instance_part (B.term_at bindings.now)) (calls (trees_of terms.now))) }
{
    for t in terms {
        out.push(Part::Call(instance(alloc, bindings, t)?))?;
    }
    Ok(())
}

/// The state after a call: what it binds, the goals in its place, how many variables it takes.
fn child(
    alloc: Global,
    s: &State,
    binds: &Subst,
    body: &[Part],
    takes: u64,
    rest: &Behind,
) -> Result<State, NoMemory>
    requires room { s.now.next + takes < 2 ^ 64 }
    requires counts { s.now.steps < 2 ^ 63 }
    ensures { IfOk result (λ t. state_of t ≡ child (state_of s.now) (behind_of rest.now) (record { binds = binds.now; body = map part_of body.now; takes = takes; fault = None })) }
{
    let mut goals = Body::new(alloc);
    add_instances(alloc, binds, body, &mut goals)?;
    add_calls(alloc, binds, rest.calls, &mut goals)?;
    add_instances(alloc, binds, rest.parts, &mut goals)?;
    Ok(State {
        goals,
        tuple: instances(alloc, binds, s.tuple.as_slice())?,
        next: s.next + takes,
        steps: s.steps + 1,
        fault: None,
    })
}

/// Whether two terms can't be unified because their names differ: most clauses are passed over so.
fn clashes(goal: &Term, head: &Term) -> bool
    ensures { IsTrue result → (f : ℕ → Tree) → mgu (tree_of goal.now) (instance f (tree_of head.now)) ≡ None }
{
    match (goal, head) {
        (Term::Atom(a), Term::Atom(b)) | (Term::Node(a, _), Term::Node(b, _)) => *a != *b,
        _ => false,
    }
}

/// Adds the child by a clause whose head has this unifier with the goal.
fn add_unified(
    alloc: Global,
    s: &State,
    binds: &Subst,
    clause: &Clause,
    rest: &Behind,
    out: &mut States,
) -> Result<(), NoMemory>
    requires room { s.now.next < 2 ^ 63 }
    requires counts { s.now.steps < 2 ^ 63 }
    ensures { OnOk result (out.new ≡ out.old ++ map (child (state_of s.now) (behind_of rest.now)) (way_if (Some binds.now) (map (instance_part (shift s.now.next)) clause.now.body) (clause.now.vars + 1))) }
{
    let fresh = Shift { by: s.next };
    let mut body = Body::new(alloc);
    add_instances(alloc, &fresh, clause.body().as_slice(), &mut body)?;
    let child = child(alloc, s, binds, body.as_slice(), clause.vars() + 1, rest)?;
    out.push_back(child)?;
    Ok(())
}

/// Adds the child by one clause, if there is one.
fn add_by_clause(
    alloc: Global,
    s: &State,
    goal: &Term,
    rest: &Behind,
    clause: &Clause,
    out: &mut States,
) -> Result<(), NoMemory>
    requires room { s.now.next < 2 ^ 63 }
    requires counts { s.now.steps < 2 ^ 63 }
    ensures { OnOk result (out.new ≡ out.old ++ map (child (state_of s.now) (behind_of rest.now)) (clause_way s.now.next (tree_of goal.now) clause.now)) }
{
    if clashes(goal, clause.head()) {
        return Ok(());
    }
    let head = instance(alloc, &Shift { by: s.next }, clause.head())?;
    match unify(alloc, goal, &head)? {
        Some(binds) => add_unified(alloc, s, &binds, clause, rest, out),
        None => Ok(()),
    }
}

fn add_by_clauses(
    alloc: Global,
    s: &State,
    goal: &Term,
    rest: &Behind,
    clauses: &[Clause],
    out: &mut States,
) -> Result<(), NoMemory>
    requires room { s.now.next < 2 ^ 63 }
    requires counts { s.now.steps < 2 ^ 63 }
    ensures { OnOk result (out.new ≡ out.old ++ map (child (state_of s.now) (behind_of rest.now)) (flat_map (clause_way s.now.next (tree_of goal.now)) clauses.now)) }
{
    for clause in clauses {
        add_by_clause(alloc, s, goal, rest, clause, out)?;
    }
    Ok(())
}

/// Adds the children by the clauses of the rules, in order.
fn add_by_rules(
    alloc: Global,
    rules: &Rules,
    s: &State,
    goal: &Term,
    rest: &Behind,
    out: &mut States,
) -> Result<(), NoMemory>
    requires room { s.now.next < 2 ^ 63 }
    requires counts { s.now.steps < 2 ^ 63 }
    ensures { OnOk result (out.new ≡ out.old ++ map (child (state_of s.now) (behind_of rest.now)) (flat_map (clause_way s.now.next (tree_of goal.now)) (rules_of rules.now))) }
{
    add_by_clauses(alloc, s, goal, rest, rules.program, out)?;
    if let Some(query) = rules.query {
        add_by_clause(alloc, s, goal, rest, query.question(), out)?;
        add_by_clauses(alloc, s, goal, rest, query.lifted(), out)?;
    }
    Ok(())
}

/// The states that one call leads to under some rules, in clause order.
pub fn children_by_rules(alloc: Global, rules: &Rules, s: &State) -> Result<States, NoMemory>
    requires room { s.now.next < 2 ^ 63 }
    requires counts { s.now.steps < 2 ^ 63 }
    ensures { IfOk result (λ ss. ss ≡ children (rules_of rules.now) (state_of s.now)) }
{
    let mut found = States::new(alloc);
    if let Some((goal, rest)) = first_goal(s.goals.as_slice()) {
        match builtin(alloc, goal)? {
            Called::ByClauses => add_by_rules(alloc, rules, s, goal, &rest, &mut found)?,
            Called::Answered(Some(binds)) => {
                found.push_back(child(alloc, s, &binds, &[], 0, &rest)?)?;
            }
            Called::Answered(None) => {}
        }
    }
    Ok(found)
}

/// The states that the call of the first goal leads to, in clause order (ISO 13211-1, section 7.7).
pub fn children(alloc: Global, program: &Program, s: &State) -> Result<States, NoMemory>
    requires room { s.now.next < 2 ^ 63 }
    requires counts { s.now.steps < 2 ^ 63 }
    ensures { IfOk result (λ ss. ss ≡ children program.now (state_of s.now)) }
{
    let rules = Rules {
        program: program.as_slice(),
        query: None,
    };
    let found = children_by_rules(alloc, &rules, s)?;
    Ok(found)
}
