//! Sequential search: with a budget, and to a depth.

ghost use Rattle.std.specs.Prelude.{◌≡◌, ℕ, ◌+◌, ◌*◌, ◌<◌, ◌≤◌, ◌^◌, [], ◌∷◌, ◌++◌, map, List, true, IfOk, OnOk};
ghost use Rattle.std.specs.List.{All};
ghost use Rattle.ap_term.specs.Tree.{Trees};
ghost use Rattle.ap_term.specs.Goals.{joined};
ghost use Rattle.ap_term.specs.WellFormed.{IsProgram, IsQuery};
ghost use Rattle.ap_term.specs.Blocks.{Begins, IsAllUpTo};
ghost use Rattle.ap_term.specs.Search.{search, start, variables, answers_to_depth};
ghost use Rattle.ap_spec.specs.States.{state_of, rules_of, taken_before};
ghost use Rattle.ap_spec.specs.Searches.{found_of, answers_of, has_goals, is_answer, answers_first, behind_answers, IsWithin, IsShallow, answers_of_all};

use crate::states::{Rules, State, States, children_by_rules};
use crate::tuples::Tuples;
use ap_term::{Args, Body, Fault, NoMemory, Program, Query, Term, add_copies};
use std::alloc::Global;

/// The answers in order, whether the search ended, and the fault by which it did.
#[derive(Drop)]
pub struct Found {
    pub answers: Tuples,
    pub ended: bool,
    pub fault: Option<Fault>,
}

/// The answers in order up to the first fault, and that fault.
#[derive(Drop)]
pub struct Answers {
    pub tuples: Tuples,
    pub fault: Option<Fault>,
}

fn into_tuple(s: State) -> Args
    ensures { result ≡ s.tuple }
{
    s.tuple
}

fn has_goals(s: &State) -> bool
    ensures { result ≡ has_goals (state_of s.now) }
{
    match s.goals.as_slice() {
        [] => false,
        _ => true,
    }
}

/// Whether a state is an answer: no goal is left, and no fault was met.
fn is_answer(s: &State) -> bool
    ensures { result ≡ is_answer (state_of s.now) }
{
    !has_goals(s) && s.fault.is_none()
}

/// Takes the answers that come first, and then the next state: an open one, or a fault.
fn emit(stack: &mut States, answers: &mut Tuples) -> Result<Option<State>, NoMemory>
    ensures emitted { OnOk result (answers.new ≡ answers.old ++ answers_first stack.old) }
    ensures taken { IfOk result (λ s. taken_before s stack.new ≡ behind_answers stack.old) }
{
    while let Some(s) = stack.pop_front() {
        if !is_answer(&s) {
            return Ok(Some(s));
        }
        answers.push(into_tuple(s))?;
    }
    Ok(None)
}

/// Puts states before others.
fn put_before(mut front: States, stack: &mut States) -> Result<(), NoMemory>
    ensures { OnOk result (stack.new ≡ front ++ stack.old) }
{
    while let Some(s) = front.pop_back() {
        stack.push_front(s)?;
    }
    Ok(())
}

/// Depth-first search from a list of states.
fn search_from(alloc: Global, rules: &Rules, mut stack: States, n: u64) -> Result<Found, NoMemory>
    requires clauses { IsProgram (rules_of rules.now) }
    requires budget { n ≤ 2 ^ 54 }
    requires small { All (IsWithin 256 0) stack }
    ensures { IfOk result (λ f. found_of f ≡ search (rules_of rules.now) n stack) }
{
    let mut answers = Tuples::new(alloc);
    let mut left = n;
    while let Some(s) = emit(&mut stack, &mut answers)? {
        if !has_goals(&s) {
            return Ok(Found {
                answers,
                ended: true,
                fault: s.fault,
            });
        }
        if left == 0 {
            return Ok(Found {
                answers,
                ended: false,
                fault: None,
            });
        }
        left -= 1;
        put_before(children_by_rules(alloc, rules, &s)?, &mut stack)?;
    }
    Ok(Found {
        answers,
        ended: true,
        fault: None,
    })
}

/// The variables from 1 to n.
fn variables(alloc: Global, n: u64) -> Result<Args, NoMemory>
    ensures { IfOk result (λ ts. ts ≡ variables n) }
{
    let mut found = Args::new(alloc);
    for x in 0..n {
        found.push(Term::Var(x + 1))?;
    }
    Ok(found)
}

/// The state in which a query begins.
pub fn start(alloc: Global, query: &Query) -> Result<State, NoMemory>
    ensures state { IfOk result (λ s. state_of s ≡ start query.now) }
    ensures kept { IsQuery query.now }
{
    let question = query.question();
    let mut goals = Body::new(alloc);
    add_copies(alloc, question.body().as_slice(), &mut goals)?;
    Ok(State {
        goals,
        tuple: variables(alloc, question.vars())?,
        next: question.vars() + 1,
        steps: 0,
        fault: None,
    })
}

fn searched(alloc: Global, p: &Program, query: &Query, n: u64) -> Result<Found, NoMemory>
    requires { n ≤ 2 ^ 54 }
    ensures { IfOk result (λ f. found_of f ≡ search (joined p.now query.now) n (start query.now ∷ [])) }
{
    let first = start(alloc, query)?;
    let mut stack = States::new(alloc);
    stack.push_back(first)?;
    let rules = Rules {
        program: p.as_slice(),
        query: Some(query),
    };
    search_from(alloc, &rules, stack, n)
}

/// Searches with a budget of n calls: what is found within it begins the query's answers, and is all of them, or all
/// before a fault, where the search ended (ISO 13211-1, section 7.7).
pub fn search(alloc: Global, p: &Program, query: &Query, n: u64) -> Result<Found, NoMemory>
    requires { n ≤ 2 ^ 54 }
    ensures found { IfOk result (λ f. found_of f ≡ search (joined p.now query.now) n (start query.now ∷ [])) }
    ensures begins { IfOk result (λ f. (line : Trees → List ℕ) → Begins line (joined p.now query.now) (start query.now) (map line f.answers)) }
    ensures all { IfOk result (λ f. f.ended ≡ true → (line : Trees → List ℕ) → IsAllUpTo line (joined p.now query.now) (start query.now) f.fault (map line f.answers)) }
{
    let found = searched(alloc, p, query, n)?;
    Ok(found)
}

fn answers_from(
    alloc: Global,
    rules: &Rules,
    mut stack: States,
    d: u64,
) -> Result<Answers, NoMemory>
    requires clauses { IsProgram (rules_of rules.now) }
    requires depth { d ≤ 2 ^ 54 }
    requires small { All (IsShallow d) stack }
    ensures { IfOk result (λ a. answers_of a ≡ answers_of_all (rules_of rules.now) stack d) }
{
    let mut tuples = Tuples::new(alloc);
    while let Some(s) = emit(&mut stack, &mut tuples)? {
        if !has_goals(&s) {
            return Ok(Answers {
                tuples,
                fault: s.fault,
            });
        }
        if s.steps >= d {
            continue;
        }
        put_before(children_by_rules(alloc, rules, &s)?, &mut stack)?;
    }
    Ok(Answers {
        tuples,
        fault: None,
    })
}

/// The answers on whose ways at most d calls are made, in order, up to the first fault.
pub fn answers_to_depth(
    alloc: Global,
    p: &Program,
    query: &Query,
    d: u64,
) -> Result<Answers, NoMemory>
    requires { d ≤ 2 ^ 54 }
    ensures { IfOk result (λ a. answers_of a ≡ answers_to_depth (joined p.now query.now) (start query.now) d) }
{
    let first = start(alloc, query)?;
    let mut stack = States::new(alloc);
    stack.push_back(first)?;
    let rules = Rules {
        program: p.as_slice(),
        query: Some(query),
    };
    let answers = answers_from(alloc, &rules, stack, d)?;
    Ok(answers)
}
