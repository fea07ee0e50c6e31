//! The answers of goals that ran alone, put into the state that was forked.

ghost use Rattle.std.specs.Prelude.{◌≡◌, ◌+◌, ◌-◌, ◌<◌, ◌^◌, [], map, IfOk};
ghost use Rattle.ap_term.specs.TermView.{tree_of, trees_of};
ghost use Rattle.ap_term.specs.GoalView.{part_of};
ghost use Rattle.ap_term.specs.Goals.{instance_part};
ghost use Rattle.ap_term.specs.Substitution.{instance_all};
ghost use Rattle.ap_spec.specs.States.{state_of, behind_of};
ghost use Rattle.ap_laws.specs.Graft.{graft_state, lifted_var};
ghost use Rattle.ap_term.specs.Tuples.{arguments};
ghost use Rattle.ap_core.specs.Fitting.{found, found_all, lent};
ghost use Rattle.ap_core.specs.Relation.{plain_answer, with_answers};
ghost use Rattle.ap_core.specs.TaskView.{answer_of, slots_view};

use crate::tasks::{Answer, Progress, Slot};
use ap_spec::{Behind, State, add_calls, first_goal};
use ap_term::{
    Args, Bindings, Body, NoMemory, Part, Same, Term, add_copies, add_instances, copy_term,
    instances,
};
use std::alloc::Global;

/// The variables of a goal that ran alone from `from` on, where it is put in at `to`: its own stay, the new ones move.
#[derive(Drop)]
struct Lifted {
    from: u64,
    to: u64,
}

impl Bindings for Lifted {
    ghost use Rattle.ap_laws.specs.Graft.{lifted_var};

    ghost term_at = { λ s. lifted_var s.from s.to };

    fn term_for(&self, _alloc: Global, variable: u64) -> Result<Term, NoMemory> {
        if variable < self.from {
            return Ok(Term::Var(variable));
        }
        match self.to.checked_add(variable - self.from) {
            Some(moved) => Ok(Term::Var(moved)),
            None => Err(NoMemory),
        }
    }
}

/// Bindings by which the variables of some terms become what stands in their places in others.
#[derive(Drop)]
struct Fitted<'a> {
    pattern: &'a [Term],
    tuple: &'a [Term],
}

impl Bindings for Fitted<'_> {
    ghost use Rattle.std.specs.Prelude.{[]};
    ghost use Rattle.ap_term.specs.TermView.{trees_of};
    ghost use Rattle.ap_term.specs.Substitution.{value};
    ghost use Rattle.ap_laws.specs.Graft.{fit_all};

    ghost term_at = { λ s. value (fit_all (trees_of s.pattern.now) (trees_of s.tuple.now) []) };

    #[tactic(auto, using(crate::proofs::Fitting::fitted_rows))]
    fn term_for(&self, alloc: Global, variable: u64) -> Result<Term, NoMemory> {
        match find_all(variable, self.pattern, self.tuple) {
            Some(t) => copy_term(alloc, t),
            None => Ok(Term::Var(variable)),
        }
    }
}

/// The subterm of t in the place of the first x of the pattern. The last arguments are walked by a loop.
#[tactic(auto, using(crate::proofs::Fitting::found_rows))]
#[cycle(find)]
fn find<'a>(x: u64, p: &Term, t: &'a Term) -> Option<&'a Term>
    ensures { lent result ≡ found x (tree_of p.now) (tree_of t.now) }
{
    let mut pattern = p;
    let mut at = t;
    loop {
        match (pattern, at) {
            (Term::Var(y), _) => return if *y == x { Some(at) } else { None },
            (Term::Node(_, ps), Term::Node(_, ts)) => {
                if ps.len() != ts.len() {
                    return find_all(x, ps.as_slice(), ts.as_slice());
                }
                let (Some((p, front)), Some((t, before))) = (ps.split_last(), ts.split_last())
                else {
                    return None;
                };
                if let Some(subterm) = find_all(x, front, before) {
                    return Some(subterm);
                }
                pattern = p;
                at = t;
            }
            _ => return None,
        }
    }
}

#[tactic(auto, using(crate::proofs::Fitting::found_rows))]
#[cycle(find)]
fn find_all<'a>(x: u64, ps: &[Term], ts: &'a [Term]) -> Option<&'a Term>
    ensures { lent result ≡ found_all x (trees_of ps.now) (trees_of ts.now) }
{
    for i in 0..ps.len().min(ts.len()) {
        if let Some(subterm) = find(x, &ps[i], &ts[i]) {
            return Some(subterm);
        }
    }
    None
}

/// A goal's tuple, where it is run alone.
pub fn arguments(goal: &Term) -> &[Term]
    ensures { trees_of result.now ≡ arguments (tree_of goal.now) }
{
    match goal {
        Term::Node(_, args) => args.as_slice(),
        Term::Var(_) => std::slice::from_ref(goal),
        Term::Int(_) | Term::Atom(_) => &[],
    }
}

/// The sum of two counts. One that no number holds is answered as want of memory.
pub fn sum(a: u64, b: u64) -> Result<u64, NoMemory>
    ensures { IfOk result (λ n. n ≡ a + b) }
{
    a.checked_add(b).ok_or(NoMemory)
}

/// Terms of their own with the same trees.
#[tactic(auto, using(ap_term::proofs::Copies::instance_all_var))]
pub fn copy_terms(alloc: Global, terms: &[Term]) -> Result<Args, NoMemory>
    ensures { IfOk result (λ us. us ≡ trees_of terms.now) }
{
    let copies = instances(alloc, &Same, terms)?;
    Ok(copies)
}

fn copy_body(alloc: Global, parts: &[Part]) -> Result<Body, NoMemory>
    ensures { IfOk result (λ ps. ps ≡ map part_of parts.now) }
{
    let mut goals = Body::new(alloc);
    add_copies(alloc, parts, &mut goals)?;
    Ok(goals)
}

pub fn copy_state(alloc: Global, s: &State) -> Result<State, NoMemory>
    ensures { IfOk result (λ t. state_of t ≡ state_of s.now) }
{
    Ok(State {
        goals: copy_body(alloc, s.goals.as_slice())?,
        tuple: copy_terms(alloc, s.tuple.as_slice())?,
        next: s.next,
        steps: s.steps,
        fault: s.fault,
    })
}

/// The instances of the goals behind the first one.
fn instances_behind<B: Bindings>(
    alloc: Global,
    bindings: &B,
    rest: &Behind,
) -> Result<Body, NoMemory>
    ensures { IfOk result (λ ps. ps ≡ map (instance_part (B.term_at bindings.now)) (behind_of rest.now)) }
{
    let mut goals = Body::new(alloc);
    add_calls(alloc, bindings, rest.calls, &mut goals)?;
    add_instances(alloc, bindings, rest.parts, &mut goals)?;
    Ok(goals)
}

/// A tuple of a goal that ran alone from b on, where the goal is put in at n.
fn lifted_tuple(alloc: Global, b: u64, n: u64, tuple: &[Term]) -> Result<Args, NoMemory>
    ensures { IfOk result (λ us. us ≡ instance_all (lifted_var b n) (trees_of tuple.now)) }
{
    let lifted = Lifted { from: b, to: n };
    let moved = instances(alloc, &lifted, tuple)?;
    Ok(moved)
}

/// The state with an answer of its first goal, which was run alone from b on.
fn graft(alloc: Global, b: u64, s: &State, answer: &Answer) -> Result<State, NoMemory>
    ensures { IfOk result (λ t. state_of t ≡ graft_state b (state_of s.now) (plain_answer (answer_of answer.now))) }
{
    let Some((goal, rest)) = first_goal(s.goals.as_slice()) else {
        return copy_state(alloc, s);
    };
    let moved = lifted_tuple(alloc, b, s.next, answer.tuple.as_slice())?;
    let fitted = Fitted {
        pattern: arguments(goal),
        tuple: moved.as_slice(),
    };
    let goals = instances_behind(alloc, &fitted, &rest)?;
    let tuple = instances(alloc, &fitted, s.tuple.as_slice())?;
    let next = sum(s.next, answer.next.saturating_sub(b))?;
    let steps = sum(s.steps, answer.steps)?;
    Ok(State {
        goals,
        tuple,
        next,
        steps,
        fault: None,
    })
}

/// The state with the answers of the slots, whose goals began at b; those from the first one without an answer on are
/// left out.
#[tactic(auto, using(crate::proofs::Views::slot_rows))]
pub fn with_answers(
    alloc: Global,
    slots: &[Slot],
    b: u64,
    forked: &State,
) -> Result<State, NoMemory>
    ensures { IfOk result (λ s. state_of s ≡ with_answers (slots_view slots.now) b (state_of forked.now)) }
{
    let mut joined = copy_state(alloc, forked)?;
    for x in slots {
        match &x.progress {
            Progress::Answered { answer, .. } | Progress::Again { answer, .. } => {
                joined = graft(alloc, b, &joined, answer)?;
            }
            _ => return Ok(joined),
        }
    }
    Ok(joined)
}
