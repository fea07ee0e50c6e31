//! Unification by the textbook: delete, take apart, clash and bind, with the occurs check.

ghost use Rattle.std.specs.Prelude.{◌≡◌, ◌++◌, ◌∷◌, [], ℕ, map, length, is_ok, Option, Some, None, if◌then◌else◌, option_map, IfOk, OnOk};
ghost use Rattle.ap_term.specs.Tree.{Tree, Trees};
ghost use Rattle.ap_term.specs.TermView.{tree_of, trees_of};
ghost use Rattle.ap_term.specs.Vars.{occurs, occurs_all};
ghost use Rattle.ap_term.specs.Substitution.{value, one, instance};
ghost use Rattle.ap_term.specs.Unification.{apart, apart_all, both, replaced_by, solve, mgu};
ghost use Rattle.ap_term.specs.Unifier.{IsMostGeneral};
ghost use Rattle.ap_spec.specs.Pairs.{answered, bound_by, taken_before, taken_behind};
ghost use Rattle.ap_spec.specs.Elimination.{eliminated, resolved};

use crate::substitutions::{Binding, One, Subst};
use ap_term::{Bindings, NoMemory, Term, add_vars, copy_term, instance, vars};
use std::alloc::Global;
use std::collections::VecDeque;
use std::marker::Model;

/// Equations of a variable and a term, the next one first.
#[derive(Drop)]
pub struct Equations {
    pairs: VecDeque<Binding>,
}

impl Model for Equations {
    ghost use Rattle.std.specs.Coded.{coded_list, coded×, coded_ℕ};
    ghost use Rattle.std.specs.Prelude.{map};
    ghost use Rattle.ap_term.specs.TreeCode.{tree_code};
    ghost use Rattle.ap_term.specs.Unification.{Equations as Pairs};

    ghost Value = { Pairs };

    ghost coded = { coded_list (coded× coded_ℕ tree_code) };

    ghost use Rattle.ap_spec.specs.Pairs.{pair_of};

    ghost view = { λ a. map pair_of a.pairs.items };
}

impl Equations {
    fn new(alloc: Global) -> Equations
        ensures { result ≡ [] }
    {
        Equations {
            pairs: VecDeque::new(alloc),
        }
    }

    fn add(&mut self, variable: u64, term: Term) -> Result<(), NoMemory>
        ensures { self.new ≡ (if is_ok result then self.old ++ (variable, tree_of term) ∷ [] else self.old) }
    {
        self.pairs.push_back(Binding { variable, term })?;
        Ok(())
    }

    fn take_first(&mut self) -> Option<Binding>
        ensures { self.old ≡ taken_before result self.new }
    {
        match self.pairs.pop_front() {
            Some(first) => Some(first),
            None => None,
        }
    }

    fn take_last(&mut self) -> Option<Binding>
        ensures { self.old ≡ taken_behind self.new result }
    {
        match self.pairs.pop_back() {
            Some(last) => Some(last),
            None => None,
        }
    }
}

/// Adds the equations into which t = u comes apart; false at a clash. The last arguments are walked by a loop.
#[tactic(auto, using(crate::proofs::Apart::rules_of_apart))]
#[cycle(apart)]
fn apart(alloc: Global, t: &Term, u: &Term, out: &mut Equations) -> Result<bool, NoMemory>
    ensures { IfOk result (λ b. answered b out.new ≡ both (Some out.old) (apart (tree_of t.now) (tree_of u.now))) }
{
    let mut left = t;
    let mut right = u;
    loop {
        match (left, right) {
            (Term::Var(x), Term::Var(y)) if *x == *y => return Ok(true),
            (Term::Var(x), _) => {
                out.add(*x, copy_term(alloc, right)?)?;
                return Ok(true);
            }
            (_, Term::Var(y)) => {
                out.add(*y, copy_term(alloc, left)?)?;
                return Ok(true);
            }
            (Term::Int(m), Term::Int(n)) => return Ok(*m == *n),
            (Term::Atom(a), Term::Atom(b)) => return Ok(*a == *b),
            (Term::Node(a, ts), Term::Node(b, us)) if *a == *b => {
                match (ts.split_last(), us.split_last()) {
                    (Some((t, front)), Some((u, back))) => {
                        if !apart_all(alloc, front, back, out)? {
                            return Ok(false);
                        }
                        left = t;
                        right = u;
                    }
                    (None, None) => return Ok(true),
                    _ => return Ok(false),
                }
            }
            _ => return Ok(false),
        }
    }
}

#[tactic(auto, using(crate::proofs::Apart::rules_of_apart))]
#[cycle(apart)]
fn apart_all(alloc: Global, ts: &[Term], us: &[Term], out: &mut Equations) -> Result<bool, NoMemory>
    ensures { IfOk result (λ b. answered b out.new ≡ both (Some out.old) (apart_all (trees_of ts.now) (trees_of us.now))) }
{
    if ts.len() != us.len() {
        return Ok(false);
    }
    for i in 0..ts.len() {
        if !apart(alloc, &ts[i], &us[i], out)? {
            return Ok(false);
        }
    }
    Ok(true)
}

/// Whether a variable stands in a term. The last arguments are walked by a loop.
#[tactic(auto, using(crate::proofs::Occurrences::rules_of_occurs))]
#[cycle(occurs)]
fn occurs(x: u64, t: &Term) -> bool
    ensures { result ≡ occurs x (tree_of t.now) }
{
    let mut at = t;
    loop {
        match at {
            Term::Var(y) => return x == *y,
            Term::Int(_) | Term::Atom(_) => return false,
            Term::Node(_, args) => {
                let Some((last, front)) = args.split_last() else {
                    return false;
                };
                if occurs_among(x, front) {
                    return true;
                }
                at = last;
            }
        }
    }
}

#[tactic(auto, using(crate::proofs::Occurrences::rules_of_occurs))]
#[cycle(occurs)]
fn occurs_among(x: u64, terms: &[Term]) -> bool
    ensures { result ≡ occurs_all x (trees_of terms.now) }
{
    for t in terms {
        if occurs(x, t) {
            return true;
        }
    }
    false
}

/// Adds the instance of one equation, taken apart; false at a clash.
fn replace_one(
    alloc: Global,
    one: &One,
    equation: &Binding,
    out: &mut Equations,
) -> Result<bool, NoMemory>
    ensures { IfOk result (λ b. answered b out.new ≡ both (Some out.old) (apart (bound_by one.now equation.now.variable) (instance (bound_by one.now) (tree_of equation.now.term)))) }
{
    let left = one.term_for(alloc, equation.variable)?;
    let right = instance(alloc, one, &equation.term)?;
    apart(alloc, &left, &right, out)
}

/// The instances of equations, taken apart; None at a clash.
#[tactic(auto, using(crate::proofs::Apart::both_assoc))]
fn replaced(
    alloc: Global,
    one: &One,
    equations: &mut Equations,
) -> Result<Option<Equations>, NoMemory>
    ensures { IfOk result (λ es. es ≡ replaced_by (bound_by one.now) equations.old) }
{
    let mut next = Equations::new(alloc);
    while let Some(equation) = equations.take_first() {
        if !replace_one(alloc, one, &equation, &mut next)? {
            return Ok(None);
        }
    }
    Ok(Some(next))
}

/// The equations that bind a variable each, where there are at most n variables; None at a clash or a failed occurs check.
fn eliminated(alloc: Global, n: usize, equations: Equations) -> Result<Option<Equations>, NoMemory>
    ensures { IfOk result (λ es. es ≡ eliminated n equations) }
{
    let mut bound = Equations::new(alloc);
    let mut left = n;
    let mut open = equations;
    while let Some(first) = open.take_first() {
        if left == 0 || occurs(first.variable, &first.term) {
            return Ok(None);
        }
        match replaced(alloc, &One { binding: &first }, &mut open)? {
            Some(next) => open = next,
            None => return Ok(None),
        }
        bound.add(first.variable, first.term)?;
        left -= 1;
    }
    Ok(Some(bound))
}

/// The solution before which these equations bind their variables.
fn resolved(alloc: Global, equations: Equations) -> Result<Subst, NoMemory>
    ensures { IfOk result (λ s. s ≡ resolved equations []) }
{
    let mut solution = Subst::new(alloc);
    let mut bound = equations;
    while let Some(last) = bound.take_last() {
        let term = instance(alloc, &solution, &last.term)?;
        solution.bind(last.variable, term)?;
    }
    Ok(solution)
}

fn solution(alloc: Global, a: &Term, b: &Term) -> Result<Option<Subst>, NoMemory>
    ensures { IfOk result (λ s. s ≡ mgu (tree_of a.now) (tree_of b.now)) }
{
    let mut equations = Equations::new(alloc);
    if !apart(alloc, a, b, &mut equations)? {
        return Ok(None);
    }
    let mut variables = vars(alloc, a)?;
    add_vars(b, &mut variables)?;
    match eliminated(alloc, variables.as_slice().len(), equations)? {
        Some(bound) => Ok(Some(resolved(alloc, bound)?)),
        None => Ok(None),
    }
}

/// A most general unifier (ISO 13211-1, section 7.3.2); None comes exactly where no unifier exists.
pub fn unify(alloc: Global, a: &Term, b: &Term) -> Result<Option<Subst>, NoMemory>
    ensures mgu { IfOk result (λ s. s ≡ mgu (tree_of a.now) (tree_of b.now)) }
    ensures general { IfOk result (λ s. IsMostGeneral (tree_of a.now) (tree_of b.now) s) }
{
    let s = solution(alloc, a, b)?;
    Ok(s)
}
