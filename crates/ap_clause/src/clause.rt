//! The head and the body that a term is.

ghost use Rattle.std.specs.Prelude.{◌≡◌, [], ◌∷◌, ◌++◌, IfOk, OnOk, MatchOption, MatchResult, None, Some, true, false};
ghost use Rattle.ap_term.specs.Tree.{none, more};
ghost use Rattle.ap_term.specs.TermView.{tree_of};
ghost use Rattle.ap_lifting.specs.Body as body;
ghost use Rattle.ap_lifting.specs.BodyView.{body_of, body_if};
ghost use Rattle.ap_clause.specs.Arity.{is_one, is_pair};
ghost use Rattle.ap_clause.specs.Clause as spec;

use crate::form::Connective;
use crate::source::Source;
use ap_lifting::{Body, Condition, Row, RuleBody};
use ap_term::{Args, Atom, NoMemory, Term, copy_term, fixed};
use std::alloc::Global;

fn connective_at(name: Atom) -> Connective
    ensures { result ≡ spec.connective_at name }
{
    match name.number() {
        fixed::COMMA => Connective::And,
        fixed::SEMICOLON => Connective::Or,
        fixed::PARALLEL => Connective::Par,
        fixed::CONDITION => Connective::If,
        _ => Connective::Other,
    }
}

fn variable_in(t: &Term) -> u64
    ensures { result ≡ spec.variable_in (tree_of t.now) }
{
    match t {
        Term::Var(x) => *x,
        _ => 0,
    }
}

/// The argument, where there is one.
#[tactic(auto, using(crate::proofs::Arities::arities))]
fn only(args: &Args) -> Option<&Term>
    ensures { MatchOption result (is_one args.now ≡ false) (λ a. args.now ≡ more (tree_of a.now) none) }
{
    let terms = args.as_slice();
    if terms.len() != 1 {
        return None;
    }
    Some(&terms[0])
}

/// The two arguments, where there are two; else the arguments again.
#[tactic(auto, using(crate::proofs::Bodies::bodies))]
fn pair(args: Args) -> Result<(Term, Term), Args>
    ensures { MatchResult result (λ p. args ≡ more (tree_of p.0) (more (tree_of p.1) none)) (λ again. (again ≡ args) × (is_pair args ≡ false)) }
{
    if args.len() != 2 {
        return Err(args);
    }
    Ok(args.into_two())
}

/// Adds the conditions that stand before `=>`.
fn add_conditions(t: &Term, out: &mut Vec<Condition>) -> Result<(), NoMemory>
    ensures { OnOk result (out.new.items ≡ out.old.items ++ spec.conditions_in (tree_of t.now)) }
{
    match t {
        Term::Var(_) | Term::Int(_) => Ok(()),
        Term::Atom(_) => {
            out.push(Condition::True)?;
            Ok(())
        }
        Term::Node(name, args) => match args.as_slice() {
            [a] => {
                out.push(Condition::Ground(variable_in(a)))?;
                Ok(())
            }
            [a, b] => {
                if name.number() != fixed::COMMA {
                    out.push(Condition::Indep(variable_in(a), variable_in(b)))?;
                    return Ok(());
                }
                add_conditions(a, out)?;
                add_conditions(b, out)
            }
            _ => Ok(()),
        },
    }
}

fn conditions_in(alloc: Global, t: &Term) -> Result<Vec<Condition>, NoMemory>
    ensures { IfOk result (λ cs. cs.items ≡ spec.conditions_in (tree_of t.now)) }
{
    let mut conditions = Vec::new(alloc);
    add_conditions(t, &mut conditions)?;
    Ok(conditions)
}

fn conjunction(alloc: Global, a: Body, b: Body) -> Result<Body, NoMemory>
    ensures { IfOk result (λ x. body_of x ≡ body.conjunction (body_of a) (body_of b)) }
{
    let first = Box::new(alloc, a)?;
    let second = Box::new(alloc, b)?;
    Ok(Body::Conjunction(first, second))
}

fn disjunction(alloc: Global, a: Body, b: Body) -> Result<Body, NoMemory>
    ensures { IfOk result (λ x. body_of x ≡ body.disjunction (body_of a) (body_of b)) }
{
    let first = Box::new(alloc, a)?;
    let second = Box::new(alloc, b)?;
    Ok(Body::Disjunction(first, second))
}

fn parallel(alloc: Global, a: Body, b: Body) -> Result<Body, NoMemory>
    ensures { IfOk result (λ x. body_of x ≡ body.parallel (body_of a) (body_of b)) }
{
    let first = Box::new(alloc, a)?;
    let last = Box::new(alloc, b)?;
    Ok(Body::Parallel(first, last))
}

fn conditional(alloc: Global, conditions: Vec<Condition>, b: Body) -> Result<Body, NoMemory>
    ensures { IfOk result (λ x. body_of x ≡ body.conditional conditions.items (body_of b)) }
{
    let inner = Box::new(alloc, b)?;
    Ok(Body::Conditional(conditions, inner))
}

/// The body that a term is, made of its parts.
#[tactic(auto, using(crate::proofs::Bodies::bodies))]
fn body_in(alloc: Global, t: Term) -> Result<Body, NoMemory>
    ensures { IfOk result (λ b. body_of b ≡ spec.body_in (tree_of t)) }
{
    let Term::Node(name, args) = t else {
        return Ok(Body::Goal(t));
    };
    let connective = connective_at(name);
    if let Connective::Other = connective {
        return Ok(Body::Goal(Term::Node(name, args)));
    }
    let (a, b) = match pair(args) {
        Ok(pair) => pair,
        Err(args) => return Ok(Body::Goal(Term::Node(name, args))),
    };
    match connective {
        Connective::And => conjunction(alloc, body_in(alloc, a)?, body_in(alloc, b)?),
        Connective::Or => disjunction(alloc, body_in(alloc, a)?, body_in(alloc, b)?),
        Connective::Par => parallel(alloc, body_in(alloc, a)?, body_in(alloc, b)?),
        // Other was a goal.
        Connective::If | Connective::Other => {
            conditional(alloc, conditions_in(alloc, &a)?, body_in(alloc, b)?)
        }
    }
}

/// Whether there are two arguments.
fn is_pair(args: &Args) -> bool
    ensures { result ≡ is_pair args.now }
{
    matches!(args.as_slice(), [_, _])
}

/// Whether a term is a goal and no body of others.
fn is_goal(t: &Term) -> bool
    ensures { result ≡ spec.is_goal (spec.body_in (tree_of t.now)) }
{
    let Term::Node(name, args) = t else {
        return true;
    };
    match connective_at(*name) {
        Connective::Other => true,
        _ => !is_pair(args),
    }
}

/// Whether a body is goals that are called one after another, nested to the right.
fn is_row(t: &Term) -> bool
    ensures { result ≡ spec.is_row (spec.body_in (tree_of t.now)) }
{
    let Term::Node(name, args) = t else {
        return true;
    };
    match connective_at(*name) {
        Connective::Other => true,
        Connective::And => match args.as_slice() {
            [first, rest] => is_goal(first) && is_row(rest),
            _ => true,
        },
        _ => !is_pair(args),
    }
}

/// Adds the goals of a row.
fn add_goals(t: Term, row: &mut Row) -> Result<(), NoMemory>
    requires { spec.is_row (spec.body_in (tree_of t)) ≡ true }
    ensures { OnOk result (row.new ≡ row.old ++ spec.goals_in (spec.body_in (tree_of t))) }
{
    let Term::Node(name, args) = t else {
        return row.push(t);
    };
    let Connective::And = connective_at(name) else {
        return row.push(Term::Node(name, args));
    };
    match pair(args) {
        Ok((first, rest)) => {
            row.push(first)?;
            add_goals(rest, row)
        }
        Err(args) => row.push(Term::Node(name, args)),
    }
}

/// The body of a clause that a term is.
fn rule_body(alloc: Global, t: Term) -> Result<RuleBody, NoMemory>
    ensures { IfOk result (λ b. body_if b ≡ Some (spec.body_in (tree_of t))) }
{
    if is_row(&t) {
        let mut row = Row::new(alloc);
        add_goals(t, &mut row)?;
        return Ok(RuleBody::Row(row));
    }
    let body = body_in(alloc, t)?;
    Ok(RuleBody::Nested(Box::new(alloc, body)?))
}

/// The body of a fact.
fn no_body(alloc: Global) -> RuleBody
    ensures { body_if result ≡ None }
{
    RuleBody::Row(Row::new(alloc))
}

/// The head and the body of a rule; a fact is its head.
#[tactic(auto, using(crate::proofs::Bodies::bodies))]
fn clause_halves(alloc: Global, t: Term) -> Result<(Term, RuleBody), NoMemory>
    ensures { IfOk result (λ h. (tree_of h.0, body_if h.1) ≡ spec.clause_halves (tree_of t)) }
{
    let Term::Node(name, args) = t else {
        return Ok((t, no_body(alloc)));
    };
    if name.number() != fixed::NECK {
        return Ok((Term::Node(name, args), no_body(alloc)));
    }
    match pair(args) {
        Ok((head, rest)) => Ok((head, rule_body(alloc, rest)?)),
        Err(args) => Ok((Term::Node(name, args), no_body(alloc))),
    }
}

fn question(alloc: Global, t: &Term) -> Result<(Term, RuleBody), NoMemory>
    ensures { IfOk result (λ h. (tree_of h.0, body_if h.1) ≡ spec.question (tree_of t.now)) }
{
    let body = rule_body(alloc, copy_term(alloc, t)?)?;
    Ok((Term::Atom(Atom::at(fixed::QUERY)), body))
}

fn query_halves(alloc: Global, t: &Term) -> Result<(Term, RuleBody), NoMemory>
    ensures { IfOk result (λ h. (tree_of h.0, body_if h.1) ≡ spec.query_halves (tree_of t.now)) }
{
    let Term::Node(name, args) = t else {
        return question(alloc, t);
    };
    match only(args) {
        Some(rest) => {
            if name.number() != fixed::QUERY {
                return question(alloc, t);
            }
            question(alloc, rest)
        }
        None => question(alloc, t),
    }
}

/// The head and the body that a term is.
pub(crate) fn halves(alloc: Global, source: Source, t: Term) -> Result<(Term, RuleBody), NoMemory>
    ensures { IfOk result (λ h. (tree_of h.0, body_if h.1) ≡ spec.halves source (tree_of t)) }
{
    match source {
        Source::Program => clause_halves(alloc, t),
        Source::Query => query_halves(alloc, &t),
    }
}
