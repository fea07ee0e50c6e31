//! Names that no goal and no head may have.

ghost use Rattle.std.specs.Prelude.{◌≡◌, map};
ghost use Rattle.ap_term.specs.TermView.{tree_of};
ghost use Rattle.ap_term.specs.GoalView.{part_of};
ghost use Rattle.ap_lifting.specs.Row.{called, row_if};
ghost use Rattle.ap_lifting.specs.BodyView.{body_of, body_if};
ghost use Rattle.ap_clause.specs.Outside as spec;

use crate::source::Source;
use ap_lifting::{Body, RuleBody};
use ap_term::{Atom, Part, Relation, Term, fixed};

fn is_refused(name: Atom) -> bool
    ensures { result ≡ spec.is_refused name }
{
    fixed::FIRST_REFUSED <= name.number() && name.number() < fixed::COUNT as u32
}

fn outside_goal(t: &Term) -> Option<Atom>
    ensures { result ≡ spec.outside_goal (tree_of t.now) }
{
    match t {
        Term::Var(_) => Some(Atom::at(fixed::CALL)),
        Term::Int(_) => None,
        Term::Atom(name) | Term::Node(name, _) => {
            if is_refused(*name) { Some(*name) } else { None }
        }
    }
}

fn outside_head(t: &Term) -> Option<Atom>
    ensures { result ≡ spec.outside_head (tree_of t.now) }
{
    let (name, is_builtin) = match t {
        Term::Var(_) | Term::Int(_) => return None,
        Term::Atom(name) => (
            *name,
            name.number() == fixed::TRUE || name.number() == fixed::FAIL,
        ),
        Term::Node(name, args) => (*name, args.len() == 2 && Relation::named(*name).is_some()),
    };
    if is_refused(name) || is_builtin {
        Some(name)
    } else {
        None
    }
}

fn outside_body(body: &Body) -> Option<Atom>
    ensures { result ≡ spec.outside_body (body_of body.now) }
{
    match body {
        Body::Goal(t) => outside_goal(t),
        Body::Conjunction(a, b) | Body::Disjunction(a, b) | Body::Parallel(a, b) => {
            match outside_body(a) {
                Some(name) => Some(name),
                None => outside_body(b),
            }
        }
        Body::Conditional(_, b) => outside_body(b),
    }
}

fn outside_part(part: &Part) -> Option<Atom>
    ensures { result ≡ spec.outside_goal (called (part_of part.now)) }
{
    match part {
        Part::Call(t) => outside_goal(t),
        Part::Group { .. } => None,
    }
}

#[tactic(auto, using(crate::proofs::GoalRows::outside_rows))]
fn outside_row(goals: &[Part]) -> Option<Atom>
    ensures { result ≡ spec.outside_rest (row_if (map part_of goals.now)) }
{
    let mut left = goals;
    while let [goal, rest @ ..] = left {
        if let Some(name) = outside_part(goal) {
            return Some(name);
        }
        left = rest;
    }
    None
}

fn outside_rest(body: &RuleBody) -> Option<Atom>
    ensures { result ≡ spec.outside_rest (body_if body.now) }
{
    match body {
        RuleBody::Row(row) => outside_row(row.goals().as_slice()),
        RuleBody::Nested(body) => outside_body(body),
    }
}

/// The first such name, head first; the head of a query isn't its own.
pub(crate) fn first_outside(source: Source, head: &Term, body: &RuleBody) -> Option<Atom>
    ensures { result ≡ spec.first_outside source (tree_of head.now, body_if body.now) }
{
    match source {
        Source::Program => match outside_head(head) {
            Some(name) => Some(name),
            None => outside_rest(body),
        },
        Source::Query => outside_rest(body),
    }
}
