//! How large a clause is with what is lifted from it, before anything is lifted.

ghost use Rattle.std.specs.Prelude.{◌≡◌, ℕ};
ghost use Rattle.ap_lifting.specs.BodyView.{body_of, body_if};
ghost use Rattle.ap_lifting.specs.Lifted.{lifted_rule};
ghost use Rattle.ap_lifting.specs.Sizes.{held, AreSizesOf, predicates_if, measured, measured_if, measured_operand, held_measure};

use crate::bodies::Body;
use crate::row::RuleBody;
use crate::rules::Rule;

/// Of a clause with what is lifted from it. Each number that 64 bits don't hold is their greatest.
#[derive(Debug, Clone, Copy, PartialEq, Eq)]
pub struct Sizes {
    /// How many predicates are lifted.
    pub predicates: u64,
    /// How many clauses are lifted.
    pub clauses: u64,
    /// The most goals of one clause; each goal of a group is one.
    pub goals: u64,
    /// The goals of the largest group.
    pub group: u64,
}

/// The same of the body's parts, and apart from them of what is lifted.
#[derive(Clone, Copy)]
struct Measure {
    predicates: u64,
    clauses: u64,
    goals: u64,
    group: u64,
    lifted_goals: u64,
    lifted_group: u64,
}

impl Measure {
    ghost use Rattle.ap_lifting.specs.Sizes.{held_measure, row, one_goal, one_after_other, measured_either, measured_raised, measured_group};

    /// Of two bodies, one after the other.
    fn then(self, next: Measure) -> Measure
        ensures { (a b : Measure) → self ≡ held_measure a → next ≡ held_measure b → result ≡ held_measure (one_after_other a b) }
    {
        Measure {
            predicates: self.predicates.saturating_add(next.predicates),
            clauses: self.clauses.saturating_add(next.clauses),
            goals: self.goals.saturating_add(next.goals),
            group: self.group.max(next.group),
            lifted_goals: self.lifted_goals.max(next.lifted_goals),
            lifted_group: self.lifted_group.max(next.lifted_group),
        }
    }

    /// Of a body of one goal.
    fn one_goal() -> Measure
        ensures { result ≡ held_measure one_goal }
    {
        Measure {
            predicates: 0,
            clauses: 0,
            goals: 1,
            group: 0,
            lifted_goals: 0,
            lifted_group: 0,
        }
    }

    /// Of a body of so many goals, called one after another.
    fn row(goals: u64) -> Measure
        ensures { result ≡ held_measure (row goals) }
    {
        Measure {
            predicates: 0,
            clauses: 0,
            goals,
            group: 0,
            lifted_goals: 0,
            lifted_group: 0,
        }
    }

    /// Of the call of a predicate to which two bodies are lifted.
    fn or(self, other: Measure) -> Measure
        ensures { (a b : Measure) → self ≡ held_measure a → other ≡ held_measure b → result ≡ held_measure (measured_either a b) }
    {
        let both = self.then(other);
        Measure {
            predicates: both.predicates.saturating_add(1),
            clauses: both.clauses.saturating_add(2),
            goals: 1,
            group: 0,
            lifted_goals: self.goals.max(other.goals).max(both.lifted_goals),
            lifted_group: both.group.max(both.lifted_group),
        }
    }

    /// Of a group of the goals of both.
    fn beside(self, last: Measure) -> Measure
        ensures { (a b : Measure) → self ≡ held_measure a → last ≡ held_measure b → result ≡ held_measure (measured_group a b) }
    {
        let both = self.then(last);
        Measure {
            group: both.goals,
            ..both
        }
    }

    /// Of a lifted body's call.
    fn raised(self) -> Measure
        ensures { (a : Measure) → self ≡ held_measure a → result ≡ held_measure (measured_raised a) }
    {
        Measure {
            predicates: self.predicates.saturating_add(1),
            clauses: self.clauses.saturating_add(1),
            goals: 1,
            group: 0,
            lifted_goals: self.goals.max(self.lifted_goals),
            lifted_group: self.group.max(self.lifted_group),
        }
    }
}

/// Of an operand of `&`, which may be a group that goes on where it is the last one.
#[cycle(measure)]
fn measure_operand(body: &Body, is_last: bool) -> Measure
    ensures { result ≡ held_measure (measured_operand is_last (body_of body.now)) }
{
    let measure = measure_body(body);
    match body {
        Body::Goal(_) | Body::Disjunction(..) => measure,
        Body::Parallel(..) => { if is_last { measure } else { measure.raised() } }
        Body::Conjunction(..) | Body::Conditional(..) => measure.raised(),
    }
}

#[cycle(measure)]
fn measure_body(body: &Body) -> Measure
    ensures { result ≡ held_measure (measured (body_of body.now)) }
{
    match body {
        Body::Goal(_) => Measure::one_goal(),
        Body::Conjunction(first, second) => measure_body(first).then(measure_body(second)),
        Body::Disjunction(first, second) => measure_body(first).or(measure_body(second)),
        Body::Parallel(first, last) => {
            measure_operand(first, false).beside(measure_operand(last, true))
        }
        Body::Conditional(_, body) => measure_body(body),
    }
}

fn measure_if(body: &RuleBody) -> Measure
    ensures { result ≡ held_measure (measured_if (body_if body.now)) }
{
    match body {
        RuleBody::Row(row) => Measure::row(row.goals().as_slice().len() as u64),
        RuleBody::Nested(body) => measure_body(body),
    }
}

/// How many predicates are lifted from a body.
pub fn predicates_of(body: &RuleBody) -> u64
    ensures { result ≡ held (predicates_if (body_if body.now)) }
{
    measure_if(body).predicates
}

/// The sizes of a clause with what is lifted from it, whatever the lifted predicates are called.
pub fn sizes_of(rule: &Rule) -> Sizes
    ensures { (names : ℕ → ℕ) (n : ℕ) → AreSizesOf n (lifted_rule names rule.now n) result }
{
    let measure = measure_if(rule.body());
    Sizes {
        predicates: measure.predicates,
        clauses: measure.clauses,
        goals: measure.goals.max(measure.lifted_goals),
        group: measure.group.max(measure.lifted_group),
    }
}
