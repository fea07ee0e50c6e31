//! Clauses as they are written.

ghost use Rattle.std.specs.Prelude.{◌≡◌, ◌≤◌, ◌↔◌, ◌&&◌, [], IsTrue};
ghost use Rattle.std.specs.List.{list_all};
ghost use Rattle.ap_term.specs.TermView.{tree_of};
ghost use Rattle.ap_term.specs.WellFormed.{in_range, callable, numbered};
ghost use Rattle.ap_lifting.specs.Body.{numbered_condition, well_formed};
ghost use Rattle.ap_lifting.specs.BodyView.{body_of, body_if};
ghost use Rattle.ap_lifting.specs.Rule.{IsRule, well_formed_if};

use crate::bodies::{Body, Condition};
use crate::row::RuleBody;
use ap_term::{Body as Parts, Term, is_clause};
use std::alloc::Global;
use std::marker::Model;

/// A clause as it is written, whose variables are numbered from 1 to `vars` by first occurrence, at most 255.
/// Its head and goals are atoms or have 1 to 255 arguments.
#[derive(Drop)]
pub struct Rule {
    head: Term,
    body: RuleBody,
    vars: u64,
    line: u64,
}

impl Model for Rule {
    ghost use Rattle.ap_lifting.specs.Rule.{Rule as Written};
    ghost use Rattle.ap_lifting.specs.BodyCode.{rule_code};

    ghost Value = { Written };

    ghost coded = { rule_code };

    ghost use Rattle.ap_term.specs.TermView.{tree_of};
    ghost use Rattle.ap_lifting.specs.BodyView.{body_if};
    ghost use Rattle.ap_lifting.specs.Rule.{IsRule};

    ghost view = { λ a. record { head = tree_of a.head; body = body_if a.body; vars = a.vars; line = a.line } };

    ghost invariant = { λ a. IsRule (record { head = tree_of a.head; body = body_if a.body; vars = a.vars; line = a.line }) };
}

impl Rule {
    ghost use Rattle.ap_term.specs.TermView.{tree_of};
    ghost use Rattle.ap_lifting.specs.BodyView.{body_if};
    ghost use Rattle.ap_lifting.specs.Rule.{IsRule};

    /// A clause whose first token stands in that line of the text, from 1.
    pub fn new(head: Term, body: RuleBody, vars: u64, line: u64) -> Rule
        requires { IsRule (record { head = tree_of head; body = body_if body; vars = vars; line = line }) }
        ensures { result ≡ record { head = tree_of head; body = body_if body; vars = vars; line = line } }
    {
        Rule {
            head,
            body,
            vars,
            line,
        }
    }

    pub fn head(&self) -> &Term
        ensures head { tree_of result.now ≡ self.now.head }
        ensures kept { IsRule self.now }
    {
        &self.head
    }

    pub fn body(&self) -> &RuleBody
        ensures body { body_if result.now ≡ self.now.body }
        ensures kept { IsRule self.now }
    {
        &self.body
    }

    /// How many variables it has, at most 255.
    pub fn vars(&self) -> u64
        ensures vars { result ≡ self.now.vars }
        ensures few { result ≤ 255 }
    {
        self.vars
    }

    pub fn line(&self) -> u64
        ensures { result ≡ self.now.line }
    {
        self.line
    }

    /// The head and the body.
    pub fn into_parts(self) -> (Term, RuleBody)
        ensures head { tree_of result.0 ≡ self.head }
        ensures body { body_if result.1 ≡ self.body }
        ensures kept { IsRule self }
    {
        let Rule { head, body, .. } = self;
        (head, body)
    }
}

/// Whether a goal or a head can be called, with variables from 1 to n.
fn is_goal(t: &Term, n: u64, no_parts: &Parts) -> bool
    requires few { n ≤ 255 }
    requires none { no_parts.now ≡ [] }
    ensures { result ≡ (callable (tree_of t.now) && numbered n (tree_of t.now)) }
{
    is_clause(t, no_parts, n, 1)
}

fn is_in_range(n: u64, x: u64) -> bool
    ensures { result ≡ in_range n x }
{
    1 <= x && x <= n
}

fn are_conditions_numbered(n: u64, conditions: &[Condition]) -> bool
    ensures { result ≡ list_all (numbered_condition n) conditions.now }
{
    conditions.iter().all(|condition| match condition {
        Condition::True => true,
        Condition::Ground(x) => is_in_range(n, *x),
        Condition::Indep(x, y) => is_in_range(n, *x) && is_in_range(n, *y),
    })
}

fn is_body_well_formed(body: &Body, n: u64, no_parts: &Parts) -> bool
    requires few { n ≤ 255 }
    requires none { no_parts.now ≡ [] }
    ensures { result ≡ well_formed n (body_of body.now) }
{
    match body {
        Body::Goal(goal) => is_goal(goal, n, no_parts),
        Body::Conjunction(a, b) | Body::Disjunction(a, b) | Body::Parallel(a, b) => {
            is_body_well_formed(a, n, no_parts) && is_body_well_formed(b, n, no_parts)
        }
        Body::Conditional(conditions, body) => {
            are_conditions_numbered(n, conditions) && is_body_well_formed(body, n, no_parts)
        }
    }
}

/// Whether `Rule::new` takes these: at most 255 variables, each numbered from 1 to `vars`, a head and goals that can
/// be called.
pub fn is_rule(alloc: Global, head: &Term, body: &RuleBody, vars: u64, line: u64) -> bool
    ensures { IsTrue result ↔ IsRule (record { head = tree_of head.now; body = body_if body.now; vars = vars; line = line }) }
{
    if vars > 255 {
        return false;
    }
    match body {
        RuleBody::Row(row) => is_clause(head, row.goals(), vars, line),
        RuleBody::Nested(body) => {
            let no_parts = Parts::new(alloc);
            is_goal(head, vars, &no_parts) && is_body_well_formed(body, vars, &no_parts)
        }
    }
}
