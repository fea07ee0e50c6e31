//! Rows of goals, which most bodies are.

ghost use Rattle.std.specs.Prelude.{◌≡◌, ◌++◌, ◌∷◌, [], true, OnOk};
ghost use Rattle.std.specs.List.{list_all};
ghost use Rattle.ap_term.specs.Goals.{call};
ghost use Rattle.ap_term.specs.TermView.{tree_of};
ghost use Rattle.ap_lifting.specs.Row.{is_call};

use crate::bodies::Body;
use ap_term::{Body as Parts, NoMemory, Part, Term};
use std::alloc::Global;
use std::marker::Model;

/// Goals that are called one after another, as the parts of a clause's body.
#[derive(Drop)]
pub struct Row {
    goals: Parts,
}

impl Model for Row {
    ghost use Rattle.std.specs.Prelude.{List};
    ghost use Rattle.ap_term.specs.Goals.{Part as Goal};
    ghost use Rattle.ap_term.specs.GoalCode.{body_code};

    ghost Value = { List Goal };

    ghost coded = { body_code };

    ghost view = { λ a. a.goals };

    ghost use Rattle.std.specs.Prelude.{◌≡◌, true};
    ghost use Rattle.std.specs.List.{list_all};
    ghost use Rattle.ap_lifting.specs.Row.{is_call};

    ghost invariant = { λ a. list_all is_call a.goals ≡ true };
}

/// The body of a clause as it is written.
#[derive(Drop)]
pub enum RuleBody {
    /// A fact has no goals.
    Row(Row),
    /// What else is written.
    Nested(Box<Body>),
}

impl Row {
    pub fn new(alloc: Global) -> Row
        ensures { result ≡ [] }
    {
        Row {
            goals: Parts::new(alloc),
        }
    }

    /// Adds a goal behind the others.
    pub fn push(&mut self, goal: Term) -> Result<(), NoMemory>
        ensures { OnOk result (self.new ≡ self.old ++ call (tree_of goal) ∷ []) }
    {
        self.goals.push(Part::Call(goal))
    }

    /// The goals, each a call.
    pub fn goals(&self) -> &Parts
        ensures goals { result.now ≡ self.now }
        ensures calls { list_all is_call self.now ≡ true }
    {
        &self.goals
    }

    /// The parts of a clause's body that the goals are.
    pub fn into_parts(self) -> Parts
        ensures goals { result ≡ self }
        ensures calls { list_all is_call self ≡ true }
    {
        let Row { goals } = self;
        goals
    }
}
