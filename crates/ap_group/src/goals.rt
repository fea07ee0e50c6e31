//! Goals that were pushed, in two lists whose memory is used again.

ghost use Rattle.std.specs.Prelude.{◌≡◌, [], ◌∷◌, ◌++◌, length, slice_get, None, Some, IfSome, OnOk, OnErr};
ghost use Rattle.ap_group.specs.Groups.{Pushed};

use ap_term::NoMemory;
use std::alloc::Global;
use std::marker::Model;

/// A goal: its predicate's number, and where its `count` arguments' places stand, from `first` on.
#[derive(Clone, Copy)]
pub struct Goal {
    pub predicate: u32,
    pub first: usize,
    pub count: usize,
}

/// The goals of a group, each a predicate's number and the places of its arguments.
#[derive(Drop)]
pub struct Goals {
    goals: Vec<Goal>,
    places: Vec<u32>,
}

impl Model for Goals {
    ghost use Rattle.std.specs.Prelude.{List};
    ghost use Rattle.ap_group.specs.Groups.{Pushed};
    ghost use Rattle.ap_group.specs.Listed.{goals_of, AreListed};

    ghost Value = { List Pushed };

    ghost view = { λ a. goals_of a.places.items a.goals.items };

    ghost invariant = { λ a. AreListed a.places.items a.goals.items };
}

impl Goals {
    /// No goal. Takes no memory.
    pub fn new(alloc: Global) -> Goals
        ensures { result ≡ [] }
    {
        Goals {
            goals: Vec::new(alloc),
            places: Vec::new(alloc),
        }
    }

    /// Forgets all goals, and keeps their memory.
    pub fn clear(&mut self)
        ensures { self.new ≡ [] }
    {
        self.goals.clear();
        self.places.clear();
    }

    /// Counts the goals.
    pub fn len(&self) -> usize
        ensures { result ≡ length self.now }
    {
        self.goals.len()
    }

    /// Puts a goal behind the others.
    pub fn push(&mut self, predicate: u32, arguments: &[u32]) -> Result<(), NoMemory>
        ensures ok { OnOk result (self.new ≡ self.old ++ record { predicate = predicate; arguments = arguments.now } ∷ []) }
        ensures err { OnErr result (self.new ≡ self.old) }
    {
        let goal = Goal {
            predicate,
            first: self.places.len(),
            count: arguments.len(),
        };
        self.goals.reserve(1)?;
        self.places.extend_from_slice(arguments)?;
        self.goals.push_reserved(goal);
        Ok(())
    }

    /// A goal's predicate and the places of its arguments. None past the last one.
    pub fn goal(&self, i: usize) -> Option<(u32, &[u32])>
        ensures none { result ≡ None → slice_get self.now i ≡ None }
        ensures some { IfSome result (λ g. slice_get self.now i ≡ Some (record { predicate = g.0; arguments = g.1.now })) }
    {
        let Some(goal) = self.goals.get(i).copied() else {
            return None;
        };
        Some((
            goal.predicate,
            &self.places[goal.first..goal.first + goal.count],
        ))
    }
}
