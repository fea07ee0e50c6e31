//! The newest fork: its goals, and what is behind it.

ghost use Rattle.std.specs.Prelude.{◌≡◌, ◌+◌, ◌-◌, ◌^◌, ◌<◌, List, [], ◌∷◌, length, slice_get, Some, IfOk};
ghost use Rattle.ap_term.specs.Tree.{count_trees};
ghost use Rattle.ap_term.specs.UpToNames.{SameUpToNames};
ghost use Rattle.ap_cells.specs.Trees.{tree_at, trees};
ghost use Rattle.ap_instr.specs.Code.{Compiled};
ghost use Rattle.ap_group.specs.Groups.{Pushed};
ghost use Rattle.ap_term.specs.Tuples.{tuple_under};
ghost use Rattle.ap_standing.specs.Machine.{failed};
ghost use Rattle.ap_machine.specs.View.{Segment, IsFor};
ghost use Rattle.ap_machine.specs.Forks.{newest_goals, IsAtFork, IsBehindFork};

use crate::state::Search;
use crate::tuple::copy_apart;
use ap_cells::CellMark;
use ap_copy::Parcelled;
use ap_term::NoMemory;
use std::alloc::Global;

/// Places in words of 32 bits, as they are counted.
fn places_of(alloc: Global, registers: &[u32]) -> Result<Vec<usize>, NoMemory>
    ensures { IfOk result (λ places. places.items ≡ registers.now) }
{
    let mut places = Vec::new(alloc);
    for register in registers {
        places.push(*register as usize)?;
    }
    Ok(places)
}

impl Search {
    /// Goes back to the newest fork, where nothing newer is left to do.
    pub fn come_to_fork(&mut self)
        requires failed { self.old.machine.now ≡ failed }
        requires newest { self.old.machine.points ≡ [] }
        ensures some { (g : Segment) (gs : List Segment) → self.old.older ≡ g ∷ gs → IsAtFork g (g ∷ gs) self.old self.new }
        ensures none { self.old.older ≡ [] → self.new ≡ self.old }
        ensures newest { self.new.machine.points ≡ [] }
        ensures is_for { (code : Compiled) → IsFor code self.old → IsFor code self.new }
    {
        let Some(fork) = self.environments.newest_fork() else {
            return;
        };
        self.cells.undo_to(CellMark {
            cells: fork.cells as usize,
            trail: fork.trail as usize,
        });
        self.environments.leave();
        self.x.fill(0);
        self.y.fill(0);
    }

    /// Forgets the newest fork, where nothing newer is left to do: the choice points behind it are the newest then.
    pub fn forget_fork(&mut self)
        requires failed { self.old.machine.now ≡ failed }
        requires newest { self.old.machine.points ≡ [] }
        ensures some { (g : Segment) (gs : List Segment) → self.old.older ≡ g ∷ gs → IsBehindFork g gs self.old self.new }
        ensures none { self.old.older ≡ [] → self.new ≡ self.old }
        ensures is_for { (code : Compiled) → IsFor code self.old → IsFor code self.new }
    {
        self.come_to_fork();
        self.drop_fork();
    }

    /// Takes the newest fork off: the choice points behind it are the newest then.
    fn drop_fork(&mut self)
        requires newest { self.old.machine.points ≡ [] }
        ensures some { (g : Segment) (gs : List Segment) → self.old.older ≡ g ∷ gs → self.new ≡ record self.old { machine = record self.old.machine { points = g.points }; older = gs } }
        ensures none { self.old.older ≡ [] → self.new ≡ self.old }
    {
        self.environments.forget_fork();
    }

    /// Counts the goals of the newest fork; 0 where there is none.
    pub fn goals(&self) -> usize
        requires newest { self.now.machine.points ≡ [] }
        ensures { result ≡ length (newest_goals self.now.older) }
    {
        match self.environments.newest_fork() {
            Some(fork) => fork.goals as usize,
            None => 0,
        }
    }

    /// The predicate of a goal of the newest fork.
    pub fn predicate(&self, i: usize) -> u32
        requires newest { self.now.machine.points ≡ [] }
        requires place { i < length (newest_goals self.now.older) }
        ensures { (p : Pushed) × (slice_get (newest_goals self.now.older) i ≡ Some p) × (p.predicate ≡ result) }
    {
        match self.environments.goal(i) {
            Some((predicate, _)) => predicate,
            None => unreachable!(),
        }
    }

    /// Copies out the arguments of a goal of the newest fork.
    pub fn parcel(&self, i: usize) -> Result<Parcelled, NoMemory>
        requires newest { self.now.machine.points ≡ [] }
        requires place { i < length (newest_goals self.now.older) }
        ensures { IfOk result (λ parcel. (p : Pushed) × (slice_get (newest_goals self.now.older) i ≡ Some p) × SameUpToNames parcel (tuple_under (tree_at (trees self.now.machine.cells)) p.arguments) × (count_trees parcel ≡ length p.arguments)) }
    {
        let Some((_, arguments)) = self.environments.goal(i) else {
            unreachable!();
        };
        let places = places_of(self.alloc, arguments)?;
        copy_apart(self.alloc, &self.cells, &places)
    }

    /// Counts so many calls, which were made elsewhere.
    pub fn charge(&mut self, calls: u64)
        requires { self.old.spent + calls < 2 ^ 64 }
        ensures spent { self.new ≡ record self.old { spent = self.old.spent + calls } }
        ensures is_for { (code : Compiled) → IsFor code self.old → IsFor code self.new }
    {
        self.spent += calls;
    }

    /// How many calls are left to make.
    pub fn rest(&self) -> u64
        ensures { result ≡ self.now.budget - self.now.spent }
    {
        self.budget.saturating_sub(self.spent)
    }
}
