//! Answers of a group's goals.

ghost use Rattle.std.specs.Prelude.{◌≡◌, ◌<◌, ◌≤◌, List, [], ◌∷◌, length, map, take, false, IfOk, OnOk, OnErr};
ghost use Rattle.std.specs.List.{AllByRecursion};
ghost use Rattle.ap_cells.specs.Store.{Keeps};
ghost use Rattle.ap_environments.specs.Kept.{Forked};
ghost use Rattle.ap_instr.specs.Code.{Compiled};
ghost use Rattle.ap_match.specs.Fits.{Answered};
ghost use Rattle.ap_group.specs.Meets.{MeetAll, AreInside};
ghost use Rattle.ap_standing.specs.Machine.{failed};
ghost use Rattle.ap_machine.specs.Sane.{HasFrames};
ghost use Rattle.ap_machine.specs.View.{Segment, pushed_of, IsFor};
ghost use Rattle.ap_machine.specs.Forks.{IsAtFork, Rejoined};

use crate::state::{Now, Search};
use ap_cells::Cells;
use ap_copy::Parcelled;
use ap_environments::Environments;
use ap_group::Goals;
use ap_rejoin::meet_all;
use ap_term::NoMemory;
use ap_unify::Work;

/// Lists the goals of the newest fork.
fn list_goals(environments: &Environments, goals: &mut Goals) -> Result<(), NoMemory>
    requires newest { environments.now.moments ≡ [] }
    requires frames { AllByRecursion HasFrames environments.now.forks }
    ensures { OnOk result ((f : Forked) (fs : List Forked) → environments.now.forks ≡ f ∷ fs → goals.new ≡ map pushed_of (take f.fork.goals f.returns)) }
{
    goals.clear();
    let Some(fork) = environments.newest_fork() else {
        return Ok(());
    };
    for i in 0..fork.goals as usize {
        match environments.goal(i) {
            Some((predicate, arguments)) => goals.push(predicate, arguments)?,
            None => unreachable!(),
        }
    }
    Ok(())
}

/// Makes the arguments of each goal an instance of its answer, if all of them can be. Else, and without memory, the cells are
/// as before.
fn meet_or_undo(
    cells: &mut Cells,
    goals: &Goals,
    answers: &[Parcelled],
    work: &mut Work,
) -> Result<bool, NoMemory>
    requires { AreInside (length cells.old.cells) goals.now }
    ensures answered { IfOk result (λ r. Answered cells.old.cells cells.new.cells (MeetAll goals.now answers.now) r) }
    ensures apart { IfOk result (λ r. r ≡ false → cells.new.cells ≡ cells.old.cells) }
    ensures undone { OnErr result (cells.new.cells ≡ cells.old.cells) }
    ensures keeps { Keeps cells.old cells.new }
    ensures longer { length cells.old.cells ≤ length cells.new.cells }
{
    cells.is_store();
    let mark = cells.mark();
    let met = meet_all(cells, goals, answers, work);
    if !matches!(&met, Ok(true)) {
        cells.undo_to(mark);
    }
    met
}

impl Search {
    /// Copies answers of the newest fork's goals in, one of each goal. If they can all be met, the search goes on behind the
    /// group. Else, and without memory, it is at the fork.
    pub fn rejoin(&mut self, answers: &[Parcelled]) -> Result<bool, NoMemory>
        requires failed { self.old.machine.now ≡ failed }
        requires newest { self.old.machine.points ≡ [] }
        requires fork { 0 < length self.old.older }
        ensures met { IfOk result (λ met. (g : Segment) (gs : List Segment) → self.old.older ≡ g ∷ gs → Rejoined g answers.now self.old self.new met) }
        ensures err { OnErr result ((g : Segment) (gs : List Segment) → self.old.older ≡ g ∷ gs → IsAtFork g (g ∷ gs) self.old self.new) }
        ensures is_for { (code : Compiled) → IsFor code self.old → IsFor code self.new }
    {
        self.come_to_fork();
        list_goals(&self.environments, &mut self.goals)?;
        if !meet_or_undo(&mut self.cells, &self.goals, answers, &mut self.work)? {
            return Ok(false);
        }
        self.environments.go_behind_goals();
        self.next = Now::Returning;
        Ok(true)
    }
}
