//! A group at which the search stands.

ghost use Rattle.std.specs.Prelude.{◌≡◌, ℕ, ◌<◌, ◌≤◌, ◌++◌, length, drop, map, slice_get, None, Some, true, false, Ok, IfOk, OnOk, OnErr};
ghost use Rattle.ap_cells.specs.Store.{Keeps};
ghost use Rattle.ap_environments.specs.declared.environments.Fork.{Fork as ForkOf};
ghost use Rattle.ap_instr.specs.declared.compiled.Predicate.{Predicate};
ghost use Rattle.ap_instr.specs.Code.{Compiled};
ghost use Rattle.ap_instr.specs.Steps.{steps_from};
ghost use Rattle.ap_group.specs.Gathers.{IsGroupAt};
ghost use Rattle.ap_needs.specs.Needs.{AllHaveTargets};
ghost use Rattle.ap_steps.specs.Moves.{HoldPlaces};
ghost use Rattle.ap_standing.specs.Machine.{inside};
ghost use Rattle.ap_machine.specs.View.{IsFor, Paused};
ghost use Rattle.ap_machine.specs.Stands.{IsAtGroup};
ghost use Rattle.ap_machine.specs.Ahead.{goals_ahead, goals_said};
ghost use Rattle.ap_machine.specs.Forking.{frame_of, frames_on, with_fork, HasKept, ForksTo, HasForked, HasPlainWay, HasGonePlain, HasGoneOn};

use crate::control::{behind, save_x, save_y};
use crate::state::{Now, Search};
use crate::words::narrow;
use ap_cells::{Cells, Walk};
use ap_codecheck::Sound;
use ap_control::{instruction_at, used};
use ap_environments::{Environments, Fork};
use ap_group::{Gathered, Goals, gather, plain_way};
use ap_instr::{Code, Instr};
use ap_marks::Marks;
use ap_term::NoMemory;
use ap_unify::Work;
use std::alloc::Global;

/// Puts on a frame for each goal, the first goal's on top. Without memory nothing changes.
fn push_frames(environments: &mut Environments, goals: &Goals) -> Result<(), NoMemory>
    ensures ok { OnOk result (environments.new ≡ record environments.old { returns = map frame_of goals.now ++ environments.old.returns }) }
    ensures err { OnErr result (environments.new ≡ environments.old) }
{
    let count = goals.len();
    let mut left = count;
    'frames: while left > 0 {
        let Some((predicate, arguments)) = goals.goal(left - 1) else {
            unreachable!();
        };
        match environments.push(predicate, arguments) {
            Ok(()) => left -= 1,
            Err(error) => {
                environments.leave_some(count - left);
                return Err(error);
            }
        }
    }
    Ok(())
}

/// Keeps a fork for goals, with a return behind their group, and takes off all returns. Without memory nothing changes.
fn put_fork(
    environments: &mut Environments,
    place: u32,
    y: &[u32],
    goals: &Goals,
    fork: Fork,
) -> Result<(), NoMemory>
    requires { fork.goals ≡ length goals.now }
    ensures ok { OnOk result (environments.new ≡ with_fork fork (frames_on goals.now (record { place = place; y = y.now }) environments.old.returns) environments.old) }
    ensures err { OnErr result (environments.new ≡ environments.old) }
{
    environments.push(place, y)?;
    match push_frames(environments, goals) {
        Ok(()) => match environments.keep_fork(fork) {
            Ok(()) => {
                environments.leave();
                Ok(())
            }
            Err(error) => {
                environments.leave_some(goals.len() + 1);
                Err(error)
            }
        },
        Err(error) => {
            environments.leave_some(1);
            Err(error)
        }
    }
}

/// Keeps a fork at this moment for the goals of a group that ends at a place. Without memory nothing changes.
fn keep_goals(
    cells: &Cells,
    environments: &mut Environments,
    y: &[u32],
    to: usize,
    goals: &Goals,
) -> Result<(), NoMemory>
    ensures ok { OnOk result (HasKept cells.now to y.now goals.now environments.old environments.new) }
    ensures err { OnErr result (environments.new ≡ environments.old) }
{
    let Ok(count) = u8::try_from(goals.len()) else {
        return Err(NoMemory);
    };
    let place = behind(to)?;
    cells.is_store();
    let mark = cells.mark();
    let fork = Fork {
        cells: narrow(mark.cells)?,
        trail: narrow(mark.trail)?,
        goals: count,
    };
    put_fork(environments, place, used(y), goals, fork)
}

/// Runs the group at a place, and keeps a fork for its goals, where they are pushed. Where an instruction can't be taken, and
/// without memory, cells and environments are as they were.
fn fork_or_undo(
    cells: &mut Cells,
    environments: &mut Environments,
    x: &mut [u32],
    y: &mut [u32],
    sound: &Sound,
    at: usize,
    goals: &mut Goals,
    work: &mut Work,
    alloc: Global,
) -> Result<Option<Gathered>, NoMemory>
    requires here { IsGroupAt sound.now at }
    requires targets { (p : ℕ) → AllHaveTargets (drop p sound.now.instructions) (length x.old) (length y.old) }
    requires arities { (n : ℕ) (q : Predicate) → slice_get sound.now.predicates n ≡ Some q → q.arity < length x.old }
    requires holds_x { HoldPlaces (length cells.old.cells) x.old }
    requires holds_y { HoldPlaces (length cells.old.cells) y.old }
    ensures forks { IfOk result (λ led. ForksTo sound.now at cells.old x.old y.old led cells.new x.new y.new goals.new environments.old environments.new) }
    ensures undone { OnErr result (cells.new.cells ≡ cells.old.cells) }
    ensures none_kept { OnErr result (environments.new ≡ environments.old) }
    ensures keeps { Keeps cells.old cells.new }
    ensures longer { length cells.old.cells ≤ length cells.new.cells }
    ensures x_len { length x.new ≡ length x.old }
    ensures y_len { length y.new ≡ length y.old }
{
    cells.is_store();
    let mark = cells.mark();
    let mut walk = Walk::new(alloc);
    let mut marks = Marks::new(alloc);
    match gather(cells, x, y, sound, at, goals, work, &mut walk, &mut marks) {
        Ok(Some(Gathered::Pushed(to))) => match keep_goals(cells, environments, y, to, goals) {
            Ok(()) => Ok(Some(Gathered::Pushed(to))),
            Err(error) => {
                cells.undo_to(mark);
                Err(error)
            }
        },
        Ok(Some(Gathered::Plain(to))) => Ok(Some(Gathered::Plain(to))),
        Ok(None) => {
            cells.undo_to(mark);
            Ok(None)
        }
        Err(error) => {
            cells.undo_to(mark);
            Err(error)
        }
    }
}

/// Counts the goals that an instruction says are pushed behind it. None for a check, which says nothing of them.
fn goals_said_by(instr: &Instr) -> Option<usize>
    ensures { result ≡ goals_said instr.now }
{
    match *instr {
        Instr::CheckGround(_, _) => None,
        Instr::CheckIndep(_, _, _) => None,
        Instr::AllocParcall(count, _) => Some(count as usize),
        _ => Some(0),
    }
}

/// Counts the goals of the group whose checks stand from a place on.
fn goals_from(code: &Code, at: usize) -> usize
    requires { at ≤ length code.now.instructions }
    ensures { result ≡ goals_ahead (steps_from code.now at) }
{
    let places = code.instructions().len();
    prove!(at <= places);
    for place in at..places {
        let Some(instr) = instruction_at(code, place) else {
            return 0;
        };
        if let Some(count) = goals_said_by(&instr) {
            return count;
        }
    }
    0
}

impl Search {
    /// Counts the goals of the group at which the search stands, as many as a fork there has.
    pub fn group_goals(&self, sound: &Sound) -> usize
        requires here { IsAtGroup sound.now self.now.machine }
        ensures { (t : Paused) (h : HasForked sound.now self.now t) → length h.forked.goals ≡ result }
    {
        let Now::Inside(at) = self.now() else {
            unreachable!();
        };
        goals_from(sound.code(), at)
    }

    /// Goes past the group at which the search stands: its goals are called one after another. Without memory nothing changes.
    #[inline(always)]
    pub(crate) fn go_past(&mut self, sound: &Sound) -> Result<(), NoMemory>
        requires here { IsAtGroup sound.now self.old.machine }
        ensures gone { OnOk result (HasGonePlain sound.now self.old self.new) }
        ensures err { OnErr result (self.new ≡ self.old) }
        ensures is_for { IsFor sound.now self.old → IsFor sound.now self.new }
    {
        let to = self.plain_way(sound)?;
        self.go_plain(to);
        Ok(())
    }

    /// Finds the place where the goals of the group at which the search stands are called one after another.
    #[inline(always)]
    fn plain_way(&self, sound: &Sound) -> Result<usize, NoMemory>
        requires here { IsAtGroup sound.now self.now.machine }
        ensures { IfOk result (HasPlainWay sound.now self.now.machine) }
    {
        let Now::Inside(at) = self.now() else {
            unreachable!();
        };
        plain_way(sound.code(), at)
    }

    /// Goes on at a place, where the goals of the group at which the search stands are called one after another.
    #[inline(always)]
    fn go_plain(&mut self, to: usize)
        ensures goes { self.new ≡ record self.old { machine = record self.old.machine { now = inside to } } }
        ensures is_for { (code : Compiled) → HasPlainWay code self.old.machine to → IsFor code self.old → IsFor code self.new }
    {
        self.next = Now::Inside(to);
    }

    /// Runs the group at which the search stands: pushes its goals where its checks hold, and forks; else goes on to its
    /// goals one after another, or fails. Without memory nothing changes.
    pub fn fork(&mut self, sound: &Sound) -> Result<bool, NoMemory>
        requires is_for { IsFor sound.now self.old }
        requires here { IsAtGroup sound.now self.old.machine }
        ensures is_for { IsFor sound.now self.new }
        ensures forked { result ≡ Ok true → HasForked sound.now self.old self.new }
        ensures gone_on { result ≡ Ok false → HasGoneOn sound.now self.old self.new }
        ensures err { OnErr result (self.new ≡ self.old) }
    {
        let Now::Inside(at) = self.now() else {
            unreachable!();
        };
        save_x(true, &mut self.before_x, &self.x)?;
        save_y(true, &mut self.before_y, &self.y)?;
        match fork_or_undo(
            &mut self.cells,
            &mut self.environments,
            &mut self.x,
            &mut self.y,
            sound,
            at,
            &mut self.goals,
            &mut self.work,
            self.alloc,
        ) {
            Ok(Some(Gathered::Pushed(_))) => {
                self.x.fill(0);
                self.y.fill(0);
                self.next = Now::Failed;
                Ok(true)
            }
            Ok(Some(Gathered::Plain(to))) => {
                self.next = Now::Inside(to);
                Ok(false)
            }
            Ok(None) => {
                self.x.fill(0);
                self.y.fill(0);
                self.next = Now::Failed;
                Ok(false)
            }
            Err(error) => {
                self.x.copy_from_slice(&self.before_x);
                self.y.copy_from_slice(&self.before_y);
                Err(error)
            }
        }
    }
}
