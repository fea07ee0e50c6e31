//! Instructions of control, and control that comes back.

ghost use Rattle.std.specs.Prelude.{◌≡◌, ℕ, ◌+◌, ◌<◌, ◌≤◌, List, [], length, drop, replicate, slice_get, None, Some, true, false, IfOk, IfSome, IfNone, MatchOption, OnOk, OnErr};
ghost use Rattle.std.specs.Vec.{vec_len};
ghost use Rattle.ap_tracked.specs.Tracked.{Tracked};
ghost use Rattle.ap_cells.specs.Store.{Keeps};
ghost use Rattle.ap_instr.specs.declared.compiled.Predicate.{Predicate};
ghost use Rattle.ap_instr.specs.Code.{Compiled};
ghost use Rattle.ap_instr.specs.Steps.{steps_from};
ghost use Rattle.ap_needs.specs.Needs.{AllHaveTargets, room, wants, IsRoomOf};
ghost use Rattle.ap_steps.specs.Moves.{held, HoldPlaces};
ghost use Rattle.ap_control.specs.Runs.{RanOrStuck, IsTransferAt, IsEndAt};
ghost use Rattle.ap_standing.specs.Machine.{inside, returning, failed};
ghost use Rattle.ap_standing.specs.Holds.{Holds};
ghost use Rattle.ap_standing.specs.Laws.{AsksNoMore, KeepsStanding};
ghost use Rattle.ap_machine.specs.View.{IsFor};
ghost use Rattle.ap_machine.specs.Advanced.{GoesOn};
ghost use Rattle.ap_machine.specs.Choices.{Stays};
ghost use Rattle.ap_machine.specs.Lasting.{moves_left, SameRest};
ghost use Rattle.ap_machine.specs.Due.{IsDue};
ghost use Rattle.ap_machine.specs.Jumps.{IsNoJumpAt, JumpsTo};

use crate::due::Due;
use crate::goals::behind as next_place;
use crate::state::{Now, Search};
use ap_cells::Cells;
use ap_control::{instruction_at, run_to_stop, used};
use ap_environments::{clear_x, clear_y, copy_few, copy_x};
use ap_instr::{Code, Instr};
use ap_needs::Room;
use ap_term::NoMemory;
use ap_unify::Work;

/// Puts 0 into all X registers.
#[inline(always)]
fn clear_all_x(registers: &mut Vec<u32>)
    ensures items { registers.new.items ≡ replicate (vec_len registers.old) 0 }
    ensures len { vec_len registers.new ≡ vec_len registers.old }
{
    clear_x(registers.as_mut_slice());
}

/// Puts 0 into all Y registers.
#[inline(always)]
fn clear_all_y(registers: &mut Vec<u32>)
    ensures items { registers.new.items ≡ replicate (vec_len registers.old) 0 }
    ensures len { vec_len registers.new ≡ vec_len registers.old }
{
    clear_y(registers.as_mut_slice());
}

/// Copies X registers over as many.
#[inline(always)]
fn copy_all_x(saved: &mut Vec<u32>, registers: &[u32])
    requires { vec_len saved.old ≡ length registers.now }
    ensures { saved.new.items ≡ registers.now }
{
    copy_x(saved.as_mut_slice(), registers);
}

/// Copies Y registers over as many.
#[inline(always)]
fn copy_all_y(saved: &mut Vec<u32>, registers: &[u32])
    requires { vec_len saved.old ≡ length registers.now }
    ensures { saved.new.items ≡ registers.now }
{
    copy_few(saved.as_mut_slice(), registers);
}

/// Puts what registers hold in place of what was kept.
fn keep_anew(saved: &mut Vec<u32>, registers: &[u32]) -> Result<(), NoMemory>
    ensures { OnOk result (saved.new.items ≡ registers.now) }
{
    saved.clear();
    saved.extend_from_slice(registers)?;
    Ok(())
}

/// Keeps what X registers hold, if that may be needed, in a vector whose memory is used again.
#[inline(always)]
pub(crate) fn save_x(needed: bool, saved: &mut Vec<u32>, registers: &[u32]) -> Result<(), NoMemory>
    ensures { OnOk result (needed ≡ true → saved.new.items ≡ registers.now) }
{
    if !needed {
        return Ok(());
    }
    if saved.len() == registers.len() {
        copy_all_x(saved, registers);
        return Ok(());
    }
    keep_anew(saved, registers)
}

/// Keeps what Y registers hold, if that may be needed, in a vector whose memory is used again.
#[inline(always)]
pub(crate) fn save_y(needed: bool, saved: &mut Vec<u32>, registers: &[u32]) -> Result<(), NoMemory>
    ensures { OnOk result (needed ≡ true → saved.new.items ≡ registers.now) }
{
    if !needed {
        return Ok(());
    }
    if saved.len() == registers.len() {
        copy_all_y(saved, registers);
        return Ok(());
    }
    keep_anew(saved, registers)
}

/// The place behind another one, where 32 bits hold it.
#[inline(always)]
pub(crate) fn behind(at: usize) -> Result<u32, NoMemory>
    ensures { IfOk result (λ place. place ≡ at + 1) }
{
    match u32::try_from(at) {
        Ok(place) if place < u32::MAX => Ok(place + 1),
        _ => Err(NoMemory),
    }
}

/// Where a jump leads that stands at a place, if one does: further on.
#[inline(always)]
pub(crate) fn jump_from(code: &Code, at: usize) -> Option<usize>
    ensures jump { IfSome result (λ to. JumpsTo code.now at to) }
    ensures none { result ≡ None → IsNoJumpAt code.now at }
{
    match instruction_at(code, at) {
        Some(Instr::Jump(to)) => Some(next_place(code, at).max(to as usize)),
        _ => None,
    }
}

/// Whether the table has a predicate.
#[inline(always)]
pub(crate) fn is_known(code: &Code, number: u32) -> bool
    ensures known { result ≡ true → (q : Predicate) × (slice_get code.now.predicates number ≡ Some q) }
    ensures unknown { result ≡ false → slice_get code.now.predicates number ≡ None }
{
    match code.predicates().get(number as usize) {
        Some(_) => true,
        None => false,
    }
}

/// Whether the clause ends behind a place: its environment is given back there, and nothing more is asked for.
#[inline(always)]
fn ends_behind(code: &Code, at: usize) -> bool
    requires { at < length code.now.instructions }
    ensures { result ≡ true → AsksNoMore (steps_from code.now (at + 1)) }
{
    let next = next_place(code, at);
    match instruction_at(code, next) {
        Some(Instr::Deallocate) => matches!(
            instruction_at(code, next_place(code, next)),
            Some(Instr::Proceed)
        ),
        _ => false,
    }
}

/// Takes the instructions from a place on up to one of control, or to a place to stop at. Where they can't be taken, the cells
/// are as they were.
#[inline(always)]
fn run_or_undo(
    cells: &mut Cells,
    x: &mut [u32],
    y: &mut [u32],
    code: &Code,
    at: usize,
    stop: usize,
    work: &mut Work,
) -> Result<Option<usize>, NoMemory>
    requires room { room (drop at code.now.instructions) ≤ cells.old.spare }
    requires targets { (p : ℕ) → AllHaveTargets (drop p code.now.instructions) (length x.old) (length y.old) }
    requires holds_x { HoldPlaces (length cells.old.cells) x.old }
    requires holds_y { HoldPlaces (length cells.old.cells) y.old }
    ensures ran { IfOk result (λ to. RanOrStuck code.now at cells.old.cells x.old y.old to cells.new.cells x.new y.new) }
    ensures end { IfOk result (λ to. IfSome to (λ place. IsEndAt code.now stop place)) }
    ensures forward { IfOk result (λ to. IfSome to (λ place. at ≤ place)) }
    ensures longer { length cells.old.cells ≤ length cells.new.cells }
    ensures wants { OnErr result (wants (drop at code.now.instructions) ≡ true) }
    ensures err { OnErr result (cells.new.cells ≡ cells.old.cells) }
    ensures x_len { length x.new ≡ length x.old }
    ensures y_len { length y.new ≡ length y.old }
    ensures keeps { Keeps cells.old cells.new }
{
    cells.is_store();
    let mark = cells.mark();
    match run_to_stop(cells, x, y, code, at, stop, work) {
        Ok(Some(to)) => Ok(Some(to)),
        Ok(None) => {
            cells.undo_to(mark);
            Ok(None)
        }
        Err(error) => {
            cells.undo_to(mark);
            Err(error)
        }
    }
}

impl Search {
    /// Control is at a place in a clause, and goes on to the next instruction of control, or to a place to stop at, unless what
    /// stands between can't be taken. Without memory nothing changes.
    #[inline(always)]
    pub(crate) fn run(
        &mut self,
        code: &Code,
        room: &Room,
        at: usize,
        stop: usize,
    ) -> Result<Option<usize>, NoMemory>
        requires here { self.old.machine.now ≡ inside at }
        requires is_for { IsFor code.now self.old }
        requires room { IsRoomOf code.now room.now }
        ensures holds { KeepsStanding code.now self.old.machine self.new.machine }
        ensures stays { Stays self.old self.new }
        ensures rest { IfOk result (λ found. SameRest self.old.machine self.new.machine) }
        ensures at { IfOk result (λ found. MatchOption found (self.new.machine.now ≡ failed) (λ to. (self.new.machine.now ≡ inside to) × IsEndAt code.now stop to)) }
        ensures forward { IfOk result (λ found. IfSome found (λ to. at ≤ to)) }
        ensures kept { OnErr result (self.new ≡ self.old) }
    {
        self.cells.reserve(room.cells)?;
        let may_want = room.may_want(at);
        save_x(may_want, &mut self.before_x, &self.x)?;
        save_y(may_want, &mut self.before_y, &self.y)?;
        match run_or_undo(
            &mut self.cells,
            &mut self.x,
            &mut self.y,
            code,
            at,
            stop,
            &mut self.work,
        ) {
            Ok(Some(to)) => {
                self.next = Now::Inside(to);
                Ok(Some(to))
            }
            Ok(None) => {
                clear_all_x(&mut self.x);
                clear_all_y(&mut self.y);
                self.next = Now::Failed;
                Ok(None)
            }
            Err(error) => {
                self.x.copy_from_slice(&self.before_x);
                self.y.copy_from_slice(&self.before_y);
                Err(error)
            }
        }
    }

    /// Control is at an instruction of control, which leads on, or to what is due. Without memory nothing changes; a goal or
    /// the end of a group outside of one is want of memory, since no sound code leads there.
    #[inline(always)]
    pub(crate) fn transfer(&mut self, code: &Code, at: usize) -> Result<Option<Due>, NoMemory>
        requires here { self.old.machine.now ≡ inside at }
        requires leads { IsTransferAt code.now at }
        requires no_jump { IsNoJumpAt code.now at }
        ensures holds { GoesOn code.now self.old.machine self.new.machine }
        ensures stays { Stays self.old self.new }
        ensures fewer { IfOk result (λ found. IfNone found (moves_left code.now self.new.machine < moves_left code.now self.old.machine)) }
        ensures due { IfOk result (λ found. IfSome found (λ due. IsDue code.now self.new.machine due)) }
        ensures kept { OnErr result (self.new ≡ self.old) }
        ensures points { self.new.machine.points ≡ self.old.machine.points }
    {
        match instruction_at(code, at) {
            None => self.next = Now::Failed,
            Some(instr) => match instr {
                Instr::Call(number) => {
                    if is_known(code, number) {
                        // The caller's return does, where nothing is left of this clause.
                        if ends_behind(code, at) {
                            self.next = Now::Calling(number);
                            return Ok(Some(Due::Call(number)));
                        }
                        let place = behind(at)?;
                        self.environments.push(place, used(&self.y))?;
                        self.next = Now::Calling(number);
                        return Ok(Some(Due::Call(number)));
                    }
                    self.next = Now::Failed;
                }
                Instr::Execute(number) => {
                    if is_known(code, number) {
                        self.next = Now::Calling(number);
                        return Ok(Some(Due::Call(number)));
                    }
                    self.next = Now::Failed;
                }
                Instr::Builtin(builtin) => return Ok(Some(Due::Goal(builtin, at))),
                Instr::Proceed => self.next = Now::Returning,
                Instr::Fail => self.next = Now::Failed,
                Instr::Try(_) => self.next = Now::Failed,
                Instr::Retry(_) => self.next = Now::Failed,
                Instr::Trust(_) => self.next = Now::Failed,
                Instr::CheckGround(_, _) => return Ok(Some(Due::Group(at))),
                Instr::CheckIndep(_, _, _) => return Ok(Some(Due::Group(at))),
                Instr::AllocParcall(_, _) => return Ok(Some(Due::Group(at))),
                // Behind a check or the beginning of a group alone, where `fork` comes past them.
                Instr::PushGoal(_, _) => return Err(NoMemory),
                Instr::WaitAll => return Err(NoMemory),
                Instr::Jump(_) => unreachable!(),
                _ => unreachable!(),
            },
        }
        Ok(None)
    }

    /// Control comes back to the innermost return. False where there is none.
    #[inline(always)]
    pub(crate) fn come_back(&mut self) -> bool
        requires { self.old.machine.now ≡ returning }
        ensures holds { (code : Compiled) (ss : List Tracked) → Holds code self.old.machine ss → Holds code self.new.machine ss }
        ensures stays { Stays self.old self.new }
        ensures ended { result ≡ false → self.new ≡ self.old }
        ensures fewer { result ≡ true → (code : Compiled) → moves_left code self.new.machine < moves_left code self.old.machine }
        ensures no_return { result ≡ false → self.old.machine.returns ≡ [] }
        ensures points { self.new.machine.points ≡ self.old.machine.points }
    {
        match self.environments.pop(&mut self.y) {
            Some(place) => {
                self.cells.is_store();
                clear_all_x(&mut self.x);
                self.next = Now::Inside(place as usize);
                true
            }
            None => false,
        }
    }
}
