//! The goals of code by their places.

ghost use Rattle.std.specs.Prelude.{◌≡◌, ℕ, ◌<◌, ◌≤◌, ◌++◌, length, take, replicate, None, true, IfOk, IfSome, OnOk};
ghost use Rattle.std.specs.List.{list_all};
ghost use Rattle.ap_direct.specs.Goals.{AsksFirst};
ghost use Rattle.ap_direct.specs.Puts.{IsUnseen};
ghost use Rattle.ap_instr.specs.Code.{Compiled};
ghost use Rattle.ap_instr.specs.Steps.{steps_from};
ghost use Rattle.ap_direct.specs.Table.{AreAsked, AreGoalsOf, AreSameBefore, ends_within, stay_within};

use crate::finding::{Placed, goal_on_registers, put_at};
use crate::goal::{Direct, Goal, Operand, Part};
use crate::preceding::{is_part_of, preceded};
use crate::unread::instruction_at;
use ap_instr::{Code, Instr, Slot};
use ap_term::NoMemory;
use std::alloc::Global;
use std::mem;

/// By places, the goal that begins there, in a block of its own, since most places have none; and the first place from it on, before the next transfer of control, at which one begins.
#[derive(Drop)]
pub struct Directs {
    pub goals: Vec<Option<Box<Direct>>>,
    pub stops: Vec<usize>,
}

/// Whether the instruction at a place leads elsewhere than to the next one.
fn is_transfer(code: &Code, at: usize) -> bool {
    let Some(instr) = instruction_at(code, at) else {
        return false;
    };
    match instr {
        Instr::Call(_) => true,
        Instr::Execute(_) => true,
        Instr::Proceed => true,
        Instr::Builtin(_) => true,
        Instr::Jump(_) => true,
        Instr::Fail => true,
        Instr::Try(_) => true,
        Instr::Retry(_) => true,
        Instr::Trust(_) => true,
        Instr::CheckGround(_, _) => true,
        Instr::CheckIndep(_, _, _) => true,
        Instr::AllocParcall(_, _) => true,
        Instr::PushGoal(_, _) => true,
        Instr::WaitAll => true,
        _ => false,
    }
}

/// The register of the structure that is put just before a place.
fn structure_before(code: &Code, at: usize) -> Option<u32> {
    let mut place = at;
    'arguments: while place > 0 {
        place -= 1;
        match instruction_at(code, place) {
            Some(Instr::UnifyVariable(_)) => {}
            Some(Instr::UnifyValue(_)) => {}
            Some(Instr::UnifyConstant(_)) => {}
            Some(Instr::UnifyInteger(_)) => {}
            Some(Instr::PutStructure(_, _, a)) => return Some(a),
            _ => return None,
        }
    }
    None
}

fn is_register(operand: Operand, a: u32) -> bool {
    match operand {
        Operand::Register(Slot::X(n)) => n == a,
        Operand::Register(Slot::Y(_)) => false,
        Operand::Integer(_) => false,
    }
}

/// Whether an operand of an expression is what an X register holds.
fn part_reads(part: &Part, a: u32) -> bool {
    match part {
        Part::Operand(operand) => is_register(*operand, a),
        Part::Operation(_, left, right) => is_register(*left, a) || is_register(*right, a),
        Part::Nested(_, left, right) => {
            if part_reads(left, a) {
                return true;
            }
            part_reads(right, a)
        }
    }
}

/// Whether an operand of a goal is what an X register holds.
fn reads(goal: &Goal, a: u32) -> bool {
    match goal {
        Goal::Compare(_, left, right) => part_reads(left, a) || part_reads(right, a),
        Goal::Match(_, part) => part_reads(part, a),
        Goal::Give(_, part) => part_reads(part, a),
    }
}

/// Whether an operand of a goal that begins at a place is a structure that was put just before, and so no integer.
fn is_on_structure(code: &Code, at: usize, direct: &Direct) -> bool {
    match structure_before(code, at) {
        Some(a) => reads(&direct.goal, a),
        None => false,
    }
}

/// Takes the goal at a place out.
fn take(code: &Code, goals: &mut Vec<Option<Box<Direct>>>, at: usize) -> Option<Box<Direct>>
    requires within { at < length goals.old.items }
    requires asked { AreAsked code.now goals.old.items }
    ensures asked { AreAsked code.now goals.new.items }
    ensures same { length goals.new.items ≡ length goals.old.items }
    ensures before { AreSameBefore at goals.old.items goals.new.items }
    ensures found { IfSome result (λ d. AsksFirst code.now at d.value) }
{
    mem::replace(&mut goals[at], None)
}

/// Writes what was found at a place.
fn write(code: &Code, goals: &mut Vec<Option<Box<Direct>>>, at: usize, found: Option<Box<Direct>>)
    requires within { at < length goals.old.items }
    requires asked { AreAsked code.now goals.old.items }
    requires found { IfSome found (λ d. AsksFirst code.now at d.value) }
    ensures asked { AreAsked code.now goals.new.items }
    ensures same { length goals.new.items ≡ length goals.old.items }
    ensures before { AreSameBefore at goals.old.items goals.new.items }
{
    let _before = mem::replace(&mut goals[at], found);
}

/// Takes out the goal behind what is put at a place, if that can be taken into it.
fn taken(
    code: &Code,
    at: usize,
    goals: &mut Vec<Option<Box<Direct>>>,
    placed: Placed,
) -> Option<Direct>
    requires { AreAsked code.now goals.old.items }
    ensures asked { AreAsked code.now goals.new.items }
    ensures same { length goals.new.items ≡ length goals.old.items }
    ensures before { AreSameBefore at goals.old.items goals.new.items }
    ensures found { IfSome result (λ d. AsksFirst code.now placed.to d × IsUnseen placed.register placed.put (steps_from code.now d.to)) }
{
    if placed.to <= at || placed.to >= goals.len() {
        return None;
    }
    let direct = take(code, goals, placed.to)?;
    if is_part_of(code, placed, &direct) {
        return Some(Box::into_inner(direct));
    }
    write(code, goals, placed.to, Some(direct));
    None
}

/// The goal of arithmetic that begins at a place, where one does that can be solved straight from registers. A goal behind what is put
/// there becomes part of it.
fn goal_at(
    alloc: Global,
    code: &Code,
    at: usize,
    goals: &mut Vec<Option<Box<Direct>>>,
) -> Result<Option<Direct>, NoMemory>
    requires { AreAsked code.now goals.old.items }
    ensures asked { OnOk result (AreAsked code.now goals.new.items) }
    ensures same { length goals.new.items ≡ length goals.old.items }
    ensures before { AreSameBefore at goals.old.items goals.new.items }
    ensures found { IfOk result (λ o. IfSome o (λ d. AsksFirst code.now at d)) }
{
    let Some(placed) = put_at(code, at) else {
        return Ok(goal_on_registers(code, at));
    };
    let Some(direct) = taken(code, at, goals, placed) else {
        return Ok(None);
    };
    preceded(alloc, code, at, placed, direct)
}

/// No goals at so many further places.
fn add_none(goals: &mut Vec<Option<Box<Direct>>>, places: usize) -> Result<(), NoMemory>
    ensures { OnOk result (goals.new.items ≡ goals.old.items ++ replicate places None) }
{
    let mut made = 0;
    'places: while made < places {
        goals.push(None)?;
        made += 1;
    }
    Ok(())
}

/// Finds the goals of code at its places behind those that are gone through.
fn find_goals(
    alloc: Global,
    code: &Code,
    goals: &mut Vec<Option<Box<Direct>>>,
) -> Result<(), NoMemory>
    requires fits { length goals.old.items ≤ length code.now.instructions }
    requires asked { AreAsked code.now goals.old.items }
    ensures asked { OnOk result (AreAsked code.now goals.new.items) }
    ensures len { OnOk result (length goals.new.items ≡ length code.now.instructions) }
    ensures before { OnOk result (AreSameBefore (length goals.old.items) goals.old.items goals.new.items) }
{
    let from = goals.len();
    let mut place = code.instructions().len();
    add_none(goals, place - from)?;
    'places: while place > from {
        place -= 1;
        if let Some(found) = goal_at(alloc, code, place, goals)? {
            let found = Box::new(alloc, found)?;
            write(code, goals, place, Some(found));
        }
    }
    Ok(())
}

/// The goal at a place, unless an operand of it is a structure that was put just before.
fn stands_at(code: &Code, goals: &[Option<Box<Direct>>], at: usize) -> bool {
    match goals.get(at) {
        Some(Some(direct)) => !is_on_structure(code, at, direct),
        _ => false,
    }
}

/// Notes for places behind so many the first place from each on at which a goal begins, and lets go goals on structures.
fn note_stops(code: &Code, from: usize, goals: &mut Vec<Option<Box<Direct>>>, stops: &mut [usize])
    requires fits { length goals.old.items ≡ length stops.old }
    requires asked { AreAsked code.now goals.old.items }
    ensures asked { AreAsked code.now goals.new.items }
    ensures same { length goals.new.items ≡ length goals.old.items }
    ensures before { AreSameBefore from goals.old.items goals.new.items }
{
    let mut place = goals.len();
    let mut stop = usize::MAX;
    'places: while place > from {
        place -= 1;
        if is_transfer(code, place) {
            stop = usize::MAX;
        }
        let begins = stands_at(code, goals.as_slice(), place);
        if begins {
            stop = place;
        }
        stops[place] = stop;
        if !begins {
            let _lost = take(code, goals, place);
        }
    }
}

/// Whether the code behind a goal begins before a place.
fn ends_within(goal: &Option<Box<Direct>>, places: usize) -> bool
    ensures { result ≡ ends_within places goal.now }
{
    match goal {
        Some(direct) => direct.to < places,
        None => true,
    }
}

fn end_within(goals: &[Option<Box<Direct>>], places: usize) -> bool
    ensures { result ≡ list_all (ends_within places) goals.now }
{
    goals.iter().all(|goal| ends_within(goal, places))
}

impl Directs {
    /// The goals of code.
    pub fn of(alloc: Global, code: &Code) -> Result<Directs, NoMemory>
        ensures { IfOk result (λ d. AreGoalsOf code.now d) }
    {
        let mut directs = Directs {
            goals: Vec::new(alloc),
            stops: Vec::new(alloc),
        };
        directs.grow(alloc, code)?;
        Ok(directs)
    }

    /// Puts in the goals of code at its places behind those that are gone through.
    pub fn grow(&mut self, alloc: Global, code: &Code) -> Result<(), NoMemory>
        requires fits { length self.old.goals.items ≤ length code.now.instructions }
        requires asked { AreGoalsOf code.now self.old }
        ensures asked { OnOk result (AreGoalsOf code.now self.new) }
        ensures same { OnOk result (take (length self.old.goals.items) self.new.goals.items ≡ self.old.goals.items) }
    {
        let from = self.goals.len();
        find_goals(alloc, code, &mut self.goals)?;
        self.stops.resize(self.goals.len(), usize::MAX)?;
        note_stops(code, from, &mut self.goals, self.stops.as_mut_slice());
        Ok(())
    }

    /// Lets go what was put in for places behind so many.
    pub fn cut_to(&mut self, places: usize)
        ensures { self.new.goals.items ≡ take places self.old.goals.items }
    {
        self.goals.truncate(places);
        self.stops.truncate(places);
    }

    /// Whether the goals begin and end before a place.
    pub fn stay_within(&self, places: usize) -> bool
        ensures { result ≡ stay_within places self.now }
    {
        self.goals.len() <= places && end_within(self.goals.as_slice(), places)
    }

    /// The goal that begins at a place.
    #[inline(always)]
    pub fn goal(&self, at: usize) -> Option<&Direct>
        ensures { (code : Compiled) → AreGoalsOf code self.now → IfSome result (λ d. AsksFirst code at d.now) }
    {
        match self.goals.get(at) {
            Some(Some(goal)) => Some(goal),
            _ => None,
        }
    }

    /// The first place from this one on, before the next transfer of control, at which a goal begins.
    #[inline(always)]
    pub fn stop(&self, at: usize) -> usize {
        match self.stops.get(at) {
            Some(stop) => *stop,
            None => usize::MAX,
        }
    }
}
