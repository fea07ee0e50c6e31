//! Code whose variables stand in other places, and the test that it still does the same.

ghost use Rattle.std.specs.Prelude.{◌≡◌, ◌<◌, ◌+◌, ℕ, true, false, List, [], ◌∷◌, ◌++◌, map, length, IfOk, IfSome, OnOk};
ghost use Rattle.std.specs.List.{list_all};
ghost use Rattle.ap_instr.specs.declared.instruction.Slot.{Slot};
ghost use Rattle.ap_instr.specs.declared.instruction.Slot.TheVariants.{X};
ghost use Rattle.ap_instr.specs.Runs.{set};
ghost use Rattle.ap_codegen.specs.Emitted.{step_of, steps_of, label_of};
ghost use Rattle.ap_codegen.specs.Grouped.{has_turns};
ghost use Rattle.ap_codegen.specs.declared.relocating.Way.TheVariants.{Outside};
ghost use Rattle.ap_codegen.specs.Relocated.{Change as Changed, change_of, changes_of, step_in, by, known_by, former, latter, is_same, all_same, is_within, has_room, set_former, set_latter, set_both, behind_call, behind, behind_none, may_drop, fits, change_fits, is_kept, is_jump, may_turn, is_leap, over, does_same, passed, is_end, is_next, never_turns, Forgets, IsSingle, Left, IsAhead, LeadsOn, PassesOver, AreKept, WayKept, asks, tests_nothing, all_open, staying, placed, written, IsStart, IsBegun, AreTested};

use crate::steps::Step;
use crate::temporary::{arity, ends, number};
use ap_instr::Slot;
use ap_term::NoMemory;
use std::alloc::Global;
use std::mem::replace;

/// What becomes of a step: it stays, with another place and another argument register, a check of two with two other places,
/// or it falls away.
#[derive(Clone, Copy)]
pub enum Change {
    Kept(Step, Slot, Slot),
    Dropped(Step),
}

/// The numbers of the values that places hold, in the code as it was and as it becomes, 0 where none is known; and the
/// number of the next new value. A list is as long as it needs to be, so that all X registers are forgotten at once.
#[derive(Drop)]
pub struct Numbers {
    former_x: Vec<u32>,
    former_y: Vec<u32>,
    latter_x: Vec<u32>,
    latter_y: Vec<u32>,
    next: u32,
}

pub fn at(numbers: &[u32], n: u32) -> u32
    ensures { result ≡ by numbers.now n }
{
    match numbers.get(n as usize) {
        Some(number) => *number,
        None => 0,
    }
}

/// A list with room for a place.
fn grow(numbers: &mut Vec<u32>, place: u32) -> Result<(), NoMemory>
    ensures same { OnOk result (by numbers.new.items ≡ by numbers.old.items) }
    ensures long { OnOk result (place < length numbers.new.items) }
{
    while numbers.len() <= place as usize {
        numbers.push(0)?;
    }
    Ok(())
}

pub fn note(numbers: &mut Vec<u32>, place: u32, n: u32) -> Result<(), NoMemory>
    ensures { OnOk result (by numbers.new.items ≡ set (by numbers.old.items) place n) }
{
    grow(numbers, place)?;
    numbers[place as usize] = n;
    Ok(())
}

fn is_within(n: u8, room: Option<u8>) -> bool
    ensures { result ≡ is_within n room }
{
    match room {
        None => false,
        Some(count) => n <= count,
    }
}

fn has_room(room: Option<u8>, v: Slot) -> bool
    ensures { result ≡ has_room room v }
{
    match v {
        Slot::X(n) => 1 <= n,
        Slot::Y(n) => 1 <= n && is_within(n, room),
    }
}

fn may_drop(step: Step) -> bool
    ensures { result ≡ may_drop (step_of step) }
{
    match step {
        Step::GetVariable(_, _) => true,
        Step::PutValue(_, _) => true,
        _ => false,
    }
}

fn is_end(change: Change) -> bool
    ensures { result ≡ is_end (change_of change) }
{
    match change {
        Change::Kept(step, _, _) => ends(step),
        Change::Dropped(_) => false,
    }
}

impl Numbers {
    fn former(&self, v: Slot) -> u32
        ensures { result ≡ former (known_by self.now) v }
    {
        match v {
            Slot::X(n) => at(self.former_x.as_slice(), n),
            Slot::Y(n) => at(self.former_y.as_slice(), u32::from(n)),
        }
    }

    fn latter(&self, u: Slot) -> u32
        ensures { result ≡ latter (known_by self.now) u }
    {
        match u {
            Slot::X(n) => at(self.latter_x.as_slice(), n),
            Slot::Y(n) => at(self.latter_y.as_slice(), u32::from(n)),
        }
    }

    fn is_same(&self, v: Slot, u: Slot) -> bool
        ensures { result ≡ is_same (known_by self.now) v u }
    {
        1 <= self.former(v) && self.former(v) == self.latter(u)
    }

    /// Whether the arguments of a call of so many stand where they stood.
    fn all_same(&self, n: u8) -> bool
        ensures { result ≡ true → all_same (known_by self.now) n ≡ true }
    {
        for a in 0..n {
            let argument = Slot::X(u32::from(a) + 1);
            if !self.is_same(argument, argument) {
                return false;
            }
        }
        true
    }

    fn set_former(&mut self, v: Slot, n: u32) -> Result<(), NoMemory>
        ensures { OnOk result (known_by self.new ≡ set_former (known_by self.old) v n) }
    {
        match v {
            Slot::X(place) => note(&mut self.former_x, place, n),
            Slot::Y(place) => note(&mut self.former_y, u32::from(place), n),
        }
    }

    fn set_latter(&mut self, u: Slot, n: u32) -> Result<(), NoMemory>
        ensures { OnOk result (known_by self.new ≡ set_latter (known_by self.old) u n) }
    {
        match u {
            Slot::X(place) => note(&mut self.latter_x, place, n),
            Slot::Y(place) => note(&mut self.latter_y, u32::from(place), n),
        }
    }

    /// Both places get one new value.
    fn set_both(&mut self, v: Slot, u: Slot) -> Result<(), NoMemory>
        ensures { OnOk result (known_by self.new ≡ set_both (known_by self.old) v u) }
    {
        let n = self.next;
        match n.checked_add(1) {
            Some(next) => self.next = next,
            None => return Err(NoMemory),
        }
        self.set_former(v, n)?;
        self.set_latter(u, n)
    }

    /// Behind a call the X registers are lost.
    fn forget(&mut self)
        ensures { known_by self.new ≡ behind_call (known_by self.old) }
    {
        self.former_x.clear();
        self.latter_x.clear();
    }

    /// Whether a step does the same in its new places.
    fn is_kept(&self, step: Step, u: Slot, o: Slot) -> bool
        ensures { result ≡ true → is_kept (known_by self.now) (step_of step) u o ≡ true }
    {
        let b = Slot::X(number(o));
        match step {
            Step::GetVariable(_, a) => self.is_same(Slot::X(a), b),
            Step::GetValue(v, a) => self.is_same(v, u) && self.is_same(Slot::X(a), b),
            Step::GetConstant(_, a) => self.is_same(Slot::X(a), b),
            Step::GetInteger(_, a) => self.is_same(Slot::X(a), b),
            Step::GetStructure(_, _, a) => self.is_same(Slot::X(a), b),
            Step::PutValue(v, _) => self.is_same(v, u),
            Step::UnifyValue(v) => self.is_same(v, u),
            Step::Call(_, n) => self.all_same(n),
            Step::Execute(_, n) => self.all_same(n),
            Step::PushGoal(_, _, n) => self.all_same(n),
            Step::Builtin(builtin) => self.all_same(arity(builtin)),
            Step::CheckGround(v, _) => self.is_same(v, u),
            Step::CheckIndep(v, w, _) => self.is_same(v, u) && self.is_same(w, o),
            _ => true,
        }
    }

    /// A move, in both codes.
    fn copy(&mut self, v: Slot, was: Slot, u: Slot, is: Slot) -> Result<(), NoMemory>
        ensures { OnOk result (known_by self.new ≡ set_latter (set_former (known_by self.old) v (former (known_by self.old) was)) u (latter (known_by self.old) is)) }
    {
        let former = self.former(was);
        let latter = self.latter(is);
        self.set_former(v, former)?;
        self.set_latter(u, latter)
    }

    /// A new variable, which both places of a step hold.
    fn make(&mut self, v: Slot, a: u32, u: Slot, b: u32) -> Result<(), NoMemory>
        ensures { OnOk result (known_by self.new ≡ set_latter (set_former (set_both (known_by self.old) v u) (X a) self.old.next) (X b) self.old.next) }
    {
        let n = self.next;
        self.set_both(v, u)?;
        self.set_former(Slot::X(a), n)?;
        self.set_latter(Slot::X(b), n)
    }

    /// Behind a step that stays.
    fn keep(&mut self, step: Step, u: Slot, o: Slot) -> Result<(), NoMemory>
        ensures { OnOk result (known_by self.new ≡ behind (known_by self.old) (step_of step) u o) }
    {
        let b = Slot::X(number(o));
        match step {
            Step::GetVariable(v, a) => self.copy(v, Slot::X(a), u, b),
            Step::PutValue(v, a) => self.copy(Slot::X(a), v, b, u),
            Step::PutVariable(v, a, _) => self.make(v, a, u, number(o)),
            Step::PutConstant(_, a) => self.set_both(Slot::X(a), b),
            Step::PutInteger(_, a) => self.set_both(Slot::X(a), b),
            Step::PutStructure(_, _, a) => self.set_both(Slot::X(a), b),
            Step::UnifyVariable(v) => self.set_both(v, u),
            Step::Call(_, _) => {
                self.forget();
                Ok(())
            }
            Step::WaitAll => {
                self.forget();
                Ok(())
            }
            _ => Ok(()),
        }
    }

    /// Behind a step that falls away.
    fn leave_out(&mut self, step: Step) -> Result<(), NoMemory>
        ensures { OnOk result (known_by self.new ≡ behind_none (known_by self.old) (step_of step)) }
    {
        match step {
            Step::GetVariable(v, a) => {
                let n = self.former(Slot::X(a));
                self.set_former(v, n)
            }
            Step::PutValue(v, a) => {
                let n = self.former(v);
                self.set_former(Slot::X(a), n)
            }
            _ => Ok(()),
        }
    }

    /// Whether a change does the same.
    fn accepts(&self, change: Change) -> bool
        ensures { result ≡ true → does_same (known_by self.now) (change_of change) ≡ true }
    {
        match change {
            Change::Kept(step, u, o) => self.is_kept(step, u, o),
            Change::Dropped(_) => true,
        }
    }

    fn pass(&mut self, change: Change) -> Result<(), NoMemory>
        ensures { OnOk result (known_by self.new ≡ passed (known_by self.old) (change_of change)) }
    {
        match change {
            Change::Kept(step, u, o) => self.keep(step, u, o),
            Change::Dropped(step) => self.leave_out(step),
        }
    }

    /// What is known here and there.
    fn agree(&mut self, other: &Numbers)
        ensures own { Forgets (known_by self.old) (known_by self.new) }
        ensures other { Forgets (known_by other.now) (known_by self.new) }
    {
        agree(&mut self.former_x, other.former_x.as_slice());
        agree(&mut self.former_y, other.former_y.as_slice());
        agree(&mut self.latter_x, other.latter_x.as_slice());
        agree(&mut self.latter_y, other.latter_y.as_slice());
        self.next = self.next.max(other.next);
    }

    fn copied(&self) -> Result<Numbers, NoMemory>
        ensures { IfOk result (λ copy. known_by copy ≡ known_by self.now) }
    {
        Ok(Numbers {
            former_x: self.former_x.clone()?,
            former_y: self.former_y.clone()?,
            latter_x: self.latter_x.clone()?,
            latter_y: self.latter_y.clone()?,
            next: self.next,
        })
    }

    /// Forgets all places of a value in the code as it becomes but one, which is in the environment, where there is such.
    fn settle(&mut self, alloc: Global) -> Result<(), NoMemory>
        ensures forgets { OnOk result (Forgets (known_by self.old) (known_by self.new)) }
        ensures single { OnOk result (IsSingle (known_by self.new)) }
    {
        let x = homes(alloc, self.latter_x.as_slice())?;
        let y = homes(alloc, self.latter_y.as_slice())?;
        leave_x(&mut self.latter_x, x.as_slice(), y.as_slice());
        leave_y(&mut self.latter_y, y.as_slice());
        Ok(())
    }
}

/// Leaves the numbers that two lists have at one place.
fn agree(numbers: &mut Vec<u32>, others: &[u32])
    ensures { Left (by numbers.old.items) (by numbers.new.items) (λ p n. by others.now p ≡ n) }
{
    for i in 0..numbers.len() {
        let n = numbers[i];
        if others.get(i) != Some(&n) {
            numbers[i] = 0;
        }
    }
}

/// The last place of each number in a list.
fn homes(alloc: Global, numbers: &[u32]) -> Result<Vec<u32>, NoMemory> {
    let mut homes = Vec::new(alloc);
    let mut place = 0u32;
    for n in numbers {
        note(&mut homes, *n, place)?;
        place = place.saturating_add(1);
    }
    Ok(homes)
}

/// Leaves the numbers of registers whose value is at home there, and not in the environment.
fn leave_x(numbers: &mut Vec<u32>, x: &[u32], y: &[u32])
    ensures { Left (by numbers.old.items) (by numbers.new.items) (λ p n. (by y.now n ≡ 0) × (by x.now n ≡ p)) }
{
    for i in 0..numbers.len() {
        let n = numbers[i];
        if at(y, n) != 0 || at(x, n) as usize != i {
            numbers[i] = 0;
        }
    }
}

/// Leaves the numbers of permanent variables whose value is at home there.
fn leave_y(numbers: &mut Vec<u32>, y: &[u32])
    ensures { Left (by numbers.old.items) (by numbers.new.items) (λ p n. (0 < by y.now n) × (by y.now n ≡ p)) }
{
    for i in 0..numbers.len() {
        let n = numbers[i];
        if at(y, n) == 0 || at(y, n) as usize != i {
            numbers[i] = 0;
        }
    }
}

/// Where a walk over both codes stands in a group: nowhere; so many steps before its goals one after another, or before their
/// end, with what is known there.
#[derive(Drop)]
enum Way {
    Outside,
    Sides(u32, Numbers),
    Turns(u32, Numbers),
}

/// A walk over both codes: what is known here, and on the other way of a group.
#[derive(Drop)]
pub struct Walk {
    numbers: Numbers,
    way: Way,
}

fn label(step: Step) -> u32
    ensures { result ≡ label_of step }
{
    match step {
        Step::Jump(n) => n,
        Step::CheckGround(_, n) => n,
        Step::CheckIndep(_, _, n) => n,
        Step::AllocParcall(_, n) => n,
        _ => 0,
    }
}

fn has_turns(step: Step) -> bool
    ensures { result ≡ has_turns (step_of step) }
{
    match step {
        Step::CheckGround(_, _) => true,
        Step::CheckIndep(_, _, _) => true,
        Step::AllocParcall(_, _) => true,
        _ => false,
    }
}

fn is_jump(step: Step) -> bool
    ensures { result ≡ is_jump (step_of step) }
{
    match step {
        Step::Jump(_) => true,
        _ => false,
    }
}

fn may_turn(change: Change) -> bool
    ensures { result ≡ may_turn (change_of change) }
{
    match change {
        Change::Kept(step, _, _) => has_turns(step),
        Change::Dropped(_) => false,
    }
}

fn is_leap(change: Change) -> bool
    ensures { result ≡ is_leap (change_of change) }
{
    match change {
        Change::Kept(step, _, _) => is_jump(step),
        Change::Dropped(_) => false,
    }
}

/// How many steps behind the next one a step passes over, where it leads elsewhere.
fn over(change: Change) -> u32
    ensures { result ≡ over (change_of change) }
{
    match change {
        Change::Kept(step, _, _) => label(step),
        Change::Dropped(step) => label(step),
    }
}

fn is_next_to(m: u32, n: u32) -> bool
    ensures { result ≡ true → m ≡ n + 1 }
{
    m != 0 && m - 1 == n
}

impl Walk {
    /// Leaves of what is known here what is known where the ways of a group lead apart, so many steps behind the next one.
    fn meet(&mut self, n: u32) -> bool
        ensures known { result ≡ true → Forgets (known_by self.old.numbers) (known_by self.new.numbers) }
        ensures way { result ≡ true → (c : Changed) (cs : List Changed) → AreKept n (known_by self.new.numbers) cs → WayKept self.old.way (c ∷ cs) }
    {
        match replace(&mut self.way, Way::Outside) {
            Way::Outside => true,
            Way::Sides(over, there) => {
                self.numbers.agree(&there);
                is_next_to(over, n)
            }
            Way::Turns(_, _) => false,
        }
    }

    /// Behind a check, or the first step of a group's goals.
    fn part(&mut self, alloc: Global, change: &Change) -> Result<bool, NoMemory>
        requires { may_turn (change_of change.now) ≡ true }
        ensures { IfOk result (λ r. r ≡ true → LeadsOn self.old self.new (change_of change.now)) }
    {
        let n = over(*change);
        if !self.meet(n) {
            return Ok(false);
        }
        self.numbers.settle(alloc)?;
        self.way = Way::Sides(n, self.numbers.copied()?);
        Ok(self.numbers.accepts(*change))
    }

    /// Behind the jump over a group's goals one after another, which come next.
    fn jump(&mut self, change: &Change) -> bool
        requires { is_leap (change_of change.now) ≡ true }
        ensures { result ≡ true → LeadsOn self.old self.new (change_of change.now) }
    {
        let n = over(*change);
        match replace(&mut self.way, Way::Outside) {
            Way::Sides(1, there) => {
                let here = replace(&mut self.numbers, there);
                self.way = Way::Turns(n, here);
                1 <= n
            }
            _ => false,
        }
    }

    /// One step on, at which no ways part.
    fn go_on(&mut self) -> bool
        ensures { result ≡ true → (c : Changed) → never_turns c ≡ true → PassesOver self.old self.new c }
    {
        match replace(&mut self.way, Way::Outside) {
            Way::Outside => true,
            Way::Sides(over, there) => match over.checked_sub(1) {
                None => false,
                Some(left) => {
                    self.way = Way::Sides(left, there);
                    true
                }
            },
            Way::Turns(1, there) => {
                self.numbers.agree(&there);
                true
            }
            Way::Turns(over, there) => match over.checked_sub(1) {
                None => false,
                Some(left) => {
                    self.way = Way::Turns(left, there);
                    true
                }
            },
        }
    }

    fn step(&mut self, change: &Change) -> Result<bool, NoMemory>
        requires { is_next (change_of change.now) ≡ true }
        ensures { IfOk result (λ r. r ≡ true → LeadsOn self.old self.new (change_of change.now)) }
    {
        if !self.numbers.accepts(*change) {
            return Ok(false);
        }
        self.numbers.pass(*change)?;
        Ok(self.go_on())
    }

    /// Behind a change.
    fn pass(&mut self, alloc: Global, change: &Change) -> Result<bool, NoMemory>
        requires { is_end (change_of change.now) ≡ false }
        ensures { IfOk result (λ r. r ≡ true → LeadsOn self.old self.new (change_of change.now)) }
    {
        if may_turn(*change) {
            return self.part(alloc, change);
        }
        if is_leap(*change) {
            return Ok(self.jump(change));
        }
        self.step(change)
    }

    /// Whether a change that ends the clause does the same.
    fn end(&self, change: Change) -> bool
        requires { is_end (change_of change) ≡ true }
        ensures { result ≡ true → (cs : List Changed) → IsAhead self.now (change_of change ∷ cs) }
    {
        match self.way {
            Way::Outside => self.numbers.accepts(change),
            _ => false,
        }
    }
}

/// Whether all is as it was on each way up to the end.
pub fn all_kept(alloc: Global, changes: &[Change], walk: &mut Walk) -> Result<bool, NoMemory>
    ensures { IfOk result (λ r. r ≡ true → IsAhead walk.old (changes_of changes.now)) }
{
    for change in changes {
        if is_end(*change) {
            return Ok(walk.end(*change));
        }
        if !walk.pass(alloc, change)? {
            return Ok(false);
        }
    }
    Ok(false)
}

/// Whether there are a step's new places.
fn fits(room: Option<u8>, step: Step, u: Slot, o: Slot) -> bool
    ensures { result ≡ fits room (step_of step) u o }
{
    match step {
        Step::GetVariable(_, _) => has_room(room, u) && 1 <= number(o),
        Step::GetValue(_, _) => has_room(room, u) && 1 <= number(o),
        Step::GetConstant(_, _) => 1 <= number(o),
        Step::GetInteger(_, _) => 1 <= number(o),
        Step::GetStructure(_, _, _) => 1 <= number(o),
        Step::PutVariable(_, _, _) => has_room(room, u) && 1 <= number(o),
        Step::PutValue(_, _) => has_room(room, u) && 1 <= number(o),
        Step::PutConstant(_, _) => 1 <= number(o),
        Step::PutInteger(_, _) => 1 <= number(o),
        Step::PutStructure(_, _, _) => 1 <= number(o),
        Step::UnifyVariable(_) | Step::UnifyValue(_) => has_room(room, u),
        Step::UnifyConstant(_) | Step::UnifyInteger(_) => true,
        Step::Execute(_, _) | Step::Builtin(_) | Step::Proceed => true,
        Step::Allocate(_) | Step::Deallocate => false,
        Step::CheckGround(_, _) => room.is_some() && has_room(room, u),
        Step::CheckIndep(_, _, _) => room.is_some() && (has_room(room, u) && has_room(room, o)),
        Step::AllocParcall(n, _) => room.is_some() && 1 <= n,
        Step::Call(_, _) | Step::Jump(_) | Step::PushGoal(_, _, _) | Step::WaitAll => {
            room.is_some()
        }
    }
}

fn change_fits(room: Option<u8>, change: Change) -> bool
    ensures { result ≡ change_fits room (change_of change) }
{
    match change {
        Change::Kept(step, u, o) => fits(room, step, u, o),
        Change::Dropped(step) => may_drop(step),
    }
}

/// Whether there are all new places.
fn all_fit(room: Option<u8>, changes: &[Change]) -> bool
    ensures { result ≡ true → list_all (change_fits room) (changes_of changes.now) ≡ true }
{
    for change in changes {
        if !change_fits(room, *change) {
            return false;
        }
    }
    true
}

fn asks(step: Step) -> bool
    ensures { result ≡ asks (step_of step) }
{
    match step {
        Step::Call(_, _) => true,
        Step::Builtin(_) => true,
        Step::Jump(_) => true,
        Step::CheckGround(_, _) => true,
        Step::CheckIndep(_, _, _) => true,
        Step::AllocParcall(_, _) => true,
        Step::PushGoal(_, _, _) => true,
        Step::WaitAll => true,
        _ => false,
    }
}

fn tests_nothing(step: Step) -> bool
    ensures { result ≡ tests_nothing (step_of step) }
{
    match step {
        Step::GetValue(_, _) => false,
        Step::GetConstant(_, _) => false,
        Step::GetInteger(_, _) => false,
        Step::GetStructure(_, _, _) => false,
        Step::Allocate(_) => false,
        Step::Deallocate => false,
        _ => true,
    }
}

/// Whether no test comes behind a goal.
pub fn all_open(steps: &[Step]) -> bool
    ensures { result ≡ true → all_open false (steps_of steps.now) ≡ true }
{
    let mut asked = false;
    for step in steps {
        if asked && !tests_nothing(*step) {
            return false;
        }
        asked = asked || asks(*step);
    }
    true
}

/// A step in its new places, which passes over so many others.
fn placed(step: Step, u: Slot, o: Slot, n: u32) -> Step
    ensures { result ≡ placed step u o n }
{
    let b = number(o);
    match step {
        Step::GetVariable(_, _) => Step::GetVariable(u, b),
        Step::GetValue(_, _) => Step::GetValue(u, b),
        Step::GetConstant(c, _) => Step::GetConstant(c, b),
        Step::GetInteger(z, _) => Step::GetInteger(z, b),
        Step::GetStructure(f, m, _) => Step::GetStructure(f, m, b),
        Step::PutVariable(_, _, w) => Step::PutVariable(u, b, w),
        Step::PutValue(_, _) => Step::PutValue(u, b),
        Step::PutConstant(c, _) => Step::PutConstant(c, b),
        Step::PutInteger(z, _) => Step::PutInteger(z, b),
        Step::PutStructure(f, m, _) => Step::PutStructure(f, m, b),
        Step::UnifyVariable(_) => Step::UnifyVariable(u),
        Step::UnifyValue(_) => Step::UnifyValue(u),
        Step::Jump(_) => Step::Jump(n),
        Step::CheckGround(_, _) => Step::CheckGround(u, n),
        Step::CheckIndep(_, _, _) => Step::CheckIndep(u, o, n),
        Step::AllocParcall(m, _) => Step::AllocParcall(m, n),
        other => other,
    }
}

/// 1 for a step that stays, 0 for one that falls away.
fn stays(change: Change) -> u32
    ensures { result ≡ staying 1 (change_of change ∷ []) }
{
    match change {
        Change::Kept(_, _, _) => 1,
        Change::Dropped(_) => 0,
    }
}

/// How many of the first n stay.
fn staying(changes: &[Change], n: u32) -> u32
    ensures { result ≡ staying n (changes_of changes.now) }
{
    let mut left = n;
    let mut count = 0u32;
    for change in changes {
        if left == 0 {
            return count;
        }
        left -= 1;
        count += stays(*change);
    }
    count
}

fn add_changed(out: &mut Vec<Step>, change: &Change, behind: &[Change]) -> Result<(), NoMemory>
    ensures { OnOk result (out.new.items ++ written behind.now ≡ out.old.items ++ written (change.now ∷ behind.now)) }
{
    let n = staying(behind, over(*change));
    match *change {
        Change::Kept(step, u, o) => {
            out.push(placed(step, u, o, n))?;
            Ok(())
        }
        Change::Dropped(_) => Ok(()),
    }
}

/// The steps as they become.
pub fn changed(alloc: Global, changes: &[Change]) -> Result<Vec<Step>, NoMemory>
    ensures { IfOk result (λ out. out.items ≡ written changes.now) }
{
    let mut out = Vec::new(alloc);
    let mut i = 0;
    for change in changes {
        i += 1;
        add_changed(&mut out, change, &changes[i..])?;
    }
    Ok(out)
}

/// The numbers below another, each at its place.
fn starts(alloc: Global, count: u32) -> Result<Vec<u32>, NoMemory>
    ensures { IfOk result (λ numbers. IsStart numbers.items count) }
{
    let mut numbers = Vec::new(alloc);
    for n in 0..count {
        numbers.push(n)?;
    }
    Ok(numbers)
}

/// As a clause is entered, whose arguments stand in registers below a number.
pub fn begin(alloc: Global, count: u32) -> Result<Walk, NoMemory>
    ensures way { IfOk result (λ walk. walk.way ≡ Outside) }
    ensures begun { IfOk result (λ walk. IsBegun (known_by walk.numbers)) }
{
    match count.checked_add(1) {
        Some(next) => Ok(Walk {
            numbers: Numbers {
                former_x: starts(alloc, count)?,
                former_y: Vec::new(alloc),
                latter_x: starts(alloc, count)?,
                latter_y: Vec::new(alloc),
                next,
            },
            way: Way::Outside,
        }),
        None => Err(NoMemory),
    }
}

/// The steps as they become, where they are found to do the same.
pub fn tested(
    alloc: Global,
    changes: &[Change],
    room: Option<u8>,
    count: u32,
) -> Result<Option<Vec<Step>>, NoMemory>
    ensures { IfOk result (λ r. IfSome r (λ out. AreTested room (map step_in changes.now) out.items)) }
{
    if !all_fit(room, changes) {
        return Ok(None);
    }
    let mut walk = begin(alloc, count)?;
    if !all_kept(alloc, changes, &mut walk)? {
        return Ok(None);
    }
    let steps = changed(alloc, changes)?;
    if all_open(steps.as_slice()) {
        return Ok(Some(steps));
    }
    Ok(None)
}
