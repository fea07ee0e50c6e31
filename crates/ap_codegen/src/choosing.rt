//! Which places variables stand in. Nothing is promised of the choice: code by it is tested.
//!
//! A variable that outlives a call or a group stands in the environment; any other one in a register: the one that it comes
//! from, if nothing else is written there as long as it is read, or the one that it goes to, if nothing else needs that
//! meanwhile. Of a group the goals side by side are looked at: the same goals one after another are the same steps,
//! but for a call in place of each push, so that they count as the steps that they repeat.

ghost use Rattle.std.specs.Prelude.{◌≡◌, map, IfOk};
ghost use Rattle.ap_codegen.specs.Relocated.{step_in};

use crate::relocating::{Change, at, note};
use crate::steps::Step;
use crate::temporary::{arity, greatest_of, number};
use ap_instr::Slot;
use ap_term::NoMemory;
use std::alloc::Global;
use std::mem::replace;

/// The number of a variable, or 0.
fn variable(v: Slot) -> u32 {
    match v {
        Slot::X(_) => 0,
        Slot::Y(n) => u32::from(n),
    }
}

/// The argument register that a step names, or 0.
fn argument(step: Step) -> u32 {
    match step {
        Step::GetVariable(_, a) => a,
        Step::GetValue(_, a) => a,
        Step::GetConstant(_, a) => a,
        Step::GetInteger(_, a) => a,
        Step::GetStructure(_, _, a) => a,
        Step::PutVariable(_, a, _) => a,
        Step::PutValue(_, a) => a,
        Step::PutConstant(_, a) => a,
        Step::PutInteger(_, a) => a,
        Step::PutStructure(_, _, a) => a,
        _ => 0,
    }
}

/// The place that a step makes, or register 0.
fn made_by(step: Step) -> Slot {
    match step {
        Step::GetVariable(v, _) => v,
        Step::PutVariable(v, _, _) => v,
        Step::UnifyVariable(v) => v,
        _ => Slot::X(0),
    }
}

/// The place that a step reads, or register 0.
fn read_by(step: Step) -> Slot {
    match step {
        Step::GetValue(v, _) => v,
        Step::PutValue(v, _) => v,
        Step::UnifyValue(v) => v,
        Step::CheckGround(v, _) => v,
        Step::CheckIndep(v, _, _) => v,
        _ => Slot::X(0),
    }
}

/// The other place that a check of two reads, or register 0.
fn read_beside(step: Step) -> Slot {
    match step {
        Step::CheckIndep(_, w, _) => w,
        _ => Slot::X(0),
    }
}

fn is_put(step: Step) -> bool {
    match step {
        Step::PutVariable(_, _, _) => true,
        Step::PutValue(_, _) => true,
        Step::PutConstant(_, _) => true,
        Step::PutInteger(_, _) => true,
        Step::PutStructure(_, _, _) => true,
        _ => false,
    }
}

/// Whether the registers are lost behind a step.
fn is_call(step: Step) -> bool {
    match step {
        Step::Call(_, _) => true,
        Step::WaitAll => true,
        _ => false,
    }
}

/// How many steps a step passes over on the way of goals side by side, or on the other one.
fn passes_over(step: Step, hold: bool) -> u32 {
    match step {
        Step::Jump(n) => n,
        Step::CheckGround(_, n) => if hold { 0 } else { n },
        Step::CheckIndep(_, _, n) => if hold { 0 } else { n },
        Step::AllocParcall(_, n) => if hold { 0 } else { n },
        _ => 0,
    }
}

/// The steps of one way: where all groups' goals go side by side, or all one after another.
fn way(alloc: Global, steps: &[Step], hold: bool) -> Result<Vec<Step>, NoMemory> {
    let mut way = Vec::new(alloc);
    let mut over = 0u32;
    for step in steps {
        if over == 0 {
            way.push(*step)?;
            over = passes_over(*step, hold);
        } else {
            over -= 1;
        }
    }
    Ok(way)
}

/// What is known of steps, by their numbers from 1 on, and of variables, by theirs; 0 for none.
#[derive(Drop)]
struct Uses {
    /// of a step, the last one before it that names its argument register
    before: Vec<u32>,
    /// of a step, the next one before a call that writes its argument register
    written: Vec<u32>,
    /// how many calls stand before the step that makes the variable, and one
    born: Vec<u32>,
    /// the last step that reads it
    last: Vec<u32>,
    /// 1, if it outlives a call
    outlives: Vec<u32>,
    /// the last step that puts it into an argument register, and the register
    goes: Vec<u32>,
    to: Vec<u32>,
}

impl Uses {
    fn new(alloc: Global) -> Uses {
        Uses {
            before: Vec::new(alloc),
            written: Vec::new(alloc),
            born: Vec::new(alloc),
            last: Vec::new(alloc),
            outlives: Vec::new(alloc),
            goes: Vec::new(alloc),
            to: Vec::new(alloc),
        }
    }

    /// A variable is read by a step behind so many calls.
    fn read(&mut self, v: u32, i: u32, calls: u32) -> Result<(), NoMemory> {
        note(&mut self.last, v, i)?;
        if at(self.born.as_slice(), v) < calls {
            note(&mut self.outlives, v, 1)?;
        }
        Ok(())
    }

    /// What a step does with variables.
    fn note_variables(&mut self, step: &Step, i: u32, calls: u32) -> Result<(), NoMemory> {
        note(&mut self.born, variable(made_by(*step)), calls)?;
        let v = variable(read_by(*step));
        if v != 0 {
            self.read(v, i, calls)?;
        }
        let w = variable(read_beside(*step));
        if w != 0 {
            self.read(w, i, calls)?;
        }
        if is_put(*step) {
            note(&mut self.goes, v, i)?;
            note(&mut self.to, v, argument(*step))?;
        }
        Ok(())
    }

    fn is_permanent(&self, v: u32) -> bool {
        at(self.outlives.as_slice(), v) != 0
    }

    fn last(&self, v: u32) -> u32 {
        at(self.last.as_slice(), v)
    }

    /// Whether a variable is read no more once the argument register of a step is written again.
    fn is_done(&self, v: u32, i: u32) -> bool {
        let written = at(self.written.as_slice(), i);
        written == 0 || self.last(v) <= written
    }
}

/// How many argument registers a step reads behind which they aren't lost.
fn wanted(step: Step) -> u8 {
    match step {
        Step::Builtin(builtin) => arity(builtin),
        Step::PushGoal(_, _, n) => n,
        _ => 0,
    }
}

/// A step names its registers.
fn touch(touched: &mut Vec<u32>, step: &Step, i: u32) -> Result<(), NoMemory> {
    note(touched, argument(*step), i)?;
    note(touched, number(made_by(*step)), i)?;
    note(touched, number(read_by(*step)), i)?;
    for a in 0..wanted(*step) {
        note(touched, u32::from(a) + 1, i)?;
    }
    Ok(())
}

/// What is known by going over the steps from the first to the last.
fn go_forth(alloc: Global, uses: &mut Uses, steps: &[Step]) -> Result<(), NoMemory> {
    let mut touched = Vec::new(alloc);
    let mut i = 0u32;
    let mut calls = 1u32;
    for step in steps {
        i = i.saturating_add(1);
        note(&mut uses.before, i, at(touched.as_slice(), argument(*step)))?;
        touch(&mut touched, step, i)?;
        uses.note_variables(step, i, calls)?;
        if is_call(*step) {
            calls = calls.saturating_add(1);
        }
    }
    Ok(())
}

/// Which variables outlive a call where goals go one after another.
fn outlive(alloc: Global, steps: &[Step]) -> Result<Vec<u32>, NoMemory> {
    let turns = way(alloc, steps, false)?;
    let mut uses = Uses::new(alloc);
    go_forth(alloc, &mut uses, turns.as_slice())?;
    Ok(uses.outlives)
}

/// A step writes registers, or loses them.
fn overwrite(writes: &mut Vec<u32>, step: &Step, i: u32) -> Result<(), NoMemory> {
    if is_call(*step) {
        writes.clear();
    }
    if is_put(*step) {
        note(writes, argument(*step), i)?;
    }
    note(writes, number(made_by(*step)), i)
}

/// What is known by going over them from the last to the first.
fn go_back(alloc: Global, uses: &mut Uses, steps: &[Step]) -> Result<(), NoMemory> {
    let mut writes = Vec::new(alloc);
    let mut i = u32::try_from(steps.len()).unwrap_or(0);
    for step in steps.iter().rev() {
        note(&mut uses.written, i, at(writes.as_slice(), argument(*step)))?;
        overwrite(&mut writes, step, i)?;
        i = i.saturating_sub(1);
    }
    Ok(())
}

/// Where variables stand.
#[derive(Drop)]
struct Places {
    /// of each register, the variable that it holds
    held: Vec<u32>,
    /// of each variable, the register that it was put into last; the one of the environment
    home: Vec<u32>,
    permanent: Vec<u32>,
    /// how many variables are in the environment
    count: u8,
    /// how many registers behind the greatest that a step names are used since the last call
    others: u32,
}

impl Places {
    fn new(alloc: Global) -> Places {
        Places {
            held: Vec::new(alloc),
            home: Vec::new(alloc),
            permanent: Vec::new(alloc),
            count: 0,
            others: 0,
        }
    }

    fn copied(&self) -> Result<Places, NoMemory> {
        Ok(Places {
            held: self.held.clone()?,
            home: self.home.clone()?,
            permanent: self.permanent.clone()?,
            count: self.count,
            others: self.others,
        })
    }

    /// The registers are lost.
    fn lose(&mut self) {
        self.held.clear();
        self.others = 0;
    }
}

/// The code as it is chosen up to a step.
#[derive(Drop)]
struct Choice {
    uses: Uses,
    /// no step names a greater register
    greatest: u32,
    /// the number of the step, on the way of goals side by side
    step: u32,
    places: Places,
    /// where the ways of a group part
    before: Option<Places>,
    /// the number of the step that begins a group; how many steps of its goals one after another are left, and the number of
    /// the step before them
    group: u32,
    left: u32,
    jump: u32,
}

impl Choice {
    fn held(&self, a: u32) -> u32 {
        at(self.places.held.as_slice(), a)
    }

    /// Where a variable is.
    fn place(&self, v: Slot) -> Slot {
        let n = variable(v);
        if n == 0 {
            return v;
        }
        let a = at(self.places.home.as_slice(), n);
        if a != 0 && self.held(a) == n {
            return Slot::X(a);
        }
        Slot::Y(u8::try_from(at(self.places.permanent.as_slice(), n)).unwrap_or(0))
    }

    /// A register holds a variable.
    fn hold(&mut self, a: u32, v: u32) -> Result<(), NoMemory> {
        note(&mut self.places.held, a, v)?;
        note(&mut self.places.home, v, a)
    }

    /// An argument register holds a variable too.
    fn hold_too(&mut self, a: u32, v: Slot) -> Result<(), NoMemory> {
        match self.place(v) {
            Slot::X(_) => note(&mut self.places.held, a, variable(v)),
            Slot::Y(_) => self.hold(a, variable(v)),
        }
    }

    /// Whether nothing is lost where a register is written by a step.
    fn is_free(&self, a: u32, i: u32) -> bool {
        let v = self.held(a);
        v == 0 || self.uses.is_permanent(v) || self.uses.last(v) <= i
    }

    /// The register that a variable made by a step goes to, or one that no other variable has.
    fn register_for(&mut self, v: u32, i: u32) -> u32 {
        let put = at(self.uses.goes.as_slice(), v);
        let a = at(self.uses.to.as_slice(), v);
        let is_alone = at(self.uses.before.as_slice(), put) <= i;
        if i < put && is_alone && self.is_free(a, i) && self.uses.is_done(v, put) {
            return a;
        }
        self.places.others = self.places.others.saturating_add(1);
        self.greatest.saturating_add(self.places.others)
    }

    /// A new variable of the environment.
    fn keep(&mut self, v: u32) -> Result<Slot, NoMemory> {
        let n = self.places.count.saturating_add(1);
        self.places.count = n;
        note(&mut self.places.permanent, v, u32::from(n))?;
        Ok(Slot::Y(n))
    }

    /// The place of a variable that a step makes, which isn't to be left in the register that the step names.
    fn make(&mut self, v: u32, i: u32) -> Result<Slot, NoMemory> {
        if self.uses.is_permanent(v) {
            return self.keep(v);
        }
        let a = self.register_for(v, i);
        self.hold(a, v)?;
        Ok(Slot::X(a))
    }

    /// A variable comes in an argument register.
    fn get(&mut self, step: Step, v: Slot, a: u32, i: u32) -> Result<Change, NoMemory>
        ensures { IfOk result (λ c. step_in c ≡ step) }
    {
        let n = variable(v);
        if self.uses.last(n) == 0 {
            return Ok(Change::Dropped(step));
        }
        if !self.uses.is_permanent(n) && self.uses.is_done(n, i) {
            self.hold(a, n)?;
            return Ok(Change::Dropped(step));
        }
        let place = self.make(n, i)?;
        self.hold_too(a, v)?;
        Ok(Change::Kept(step, place, Slot::X(a)))
    }

    /// A new variable is put into an argument register.
    fn put_new(&mut self, step: Step, v: Slot, a: u32, i: u32) -> Result<Change, NoMemory>
        ensures { IfOk result (λ c. step_in c ≡ step) }
    {
        let n = variable(v);
        if !self.uses.is_permanent(n) && self.uses.is_done(n, i) {
            self.hold(a, n)?;
            return Ok(Change::Kept(step, Slot::X(a), Slot::X(a)));
        }
        let place = self.make(n, i)?;
        self.hold_too(a, v)?;
        Ok(Change::Kept(step, place, Slot::X(a)))
    }

    /// A variable is put into an argument register.
    fn put(&mut self, step: Step, v: Slot, a: u32) -> Result<Change, NoMemory>
        ensures { IfOk result (λ c. step_in c ≡ step) }
    {
        if self.held(a) == variable(v) && self.held(a) != 0 {
            return Ok(Change::Dropped(step));
        }
        let place = self.place(v);
        self.hold_too(a, v)?;
        Ok(Change::Kept(step, place, Slot::X(a)))
    }

    /// A variable is an argument of a structure.
    fn unify_new(&mut self, step: Step, v: Slot, i: u32) -> Result<Change, NoMemory>
        ensures { IfOk result (λ c. step_in c ≡ step) }
    {
        match v {
            Slot::X(a) => {
                note(&mut self.places.held, a, 0)?;
                Ok(Change::Kept(step, v, Slot::X(0)))
            }
            Slot::Y(n) => {
                let place = self.make(u32::from(n), i)?;
                Ok(Change::Kept(step, place, Slot::X(0)))
            }
        }
    }

    /// A step that makes no variable and moves none.
    fn other(&mut self, step: &Step) -> Result<Change, NoMemory>
        ensures { IfOk result (λ c. step_in c ≡ step.now) }
    {
        let place = self.place(read_by(*step));
        let a = argument(*step);
        if is_call(*step) {
            self.places.lose();
        }
        if is_put(*step) {
            note(&mut self.places.held, a, 0)?;
        }
        Ok(Change::Kept(*step, place, Slot::X(a)))
    }

    /// A check, or the first step of a group's goals: where both ways of the group part each variable is left in one place.
    fn part(&mut self, step: &Step) -> Result<Change, NoMemory>
        ensures { IfOk result (λ c. step_in c ≡ step.now) }
    {
        if self.before.is_none() {
            self.settle()?;
            self.leave_doubles()?;
            self.before = Some(self.places.copied()?);
        }
        let place = self.place(read_by(*step));
        let beside = self.place(read_beside(*step));
        Ok(Change::Kept(*step, place, beside))
    }

    /// A variable of no environment is at home in the last register that holds it.
    fn settle(&mut self) -> Result<(), NoMemory> {
        let mut a = 0u32;
        for v in self.places.held.as_slice() {
            note(&mut self.places.home, *v, a)?;
            a = a.saturating_add(1);
        }
        Ok(())
    }

    /// Registers hold no variable that is at home elsewhere.
    fn leave_doubles(&mut self) -> Result<(), NoMemory> {
        let count = u32::try_from(self.places.held.len()).unwrap_or(0);
        for a in 0..count {
            let v = self.held(a);
            if self.uses.is_permanent(v) || at(self.places.home.as_slice(), v) != a {
                note(&mut self.places.held, a, 0)?;
            }
        }
        Ok(())
    }

    /// What becomes of a step.
    fn change(&mut self, step: &Step) -> Result<Change, NoMemory>
        ensures { IfOk result (λ c. step_in c ≡ step.now) }
    {
        self.step = self.step.saturating_add(1);
        let i = self.step;
        match *step {
            Step::GetVariable(v, a) => self.get(*step, v, a, i),
            Step::PutVariable(v, a, _) => self.put_new(*step, v, a, i),
            Step::PutValue(v, a) => self.put(*step, v, a),
            Step::UnifyVariable(v) => self.unify_new(*step, v, i),
            Step::CheckGround(_, _) | Step::CheckIndep(_, _, _) => self.part(step),
            Step::AllocParcall(_, _) => self.part(step),
            _ => self.other(step),
        }
    }

    /// Goes on behind a step.
    fn go_on(&mut self, step: &Step) {
        match *step {
            Step::AllocParcall(_, _) => self.group = self.step,
            Step::Jump(n) => self.turn(n),
            _ => self.count_down(),
        }
    }

    /// A group's goals come one after another, from where its ways part.
    fn turn(&mut self, n: u32) {
        if let Some(before) = replace(&mut self.before, None) {
            self.places = before;
        }
        self.left = n;
        self.jump = self.step;
        self.step = self.group;
    }

    /// Both ways of a group join behind the last of these.
    fn count_down(&mut self) {
        if self.left == 0 {
            return;
        }
        self.left -= 1;
        if self.left == 0 {
            self.step = self.jump;
            self.places.lose();
        }
    }
}

fn begin(alloc: Global, steps: &[Step]) -> Result<Choice, NoMemory> {
    let sides = way(alloc, steps, true)?;
    let mut uses = Uses::new(alloc);
    if sides.len() < steps.len() {
        uses.outlives = outlive(alloc, steps)?;
    }
    go_forth(alloc, &mut uses, sides.as_slice())?;
    go_back(alloc, &mut uses, sides.as_slice())?;
    Ok(Choice {
        uses,
        greatest: greatest_of(steps),
        step: 0,
        places: Places::new(alloc),
        before: None,
        group: 0,
        left: 0,
        jump: 0,
    })
}

/// The steps in new places.
#[derive(Drop)]
pub struct Chosen {
    pub changes: Vec<Change>,
    /// for how many variables an environment is wanted, where one is
    pub room: Option<u8>,
}

/// What becomes of each step.
pub fn choose(alloc: Global, steps: &[Step]) -> Result<Chosen, NoMemory>
    ensures { IfOk result (λ chosen. map step_in chosen.changes.items ≡ steps.now) }
{
    let mut choice = begin(alloc, steps)?;
    let mut changes = Vec::new(alloc);
    let mut calls = false;
    for step in steps {
        changes.push(choice.change(step)?)?;
        choice.go_on(step);
        calls = calls || is_call(*step);
    }
    let room = if calls {
        Some(choice.places.count)
    } else {
        None
    };
    Ok(Chosen { changes, room })
}
