//! What is known at a place, as the check keeps it.

ghost use Rattle.std.specs.Prelude.{◌≡◌, ◌==◌, ℕ, ◌<◌, ◌^◌, true, false, Some, None, IfOk, OnOk, vec_len};
ghost use Rattle.ap_instr.specs.Runs.{set};
ghost use Rattle.ap_codecheck.specs.Shape.{unset, entry, is_set, write, behind_argument, awaited, with_group, pushed, after};
ghost use Rattle.ap_codecheck.specs.Marks.{marked};

use ap_instr::{Instr, Slot};
use ap_term::NoMemory;
use std::alloc::Global;

/// A register's mark says whether it is set; one past the marks isn't.
#[derive(Drop)]
pub struct Shape {
    pub x: Vec<bool>,
    pub y: Vec<bool>,
    pub room: Option<u8>,
    pub pending: u8,
    pub target: Option<u32>,
    pub group: Option<(u8, u8)>,
}

fn widen(marks: &mut Vec<bool>, at: usize) -> Result<(), NoMemory>
    requires { at < 2 ^ 32 }
    ensures room { OnOk result (at < vec_len marks.new) }
    ensures same { OnOk result (marked marks.new.items ≡ marked marks.old.items) }
{
    if marks.len() <= at {
        marks.resize(at + 1, false)?;
    }
    Ok(())
}

fn put(marks: &mut Vec<bool>, at: usize, value: bool) -> Result<(), NoMemory>
    requires { at < 2 ^ 32 }
    ensures { OnOk result (marked marks.new.items ≡ set (marked marks.old.items) at value) }
{
    widen(marks, at)?;
    marks[at] = value;
    Ok(())
}

fn put_arguments(marks: &mut Vec<bool>, arity: u8) -> Result<(), NoMemory>
    ensures { OnOk result (marked marks.new.items ≡ (entry arity).x) }
{
    marks.clear();
    marks.resize(arity as usize + 1, true)?;
    marks[0] = false;
    Ok(())
}

fn is_marked(marks: &[bool], at: usize) -> bool
    ensures { result ≡ marked marks.now at }
{
    match marks.get(at) {
        Some(mark) => *mark,
        None => false,
    }
}

fn same_marks(some: &[bool], others: &[bool]) -> bool
    ensures same { result ≡ true → some.now ≡ others.now }
    ensures other { result ≡ false → some.now ≡ others.now → ⊥ }
{
    some == others
}

impl Shape {
    ghost use Rattle.ap_codecheck.specs.Held.{shape_of, AreAlike};

    pub fn new(alloc: Global) -> Shape
        ensures { shape_of result ≡ record { x = unset; y = unset; room = None; pending = 0; target = None; group = None } }
    {
        Shape {
            x: Vec::new(alloc),
            y: Vec::new(alloc),
            room: None,
            pending: 0,
            target: None,
            group: None,
        }
    }

    /// As a clause of a predicate with so many arguments begins.
    pub fn enter(&mut self, arity: u8) -> Result<(), NoMemory>
        ensures { OnOk result (shape_of self.new ≡ entry arity) }
    {
        put_arguments(&mut self.x, arity)?;
        self.y.clear();
        self.room = None;
        self.pending = 0;
        self.target = None;
        self.group = None;
        Ok(())
    }

    pub fn is_set(&self, v: Slot) -> bool
        ensures { result ≡ is_set (shape_of self.now) v }
    {
        match v {
            Slot::X(n) => is_marked(&self.x, n as usize),
            Slot::Y(n) => is_marked(&self.y, n as usize),
        }
    }

    fn write(&mut self, v: Slot) -> Result<(), NoMemory>
        ensures { OnOk result (shape_of self.new ≡ write v (shape_of self.old)) }
    {
        match v {
            Slot::X(n) => put(&mut self.x, n as usize, true),
            Slot::Y(n) => put(&mut self.y, n as usize, true),
        }
    }

    fn pass_argument(&mut self) -> Result<(), NoMemory>
        ensures { OnOk result (shape_of self.new ≡ behind_argument (shape_of self.old)) }
    {
        if self.pending != 1 {
            self.pending = self.pending.saturating_sub(1);
            return Ok(());
        }
        if let Some(a) = self.target {
            put(&mut self.x, a as usize, true)?;
        }
        self.pending = 0;
        self.target = None;
        Ok(())
    }

    fn build(&mut self, arity: u8, a: u32) -> Result<(), NoMemory>
        ensures { OnOk result (shape_of self.new ≡ record { x = set (shape_of self.old).x a (arity == 0); y = (shape_of self.old).y; room = self.old.room; pending = arity; target = awaited arity a; group = self.old.group }) }
    {
        let is_whole = arity == 0;
        put(&mut self.x, a as usize, is_whole)?;
        self.pending = arity;
        self.target = if is_whole { None } else { Some(a) };
        Ok(())
    }

    fn read_structure(&mut self, arity: u8)
        ensures { shape_of self.new ≡ record { x = (shape_of self.old).x; y = (shape_of self.old).y; room = self.old.room; pending = arity; target = None; group = self.old.group } }
    {
        self.pending = arity;
        self.target = None;
    }

    fn set_room(&mut self, room: Option<u8>)
        ensures { shape_of self.new ≡ record { x = (shape_of self.old).x; y = unset; room = room; pending = self.old.pending; target = self.old.target; group = self.old.group } }
    {
        self.y.clear();
        self.room = room;
    }

    fn lose_registers(&mut self)
        ensures { shape_of self.new ≡ record { x = unset; y = (shape_of self.old).y; room = self.old.room; pending = self.old.pending; target = self.old.target; group = self.old.group } }
    {
        self.x.clear();
    }

    fn begin_group(&mut self, goals: u8)
        ensures { shape_of self.new ≡ with_group (Some (goals, 0)) (shape_of self.old) }
    {
        self.group = Some((goals, 0));
    }

    fn push_goal(&mut self, number: u8)
        ensures { shape_of self.new ≡ with_group (pushed number self.old.group) (shape_of self.old) }
    {
        self.group = match self.group {
            Some((goals, _)) => Some((goals, number)),
            None => None,
        };
    }

    fn end_group(&mut self)
        ensures { shape_of self.new ≡ record { x = unset; y = (shape_of self.old).y; room = self.old.room; pending = self.old.pending; target = self.old.target; group = None } }
    {
        self.lose_registers();
        self.group = None;
    }

    /// As it is behind an instruction.
    pub fn advance(&mut self, instr: &Instr) -> Result<(), NoMemory>
        ensures { OnOk result (shape_of self.new ≡ after instr.now (shape_of self.old)) }
    {
        match *instr {
            Instr::GetVariable(v, _) => self.write(v)?,
            Instr::GetStructure(_, n, _) => self.read_structure(n),
            Instr::PutVariable(v, a) => {
                self.write(v)?;
                self.write(Slot::X(a))?
            }
            Instr::PutValue(_, a) => self.write(Slot::X(a))?,
            Instr::PutConstant(_, a) => self.write(Slot::X(a))?,
            Instr::PutInteger(_, a) => self.write(Slot::X(a))?,
            Instr::PutStructure(_, n, a) => self.build(n, a)?,
            Instr::UnifyVariable(v) => {
                self.write(v)?;
                self.pass_argument()?
            }
            Instr::UnifyValue(_) => self.pass_argument()?,
            Instr::UnifyConstant(_) => self.pass_argument()?,
            Instr::UnifyInteger(_) => self.pass_argument()?,
            Instr::Allocate(n) => self.set_room(Some(n)),
            Instr::Deallocate => self.set_room(None),
            Instr::Call(_) => self.lose_registers(),
            Instr::AllocParcall(n, _) => self.begin_group(n),
            Instr::PushGoal(i, _) => self.push_goal(i),
            Instr::WaitAll => self.end_group(),
            _ => {}
        }
        Ok(())
    }

    pub fn copy(&self) -> Result<Shape, NoMemory>
        ensures { IfOk result (λ copy. shape_of copy ≡ shape_of self.now) }
    {
        Ok(Shape {
            x: self.x.clone()?,
            y: self.y.clone()?,
            room: self.room,
            pending: self.pending,
            target: self.target,
            group: self.group,
        })
    }

    /// Whether the same is known here as there, as far as it is easily told.
    pub fn is_same(&self, other: &Shape) -> bool
        ensures same { result ≡ true → shape_of self.now ≡ shape_of other.now }
        ensures other { result ≡ false → AreAlike self.now other.now → ⊥ }
    {
        if self.room != other.room || self.pending != other.pending {
            return false;
        }
        if self.target != other.target || self.group != other.group {
            return false;
        }
        same_marks(&self.x, &other.x) && same_marks(&self.y, &other.y)
    }
}
