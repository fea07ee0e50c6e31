//! Where a walk of a clause stands, and the places that it still has to go on from.

ghost use Rattle.std.specs.Prelude.{◌≡◌, ◌⊎◌, ◌+◌, ◌^◌, ◌<◌, ℕ, true, false, [], Some, None, IfOk, OnOk, MatchOption};
ghost use Rattle.ap_codecheck.specs.declared.walk.Way.{Way};
ghost use Rattle.ap_codecheck.specs.Shape.{entry};
ghost use Rattle.ap_codecheck.specs.Held.{shape_of};
ghost use Rattle.ap_codecheck.specs.Walk.{is_inner, elsewhere};
ghost use Rattle.ap_codecheck.specs.Known.{IsKnown, IsUnknown, Remembers, IsWay};

use crate::shape::Shape;
use ap_instr::Instr;
use ap_term::NoMemory;
use std::alloc::Global;

/// A place that a jump or check leads to, with the shape there.
#[derive(Drop)]
pub struct Way {
    pub place: usize,
    pub shape: Shape,
}

/// The shape where the walk stands, and what is remembered of the clause.
#[derive(Drop)]
pub struct Walk {
    pub shape: Shape,
    pub ways: Vec<Way>,
}

/// The place that an instruction leads to beside the one behind it.
fn elsewhere(instr: &Instr) -> Option<u32>
    ensures { result ≡ elsewhere instr.now }
{
    match *instr {
        Instr::Jump(l) => Some(l),
        Instr::CheckGround(_, l) => Some(l),
        Instr::CheckIndep(_, _, l) => Some(l),
        _ => None,
    }
}

/// Whether an instruction leads to the one behind it.
fn is_inner(instr: &Instr) -> bool
    ensures { result ≡ is_inner instr.now }
{
    match *instr {
        Instr::Execute(_) => false,
        Instr::Proceed => false,
        Instr::Jump(_) => false,
        Instr::Fail => false,
        Instr::Try(_) => false,
        Instr::Retry(_) => false,
        Instr::Trust(_) => false,
        _ => true,
    }
}

/// Whether a place is remembered with a shape.
fn is_known(ways: &[Way], place: usize, shape: &Shape) -> bool
    ensures known { result ≡ true → IsKnown ways.now place (shape_of shape.now) }
    ensures unknown { result ≡ false → IsUnknown ways.now place shape.now }
{
    for way in ways {
        if way.place == place && way.shape.is_same(shape) {
            return true;
        }
    }
    false
}

/// Remembers a place with a shape, unless it is.
fn remember(ways: &mut Vec<Way>, place: usize, shape: &Shape) -> Result<(), NoMemory>
    ensures remembers { OnOk result (Remembers ways.old.items ways.new.items (Some place) (shape_of shape.now)) }
    ensures once { OnOk result ((ways.new.items ≡ ways.old.items) ⊎ IsUnknown ways.old.items place shape.now) }
{
    if is_known(ways, place, shape) {
        return Ok(());
    }
    let shape = shape.copy()?;
    ways.push(Way { place, shape })?;
    Ok(())
}

impl Walk {
    pub fn new(alloc: Global) -> Walk
        ensures { result.ways.items ≡ [] }
    {
        Walk {
            shape: Shape::new(alloc),
            ways: Vec::new(alloc),
        }
    }

    /// Begins with a clause of a predicate with so many arguments.
    pub fn begin(&mut self, arity: u8) -> Result<(), NoMemory>
        ensures shape { OnOk result (shape_of self.new.shape ≡ entry arity) }
        ensures ways { OnOk result (self.new.ways.items ≡ []) }
    {
        self.ways.clear();
        self.shape.enter(arity)
    }

    /// Remembers what an instruction leads to beside the one behind it.
    pub fn remember_elsewhere(&mut self, instr: &Instr) -> Result<(), NoMemory>
        ensures same { OnOk result (shape_of self.new.shape ≡ shape_of self.old.shape) }
        ensures remembers { OnOk result (Remembers self.old.ways.items self.new.ways.items (elsewhere instr.now) (shape_of self.old.shape)) }
        ensures once { OnOk result ((self.new.ways.items ≡ self.old.ways.items) ⊎ MatchOption (elsewhere instr.now) ⊥ (λ l. IsUnknown self.old.ways.items l self.old.shape)) }
    {
        match elsewhere(instr) {
            Some(place) => remember(&mut self.ways, place as usize, &self.shape),
            None => Ok(()),
        }
    }

    /// Whether control goes on from an instruction to a place behind it that isn't remembered.
    pub fn goes_on(&self, instr: &Instr, behind: usize) -> bool
        ensures goes { result ≡ true → is_inner instr.now ≡ true }
        ensures on { result ≡ true → IsUnknown self.now.ways.items behind self.now.shape }
        ensures stops { result ≡ false → is_inner instr.now ≡ true → IsKnown self.now.ways.items behind (shape_of self.now.shape) }
    {
        is_inner(instr) && !is_known(&self.ways, behind, &self.shape)
    }

    /// Stands at the remembered way of a number, if there is one, and tells its place.
    pub fn stand(&mut self, number: usize) -> Result<Option<usize>, NoMemory>
        ensures same { OnOk result (self.new.ways.items ≡ self.old.ways.items) }
        ensures way { IfOk result (λ place. IsWay self.old.ways.items number (shape_of self.new.shape) place) }
    {
        let Some(way) = self.ways.get(number) else {
            return Ok(None);
        };
        self.shape = way.shape.copy()?;
        Ok(Some(way.place))
    }
}
