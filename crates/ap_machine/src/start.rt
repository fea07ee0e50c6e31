//! A search begins.

ghost use Rattle.std.specs.Prelude.{◌≡◌, ℕ, ◌+◌, ◌<◌, ◌≤◌, [], ◌∷◌, length, replicate, slice_get, None, Some, true, false, IfOk, IfSome, OnOk, OnErr};
ghost use Rattle.ap_term.specs.Tree.{count_trees};
ghost use Rattle.ap_instr.specs.Builtin.{builtin_name, builtin_arity};
ghost use Rattle.ap_instr.specs.StandsFor.{IsOfBuiltin};
ghost use Rattle.ap_instr.specs.declared.compiled.Predicate.{Predicate as PredicateOf};
ghost use Rattle.ap_steps.specs.Moves.{held, HoldPlaces};
ghost use Rattle.ap_machine.specs.Sane.{HasBottom};
ghost use Rattle.ap_machine.specs.View.{now_of};
ghost use Rattle.ap_machine.specs.Started.{IsQuestion, IsFirst, Started};
ghost use Rattle.ap_machine.specs.LaidOut.{AreInside, IsLaidOut};

use crate::calls::predicate_at;
use crate::goals::behind;
use crate::state::{Now, Search};
use ap_arith::Pending;
use ap_cells::{Cell, CellMark, Cells};
use ap_checks::Comparison;
use ap_codecheck::Sound;
use ap_control::{first, following, instruction_at};
use ap_copy::{Parcelled, Roots, copy_in};
use ap_environments::Environments;
use ap_group::Goals;
use ap_instr::{Builtin, Code, Instr, Predicate};
use ap_needs::Widths;
use ap_term::{Atom, NoMemory};
use ap_unify::Work;
use std::alloc::Global;

/// A search has room for so many cells when it begins. So the first clauses that a small goal enters take no more memory.
const FIRST_CELLS: usize = 64;

/// Makes registers hold place 0.
fn put_zeros(registers: &mut Vec<u32>, count: usize) -> Result<(), NoMemory>
    ensures ok { OnOk result (registers.new.items ≡ replicate count 0) }
    ensures err { OnErr result (registers.new.items ≡ []) }
{
    registers.clear();
    registers.resize(count, 0)?;
    Ok(())
}

/// Makes a list that of the places of a tuple.
fn put_places(places: &mut Vec<usize>, tuple: Roots) -> Result<(), NoMemory>
    requires { tuple.first + tuple.count ≤ 4294967295 }
    ensures len { OnOk result (length places.new.items ≡ tuple.count) }
    ensures each { (i : ℕ) → i < length places.new.items → held places.new.items i ≡ tuple.first + i }
    ensures few { length places.new.items ≤ tuple.count }
{
    places.clear();
    for i in 0..tuple.count {
        places.push(tuple.first + i)?;
    }
    Ok(())
}

/// Makes registers hold place 0, but those of the arguments the places of a tuple.
fn put_arguments(x: &mut Vec<u32>, count: usize, tuple: Roots) -> Result<(), NoMemory>
    requires room { tuple.count < count }
    requires few { tuple.first + tuple.count ≤ 4294967295 }
    ensures len { OnOk result (length x.new.items ≡ count) }
    ensures each { OnOk result ((i : ℕ) → i < tuple.count → held x.new.items (i + 1) ≡ tuple.first + i) }
    ensures inside { (n : ℕ) → 0 < n → tuple.first + tuple.count ≤ n → HoldPlaces n x.new.items }
{
    put_zeros(x, count)?;
    for i in 0..tuple.count {
        x[i + 1] = (tuple.first + i) as u32;
    }
    Ok(())
}

/// Cells of which the first is an atom.
fn with_bottom(alloc: Global) -> Result<Cells, NoMemory>
    ensures { IfOk result (λ cells. HasBottom cells) }
{
    let mut cells = Cells::new(alloc);
    cells.reserve(FIRST_CELLS)?;
    cells.push(Cell::Atom(Atom::at(0)));
    Ok(cells)
}

/// Takes back all cells but the first, an atom.
fn back_to_bottom(cells: &mut Cells)
    requires { HasBottom cells.old }
    ensures { HasBottom cells.new }
{
    cells.undo_to(CellMark { cells: 1, trail: 0 });
}

/// Lays a tuple out for a search that begins: its terms in the cells, behind the first one, and their places in registers and in a list.
fn lay_out(
    cells: &mut Cells,
    x: &mut Vec<u32>,
    y: &mut Vec<u32>,
    roots: &mut Vec<usize>,
    widths: Widths,
    tuple: &Parcelled,
) -> Result<(), NoMemory>
    requires bottom { HasBottom cells.old }
    requires room { count_trees tuple.now < widths.x }
    ensures laid { OnOk result (IsLaidOut tuple.now widths cells.new x.new.items y.new.items roots.new.items) }
    ensures inside { AreInside cells.new x.new.items y.new.items roots.new.items }
{
    x.clear();
    y.clear();
    roots.clear();
    back_to_bottom(cells);
    let copied = copy_in(cells, tuple)?;
    let _few = cells.len();
    put_arguments(x, widths.x, copied)?;
    put_zeros(y, widths.y)?;
    put_places(roots, copied)
}

/// Where the question begins, if that is the predicate.
fn question(code: &Code, number: u32) -> Option<u32>
    ensures some { IfSome result (λ at. (question : IsQuestion code.now number) × (question.3 ≡ at)) }
    ensures none { result ≡ None → IsQuestion code.now number → ⊥ }
{
    if code.query() != Some(number) {
        return None;
    }
    let predicate = predicate_at(code, number)?;
    let alternative = first(code, &predicate)?;
    match following(code, alternative.behind) {
        Some(_) => None,
        None => Some(alternative.place),
    }
}

/// Whether a built-in goal is what a predicate is of.
fn is_goal_of(builtin: Builtin, predicate: &Predicate) -> bool
    ensures yes { result ≡ true → (builtin_name builtin ≡ predicate.now.name) × (builtin_arity builtin ≡ predicate.now.arity) }
    ensures no { result ≡ false → builtin_name builtin ≡ predicate.now.name → builtin_arity builtin ≡ predicate.now.arity → ⊥ }
{
    let arity = match builtin {
        Builtin::True => 0,
        Builtin::Fail => 0,
        Builtin::Relation(_) => 2,
    };
    builtin.name() == predicate.name && predicate.arity == arity
}

/// Where the code of a built-in goal's predicate begins, if that is one.
fn goal_place(code: &Code, number: u32) -> Option<u32>
    ensures some { IfSome result (λ at. (q : PredicateOf) × (slice_get code.now.predicates number ≡ Some q) × IsOfBuiltin code.now q × (q.start ≡ at)) }
    ensures none { result ≡ None → (q : PredicateOf) → slice_get code.now.predicates number ≡ Some q → IsOfBuiltin code.now q → ⊥ }
{
    let predicate = predicate_at(code, number)?;
    let place = predicate.start as usize;
    match instruction_at(code, place) {
        Some(Instr::Builtin(builtin)) if is_goal_of(builtin, &predicate) => {
            match instruction_at(code, behind(code, place)) {
                Some(Instr::Proceed) => Some(predicate.start),
                _ => None,
            }
        }
        _ => None,
    }
}

/// What a search does first.
fn first_step(code: &Code, number: u32) -> Now
    ensures { IsFirst code.now number (now_of result) }
{
    if let Some(at) = question(code, number) {
        return Now::Inside(at as usize);
    }
    match goal_place(code, number) {
        Some(at) => Now::Inside(at as usize),
        None => Now::Calling(number),
    }
}

impl Search {
    /// A search for a goal of the code's table on the terms of a tuple, with so many calls to make. The query is entered
    /// without a call, and so is a built-in goal's predicate: the goal is the call.
    pub fn start(
        alloc: Global,
        sound: &Sound,
        tuple: &Parcelled,
        predicate: u32,
        rest: u64,
    ) -> Result<Search, NoMemory>
        requires { (q : PredicateOf) × (slice_get sound.now.predicates predicate ≡ Some q) × (q.arity ≡ count_trees tuple.now) }
        ensures { IfOk result (λ found. Started sound.now tuple.now predicate rest found) }
    {
        let mut cells = with_bottom(alloc)?;
        let mut x = Vec::new(alloc);
        let mut y = Vec::new(alloc);
        let mut roots = Vec::new(alloc);
        lay_out(
            &mut cells,
            &mut x,
            &mut y,
            &mut roots,
            sound.widths(),
            tuple,
        )?;
        let found = Search {
            cells,
            environments: Environments::new(alloc),
            x,
            y,
            roots,
            next: first_step(sound.code(), predicate),
            spent: 0,
            budget: rest,
            before_x: Vec::new(alloc),
            before_y: Vec::new(alloc),
            goals: Goals::new(alloc),
            work: Work::new(alloc),
            pending: Pending::new(alloc),
            comparison: Comparison::new(alloc),
            alloc,
        };
        Ok(found)
    }

    /// Begins a search as `start` does, in the memory of one that is done with.
    pub fn begin_anew(
        &mut self,
        sound: &Sound,
        tuple: &Parcelled,
        predicate: u32,
        rest: u64,
    ) -> Result<(), NoMemory>
        requires { (q : PredicateOf) × (slice_get sound.now.predicates predicate ≡ Some q) × (q.arity ≡ count_trees tuple.now) }
        ensures { OnOk result (Started sound.now tuple.now predicate rest self.new) }
    {
        self.environments.clear();
        lay_out(
            &mut self.cells,
            &mut self.x,
            &mut self.y,
            &mut self.roots,
            sound.widths(),
            tuple,
        )?;
        self.next = first_step(sound.code(), predicate);
        self.spent = 0;
        self.budget = rest;
        Ok(())
    }
}
