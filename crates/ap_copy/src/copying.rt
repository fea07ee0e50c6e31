//! The copy of a term, cell by cell, without recursion: a node comes behind its arguments.

ghost use Rattle.std.specs.Prelude.{◌≡◌, ◌+◌, ◌-◌, ◌<◌, ◌≤◌, true, false, List, [], ◌∷◌, ◌++◌, length, map, take, drop, IfOk, OnOk};
ghost use Rattle.ap_term.specs.Tree.{node};
ghost use Rattle.ap_cells.specs.Trees.{tree_at, trees, span};
ghost use Rattle.ap_cells.specs.declared.cells.Raw.{Raw};
ghost use Rattle.ap_cells.specs.Walks.{Each};
ghost use Rattle.ap_copy.specs.Copies.{Known, KnownAll, tuple_at, AreCopies, IsBlock, IsNames};
ghost use Rattle.ap_copy.specs.Copying.{IsBegun, IsCopied};
ghost use Rattle.ap_copy.specs.Memory.{IsWith, Remembers};
ghost use Rattle.ap_cells.specs.declared.cells.Raw.TheVariants.{Node};

use crate::memory::{Entry, Memory};
use ap_cells::{Cells, MAX_CELLS, Raw, Top};
use ap_marks::Marks;
use ap_term::{Atom, NoMemory};
use std::alloc::Global;

/// A compound term of which some arguments are copied already; those to copy are at places one behind another.
#[derive(Clone, Copy)]
pub struct Frame {
    pub name: Atom,
    pub first: usize,
    pub count: u32,
    pub copied: u32,
}

/// What the beginning of a copy came to: the cell of the copy, a compound term whose arguments are to be copied, or a variable
/// that has no number.
#[derive(Clone, Copy)]
pub enum Begun {
    Copied(Raw),
    Term(Frame),
    Unknown,
}

/// The block so far; behind it, cells that aren't in their places yet; and the terms whose copies have begun.
#[derive(Drop)]
pub struct Copying {
    pub block: Vec<Raw>,
    pub loose: Vec<Raw>,
    pub frames: Vec<Frame>,
}

impl Copying {
    /// Takes no memory.
    pub fn new(alloc: Global) -> Copying {
        Copying {
            block: Vec::new(alloc),
            loose: Vec::new(alloc),
            frames: Vec::new(alloc),
        }
    }

    /// Begins with a new block of so many variables.
    pub fn start(&mut self, alloc: Global, variables: usize) -> Result<(), NoMemory>
        ensures block { OnOk result (IsNames self.new.block.items) }
        ensures len { OnOk result (length self.new.block.items ≡ variables) }
        ensures few { OnOk result (variables ≤ 4294967295) }
        ensures loose { OnOk result (self.new.loose.items ≡ []) }
        ensures frames { OnOk result (self.new.frames.items ≡ []) }
    {
        if variables > MAX_CELLS {
            return Err(NoMemory);
        }
        self.loose.clear();
        self.frames.clear();
        self.block = unbound(alloc, variables)?;
        Ok(())
    }
}

/// Variables, with room for the cells in which they stand: that is taken at once, and touched only as it is filled.
pub fn unbound(alloc: Global, count: usize) -> Result<Vec<Raw>, NoMemory>
    ensures names { IfOk result (λ block. IsNames block.items) }
    ensures len { IfOk result (λ block. length block.items ≡ count) }
{
    let mut block = Vec::with_capacity(alloc, count.saturating_mul(4))?;
    for _ in 0..count {
        block.push(Raw::Free)?;
    }
    Ok(block)
}

/// Copies the terms of some places; their cells are put with the loose ones. What they share is copied once, as far as the
/// memory goes, which begins empty. It gives up at a variable that has no number.
pub fn copy_terms(
    cells: &Cells,
    marks: &Marks,
    roots: &[usize],
    memory: &mut Memory,
    copying: &mut Copying,
) -> Result<bool, NoMemory>
    requires inside { Each (λ r. r < length cells.now.cells) roots.now }
    requires idle { copying.old.frames.items ≡ [] }
    requires empty { copying.old.loose.items ≡ [] }
    requires block { IsBlock marks.now copying.old.block.items }
    requires nothing { memory.old.entries.items ≡ [] }
    ensures copies { IfOk result (λ done. done ≡ true → AreCopies marks.now copying.new.block.items copying.new.loose.items (map (tree_at (trees cells.now.cells)) roots.now)) }
    ensures block { IfOk result (λ done. done ≡ true → IsBlock marks.now copying.new.block.items) }
    ensures unknown { IfOk result (λ done. done ≡ false → KnownAll marks.now (tuple_at (trees cells.now.cells) roots.now) → ⊥) }
{
    for root in roots {
        if !copy_term(cells, marks, *root, memory, copying)? {
            return Ok(false);
        }
    }
    Ok(true)
}

/// Copies a place's term; its cell is put with the loose ones. It gives up at a variable that has no number.
fn copy_term(
    cells: &Cells,
    marks: &Marks,
    place: usize,
    memory: &mut Memory,
    copying: &mut Copying,
) -> Result<bool, NoMemory>
    requires inside { place < length cells.now.cells }
    requires idle { copying.old.frames.items ≡ [] }
    requires block { IsBlock marks.now copying.old.block.items }
    requires memory { Remembers (trees cells.now.cells) marks.now copying.old.block.items memory.old.entries.items }
    ensures copied { IfOk result (λ done. done ≡ true → IsCopied marks.now copying.old.block.items copying.new.block.items copying.old.loose.items copying.new.loose.items (tree_at (trees cells.now.cells) place)) }
    ensures idle { IfOk result (λ done. done ≡ true → copying.new.frames.items ≡ []) }
    ensures block { IfOk result (λ done. done ≡ true → IsBlock marks.now copying.new.block.items) }
    ensures memory { IfOk result (λ done. done ≡ true → Remembers (trees cells.now.cells) marks.now copying.new.block.items memory.new.entries.items) }
    ensures unknown { IfOk result (λ done. done ≡ false → Known marks.now (tree_at (trees cells.now.cells) place) → ⊥) }
{
    match begin(cells, marks, place, memory) {
        Begun::Copied(cell) => {
            put(&mut copying.loose, cell)?;
            Ok(true)
        }
        Begun::Term(frame) => copy_begun(cells, marks, frame, memory, copying),
        Begun::Unknown => Ok(false),
    }
}

/// Begins the copy of a place's term, unless it is in memory.
#[inline(always)]
fn begin(cells: &Cells, marks: &Marks, place: usize, memory: &mut Memory) -> Begun
    requires inside { place < length cells.now.cells }
    requires few { length marks.now ≤ 4294967295 }
    ensures begun { (block : List Raw) → IsBlock marks.now block → Remembers (trees cells.now.cells) marks.now block memory.old.entries.items → IsBegun (trees cells.now.cells) marks.now block (tree_at (trees cells.now.cells) place) result }
    ensures memory { memory.new.entries.items ≡ memory.old.entries.items }
{
    match cells.top(place) {
        Top::Free(variable) => match marks.number_of(variable) {
            Some(number) => Begun::Copied(Raw::Same(number as u32)),
            None => Begun::Unknown,
        },
        Top::Int(z) => Begun::Copied(Raw::Int(z)),
        Top::Atom(a) => Begun::Copied(Raw::Atom(a)),
        Top::Node(name, first, count) => {
            if let Some(copies) = memory.find(name, first, count) {
                return Begun::Copied(Raw::Node(name, copies, count));
            }
            Begun::Term(Frame {
                name,
                first,
                count,
                copied: 0,
            })
        }
    }
}

/// Copies a term that is begun, argument by argument; behind the last one they get their places, and the term is an argument
/// that is copied.
fn copy_begun(
    cells: &Cells,
    marks: &Marks,
    begun: Frame,
    memory: &mut Memory,
    copying: &mut Copying,
) -> Result<bool, NoMemory>
    requires inside { begun.first + begun.count ≤ length cells.now.cells }
    requires none { begun.copied ≡ 0 }
    requires idle { copying.old.frames.items ≡ [] }
    requires block { IsBlock marks.now copying.old.block.items }
    requires memory { Remembers (trees cells.now.cells) marks.now copying.old.block.items memory.old.entries.items }
    ensures copied { IfOk result (λ done. done ≡ true → IsCopied marks.now copying.old.block.items copying.new.block.items copying.old.loose.items copying.new.loose.items (node begun.name (span (trees cells.now.cells) begun.first begun.count))) }
    ensures idle { IfOk result (λ done. done ≡ true → copying.new.frames.items ≡ []) }
    ensures block { IfOk result (λ done. done ≡ true → IsBlock marks.now copying.new.block.items) }
    ensures memory { IfOk result (λ done. done ≡ true → Remembers (trees cells.now.cells) marks.now copying.new.block.items memory.new.entries.items) }
    ensures unknown { IfOk result (λ done. done ≡ false → Known marks.now (node begun.name (span (trees cells.now.cells) begun.first begun.count)) → ⊥) }
{
    let places = cells.len();
    prove!(places <= MAX_CELLS);
    let mut frame = begun;
    loop {
        if frame.copied < frame.count {
            match begin(cells, marks, frame.first + frame.copied as usize, memory) {
                Begun::Copied(cell) => {
                    put(&mut copying.loose, cell)?;
                    frame.copied += 1;
                }
                Begun::Term(inner) => {
                    wait(&mut copying.frames, frame)?;
                    frame = inner;
                }
                Begun::Unknown => return Ok(false),
            }
        } else {
            let cell = end_term(frame, memory, copying)?;
            put(&mut copying.loose, cell)?;
            match copying.frames.pop() {
                Some(outer) => {
                    frame = outer;
                    frame.copied += 1;
                }
                None => return Ok(true),
            }
        }
    }
}

/// Puts a cell behind others.
#[inline(always)]
fn put(cells: &mut Vec<Raw>, cell: Raw) -> Result<(), NoMemory>
    ensures { OnOk result (cells.new.items ≡ cells.old.items ++ cell ∷ []) }
{
    cells.reserve(1)?;
    cells.push_reserved(cell);
    Ok(())
}

/// Puts a term aside until an argument is copied.
#[inline(always)]
fn wait(frames: &mut Vec<Frame>, frame: Frame) -> Result<(), NoMemory>
    ensures { OnOk result (frames.new.items ≡ frames.old.items ++ frame ∷ []) }
{
    frames.reserve(1)?;
    frames.push_reserved(frame);
    Ok(())
}

/// Gives the arguments of a term their places, when all are copied; the term's cell.
#[inline(always)]
fn end_term(frame: Frame, memory: &mut Memory, copying: &mut Copying) -> Result<Raw, NoMemory>
    requires enough { frame.count ≤ length copying.old.loose.items }
    requires few { length copying.old.block.items ≤ 4294967295 }
    ensures cell { IfOk result (λ cell. cell ≡ Node frame.name (length copying.old.block.items) frame.count) }
    ensures block { OnOk result (copying.new.block.items ≡ copying.old.block.items ++ drop (length copying.old.loose.items - frame.count) copying.old.loose.items) }
    ensures loose { OnOk result (copying.new.loose.items ≡ take (length copying.old.loose.items - frame.count) copying.old.loose.items) }
    ensures frames { OnOk result (copying.new.frames.items ≡ copying.old.frames.items) }
    ensures few { OnOk result (length copying.new.block.items ≤ 4294967295) }
    ensures memory { OnOk result (IsWith (record { name = frame.name; count = frame.count; from = frame.first; first = length copying.old.block.items }) memory.old.entries.items memory.new.entries.items) }
{
    let first = copying.block.len();
    settle(frame.count as usize, copying)?;
    memory.keep(Entry {
        name: frame.name,
        count: frame.count,
        from: frame.first,
        first: first as u32,
    })?;
    Ok(Raw::Node(frame.name, first as u32, frame.count))
}

/// Moves the last loose cells into the block.
pub fn settle(count: usize, copying: &mut Copying) -> Result<(), NoMemory>
    requires enough { count ≤ length copying.old.loose.items }
    requires few { length copying.old.block.items ≤ 4294967295 }
    ensures block { OnOk result (copying.new.block.items ≡ copying.old.block.items ++ drop (length copying.old.loose.items - count) copying.old.loose.items) }
    ensures loose { OnOk result (copying.new.loose.items ≡ take (length copying.old.loose.items - count) copying.old.loose.items) }
    ensures frames { copying.new.frames.items ≡ copying.old.frames.items }
    ensures few { OnOk result (length copying.new.block.items ≤ 4294967295) }
{
    let rest = copying.loose.len() - count;
    if count > MAX_CELLS - copying.block.len() {
        return Err(NoMemory);
    }
    copying.block.extend_from_slice(&copying.loose[rest..])?;
    copying.loose.truncate(rest);
    Ok(())
}
