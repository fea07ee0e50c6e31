//! The text of a place's term, written without recursion.

ghost use Rattle.std.specs.Prelude.{◌≡◌, ◌+◌, ◌*◌, ◌<◌, ◌≤◌, ◌++◌, ◌&&◌, ℕ, List, codes, false, length, nat_eq, bytes_eq, OnOk, IfSome, MatchBool};
ghost use Rattle.std.specs.Fmt.{signed_decimal};
ghost use Rattle.ap_term.specs.Tree.{Tree, size, size_all};
ghost use Rattle.ap_term.specs.Vars.{add_vars, add_all_vars};
ghost use Rattle.ap_term.specs.Blocks.{IsPrefix};
ghost use Rattle.ap_cells.specs.Trees.{tree_at, trees, span};
ghost use Rattle.ap_writer.specs.Quoted.{name_text};
ghost use Rattle.ap_writer.specs.Text.{name_at};
ghost use Rattle.ap_writer.specs.Work.{text_by, shown_by, is_cell, IsNil, IsBehindBar};
ghost use Rattle.ap_lines.specs.Work.{left, left_of, vars_of, vars_left, weight, weight_of, called, IsElement, IsInside, AreInside};

use ap_cells::{Cells, Top};
use ap_term::{Atom, Atoms, NoMemory, Term};
use ap_writer::{Numbers, name_of, write_term};
use std::alloc::Global;

/// What is still to be written: the term of a place, what follows the elements of a list, the arguments behind the first by their first
/// place and how many there are, the end of a list.
#[derive(Clone, Copy)]
enum Work {
    Own(usize),
    Tail(usize),
    Rest(usize, u32),
    CloseList,
}

/// Whether a compound term with this name and so many arguments is an element of a list with what follows it.
fn is_element(atoms: &Atoms, name: Atom, count: u32) -> bool
    ensures { result ≡ (nat_eq count 2 && bytes_eq (name_at atoms.now name) (codes ".")) }
{
    count == 2 && name_of(atoms, name) == b".".as_slice()
}

/// The places of an element of a list, and of what follows it.
fn element(cells: &Cells, atoms: &Atoms, place: usize) -> Option<(usize, usize)>
    requires { place < length cells.now.cells }
    ensures parts { IsElement atoms.now (trees cells.now.cells) (tree_at (trees cells.now.cells) place) result }
    ensures inside { IfSome result (λ parts. (parts.0 < length cells.now.cells) × (parts.1 < length cells.now.cells)) }
{
    let _places = cells.len();
    match cells.top(place) {
        Top::Node(name, first, count) => {
            if is_element(atoms, name, count) {
                Some((first, first + 1))
            } else {
                None
            }
        }
        Top::Free(_) | Top::Int(_) | Top::Atom(_) => None,
    }
}

fn is_nil(cells: &Cells, atoms: &Atoms, place: usize) -> bool
    requires inside { place < length cells.now.cells }
    requires plain { is_cell atoms.now (tree_at (trees cells.now.cells) place) ≡ false }
    ensures { MatchBool result (IsNil atoms.now (tree_at (trees cells.now.cells) place)) (IsBehindBar atoms.now (tree_at (trees cells.now.cells) place)) }
{
    match cells.top(place) {
        Top::Atom(a) => name_of(atoms, a) == b"[]".as_slice(),
        Top::Free(_) | Top::Int(_) | Top::Node(_, _, _) => false,
    }
}

/// Puts what comes next on the stack, and below it what comes after.
fn put_two(stack: &mut Vec<Work>, top: Work, below: Work) -> Result<(), NoMemory>
    ensures text { OnOk result ((names : List (List ℕ)) (found : List ℕ) (ts : List Tree) → left names found ts stack.new.items ≡ left_of names found ts top ++ (left_of names found ts below ++ left names found ts stack.old.items)) }
    ensures variables { OnOk result ((ts : List Tree) (found : List ℕ) → vars_left ts stack.new.items found ≡ vars_left ts stack.old.items (vars_of ts below (vars_of ts top found))) }
    ensures larger { OnOk result ((ts : List Tree) → weight ts stack.new.items ≡ weight_of ts top + (weight_of ts below + weight ts stack.old.items)) }
    ensures inside { OnOk result ((n : ℕ) → IsInside n top → IsInside n below → AreInside n stack.old.items → AreInside n stack.new.items) }
{
    stack.push(below)?;
    stack.push(top)?;
    Ok(())
}

/// Writes an atom's name.
fn write_name(
    alloc: Global,
    out: &mut Vec<u8>,
    numbers: &mut Numbers,
    atoms: &Atoms,
    name: Atom,
) -> Result<(), NoMemory>
    ensures text { OnOk result (out.new.items ≡ out.old.items ++ name_text (name_at atoms.now name)) }
    ensures numbers { OnOk result (numbers.new ≡ numbers.old) }
{
    write_term(alloc, out, numbers, atoms, &Term::Atom(name))?;
    Ok(())
}

/// Writes an integer.
fn write_integer(
    alloc: Global,
    out: &mut Vec<u8>,
    numbers: &mut Numbers,
    atoms: &Atoms,
    n: i64,
) -> Result<(), NoMemory>
    ensures text { OnOk result (out.new.items ≡ out.old.items ++ signed_decimal n) }
    ensures numbers { OnOk result (numbers.new ≡ numbers.old) }
{
    write_term(alloc, out, numbers, atoms, &Term::Int(n))?;
    Ok(())
}

/// Writes the name of a compound term and the parenthesis behind it; its arguments are left on the stack.
fn write_call(
    alloc: Global,
    out: &mut Vec<u8>,
    numbers: &mut Numbers,
    stack: &mut Vec<Work>,
    atoms: &Atoms,
    name: Atom,
    first: usize,
    count: u32,
) -> Result<(), NoMemory>
    requires { first + count ≤ 4294967295 }
    ensures text { OnOk result ((found : List ℕ) (ts : List Tree) → out.new.items ++ left atoms.now found ts stack.new.items ≡ out.old.items ++ (called atoms.now found ts name first count ++ left atoms.now found ts stack.old.items)) }
    ensures numbers { OnOk result (numbers.new ≡ numbers.old) }
    ensures variables { OnOk result ((ts : List Tree) (found : List ℕ) → vars_left ts stack.new.items found ≡ vars_left ts stack.old.items (add_all_vars (span ts first count) found)) }
    ensures shorter { OnOk result ((ts : List Tree) → weight ts stack.new.items < 2 * size_all (span ts first count) + 3 + weight ts stack.old.items) }
    ensures inside { OnOk result ((n : ℕ) → first + count ≤ n → AreInside n stack.old.items → AreInside n stack.new.items) }
{
    write_name(alloc, out, numbers, atoms, name)?;
    out.push(b'(')?;
    if count == 0 {
        out.push(b')')?;
    } else {
        put_two(stack, Work::Own(first), Work::Rest(first + 1, count - 1))?;
    }
    Ok(())
}

/// Writes a term that is no element of a list up to its first argument.
fn write_plain(
    alloc: Global,
    out: &mut Vec<u8>,
    numbers: &mut Numbers,
    stack: &mut Vec<Work>,
    cells: &Cells,
    atoms: &Atoms,
    place: usize,
) -> Result<(), NoMemory>
    requires inside { place < length cells.now.cells }
    requires plain { is_cell atoms.now (tree_at (trees cells.now.cells) place) ≡ false }
    ensures text { OnOk result ((found : List ℕ) → IsPrefix numbers.new found → out.new.items ++ left atoms.now found (trees cells.now.cells) stack.new.items ≡ out.old.items ++ (text_by atoms.now found (tree_at (trees cells.now.cells) place) ++ left atoms.now found (trees cells.now.cells) stack.old.items)) }
    ensures variables { OnOk result (vars_left (trees cells.now.cells) stack.new.items numbers.new ≡ vars_left (trees cells.now.cells) stack.old.items (add_vars (tree_at (trees cells.now.cells) place) numbers.old)) }
    ensures shorter { OnOk result (weight (trees cells.now.cells) stack.new.items < 2 * size (tree_at (trees cells.now.cells) place) + 1 + weight (trees cells.now.cells) stack.old.items) }
    ensures inside { OnOk result (AreInside (length cells.now.cells) stack.old.items → AreInside (length cells.now.cells) stack.new.items) }
{
    let _places = cells.len();
    match cells.top(place) {
        Top::Free(variable) => {
            write_term(alloc, out, numbers, atoms, &Term::Var(variable as u64))?;
        }
        Top::Int(n) => write_integer(alloc, out, numbers, atoms, n)?,
        Top::Atom(a) => write_term(alloc, out, numbers, atoms, &Term::Atom(a))?,
        Top::Node(name, first, count) => {
            write_call(alloc, out, numbers, stack, atoms, name, first, count)?;
        }
    }
    Ok(())
}

/// Writes what follows the elements of a list, where no element follows.
fn write_end(
    out: &mut Vec<u8>,
    stack: &mut Vec<Work>,
    cells: &Cells,
    atoms: &Atoms,
    place: usize,
) -> Result<(), NoMemory>
    requires inside { place < length cells.now.cells }
    requires plain { is_cell atoms.now (tree_at (trees cells.now.cells) place) ≡ false }
    ensures text { OnOk result ((found : List ℕ) → out.new.items ++ left atoms.now found (trees cells.now.cells) stack.new.items ≡ out.old.items ++ ((shown_by atoms.now found (tree_at (trees cells.now.cells) place)).tail ++ left atoms.now found (trees cells.now.cells) stack.old.items)) }
    ensures variables { OnOk result ((found : List ℕ) → vars_left (trees cells.now.cells) stack.new.items found ≡ vars_left (trees cells.now.cells) stack.old.items (add_vars (tree_at (trees cells.now.cells) place) found)) }
    ensures shorter { OnOk result (weight (trees cells.now.cells) stack.new.items < 2 * size (tree_at (trees cells.now.cells) place) + 3 + weight (trees cells.now.cells) stack.old.items) }
    ensures inside { OnOk result (AreInside (length cells.now.cells) stack.old.items → AreInside (length cells.now.cells) stack.new.items) }
{
    if is_nil(cells, atoms, place) {
        out.push(b']')?;
    } else {
        out.push(b'|')?;
        put_two(stack, Work::Own(place), Work::CloseList)?;
    }
    Ok(())
}

/// Writes the arguments behind the first up to the next one's own, or the parenthesis that ends them.
fn write_rest(
    out: &mut Vec<u8>,
    stack: &mut Vec<Work>,
    first: usize,
    count: u32,
) -> Result<(), NoMemory>
    requires { first + count ≤ 4294967295 }
    ensures text { OnOk result ((names : List (List ℕ)) (found : List ℕ) (ts : List Tree) → out.new.items ++ left names found ts stack.new.items ≡ out.old.items ++ (left_of names found ts (Work.Rest first count) ++ left names found ts stack.old.items)) }
    ensures variables { OnOk result ((ts : List Tree) (found : List ℕ) → vars_left ts stack.new.items found ≡ vars_left ts stack.old.items (add_all_vars (span ts first count) found)) }
    ensures shorter { OnOk result ((ts : List Tree) → weight ts stack.new.items < 2 * size_all (span ts first count) + 1 + weight ts stack.old.items) }
    ensures inside { OnOk result ((n : ℕ) → first + count ≤ n → AreInside n stack.old.items → AreInside n stack.new.items) }
{
    if count == 0 {
        out.push(b')')?;
    } else {
        out.push(b',')?;
        put_two(stack, Work::Own(first), Work::Rest(first + 1, count - 1))?;
    }
    Ok(())
}

/// Writes the first part of what a work item is, and leaves the rest of it on the stack.
fn write_one(
    alloc: Global,
    out: &mut Vec<u8>,
    numbers: &mut Numbers,
    stack: &mut Vec<Work>,
    cells: &Cells,
    atoms: &Atoms,
    work: Work,
) -> Result<(), NoMemory>
    requires { IsInside (length cells.now.cells) work }
    ensures text { OnOk result ((found : List ℕ) → IsPrefix numbers.new found → out.new.items ++ left atoms.now found (trees cells.now.cells) stack.new.items ≡ out.old.items ++ (left_of atoms.now found (trees cells.now.cells) work ++ left atoms.now found (trees cells.now.cells) stack.old.items)) }
    ensures variables { OnOk result (vars_left (trees cells.now.cells) stack.new.items numbers.new ≡ vars_left (trees cells.now.cells) stack.old.items (vars_of (trees cells.now.cells) work numbers.old)) }
    ensures shorter { OnOk result (weight (trees cells.now.cells) stack.new.items < weight_of (trees cells.now.cells) work + weight (trees cells.now.cells) stack.old.items) }
    ensures inside { OnOk result (AreInside (length cells.now.cells) stack.old.items → AreInside (length cells.now.cells) stack.new.items) }
{
    let _places = cells.len();
    match work {
        Work::CloseList => out.push(b']')?,
        Work::Rest(first, count) => write_rest(out, stack, first, count)?,
        Work::Own(place) => match element(cells, atoms, place) {
            Some((first, rest)) => {
                out.push(b'[')?;
                put_two(stack, Work::Own(first), Work::Tail(rest))?;
            }
            None => write_plain(alloc, out, numbers, stack, cells, atoms, place)?,
        },
        Work::Tail(place) => match element(cells, atoms, place) {
            Some((first, rest)) => {
                out.push(b',')?;
                put_two(stack, Work::Own(first), Work::Tail(rest))?;
            }
            None => write_end(out, stack, cells, atoms, place)?,
        },
    }
    Ok(())
}

/// Writes the term of a place behind what was written of a line. Its clauses speak of the numbers that variables have in the end:
/// `found` is whatever comes of those found so far.
pub fn write_place(
    alloc: Global,
    out: &mut Vec<u8>,
    numbers: &mut Numbers,
    cells: &Cells,
    atoms: &Atoms,
    place: usize,
) -> Result<(), NoMemory>
    requires { place < length cells.now.cells }
    ensures text { OnOk result ((found : List ℕ) → IsPrefix numbers.new found → out.new.items ≡ out.old.items ++ text_by atoms.now found (tree_at (trees cells.now.cells) place)) }
    ensures variables { OnOk result (numbers.new ≡ add_vars (tree_at (trees cells.now.cells) place) numbers.old) }
{
    let mut stack = Vec::new(alloc);
    stack.push(Work::Own(place))?;
    while let Some(work) = stack.pop() {
        write_one(alloc, out, numbers, &mut stack, cells, atoms, work)?;
    }
    Ok(())
}
