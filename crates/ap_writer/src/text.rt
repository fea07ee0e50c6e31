//! The text of a term.

ghost use Rattle.std.specs.Prelude.{◌≡◌, ◌+◌, ◌*◌, ◌<◌, ◌++◌, ℕ, List, codes, false, OnOk, IfOk, MatchBool};
ghost use Rattle.std.specs.Fmt.{decimal, signed_decimal};
ghost use Rattle.ap_term.specs.TermView.{tree_of};
ghost use Rattle.ap_term.specs.Tree.{size, var};
ghost use Rattle.ap_term.specs.Vars.{vars, add_vars};
ghost use Rattle.ap_term.specs.UpToNames.{place};
ghost use Rattle.ap_term.specs.Blocks.{IsPrefix};
ghost use Rattle.ap_writer.specs.Quoted.{name_text};
ghost use Rattle.ap_writer.specs.Text.{name_at, term_text};
ghost use Rattle.ap_writer.specs.Work.{text_by, shown_by, left, left_of, vars_of, vars_left, weight, weight_of, is_cell, IsCellOf, IsNil, IsBehindBar};

use crate::numbers::Numbers;
use crate::quoted::push_name;
use ap_term::{Atom, Atoms, NoMemory, Term};
use std::alloc::Global;

/// What is still to be written: a term, what follows the elements of a list, the arguments behind the first, the end
/// of a list.
#[derive(Clone, Copy)]
enum Work<'a> {
    Own(&'a Term),
    Tail(&'a Term),
    Rest(&'a [Term]),
    CloseList,
}

/// An atom's name; the empty one where the table doesn't hold the atom.
pub fn name_of(atoms: &Atoms, atom: Atom) -> &[u8]
    ensures { result.now ≡ name_at atoms.now atom }
{
    match atoms.get(atom) {
        Some(name) => name.as_bytes(),
        None => b"",
    }
}

fn push_variable(out: &mut Vec<u8>, numbers: &mut Numbers, x: u64) -> Result<(), NoMemory>
    ensures variables { OnOk result (numbers.new ≡ add_vars (var x) numbers.old) }
    ensures text { OnOk result ((found : List ℕ) → IsPrefix numbers.new found → out.new.items ≡ out.old.items ++ (codes "_" ++ decimal (place found x))) }
{
    let n = numbers.number(x)?;
    let mut buffer = itoa::Buffer::new();
    out.push(b'_')?;
    out.extend_from_slice(buffer.format(n).as_bytes())?;
    Ok(())
}

fn push_integer(out: &mut Vec<u8>, n: i64) -> Result<(), NoMemory>
    ensures { OnOk result (out.new.items ≡ out.old.items ++ signed_decimal n) }
{
    let mut buffer = itoa::Buffer::new();
    out.extend_from_slice(buffer.format(n).as_bytes())?;
    Ok(())
}

/// An element of a list, and what follows it.
fn cell<'a>(atoms: &Atoms, t: &'a Term) -> Option<(&'a Term, &'a Term)>
    ensures { IsCellOf atoms.now (tree_of t.now) result }
{
    match t {
        Term::Node(name, args) if name_of(atoms, *name) == b".".as_slice() => {
            match args.as_slice() {
                [first, rest] => Some((first, rest)),
                [] => None,
                [_] => None,
                [_, _, _, ..] => None,
            }
        }
        _ => None,
    }
}

fn is_nil(atoms: &Atoms, t: &Term) -> bool
    requires { is_cell atoms.now (tree_of t.now) ≡ false }
    ensures { MatchBool result (IsNil atoms.now (tree_of t.now)) (IsBehindBar atoms.now (tree_of t.now)) }
{
    match t {
        Term::Atom(a) => name_of(atoms, *a) == b"[]".as_slice(),
        _ => false,
    }
}

/// Puts what comes next on the stack, and below it what comes after.
fn put_two<'a>(stack: &mut Vec<Work<'a>>, top: Work<'a>, below: Work<'a>) -> Result<(), NoMemory>
    ensures text { OnOk result ((names : List (List ℕ)) (found : List ℕ) → left names found stack.new.items ≡ left_of names found top.entry ++ (left_of names found below.entry ++ left names found stack.old.items)) }
    ensures variables { OnOk result ((found : List ℕ) → vars_left stack.new.items found ≡ vars_left stack.old.items (vars_of below.entry (vars_of top.entry found))) }
    ensures larger { OnOk result (weight stack.new.items ≡ weight_of top.entry + (weight_of below.entry + weight stack.old.items)) }
{
    stack.push(below)?;
    stack.push(top)?;
    Ok(())
}

/// Writes a term that is no element of a list up to its first argument.
fn write_plain<'a>(
    out: &mut Vec<u8>,
    numbers: &mut Numbers,
    stack: &mut Vec<Work<'a>>,
    atoms: &Atoms,
    t: &'a Term,
) -> Result<(), NoMemory>
    requires { is_cell atoms.now (tree_of t.now) ≡ false }
    ensures text { OnOk result ((found : List ℕ) → IsPrefix numbers.new found → out.new.items ++ left atoms.now found stack.new.items ≡ out.old.items ++ (text_by atoms.now found (tree_of t.now) ++ left atoms.now found stack.old.items)) }
    ensures variables { OnOk result (vars_left stack.new.items numbers.new ≡ vars_left stack.old.items (add_vars (tree_of t.now) numbers.old)) }
    ensures shorter { OnOk result (weight stack.new.items < 2 * size (tree_of t.now) + 1 + weight stack.old.items) }
{
    match t {
        Term::Var(x) => push_variable(out, numbers, *x)?,
        Term::Int(n) => push_integer(out, *n)?,
        Term::Atom(a) => push_name(out, name_of(atoms, *a))?,
        Term::Node(name, args) => {
            push_name(out, name_of(atoms, *name))?;
            out.push(b'(')?;
            match args.as_slice() {
                [] => out.push(b')')?,
                [first, rest @ ..] => put_two(stack, Work::Own(first), Work::Rest(rest))?,
            }
        }
    }
    Ok(())
}

/// Writes what follows the elements of a list, where no element follows.
fn write_end<'a>(
    out: &mut Vec<u8>,
    stack: &mut Vec<Work<'a>>,
    atoms: &Atoms,
    t: &'a Term,
) -> Result<(), NoMemory>
    requires { is_cell atoms.now (tree_of t.now) ≡ false }
    ensures text { OnOk result ((found : List ℕ) → out.new.items ++ left atoms.now found stack.new.items ≡ out.old.items ++ ((shown_by atoms.now found (tree_of t.now)).tail ++ left atoms.now found stack.old.items)) }
    ensures variables { OnOk result ((found : List ℕ) → vars_left stack.new.items found ≡ vars_left stack.old.items (add_vars (tree_of t.now) found)) }
    ensures shorter { OnOk result (weight stack.new.items < 2 * size (tree_of t.now) + 3 + weight stack.old.items) }
{
    if is_nil(atoms, t) {
        out.push(b']')?;
    } else {
        out.push(b'|')?;
        put_two(stack, Work::Own(t), Work::CloseList)?;
    }
    Ok(())
}

/// Writes the first part of what a work item is, and leaves the rest of it on the stack.
fn write_one<'a>(
    out: &mut Vec<u8>,
    numbers: &mut Numbers,
    stack: &mut Vec<Work<'a>>,
    atoms: &Atoms,
    work: Work<'a>,
) -> Result<(), NoMemory>
    ensures text { OnOk result ((found : List ℕ) → IsPrefix numbers.new found → out.new.items ++ left atoms.now found stack.new.items ≡ out.old.items ++ (left_of atoms.now found work.entry ++ left atoms.now found stack.old.items)) }
    ensures variables { OnOk result (vars_left stack.new.items numbers.new ≡ vars_left stack.old.items (vars_of work.entry numbers.old)) }
    ensures shorter { OnOk result (weight stack.new.items < weight_of work.entry + weight stack.old.items) }
{
    match work {
        Work::CloseList => out.push(b']')?,
        Work::Rest([]) => out.push(b')')?,
        Work::Rest([first, rest @ ..]) => {
            out.push(b',')?;
            put_two(stack, Work::Own(first), Work::Rest(rest))?;
        }
        Work::Own(t) => match cell(atoms, t) {
            Some((first, rest)) => {
                out.push(b'[')?;
                put_two(stack, Work::Own(first), Work::Tail(rest))?;
            }
            None => write_plain(out, numbers, stack, atoms, t)?,
        },
        Work::Tail(t) => match cell(atoms, t) {
            Some((first, rest)) => {
                out.push(b',')?;
                put_two(stack, Work::Own(first), Work::Tail(rest))?;
            }
            None => write_end(out, stack, atoms, t)?,
        },
    }
    Ok(())
}

/// Writes a term behind what was written of a line. Its clauses speak of the numbers that variables have in the end:
/// `found` is whatever comes of those found so far.
pub fn write_term(
    alloc: Global,
    out: &mut Vec<u8>,
    numbers: &mut Numbers,
    atoms: &Atoms,
    t: &Term,
) -> Result<(), NoMemory>
    ensures text { OnOk result ((found : List ℕ) → IsPrefix numbers.new found → out.new.items ≡ out.old.items ++ text_by atoms.now found (tree_of t.now)) }
    ensures variables { OnOk result (numbers.new ≡ add_vars (tree_of t.now) numbers.old) }
{
    let mut stack = Vec::new(alloc);
    stack.push(Work::Own(t))?;
    while let Some(work) = stack.pop() {
        write_one(out, numbers, &mut stack, atoms, work)?;
    }
    Ok(())
}

/// A term in functional notation and with lists, without operators (as `write_canonical/1` of ISO 13211-1, section
/// 8.14.2, but that lists are written as such). Variables are `_1`, `_2`, .. by first occurrence; an atom that the table
/// doesn't hold is written with the empty name.
pub fn term_text(alloc: Global, t: &Term, atoms: &Atoms) -> Result<Vec<u8>, NoMemory>
    ensures { IfOk result (λ text. text.items ≡ term_text atoms.now (tree_of t.now)) }
{
    let mut out = Vec::new(alloc);
    let mut numbers = Numbers::new(alloc);
    write_term(alloc, &mut out, &mut numbers, atoms, t)?;
    Ok(out)
}
