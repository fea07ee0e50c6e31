//! An instruction's line: its word and its operands.

ghost use Rattle.std.specs.Prelude.{◌≡◌, [], ◌∷◌, ◌==◌, ◌&&◌, codes};
ghost use Rattle.std.specs.Str.{bytes_eq};
ghost use Rattle.ap_writer.specs.Text.{name_at};
ghost use Rattle.ap_listing.specs.Shown.{structure, shown_instruction, shown};
ghost use Rattle.ap_listing.specs.Held.{operand_of, shown_of};

use ap_instr::{Instr, Slot};
use ap_term::{Atom, Atoms};

/// An operand as it is listed.
#[derive(Clone, Copy)]
pub(crate) enum Operand {
    Register(Slot),
    Argument(u32),
    Constant(Atom),
    Integer(u32),
    Functor(Atom, u8),
    Number(u8),
    Predicate(u32),
    Place(u32),
}

/// An instruction as it is listed: its word and its operands.
#[derive(Clone, Copy)]
pub(crate) struct Line {
    pub(crate) word: &'static str,
    pub(crate) first: Option<Operand>,
    pub(crate) second: Option<Operand>,
    pub(crate) third: Option<Operand>,
}

fn alone(word: &'static str) -> Line
    ensures { shown_of result ≡ shown word.now [] }
{
    Line {
        word,
        first: None,
        second: None,
        third: None,
    }
}

fn with_one(word: &'static str, first: Operand) -> Line
    ensures { shown_of result ≡ shown word.now (operand_of first ∷ []) }
{
    Line {
        word,
        first: Some(first),
        second: None,
        third: None,
    }
}

fn with_two(word: &'static str, first: Operand, second: Operand) -> Line
    ensures { shown_of result ≡ shown word.now (operand_of first ∷ operand_of second ∷ []) }
{
    Line {
        word,
        first: Some(first),
        second: Some(second),
        third: None,
    }
}

fn with_three(word: &'static str, first: Operand, second: Operand, third: Operand) -> Line
    ensures { shown_of result ≡ shown word.now (operand_of first ∷ operand_of second ∷ operand_of third ∷ []) }
{
    Line {
        word,
        first: Some(first),
        second: Some(second),
        third: Some(third),
    }
}

/// Whether a functor is a list's cell.
pub(crate) fn is_list_cell(atoms: &Atoms, name: Atom, arity: u8) -> bool
    ensures { result ≡ (bytes_eq (name_at atoms.now name) (codes ".") && (arity == 2)) }
{
    match atoms.get(name) {
        Some(text) => text.as_bytes() == b".".as_slice() && arity == 2,
        None => false,
    }
}

fn structure(
    atoms: &Atoms,
    list: &'static str,
    other: &'static str,
    name: Atom,
    arity: u8,
    at: u32,
) -> Line
    ensures { shown_of result ≡ structure atoms.now list.now other.now name arity at }
{
    if is_list_cell(atoms, name, arity) {
        with_one(list, Operand::Argument(at))
    } else {
        with_two(other, Operand::Functor(name, arity), Operand::Argument(at))
    }
}

/// An instruction's line.
pub(crate) fn line_of(atoms: &Atoms, instr: Instr) -> Line
    ensures { shown_of result ≡ shown_instruction atoms.now instr }
{
    use Operand::{Argument, Constant, Integer, Number, Place, Predicate, Register};
    match instr {
        Instr::GetVariable(v, a) => with_two("get_variable", Register(v), Argument(a)),
        Instr::GetValue(v, a) => with_two("get_value", Register(v), Argument(a)),
        Instr::GetConstant(c, a) => with_two("get_constant", Constant(c), Argument(a)),
        Instr::GetInteger(i, a) => with_two("get_integer", Integer(i), Argument(a)),
        Instr::GetStructure(f, n, a) => structure(atoms, "get_list", "get_structure", f, n, a),
        Instr::PutVariable(v, a) => with_two("put_variable", Register(v), Argument(a)),
        Instr::PutValue(v, a) => with_two("put_value", Register(v), Argument(a)),
        Instr::PutConstant(c, a) => with_two("put_constant", Constant(c), Argument(a)),
        Instr::PutInteger(i, a) => with_two("put_integer", Integer(i), Argument(a)),
        Instr::PutStructure(f, n, a) => structure(atoms, "put_list", "put_structure", f, n, a),
        Instr::UnifyVariable(v) => with_one("unify_variable", Register(v)),
        Instr::UnifyValue(v) => with_one("unify_value", Register(v)),
        Instr::UnifyConstant(c) => with_one("unify_constant", Constant(c)),
        Instr::UnifyInteger(i) => with_one("unify_integer", Integer(i)),
        Instr::Allocate(n) => with_one("allocate", Number(n)),
        Instr::Deallocate => alone("deallocate"),
        Instr::Call(p) => with_one("call", Predicate(p)),
        Instr::Execute(p) => with_one("execute", Predicate(p)),
        Instr::Proceed => alone("proceed"),
        Instr::Builtin(b) => with_one("builtin", Constant(b.name())),
        Instr::Jump(l) => with_one("jump", Place(l)),
        Instr::Fail => alone("fail"),
        Instr::Try(l) => with_one("try", Place(l)),
        Instr::Retry(l) => with_one("retry", Place(l)),
        Instr::Trust(l) => with_one("trust", Place(l)),
        Instr::CheckGround(v, l) => with_two("check_ground", Register(v), Place(l)),
        Instr::CheckIndep(v, w, l) => {
            with_three("check_indep", Register(v), Register(w), Place(l))
        }
        Instr::AllocParcall(n, _) => with_one("alloc_parcall", Number(n)),
        Instr::PushGoal(i, p) => with_two("push_goal", Number(i), Predicate(p)),
        Instr::WaitAll => alone("wait_all"),
    }
}
