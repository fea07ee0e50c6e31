// Each instruction's line from the outside: the words and operands of the table of instructions.
use ap_instr::{Builtin, Code, Instr, Predicate, Slot};
use ap_listing::listing;
use ap_term::{Atom, Atoms, Op, Relation, fixed};
use std::alloc::Global;
use std::test::Fail;

const LISTED: &str = "q/2:
  switch_on_term @2 @1 @4 @4
  switch_on_constant a @36 @4
  try @4
  trust @6
  get_variable Y1 A1
  get_value X3 A2
  get_constant a A1
  get_integer -7 A2
  get_list A1
  get_structure f/3 A2
  get_structure '.'/3 A2
  unify_variable X4
  unify_value Y255
  unify_constant 'A b'
  unify_integer 0
  allocate 12
  put_variable X5 A1
  put_value Y2 A2
  put_constant [] A1
  put_integer 9223372036854775807 A2
  put_list A1
  put_structure +/2 A2
  builtin is
  builtin =<
  check_ground Y1 @4
  check_indep X3 Y2 @6
  alloc_parcall 2
  push_goal 1 q/2
  push_goal 2 p/1
  wait_all
  call q/2
  jump @2
  retry @3
  fail
  deallocate
  execute p/1
  try @4
  trust @6
p/1:
  get_integer 1 A1
  proceed
";

#[derive(Clone, Copy)]
struct Names {
    a: Atom,
    f: Atom,
    cell: Atom,
    quoted: Atom,
    nil: Atom,
    p: Atom,
    q: Atom,
}

fn make_names(alloc: Global, atoms: &mut Atoms) -> Result<Names, Fail> {
    Ok(Names {
        a: atoms.intern(alloc, "a")?,
        f: atoms.intern(alloc, "f")?,
        cell: atoms.intern(alloc, ".")?,
        quoted: atoms.intern(alloc, "A b")?,
        nil: atoms.intern(alloc, "[]")?,
        p: atoms.intern(alloc, "p")?,
        q: atoms.intern(alloc, "q")?,
    })
}

fn instructions(alloc: Global, names: &Names) -> Result<Vec<Instr>, Fail> {
    Ok(vec![in alloc;
        Instr::Proceed,
        Instr::Try(3),
        Instr::Trust(5),
        Instr::GetVariable(Slot::Y(1), 1),
        Instr::GetValue(Slot::X(3), 2),
        Instr::GetConstant(names.a, 1),
        Instr::GetInteger(1, 2),
        Instr::GetStructure(names.cell, 2, 1),
        Instr::GetStructure(names.f, 3, 2),
        Instr::GetStructure(names.cell, 3, 2),
        Instr::UnifyVariable(Slot::X(4)),
        Instr::UnifyValue(Slot::Y(255)),
        Instr::UnifyConstant(names.quoted),
        Instr::UnifyInteger(2),
        Instr::Allocate(12),
        Instr::PutVariable(Slot::X(5), 1),
        Instr::PutValue(Slot::Y(2), 2),
        Instr::PutConstant(names.nil, 1),
        Instr::PutInteger(3, 2),
        Instr::PutStructure(names.cell, 2, 1),
        Instr::PutStructure(Atom::at(fixed::PLUS), 2, 2),
        Instr::Builtin(Builtin::Relation(Relation::Is)),
        Instr::Builtin(Builtin::Relation(Relation::Compare(Op::Le))),
        Instr::CheckGround(Slot::Y(1), 3),
        Instr::CheckIndep(Slot::X(3), Slot::Y(2), 5),
        Instr::AllocParcall(2, 12),
        Instr::PushGoal(1, 0),
        Instr::PushGoal(2, 1),
        Instr::WaitAll,
        Instr::Call(0),
        Instr::Jump(1),
        Instr::Retry(2),
        Instr::Fail,
        Instr::Deallocate,
        Instr::Execute(1),
        Instr::GetInteger(0, 1),
        Instr::Proceed,
    ]?)
}

// Each word of the table of instructions with its operands, and a switch; a predicate that isn't listed, places from a predicate's
// first line, a list's cell and a functor `.` that is none, names that want quotes, integers at the ends of 64 bits.
#[test]
fn lists_each_instruction(rt: HostRuntime) -> Result<(), Fail> {
    let alloc = rt.alloc();
    let mut atoms = Atoms::new(alloc)?;
    let names = make_names(alloc, &mut atoms)?;
    let query = Predicate {
        name: Atom::at(fixed::QUERY),
        arity: 0,
        start: 0,
        end: 1,
        is_listed: false,
    };
    let q = Predicate {
        name: names.q,
        arity: 2,
        start: 1,
        end: 35,
        is_listed: true,
    };
    let p = Predicate {
        name: names.p,
        arity: 1,
        start: 35,
        end: 37,
        is_listed: true,
    };
    let code = Code::new(
        instructions(alloc, &names)?,
        vec![in alloc; 1, -7, 0, 9223372036854775807]?,
        vec![in alloc; q, p, query]?,
        Some(2),
    );
    let text = String::from_utf8(listing(alloc, &code, &atoms)?)?;
    assert_eq!(rt; text.as_str(), LISTED);
    Ok(())
}
