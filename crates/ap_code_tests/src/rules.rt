// Broken codes, some for each rule, each with the place and the rule that is named; and sound ones.
use ap_codecheck::{CodeErr, Rule, check};
use ap_instr::{Builtin, Code, Instr, Predicate, Slot};
use ap_term::{Atom, Relation, fixed};
use std::alloc::Global;
use std::test::Fail;

fn code_of(alloc: Global, instructions: &[Instr], query: Option<u32>) -> Result<Code, Fail> {
    let p = Predicate {
        name: Atom::at(fixed::PLUS),
        arity: 2,
        start: 0,
        end: u32::try_from(instructions.len())?,
        is_listed: true,
    };
    Ok(Code::new(
        Vec::from_slice(alloc, instructions)?,
        vec![in alloc; 7]?,
        vec![in alloc; p]?,
        query,
    ))
}

/// What the check says of a predicate of two arguments with these instructions.
fn judged(alloc: Global, instructions: &[Instr]) -> Result<Option<(usize, Rule)>, Fail> {
    match check(alloc, code_of(alloc, instructions, None)?) {
        Ok(_) => Ok(None),
        Err(CodeErr::Bad { at, rule }) => Ok(Some((at, rule))),
        Err(CodeErr::NoMemory) => Err(Fail::new("memory ran out")),
    }
}

const X1: Slot = Slot::X(1);

const X3: Slot = Slot::X(3);

const X4: Slot = Slot::X(4);

const Y1: Slot = Slot::Y(1);

const Y2: Slot = Slot::Y(2);

#[test]
fn takes_sound_code(rt: HostRuntime) -> Result<(), Fail> {
    let alloc = rt.alloc();
    let c = Atom::at(fixed::TRUE);
    let facts = [
        Instr::Try(3),
        Instr::Retry(6),
        Instr::Trust(11),
        Instr::GetVariable(X3, 1),
        Instr::GetValue(X3, 2),
        Instr::Proceed,
        Instr::GetStructure(c, 2, 1),
        Instr::UnifyVariable(X3),
        Instr::UnifyValue(X3),
        Instr::GetInteger(0, 2),
        Instr::Proceed,
        Instr::Fail,
    ];
    assert_eq!(rt; judged(alloc, &facts)?, None);
    let rule = [
        Instr::Allocate(2),
        Instr::GetVariable(Y1, 1),
        Instr::PutVariable(Y2, 1),
        Instr::Call(0),
        Instr::PutValue(Y1, 1),
        Instr::PutStructure(c, 1, 2),
        Instr::UnifyValue(Y2),
        Instr::Builtin(Builtin::Relation(Relation::Unify)),
        Instr::Jump(10),
        Instr::Fail,
        Instr::Deallocate,
        Instr::Execute(0),
    ];
    assert_eq!(rt; judged(alloc, &rule)?, None);
    assert_eq!(rt; judged(alloc, &[Instr::Fail])?, None);
    Ok(())
}

#[test]
fn refuses_operands_and_targets(rt: HostRuntime) -> Result<(), Fail> {
    let alloc = rt.alloc();
    let c = Atom::at(fixed::TRUE);
    let register = [Instr::PutVariable(Slot::X(0), 1), Instr::Proceed];
    assert_eq!(rt; judged(alloc, &register)?, Some((0, Rule::Operand)));
    let integer = [Instr::GetInteger(1, 1), Instr::Proceed];
    assert_eq!(rt; judged(alloc, &integer)?, Some((0, Rule::Operand)));
    let structure = [Instr::GetStructure(c, 1, 0), Instr::Proceed];
    assert_eq!(rt; judged(alloc, &structure)?, Some((0, Rule::Operand)));
    let jump = [Instr::Jump(2), Instr::Proceed];
    assert_eq!(rt; judged(alloc, &jump)?, Some((0, Rule::Target)));
    let choice = [Instr::Try(2), Instr::Trust(3), Instr::Proceed];
    assert_eq!(rt; judged(alloc, &choice)?, Some((1, Rule::Target)));
    let call = [
        Instr::Allocate(0),
        Instr::Call(1),
        Instr::Deallocate,
        Instr::Proceed,
    ];
    assert_eq!(rt; judged(alloc, &call)?, Some((1, Rule::Called)));
    Ok(())
}

#[test]
fn refuses_reads_of_unset_registers(rt: HostRuntime) -> Result<(), Fail> {
    let alloc = rt.alloc();
    let c = Atom::at(fixed::TRUE);
    let third = [Instr::GetConstant(c, 3), Instr::Proceed];
    assert_eq!(rt; judged(alloc, &third)?, Some((0, Rule::Unset)));
    let called = [
        Instr::Allocate(0),
        Instr::Call(0),
        Instr::Deallocate,
        Instr::Execute(0),
    ];
    assert_eq!(rt; judged(alloc, &called)?, Some((3, Rule::Unset)));
    let variable = [Instr::Allocate(1), Instr::PutValue(Y1, 3), Instr::Fail];
    assert_eq!(rt; judged(alloc, &variable)?, Some((1, Rule::Unset)));
    let itself = [
        Instr::PutStructure(c, 1, 1),
        Instr::UnifyValue(X1),
        Instr::Proceed,
    ];
    assert_eq!(rt; judged(alloc, &itself)?, Some((1, Rule::Unset)));
    let second = [
        Instr::Try(2),
        Instr::Trust(4),
        Instr::PutConstant(c, 3),
        Instr::Proceed,
        Instr::GetValue(X3, 1),
        Instr::Proceed,
    ];
    assert_eq!(rt; judged(alloc, &second)?, Some((4, Rule::Unset)));
    Ok(())
}

#[test]
fn refuses_environments_that_do_not_match(rt: HostRuntime) -> Result<(), Fail> {
    let alloc = rt.alloc();
    let none = [Instr::Deallocate, Instr::Proceed];
    assert_eq!(rt; judged(alloc, &none)?, Some((0, Rule::Environment)));
    let twice = [Instr::Allocate(1), Instr::Allocate(1), Instr::Fail];
    assert_eq!(rt; judged(alloc, &twice)?, Some((1, Rule::Environment)));
    let outside = [Instr::Allocate(1), Instr::GetVariable(Y2, 1), Instr::Fail];
    assert_eq!(rt; judged(alloc, &outside)?, Some((1, Rule::Environment)));
    let behind = [
        Instr::Allocate(1),
        Instr::GetVariable(Y1, 1),
        Instr::Deallocate,
        Instr::PutValue(Y1, 1),
        Instr::Proceed,
    ];
    assert_eq!(rt; judged(alloc, &behind)?, Some((3, Rule::Environment)));
    let kept = [Instr::Allocate(1), Instr::Proceed];
    assert_eq!(rt; judged(alloc, &kept)?, Some((1, Rule::Environment)));
    assert_eq!(rt;
        judged(alloc, &[Instr::Call(0), Instr::Proceed])?,
        Some((0, Rule::Environment))
    );
    Ok(())
}

#[test]
fn refuses_arguments_out_of_turn(rt: HostRuntime) -> Result<(), Fail> {
    let alloc = rt.alloc();
    let c = Atom::at(fixed::TRUE);
    let first = [Instr::UnifyVariable(X3), Instr::Proceed];
    assert_eq!(rt; judged(alloc, &first)?, Some((0, Rule::Argument)));
    let few = [
        Instr::GetStructure(c, 2, 1),
        Instr::UnifyVariable(X3),
        Instr::Proceed,
    ];
    assert_eq!(rt; judged(alloc, &few)?, Some((2, Rule::Argument)));
    let many = [
        Instr::PutStructure(c, 1, 3),
        Instr::UnifyVariable(X4),
        Instr::UnifyValue(X4),
        Instr::Proceed,
    ];
    assert_eq!(rt; judged(alloc, &many)?, Some((2, Rule::Argument)));
    Ok(())
}

#[test]
fn refuses_paths_without_an_end(rt: HostRuntime) -> Result<(), Fail> {
    let alloc = rt.alloc();
    let c = Atom::at(fixed::TRUE);
    assert_eq!(rt; judged(alloc, &[])?, Some((0, Rule::End)));
    assert_eq!(rt;
        judged(alloc, &[Instr::PutConstant(c, 3)])?,
        Some((1, Rule::End))
    );
    let back = [Instr::PutConstant(c, 3), Instr::Jump(0)];
    assert_eq!(rt; judged(alloc, &back)?, Some((1, Rule::End)));
    let stray = [Instr::PutConstant(c, 3), Instr::Trust(2), Instr::Proceed];
    assert_eq!(rt; judged(alloc, &stray)?, Some((1, Rule::End)));
    assert_eq!(rt;
        judged(alloc, &[Instr::Try(1), Instr::Proceed])?,
        Some((1, Rule::End))
    );
    let last = [Instr::Try(2), Instr::Retry(2), Instr::Proceed];
    assert_eq!(rt; judged(alloc, &last)?, Some((2, Rule::End)));
    Ok(())
}

/// A group of the first two arguments' goals, or these goals one after another where the arguments share a variable.
fn group_of_two() -> [Instr; 20] {
    [
        Instr::Allocate(2),
        Instr::GetVariable(Y1, 1),
        Instr::PutVariable(Y2, 3),
        Instr::CheckGround(Y1, 12),
        Instr::CheckIndep(Y1, Y2, 12),
        Instr::AllocParcall(2, 12),
        Instr::PutValue(Y1, 1),
        Instr::PutStructure(Atom::at(fixed::TRUE), 1, 2),
        Instr::UnifyValue(Y2),
        Instr::PushGoal(1, 0),
        Instr::PushGoal(2, 0),
        Instr::WaitAll,
        Instr::PutValue(Y1, 1),
        Instr::PutValue(Y1, 2),
        Instr::Call(0),
        Instr::PutValue(Y1, 1),
        Instr::PutValue(Y2, 2),
        Instr::Call(0),
        Instr::Deallocate,
        Instr::Proceed,
    ]
}

#[test]
fn takes_groups(rt: HostRuntime) -> Result<(), Fail> {
    let alloc = rt.alloc();
    assert_eq!(rt; judged(alloc, &group_of_two())?, None);
    let alone = [
        Instr::Allocate(1),
        Instr::GetVariable(Y1, 1),
        Instr::AllocParcall(1, 12),
        Instr::PushGoal(1, 0),
        Instr::WaitAll,
        Instr::Jump(6),
        Instr::Deallocate,
        Instr::Proceed,
    ];
    assert_eq!(rt; judged(alloc, &alone)?, None);
    Ok(())
}

/// What the check says of the group with another instruction at a place.
fn judged_with(alloc: Global, at: usize, instr: Instr) -> Result<Option<(usize, Rule)>, Fail> {
    let mut code = group_of_two();
    if at < code.len() {
        code[at] = instr;
    }
    judged(alloc, &code)
}

#[test]
fn refuses_groups_that_are_not_whole(rt: HostRuntime) -> Result<(), Fail> {
    let alloc = rt.alloc();
    let c = Atom::at(fixed::TRUE);
    let twice = judged_with(alloc, 10, Instr::PushGoal(1, 0))?;
    assert_eq!(rt; twice, Some((10, Rule::Group)));
    let second_first = judged_with(alloc, 9, Instr::PushGoal(2, 0))?;
    assert_eq!(rt; second_first, Some((9, Rule::Group)));
    let few = judged_with(alloc, 5, Instr::AllocParcall(3, 12))?;
    assert_eq!(rt; few, Some((11, Rule::Group)));
    let many = judged_with(alloc, 5, Instr::AllocParcall(1, 12))?;
    assert_eq!(rt; many, Some((10, Rule::Group)));
    let called = judged_with(alloc, 6, Instr::Call(0))?;
    assert_eq!(rt; called, Some((6, Rule::Group)));
    let ended = judged_with(alloc, 10, Instr::Fail)?;
    assert_eq!(rt; ended, Some((10, Rule::Group)));
    let got = judged_with(alloc, 6, Instr::GetConstant(c, 3))?;
    assert_eq!(rt; got, Some((6, Rule::Group)));
    let checked = judged_with(alloc, 6, Instr::CheckGround(Y1, 12))?;
    assert_eq!(rt; checked, Some((6, Rule::Group)));
    let begun = judged_with(alloc, 6, Instr::AllocParcall(2, 12))?;
    assert_eq!(rt; begun, Some((6, Rule::Group)));
    let stray = [Instr::PushGoal(1, 0), Instr::Proceed];
    assert_eq!(rt; judged(alloc, &stray)?, Some((0, Rule::Group)));
    let end = [Instr::Allocate(0), Instr::WaitAll, Instr::Fail];
    assert_eq!(rt; judged(alloc, &end)?, Some((1, Rule::Group)));
    Ok(())
}

#[test]
fn refuses_groups_that_break_other_rules(rt: HostRuntime) -> Result<(), Fail> {
    let alloc = rt.alloc();
    let c = Atom::at(fixed::TRUE);
    let none = judged_with(alloc, 5, Instr::AllocParcall(0, 12))?;
    assert_eq!(rt; none, Some((5, Rule::Operand)));
    let register = judged_with(alloc, 3, Instr::CheckGround(Slot::Y(0), 12))?;
    assert_eq!(rt; register, Some((3, Rule::Operand)));
    let outside = judged_with(alloc, 4, Instr::CheckIndep(Y1, Y2, 20))?;
    assert_eq!(rt; outside, Some((4, Rule::Target)));
    let back = judged_with(alloc, 4, Instr::CheckIndep(Y1, Y2, 4))?;
    assert_eq!(rt; back, Some((4, Rule::End)));
    let unknown = judged_with(alloc, 10, Instr::PushGoal(2, 1))?;
    assert_eq!(rt; unknown, Some((10, Rule::Called)));
    let unset = judged_with(alloc, 3, Instr::CheckGround(X4, 12))?;
    assert_eq!(rt; unset, Some((3, Rule::Unset)));
    let past = judged_with(alloc, 3, Instr::CheckGround(Slot::Y(3), 12))?;
    assert_eq!(rt; past, Some((3, Rule::Environment)));
    let kept = judged_with(alloc, 13, Instr::PutVariable(X4, 4))?;
    assert_eq!(rt; kept, Some((14, Rule::Unset)));
    let bare = [
        Instr::AllocParcall(1, 12),
        Instr::PushGoal(1, 0),
        Instr::WaitAll,
    ];
    assert_eq!(rt; judged(alloc, &bare)?, Some((2, Rule::Environment)));
    let inside = [
        Instr::PutStructure(c, 1, 3),
        Instr::CheckGround(X1, 2),
        Instr::Proceed,
    ];
    assert_eq!(rt; judged(alloc, &inside)?, Some((1, Rule::Argument)));
    Ok(())
}

// Where two ways meet, what is set on one of them alone isn't set.
#[test]
fn judges_each_way(rt: HostRuntime) -> Result<(), Fail> {
    let alloc = rt.alloc();
    let c = Atom::at(fixed::TRUE);
    let left_out = [
        Instr::CheckGround(X1, 2),
        Instr::PutConstant(c, 3),
        Instr::GetConstant(c, 3),
        Instr::Proceed,
    ];
    assert_eq!(rt; judged(alloc, &left_out)?, Some((2, Rule::Unset)));
    let unread = [
        Instr::CheckGround(X1, 2),
        Instr::PutConstant(c, 3),
        Instr::Proceed,
    ];
    assert_eq!(rt; judged(alloc, &unread)?, None);
    let over = [
        Instr::Jump(2),
        Instr::GetConstant(c, 3),
        Instr::CheckIndep(X1, Slot::X(2), 4),
        Instr::Proceed,
        Instr::GetConstant(c, 3),
        Instr::Fail,
    ];
    assert_eq!(rt; judged(alloc, &over)?, Some((4, Rule::Unset)));
    Ok(())
}

// 60 checks, behind each of which two ways join: 2 to the power of 60 paths.
#[test]
fn goes_on_once_where_ways_join(rt: HostRuntime) -> Result<(), Fail> {
    let alloc = rt.alloc();
    let mut code = Vec::new(alloc);
    for number in 0..60u32 {
        code.push(Instr::CheckGround(X1, 2 * number + 2))?;
        code.push(Instr::Builtin(Builtin::True))?;
    }
    code.push(Instr::Proceed)?;
    assert_eq!(rt; judged(alloc, &code)?, None);
    Ok(())
}

#[test]
fn gives_the_code_and_its_query_back(rt: HostRuntime) -> Result<(), Fail> {
    let alloc = rt.alloc();
    let code = code_of(alloc, &[Instr::Proceed], Some(0))?;
    assert!(rt; code.query() == Some(0));
    let sound = check(alloc, code).map_err(|_| Fail::new("the code is sound"))?;
    assert_eq!(rt; sound.query(), 0);
    assert_eq!(rt; sound.code().instructions().len(), 1);
    let outside = check(alloc, code_of(alloc, &[Instr::Proceed], Some(1))?);
    assert!(rt;
        matches!(
            outside,
            Err(CodeErr::Bad {
                at: 1,
                rule: Rule::Called
            })
        )
    );
    Ok(())
}
