//! The code of a clause each of whose variables has a place of its own in the environment.
#![tactic(auto, using(ap_term::proofs::TermLists::arguments, ap_term::proofs::TermLists::item_less_deep))]

ghost use Rattle.std.specs.Prelude.{◌≡◌, ◌+◌, ◌++◌, List, IfOk, OnOk};
ghost use Rattle.ap_term.specs.Tree.{Trees, count_trees, size_all, var, node, none, more};
ghost use Rattle.ap_term.specs.TermView.{tree_of, trees_of};
ghost use Rattle.ap_term.specs.Vars.{add_vars, add_all_vars};
ghost use Rattle.ap_instr.specs.declared.instruction.Slot.TheVariants.{Y};
ghost use Rattle.ap_instr.specs.Runs.{arguments};
ghost use Rattle.ap_codegen.specs.Emitted.{step_of, steps_of};
ghost use Rattle.ap_codegen.specs.Permanent.{name, see, see_all, inner, place, fill, fills, see_built, build, puts, goal_code, take, takes, see_taken, see_opened, get, opens, gets};
ghost use Rattle.ap_codegen.specs.declared.permanent.Making.{Making};
ghost use Rattle.ap_codegen.specs.Waiting.{IsBegun, structure, MakesMore, IsPart};

use crate::builtin_goals::builtin_of;
use crate::steps::{Step, add};
use ap_instr::Slot;
use ap_term::{Args, Atom, NoMemory, Term, add_vars};
use std::alloc::Global;

/// The place n above another, where there is one.
pub fn above(m: u32, n: usize) -> Result<u32, NoMemory>
    ensures { IfOk result (λ k. k ≡ m + n) }
{
    if n > 4294967295 {
        return Err(NoMemory);
    }
    match m.checked_add(n as u32) {
        Some(k) => Ok(k),
        None => Err(NoMemory),
    }
}

/// How many arguments there are, where an instruction can say it.
pub fn count(args: &Args) -> Result<u8, NoMemory>
    ensures { IfOk result (λ n. n ≡ count_trees args.now) }
{
    let n = args.len();
    if n > 255 {
        return Err(NoMemory);
    }
    Ok(n as u8)
}

/// The place of a variable.
pub fn home(v: u64) -> Result<Slot, NoMemory>
    ensures { IfOk result (λ s. s ≡ Y v) }
{
    if v > 255 {
        return Err(NoMemory);
    }
    Ok(Slot::Y(v as u8))
}

/// The variable of a structure's argument. One that wasn't seen gets the argument's place.
fn fill_variable(v: u64, seen: &mut Vec<u64>) -> Result<Step, NoMemory>
    ensures step { IfOk result (λ step. step_of step ≡ fill (var v) seen.old.items 0) }
    ensures seen { IfOk result (λ _. seen.new.items ≡ add_vars (var v) seen.old.items) }
{
    let slot = home(v)?;
    if seen.contains(&v) {
        return Ok(Step::UnifyValue(slot));
    }
    seen.push(v)?;
    Ok(Step::UnifyVariable(slot))
}

/// The instruction for one argument of a structure.
fn fill(t: &Term, seen: &mut Vec<u64>, m: u32) -> Result<Step, NoMemory>
    ensures step { IfOk result (λ step. step_of step ≡ fill (tree_of t.now) seen.old.items m) }
    ensures seen { IfOk result (λ _. seen.new.items ≡ see (tree_of t.now) seen.old.items) }
{
    match t {
        Term::Var(v) => fill_variable(*v, seen),
        Term::Int(z) => Ok(Step::UnifyInteger(*z)),
        Term::Atom(a) => Ok(Step::UnifyConstant(*a)),
        Term::Node(_, _) => Ok(Step::UnifyValue(Slot::X(m))),
    }
}

/// 1 for a structure, 0 for any other term.
fn is_inner(t: &Term) -> usize
    ensures { result ≡ inner (more (tree_of t.now) none) }
{
    match t {
        Term::Node(_, _) => 1,
        Term::Var(_) | Term::Int(_) | Term::Atom(_) => 0,
    }
}

/// How many structures stand among terms.
fn inner(terms: &[Term]) -> usize
    ensures { result ≡ inner (trees_of terms.now) }
{
    let mut n = 0usize;
    for t in terms {
        n += is_inner(t);
    }
    n
}

/// Where a structure among arguments stands that has so many behind it.
fn place(behind: usize, b: u32, m: u32) -> Result<u32, NoMemory>
    ensures { IfOk result (λ a. a ≡ place behind b m) }
{
    if behind == 0 {
        return Ok(b);
    }
    above(m, behind - 1)
}

/// The arguments of a structure.
fn fills(
    code: &mut Vec<Step>,
    args: &Args,
    seen: &mut Vec<u64>,
    b: u32,
    m: u32,
) -> Result<(), NoMemory>
    ensures code { OnOk result (steps_of code.new.items ≡ steps_of code.old.items ++ fills args.now seen.old.items b m) }
    ensures seen { OnOk result (seen.new.items ≡ see_all args.now seen.old.items) }
{
    let terms = args.as_slice();
    let mut behind = inner(terms);
    for t in terms {
        behind -= is_inner(t);
        add(code, fill(t, seen, place(behind, b, m)?)?)?;
    }
    Ok(())
}

/// Puts a variable into X a.
fn build_variable(code: &mut Vec<Step>, v: u64, a: u32, seen: &mut Vec<u64>) -> Result<(), NoMemory>
    ensures code { OnOk result (steps_of code.new.items ≡ steps_of code.old.items ++ build (var v) a seen.old.items 0 0) }
    ensures seen { OnOk result (seen.new.items ≡ add_vars (var v) seen.old.items) }
{
    let slot = home(v)?;
    if seen.contains(&v) {
        return add(code, Step::PutValue(slot, a));
    }
    seen.push(v)?;
    add(code, Step::PutVariable(slot, a, v))
}

/// A structure that is to stand in X `at`. X `spare` and those from X `free` on hold nothing.
#[derive(Clone, Copy)]
struct Structure<'a> {
    name: &'a Atom,
    args: &'a Args,
    at: u32,
    spare: u32,
    free: u32,
}

/// What is left to do of a structure: all, or itself where those inside it are built.
#[derive(Clone, Copy)]
enum Making<'a> {
    Build(Structure<'a>),
    Fill(Structure<'a>),
}

/// Leaves an argument of a structure to be built before it, where it is a structure itself.
fn leave_inner<'a>(
    left: &mut Vec<Making<'a>>,
    whole: Structure<'a>,
    t: &'a Term,
    behind: usize,
) -> Result<(), NoMemory>
    ensures { OnOk result ((ts : Trees) (out : List Making) → inner ts ≡ behind → MakesMore ts whole.entry left.new.items out → MakesMore (more (tree_of t.now) ts) whole.entry left.old.items out) }
{
    if let Term::Node(name, args) = t {
        left.push(Making::Build(Structure {
            name,
            args,
            at: place(behind, whole.spare, whole.free)?,
            spare: whole.at,
            free: above(whole.free, behind)?,
        }))?;
    }
    Ok(())
}

/// Leaves the structures inside another one to be built before it, the last one first.
fn leave_all_inner<'a>(left: &mut Vec<Making<'a>>, whole: Structure<'a>) -> Result<(), NoMemory>
    ensures { OnOk result (MakesMore whole.entry.args.now whole.entry left.old.items left.new.items) }
{
    let terms = whole.args.as_slice();
    let mut behind = inner(terms);
    for t in terms {
        behind -= is_inner(t);
        leave_inner(left, whole, t, behind)?;
    }
    Ok(())
}

/// One part of what is left to do.
fn make_one<'a>(
    code: &mut Vec<Step>,
    seen: &mut Vec<u64>,
    left: &mut Vec<Making<'a>>,
    making: Making<'a>,
) -> Result<(), NoMemory>
    ensures { OnOk result (IsPart making.entry left.old.items left.new.items seen.old.items seen.new.items (steps_of code.old.items) (steps_of code.new.items)) }
{
    match making {
        Making::Build(whole) => {
            left.push(Making::Fill(whole))?;
            leave_all_inner(left, whole)?;
            Ok(())
        }
        Making::Fill(whole) => {
            add(
                code,
                Step::PutStructure(*whole.name, count(whole.args)?, whole.at),
            )?;
            fills(code, whole.args, seen, whole.spare, whole.free)?;
            Ok(())
        }
    }
}

/// Builds a structure. What is left to do stands on a stack, so that the machine's own doesn't grow with a term's depth.
fn make(
    alloc: Global,
    code: &mut Vec<Step>,
    whole: Structure<'_>,
    seen: &mut Vec<u64>,
) -> Result<(), NoMemory>
    ensures code { OnOk result (steps_of code.new.items ≡ steps_of code.old.items ++ build (structure whole.entry) whole.entry.at seen.old.items whole.entry.spare whole.entry.free) }
    ensures seen { OnOk result (seen.new.items ≡ see_built (structure whole.entry) seen.old.items) }
{
    let mut left = Vec::new(alloc);
    left.push(Making::Build(whole))?;
    while let Some(making) = left.pop() {
        make_one(code, seen, &mut left, making)?;
    }
    Ok(())
}

/// Puts a term into X a; the registers from X m on hold nothing.
fn build(
    alloc: Global,
    code: &mut Vec<Step>,
    t: &Term,
    a: u32,
    seen: &mut Vec<u64>,
    m: u32,
) -> Result<(), NoMemory>
    ensures code { OnOk result (steps_of code.new.items ≡ steps_of code.old.items ++ build (tree_of t.now) a seen.old.items m (m + 1)) }
    ensures seen { OnOk result (seen.new.items ≡ see_built (tree_of t.now) seen.old.items) }
{
    match t {
        Term::Var(v) => build_variable(code, *v, a, seen),
        Term::Int(z) => add(code, Step::PutInteger(*z, a)),
        Term::Atom(c) => add(code, Step::PutConstant(*c, a)),
        Term::Node(name, args) => {
            let whole = Structure {
                name,
                args,
                at: a,
                spare: m,
                free: above(m, 1)?,
            };
            make(alloc, code, whole, seen)
        }
    }
}

/// Puts terms into X 1 and on.
fn puts(
    alloc: Global,
    code: &mut Vec<Step>,
    args: &Args,
    seen: &mut Vec<u64>,
    m: u32,
) -> Result<(), NoMemory>
    ensures { OnOk result (steps_of code.new.items ≡ steps_of code.old.items ++ puts args.now 1 seen.old.items m) }
{
    let mut at = 1;
    for t in args.as_slice() {
        build(alloc, code, t, at, seen, m)?;
        at = above(at, 1)?;
    }
    Ok(())
}

fn see(args: &Args, seen: &mut Vec<u64>) -> Result<(), NoMemory>
    ensures { OnOk result (seen.new.items ≡ add_all_vars args.now seen.old.items) }
{
    for t in args.as_slice() {
        add_vars(t, seen)?;
    }
    Ok(())
}

/// The instruction for one argument of a structure of the head; a structure is taken into X m.
fn take(t: &Term, seen: &mut Vec<u64>, m: u32) -> Result<Step, NoMemory>
    ensures step { IfOk result (λ step. step_of step ≡ take (tree_of t.now) seen.old.items m) }
    ensures seen { IfOk result (λ _. seen.new.items ≡ see (tree_of t.now) seen.old.items) }
{
    match t {
        Term::Var(v) => fill_variable(*v, seen),
        Term::Int(z) => Ok(Step::UnifyInteger(*z)),
        Term::Atom(a) => Ok(Step::UnifyConstant(*a)),
        Term::Node(_, _) => Ok(Step::UnifyVariable(Slot::X(m))),
    }
}

/// The arguments of a structure of the head.
fn takes(code: &mut Vec<Step>, args: &Args, seen: &mut Vec<u64>, m: u32) -> Result<(), NoMemory>
    ensures code { OnOk result (steps_of code.new.items ≡ steps_of code.old.items ++ takes args.now seen.old.items m) }
    ensures seen { OnOk result (seen.new.items ≡ see_all args.now seen.old.items) }
{
    let terms = args.as_slice();
    let mut behind = inner(terms);
    for t in terms {
        behind -= is_inner(t);
        add(code, take(t, seen, above(m, behind)?)?)?;
    }
    Ok(())
}

/// A variable of the head in X a.
fn get_variable(code: &mut Vec<Step>, v: u64, a: u32, seen: &mut Vec<u64>) -> Result<(), NoMemory>
    ensures code { OnOk result (steps_of code.new.items ≡ steps_of code.old.items ++ get (var v) a seen.old.items 0) }
    ensures seen { OnOk result (seen.new.items ≡ add_vars (var v) seen.old.items) }
{
    let slot = home(v)?;
    if seen.contains(&v) {
        return add(code, Step::GetValue(slot, a));
    }
    seen.push(v)?;
    add(code, Step::GetVariable(slot, a))
}

/// Terms of which those that are structures stand in the registers from X `free` on, the last one in X `free`, and are to
/// be taken apart.
#[derive(Clone, Copy)]
struct Opening<'a> {
    terms: &'a [Term],
    free: u32,
}

/// Takes a structure apart, but for those inside, which wait on the stack.
fn open<'a>(
    code: &mut Vec<Step>,
    seen: &mut Vec<u64>,
    left: &mut Vec<Opening<'a>>,
    name: Atom,
    args: &'a Args,
    a: u32,
    m: u32,
) -> Result<(), NoMemory>
    ensures { OnOk result (IsBegun (get (node name args.now) a seen.old.items m) (see_taken (node name args.now) seen.old.items) (size_all args.now + 1) left.old.items left.new.items seen.new.items (steps_of code.old.items) (steps_of code.new.items)) }
{
    add(code, Step::GetStructure(name, count(args)?, a))?;
    takes(code, args, seen, m)?;
    let terms = args.as_slice();
    left.push(Opening { terms, free: m })?;
    Ok(())
}

/// The first of some terms; the others wait.
fn open_first<'a>(
    code: &mut Vec<Step>,
    seen: &mut Vec<u64>,
    left: &mut Vec<Opening<'a>>,
    whole: Opening<'a>,
) -> Result<(), NoMemory>
    ensures { OnOk result (IsBegun (opens (trees_of whole.entry.terms.now) seen.old.items whole.entry.free) (see_opened (trees_of whole.entry.terms.now) seen.old.items) (size_all (trees_of whole.entry.terms.now)) left.old.items left.new.items seen.new.items (steps_of code.old.items) (steps_of code.new.items)) }
{
    let Opening { terms, free } = whole;
    let [t, behind @ ..] = terms else {
        return Ok(());
    };
    left.push(Opening {
        terms: behind,
        free,
    })?;
    match t {
        Term::Node(name, args) => {
            let at = above(free, inner(behind))?;
            open(code, seen, left, *name, args, at, at)?;
            Ok(())
        }
        _ => Ok(()),
    }
}

/// Takes a structure apart with all those inside. These wait on a stack, so that the machine's own doesn't grow with a term's
/// depth.
fn open_all(
    alloc: Global,
    code: &mut Vec<Step>,
    name: Atom,
    args: &Args,
    a: u32,
    seen: &mut Vec<u64>,
    m: u32,
) -> Result<(), NoMemory>
    ensures code { OnOk result (steps_of code.new.items ≡ steps_of code.old.items ++ get (node name args.now) a seen.old.items m) }
    ensures seen { OnOk result (seen.new.items ≡ see_taken (node name args.now) seen.old.items) }
{
    let mut left = Vec::new(alloc);
    open(code, seen, &mut left, name, args, a, m)?;
    while let Some(whole) = left.pop() {
        open_first(code, seen, &mut left, whole)?;
    }
    Ok(())
}

/// Takes a term of the head apart, which is in X a.
fn take_apart(
    alloc: Global,
    code: &mut Vec<Step>,
    t: &Term,
    a: u32,
    seen: &mut Vec<u64>,
    m: u32,
) -> Result<(), NoMemory>
    ensures code { OnOk result (steps_of code.new.items ≡ steps_of code.old.items ++ get (tree_of t.now) a seen.old.items m) }
    ensures seen { OnOk result (seen.new.items ≡ see_taken (tree_of t.now) seen.old.items) }
{
    match t {
        Term::Var(v) => get_variable(code, *v, a, seen),
        Term::Int(z) => add(code, Step::GetInteger(*z, a)),
        Term::Atom(c) => add(code, Step::GetConstant(*c, a)),
        Term::Node(name, args) => open_all(alloc, code, *name, args, a, seen, m),
    }
}

/// An argument of the head in X a.
fn get(
    alloc: Global,
    code: &mut Vec<Step>,
    t: &Term,
    a: u32,
    seen: &mut Vec<u64>,
    m: u32,
) -> Result<(), NoMemory>
    ensures code { OnOk result (steps_of code.new.items ≡ steps_of code.old.items ++ get (tree_of t.now) a seen.old.items m) }
    ensures seen { OnOk result (seen.new.items ≡ add_vars (tree_of t.now) seen.old.items) }
{
    let mut known = seen.clone()?;
    take_apart(alloc, code, t, a, &mut known, m)?;
    add_vars(t, seen)?;
    Ok(())
}

/// The arguments of the head.
pub fn gets(
    alloc: Global,
    code: &mut Vec<Step>,
    args: &Args,
    seen: &mut Vec<u64>,
    m: u32,
) -> Result<(), NoMemory>
    ensures code { OnOk result (steps_of code.new.items ≡ steps_of code.old.items ++ gets args.now 1 seen.old.items m) }
    ensures seen { OnOk result (seen.new.items ≡ add_all_vars args.now seen.old.items) }
{
    let mut at = 1;
    for t in args.as_slice() {
        get(alloc, code, t, at, seen, m)?;
        at = above(at, 1)?;
    }
    Ok(())
}

/// A goal's arguments in X, and what it calls.
pub fn goal(
    alloc: Global,
    code: &mut Vec<Step>,
    t: &Term,
    seen: &mut Vec<u64>,
) -> Result<(Atom, u8), NoMemory>
    ensures code { IfOk result (λ _. steps_of code.new.items ≡ steps_of code.old.items ++ goal_code (tree_of t.now) seen.old.items) }
    ensures seen { IfOk result (λ _. seen.new.items ≡ add_vars (tree_of t.now) seen.old.items) }
    ensures called { IfOk result (λ r. (r.0 ≡ name (tree_of t.now)) × (r.1 ≡ count_trees (arguments (tree_of t.now)))) }
{
    match t {
        Term::Var(_) | Term::Int(_) => {
            add_vars(t, seen)?;
            Ok((Atom::at(0), 0))
        }
        Term::Atom(p) => Ok((*p, 0)),
        Term::Node(p, args) => {
            let n = count(args)?;
            let m = u32::from(n) + 1;
            let mut known = seen.clone()?;
            puts(alloc, code, args, &mut known, m)?;
            see(args, seen)?;
            Ok((*p, n))
        }
    }
}
