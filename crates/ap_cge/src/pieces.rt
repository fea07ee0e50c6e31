//! What the line of a clause is made of.

ghost use Rattle.std.specs.Prelude.{◌≡◌, ◌++◌, ◌∷◌, [], codes, map, bytes_eq, OnOk, IfOk};
ghost use Rattle.std.specs.List.{list_any};
ghost use Rattle.ap_term.specs.Tree.{var};
ghost use Rattle.ap_term.specs.TermView.{tree_of, trees_of};
ghost use Rattle.ap_term.specs.GoalView.{part_of};
ghost use Rattle.ap_cge.specs.Printed.{word, term, is_operator, is_enclosed, goal_pieces, check_pieces, behind, parted, condition_pieces, list_of, part_pieces, body_pieces, clause_pieces};
ghost use Rattle.ap_cge.specs.PieceView.{piece_of};

use ap_reader::{OPERATORS, Operator};
use ap_term::{Atoms, Check, Clause, NoMemory, Part, Term};
use ap_writer::{is_symbols, name_of};
use std::alloc::Global;

/// A sign, a term, or a variable of a check.
#[derive(Clone, Copy)]
pub enum Piece<'a> {
    Sign(&'static [u8]),
    Term(&'a Term),
    Variable(u64),
}

fn is_among(rows: &[Operator], name: &[u8]) -> bool
    ensures { result ≡ list_any (λ row. bytes_eq row.2.now name.now) rows.now }
{
    let mut left = rows;
    while let [(_, _, operator), rest @ ..] = left {
        if operator.as_bytes() == name {
            return true;
        }
        left = rest;
    }
    false
}

#[tactic(auto, unfolding(crate::specs::Printed::is_operator))]
fn is_operator(name: &[u8]) -> bool
    ensures { result ≡ is_operator name.now }
{
    is_among(&OPERATORS, name)
}

fn is_enclosed(atoms: &Atoms, t: &Term) -> bool
    ensures { result ≡ is_enclosed atoms.now (tree_of t.now) }
{
    match t {
        Term::Atom(a) => {
            let name = name_of(atoms, *a);
            is_operator(name) || is_symbols(name)
        }
        _ => false,
    }
}

fn put_sign(out: &mut Vec<Piece>, sign: &'static [u8]) -> Result<(), NoMemory>
    ensures { OnOk result (map piece_of out.new.items ≡ map piece_of out.old.items ++ word sign.now ∷ []) }
{
    Ok(out.push(Piece::Sign(sign))?)
}

fn put_term<'a>(out: &mut Vec<Piece<'a>>, t: &'a Term) -> Result<(), NoMemory>
    ensures { OnOk result (map piece_of out.new.items ≡ map piece_of out.old.items ++ term (tree_of t.now) ∷ []) }
{
    Ok(out.push(Piece::Term(t))?)
}

fn put_variable(out: &mut Vec<Piece>, x: u64) -> Result<(), NoMemory>
    ensures { OnOk result (map piece_of out.new.items ≡ map piece_of out.old.items ++ term (var x) ∷ []) }
{
    Ok(out.push(Piece::Variable(x))?)
}

fn put_goal<'a>(out: &mut Vec<Piece<'a>>, atoms: &Atoms, t: &'a Term) -> Result<(), NoMemory>
    ensures { OnOk result (map piece_of out.new.items ≡ map piece_of out.old.items ++ goal_pieces atoms.now (tree_of t.now)) }
{
    if !is_enclosed(atoms, t) {
        return put_term(out, t);
    }
    put_sign(out, b"(")?;
    put_term(out, t)?;
    put_sign(out, b")")
}

fn put_check(out: &mut Vec<Piece>, check: &Check) -> Result<(), NoMemory>
    ensures { OnOk result (map piece_of out.new.items ≡ map piece_of out.old.items ++ check_pieces check.now) }
{
    match check {
        Check::Ground(x) => {
            put_sign(out, b"ground(")?;
            put_variable(out, *x)?;
        }
        Check::Indep(x, y) => {
            put_sign(out, b"indep(")?;
            put_variable(out, *x)?;
            put_sign(out, b",")?;
            put_variable(out, *y)?;
        }
    }
    put_sign(out, b")")
}

fn put_more_checks(out: &mut Vec<Piece>, checks: &[Check]) -> Result<(), NoMemory>
    ensures { OnOk result (map piece_of out.new.items ≡ map piece_of out.old.items ++ behind (codes ", ") check_pieces checks.now) }
{
    for check in checks {
        put_sign(out, b", ")?;
        put_check(out, check)?;
    }
    Ok(())
}

fn put_condition(out: &mut Vec<Piece>, checks: &[Check]) -> Result<(), NoMemory>
    ensures { OnOk result (map piece_of out.new.items ≡ map piece_of out.old.items ++ condition_pieces checks.now) }
{
    match checks {
        [] => Ok(()),
        [check] => {
            put_check(out, check)?;
            put_sign(out, b" => ")
        }
        [first, _, ..] => {
            put_sign(out, b"(")?;
            put_check(out, first)?;
            put_more_checks(out, &checks[1..])?;
            put_sign(out, b") => ")
        }
    }
}

fn put_more_goals<'a>(
    out: &mut Vec<Piece<'a>>,
    atoms: &Atoms,
    goals: &'a [Term],
) -> Result<(), NoMemory>
    ensures { OnOk result (map piece_of out.new.items ≡ map piece_of out.old.items ++ behind (codes " & ") (λ t. goal_pieces atoms.now (tree_of t)) goals.now) }
{
    for goal in goals {
        put_sign(out, b" & ")?;
        put_goal(out, atoms, goal)?;
    }
    Ok(())
}

fn put_goals<'a>(out: &mut Vec<Piece<'a>>, atoms: &Atoms, goals: &'a [Term]) -> Result<(), NoMemory>
    ensures { OnOk result (map piece_of out.new.items ≡ map piece_of out.old.items ++ parted (codes " & ") (goal_pieces atoms.now) (list_of (trees_of goals.now))) }
{
    match goals {
        [] => Ok(()),
        [first, rest @ ..] => {
            put_goal(out, atoms, first)?;
            put_more_goals(out, atoms, rest)?;
            Ok(())
        }
    }
}

fn put_part<'a>(out: &mut Vec<Piece<'a>>, atoms: &Atoms, part: &'a Part) -> Result<(), NoMemory>
    ensures { OnOk result (map piece_of out.new.items ≡ map piece_of out.old.items ++ part_pieces atoms.now (part_of part.now)) }
{
    match part {
        Part::Call(goal) => put_goal(out, atoms, goal),
        Part::Group { checks, calls } => {
            put_condition(out, checks.as_slice())?;
            put_goals(out, atoms, calls.as_slice())
        }
    }
}

fn put_more_parts<'a>(
    out: &mut Vec<Piece<'a>>,
    atoms: &Atoms,
    parts: &'a [Part],
) -> Result<(), NoMemory>
    ensures { OnOk result (map piece_of out.new.items ≡ map piece_of out.old.items ++ behind (codes ", ") (λ p. part_pieces atoms.now (part_of p)) parts.now) }
{
    for part in parts {
        put_sign(out, b", ")?;
        put_part(out, atoms, part)?;
    }
    Ok(())
}

fn put_body<'a>(out: &mut Vec<Piece<'a>>, atoms: &Atoms, parts: &'a [Part]) -> Result<(), NoMemory>
    ensures { OnOk result (map piece_of out.new.items ≡ map piece_of out.old.items ++ body_pieces atoms.now (map part_of parts.now)) }
{
    match parts {
        [] => Ok(()),
        [first, rest @ ..] => {
            put_sign(out, b" :- ")?;
            put_part(out, atoms, first)?;
            put_more_parts(out, atoms, rest)?;
            Ok(())
        }
    }
}

/// The pieces of a clause's line, with its full stop and line feed.
pub fn clause_pieces<'a>(
    alloc: Global,
    atoms: &Atoms,
    clause: &'a Clause,
) -> Result<Vec<Piece<'a>>, NoMemory>
    ensures { IfOk result (λ ps. map piece_of ps.items ≡ clause_pieces atoms.now clause.now) }
{
    let mut pieces = Vec::new(alloc);
    put_goal(&mut pieces, atoms, clause.head())?;
    put_body(&mut pieces, atoms, clause.body().as_slice())?;
    put_sign(&mut pieces, b".\n")?;
    Ok(pieces)
}
