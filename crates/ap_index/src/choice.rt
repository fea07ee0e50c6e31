//! What is known of a choice: the clause that it names, what that one's head asks, and which choice comes next.

ghost use Rattle.std.specs.Prelude.{IfOk, IfSome};
ghost use Rattle.ap_instr.specs.Code.{Compiled};
ghost use Rattle.ap_index.specs.Index.{AreRowsOf, IsNamedBy, IsNextOf, IsChoiceOf};

use crate::head::{Head, head_at};
use crate::key::instruction_at;
use crate::row::Link;
use crate::rows::Rows;
use crate::word::{Short, shorten};
use ap_instr::{Code, Instr};
use ap_term::NoMemory;
use std::alloc::Global;

/// The place of the clause that a choice names, the place where the others stand, if there are others, and whether it is a `try`.
#[derive(Clone, Copy)]
pub struct Named {
    pub place: u32,
    pub behind: Option<usize>,
    pub is_first: bool,
}

/// What is known of the choices behind one.
#[derive(Clone, Copy)]
pub enum Next {
    /// Nothing.
    Any,
    /// They may go on with a row.
    Row,
    /// Which one comes next for keys of its clause's key's slot.
    Linked(Link),
}

/// So many choices are looked at to tell whether anything is asked from one of them on.
const AHEAD: u32 = 64;

/// The choice at a place: what it names, what the head of its clause asks of the arguments of a call, what is known of the choices
/// behind it, whether a clause from it on asks a key of the first argument, and of which other one, 0 where of none.
#[derive(Drop)]
pub struct Choice {
    pub(crate) at: u32,
    pub named: Named,
    pub head: Head,
    pub short: Short,
    pub next: Next,
    pub asks_first: bool,
    pub other: u32,
}

/// What a choice at a place names, if one stands there.
pub(crate) fn named_at(code: &Code, at: u32) -> Option<Named>
    ensures { IfSome result (λ named. IsNamedBy code.now at named) }
{
    let behind = Some(at as usize + 1);
    match instruction_at(code, at as usize) {
        Some(Instr::Try(place)) => Some(Named {
            place,
            behind,
            is_first: true,
        }),
        Some(Instr::Retry(place)) => Some(Named {
            place,
            behind,
            is_first: false,
        }),
        Some(Instr::Trust(place)) => Some(Named {
            place,
            behind: None,
            is_first: false,
        }),
        _ => None,
    }
}

/// What the rows tell of the choices behind one.
fn next_of(rows: &Rows, behind: Option<usize>) -> Next
    ensures { (code : Compiled) → AreRowsOf code rows.now → IsNextOf code behind result }
{
    let Some(from) = behind else {
        return Next::Any;
    };
    if let Some(link) = rows.link(from) {
        return Next::Linked(link);
    }
    match rows.rest(from) {
        Some(_) => Next::Row,
        None => Next::Any,
    }
}

/// The argument of which an instruction asks a key, if it does.
fn asked_by(instr: &Instr) -> Option<u32> {
    match *instr {
        Instr::GetConstant(_, a) => Some(a),
        Instr::GetInteger(_, a) => Some(a),
        Instr::GetStructure(_, _, a) => Some(a),
        _ => None,
    }
}

/// Whether an instruction may stand before one that asks a key.
fn leads_on(instr: &Instr) -> bool {
    match *instr {
        Instr::Allocate(_) => true,
        Instr::GetVariable(_, _) => true,
        Instr::UnifyVariable(_) => true,
        _ => false,
    }
}

/// The first argument, or else the first other one, of which the clause at a place asks a key; 0 where it asks none of such.
fn asked_at(code: &Code, clause: u32, is_first: bool) -> u32 {
    for at in clause..clause.saturating_add(AHEAD) {
        let Some(instr) = instruction_at(code, at as usize) else {
            return 0;
        };
        match asked_by(&instr) {
            Some(asked) if (asked == 1) == is_first => return asked,
            Some(_) => {}
            None if leads_on(&instr) => {}
            None => return 0,
        }
    }
    0
}

/// The first argument, or else another one, of which a clause of the choices from a place on asks a key: the second, where one asks it.
/// It is 0 where none does, of those that are looked at.
pub(crate) fn asked_from(code: &Code, at: u32, is_first: bool) -> u32 {
    let best = if is_first { 1 } else { 2 };
    let mut found = 0;
    for place in at..at.saturating_add(AHEAD) {
        let Some(named) = named_at(code, place) else {
            return found;
        };
        let asked = asked_at(code, named.place, is_first);
        if asked == best {
            return best;
        }
        if found == 0 {
            found = asked;
        }
        if named.behind.is_none() {
            return found;
        }
    }
    found
}

/// The choice at a place, if one stands there.
pub(crate) fn choice_at(
    alloc: Global,
    code: &Code,
    rows: &Rows,
    at: u32,
) -> Result<Option<Choice>, NoMemory>
    requires { AreRowsOf code.now rows.now }
    ensures { IfOk result (λ found. IfSome found (λ choice. IsChoiceOf code.now choice)) }
{
    let Some(named) = named_at(code, at) else {
        return Ok(None);
    };
    let head = head_at(alloc, code, named.place as usize)?;
    let short = shorten(head.asks());
    Ok(Some(Choice {
        at,
        named,
        head,
        short,
        next: next_of(rows, named.behind),
        asks_first: asked_from(code, at, true) != 0,
        other: asked_from(code, at, false),
    }))
}
