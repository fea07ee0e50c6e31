//! The rules of a stack, its own and its caller's, and what each call tells.
ghost use Rattle.std.specs.Prelude.{◌≡◌, true, false, List, [], ◌++◌, ⊤};
ghost use Rattle.ap_board.specs.declared.ticket.Ticket.{Ticket};
ghost use Rattle.ap_goalstack.specs.declared.view.Hand.{Hand};
ghost use Rattle.ap_goalstack.specs.Stack.{hand, Ruled, Took, Popped, Found, IsKept};

use crate::view::Hand;
use ap_board::Ticket;
use crossbeam_deque::protocol::{Outcome, Protocol, Split};
use std::marker::PhantomData;

/// What a caller keeps of a stack of its own. Contracts alone see it.
pub trait Rule {
    /// It speaks of the tickets in the stack, oldest first, and of what each end knows.
    ghost holds: { List Ticket → List Hand → Type 0 };

    /// Each push, pop and steal keeps it.
    ghost keeps: { IsKept holds };
}

/// The rule that asks nothing.
pub struct Unruled;

impl Rule for Unruled {
    ghost holds = { λ items views. ⊤ };

    ghost keeps = { (λ _ _ _ _ _ _ _ _ _ _ _. tt, λ _ _ _ _ _ _ _ _ _ _ _. tt, λ _ _ _ _ _ _ _ _ _ _ _. tt) };
}

pub struct Pushed<R> {
    rule: PhantomData<R>,
}

impl<R: Rule> Protocol<Ticket, Hand> for Pushed<R> {
    ghost holds = { Ruled R.holds };

    ghost first = { hand true [] [] };

    ghost guest = { hand false [] [] };
}

pub(crate) struct Adds;

impl Outcome<Ticket, Hand> for Adds {
    ghost then = { λ v xs w. w ≡ hand v.owner (v.pushed ++ xs) v.took };
}

pub(crate) struct Pops<R> {
    rule: PhantomData<R>,
}

impl<R: Rule> Outcome<Ticket, Hand> for Pops<R> {
    ghost then = { Popped };

    ghost empty = { Found R.holds 0 };
}

pub(crate) struct Steals<R> {
    rule: PhantomData<R>,
}

impl<R: Rule> Outcome<Ticket, Hand> for Steals<R> {
    ghost then = { Took };

    ghost empty = { Found R.holds 1 };
}

pub(crate) struct Cut;

impl Split<Hand> for Cut {
    ghost left = { λ v. v };

    ghost right = { λ v. hand false v.pushed [] };
}
