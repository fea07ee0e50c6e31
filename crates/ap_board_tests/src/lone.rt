//! A stack without thieves, of which it is kept that nothing is lost. Then what is pushed is popped.
ghost use Rattle.std.specs.Prelude.{◌≡◌, IfOk};
ghost use Rattle.ap_board_tests.specs.Lone.{IsLone};
ghost use Rattle.ap_board_tests.specs.LoneKept.{keeps};

use ap_board::Ticket;
use ap_goalstack::{Rule, open};
use std::alloc::{AllocError, Global};

/// What was pushed is in the stack, or was popped.
pub struct Lone;

impl Rule for Lone {
    ghost holds = { IsLone };

    ghost keeps = { keeps };
}

/// Pops from a stack onto which one ticket was pushed. Fails only for want of memory.
pub fn pushed_then_popped(alloc: Global, ticket: Ticket) -> Result<Ticket, AllocError>
    ensures { IfOk result (λ t. t ≡ ticket) }
{
    let (mut stack, _thieves) = open::<Lone>(alloc, 1, 0)?;
    match stack.push(ticket) {
        Ok(()) => {}
        Err(_) => unreachable!(),
    }
    match stack.pop() {
        Some(found) => Ok(found),
        None => unreachable!(),
    }
}
