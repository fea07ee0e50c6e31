//! The calls.
ghost use Rattle.std.specs.Prelude.{◌≡◌, ℕ, ◌<◌, ◌≤◌, ◌⊎◌, true, false, List, [], ◌∷◌, ◌++◌, length, vec_len, IfOk, IfErr, MatchResult, MatchOption};
ghost use Rattle.crossbeam_deque.specs.Handles.{taken};
ghost use Rattle.ap_goalstack.specs.Stack.{hand, Took, Popped, Found, IsForked};
ghost use Rattle.ap_goalstack.specs.Hands.{stack_hand, thief_hand};

use crate::ends::{GoalStack, Thief};
use crate::rule::{Adds, Cut, Pops, Rule, Steals};
use ap_board::Ticket;
use crossbeam_deque::{Steal, Worker};
use std::alloc::{AllocError, Global};

/// Makes an empty stack with room for at least `capacity` tickets, and so many ends for other threads. The caller's rule is to be
/// true of the empty stack, and to stay so as the other ends are made. Fails only for want of memory.
pub fn open<R: Rule>(
    alloc: Global,
    capacity: usize,
    thieves: u32,
) -> Result<(GoalStack<R>, Vec<Thief<R>>), AllocError>
    requires starts { R.holds [] (hand true [] [] ∷ []) }
    requires forks { 0 < thieves → IsForked R.holds }
    ensures { IfOk result (λ r. (stack_hand r.0 ≡ hand true [] []) × (r.0.capacity ≡ capacity) × (vec_len r.1 ≡ thieves)) }
{
    let mut others = Vec::with_capacity(alloc, thieves as usize)?;
    let mut stack = GoalStack::empty(alloc, capacity)?;
    for _ in 0..thieves {
        others.push(stack.thief()?)?;
    }
    Ok((stack, others))
}

impl<R: Rule> GoalStack<R> {
    fn empty(alloc: Global, capacity: usize) -> Result<GoalStack<R>, AllocError>
        requires { R.holds [] (hand true [] [] ∷ []) }
        ensures { IfOk result (λ r. (stack_hand r ≡ hand true [] []) × (r.capacity ≡ capacity)) }
    {
        let worker = Worker::lifo_as(alloc, capacity)?;
        Ok(GoalStack { worker, capacity })
    }

    fn thief(&mut self) -> Result<Thief<R>, AllocError>
        requires { IsForked R.holds }
        ensures same { (stack_hand self.new ≡ stack_hand self.old) × (self.new.capacity ≡ self.old.capacity) }
        ensures thief { IfOk result (λ t. thief_hand t ≡ hand false (stack_hand self.old).pushed []) }
    {
        let stealer = self.worker.stealer()?;
        let pass = self.worker.another::<Cut>();
        Ok(Thief { stealer, pass })
    }

    /// Pushes a ticket. It comes back only for want of memory, and only past the first `capacity` pushes.
    pub fn push(&mut self, ticket: Ticket) -> Result<(), Ticket>
        ensures same { self.new.capacity ≡ self.old.capacity }
        ensures pushed { MatchResult result (λ _. stack_hand self.new ≡ hand true ((stack_hand self.old).pushed ++ ticket ∷ []) (stack_hand self.old).took) (λ t. (t ≡ ticket) × (stack_hand self.new ≡ stack_hand self.old)) }
        ensures refused { IfErr result (λ _. self.old.capacity ≤ length (stack_hand self.old).pushed) }
    {
        self.worker.push_as::<Adds>(ticket)
    }

    /// Pops the ticket that was pushed last of those that are left. At None the stack was empty at a moment in which this end knew
    /// what it knows, and the caller's rule was true of it.
    pub fn pop(&mut self) -> Option<Ticket>
        ensures same { self.new.capacity ≡ self.old.capacity }
        ensures popped { MatchOption result ((stack_hand self.new ≡ stack_hand self.old) × Found R.holds 0 (stack_hand self.old)) (λ t. Popped (stack_hand self.old) (t ∷ []) (stack_hand self.new)) }
    {
        self.worker.pop_as::<Pops<R>>()
    }
}

impl<R: Rule> Thief<R> {
    /// Steals the oldest ticket, in one try. At None the stack held one ticket at most at a moment as `pop` tells of, or
    /// more had been taken than this thief knew.
    pub fn steal(&mut self) -> Option<Ticket>
        ensures { MatchOption result ((thief_hand self.new ≡ thief_hand self.old) × ((taken self.old.pass < taken self.new.pass) ⊎ Found R.holds 1 (thief_hand self.old))) (λ t. Took (thief_hand self.old) (t ∷ []) (thief_hand self.new)) }
    {
        match self.stealer.steal_as::<Steals<R>>(&mut self.pass) {
            Steal::Success(ticket) => Some(ticket),
            Steal::Empty | Steal::Retry => None,
        }
    }
}
