//! The two ends.
ghost use Rattle.std.specs.Prelude.{◌≡◌, ◌≤◌, true, false, length};
ghost use Rattle.crossbeam_deque.specs.Handles.{view, IsPassOf, worker_flavor, worker_view, worker_index, worker_capacity, stealer_deque, stealer_flavor};

use crate::rule::{Pushed, Rule};
use crate::view::Hand;
use ap_board::Ticket;
use crossbeam_deque::{Pass, Stealer, Worker};
use std::alloc::Global;

/// The owner's end, with the number of tickets that it surely has room for.
#[derive(Drop)]
pub struct GoalStack<R: Rule> {
    pub(crate) worker: Worker<Ticket, Global, Hand, Pushed<R>>,
    pub(crate) capacity: usize,
    ghost lifo: { worker_flavor worker ≡ 1 },
    ghost owns: { (worker_view worker).owner ≡ true },
    ghost room: { capacity ≤ worker_capacity worker },
    ghost pushes: { worker_index worker ≤ length (worker_view worker).pushed },
}

/// Another thread's end.
#[derive(Drop)]
pub struct Thief<R: Rule> {
    pub(crate) stealer: Stealer<Ticket, Global, Hand, Pushed<R>>,
    pub(crate) pass: Pass<Ticket, Hand>,
    ghost lifo: { stealer_flavor stealer ≡ 1 },
    ghost fits: { IsPassOf (stealer_deque stealer) pass },
    ghost steals: { (view pass).owner ≡ false },
}
