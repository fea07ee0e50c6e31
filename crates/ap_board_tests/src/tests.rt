//! The rows, and the crowd.
ghost use Rattle.std.specs.Prelude.{◌≡◌};
ghost use Rattle.std.specs.Thread.{IsSync};

use crate::crowd::{PADS, PLAYERS, SHARE, work};
use crate::player::{Game, Player};
use crate::rows::{Move, ROWS, Row, Seat};
use crate::sitting::{four, three};
use ap_board::Ticket;
use ap_goalstack::{GoalStack, Thief, Unruled, open};
use crossbeam_utils::atomic::AtomicCell;
use std::alloc::{AllocError, Global};
use std::sync::Wait;
use std::test::*;
use std::thread::{Threads, join};

// Who makes the call, and on which of the row's tickets.
fn parts(step: &Move) -> (Seat, usize) {
    match *step {
        Move::Offer(seat, _, _) => (seat, 0),
        Move::Take(seat, place, _) => (seat, place),
        Move::Reclaim(seat, place, _) => (seat, place),
        Move::Stop(seat, place, _) => (seat, place),
        Move::Asked(seat, place, _) => (seat, place),
        Move::Finish(seat, place, _) => (seat, place),
        Move::Done(seat, place, _) => (seat, place),
        Move::Collect(seat, place, _) => (seat, place),
    }
}

// Offers, and tells whether the answer is the row's: with a ticket on the seat's only pad.
fn offers(
    board: &Game,
    me: &mut Player,
    pad: usize,
    tickets: &mut Vec<Ticket>,
    number: u32,
    wanted: Option<u64>,
) -> Result<bool, AllocError>
    requires { me.old ≡ board.now.table.shared.table_id }
    ensures { me.new ≡ me.old }
{
    match me.offer(board, number) {
        Some(ticket) => {
            tickets.push(ticket)?;
            Ok(ticket.pad == pad && Some(ticket.round) == wanted)
        }
        None => Ok(wanted.is_none()),
    }
}

// Makes a call on a ticket, and tells whether the answer is the row's.
fn answers(board: &Game, me: &mut Player, ticket: Ticket, step: &Move) -> bool
    requires { me.old ≡ board.now.table.shared.table_id }
    ensures { me.new ≡ me.old }
{
    match *step {
        Move::Offer(_, _, _) => false,
        Move::Take(_, _, wanted) => me.take(board, ticket).ok() == Some(wanted),
        Move::Reclaim(_, _, wanted) => me.reclaim(board, ticket).ok() == Some(wanted),
        Move::Stop(_, _, wanted) => me.stop(board, ticket).ok() == Some(wanted),
        Move::Asked(_, _, wanted) => me.stop_asked(board, ticket).ok() == Some(wanted),
        Move::Finish(_, _, number) => me.finish(board, ticket, number).is_ok(),
        Move::Done(_, _, wanted) => me.done(board, ticket).ok() == Some(wanted),
        Move::Collect(_, _, wanted) => me.collect(board, ticket).ok() == Some(wanted),
    }
}

// Makes a call of a row, and tells whether the answer is the row's.
fn one_move(
    board: &Game,
    me: &mut Player,
    pad: usize,
    tickets: &mut Vec<Ticket>,
    step: &Move,
) -> Result<bool, AllocError>
    requires { me.old ≡ board.now.table.shared.table_id }
    ensures { me.new ≡ me.old }
{
    if let Move::Offer(_, number, wanted) = *step {
        return offers(board, me, pad, tickets, number, wanted);
    }
    match tickets.get(parts(step).1) {
        Some(ticket) => Ok(answers(board, me, *ticket, step)),
        None => Ok(false),
    }
}

// How many calls of a row answer as it says, from the first on.
fn right_moves(alloc: Global, row: &Row) -> Result<usize, AllocError> {
    let mut tickets = Vec::new(alloc);
    let Some((board, mut a, mut b, mut c)) = three(alloc, 1) else {
        return Ok(0);
    };
    for i in 0..row.moves.len() {
        let step = &row.moves[i];
        let right = match parts(step).0 {
            Seat::A => one_move(&board, &mut a, 0, &mut tickets, step)?,
            Seat::B => one_move(&board, &mut b, 1, &mut tickets, step)?,
            Seat::C => one_move(&board, &mut c, 2, &mut tickets, step)?,
        };
        if !right {
            return Ok(i);
        }
    }
    Ok(row.moves.len())
}

#[test]
fn each_call_answers_as_the_grammar_says(rt: HostRuntime) -> Result<(), Fail> {
    for row in ROWS.iter() {
        let right = right_moves(rt.alloc(), row)?;
        assert!(rt; right == row.moves.len(), "{}: call {right}", row.name);
    }
    Ok(())
}

// Marks parcels that came out. Tells whether each was offered and none is marked twice.
fn mark(seen: &mut [bool], out: &[u32]) -> bool {
    let mut once = true;
    for number in out.iter() {
        match seen.get_mut(*number as usize) {
            Some(mark) => {
                once = once && !*mark;
                *mark = true;
            }
            None => once = false,
        }
    }
    once
}

// Four players offer and take, each in a thread.
fn crowd<R: Threads + Wait + Sync>(
    rt: &R,
    alloc: Global,
    told: &[AtomicCell<u64>],
) -> Option<[(Vec<u32>, bool); 4]> {
    let (board, a, b, c, d) = four(alloc)?;
    let board = &board;
    let ((a, b), (c, d)) = join(
        rt,
        ||
            requires { IsSync R.row × (a ≡ board.now.table.shared.table_id) × (b ≡ board.now.table.shared.table_id) }
        {
            join(
                rt,
                move ||
                    requires { a ≡ board.now.table.shared.table_id }
                { work(rt, alloc, board, a, told, 0) },
                move ||
                    requires { b ≡ board.now.table.shared.table_id }
                { work(rt, alloc, board, b, told, SHARE) },
            )
        },
        ||
            requires { IsSync R.row × (c ≡ board.now.table.shared.table_id) × (d ≡ board.now.table.shared.table_id) }
        {
            join(
                rt,
                move ||
                    requires { c ≡ board.now.table.shared.table_id }
                { work(rt, alloc, board, c, told, 2 * SHARE) },
                move ||
                    requires { d ≡ board.now.table.shared.table_id }
                { work(rt, alloc, board, d, told, 3 * SHARE) },
            )
        },
    );
    Some([a.ok()?, b.ok()?, c.ok()?, d.ok()?])
}

#[test]
fn each_of_a_million_parcels_comes_out_once(rt: HostRuntime) -> Result<(), Fail> {
    let alloc: Global = rt.alloc();
    let mut told = Vec::new(alloc);
    for _ in 0..PLAYERS * PADS {
        told.push(AtomicCell::new(0u64))?;
    }
    let Some(parts) = crowd(&rt, alloc, &told) else {
        panic!(rt; "no memory")
    };
    let mut seen = Vec::from_elem(alloc, false, PLAYERS * SHARE as usize)?;
    for part in parts.iter() {
        assert!(rt; part.1, "an outcome wasn't its parcel's");
        assert!(rt; mark(&mut seen, &part.0), "a parcel came out twice");
    }
    assert!(rt; seen.iter().all(|x| *x), "a parcel is lost");
    Ok(())
}

#[test]
fn the_owner_pops_the_newest_and_thieves_steal_the_oldest(rt: HostRuntime) -> Result<(), Fail> {
    let (mut stack, mut thieves) = open::<Unruled>(rt.alloc(), 4, 1)?;
    let Some(mut thief) = thieves.pop() else {
        panic!(rt; "no thief")
    };
    for pad in 0..3 {
        assert!(rt; stack.push(Ticket { pad, round: 0 }).is_ok());
    }
    assert!(rt; thief.steal() == Some(Ticket { pad: 0, round: 0 }));
    assert!(rt; stack.pop() == Some(Ticket { pad: 2, round: 0 }));
    assert!(rt; stack.pop() == Some(Ticket { pad: 1, round: 0 }));
    assert!(rt; stack.pop().is_none() && thief.steal().is_none());
    Ok(())
}

// Offers a parcel, and pushes its ticket.
fn pushed(
    board: &Game,
    me: &mut Player,
    stack: &mut GoalStack<Unruled>,
    number: u32,
) -> Option<Ticket>
    requires { me.old ≡ board.now.table.shared.table_id }
    ensures { me.new ≡ me.old }
{
    let ticket = me.offer(board, number)?;
    match stack.push(ticket) {
        Ok(()) => Some(ticket),
        Err(_) => None,
    }
}

// Ends a round of the first player's pad: the second one takes the parcel and finishes it, and the outcome is collected.
fn ends_by_outcome(board: &Game, first: &mut Player, second: &mut Player, ticket: Ticket) -> bool
    requires { (first.old ≡ board.now.table.shared.table_id) × (second.old ≡ board.now.table.shared.table_id) }
    ensures { (first.new ≡ first.old) × (second.new ≡ second.old) }
{
    second.take(board, ticket).ok() == Some(Some(1))
        && second.finish(board, ticket, 11).is_ok()
        && first.collect(board, ticket).ok() == Some(Some(11))
}

// Three rounds of the first player's pad, whose tickets are all pushed: the first two are over.
fn plays_three(
    board: &Game,
    first: &mut Player,
    second: &mut Player,
    stack: &mut GoalStack<Unruled>,
) -> Option<bool>
    requires { (first.old ≡ board.now.table.shared.table_id) × (second.old ≡ board.now.table.shared.table_id) }
    ensures { (first.new ≡ first.old) × (second.new ≡ second.old) }
{
    let ticket = pushed(board, first, stack, 1)?;
    let ended = ends_by_outcome(board, first, second, ticket);
    let ticket = pushed(board, first, stack, 2)?;
    let back = first.reclaim(board, ticket).ok() == Some(Some(2));
    let _last = pushed(board, first, stack, 3)?;
    Some(ended && back)
}

// Steals a ticket, and takes what is offered by it.
fn take_stolen(board: &Game, me: &mut Player, thief: &mut Thief<Unruled>) -> Option<Option<u32>>
    requires { me.old ≡ board.now.table.shared.table_id }
    ensures { me.new ≡ me.old }
{
    let ticket = thief.steal()?;
    me.take(board, ticket).ok()
}

#[test]
fn stolen_tickets_of_ended_rounds_take_nothing(rt: HostRuntime) -> Result<(), Fail> {
    let Some((board, mut a, mut b, mut c)) = three(rt.alloc(), 1) else {
        panic!(rt; "no memory")
    };
    let (mut stack, mut thieves) = open::<Unruled>(rt.alloc(), 4, 1)?;
    let Some(mut thief) = thieves.pop() else {
        panic!(rt; "no thief")
    };
    assert!(rt; plays_three(&board, &mut a, &mut b, &mut stack) == Some(true));
    assert!(rt; take_stolen(&board, &mut c, &mut thief) == Some(None));
    assert!(rt; take_stolen(&board, &mut c, &mut thief) == Some(None));
    assert!(rt; take_stolen(&board, &mut c, &mut thief) == Some(Some(3)));
    assert!(rt; thief.steal().is_none());
    Ok(())
}
