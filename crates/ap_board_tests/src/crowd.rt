//! A player that offers its share of the parcels, and takes what it finds on the pads of the others.
ghost use Rattle.std.specs.Prelude.{◌≡◌, ◌<◌, ◌≤◌, ◌+◌, ◌*◌};

use crate::player::{Game, Player};
use ap_board::Ticket;
use crossbeam_utils::atomic::AtomicCell;
use std::alloc::{AllocError, Global};
use std::sync::Wait;

/// How many players there are, and how many pads each has.
pub const PLAYERS: usize = 4;

pub const PADS: usize = 64;

/// How many parcels each player offers.
pub const SHARE: u32 = 250_000;

// Takes what is offered on a pad, in the round that its owner told last, and finishes it at once.
fn take_one(
    board: &Game,
    me: &mut Player,
    told: &[AtomicCell<u64>],
    pad: usize,
    out: &mut Vec<u32>,
) -> Result<(), AllocError>
    requires { me.old ≡ board.now.table.shared.table_id }
    ensures { me.new ≡ me.old }
{
    let round = match told.get(pad) {
        Some(cell) => cell.load(),
        None => 0,
    };
    if round >= ap_board::LAST_ROUND {
        return Ok(());
    }
    let ticket = Ticket { pad, round };
    if let Ok(Some(number)) = me.take(board, ticket) {
        out.push(number)?;
        let _ = me.finish(board, ticket, number);
    }
    Ok(())
}

// Ends an offer: takes the parcel back, or waits for its outcome. Tells whether the outcome was the parcel's.
fn end_one<R: Wait>(
    rt: &R,
    board: &Game,
    me: &mut Player,
    ticket: Ticket,
    number: u32,
    out: &mut Vec<u32>,
) -> Result<bool, AllocError>
    requires { me.old ≡ board.now.table.shared.table_id }
    ensures { me.new ≡ me.old }
{
    if let Ok(Some(back)) = me.reclaim(board, ticket) {
        out.push(back)?;
        return Ok(back == number);
    }
    let _ = me.await_done(rt, board, ticket);
    match me.collect(board, ticket) {
        Ok(Some(outcome)) => Ok(outcome == number),
        _ => Ok(false),
    }
}

// Offers parcels from `number` on, as many as there are pads free, up to `end`.
fn offer_some(
    board: &Game,
    me: &mut Player,
    told: &[AtomicCell<u64>],
    number: u32,
    end: u32,
    sent: &mut Vec<(Ticket, u32)>,
) -> Result<(), AllocError>
    requires { me.old ≡ board.now.table.shared.table_id }
    ensures { me.new ≡ me.old }
{
    for next in number..end {
        let Some(ticket) = me.offer(board, next) else {
            return Ok(());
        };
        if let Some(cell) = told.get(ticket.pad) {
            cell.store(ticket.round);
        }
        sent.push((ticket, next))?;
    }
    Ok(())
}

// Ends all offers of one batch, and tells whether each outcome was its parcel's.
fn end_all<R: Wait>(
    rt: &R,
    board: &Game,
    me: &mut Player,
    sent: &[(Ticket, u32)],
    out: &mut Vec<u32>,
) -> Result<bool, AllocError>
    requires { me.old ≡ board.now.table.shared.table_id }
    ensures { me.new ≡ me.old }
{
    let mut right = true;
    for i in 0..sent.len() {
        let (ticket, number) = sent[i];
        right = end_one(rt, board, me, ticket, number, out)? && right;
    }
    Ok(right)
}

// Takes what the others offer, on each pad once.
fn take_all(
    board: &Game,
    me: &mut Player,
    told: &[AtomicCell<u64>],
    out: &mut Vec<u32>,
) -> Result<(), AllocError>
    requires { me.old ≡ board.now.table.shared.table_id }
    ensures { me.new ≡ me.old }
{
    for pad in 0..PLAYERS * PADS {
        take_one(board, me, told, pad, out)?;
    }
    Ok(())
}

/// Offers the parcels from `first` on, batch by batch, and takes from the others between. Gives the parcels that came out here, and
/// whether each outcome that it collected was its parcel's.
pub fn work<R: Wait>(
    rt: &R,
    alloc: Global,
    board: &Game,
    mut me: Player,
    told: &[AtomicCell<u64>],
    first: u32,
) -> Result<(Vec<u32>, bool), AllocError>
    requires table { me ≡ board.now.table.shared.table_id }
    requires fits { first ≤ 4000000000 }
{
    let end = first + SHARE;
    let mut out = Vec::new(alloc);
    let mut right = true;
    let mut number = first;
    for _ in 0..SHARE {
        let mut sent = Vec::new(alloc);
        offer_some(board, &mut me, told, number, end, &mut sent)?;
        let Some(&(_, last)) = sent.last() else {
            break;
        };
        take_all(board, &mut me, told, &mut out)?;
        right = end_all(rt, board, &mut me, &sent, &mut out)? && right;
        number = last.wrapping_add(1);
    }
    Ok((out, right && number == end))
}
