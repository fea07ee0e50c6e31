//! The posts of all workers.

ghost use Rattle.std.specs.Prelude.{◌≡◌, ◌<◌, ℕ, All, length, IfOk};
ghost use Rattle.ap_board.specs.Seats.{IsNewSeat};
ghost use Rattle.ap_post.specs.Posts.{IsNew};

use crate::bar::Bar;
use crate::common::Common;
use crate::job::Job;
use crate::outcome::Outcome;
use crate::post::{JobBoard, Post};
use ap_board::BoardSeat;
use ap_desk::Desk;
use ap_goalstack::{GoalStack, Thief, Unruled, open};
use ap_term::NoMemory;
use crossbeam_utils::atomic::AtomicCell;
use std::alloc::Global;

/// How many tickets a goal stack surely has room for.
const TICKETS: usize = 256;

/// A worker's goal stack.
type Goals = GoalStack<Unruled>;

/// Ends of the goal stacks of other workers.
type Ends = Vec<Thief<Unruled>>;

// Empty goal stacks for so many workers, and for each an end for every other worker.
fn open_stacks(alloc: Global, workers: usize) -> Result<(Vec<Goals>, Vec<Ends>), NoMemory> {
    let mut stacks = Vec::new(alloc);
    let mut ends = Vec::new(alloc);
    let Ok(count) = u32::try_from(workers) else {
        return Err(NoMemory);
    };
    for _worker in 0..workers {
        let (goals, others) = open(alloc, TICKETS, count)?;
        stacks.push(goals)?;
        ends.push(others)?;
    }
    Ok((stacks, ends))
}

// An end of each stack but a worker's own.
fn ends_of_others(alloc: Global, ends: &mut Vec<Ends>, own: usize) -> Result<Ends, NoMemory> {
    let mut others = Vec::new(alloc);
    for k in 0..ends.len() {
        if k != own {
            if let Some(end) = ends[k].pop() {
                others.push(end)?;
            }
        }
    }
    Ok(others)
}

/// A post for each seat of a board, with no goal out and none taken.
pub fn open_posts<'a, 'b>(
    alloc: Global,
    board: &'b JobBoard<'a>,
    seats: Vec<BoardSeat<Job<'a>, Outcome>>,
    common: &'b Common,
) -> Result<Vec<Post<'a, 'b>>, NoMemory>
    requires table { All (λ s. s.0 ≡ board.now.table.shared.table_id) seats.items }
    requires new { All (λ s. (pads : ℕ) × IsNewSeat pads s.1.number s.1) seats.items }
    ensures new { IfOk result (λ posts. All IsNew posts.items) }
    ensures count { IfOk result (λ posts. length posts.items ≡ length seats.entry.items) }
{
    let (mut stacks, mut ends) = open_stacks(alloc, seats.len())?;
    let mut posts = Vec::new(alloc);
    for seat in seats {
        let Some(goals) = stacks.pop() else {
            return Err(NoMemory);
        };
        let thieves = ends_of_others(alloc, &mut ends, stacks.len())?;
        let bar = Bar::new(thieves.len());
        posts.push(Post {
            board,
            common,
            desk: Desk::new(alloc, seat),
            goals,
            thieves,
            next: 0,
            looks: AtomicCell::new(false),
            bar,
        })?;
    }
    Ok(posts)
}
