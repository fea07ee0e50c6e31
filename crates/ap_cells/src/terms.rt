//! The term of a place, built without recursion.

ghost use Rattle.std.specs.Prelude.{◌≡◌, ℕ, ◌+◌, ◌*◌, ◌<◌, ◌≤◌, List, length, IfOk, OnOk};
ghost use Rattle.ap_term.specs.TermView.{tree_of};
ghost use Rattle.ap_term.specs.Tree.{Tree};
ghost use Rattle.ap_cells.specs.Trees.{tree_at, trees, span};
ghost use Rattle.ap_cells.specs.Walks.{Each, weight_all};
ghost use Rattle.ap_cells.specs.Built.{IsFrame, IsTurn, closed, framed, with_argument, turned, weight_turn, weight_frames};

use crate::cells::Cells;
use crate::top::Top;
use ap_term::{Args, Atom, NoMemory, Term};
use std::alloc::Global;

/// A compound term of which some arguments are built; the others are those of the places from `next` on.
#[derive(Drop)]
pub struct Frame {
    name: Atom,
    args: Args,
    next: usize,
    left: u32,
}

/// What comes next: a place whose term is to be built, or a term that is.
#[derive(Drop)]
pub enum Turn {
    Open(usize),
    Close(Term),
}

impl Cells {
    /// The term of a place; its variables are numbered by their places.
    pub fn term_at(&self, alloc: Global, place: usize) -> Result<Term, NoMemory>
        requires { place < length self.now.cells }
        ensures { IfOk result (λ t. tree_of t ≡ tree_at (trees self.now.cells) place) }
    {
        let places = self.len();
        let mut frames = Vec::new(alloc);
        let mut turn = Turn::Open(place);
        loop {
            turn = match turn {
                Turn::Open(at) => open(alloc, self, at, &mut frames)?,
                Turn::Close(term) => match frames.pop() {
                    Some(frame) => close(places, frame, term, &mut frames)?,
                    None => return Ok(term),
                },
            };
        }
    }
}

/// Begins the term of a place.
fn open(
    alloc: Global,
    cells: &Cells,
    place: usize,
    frames: &mut Vec<Frame>,
) -> Result<Turn, NoMemory>
    requires { place < length cells.now.cells }
    ensures built { IfOk result (λ turn. closed (trees cells.now.cells) frames.new.items (turned (trees cells.now.cells) turn) ≡ closed (trees cells.now.cells) frames.old.items (tree_at (trees cells.now.cells) place)) }
    ensures less { IfOk result (λ turn. weight_frames (trees cells.now.cells) frames.new.items + weight_turn (trees cells.now.cells) turn < weight_frames (trees cells.now.cells) frames.old.items + weight_turn (trees cells.now.cells) (Turn.Open place)) }
    ensures inside { IfOk result (λ turn. IsTurn (length cells.now.cells) turn) }
    ensures frames { OnOk result (Each (IsFrame (length cells.now.cells)) frames.old.items → Each (IsFrame (length cells.now.cells)) frames.new.items) }
{
    match cells.top(place) {
        Top::Free(variable) => Ok(Turn::Close(Term::Var(variable as u64))),
        Top::Int(z) => Ok(Turn::Close(Term::Int(z))),
        Top::Atom(a) => Ok(Turn::Close(Term::Atom(a))),
        Top::Node(name, first, count) => {
            let frame = Frame {
                name,
                args: Args::new(alloc),
                next: first,
                left: count,
            };
            go_on(cells.len(), frame, frames)
        }
    }
}

/// Puts a term into the frame that waits for it.
fn close(places: usize, frame: Frame, term: Term, frames: &mut Vec<Frame>) -> Result<Turn, NoMemory>
    requires few { places ≤ 4294967295 }
    requires inside { IsFrame places frame }
    ensures built { IfOk result (λ turn. (ts : List Tree) → closed ts frames.new.items (turned ts turn) ≡ closed ts frames.old.items (with_argument ts frame (tree_of term))) }
    ensures less { IfOk result (λ turn. (ts : List Tree) → weight_frames ts frames.new.items + weight_turn ts turn ≤ weight_frames ts frames.old.items + 2 * weight_all (span ts frame.next frame.left) + 1) }
    ensures inside { IfOk result (λ turn. IsTurn places turn) }
    ensures frames { OnOk result (Each (IsFrame places) frames.old.items → Each (IsFrame places) frames.new.items) }
{
    let Frame {
        name,
        mut args,
        next,
        left,
    } = frame;
    args.push(term)?;
    go_on(
        places,
        Frame {
            name,
            args,
            next,
            left,
        },
        frames,
    )
}

/// Goes on with the next argument of a term, or ends it.
fn go_on(places: usize, frame: Frame, frames: &mut Vec<Frame>) -> Result<Turn, NoMemory>
    requires few { places ≤ 4294967295 }
    requires inside { IsFrame places frame }
    ensures built { IfOk result (λ turn. (ts : List Tree) → closed ts frames.new.items (turned ts turn) ≡ closed ts frames.old.items (framed ts frame)) }
    ensures less { IfOk result (λ turn. (ts : List Tree) → weight_frames ts frames.new.items + weight_turn ts turn ≤ weight_frames ts frames.old.items + 2 * weight_all (span ts frame.next frame.left) + 1) }
    ensures inside { IfOk result (λ turn. IsTurn places turn) }
    ensures frames { OnOk result (Each (IsFrame places) frames.old.items → Each (IsFrame places) frames.new.items) }
{
    let Frame {
        name,
        args,
        next,
        left,
    } = frame;
    if left == 0 {
        return Ok(Turn::Close(Term::Node(name, args)));
    }
    frames.push(Frame {
        name,
        args,
        next: next + 1,
        left: left - 1,
    })?;
    Ok(Turn::Open(next))
}
