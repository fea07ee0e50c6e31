//! Environments, choice points and forks in three vectors.

ghost use Rattle.std.specs.Prelude.{◌≡◌, ℕ, ◌+◌, ◌<◌, ◌≤◌, List, [], ◌∷◌, ◌++◌, length, drop, slice_get, OnOk, OnErr, IfSome, Some, None, is_some, false};
ghost use Rattle.ap_steps.specs.Moves.{held};
ghost use Rattle.ap_steps.specs.Standing.{Return};
ghost use Rattle.ap_environments.specs.Kept.{Moment, Forked, Kept};
ghost use Rattle.ap_environments.specs.Frames.{Rising, kept_of, segments_in, put_entry, with_place};
ghost use Rattle.ap_environments.specs.declared.environments.Choice.{Choice as ChoiceOf};
ghost use Rattle.ap_environments.specs.declared.environments.Entry.TheVariants.{Call, Fork as Forking};
ghost use Rattle.ap_environments.specs.declared.environments.Fork.{Fork as ForkOf};
ghost use Rattle.ap_environments.specs.declared.environments.Point.{Point as PointOf};

use crate::frames::{above, cut, fill_x, fill_y, make_room, push_frame, registers_of};
use ap_term::NoMemory;
use std::alloc::Global;
use std::marker::Model;

/// What a choice point is told by: how many cells and bindings there were; the predicate that was called; where the next
/// clause begins, and where the choice stands that names the others, if there are others.
#[derive(Clone, Copy)]
pub struct Choice {
    pub cells: u32,
    pub trail: u32,
    pub predicate: u32,
    pub place: u32,
    pub behind: Option<u32>,
}

/// What a fork is told by: how many cells and bindings there were, and how many goals it parts into.
#[derive(Clone, Copy)]
pub struct Fork {
    pub cells: u32,
    pub trail: u32,
    pub goals: u8,
}

/// What is come back to when a goal fails.
#[derive(Clone, Copy)]
pub enum Entry {
    Call(Choice),
    Fork(Fork),
}

/// Registers that were saved: `count` slots from `first` on. It was put on above the frame of the number `up`, counted from
/// 1, or above none.
#[derive(Clone, Copy)]
pub struct Frame {
    pub place: u32,
    pub up: u32,
    pub first: u32,
    pub count: u32,
}

/// An entry for which so many frames are kept, the last of them its own: with a choice point's arguments, with none for a
/// fork.
#[derive(Clone, Copy)]
pub struct Point {
    pub entry: Entry,
    pub frames: u32,
}

/// The returns that are waited for, and the choice points and forks. A frame is written once; one that none of these keeps
/// is given back when control has come back to it.
#[derive(Drop)]
pub struct Environments {
    frames: Vec<Frame>,
    slots: Vec<u32>,
    /// The innermost return's frame, counted from 1; 0 where there is none.
    top: u32,
    points: Vec<Point>,
}

impl Model for Environments {
    ghost use Rattle.ap_environments.specs.Kept.{Kept};
    ghost use Rattle.ap_environments.specs.Frames.{chain, segments, kept_of};
    ghost use Rattle.ap_environments.specs.Invariant.{IsKept};

    ghost Value = { Kept };

    ghost view = { λ a. kept_of (chain a.slots.items a.frames.items a.top) (segments a.slots.items a.frames.items a.points.items) };

    ghost invariant = { IsKept };
}

impl Entry {
    /// The choice, where it is a choice point's.
    #[inline(always)]
    fn choice(self) -> Option<Choice>
        ensures none { result ≡ None → (f : ForkOf) × (self ≡ Forking f) }
        ensures some { IfSome result (λ c. self ≡ Call c) }
    {
        match self {
            Entry::Call(choice) => Some(choice),
            Entry::Fork(_) => None,
        }
    }

    /// The fork, where it is one.
    fn fork(self) -> Option<Fork>
        ensures none { result ≡ None → (c : ChoiceOf) × (self ≡ Call c) }
        ensures some { IfSome result (λ f. self ≡ Forking f) }
    {
        match self {
            Entry::Call(_) => None,
            Entry::Fork(fork) => Some(fork),
        }
    }

    /// The same entry, and a choice point's names these clauses.
    fn with_place(self, place: u32, behind: Option<u32>) -> Entry
        ensures { result ≡ with_place place behind self }
    {
        match self {
            Entry::Call(choice) => Entry::Call(Choice {
                place,
                behind,
                ..choice
            }),
            Entry::Fork(fork) => Entry::Fork(fork),
        }
    }
}

/// The last entry, with what is kept for it.
#[inline(always)]
fn last_point(points: &[Point]) -> Option<Point>
    ensures none { result ≡ None → points.now ≡ [] }
    ensures some { IfSome result (λ q. (qs : List PointOf) × (points.now ≡ qs ++ q ∷ [])) }
{
    points.last().copied()
}

/// How many frames choice points and forks keep.
#[inline(always)]
fn kept_frames(points: &[Point]) -> u32
    ensures rising { (all : ℕ) → Rising 0 points.now all → Rising 0 points.now result }
    ensures few { (all : ℕ) → Rising 0 points.now all → result ≤ all }
{
    match last_point(points) {
        Some(point) => point.frames,
        None => 0,
    }
}

impl Environments {
    /// Takes no memory.
    pub fn new(alloc: Global) -> Environments
        ensures { result ≡ record { returns = []; moments = []; forks = [] } }
    {
        Environments {
            frames: Vec::new(alloc),
            slots: Vec::new(alloc),
            top: 0,
            points: Vec::new(alloc),
        }
    }

    /// Takes off all there is. The memory stays.
    pub fn clear(&mut self)
        ensures { self.new ≡ record { returns = []; moments = []; forks = [] } }
    {
        self.frames.clear();
        self.top = 0;
        self.points.clear();
    }

    /// Gives back the frames that no return, choice point or fork needs.
    fn trim(&mut self)
        ensures { self.new ≡ self.old }
    {
        let kept = kept_frames(&self.points);
        cut(&mut self.frames, self.top.max(kept) as usize);
    }

    /// Puts on a return to a place, with the registers of its environment.
    #[inline(always)]
    pub fn push(&mut self, place: u32, y: &[u32]) -> Result<(), NoMemory>
        ensures ok { OnOk result (self.new ≡ record self.old { returns = record { place = place; y = y.now } ∷ self.old.returns }) }
        ensures err { OnErr result (self.new ≡ self.old) }
    {
        self.top = push_frame(&mut self.frames, &mut self.slots, place, self.top, y)?;
        Ok(())
    }

    /// Takes off the innermost return, where there is one: its place, and its registers in the first ones of y.
    #[inline(always)]
    pub fn pop(&mut self, y: &mut [u32]) -> Option<u32>
        ensures none { result ≡ None → self.old.returns ≡ [] }
        ensures none_kept { result ≡ None → self.new ≡ self.old }
        ensures registers_kept { result ≡ None → y.new ≡ y.old }
        ensures some { IfSome result (λ place. (w : Return) × (ws : List Return) × (self.old.returns ≡ w ∷ ws) × (w.place ≡ place) × (self.new ≡ record self.old { returns = ws }) × ((n : ℕ) → length w.y ≤ length y.old → held y.new n ≡ held w.y n)) }
        ensures len { length y.new ≡ length y.old }
    {
        if self.top == 0 {
            return None;
        }
        let frame = self.frames[self.top as usize - 1];
        fill_y(y, registers_of(&self.slots, &frame));
        self.top = frame.up;
        self.trim();
        Some(frame.place)
    }

    /// Keeps this moment for a choice point, with argument registers.
    pub fn keep(&mut self, choice: Choice, arguments: &[u32]) -> Result<(), NoMemory>
        ensures ok { OnOk result (self.new ≡ record self.old { moments = record { choice = choice; returns = self.old.returns; arguments = arguments.now } ∷ self.old.moments }) }
        ensures err { OnErr result (self.new ≡ self.old) }
    {
        self.keep_entry(Entry::Call(choice), arguments)
    }

    /// Keeps this moment for a fork. The choice points that there are are older than it.
    pub fn keep_fork(&mut self, fork: Fork) -> Result<(), NoMemory>
        ensures ok { OnOk result (self.new ≡ record self.old { moments = []; forks = record { fork = fork; returns = self.old.returns; moments = self.old.moments } ∷ self.old.forks }) }
        ensures err { OnErr result (self.new ≡ self.old) }
    {
        self.keep_entry(Entry::Fork(fork), &[])
    }

    #[inline(always)]
    fn keep_entry(&mut self, entry: Entry, registers: &[u32]) -> Result<(), NoMemory>
        ensures ok { OnOk result (self.new ≡ kept_of self.old.returns (put_entry entry (record { place = 0; y = registers.now } ∷ self.old.returns) (segments_in self.old))) }
        ensures err { OnErr result (self.new ≡ self.old) }
    {
        make_room(&mut self.points)?;
        let frames = push_frame(&mut self.frames, &mut self.slots, 0, self.top, registers)?;
        self.points.push_reserved(Point { entry, frames });
        Ok(())
    }

    /// The newest choice point, where it is newer than each fork.
    #[inline(always)]
    pub fn newest(&self) -> Option<Choice>
        ensures none { result ≡ None → self.now.moments ≡ [] }
        ensures some { IfSome result (λ choice. (m : Moment) × (ms : List Moment) × (self.now.moments ≡ m ∷ ms) × (m.choice ≡ choice)) }
    {
        match last_point(&self.points) {
            Some(point) => point.entry.choice(),
            None => None,
        }
    }

    /// The newest fork, where no choice point is newer.
    pub fn newest_fork(&self) -> Option<Fork>
        ensures none { result ≡ None → self.now.moments ≡ [] → self.now.forks ≡ [] }
        ensures some { IfSome result (λ fork. (self.now.moments ≡ []) × (f : Forked) × (fs : List Forked) × (self.now.forks ≡ f ∷ fs) × (f.fork ≡ fork)) }
    {
        match last_point(&self.points) {
            Some(point) => point.entry.fork(),
            None => None,
        }
    }

    /// Goes back to the newest choice point, which is still kept, with its arguments in the first registers of x. Without
    /// one it changes nothing.
    #[inline(always)]
    pub fn go_back(&mut self, x: &mut [u32])
        ensures back { (m : Moment) (ms : List Moment) → self.old.moments ≡ m ∷ ms → self.new ≡ record self.old { returns = m.returns } }
        ensures arguments { (m : Moment) (ms : List Moment) → self.old.moments ≡ m ∷ ms → length m.arguments ≤ length x.old → (n : ℕ) → held x.new n ≡ held m.arguments n }
        ensures none { self.old.moments ≡ [] → self.new ≡ self.old }
        ensures registers_kept { self.old.moments ≡ [] → x.new ≡ x.old }
        ensures len { length x.new ≡ length x.old }
    {
        if self.newest().is_none() {
            return;
        }
        if let Some(point) = last_point(&self.points) {
            let frame = self.frames[point.frames as usize - 1];
            fill_x(x, registers_of(&self.slots, &frame));
            self.top = frame.up;
            self.trim();
        }
    }

    /// Goes back to the newest fork, which is still kept. Without one it changes nothing.
    pub fn go_back_to_fork(&mut self)
        requires newest { self.old.moments ≡ [] }
        ensures back { (f : Forked) (fs : List Forked) → self.old.forks ≡ f ∷ fs → self.new ≡ record self.old { returns = f.returns } }
        ensures none { self.old.forks ≡ [] → self.new ≡ self.old }
    {
        if let Some(point) = last_point(&self.points) {
            self.top = self.frames[point.frames as usize - 1].up;
            self.trim();
        }
    }

    /// Takes off all returns that are waited for.
    pub fn leave(&mut self)
        ensures { self.new ≡ record self.old { returns = [] } }
    {
        self.top = 0;
        self.trim();
    }

    /// Takes off so many returns, or all, where there are fewer.
    pub fn leave_some(&mut self, n: usize)
        ensures { self.new ≡ record self.old { returns = drop n self.old.returns } }
    {
        self.top = above(&self.frames, self.top, n);
        self.trim();
    }

    /// Goes back to the newest fork, which is still kept, and takes off as many returns as it has goals. Without one it
    /// changes nothing.
    pub fn go_behind_goals(&mut self)
        requires newest { self.old.moments ≡ [] }
        ensures behind { (f : Forked) (fs : List Forked) → self.old.forks ≡ f ∷ fs → self.new ≡ record self.old { returns = drop f.fork.goals f.returns } }
        ensures none { self.old.forks ≡ [] → self.new ≡ self.old }
    {
        let Some(fork) = self.newest_fork() else {
            return;
        };
        self.go_back_to_fork();
        self.leave_some(fork.goals as usize);
    }

    /// A goal of the newest fork, the first of which is on top: its return's place and registers. None past the last one.
    pub fn goal(&self, i: usize) -> Option<(u32, &[u32])>
        requires newest { self.now.moments ≡ [] }
        ensures some { IfSome result (λ g. (f : Forked) × (fs : List Forked) × (w : Return) × (self.now.forks ≡ f ∷ fs) × (i < f.fork.goals) × (slice_get f.returns i ≡ Some w) × (w.place ≡ g.0) × (w.y ≡ g.1.now)) }
        ensures none { result ≡ None → (f : Forked) (fs : List Forked) → self.now.forks ≡ f ∷ fs → i < f.fork.goals → slice_get f.returns i ≡ None }
    {
        let Some(fork) = self.newest_fork() else {
            return None;
        };
        if i >= fork.goals as usize {
            return None;
        }
        let Some(point) = last_point(&self.points) else {
            return None;
        };
        let up = self.frames[point.frames as usize - 1].up;
        let top = above(&self.frames, up, i);
        if top == 0 {
            return None;
        }
        let frame = self.frames[top as usize - 1];
        Some((frame.place, registers_of(&self.slots, &frame)))
    }

    /// The newest choice point names these clauses. Without one it changes nothing.
    pub fn set_place(&mut self, place: u32, behind: Option<u32>)
        ensures none { self.old.moments ≡ [] → self.new ≡ self.old }
        ensures newest { (m : Moment) (ms : List Moment) → self.old.moments ≡ m ∷ ms → self.new ≡ record self.old { moments = record { choice = record m.choice { place = place; behind = behind }; returns = m.returns; arguments = m.arguments } ∷ ms } }
    {
        let Some(point) = last_point(&self.points) else {
            return;
        };
        let last = self.points.len() - 1;
        let entry = point.entry.with_place(place, behind);
        self.points[last] = Point { entry, ..point };
    }

    /// Forgets the newest choice point. Without one it changes nothing.
    pub fn forget(&mut self)
        ensures none { self.old.moments ≡ [] → self.new ≡ self.old }
        ensures newest { (m : Moment) (ms : List Moment) → self.old.moments ≡ m ∷ ms → self.new ≡ record self.old { moments = ms } }
    {
        if self.newest().is_some() {
            self.points.pop();
            self.trim();
        }
    }

    /// Forgets the newest fork, and gives back the frames that it alone kept. Without one it changes nothing.
    pub fn forget_fork(&mut self)
        requires newest { self.old.moments ≡ [] }
        ensures some { (f : Forked) (fs : List Forked) → self.old.forks ≡ f ∷ fs → self.new ≡ record self.old { moments = f.moments; forks = fs } }
        ensures none { self.old.forks ≡ [] → self.new ≡ self.old }
    {
        self.points.pop();
        self.trim();
    }
}
