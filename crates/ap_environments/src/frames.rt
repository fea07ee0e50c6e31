//! Frames: registers that were saved, with a place and the frame above which they were put on.

ghost use Rattle.std.specs.Prelude.{◌≡◌, ℕ, ◌+◌, ◌<◌, ◌≤◌, List, ◌∷◌, [], ◌++◌, length, vec_len, vec_capacity, take, drop, IfOk, OnOk, OnErr};
ghost use Rattle.ap_steps.specs.Moves.{held};
ghost use Rattle.ap_environments.specs.Frames.{Laid, LeadUp, AreFrames, chain, chains};

use crate::environments::Frame;
use crate::registers::{clear_x, clear_y, copy_few};
use ap_term::NoMemory;

/// The most that 32 bits count.
const MOST: usize = u32::MAX as usize;

/// So many slots are put on beyond those that are needed.
const MORE: usize = 256;

/// Where the registers of the last frame end.
#[inline(always)]
fn end_of(frames: &[Frame]) -> usize
    ensures { (end : ℕ) → Laid 0 frames.now end → result ≡ end }
{
    match frames.last().copied() {
        Some(frame) => frame.first as usize + frame.count as usize,
        None => 0,
    }
}

/// Puts registers into slots from one on.
#[inline(always)]
fn write_from(slots: &mut [u32], first: usize, registers: &[u32])
    requires { first + length registers.now ≤ length slots.old }
    ensures { slots.new ≡ take first slots.old ++ (registers.now ++ drop (first + length registers.now) slots.old) }
{
    let (_, behind) = slots.split_at_mut(first);
    let (place, _) = behind.split_at_mut(registers.len());
    copy_few(place, registers);
}

/// Puts registers into all slots from one on.
#[inline(always)]
fn write(slots: &mut Vec<u32>, first: usize, registers: &[u32])
    requires { first + length registers.now ≤ vec_len slots.old }
    ensures { slots.new.items ≡ take first slots.old.items ++ (registers.now ++ drop (first + length registers.now) slots.old.items) }
{
    write_from(slots.as_mut_slice(), first, registers);
}

/// Makes room for one more. Where there is room already that is one comparison.
#[inline(always)]
pub fn make_room<T>(items: &mut Vec<T>) -> Result<(), NoMemory>
    ensures items { items.new.items ≡ items.old.items }
    ensures len { vec_len items.new ≡ vec_len items.old }
    ensures room { OnOk result (vec_len items.new < vec_capacity items.new) }
{
    if items.len() < items.capacity() {
        return Ok(());
    }
    items.reserve(1)?;
    Ok(())
}

/// Puts a frame behind the others, and answers its number, counted from 1. Slots behind the last frame's are written over.
#[inline(always)]
pub fn push_frame(
    frames: &mut Vec<Frame>,
    slots: &mut Vec<u32>,
    place: u32,
    up: u32,
    registers: &[u32],
) -> Result<u32, NoMemory>
    requires are_frames { AreFrames slots.old.items frames.old.items }
    requires up { up ≤ length frames.old.items }
    ensures chains { OnOk result (chains slots.new.items frames.new.items ≡ chains slots.old.items frames.old.items ++ (record { place = place; y = registers.now } ∷ chain slots.old.items frames.old.items up) ∷ []) }
    ensures number { IfOk result (λ n. n ≡ length frames.old.items + 1) }
    ensures len { OnOk result (length frames.new.items ≡ length frames.old.items + 1) }
    ensures are_frames { OnOk result (AreFrames slots.new.items frames.new.items) }
    ensures frames_kept { OnErr result (frames.new.items ≡ frames.old.items) }
    ensures slots_kept { OnErr result (slots.new.items ≡ slots.old.items) }
{
    let first = end_of(frames);
    if frames.len() >= MOST || first > MOST || registers.len() > MOST - first {
        return Err(NoMemory);
    }
    let number = frames.len() as u32 + 1;
    let frame = Frame {
        place,
        up,
        first: first as u32,
        count: registers.len() as u32,
    };
    make_room(frames)?;
    let end = first + registers.len();
    if end > slots.len() {
        slots.resize(end + MORE, 0)?;
    }
    write(slots, first, registers);
    frames.push_reserved(frame);
    Ok(number)
}

/// Takes off the frames behind the first n. Their slots stay, and will be written over.
#[inline(always)]
pub fn cut(frames: &mut Vec<Frame>, n: usize)
    ensures chains { (ss : List ℕ) → chains ss frames.new.items ≡ take (n + 1) (chains ss frames.old.items) }
    ensures frames { frames.new.items ≡ take n frames.old.items }
    ensures are_frames { (ss : List ℕ) → AreFrames ss frames.old.items → AreFrames ss frames.new.items }
{
    if n < frames.len() {
        frames.truncate(n);
    }
}

/// The frame that is so many frames above another one, each counted from 1; 0 where there are fewer.
pub fn above(frames: &[Frame], top: u32, n: usize) -> u32
    requires up { LeadUp 0 frames.now }
    requires top { top ≤ length frames.now }
    ensures chain { (ss : List ℕ) → chain ss frames.now result ≡ drop n (chain ss frames.now top) }
    ensures top { result ≤ length frames.now }
{
    let mut up = top;
    for _ in 0..n {
        if up == 0 {
            return 0;
        }
        up = frames[up as usize - 1].up;
    }
    up
}

/// The registers that a frame saved.
pub fn registers_of<'a>(slots: &'a [u32], frame: &Frame) -> &'a [u32]
    requires { frame.now.first + frame.now.count ≤ length slots.now }
    ensures { result.now ≡ take frame.now.count (drop frame.now.first slots.now) }
{
    let first = frame.first as usize;
    &slots[first..first + frame.count as usize]
}

/// Puts places into the first Y registers, as far as there are registers, and 0 into the others.
#[inline(always)]
pub fn fill_y(registers: &mut [u32], places: &[u32])
    ensures held { (w : ℕ) → length places.now ≤ length registers.old → held registers.new w ≡ held places.now w }
    ensures len { length registers.new ≡ length registers.old }
{
    let count = places.len().min(registers.len());
    let (first, others) = registers.split_at_mut(count);
    copy_few(first, &places[..count]);
    clear_y(others);
}

/// Puts places into the first X registers, as far as there are registers, and 0 into the others.
#[inline(always)]
pub fn fill_x(registers: &mut [u32], places: &[u32])
    ensures held { (w : ℕ) → length places.now ≤ length registers.old → held registers.new w ≡ held places.now w }
    ensures len { length registers.new ≡ length registers.old }
{
    clear_x(registers);
    let count = places.len().min(registers.len());
    let (first, _) = registers.split_at_mut(count);
    copy_few(first, &places[..count]);
}
