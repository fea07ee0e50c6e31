// A frame from its opening to its first join, by its calls, with ample memory.
ghost use Rattle.std.specs.Prelude.{◌≡◌, true, false, Some, None};
ghost use Rattle.ap_frames.specs.Slots.{is_startable, is_running, is_recording};
ghost use Rattle.ap_frames.specs.Rows.{row, IsPlace, slot_at, of_slot};

use ap_frames::{Frame, Kept, Recording, Stand, Verdict};
use std::alloc::Global;
use std::test::Fail;

type Pair = Frame<u32, u32>;

fn is_place(frame: &Pair, i: usize) -> bool
    ensures { result ≡ true → IsPlace i (row frame.now) }
{
    0 < i && i <= frame.slots.len()
}

fn may_start(frame: &Pair, i: usize) -> bool
    requires { IsPlace i (row frame.now) }
    ensures { result ≡ of_slot is_startable false (slot_at i (row frame.now)) }
{
    matches!(frame.slots[i - 1].stand, Stand::Ready | Stand::GivenBack)
}

fn runs(frame: &Pair, i: usize) -> bool
    requires { IsPlace i (row frame.now) }
    ensures { result ≡ of_slot is_running false (slot_at i (row frame.now)) }
{
    matches!(frame.slots[i - 1].stand, Stand::Running(_))
}

fn records(frame: &Pair, i: usize) -> bool
    requires { IsPlace i (row frame.now) }
    ensures { result ≡ of_slot is_recording false (slot_at i (row frame.now)) }
{
    matches!(frame.slots[i - 1].recording, Recording::Growing)
}

#[tactic(auto, using(crate::proofs::At::at_rules))]
fn start(frame: &mut Pair, i: usize) -> bool {
    if !is_place(frame, i) {
        return false;
    }
    if !may_start(frame, i) {
        return false;
    }
    frame.set_running(i);
    true
}

/// A slot that runs comes to an answer, which is its section, too.
#[tactic(auto, using(crate::proofs::At::at_rules))]
fn answer(frame: &mut Pair, i: usize, number: u32, more: bool) -> bool {
    if !is_place(frame, i) {
        return false;
    }
    if !runs(frame, i) {
        return false;
    }
    frame.put_answer(i, number, 1, more);
    true
}

#[tactic(auto, using(crate::proofs::At::at_rules))]
fn keep(frame: &mut Pair, alloc: Global, i: usize, number: u32) -> Option<Kept> {
    if !is_place(frame, i) {
        return None;
    }
    if !records(frame, i) {
        return None;
    }
    if !frame.is_to_keep(i) {
        return None;
    }
    frame.keep(alloc, i, number).ok()
}

#[test]
fn opens_and_keeps(rt: HostRuntime) -> Result<(), Fail> {
    let mut frame: Pair = Frame::open(Vec::new(rt.alloc()), 2, 10, &[false, true])?;
    assert!(rt; start(&mut frame, 2));
    assert!(rt; start(&mut frame, 1));
    assert!(rt; !start(&mut frame, 1));
    assert_eq!(rt; frame.verdict(), Verdict::Wait);
    assert!(rt; answer(&mut frame, 2, 1, true));
    assert!(rt; answer(&mut frame, 1, 1, true));
    assert_eq!(rt; frame.verdict(), Verdict::Joined(2));
    assert_eq!(rt; frame.next_redo(), Some(2));
    // the leftmost slot's answers are never stored
    assert_eq!(rt; keep(&mut frame, rt.alloc(), 1, 1), None);
    assert_eq!(rt; keep(&mut frame, rt.alloc(), 2, 1), Some(Kept::Kept));
    frame.close();
    assert_eq!(rt; frame.verdict(), Verdict::Wait);
    Ok(())
}
