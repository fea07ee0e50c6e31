// Verdicts and redos from the outside: frames of up to four slots, with what was worked out by hand from the cases.
use ap_frames::Ending::{Failed, Raised, Spent, Stopped};
use ap_frames::{Answer, Ending, Frame, Recording, Round, Run, Slot, Stand, Verdict};
use ap_term::Fault::Overflow;
use std::test::Fail;

/// How a slot stands, in short.
#[derive(Clone, Copy)]
enum Seen {
    Nothing,
    Runs,
    /// Its cost, and whether a choice point is left.
    Has(u64, bool),
    Ends(Ending, u64),
}

use Seen::{Ends, Has, Nothing, Runs};

fn stand(seen: Seen) -> Stand<u32> {
    match seen {
        Nothing => Stand::Ready,
        Runs => Stand::Running(Run::First),
        Has(cost, has_more) => Stand::Answered(Answer {
            section: Some(7),
            cost,
            has_more,
        }),
        Ends(ending, cost) => Stand::Ended(ending, cost),
    }
}

fn slot((is_loud, seen): (bool, Seen)) -> Slot<u32, u32> {
    Slot {
        stand: stand(seen),
        is_loud,
        recording: Recording::Growing,
        tuples: None,
        mark: None,
    }
}

const QUIET: bool = false;

const LOUD: bool = true;

/// The round, the slots, the verdict, and the slot that would be redone. The rest is 10.
type Row = (Round, [Option<(bool, Seen)>; 4], Verdict, Option<usize>);

static ROWS: [Row; 37] = [
    // each slot has an answer, or may still come to one
    (
        Round::First,
        [Some((QUIET, Runs)), None, None, None],
        Verdict::Wait,
        None,
    ),
    (
        Round::First,
        [Some((QUIET, Nothing)), None, None, None],
        Verdict::Wait,
        None,
    ),
    (
        Round::First,
        [Some((QUIET, Has(3, false))), None, None, None],
        Verdict::Joined(3),
        None,
    ),
    (
        Round::First,
        [
            Some((QUIET, Has(3, true))),
            Some((QUIET, Has(4, false))),
            None,
            None,
        ],
        Verdict::Joined(7),
        Some(1),
    ),
    (
        Round::First,
        [
            Some((QUIET, Has(6, false))),
            Some((QUIET, Has(4, true))),
            None,
            None,
        ],
        Verdict::Joined(10),
        Some(2),
    ),
    (
        Round::First,
        [
            Some((QUIET, Has(6, false))),
            Some((QUIET, Has(5, false))),
            None,
            None,
        ],
        Verdict::Spent,
        None,
    ),
    (
        Round::First,
        [
            Some((QUIET, Has(1, true))),
            Some((LOUD, Has(2, true))),
            Some((QUIET, Has(3, false))),
            Some((QUIET, Has(4, true))),
        ],
        Verdict::Joined(10),
        Some(4),
    ),
    (
        Round::First,
        [
            Some((QUIET, Has(1, true))),
            Some((LOUD, Has(2, true))),
            Some((QUIET, Has(3, false))),
            Some((QUIET, Runs)),
        ],
        Verdict::Wait,
        Some(2),
    ),
    // the leftmost slot without an answer counts, and none right of it
    (
        Round::First,
        [
            Some((QUIET, Has(1, false))),
            Some((QUIET, Ends(Spent, 9))),
            Some((QUIET, Has(2, false))),
            None,
        ],
        Verdict::Spent,
        None,
    ),
    (
        Round::First,
        [
            Some((QUIET, Runs)),
            Some((QUIET, Ends(Spent, 10))),
            None,
            None,
        ],
        Verdict::Wait,
        None,
    ),
    (
        Round::First,
        [
            Some((QUIET, Has(2, false))),
            Some((QUIET, Ends(Stopped, 3))),
            Some((QUIET, Runs)),
            None,
        ],
        Verdict::Wait,
        None,
    ),
    (
        Round::First,
        [
            Some((LOUD, Ends(Raised(Overflow), 4))),
            Some((QUIET, Has(1, false))),
            None,
            None,
        ],
        Verdict::Raised(4, Overflow),
        None,
    ),
    (
        Round::First,
        [
            Some((QUIET, Has(7, false))),
            Some((LOUD, Ends(Raised(Overflow), 4))),
            Some((QUIET, Runs)),
            None,
        ],
        Verdict::Spent,
        None,
    ),
    (
        Round::First,
        [
            Some((QUIET, Runs)),
            Some((LOUD, Ends(Raised(Overflow), 4))),
            None,
            None,
        ],
        Verdict::Wait,
        None,
    ),
    // a slot has failed behind quiet ones
    (
        Round::First,
        [
            Some((QUIET, Ends(Failed, 2))),
            Some((QUIET, Runs)),
            None,
            None,
        ],
        Verdict::Broken(2),
        None,
    ),
    (
        Round::First,
        [
            Some((QUIET, Runs)),
            Some((QUIET, Ends(Failed, 2))),
            None,
            None,
        ],
        Verdict::Broken(0),
        None,
    ),
    (
        Round::First,
        [
            Some((QUIET, Has(3, true))),
            Some((LOUD, Ends(Failed, 2))),
            None,
            None,
        ],
        Verdict::Broken(5),
        Some(1),
    ),
    (
        Round::First,
        [
            Some((QUIET, Has(6, false))),
            Some((QUIET, Ends(Failed, 5))),
            None,
            None,
        ],
        Verdict::Spent,
        None,
    ),
    (
        Round::First,
        [
            Some((QUIET, Ends(Spent, 10))),
            Some((QUIET, Ends(Failed, 1))),
            None,
            None,
        ],
        Verdict::Broken(10),
        None,
    ),
    // behind loud ones
    (
        Round::First,
        [
            Some((LOUD, Runs)),
            Some((QUIET, Ends(Failed, 2))),
            None,
            None,
        ],
        Verdict::Wait,
        None,
    ),
    (
        Round::First,
        [
            Some((LOUD, Ends(Spent, 10))),
            Some((QUIET, Ends(Failed, 1))),
            None,
            None,
        ],
        Verdict::Spent,
        None,
    ),
    (
        Round::First,
        [
            Some((LOUD, Has(3, false))),
            Some((QUIET, Ends(Failed, 2))),
            None,
            None,
        ],
        Verdict::Broken(5),
        None,
    ),
    (
        Round::First,
        [
            Some((LOUD, Has(3, true))),
            Some((QUIET, Ends(Failed, 2))),
            None,
            None,
        ],
        Verdict::Drain(1, 5),
        Some(1),
    ),
    (
        Round::First,
        [
            Some((LOUD, Has(3, true))),
            Some((LOUD, Has(1, true))),
            Some((QUIET, Ends(Failed, 2))),
            None,
        ],
        Verdict::Drain(2, 4),
        Some(2),
    ),
    (
        Round::First,
        [
            Some((LOUD, Has(1, true))),
            Some((QUIET, Has(2, true))),
            Some((LOUD, Has(3, false))),
            Some((QUIET, Ends(Failed, 1))),
        ],
        Verdict::Drain(1, 3),
        Some(2),
    ),
    (
        Round::First,
        [
            Some((LOUD, Has(9, true))),
            Some((QUIET, Ends(Failed, 2))),
            None,
            None,
        ],
        Verdict::Spent,
        Some(1),
    ),
    (
        Round::First,
        [
            Some((QUIET, Has(1, true))),
            Some((LOUD, Has(2, true))),
            Some((QUIET, Runs)),
            Some((QUIET, Ends(Failed, 1))),
        ],
        Verdict::Wait,
        Some(2),
    ),
    (
        Round::First,
        [
            Some((QUIET, Has(1, false))),
            Some((LOUD, Ends(Raised(Overflow), 4))),
            Some((QUIET, Ends(Failed, 2))),
            None,
        ],
        Verdict::Raised(5, Overflow),
        None,
    ),
    // once slots were drained, what was charged before the newest of them ran on comes first
    (
        Round::Draining(6),
        [
            Some((LOUD, Has(3, true))),
            Some((LOUD, Runs)),
            Some((QUIET, Ends(Failed, 2))),
            None,
        ],
        Verdict::Wait,
        Some(1),
    ),
    (
        Round::Draining(6),
        [
            Some((LOUD, Has(3, true))),
            Some((LOUD, Ends(Failed, 1))),
            Some((QUIET, Ends(Failed, 2))),
            None,
        ],
        Verdict::Drain(1, 3),
        Some(1),
    ),
    (
        Round::Draining(6),
        [
            Some((LOUD, Has(3, false))),
            Some((LOUD, Ends(Failed, 4))),
            Some((QUIET, Ends(Failed, 2))),
            None,
        ],
        Verdict::Broken(10),
        None,
    ),
    (
        Round::Draining(6),
        [
            Some((LOUD, Has(3, true))),
            Some((LOUD, Ends(Raised(Overflow), 1))),
            Some((QUIET, Ends(Failed, 2))),
            None,
        ],
        Verdict::Raised(7, Overflow),
        Some(1),
    ),
    (
        Round::Draining(6),
        [
            Some((LOUD, Has(3, true))),
            Some((LOUD, Ends(Failed, 5))),
            Some((QUIET, Ends(Failed, 2))),
            None,
        ],
        Verdict::Spent,
        Some(1),
    ),
    // a later round breaks beside loud slots too
    (
        Round::Later(1),
        [
            Some((LOUD, Has(3, true))),
            Some((QUIET, Ends(Failed, 2))),
            None,
            None,
        ],
        Verdict::Broken(5),
        Some(1),
    ),
    (
        Round::Later(1),
        [
            Some((LOUD, Nothing)),
            Some((QUIET, Ends(Failed, 2))),
            None,
            None,
        ],
        Verdict::Broken(0),
        None,
    ),
    (
        Round::Later(1),
        [
            Some((QUIET, Has(0, false))),
            Some((QUIET, Has(4, true))),
            None,
            None,
        ],
        Verdict::Joined(4),
        Some(2),
    ),
    // a closed one has no verdict
    (
        Round::Closed,
        [
            Some((QUIET, Has(3, true))),
            Some((QUIET, Ends(Failed, 2))),
            None,
            None,
        ],
        Verdict::Wait,
        Some(1),
    ),
];

#[test]
fn verdicts(rt: HostRuntime) -> Result<(), Fail> {
    for (round, seen, verdict, redo) in ROWS {
        let mut slots = Vec::new(rt.alloc());
        for one in seen {
            if let Some(one) = one {
                slots.push(slot(one))?;
            }
        }
        let frame: Frame<u32, u32> = Frame {
            rest: 10,
            round,
            mark: None,
            slots,
        };
        assert_eq!(rt; frame.verdict(), verdict);
        assert_eq!(rt; frame.next_redo(), redo);
    }
    Ok(())
}
