//! What workers take from one another: it is counted, and a ticket that is stolen when its goal is offered no longer changes no line.

ghost use Rattle.std.specs.Prelude.{◌<◌, ◌≤◌};

use crate::cases::are_lines;
use crate::meeting::Meeting;
use ap_outside::{Gate, OpenGate, SteadySink};
use ap_top::{BOUNDS, Crew, End, Ended, answer};
use std::alloc::Global;
use std::random::RandomSource;
use std::sync::Wait;
use std::test::Fail;
use std::thread::Threads;

/// The first time f fails while another worker has u, which has offered goals of its own: they are taken back, and their tickets stay
/// where they are stolen. The second time there is one answer.
const LEFT: &str =
    "q(X) :- c(X), g(X). c(1). c(2). g(X) :- f(X) & u. f(X) :- w(40), X > 1. u :- l & l & l & l & l & l & l & l & l & l & l & l & l & l & l & l & l & l & l & l & l & l & l & l & l & l & l & l & l & l & l & l. l :- w(300). w(0). w(N) :- N > 0, M is N - 1, w(M).";

/// How a query ends that puts these lines; none where it puts others, or ends in another way.
fn found<R: Threads + Wait + RandomSource + Sync, G: Gate>(
    rt: &R,
    alloc: Global,
    gate: &G,
    program: &str,
    query: &str,
    put: &str,
    workers: u32,
    pads: u32,
) -> Option<Ended>
    requires workers { (0 < workers) × (workers ≤ 32) }
    requires pads { (0 < pads) × (pads ≤ 1024) }
{
    let crew = Crew { rt, gate, workers };
    let mut out = SteadySink::new(alloc);
    let answered = answer(
        alloc,
        &crew,
        program.as_bytes(),
        query.as_bytes(),
        BOUNDS,
        &mut out,
        pads,
    );
    let Ok(Some(ended)) = answered else {
        return None;
    };
    if ended.end == End::NoMore && are_lines(out.pieces(), put) {
        return Some(ended);
    }
    None
}

/// How many tickets are stolen in vain in a run of these lines, where f waits until u has begun; none where the lines are others.
fn stale<R: Threads + Wait + RandomSource + Sync>(
    rt: &R,
    alloc: Global,
    workers: u32,
    pads: u32,
) -> Option<u64>
    requires workers { (0 < workers) × (workers ≤ 32) }
    requires pads { (0 < pads) × (pads ≤ 1024) }
{
    let put = "X = 2\n";
    let ended = if workers == 1 {
        found(rt, alloc, &OpenGate, LEFT, "?- q(X).", put, workers, pads)?
    } else {
        let gate = Meeting::new(2, 0);
        found(rt, alloc, &gate, LEFT, "?- q(X).", put, workers, pads)?
    };
    Some(ended.stolen.saturating_sub(ended.taken))
}

#[test]
fn what_is_stolen_changes_no_line(rt: HostRuntime) -> Result<(), Fail> {
    for workers in [1, 2, 32] {
        for pads in [1, 2, 64] {
            for _ in 0..10 {
                assert!(&rt;
                    stale(&rt, rt.alloc(), workers, pads).is_some(),
                    "{workers} workers, {pads} pads"
                );
            }
        }
    }
    Ok(())
}

/// Whether in one of many runs on 32 workers a ticket is stolen in vain.
fn meets_stale<R: Threads + Wait + RandomSource + Sync>(rt: &R, alloc: Global, pads: u32) -> bool
    requires pads { (0 < pads) × (pads ≤ 1024) }
{
    for _ in 0..2000 {
        match stale(rt, alloc, 32, pads) {
            Some(0) => {}
            Some(_) => return true,
            None => return false,
        }
    }
    false
}

#[test]
fn tickets_of_goals_that_were_taken_back_are_stolen(rt: HostRuntime) -> Result<(), Fail> {
    assert!(&rt; meets_stale(&rt, rt.alloc(), 2));
    assert!(&rt; meets_stale(&rt, rt.alloc(), 64));
    Ok(())
}

// Each goal waits at the gate until both have begun.
#[test]
fn goals_that_are_taken_are_counted(rt: HostRuntime) -> Result<(), Fail> {
    let gate = Meeting::new(2, 0);
    let ended = found(
        &rt,
        rt.alloc(),
        &gate,
        "g :- a & b. a. b.",
        "?- g.",
        "true\n",
        2,
        64,
    );
    assert!(&rt; matches!(ended, Some(Ended { taken: 1, .. })));
    Ok(())
}
