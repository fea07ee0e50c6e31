// Returns, choice points and forks from the outside: one list of steps, with what is seen behind each.
use ap_environments::{Choice, Environments, Fork};
use std::test::Fail;

#[derive(Clone, Copy)]
enum Step {
    Push(u32),
    /// The place that is come back to.
    Pop(Option<u32>),
    /// The predicate that is called.
    Keep(u32),
    /// How many goals there are.
    KeepFork(u8),
    GoBack,
    /// To the newest fork.
    GoUp,
    Name(u32),
    Forget,
    ForgetFork,
}

use Step::{Forget, ForgetFork, GoBack, GoUp, Keep, KeepFork, Name, Pop, Push};

/// What is seen: the newest choice point's predicate and clause, and how many goals the newest fork has.
type Seen = (Option<(u32, u32)>, Option<u8>);

static ROWS: [(Step, Seen); 36] = [
    (Pop(None), (None, None)),
    // without an entry nothing is changed
    (Push(1), (None, None)),
    (GoBack, (None, None)),
    (GoUp, (None, None)),
    (Name(5), (None, None)),
    (Forget, (None, None)),
    (ForgetFork, (None, None)),
    // a choice point, and above it a fork, which hides it
    (Keep(10), (Some((10, 0)), None)),
    (Push(2), (Some((10, 0)), None)),
    (KeepFork(2), (None, Some(2))),
    (GoBack, (None, Some(2))),
    (Name(5), (None, Some(2))),
    (Forget, (None, Some(2))),
    // it keeps the return that was taken off
    (Pop(Some(2)), (None, Some(2))),
    (Pop(Some(1)), (None, Some(2))),
    (Pop(None), (None, Some(2))),
    (Push(3), (None, Some(2))),
    (Keep(11), (Some((11, 0)), None)),
    (Name(6), (Some((11, 6)), None)),
    (Pop(Some(3)), (Some((11, 6)), None)),
    (GoBack, (Some((11, 6)), None)),
    (Pop(Some(3)), (Some((11, 6)), None)),
    // a fork above a fork, with no return
    (KeepFork(3), (None, Some(3))),
    (Push(4), (None, Some(3))),
    (GoUp, (None, Some(3))),
    (Pop(None), (None, Some(3))),
    (ForgetFork, (Some((11, 6)), None)),
    (Forget, (None, Some(2))),
    // back to the older one
    (GoUp, (None, Some(2))),
    (Pop(Some(2)), (None, Some(2))),
    (ForgetFork, (Some((10, 0)), None)),
    (Pop(Some(1)), (Some((10, 0)), None)),
    (GoBack, (Some((10, 0)), None)),
    (Pop(Some(1)), (Some((10, 0)), None)),
    (Forget, (None, None)),
    (Pop(None), (None, None)),
];

fn choice(predicate: u32) -> Choice {
    Choice {
        cells: 0,
        trail: 0,
        predicate,
        place: 0,
        behind: None,
    }
}

fn fork(goals: u8) -> Fork {
    Fork {
        cells: 0,
        trail: 0,
        goals,
    }
}

fn go_up(environments: &mut Environments) {
    if environments.newest().is_none() {
        environments.go_back_to_fork();
    }
}

fn forget_fork(environments: &mut Environments) {
    if environments.newest().is_none() {
        environments.forget_fork();
    }
}

fn seen(environments: &Environments) -> Seen {
    let clause = match environments.newest() {
        Some(choice) => Some((choice.predicate, choice.place)),
        None => None,
    };
    let goals = match environments.newest_fork() {
        Some(fork) => Some(fork.goals),
        None => None,
    };
    (clause, goals)
}

// The registers are set by each step that gives them back.
fn is_popped(environments: &mut Environments, wanted: Option<u32>) -> bool {
    let mut registers = [0; 2];
    let came = environments.pop(&mut registers);
    match came {
        Some(place) => came == wanted && registers == [place, 7],
        None => wanted.is_none(),
    }
}

fn is_back(environments: &mut Environments) -> bool {
    let mut registers = [0; 2];
    environments.go_back(&mut registers);
    match environments.newest() {
        Some(newest) => registers == [newest.predicate, 8],
        None => true,
    }
}

/// Does a step, and says whether the registers and places that it gives back are those that were kept.
fn is_done(environments: &mut Environments, step: Step) -> Result<bool, Fail> {
    match step {
        Push(place) => environments.push(place, &[place, 7])?,
        Pop(place) => return Ok(is_popped(environments, place)),
        Keep(predicate) => environments.keep(choice(predicate), &[predicate, 8])?,
        KeepFork(goals) => environments.keep_fork(fork(goals))?,
        GoBack => return Ok(is_back(environments)),
        GoUp => go_up(environments),
        Name(place) => environments.set_place(place, None),
        Forget => environments.forget(),
        ForgetFork => forget_fork(environments),
    }
    Ok(true)
}

#[test]
fn steps_in_turn(rt: HostRuntime) -> Result<(), Fail> {
    let mut environments = Environments::new(rt.alloc());
    for (row, (step, wanted)) in ROWS.iter().enumerate() {
        assert!(rt; is_done(&mut environments, *step)?, "{row}");
        assert_eq!(rt; seen(&environments), *wanted, "{row}");
    }
    Ok(())
}
