//! Events of two goals, the right one of which may run two more, in an order that stands for all that lead to the same state.

use Kind::{
    Answer, Break, Drain, Fail as Fails, Forget, Fork, Infer, Join, Raise, Redo, Replay, Restart,
    Spend, Start, Stop, Stopped,
};
use ap_core::Kind;
use std::alloc::{AllocError, Global};

/// An event as a number: five times its kind's place in `KINDS`, and its path's place in `PATHS`.
pub(crate) type Code = u8;

/// The number behind the last event.
pub(crate) const CODES: Code = 80;

/// The root, its goals, and those of the second one.
static PATHS: [&[usize]; 5] = [&[], &[1], &[2], &[2, 1], &[2, 2]];

const RIGHT: u8 = 2;

static KINDS: [Kind; 16] = [
    Infer, Fork, Start, Answer, Fails, Spend, Join, Break, Redo, Restart, Raise, Drain, Replay,
    Forget, Stop, Stopped,
];

const FORKS: u8 = 1;

const STARTS: u8 = 2;

const ANSWERS: u8 = 3;

const FAILS: u8 = 4;

const REDOES: u8 = 8;

const RESTARTS: u8 = 9;

const REPLAYS: u8 = 12;

const FORGETS: u8 = 13;

const STOPS: u8 = 14;

const STOPPED: u8 = 15;

fn kind_in(code: Code) -> u8 {
    code / 5
}

fn path_in(code: Code) -> u8 {
    code % 5
}

/// The kind and the path of an event.
pub(crate) fn event_of(code: Code) -> Option<(Kind, &'static [usize])> {
    let kind = KINDS.get(usize::from(kind_in(code)))?;
    let path = PATHS.get(usize::from(path_in(code)))?;
    Some((*kind, *path))
}

/// Whether a path leads to another one's task, or to one that this runs.
fn is_within(path: u8, other: u8) -> bool {
    path == other || other == 0 || (other == RIGHT && path > RIGHT)
}

/// Whether two events may come in either order: neither one's task runs the other's, or a record is given up beside its goal's work.
fn are_apart(a: Code, b: Code) -> bool {
    let (above, below) = if is_within(path_in(a), path_in(b)) {
        (b, a)
    } else {
        (a, b)
    };
    if path_in(above) == path_in(below) {
        return (kind_in(above) == FORGETS) != (kind_in(below) == FORGETS);
    }
    kind_in(above) == FORGETS || !is_within(path_in(below), path_in(above))
}

/// The other goal of the same frame.
fn beside(path: u8) -> u8 {
    match path {
        1 => 2,
        2 => 1,
        3 => 4,
        _ => 3,
    }
}

/// The kinds of the last two events of a path, the last one first.
fn last_two(events: &[Code], path: u8) -> (u8, u8) {
    let mut two = (CODES, CODES);
    for code in events {
        if path_in(*code) == path && kind_in(*code) != FORGETS {
            two = (kind_in(*code), two.0);
        }
    }
    two
}

/// Whether the goal was given back, and not begun anew.
fn is_given_back(events: &[Code], path: u8) -> bool {
    last_two(events, path) == (STOPPED, STARTS)
}

/// Whether the path's goal was begun, by one kind of event, in the frame that is open there, and not ended by another kind.
fn is_between(events: &[Code], path: u8, begins: u8, ends: u8) -> bool {
    let mut is_begun = false;
    for code in events {
        if path_in(*code) == path {
            is_begun = kind_in(*code) == begins || (is_begun && kind_in(*code) != ends);
        } else if is_within(path, path_in(*code)) {
            is_begun = false;
        }
    }
    is_begun
}

/// Whether a goal that stops now is given back: it runs in the first round, and nobody asked it to stop.
fn gives_back(events: &[Code], code: Code) -> bool {
    kind_in(code) == STOPPED && is_between(events, path_in(code), STARTS, STOPS)
}

/// Whether the record of the goal's answers was given up, in the frame that is open there.
fn is_forgotten(events: &[Code], path: u8) -> bool {
    let mut is_forgotten = false;
    for code in events {
        if path_in(*code) == path {
            is_forgotten |= kind_in(*code) == FORGETS;
        } else if is_within(path, path_in(*code)) && kind_in(*code) == FORKS {
            is_forgotten = false;
        }
    }
    is_forgotten
}

/// Whether the record of the goal's answers may be given up: once, where the goal and the one beside it have answered.
fn may_forget(events: &[Code], path: u8) -> bool {
    path > 0
        && last_two(events, path).0 == ANSWERS
        && last_two(events, beside(path)).0 == ANSWERS
        && !is_forgotten(events, path)
}

/// Whether workers may bring an event about: a goal is asked to stop only where the one beside it has failed, and goals come again
/// once behind a redo.
pub(crate) fn may_come(events: &[Code], code: Code) -> bool {
    let path = path_in(code);
    match kind_in(code) {
        STOPS => path > 0 && is_between(events, beside(path), FAILS, FAILS),
        FORGETS => may_forget(events, path),
        RESTARTS => last_two(events, path).0 == REDOES,
        REPLAYS => matches!(last_two(events, path).0, REDOES | RESTARTS),
        _ => true,
    }
}

/// Whether the root has failed by it, which ends a schedule.
pub(crate) fn is_last(code: Code) -> bool {
    kind_in(code) == FAILS && path_in(code) == 0
}

/// Whether an event leads on: no state is to have none of these before the search's end.
pub(crate) fn leads_on(events: &[Code], code: Code) -> bool {
    kind_in(code) < FORGETS || (kind_in(code) == STOPPED && !gives_back(events, code))
}

/// Where an event stands among others, the last of which may come behind it: so that they come first as numbers.
fn place_of(events: &[Code], code: Code) -> usize {
    let mut place = None;
    for i in 0..events.len() {
        if !are_apart(events[i], code) {
            place = None;
        } else if place.is_none() && events[i] > code {
            place = Some(i);
        }
    }
    place.unwrap_or(events.len())
}

/// Puts an event behind others, into the order that stands for all.
fn with_event(alloc: Global, events: &[Code], code: Code) -> Result<Vec<Code>, AllocError> {
    let place = place_of(events, code);
    let mut all = Vec::new(alloc);
    for i in 0..events.len() {
        if i == place {
            all.push(code)?;
        }
        all.push(events[i])?;
    }
    if place >= events.len() {
        all.push(code)?;
    }
    Ok(all)
}

/// Where the last beginning of a path's goal stands.
fn start_of(events: &[Code], path: u8) -> usize {
    let mut start = events.len();
    for i in 0..events.len() {
        if path_in(events[i]) == path && kind_in(events[i]) == STARTS {
            start = i;
        }
    }
    start
}

/// Whether an event is of a path's goal or of those that it runs, and isn't that by which the goal's record is given up.
fn is_work(code: Code, path: u8) -> bool {
    is_within(path_in(code), path) && (path_in(code) != path || kind_in(code) != FORGETS)
}

/// Leaves out what a path's goal did from the first event of a place on.
fn without_work(
    alloc: Global,
    events: &[Code],
    path: u8,
    first: usize,
) -> Result<Vec<Code>, AllocError> {
    let mut left = Vec::new(alloc);
    for i in 0..events.len() {
        if i < first || !is_work(events[i], path) {
            left = with_event(alloc, left.as_slice(), events[i])?;
        }
    }
    Ok(left)
}

/// The history with one more event. Of a goal that is given back only its beginning is left, and nothing where it begins anew.
pub(crate) fn followed(
    alloc: Global,
    events: &[Code],
    code: Code,
) -> Result<Vec<Code>, AllocError> {
    let path = path_in(code);
    let start = start_of(events, path);
    if gives_back(events, code) {
        let left = without_work(alloc, events, path, start.saturating_add(1))?;
        return with_event(alloc, left.as_slice(), code);
    }
    if kind_in(code) == STARTS && is_given_back(events, path) {
        let left = without_work(alloc, events, path, start)?;
        return with_event(alloc, left.as_slice(), code);
    }
    with_event(alloc, events, code)
}
