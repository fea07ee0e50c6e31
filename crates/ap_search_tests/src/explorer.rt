//! All schedules of small programs by the core's events, whichever workers make them, and random ones.

use crate::histories::{CODES, Code, event_of, followed, is_last, leads_on, may_come};
use crate::programs::searched;
use crate::reading::{lines, new_atoms, program_of, query_of};
use crate::schedules::{LOUD_BY_NONE, Problem, THREE, TWO_BY_NONE, TWO_BY_TWO, core_of, make};
use ap_core::{Core, Status};
use std::alloc::Global;
use std::collections::HashSet;
use std::test::Fail;

/// What is searched, which events are tried, the first ones by number, and how sequential search ends with that budget, and its
/// answers.
struct Row {
    problem: Problem,
    budget: u64,
    codes: Code,
    wanted: &'static str,
    status: Status,
}

/// The core behind a history; none where an event of it isn't legal.
fn core_behind(alloc: Global, row: &Row, events: &[Code]) -> Result<Option<Core>, Fail> {
    let mut core = core_of(alloc, row.problem, row.budget)?;
    for code in events {
        if !is_legal(alloc, &mut core, *code)? {
            return Ok(None);
        }
    }
    Ok(Some(core))
}

/// Makes an event, and tells whether it is legal.
fn is_legal(alloc: Global, core: &mut Core, code: Code) -> Result<bool, Fail> {
    match event_of(code) {
        Some((kind, path)) => make(alloc, core, kind, path),
        None => Ok(false),
    }
}

/// The lines of what a core has emitted.
fn emitted(alloc: Global, row: &Row, core: &Core) -> Result<String, Fail> {
    let mut atoms = new_atoms(alloc)?;
    let program = program_of(alloc, row.problem.0, &mut atoms)?;
    let query = query_of(alloc, row.problem.1, &program, &mut atoms)?;
    lines(alloc, &query, core.emitted(), &atoms)
}

/// Where a schedule stands behind an event.
#[derive(Debug, Clone, Copy, PartialEq, Eq)]
enum Place {
    GoesOn,
    Ended,
    /// It ended with other answers, or otherwise.
    Wrong,
}

/// Where a schedule stands behind an event that was made.
fn place_behind(alloc: Global, row: &Row, core: &Core, code: Code) -> Result<Place, Fail> {
    if !is_last(code) && core.status() == Status::GoingOn {
        return Ok(Place::GoesOn);
    }
    if core.status() == row.status && emitted(alloc, row, core)?.as_str() == row.wanted {
        return Ok(Place::Ended);
    }
    Ok(Place::Wrong)
}

/// The histories that were met, those of them that aren't gone through yet, and how many events and ends there were.
#[derive(Drop)]
struct Found {
    seen: HashSet<Vec<Code>>,
    open: Vec<Vec<Code>>,
    events: u64,
    ends: u64,
}

impl Found {
    fn new(alloc: Global) -> Result<Found, Fail> {
        let mut found = Found {
            seen: HashSet::new(alloc),
            open: Vec::new(alloc),
            events: 0,
            ends: 0,
        };
        found.open.push(Vec::new(alloc))?;
        Ok(found)
    }

    /// Notes a history, to be gone through where it is new.
    fn meet(&mut self, alloc: Global, events: &[Code], code: Code) -> Result<(), Fail> {
        let history = followed(alloc, events, code)?;
        let copy = Vec::from_slice(alloc, history.as_slice())?;
        if self.seen.insert(copy)? {
            self.open.push(history)?;
        }
        Ok(())
    }

    /// Notes an event behind a history; whether it is right.
    fn note(
        &mut self,
        alloc: Global,
        events: &[Code],
        code: Code,
        place: Place,
    ) -> Result<bool, Fail> {
        self.events = self.events.saturating_add(1);
        match place {
            Place::GoesOn => self.meet(alloc, events, code)?,
            Place::Ended => self.ends = self.ends.saturating_add(1),
            Place::Wrong => return Ok(false),
        }
        Ok(true)
    }
}

/// Goes through the events behind a history; whether each is right, and one of them leads on.
fn goes_through(
    alloc: Global,
    row: &Row,
    events: &[Code],
    found: &mut Found,
) -> Result<bool, Fail> {
    let mut leads = false;
    let Some(mut core) = core_behind(alloc, row, events)? else {
        return Ok(false);
    };
    for code in 0..row.codes {
        if may_come(events, code) && is_legal(alloc, &mut core, code)? {
            let place = place_behind(alloc, row, &core, code)?;
            if !found.note(alloc, events, code, place)? {
                return Ok(false);
            }
            leads |= leads_on(events, code);
            let Some(again) = core_behind(alloc, row, events)? else {
                return Ok(false);
            };
            core = again;
        }
    }
    Ok(leads)
}

/// No more histories than that are gone through.
const MOST: usize = 1_000_000;

/// Goes through all schedules; what was found, and whether each ends, and as sequential search does.
fn explored(alloc: Global, row: &Row) -> Result<(Found, bool), Fail> {
    let mut found = Found::new(alloc)?;
    for _ in 0..MOST {
        let Some(events) = found.open.pop() else {
            let has_ended = found.ends > 0;
            return Ok((found, has_ended));
        };
        if !goes_through(alloc, row, events.as_slice(), &mut found)? {
            return Ok((found, false));
        }
    }
    Ok((found, false))
}

/// All events, and those by which no goal stops and no record is given up.
const ALL: Code = CODES;

const PLAIN: Code = 65;

const EIGHT: &str =
    "X = 0, Y = 0, Z = 0;X = 0, Y = 0, Z = 1;X = 0, Y = 1, Z = 0;X = 0, Y = 1, Z = 1;\
X = 1, Y = 0, Z = 0;X = 1, Y = 0, Z = 1;X = 1, Y = 1, Z = 0;X = 1, Y = 1, Z = 1;";

const PAIRS: &str = "X = 1, Y = 1;X = 1, Y = 2;X = 2, Y = 1;X = 2, Y = 2;";

const CANCELLED: Problem = ("t :- f & l. l :- l. f :- fail.", "?- t.");

static ROWS: [Row; 5] = [
    Row {
        problem: TWO_BY_TWO,
        budget: 100,
        codes: ALL,
        wanted: PAIRS,
        status: Status::GoingOn,
    },
    Row {
        problem: TWO_BY_NONE,
        budget: 100,
        codes: ALL,
        wanted: "",
        status: Status::GoingOn,
    },
    Row {
        problem: CANCELLED,
        budget: 3,
        codes: ALL,
        wanted: "",
        status: Status::GoingOn,
    },
    Row {
        problem: CANCELLED,
        budget: 2,
        codes: ALL,
        wanted: "",
        status: Status::NoBudget,
    },
    Row {
        problem: THREE,
        budget: 4,
        codes: PLAIN,
        wanted: "",
        status: Status::NoBudget,
    },
];

/// Searches of which random schedules are made.
static LARGE: [Row; 2] = [
    Row {
        problem: THREE,
        budget: 100,
        codes: ALL,
        wanted: EIGHT,
        status: Status::GoingOn,
    },
    Row {
        problem: LOUD_BY_NONE,
        budget: 100,
        codes: PLAIN,
        wanted: "",
        status: Status::GoingOn,
    },
];

/// Whether the answers of a row are those of sequential search.
fn is_sequential(alloc: Global, row: &Row) -> Result<bool, Fail> {
    let mut atoms = new_atoms(alloc)?;
    let program = program_of(alloc, row.problem.0, &mut atoms)?;
    let query = query_of(alloc, row.problem.1, &program, &mut atoms)?;
    let (_, found) = searched(alloc, &program, &query, row.budget)?;
    Ok(lines(alloc, &query, found.as_slice(), &atoms)?.as_str() == row.wanted)
}

#[test]
fn all_schedules_end_as_sequential_search_does(rt: HostRuntime) -> Result<(), Fail> {
    for row in &ROWS {
        let (_, is_right) = explored(rt.alloc(), row)?;
        assert!(rt; is_right, "{} {}", row.problem.0, row.budget);
        assert!(rt; is_sequential(rt.alloc(), row)?, "{}", row.problem.0);
    }
    Ok(())
}

/// The number behind another one, as Knuth's MMIX has it.
fn number_behind(number: u64) -> u64 {
    number
        .wrapping_mul(6_364_136_223_846_793_005)
        .wrapping_add(1_442_695_040_888_963_407)
}

/// Makes the first event, from one on in the order of their numbers, that is legal.
fn chosen(
    alloc: Global,
    row: &Row,
    core: &mut Core,
    events: &[Code],
    first: Code,
) -> Result<Option<Code>, Fail> {
    for k in 0..CODES {
        let code = first.wrapping_add(k) % CODES;
        if code < row.codes && may_come(events, code) && is_legal(alloc, core, code)? {
            return Ok(Some(code));
        }
    }
    Ok(None)
}

/// So many events of a random schedule are made.
const LONGEST: usize = 5_000;

/// Whether a random schedule ends as sequential search does, if it ends.
fn is_walked(alloc: Global, row: &Row, seed: u64) -> Result<bool, Fail> {
    let mut core = core_of(alloc, row.problem, row.budget)?;
    let mut events = Vec::new(alloc);
    let mut number = number_behind(seed);
    for _ in 0..LONGEST {
        number = number_behind(number);
        let first = (number >> 40) % u64::from(CODES);
        let Some(code) = chosen(alloc, row, &mut core, events.as_slice(), first as u8)? else {
            return Ok(false);
        };
        match place_behind(alloc, row, &core, code)? {
            Place::GoesOn => events = followed(alloc, events.as_slice(), code)?,
            Place::Ended => return Ok(true),
            Place::Wrong => return Ok(false),
        }
    }
    Ok(true)
}

#[test]
fn random_schedules_end_as_sequential_search_does(rt: HostRuntime) -> Result<(), Fail> {
    for row in &LARGE {
        for seed in 1..21 {
            assert!(rt;
                is_walked(rt.alloc(), row, seed)?,
                "{} seed {seed}",
                row.problem.0
            );
        }
        assert!(rt; is_sequential(rt.alloc(), row)?, "{}", row.problem.0);
    }
    Ok(())
}
