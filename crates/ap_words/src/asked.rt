//! What a command line asks for, by the texts that it gives to names.

ghost use Rattle.std.specs.Prelude.{◌≡◌, ◌≤◌, map, option_map, codes, IfSome};
ghost use Rattle.ap_words.specs.Values.{given, value_of};
ghost use Rattle.ap_words.specs.Asked.{annotator_named, annotator_or, asked_by, asked_of, load_by, number_at, number_or, run_by, run_of, show_by, show_of, text_at};

use crate::numbers::number;
use crate::values::{Value, given};

/// Which groups are made.
#[derive(Clone, Copy, Debug, PartialEq, Eq)]
pub enum Annotator {
    /// Those whose checks may hold.
    Mel,
    /// Those that need no check.
    Udg,
    /// None beside the written ones.
    None,
}

/// What `run` is asked.
#[derive(Clone, Copy, Debug)]
pub struct Run<'a> {
    pub file: &'a str,
    /// How many workers may run its goals.
    pub workers: u64,
    /// The calls that a query may make.
    pub budget: u64,
    /// The answers that a query may print.
    pub answers: u64,
    pub annotator: Annotator,
}

/// What `show` is asked.
#[derive(Clone, Copy, Debug)]
pub struct Show<'a> {
    pub file: &'a str,
    /// The pattern of the entry; without one there are all calls.
    pub entry: Option<&'a str>,
    pub annotator: Annotator,
}

/// What a command line asks for.
#[derive(Clone, Copy, Debug)]
pub enum Asked<'a> {
    Run(Run<'a>),
    Show(Show<'a>),
    /// The code of the file of that name.
    Code(&'a str),
    /// A run of the program of that seed and size.
    Load { seed: u32, size: u32, workers: u64 },
}

const MOST_WORKERS: u64 = 32;

const MOST_CALLS: u64 = 1_000_000_000_000;

const MOST_ANSWERS: u64 = 1_000_000_000;

const MOST_ELEMENTS: u64 = 10_000;

// The text of a name that has one on every line that is taken.
fn text_at<'a>(name: &str, values: &[Value<'a>]) -> &'a str
    ensures { result.now ≡ text_at name.now (map value_of values.now) }
{
    match given(name, values) {
        Some(text) => text,
        None => "",
    }
}

// A number, or the one that goes where none is given.
fn number_or(otherwise: u64, greatest: u64, word: Option<&str>) -> Option<u64>
    ensures { result ≡ number_or otherwise 1 greatest (option_map (λ w. w.now) word.entry) }
{
    match word {
        Some(word) => number(1, greatest, word),
        None => Some(otherwise),
    }
}

fn annotator_named(word: &str) -> Option<Annotator>
    ensures { result ≡ annotator_named word.now }
{
    if word == "mel" {
        Some(Annotator::Mel)
    } else if word == "udg" {
        Some(Annotator::Udg)
    } else if word == "none" {
        Some(Annotator::None)
    } else {
        None
    }
}

fn annotator_or(word: Option<&str>) -> Option<Annotator>
    ensures { result ≡ annotator_or (option_map (λ w. w.now) word.entry) }
{
    match word {
        Some(word) => annotator_named(word),
        None => Some(Annotator::Mel),
    }
}

fn run_by<'a>(values: &[Value<'a>]) -> Option<Run<'a>>
    ensures { option_map run_of result ≡ run_by (map value_of values.now) }
{
    let workers = number_or(1, MOST_WORKERS, given("workers", values))?;
    let budget = number_or(10_000_000, MOST_CALLS, given("budget", values))?;
    let answers = number_or(1_000_000, MOST_ANSWERS, given("answers", values))?;
    let annotator = annotator_or(given("annotator", values))?;
    let file = text_at("FILE", values);
    Some(Run {
        file,
        workers,
        budget,
        answers,
        annotator,
    })
}

fn show_by<'a>(values: &[Value<'a>]) -> Option<Show<'a>>
    ensures { option_map show_of result ≡ show_by (map value_of values.now) }
{
    let annotator = annotator_or(given("annotator", values))?;
    let entry = given("entry", values);
    let file = text_at("FILE", values);
    Some(Show {
        file,
        entry,
        annotator,
    })
}

fn load_by<'a>(values: &[Value]) -> Option<Asked<'a>>
    ensures { option_map asked_of result ≡ load_by (map value_of values.now) }
{
    let seed = number(0, u64::from(u32::MAX), text_at("SEED", values))? as u32;
    let size = number(1, MOST_ELEMENTS, text_at("SIZE", values))? as u32;
    let workers = number_or(1, MOST_WORKERS, given("workers", values))?;
    Some(Asked::Load {
        seed,
        size,
        workers,
    })
}

/// Gives what a command asks for, where its numbers are in their ranges and the annotator is one that there is.
pub fn asked_by<'a>(command: &str, values: &[Value<'a>]) -> Option<Asked<'a>>
    ensures { option_map asked_of result ≡ asked_by command.now (map value_of values.now) }
{
    if command == "run" {
        let run = run_by(values)?;
        Some(Asked::Run(run))
    } else if command == "show" {
        let show = show_by(values)?;
        Some(Asked::Show(show))
    } else if command == "code" {
        Some(Asked::Code(text_at("FILE", values)))
    } else {
        load_by(values)
    }
}
