//! What is made of a command line.

ghost use Rattle.std.specs.Prelude.{◌≡◌, OnOk, IfOk, Some, true, map, option_map};
ghost use Rattle.clap.specs.Words.{has_subcommand, subcommand_rows_of};
ghost use Rattle.ap_words.specs.Asked.{Asked as What, asked_of};
ghost use Rattle.ap_words.specs.Reading.{InRange, IsClaps, IsPlain, IsRead, IsTaken, asks, plainly, reading_of, refused, taken};

use crate::asked::{Asked, asked_by};
use crate::command::{matched, program};
use crate::plain::plain_line;
use clap::ArgMatches;
use clap::error::ErrorKind;
use std::alloc::{AllocError, Global};

/// What a command line comes to.
#[derive(Clone, Copy, Debug)]
pub enum Reading<'a> {
    Asks(Asked<'a>),
    /// It asks for help.
    Help,
    /// It asks for the version.
    Version,
    /// It is no command line.
    Usage,
}

// What a line comes to that `clap` refuses.
fn refused<'a>(kind: ErrorKind) -> Result<Reading<'a>, AllocError>
    ensures is { IfOk result (λ r. reading_of r ≡ refused kind) }
    ensures memory { OnOk result (kind ≡ ErrorKind.OutOfMemory → ⊥) }
{
    match kind {
        ErrorKind::DisplayHelp => Ok(Reading::Help),
        ErrorKind::DisplayVersion => Ok(Reading::Version),
        ErrorKind::OutOfMemory => Err(AllocError),
        _ => Ok(Reading::Usage),
    }
}

fn judged<'a>(asked: Option<Asked<'a>>) -> Reading<'a>
    ensures { reading_of result ≡ taken (option_map asked_of asked.entry) }
{
    match asked {
        Some(what) => Reading::Asks(what),
        None => Reading::Usage,
    }
}

// What a line comes to that `clap` takes.
fn taken<'a>(alloc: Global, matches: &ArgMatches<'a>) -> Result<Reading<'a>, AllocError>
    requires { has_subcommand matches.now ≡ true }
    ensures { IfOk result (λ r. IsTaken (subcommand_rows_of matches.now) (reading_of r)) }
{
    let Some((command, inner)) = matches.subcommand() else {
        unreachable!()
    };
    let values = matched(alloc, command, inner)?;
    Ok(judged(asked_by(command, &values)))
}

// What `clap` makes of a line.
fn by_clap<'a>(alloc: Global, words: &'a [&'a str]) -> Result<Reading<'a>, AllocError>
    ensures { IfOk result (λ r. IsClaps (map (λ w. w.now) words.now) (reading_of r)) }
{
    match program(alloc)?.try_get_matches_from(words) {
        Ok(matches) => taken(alloc, &matches),
        Err(error) => refused(error.kind()),
    }
}

// What a line asks for that is plain.
fn by_itself<'a>(alloc: Global, words: &[&'a str]) -> Result<Option<Asked<'a>>, AllocError>
    ensures { IfOk result (λ r. option_map asked_of r ≡ plainly (map (λ w. w.now) words.now)) }
{
    let Some(line) = plain_line(alloc, words)? else {
        return Ok(None);
    };
    Ok(asked_by(line.command, &line.values))
}

/// Reads a command line, the program's name first.
pub fn read<'a>(alloc: Global, words: &'a [&'a str]) -> Result<Reading<'a>, AllocError>
    ensures is { IfOk result (λ r. IsRead (map (λ w. w.now) words.now) (reading_of r)) }

    // A plain line is never refused.
    ensures plain { (what : What) → IsPlain (map (λ w. w.now) words.now) what → IfOk result (λ r. reading_of r ≡ asks what) }

    // A line that asks for something is read as that and as nothing else.
    ensures alone { (what : What) → IsRead (map (λ w. w.now) words.now) (asks what) → IfOk result (λ r. reading_of r ≡ asks what) }
    ensures ranges { IfOk result (λ r. InRange (reading_of r)) }
{
    match by_itself(alloc, words)? {
        Some(what) => Ok(Reading::Asks(what)),
        None => by_clap(alloc, words),
    }
}
