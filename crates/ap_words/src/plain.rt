//! Plain command lines.

ghost use Rattle.std.specs.Prelude.{◌≡◌, map, option_map, bytes_eq, None, IfOk};
ghost use Rattle.ap_words.specs.Known.{words_in};
ghost use Rattle.ap_words.specs.Values.{value_of};
ghost use Rattle.ap_words.specs.Plain.{command_line, flag, flag_step, is_option, is_once, line_by, option_in, paired, plain_step};
ghost use Rattle.ap_words.specs.PlainKept.{line_of, stand_of};

use crate::numbers::is_plain;
use crate::table::{Words, words_of};
use crate::values::{Value, has};
use std::alloc::{AllocError, Global};

/// A command, and what a line gives to its names.
#[derive(Drop)]
pub struct Line<'a> {
    pub command: &'a str,
    pub values: Vec<Value<'a>>,
}

// Whether a word is an option as it is written: two hyphens and its name.
fn is_flag(word: &str, name: &str) -> bool
    ensures { result ≡ bytes_eq word.now (flag name.now) }
{
    match word.as_bytes() {
        [first, second, rest @ ..] => {
            *first == b'-' && (*second == b'-' && rest == name.as_bytes())
        }
        [] => false,
        [_] => false,
    }
}

// The option that a word is.
fn option_in(options: &[&'static str], word: &str) -> Option<&'static str>
    ensures { option_map (λ name. name.now) result ≡ option_in (map (λ o. o.now) options.now) word.now }
{
    for option in options {
        if is_flag(word, option) {
            return Some(option);
        }
    }
    None
}

fn is_option(options: &[&'static str], name: &str) -> bool
    ensures { result ≡ is_option (map (λ o. o.now) options.now) name.now }
{
    for option in options {
        if *option == name {
            return true;
        }
    }
    false
}

// Whether no option is given twice.
fn is_once(options: &[&'static str], values: &[Value]) -> bool
    ensures { result ≡ is_once (map (λ o. o.now) options.now) (map value_of values.now) }
{
    for at in 0..values.len() {
        let name = values[at].name;
        if is_option(options, name) && has(name, &values[at + 1..]) {
            return false;
        }
    }
    true
}

// Where a reading stands: the places that are left, and the option that waits for its value.
#[derive(Clone, Copy)]
struct Stand {
    places: &'static [&'static str],
    waiting: Option<&'static str>,
}

// The name that a word is the text of which stands for itself.
fn plain_step(stand: Stand) -> Option<(Stand, &'static str)>
    ensures { option_map (λ p. (stand_of p.0, p.1.now)) result ≡ plain_step (stand_of stand) }
{
    let places = stand.places;
    if let Some(name) = stand.waiting {
        let waiting = None;
        return Some((Stand { places, waiting }, name));
    }
    match places {
        [place, behind @ ..] => {
            let next = Stand {
                places: behind,
                waiting: None,
            };
            Some((next, place))
        }
        [] => None,
    }
}

// The option that any other word is, which then waits.
fn flag_step(options: &[&'static str], stand: Stand, word: &str) -> Option<Stand>
    ensures { option_map stand_of result ≡ flag_step (map (λ o. o.now) options.now) (stand_of stand) word.now }
{
    if stand.waiting.is_some() {
        return None;
    }
    let name = option_in(options, word)?;
    Some(Stand {
        places: stand.places,
        waiting: Some(name),
    })
}

// What the words behind a command give to its names, where options may come twice.
fn paired<'a>(
    alloc: Global,
    known: Words,
    words: &[&'a str],
) -> Result<Option<Vec<Value<'a>>>, AllocError>
    ensures { IfOk result (λ r. option_map (λ vs. map value_of vs.items) r ≡ paired (words_in known).options (map (λ w. w.now) words.now) ((words_in known).places, None)) }
{
    let mut values = Vec::new(alloc);
    let mut stand = Stand {
        places: known.places,
        waiting: None,
    };
    for word in words {
        if is_plain(word) {
            let Some((next, name)) = plain_step(stand) else {
                return Ok(None);
            };
            stand = next;
            values.push(Value { name, text: word })?;
        } else {
            let Some(next) = flag_step(known.options, stand, word) else {
                return Ok(None);
            };
            stand = next;
        }
    }
    if stand.waiting.is_none() && stand.places.is_empty() {
        Ok(Some(values))
    } else {
        Ok(None)
    }
}

// The line of a command.
fn command_line<'a>(
    alloc: Global,
    command: &'a str,
    behind: &[&'a str],
) -> Result<Option<Line<'a>>, AllocError>
    ensures { IfOk result (λ r. option_map line_of r ≡ command_line command.now (map (λ w. w.now) behind.now)) }
{
    let Some(known) = words_of(command) else {
        return Ok(None);
    };
    let Some(values) = paired(alloc, known, behind)? else {
        return Ok(None);
    };
    if is_once(known.options, &values) {
        Ok(Some(Line { command, values }))
    } else {
        Ok(None)
    }
}

/// Reads a command line, the program's name first, where it is plain in its words and names.
pub fn plain_line<'a>(alloc: Global, words: &[&'a str]) -> Result<Option<Line<'a>>, AllocError>
    ensures { IfOk result (λ r. option_map line_of r ≡ line_by (map (λ w. w.now) words.now)) }
{
    match words {
        [_, command, behind @ ..] => command_line(alloc, command, behind),
        [] => Ok(None),
        [_] => Ok(None),
    }
}
