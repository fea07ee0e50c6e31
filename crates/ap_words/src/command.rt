//! The program's command for `clap`.

ghost use Rattle.std.specs.Prelude.{◌≡◌, ◌++◌, OnOk, IfOk, false, map};
ghost use Rattle.clap.specs.Words.{app_of, found_of, rows_of, rule_of, shape_of};
ghost use Rattle.clap.specs.declared.builder.command.Command.TheViews.{out-Command};
ghost use Rattle.ap_words.specs.Known.{words_in};
ghost use Rattle.ap_words.specs.Values.{value_of};
ghost use Rattle.ap_words.specs.Clap.{command_shape, found_in, matched, option_rule, place_rule, program, with_rules};

use crate::help::VERSION;
use crate::table::{CODE, LOAD, RUN, SHOW, Words, words_of};
use crate::values::Value;
use clap::{Arg, ArgAction, ArgMatches, Command};
use std::alloc::{AllocError, Global};

fn place<'a>(alloc: Global, name: &'a str) -> Arg<'a>
    ensures rule { rule_of result ≡ place_rule name.now }
    ensures own { result.global ≡ false }
{
    Arg::new(alloc, name).required(true).action(ArgAction::Set)
}

fn option<'a>(alloc: Global, name: &'a str) -> Arg<'a>
    ensures rule { rule_of result ≡ option_rule name.now }
    ensures own { result.global ≡ false }
{
    Arg::new(alloc, name).long(name).action(ArgAction::Set)
}

// The command with places.
fn with_places<'a>(
    alloc: Global,
    command: Command<'a>,
    names: &'a [&'a str],
) -> Result<Command<'a>, AllocError>
    ensures rules { IfOk result (λ c. app_of c ≡ with_rules (app_of command.entry) (map place_rule (map (λ n. n.now) names.now))) }
    ensures own { IfOk result (λ c. (out-Command c).has_globals ≡ (out-Command command.entry).has_globals) }
{
    let mut command = command;
    for name in names {
        command = command.arg(place(alloc, name))?;
    }
    Ok(command)
}

// The command with options.
fn with_options<'a>(
    alloc: Global,
    command: Command<'a>,
    names: &'a [&'a str],
) -> Result<Command<'a>, AllocError>
    ensures rules { IfOk result (λ c. app_of c ≡ with_rules (app_of command.entry) (map option_rule (map (λ n. n.now) names.now))) }
    ensures own { IfOk result (λ c. (out-Command c).has_globals ≡ (out-Command command.entry).has_globals) }
{
    let mut command = command;
    for name in names {
        command = command.arg(option(alloc, name))?;
    }
    Ok(command)
}

// A command of the table.
fn command<'a>(alloc: Global, name: &'a str, known: Words) -> Result<Command<'a>, AllocError>
    ensures shape { IfOk result (λ c. shape_of c ≡ command_shape name.now (words_in known)) }
    ensures own { IfOk result (λ c. (out-Command c).has_globals ≡ false) }
{
    let command = with_places(alloc, Command::new(alloc, name), known.places)?;
    with_options(alloc, command, known.options)
}

/// Makes the program's command: the table's commands and no others.
pub fn program<'a>(alloc: Global) -> Result<Command<'a>, AllocError>
    ensures { IfOk result (λ c. app_of c ≡ program) }
{
    let run = command(alloc, "run", RUN)?;
    let show = command(alloc, "show", SHOW)?;
    let code = command(alloc, "code", CODE)?;
    let load = command(alloc, "load", LOAD)?;
    Command::new(alloc, "andprolog")
        .version(VERSION)
        .subcommand_required(true)
        .disable_help_subcommand(true)
        .subcommand(run)?
        .subcommand(show)?
        .subcommand(code)?
        .subcommand(load)
}

// Adds the texts that names have among the matches of a command.
fn push_found<'a>(
    values: &mut Vec<Value<'a>>,
    names: &[&'static str],
    matches: &ArgMatches<'a>,
) -> Result<(), AllocError>
    ensures { OnOk result (map value_of values.new.items ≡ map value_of values.old.items ++ found_in (rows_of (found_of matches.now)) (map (λ n. n.now) names.now)) }
{
    for name in names {
        if let Some(text) = matches.get_str(name) {
            values.push(Value { name, text })?;
        }
    }
    Ok(())
}

/// Gives what a command's matches give to its names.
pub fn matched<'a>(
    alloc: Global,
    command: &str,
    matches: &ArgMatches<'a>,
) -> Result<Vec<Value<'a>>, AllocError>
    ensures { IfOk result (λ vs. map value_of vs.items ≡ matched command.now (rows_of (found_of matches.now))) }
{
    let mut values = Vec::new(alloc);
    if let Some(known) = words_of(command) {
        push_found(&mut values, known.places, matches)?;
        push_found(&mut values, known.options, matches)?;
    }
    Ok(values)
}
