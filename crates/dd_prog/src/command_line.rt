//! The command that the words are: the table of commands, and their values as `clap` takes them.

ghost use Rattle.std.specs.Prelude.{◌≡◌, false, is_some, map, string_bytes};
ghost use Rattle.std.specs.Prelude.{IfErr, IfOk, IfSome, IsSome};
ghost use Rattle.clap.specs.Words.{app_of, new_app, shape_of};
ghost use Rattle.clap.specs.Words.{found_of, kind_of, rows_of, subcommand_rows_of};
ghost use Rattle.clap.specs.declared.builder.command.Command.TheViews.{out-Command};
ghost use Rattle.dd_prog.specs.Commands.{command_of, IsCounted};
ghost use Rattle.dd_prog.specs.CommandLine.{bare, command_line, with_option};
ghost use Rattle.dd_prog.specs.CommandLine.{command_by, command_taken, number_taken};

use crate::command::{Command, MAX_FRAME};
use crate::options::{number_given, numeral};
use clap::error::ErrorKind;
use clap::{Arg, ArgMatches, Error};
use dd_calls::MAX_CLIENTS;
use dd_io::OutOfMemory;
use std::alloc::Global;

/// Whether the words are a command.
fn is_command(words: &[String]) -> bool
    ensures { result ≡ is_some (command_of (map string_bytes words.now)) }
{
    let [word, further @ ..] = words else {
        return false;
    };
    match word.as_str() {
        "replay" => further.is_empty(),
        "record" => number_given("--client", 1, MAX_CLIENTS as u32, further).is_some(),
        "view" => number_given("--frame", 1, MAX_FRAME, further).is_some(),
        "gen" | "sum" => number_given("--seed", 0, u32::MAX, further).is_some(),
        _ => false,
    }
}

/// A subcommand with an option that has to be given.
fn with_option<'a>(
    alloc: Global,
    name: &'a str,
    option: &'a str,
) -> Result<clap::Command<'a>, OutOfMemory>
    ensures { IfOk result (λ c. (shape_of c ≡ with_option name.entry.now option.entry.now)
        × ((out-Command c).has_globals ≡ false)) }
{
    let option = Arg::new(alloc, option).long(option).required(true);
    clap::Command::new(alloc, name).arg(option)
}

/// A command of words that come after the program's name, with no help, whose subcommand has to be
/// given.
fn bare<'a>(alloc: Global, name: &'a str) -> clap::Command<'a>
    ensures { app_of result ≡ bare (new_app name.entry.now) }
{
    clap::Command::new(alloc, name)
        .no_binary_name(true)
        .disable_help_flag(true)
        .disable_help_subcommand(true)
        .subcommand_required(true)
}

/// The command line of the program: one command, with a subcommand for each of its commands.
fn command_line<'a>(alloc: Global) -> Result<clap::Command<'a>, OutOfMemory>
    ensures { IfOk result (λ c. app_of c ≡ command_line) }
{
    bare(alloc, "ddup")
        .subcommand(clap::Command::new(alloc, "replay"))?
        .subcommand(with_option(alloc, "record", "client")?)?
        .subcommand(with_option(alloc, "view", "frame")?)?
        .subcommand(with_option(alloc, "gen", "seed")?)?
        .subcommand(with_option(alloc, "sum", "seed")?)
}

/// The number that an option was given.
fn number_taken(given: &ArgMatches, option: &str) -> Option<u32>
    ensures { result ≡ number_taken option.now (rows_of (found_of given.now)) }
{
    numeral(0, u32::MAX, given.get_str(option)?)
}

/// The command that a subcommand with its values is.
fn command_taken(name: &str, given: &ArgMatches) -> Option<Command>
    ensures { result ≡ command_taken name.now (rows_of (found_of given.now)) }
{
    match name {
        "replay" => Some(Command::Replay),
        "record" => {
            let client = number_taken(given, "client")?;
            Some(Command::Record { client })
        }
        "view" => {
            let frame = number_taken(given, "frame")?;
            Some(Command::View { frame })
        }
        "gen" => {
            let seed = number_taken(given, "seed")?;
            Some(Command::Gen { seed })
        }
        "sum" => {
            let seed = number_taken(given, "seed")?;
            Some(Command::Sum { seed })
        }
        _ => None,
    }
}

/// The command that the matches have.
fn command_in(matches: &ArgMatches) -> Option<Command>
    ensures { result ≡ command_by (subcommand_rows_of matches.now) }
{
    let (name, given) = matches.subcommand()?;
    command_taken(name, given)
}

/// The command that `clap` takes from words that are a command.
fn taken(alloc: Global, words: &[String]) -> Result<Option<Command>, Error>
    ensures value { IsSome (command_of (map string_bytes words.now))
        → IfOk result (λ c. c ≡ command_of (map string_bytes words.now)) }
    ensures wants { IsSome (command_of (map string_bytes words.now))
        → IfErr result (λ e. kind_of e ≡ ErrorKind.OutOfMemory) }
{
    let matches = command_line(alloc)?.try_get_matches_from(words)?;
    Ok(command_in(&matches))
}

/// The command that the words are.
///
/// The table of commands decides alone, before any memory is asked for. `clap` then takes the value
/// from words that are a command, which fails only for want of memory.
pub(crate) fn command_of(alloc: Global, words: &[String]) -> Result<Option<Command>, OutOfMemory>
    ensures value { IfOk result (λ c. c ≡ command_of (map string_bytes words.now)) }
    ensures counted { IfOk result (λ c. IfSome c IsCounted) }
    ensures wants { IfErr result (λ _. IsSome (command_of (map string_bytes words.now))) }
{
    if !is_command(words) {
        return Ok(None);
    }
    taken(alloc, words).map_err(|_| OutOfMemory)
}
