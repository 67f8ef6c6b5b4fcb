ghost use Rattle.std.specs.Prelude.{◌≡◌, map, string_bytes, option_map, option_and_then, true};
ghost use Rattle.clap.specs.Words.{app_of, rows_of, found_of, is_simple_and_free};
ghost use Rattle.theory_words.specs.Commands.{order_named, check_of, derive_of, found_in};
ghost use Rattle.theory_words.specs.Arguments.{check_arguments, derive_arguments};
ghost use Rattle.theory_words.specs.Reading.{command_of, AreReadAs, IsReadAs, IsFoundAs};

use crate::arguments::{check_arguments, derive_arguments};
use crate::command::{Command, WordsFault};
use clap::ArgMatches;
use clap::error::ErrorKind;
use std::alloc::Global;
use theory_meaning::Kind;

/// Reads the words of the program, without its name, as a command.
pub fn read_words<'a>(alloc: Global, words: &'a [String]) -> Result<Command<'a>, WordsFault>
    ensures { AreReadAs (map string_bytes words.entry.now) result }
{
    let Some((first, behind)) = words.split_first() else {
        return Err(WordsFault::NoCommand);
    };
    match first.as_str() {
        "check" => read_check(alloc, behind),
        "derive" => read_derive(alloc, behind),
        _ => Err(WordsFault::NoCommand),
    }
}

fn read_check<'a>(alloc: Global, words: &'a [String]) -> Result<Command<'a>, WordsFault>
    ensures { IsReadAs (option_and_then check_of
        (found_in check_arguments (map string_bytes words.entry.now))) result }
{
    let Ok(arguments) = check_arguments(alloc) else {
        return Err(WordsFault::NoMemory);
    };
    let matches = matches_in(arguments, words)?;
    found_check(&matches).ok_or(WordsFault::NoCommand)
}

fn read_derive<'a>(alloc: Global, words: &'a [String]) -> Result<Command<'a>, WordsFault>
    ensures { IsReadAs (option_and_then derive_of
        (found_in derive_arguments (map string_bytes words.entry.now))) result }
{
    let Ok(arguments) = derive_arguments(alloc) else {
        return Err(WordsFault::NoMemory);
    };
    let matches = matches_in(arguments, words)?;
    found_derive(&matches).ok_or(WordsFault::NoCommand)
}

fn matches_in<'a>(
    arguments: clap::Command<'a>,
    words: &'a [String],
) -> Result<ArgMatches<'a>, WordsFault>
    requires { is_simple_and_free (app_of arguments) ≡ true }
    ensures { IsFoundAs (found_in (app_of arguments.entry) (map string_bytes words.entry.now))
        result }
{
    match arguments.try_get_matches_from(words) {
        Ok(matches) => Ok(matches),
        Err(error) => match error.kind() {
            ErrorKind::OutOfMemory => Err(WordsFault::NoMemory),
            _ => Err(WordsFault::NoCommand),
        },
    }
}

fn found_check<'a>(matches: &ArgMatches<'a>) -> Option<Command<'a>>
    ensures { option_map command_of result ≡ check_of (rows_of (found_of matches.now)) }
{
    let file = matches.get_str("file")?;
    let order = order_named(matches.get_str("order")?)?;
    let on = matches.get_str("on");
    Some(Command::Check { file, order, on })
}

fn found_derive<'a>(matches: &ArgMatches<'a>) -> Option<Command<'a>>
    ensures { option_map command_of result ≡ derive_of (rows_of (found_of matches.now)) }
{
    let file = matches.get_str("file")?;
    Some(Command::Derive { file })
}

fn order_named(name: &str) -> Option<Kind>
    ensures { result ≡ order_named name.now }
{
    match name {
        "listed" => Some(Kind::Listed),
        "rare" => Some(Kind::Rare),
        "unit" => Some(Kind::Unit),
        "signed" => Some(Kind::Signed),
        _ => None,
    }
}
