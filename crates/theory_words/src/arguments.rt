ghost use Rattle.std.specs.Prelude.{◌≡◌, IfOk, false};
ghost use Rattle.clap.specs.Words.{app_of, rule_of};
ghost use Rattle.theory_words.specs.Arguments.{Texts, AreOrderNames, bare, file, order, on, check_with, derive_arguments};

use clap::{Arg, ArgAction, Command};
use std::alloc::{AllocError, Global};

/// The names of the orders of elimination.
static ORDERS: [&str; 4] = ["listed", "rare", "unit", "signed"];

/// What stands behind `check`.
pub fn check_arguments<'a>(alloc: Global) -> Result<Command<'a>, AllocError>
    ensures { IfOk result (λ command. (names : Texts) × AreOrderNames names
        × (app_of command ≡ check_with names)) }
{
    bare(alloc, "check")
        .arg(file(alloc))?
        .arg(order(alloc))?
        .arg(on(alloc))
}

/// What stands behind `derive`.
pub fn derive_arguments<'a>(alloc: Global) -> Result<Command<'a>, AllocError>
    ensures { IfOk result (λ command. app_of command ≡ derive_arguments) }
{
    bare(alloc, "derive").arg(file(alloc))
}

fn bare<'a>(alloc: Global, name: &'a str) -> Command<'a>
    ensures { app_of result ≡ bare name.now }
{
    Command::new(alloc, name)
        .no_binary_name(true)
        .disable_help_flag(true)
        .disable_version_flag(true)
}

fn file<'a>(alloc: Global) -> Arg<'a>
    ensures rule { rule_of result ≡ file }
    ensures local { result.global ≡ false }
{
    Arg::new(alloc, "file")
        .required(true)
        .action(ArgAction::Set)
}

fn order<'a>(alloc: Global) -> Arg<'a>
    ensures rule { (names : Texts) × AreOrderNames names × (rule_of result ≡ order names) }
    ensures local { result.global ≡ false }
{
    Arg::new(alloc, "order")
        .long("order")
        .action(ArgAction::Set)
        .value_parser(ORDERS.as_slice())
        .default_value("unit")
}

fn on<'a>(alloc: Global) -> Arg<'a>
    ensures rule { rule_of result ≡ on }
    ensures local { result.global ≡ false }
{
    Arg::new(alloc, "on").long("on").action(ArgAction::Set)
}
