//! The command that is given to the parser of command lines.
ghost use Rattle.std.specs.Prelude.{◌≡◌, IfOk, [], false};
ghost use Rattle.clap.specs.Words.{app_of, rule_of};
ghost use Rattle.command_options.specs.Given.{known, known_in};
ghost use Rattle.command_options.specs.Words.{app_for, rule_for};

use crate::options::OptionRow;
use clap::{Arg, ArgAction, Command};
use std::alloc::{AllocError, Global};

fn argument<'a>(alloc: Global, row: OptionRow<'a>) -> Arg<'a>
    ensures rule { rule_of result ≡ rule_for (known row.entry) }
    ensures local { result.global ≡ false }
{
    Arg::new(alloc, row.name)
        .long(row.name)
        .action(ArgAction::Set)
        .required(row.required)
}

fn bare<'a>(alloc: Global) -> Command<'a>
    ensures { app_of result ≡ app_for [] }
{
    Command::new(alloc, "")
        .no_binary_name(true)
        .disable_help_flag(true)
}

/// A command with the options of the table.
pub fn command<'a>(alloc: Global, table: &[OptionRow<'a>]) -> Result<Command<'a>, AllocError>
    ensures { IfOk result (λ command. app_of command ≡ app_for (known_in table.now)) }
{
    let mut command = bare(alloc);
    for row in table {
        command = command.arg(argument(alloc, *row))?;
    }
    Ok(command)
}
