//! The options that the words of a command give.
ghost use Rattle.std.specs.Prelude.{◌≡◌, List, map, string_bytes, IfOk, Err, true, option_map};
ghost use Rattle.command_options.specs.Given.{GivenOption, IsRead, has_names, known_in, value_given};

use crate::command::command;
use crate::word::are_tame;
use clap::ArgMatches;
use clap::error::ErrorKind;
use std::alloc::{AllocError, Global};
use std::marker::Model;
use thiserror::Error;

/// One option of a command.
#[derive(Clone, Copy, Debug)]
pub struct OptionRow<'a> {
    /// What stands after `--`. It is not empty, and has no `=`.
    pub name: &'a str,
    /// Whether the words must give it.
    pub required: bool,
}

/// Why words are not read.
#[derive(Clone, Copy, Debug, PartialEq, Eq, Error)]
pub enum WordsFault {
    /// A required option is missing, an option is unknown, repeated or without a value, a value is empty or begins
    /// with `-`, or another word stands there.
    #[error("the words are not those of the options")]
    Other,
    /// There was not enough memory.
    #[error("out of memory")]
    NoMemory,
}

impl From<AllocError> for WordsFault {
    ghost use Rattle.std.specs.Prelude.{◌≡◌};
    ghost use Rattle.command_options.specs.declared.options.WordsFault.{WordsFault};

    ghost from_gives = { λ _ fault. fault ≡ WordsFault.NoMemory };

    fn from(_: AllocError) -> WordsFault {
        WordsFault::NoMemory
    }
}

impl From<clap::Error> for WordsFault {
    ghost use Rattle.std.specs.Prelude.{◌≡◌};
    ghost use Rattle.clap.specs.Values.{kind_of};
    ghost use Rattle.clap.specs.declared.error.kind.ErrorKind.{ErrorKind};
    ghost use Rattle.command_options.specs.declared.options.WordsFault.{WordsFault};

    ghost from_gives = { λ error fault. fault ≡ WordsFault.Other → kind_of error ≡ ErrorKind.OutOfMemory → ⊥ };

    fn from(error: clap::Error) -> WordsFault {
        match error.kind() {
            ErrorKind::OutOfMemory => WordsFault::NoMemory,
            _ => WordsFault::Other,
        }
    }
}

/// The options that words give.
#[derive(Drop)]
pub struct Options<'a> {
    matches: ArgMatches<'a>,
}

impl<'a> Model for Options<'a> {
    ghost use Rattle.std.specs.Prelude.{◌≡◌, true, List};
    ghost use Rattle.clap.specs.Matches.{found_of};
    ghost use Rattle.command_options.specs.Given.{GivenOption};
    ghost use Rattle.command_options.specs.Words.{have_values, options_found};

    ghost Value = { List GivenOption };

    ghost view = { λ options. options_found (found_of options.matches) };

    ghost invariant = { λ options. have_values (found_of options.matches) ≡ true };
}

impl<'a> Options<'a> {
    /// The value that is given for this name.
    pub fn value(&self, name: &str) -> Option<&'a str>
        ensures { option_map (λ text. text.now) result ≡ value_given self.now name.now }
    {
        self.matches.get_str(name)
    }
}

/// Reads the words that follow the first word of a command. `NoMemory` may come with any words.
pub fn read_options<'a>(
    alloc: Global,
    table: &[OptionRow<'a>],
    words: &'a [String],
) -> Result<Options<'a>, WordsFault>
    requires { has_names (known_in table.now) ≡ true }
    ensures read { IfOk result (IsRead (known_in table.now) (map string_bytes words.entry.now)) }
    ensures refused { result ≡ Err WordsFault.Other
        → (given : List GivenOption) → IsRead (known_in table.now) (map string_bytes words.entry.now) given → ⊥ }
{
    // The parser would take an empty value or a lone `-`, and end the options at `--`.
    if !are_tame(words) {
        return Err(WordsFault::Other);
    }
    let matches = command(alloc, table)?.try_get_matches_from(words)?;
    Ok(Options { matches })
}
