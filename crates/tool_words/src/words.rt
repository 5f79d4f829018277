//! Words behind the first, read as so many required words.
ghost use Rattle.std.specs.Prelude.{◌≡◌, ◌≢◌, ◌≤◌, [], Err, IfOk, false, length, map, take, true};
ghost use Rattle.clap.specs.Words.{app_of, fault_of, found_of, matches_of, rows_of};
ghost use Rattle.tool_words.specs.Words.{command_of, command_with, reads, texts_of};

use clap::error::ErrorKind;
use clap::{Arg, ArgAction, ArgMatches, Command};
use std::alloc::{AllocError, Global};

/// Why words weren't read.
#[derive(Clone, Copy, Debug, PartialEq, Eq)]
pub enum WordsFault {
    /// They aren't so many words.
    Refused,
    NoMemory,
}

static NAMES: [&str; 4] = ["first", "second", "third", "fourth"];

/// Reads the words after the first as so many required words.
pub fn read_words<'a>(
    alloc: Global,
    words: &'a [String],
    count: usize,
) -> Result<ArgMatches<'a>, WordsFault>
    requires { count ≤ 4 }
    ensures accepted { IfOk result (λ m. reads count words.entry.now ≡ true) }
    ensures given { IfOk result (λ m. rows_of (found_of m) ≡ matches_of (command_with count) (texts_of words.entry.now)) }
    ensures refused { result ≡ Err WordsFault.Refused → reads count words.entry.now ≡ false }
{
    let Ok(command) = command(alloc, &NAMES[..count]) else {
        return Err(WordsFault::NoMemory);
    };
    match command.try_get_matches_from(words) {
        Ok(matches) => Ok(matches),
        Err(error) => match error.kind() {
            ErrorKind::OutOfMemory => Err(WordsFault::NoMemory),
            _ => Err(WordsFault::Refused),
        },
    }
}

// A command that takes required words of these names.
fn command<'a>(alloc: Global, names: &[&'a str]) -> Result<Command<'a>, AllocError>
    ensures { IfOk result (λ c. app_of c ≡ command_of (map (λ s. s.now) names.now)) }
{
    let mut command = Command::new(alloc, "command");
    for name in names {
        let word = Arg::new(alloc, name).required(true).action(ArgAction::Set);
        command = command.arg(word)?;
    }
    Ok(command)
}
