//! Words, read as a command.
ghost use Rattle.std.specs.Prelude.{◌≡◌, ◌≤◌, IfOk, IfSome, Some};
ghost use Rattle.clap.specs.Words.{found_of, first_of, rows_of};
ghost use Rattle.tool_words.specs.Asked.{InRange, asked, command_as, number_in, with_verb};

use crate::commands::Command;
use crate::verbs::{Verb, count_of, verb_of};
use crate::words::{WordsFault, read_words};
use clap::ArgMatches;
use std::alloc::{AllocError, Global};
use text_lines::number;

/// The most that a burst, a rate or a period can be.
pub const MOST: u64 = 9_223_372_036_854_775_807;

/// The command that words ask for, if they do.
#[tactic(auto, unfolding(crate::specs::Asked::asked))]
pub fn read_command(alloc: Global, words: &[String]) -> Result<Option<Command>, AllocError>
    ensures exact { IfOk result (λ command. command ≡ asked words.now) }
    ensures ranges { IfOk result (λ command. IfSome command InRange) }
{
    match words {
        [name, ..] => match verb_of(name) {
            Some(verb) => read_behind(alloc, words, verb),
            None => Ok(None),
        },
        [] => Ok(None),
    }
}

// The command of a verb, from the words behind it.
fn read_behind(alloc: Global, words: &[String], verb: Verb) -> Result<Option<Command>, AllocError>
    ensures exact { IfOk result (λ command. command ≡ with_verb verb words.now) }
    ensures ranges { IfOk result (λ command. IfSome command InRange) }
{
    match read_words(alloc, words, count_of(verb)) {
        Ok(matches) => Ok(command_as(verb, &matches)),
        Err(WordsFault::Refused) => Ok(None),
        Err(WordsFault::NoMemory) => Err(AllocError),
    }
}

// The command of a verb with these words.
#[tactic(auto, unfolding(crate::specs::Asked::command_as))]
fn command_as(verb: Verb, matches: &ArgMatches) -> Option<Command>
    ensures exact { result ≡ command_as verb (λ name. first_of name (rows_of (found_of matches.now))) }
    ensures ranges { IfSome result InRange }
{
    match verb {
        Verb::Play => Some(Command::Play),
        Verb::Trial => Some(Command::Trial),
        Verb::Replay => {
            let workers = number_in(matches, "first", 1, 64)? as u32;
            Some(Command::Replay { workers })
        }
        Verb::Drill => {
            let seed = number_in(matches, "first", 0, 1_000_000)?;
            let rows = number_in(matches, "second", 1, 1_000_000)?;
            let workers = number_in(matches, "third", 1, 64)? as u32;
            Some(Command::Drill {
                seed,
                rows,
                workers,
            })
        }
        Verb::Relay => {
            let workers = number_in(matches, "first", 1, 64)? as u32;
            let capacity = number_in(matches, "second", 1, 65_536)? as u32;
            Some(Command::Relay { workers, capacity })
        }
        Verb::Rounds => Some(Command::Rounds),
        Verb::Tally => {
            let workers = number_in(matches, "first", 1, 64)? as u32;
            let grain = number_in(matches, "second", 1, 1024)?;
            Some(Command::Tally { workers, grain })
        }
        Verb::Throttle => {
            let workers = number_in(matches, "first", 1, 64)? as u32;
            let burst = number_in(matches, "second", 1, MOST)?;
            let rate = number_in(matches, "third", 1, MOST)?;
            let period = number_in(matches, "fourth", 1, MOST)?;
            Some(Command::Throttle {
                workers,
                burst,
                rate,
                period,
            })
        }
    }
}

// The number of the word of a name, from low to high.
fn number_in(matches: &ArgMatches, name: &str, low: u64, high: u64) -> Option<u64>
    ensures exact { result ≡ number_in low high (first_of name.now (rows_of (found_of matches.now))) }
    ensures bounds { IfSome result (λ n. (low ≤ n) × (n ≤ high)) }
{
    number_of(matches.get_str(name)?.as_bytes(), low, high)
}

// The number that a word is, from low to high.
fn number_of(word: &[u8], low: u64, high: u64) -> Option<u64>
    ensures exact { result ≡ number_in low high (Some word.now) }
    ensures bounds { IfSome result (λ n. (low ≤ n) × (n ≤ high)) }
{
    match number(word) {
        Some(n) if low <= n && n <= high => Some(n),
        _ => None,
    }
}
