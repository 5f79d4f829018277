//! The lines of a text.
ghost use Rattle.std.specs.Prelude.{◌≡◌, ◌==◌, length, count_by, map, IfOk};
ghost use Rattle.std.specs.List.{slice_split};
ghost use Rattle.std.specs.Io.BufRead.{strip_last};
ghost use Rattle.relay_run.specs.Lines.{lines_of, IsSplit};

use std::alloc::{AllocError, Global};
use std::marker::Model;

/// The most lines that are relayed.
pub const MOST_LINES: u64 = 1_000_000;

/// Lines, in order, as they stand in the text.
#[derive(Drop)]
pub struct Lines<'a> {
    pub(crate) items: Vec<&'a [u8]>,
}

impl<'a> Model for Lines<'a> {
    ghost use Rattle.std.specs.Prelude.{List, ℕ, map};

    ghost Value = { List (List ℕ) };

    ghost view = { λ lines. map (λ line. line.now) lines.items.items };
}

impl<'a> Lines<'a> {
    /// How many lines there are.
    pub fn count(&self) -> usize
        ensures { result ≡ length self.now }
    {
        self.items.len()
    }
}

/// Why lines aren't relayed.
#[derive(Clone, Copy, Debug, PartialEq, Eq)]
pub enum LinesFault {
    /// there is a line of this number, which is one more than may be
    TooMany { at: u64 },
    /// memory ran out
    NoMemory,
}

impl From<AllocError> for LinesFault {
    ghost use Rattle.std.specs.Prelude.{◌≡◌};
    ghost use Rattle.relay_run.specs.declared.lines.LinesFault.TheVariants as fault;

    ghost from_gives = { λ _ e. e ≡ fault.NoMemory };

    fn from(_: AllocError) -> Self {
        LinesFault::NoMemory
    }
}

// How many newlines a text has.
fn newlines(text: &[u8]) -> usize
    ensures { result ≡ count_by (λ byte. byte == 10) text.now }
{
    text.iter().filter(|byte| **byte == b'\n').count()
}

// The parts of a text between newlines.
fn parts<'a>(alloc: Global, text: &'a [u8]) -> Result<Vec<&'a [u8]>, AllocError>
    ensures { IfOk result (λ all. map (λ part. part.now) all.items ≡ slice_split (λ byte. byte == 10) text.entry.now) }
{
    text.split(|byte| *byte == b'\n').collect(alloc)
}

// A text without one newline at its end.
fn without_newline(text: &[u8]) -> &[u8]
    ensures { result.now ≡ strip_last 10 text.now }
{
    match text.split_last() {
        Some((last, front)) if *last == b'\n' => front,
        _ => text,
    }
}

/// Finds the lines of a text. Too many are refused, and then want of memory.
pub fn split_lines<'a>(alloc: Global, bytes: &'a [u8]) -> Result<Lines<'a>, LinesFault>
    ensures { IsSplit (lines_of bytes.entry.now) result }
{
    if bytes.is_empty() {
        return Ok(Lines {
            items: Vec::new(alloc),
        });
    }
    let text = without_newline(bytes);
    if newlines(text) as u64 >= MOST_LINES {
        return Err(LinesFault::TooMany { at: MOST_LINES + 1 });
    }
    match parts(alloc, text) {
        Ok(items) => Ok(Lines { items }),
        Err(_) => Err(LinesFault::NoMemory),
    }
}
