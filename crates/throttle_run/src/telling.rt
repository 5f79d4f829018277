//! The text of answers.
ghost use Rattle.std.specs.Prelude.{◌≡◌, ◌++◌, IfOk, OnOk, decimal, length};
ghost use Rattle.throttle_run.specs.Throttled.{number_text, line_text, lines_text, last_text};

use crate::lines::ThrottleLine;
use itoa::Buffer;
use quota_bucket::Taken;
use std::alloc::{AllocError, Global};

/// The bytes for which room is made at a line.
const ROOM: usize = 32;

/// The text of each line, and then of the last tick and the tokens.
pub fn text_of(
    alloc: Global,
    lines: &[ThrottleLine],
    answers: &[Taken],
    tick: u64,
    tokens: u64,
) -> Result<Vec<u8>, AllocError>
    requires { length answers.now ≡ length lines.now }
    ensures { IfOk result (λ text. text.items ≡ lines_text lines.now answers.now ++ last_text tick tokens) }
{
    let mut text = Vec::with_capacity(alloc, lines.len().saturating_mul(ROOM))?;
    push_lines(&mut text, lines, answers)?;
    push_last(&mut text, tick, tokens)?;
    Ok(text)
}

// Appends the text of each line.
fn push_lines(
    text: &mut Vec<u8>,
    lines: &[ThrottleLine],
    answers: &[Taken],
) -> Result<(), AllocError>
    requires { length answers.now ≡ length lines.now }
    ensures { OnOk result (text.new.items ≡ text.old.items ++ lines_text lines.now answers.now) }
{
    for (i, line) in lines.iter().enumerate() {
        push_line(text, *line, answers[i])?;
    }
    Ok(())
}

// Appends the text of a line.
fn push_line(text: &mut Vec<u8>, line: ThrottleLine, told: Taken) -> Result<(), AllocError>
    ensures { OnOk result (text.new.items ≡ text.old.items ++ line_text line told) }
{
    push_number(text, line.at)?;
    push_next(text, told.before)?;
    push_next(text, told.moved)?;
    push_next(text, told.refilled)?;
    text.extend_from_slice(b"\n")
}

// Appends the last line.
fn push_last(text: &mut Vec<u8>, tick: u64, tokens: u64) -> Result<(), AllocError>
    ensures { OnOk result (text.new.items ≡ text.old.items ++ last_text tick tokens) }
{
    text.extend_from_slice(b"tick ")?;
    push_number(text, tick)?;
    text.extend_from_slice(b" value ")?;
    push_number(text, tokens)?;
    text.extend_from_slice(b"\n")
}

// Appends a number behind a space.
fn push_next(text: &mut Vec<u8>, number: u64) -> Result<(), AllocError>
    ensures { OnOk result (text.new.items ≡ text.old.items ++ number_text number) }
{
    text.extend_from_slice(b" ")?;
    push_number(text, number)
}

fn push_number(text: &mut Vec<u8>, number: u64) -> Result<(), AllocError>
    ensures { OnOk result (text.new.items ≡ text.old.items ++ decimal number) }
{
    let mut buffer = Buffer::new();
    text.extend_from_slice(buffer.format(number).as_bytes())
}
