//! What each line of a script is answered, and the text of the answers.
ghost use Rattle.std.specs.Prelude.{◌≡◌, ◌++◌, decimal, OnOk};
ghost use Rattle.script_run.specs.Lines.{answer_line, answer_text, lost_text, pair_text, value_line, why_text};

use fn_core::{Blocked, Why};
use itoa::Buffer;
use std::alloc::AllocError;

/// What a line of a script is answered.
#[derive(Clone, Copy, Debug, PartialEq, Eq)]
pub enum LineAnswer {
    Waits,
    NoRow(Blocked),
    Going,
    Reply(u64),
    NotYet(Why),
    /// A direct subtraction's exchange found another word than the loaded one.
    Lost { loaded: u64, found: u64 },
    Met,
}

/// Appends the line of an answer.
pub fn push_line(text: &mut Vec<u8>, answer: LineAnswer) -> Result<(), AllocError>
    ensures { OnOk result (text.new.items ≡ text.old.items ++ answer_line answer) }
{
    push_answer(text, answer)?;
    text.extend_from_slice(b"\n")
}

/// Appends the line that gives the value.
pub fn push_value(text: &mut Vec<u8>, value: u64) -> Result<(), AllocError>
    ensures { OnOk result (text.new.items ≡ text.old.items ++ value_line value) }
{
    text.extend_from_slice(b"value ")?;
    push_number(text, value)?;
    text.extend_from_slice(b"\n")
}

fn push_answer(text: &mut Vec<u8>, answer: LineAnswer) -> Result<(), AllocError>
    ensures { OnOk result (text.new.items ≡ text.old.items ++ answer_text answer) }
{
    match answer {
        LineAnswer::Waits => text.extend_from_slice(b"waits"),
        LineAnswer::NoRow(blocked) => push_blocked(text, blocked),
        LineAnswer::Going => text.extend_from_slice(b"going"),
        LineAnswer::Reply(number) => push_reply(text, number),
        LineAnswer::NotYet(why) => push_why(text, why),
        LineAnswer::Lost { loaded, found } => push_lost(text, loaded, found),
        LineAnswer::Met => text.extend_from_slice(b"met"),
    }
}

fn push_blocked(text: &mut Vec<u8>, blocked: Blocked) -> Result<(), AllocError>
    ensures { OnOk result (text.new.items ≡ text.old.items ++ answer_text (LineAnswer.NoRow blocked)) }
{
    text.extend_from_slice(b"norow ")?;
    push_pair(text, u64::from(blocked.level), u64::from(blocked.row))?;
    text.extend_from_slice(b" ")?;
    push_pair(text, u64::from(blocked.pass), blocked.announced)
}

fn push_reply(text: &mut Vec<u8>, number: u64) -> Result<(), AllocError>
    ensures { OnOk result (text.new.items ≡ text.old.items ++ answer_text (LineAnswer.Reply number)) }
{
    text.extend_from_slice(b"reply ")?;
    push_number(text, number)
}

fn push_why(text: &mut Vec<u8>, why: Why) -> Result<(), AllocError>
    ensures { OnOk result (text.new.items ≡ text.old.items ++ answer_text (LineAnswer.NotYet why)) }
{
    text.extend_from_slice(b"notyet ")?;
    match why {
        Why::Behind { done, at } => {
            text.extend_from_slice(b"behind ")?;
            push_pair(text, done, at)
        }
        Why::Lost { loaded, found } => push_lost(text, loaded, found),
    }
}

fn push_lost(text: &mut Vec<u8>, loaded: u64, found: u64) -> Result<(), AllocError>
    ensures { OnOk result (text.new.items ≡ text.old.items ++ lost_text loaded found) }
{
    text.extend_from_slice(b"lost ")?;
    push_pair(text, loaded, found)
}

fn push_pair(text: &mut Vec<u8>, first: u64, second: u64) -> Result<(), AllocError>
    ensures { OnOk result (text.new.items ≡ text.old.items ++ pair_text first second) }
{
    push_number(text, first)?;
    text.extend_from_slice(b" ")?;
    push_number(text, second)
}

fn push_number(text: &mut Vec<u8>, number: u64) -> Result<(), AllocError>
    ensures { OnOk result (text.new.items ≡ text.old.items ++ decimal number) }
{
    let mut buffer = Buffer::new();
    text.extend_from_slice(buffer.format(number).as_bytes())
}
