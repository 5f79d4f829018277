// The text of a script's replies.
ghost use Rattle.std.specs.Prelude.{◌≡◌, ◌++◌, IfOk, OnOk, codes, decimal, length};
ghost use Rattle.fn_rounds.specs.Script.{reply_line, reply_lines};

use itoa::Buffer;
use script_text::ScriptLine;
use std::alloc::{AllocError, Global};

/// The line of each reply, and the value.
pub fn text_of(
    alloc: Global,
    lines: &[ScriptLine],
    replies: &[u64],
    value: u64,
) -> Result<Vec<u8>, AllocError>
    requires { length replies.now ≡ length lines.now }
    ensures { IfOk result (λ text. text.items ≡ reply_lines lines.now replies.now ++ codes "value " ++ decimal value ++ codes "\n") }
{
    let mut text = Vec::new(alloc);
    push_replies(&mut text, lines, replies)?;
    text.extend_from_slice(b"value ")?;
    push_number(&mut text, value)?;
    text.extend_from_slice(b"\n")?;
    Ok(text)
}

// Appends the line of each reply.
fn push_replies(text: &mut Vec<u8>, lines: &[ScriptLine], replies: &[u64]) -> Result<(), AllocError>
    requires { length replies.now ≡ length lines.now }
    ensures { OnOk result (text.new.items ≡ text.old.items ++ reply_lines lines.now replies.now) }
{
    for (i, line) in lines.iter().enumerate() {
        push_reply(text, *line, replies[i])?;
    }
    Ok(())
}

// Appends the line of a reply.
fn push_reply(text: &mut Vec<u8>, line: ScriptLine, reply: u64) -> Result<(), AllocError>
    ensures { OnOk result (text.new.items ≡ text.old.items ++ reply_line line reply) }
{
    text.extend_from_slice(b"reply ")?;
    push_number(text, line.at)?;
    text.extend_from_slice(b" ")?;
    push_number(text, reply)?;
    text.extend_from_slice(b"\n")
}

fn push_number(text: &mut Vec<u8>, number: u64) -> Result<(), AllocError>
    ensures { OnOk result (text.new.items ≡ text.old.items ++ decimal number) }
{
    let mut buffer = Buffer::new();
    text.extend_from_slice(buffer.format(number).as_bytes())
}
