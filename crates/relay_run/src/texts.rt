//! The text of relayed lines.
ghost use Rattle.std.specs.Prelude.{◌≡◌, ◌<◌, ◌++◌, All, IfOk, length};
ghost use Rattle.relay_run.specs.Relay.{line_text, text_from};

use crate::lines::Lines;
use itoa::Buffer;
use std::alloc::Global;
use tq_queue::NoMemory;

// Appends a line of the text.
fn push_line(text: &mut Vec<u8>, ticket: u64, line: &[u8]) -> Result<(), NoMemory>
    ensures { IfOk result (λ _. text.new.items ≡ text.old.items ++ line_text ticket line.now) }
{
    let mut digits = Buffer::new();
    text.extend_from_slice(digits.format(ticket).as_bytes())?;
    text.extend_from_slice(b" ")?;
    text.extend_from_slice(line)?;
    text.extend_from_slice(b"\n")?;
    Ok(())
}

/// For each line, by rising ticket, its ticket and the line. `order` has the numbers of the lines by rising ticket.
pub fn relay_text(alloc: Global, lines: &Lines<'_>, order: &[u64]) -> Result<Vec<u8>, NoMemory>
    requires { All (λ number. number < length lines.now) order.now }
    ensures { IfOk result (λ text. text.items ≡ text_from 0 lines.now order.now) }
{
    let mut text = Vec::new(alloc);
    for (ticket, number) in order.iter().enumerate() {
        let line = lines.items[*number as usize];
        push_line(&mut text, ticket as u64, line)?;
    }
    Ok(text)
}
