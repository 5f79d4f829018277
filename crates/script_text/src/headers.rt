//! The first line with words: the numbers of a shape, and an opening.
ghost use Rattle.std.specs.Prelude.{◌≡◌, ◌≤◌, Ok, Err, IfOk, MatchResult};
ghost use Rattle.text_lines.specs.Text.{words};
ghost use Rattle.script_text.specs.Script.{after_funnel, capped, header_in, header_of, next_number, no_more, shaped};

use crate::scripts::ScriptFault;
use fn_layout::Shape;
use text_lines::{MOST_NUMBER, Words, number};

/// Reads `funnel` and five numbers, of which four make a shape.
#[tactic(auto, unfolding(crate::specs::Script::header_of))]
pub fn read_header(at: u64, line: &[u8]) -> Result<(Shape, u64), ScriptFault>
    ensures exact { MatchResult result
        (λ header. header_of at (words line.now) ≡ Ok (header_in header.0 header.1))
        (λ fault. header_of at (words line.now) ≡ Err fault) }
    ensures opening { IfOk result (λ header. header.1 ≤ MOST_NUMBER) }
{
    let mut words = Words::new(line);
    take_funnel(at, &mut words)?;
    let passes = next_number(at, &mut words)?;
    let leaves = next_number(at, &mut words)?;
    let levels = next_number(at, &mut words)?;
    let rows = next_number(at, &mut words)?;
    let opening = next_number(at, &mut words)?;
    take_end(at, &mut words)?;
    let shape = read_shape(passes, leaves, levels, rows, opening)?;
    Ok((shape, opening))
}

// Takes the word `funnel`.
#[tactic(auto, unfolding(crate::specs::Script::after_funnel))]
fn take_funnel(at: u64, words: &mut Words<'_>) -> Result<(), ScriptFault>
    ensures { MatchResult result
        (λ _. after_funnel at words.old ≡ Ok words.new)
        (λ fault. after_funnel at words.old ≡ Err fault) }
{
    let Some(name) = words.next() else {
        return Err(ScriptFault::Header { at });
    };
    if name == b"funnel".as_slice() {
        Ok(())
    } else {
        Err(ScriptFault::Header { at })
    }
}

// Takes a word that is a number.
#[tactic(auto, unfolding(crate::specs::Script::next_number))]
fn next_number(at: u64, words: &mut Words<'_>) -> Result<u64, ScriptFault>
    ensures exact { MatchResult result
        (λ n. next_number at words.old ≡ Ok (n, words.new))
        (λ fault. next_number at words.old ≡ Err fault) }
    ensures bound { IfOk result (λ n. n ≤ MOST_NUMBER) }
{
    let Some(word) = words.next() else {
        return Err(ScriptFault::Header { at });
    };
    match number(word) {
        Some(n) => Ok(n),
        None => Err(ScriptFault::Header { at }),
    }
}

// Wants no further word.
#[tactic(auto, unfolding(crate::specs::Script::no_more))]
fn take_end(at: u64, words: &mut Words<'_>) -> Result<(), ScriptFault>
    ensures { MatchResult result
        (λ _. (no_more at words.old) ≡ Ok tt)
        (λ fault. no_more at words.old ≡ Err fault) }
{
    match words.next() {
        None => Ok(()),
        Some(_) => Err(ScriptFault::Header { at }),
    }
}

// The shape of four numbers, of which each too great for 32 bits counts as their greatest.
#[tactic(auto, unfolding(crate::specs::Script::shaped))]
fn read_shape(
    passes: u64,
    leaves: u64,
    levels: u64,
    rows: u64,
    opening: u64,
) -> Result<Shape, ScriptFault>
    ensures { MatchResult result
        (λ shape. shaped (capped passes) (capped leaves) (capped levels) (capped rows) opening ≡ Ok (header_in shape opening))
        (λ fault. shaped (capped passes) (capped leaves) (capped levels) (capped rows) opening ≡ Err fault) }
{
    match Shape::new(capped(passes), capped(leaves), capped(levels), capped(rows)) {
        Ok(shape) => Ok(shape),
        Err(fault) => Err(ScriptFault::Shape(fault)),
    }
}

fn capped(n: u64) -> u32
    ensures { result ≡ capped n }
{
    u32::try_from(n).unwrap_or(u32::MAX)
}
