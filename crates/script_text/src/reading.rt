//! Reading a script: line by line, up to the first fault.
ghost use Rattle.std.specs.Prelude.{◌≡◌, ◌≤◌, ◌+◌, ◌^◌, ◌<◌, ◌++◌, length, Ok, Some, None, IfOk, IfSome, OnOk, IfErr, MatchOption, option_to_list};
ghost use Rattle.script_text.specs.Script.{Content, Gives, content, first_with_words, has_words, lines_of, script_from, script_of, total_with, within_limit};
ghost use Rattle.script_text.specs.Faults.{FirstLineIsAtFault, LineFaultsAreFirst};
ghost use Rattle.script_text.specs.Grammar.{IsScript};
ghost use Rattle.script_text.specs.Sound.{IsNumbered, IsSound};
ghost use Rattle.text_lines.specs.Text.{lines};
ghost use Rattle.script_text.specs.WholeFaults.{FirstIsRefused, IsRefusedFor, RefusedForFirst};

use crate::headers::read_header;
use crate::orders::read_line;
use crate::scripts::{Script, ScriptFault, ScriptLine, ScriptLines};
use std::alloc::Global;
use text_lines::{Lines, MOST_NUMBER, Words};

/// The most lines of a script.
pub const MOST_LINES: u64 = 65_536;

/// Reads a script, or finds its first fault: that of the least line, and there the first as
/// `ScriptFault` has them.
#[tactic(auto, unfolding(crate::specs::Script::script_from))]
pub fn read_script(alloc: Global, bytes: &[u8]) -> Result<Script, ScriptFault>
    ensures found { IfOk result (λ script. IsScript bytes.now (content script)) }
    ensures only { (script : Content) → IsScript bytes.now script → Gives content result (Ok script) }
    ensures first { IfErr result (λ fault. IsRefusedFor (lines bytes.now) fault) }
    ensures exact { Gives content result (script_of bytes.now) }
    ensures sound { IfOk result IsSound }
    ensures numbered { IfOk result (λ script. IsNumbered script.lines) }
{
    let mut lines = Lines::new(bytes);
    match first_line(&mut lines) {
        Some((at, line)) => read_from(alloc, at, line, lines),
        None => Err(ScriptFault::Header { at: 1 }),
    }
}

// Reads a script from its first line with words on.
#[tactic(auto, unfolding(crate::specs::Script::script_from))]
fn read_from(alloc: Global, at: u64, line: &[u8], lines: Lines<'_>) -> Result<Script, ScriptFault>
    ensures { Gives content result (script_from (Some (record { at = at; line = line.now; rest = lines.entry }))) }
{
    if at > MOST_LINES + 1 {
        return Err(ScriptFault::TooMany { at: MOST_LINES + 1 });
    }
    let (shape, opening) = read_header(at, line)?;
    check_limit(at)?;
    let items = read_lines(alloc, lines, shape.passes(), at, opening)?;
    Ok(Script {
        shape,
        opening,
        lines: ScriptLines { items },
    })
}

/// A line that is refused is so for its first fault, and lines that are refused are so for the
/// first of them that is at fault. A script is refused exactly for its first fault.
pub fn fault_laws()
    ensures line_faults_are_first { LineFaultsAreFirst }
    ensures first_line_is_at_fault { FirstLineIsAtFault }
    ensures refused_for_first { RefusedForFirst }
    ensures first_is_refused { FirstIsRefused }
{}

// Takes the lines up to the first with words, and gives that one with its number.
fn first_line<'a>(lines: &mut Lines<'a>) -> Option<(u64, &'a [u8])>
    requires { length lines.old < 2 ^ 64 }
    ensures counted { IfSome result (λ first. 1 ≤ first.0) }
    ensures exact { MatchOption result
        (first_with_words 1 lines.old ≡ None)
        (λ first. first_with_words 1 lines.old ≡ Some (record { at = first.0; line = first.1.now; rest = lines.new })) }
{
    let mut at = 0;
    while let Some(line) = lines.next() {
        at += 1;
        if has_words(line) {
            return Some((at, line));
        }
    }
    None
}

fn has_words(line: &[u8]) -> bool
    ensures { result ≡ has_words line.now }
{
    Words::new(line).next().is_some()
}

// Refuses a line past the limit.
#[tactic(auto, unfolding(crate::specs::Script::within_limit))]
fn check_limit(at: u64) -> Result<(), ScriptFault>
    ensures exact { result ≡ within_limit at }
    ensures within { OnOk result (at ≤ MOST_LINES) }
{
    if at > MOST_LINES {
        return Err(ScriptFault::TooMany { at });
    }
    Ok(())
}

// Reads the lines after the first one.
fn read_lines(
    alloc: Global,
    lines: Lines<'_>,
    passes: u32,
    first: u64,
    opening: u64,
) -> Result<Vec<ScriptLine>, ScriptFault>
    requires first { first ≤ MOST_LINES }
    requires opening { opening ≤ MOST_NUMBER }
    ensures { Gives (λ v. v.items) result (lines_of passes (first + 1) opening lines.entry) }
{
    let mut lines = lines;
    let mut items = Vec::new(alloc);
    let mut at = first;
    let mut total = opening;
    while let Some(line) = lines.next() {
        at += 1;
        let read = read_line(passes, at, line)?;
        check_limit(at)?;
        total = keep(&mut items, at, total, read)?;
    }
    Ok(items)
}

// Keeps a line, and gives what opening and amounts come to with it.
#[tactic(auto, unfolding(crate::specs::Script::total_with))]
fn keep(
    items: &mut Vec<ScriptLine>,
    at: u64,
    total: u64,
    read: Option<ScriptLine>,
) -> Result<u64, ScriptFault>
    requires { total ≤ MOST_NUMBER }
    ensures total { Gives (λ n. n) result (total_with at total read) }
    ensures bound { IfOk result (λ n. n ≤ MOST_NUMBER) }
    ensures items { OnOk result (items.new.items ≡ items.old.items ++ option_to_list read) }
{
    let Some(line) = read else {
        return Ok(total);
    };
    let amount = line.order.amount();
    if amount > MOST_NUMBER - total {
        return Err(ScriptFault::Total { at });
    }
    match items.push(line) {
        Ok(()) => Ok(total + amount),
        Err(_) => Err(ScriptFault::NoMemory),
    }
}
