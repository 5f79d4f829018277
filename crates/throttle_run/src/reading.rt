//! Reading a text of takes: line by line, up to the first fault.
ghost use Rattle.std.specs.Prelude.{◌≡◌, ◌≤◌, ◌++◌, Ok, IfOk, IfErr, OnOk, option_to_list};
ghost use Rattle.text_lines.specs.Text.{lines, words};
ghost use Rattle.throttle_run.specs.Faults.{FirstFaultIsTold, IsRefusedFor, LineFaultsAreFirst};
ghost use Rattle.throttle_run.specs.Grammar.{SpellsTakes, TakesAreRead};
ghost use Rattle.throttle_run.specs.Lines.{AreSound, Fails, Gives, amount_of, line_of, moment_of, take_of, throttle_of, total_with, within_limit, worker_of};

use crate::faults::ThrottleFault;
use crate::lines::ThrottleLine;
use std::alloc::Global;
use text_lines::{Lines, Words, number};

/// The most lines of a text, with words or without.
pub const MOST_LINES: u64 = 1_000_000;

/// The most that the burst and what all lines may move come to.
pub const MOST_TOTAL: u64 = 9_223_372_036_854_775_807;

/// Reads a text of takes, or finds its first fault: that of the least line, and there the first
/// as `ThrottleFault` has them.
pub fn read_lines(
    alloc: Global,
    bytes: &[u8],
    workers: u32,
    burst: u64,
) -> Result<Vec<ThrottleLine>, ThrottleFault>
    requires { burst ≤ MOST_TOTAL }

    // what the lines say, or why they are refused
    ensures spelled { IfOk result (λ read. SpellsTakes workers burst (lines bytes.now) read.items) }
    ensures first { IfErr result (λ fault. IsRefusedFor workers burst (lines bytes.now) fault) }

    // the same as a function of the bytes
    ensures lines { IfOk result (λ read. throttle_of workers burst bytes.now ≡ Ok read.items) }
    ensures faults { IfErr result (λ fault. Fails fault (throttle_of workers burst bytes.now)) }

    ensures sound { IfOk result (λ read. AreSound workers burst read.items) }
{
    let mut lines = Lines::new(bytes);
    let mut items = Vec::new(alloc);
    let mut at = 0;
    let mut total = burst;
    while let Some(line) = lines.next() {
        at += 1;
        let read = read_line(workers, at, line)?;
        check_limit(at)?;
        total = keep(&mut items, at, burst, total, read)?;
    }
    Ok(items)
}

/// A text is read as the takes that its lines say, or refused for the first fault of the first of
/// its lines that is at fault.
pub fn reading_laws()
    ensures takes_are_read { TakesAreRead }
    ensures first_fault_is_told { FirstFaultIsTold }
    ensures line_faults_are_first { LineFaultsAreFirst }
{}

// Reads a line, which says nothing where it has no words.
#[tactic(auto, unfolding(crate::specs::Lines::line_of))]
fn read_line(workers: u32, at: u64, line: &[u8]) -> Result<Option<ThrottleLine>, ThrottleFault>
    ensures { result ≡ line_of workers at (words line.now) }
{
    let mut words = Words::new(line);
    let Some(worker) = words.next() else {
        return Ok(None);
    };
    let Some(now) = words.next() else {
        return Err(ThrottleFault::Fields { at });
    };
    let Some(amount) = words.next() else {
        return Err(ThrottleFault::Fields { at });
    };
    match words.next() {
        None => Ok(Some(take_of(workers, at, worker, now, amount)?)),
        Some(_) => Err(ThrottleFault::Fields { at }),
    }
}

// Reads a take from the three words of a line.
#[tactic(auto, unfolding(crate::specs::Lines::take_of))]
fn take_of(
    workers: u32,
    at: u64,
    worker: &[u8],
    now: &[u8],
    amount: &[u8],
) -> Result<ThrottleLine, ThrottleFault>
    ensures { result ≡ take_of workers at worker.now now.now amount.now }
{
    let worker = worker_of(workers, at, worker)?;
    let now = moment_of(at, now)?;
    let amount = amount_of(at, amount)?;
    Ok(ThrottleLine {
        at,
        worker,
        now,
        amount,
    })
}

#[tactic(auto, unfolding(crate::specs::Lines::worker_of))]
fn worker_of(workers: u32, at: u64, word: &[u8]) -> Result<u32, ThrottleFault>
    ensures { result ≡ worker_of workers at word.now }
{
    match number(word) {
        Some(n) if n < u64::from(workers) => Ok(n as u32),
        _ => Err(ThrottleFault::Worker { at }),
    }
}

#[tactic(auto, unfolding(crate::specs::Lines::moment_of))]
fn moment_of(at: u64, word: &[u8]) -> Result<u64, ThrottleFault>
    ensures { result ≡ moment_of at word.now }
{
    match number(word) {
        Some(n) => Ok(n),
        None => Err(ThrottleFault::Amount { at }),
    }
}

#[tactic(auto, unfolding(crate::specs::Lines::amount_of))]
fn amount_of(at: u64, word: &[u8]) -> Result<u64, ThrottleFault>
    ensures { result ≡ amount_of at word.now }
{
    match number(word) {
        Some(n) if n > 0 => Ok(n),
        _ => Err(ThrottleFault::Amount { at }),
    }
}

// Refuses a line past the limit.
#[tactic(auto, unfolding(crate::specs::Lines::within_limit))]
fn check_limit(at: u64) -> Result<(), ThrottleFault>
    ensures exact { result ≡ within_limit at }
    ensures within { OnOk result (at ≤ MOST_LINES) }
{
    if at > MOST_LINES {
        return Err(ThrottleFault::TooMany { at });
    }
    Ok(())
}

// Keeps a line, and gives what the burst and all costs come to with it.
#[tactic(auto, unfolding(crate::specs::Lines::total_with))]
fn keep(
    items: &mut Vec<ThrottleLine>,
    at: u64,
    burst: u64,
    total: u64,
    read: Option<ThrottleLine>,
) -> Result<u64, ThrottleFault>
    requires { total ≤ MOST_TOTAL }
    ensures total { Gives (λ n. n) result (total_with burst at total read) }
    ensures bound { IfOk result (λ n. n ≤ MOST_TOTAL) }
    ensures items { OnOk result (items.new.items ≡ items.old.items ++ option_to_list read) }
{
    let Some(line) = read else {
        return Ok(total);
    };
    let left = MOST_TOTAL - total;
    if line.amount > left || burst > left - line.amount {
        return Err(ThrottleFault::Total { at });
    }
    match items.push(line) {
        Ok(()) => Ok(total + (line.amount + burst)),
        Err(_) => Err(ThrottleFault::NoMemory),
    }
}
