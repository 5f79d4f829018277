//! The text of each command, from the bytes of its input.
ghost use Rattle.std.specs.Prelude.{◌≡◌, ◌≤◌, [], IfOk, length, map};
ghost use Rattle.fn_model.specs.declared.TheConstants.{NO_CAP};
ghost use Rattle.replay_run.specs.Replay.{value_in};
ghost use Rattle.trace_text.specs.Drill.{drill};
ghost use Rattle.trace_text.specs.SoundTrace.{IsSoundTrace};
ghost use Rattle.trace_text.specs.Trace.{content};
ghost use Rattle.tool_words.specs.declared.commands.Command.TheVariants as command;
ghost use Rattle.relay_run.specs.declared.lines.TheConstants.{MOST_LINES};
ghost use Rattle.tool_run.specs.Handed.{handed};
ghost use Rattle.tool_run.specs.Accounts.{HasRelayed, IsReport, IsSummary};
ghost use Rattle.tool_run.specs.declared.ending.TheConstants.{INPUT_LIMIT};
ghost use Rattle.tool_run.specs.Telling.{HasBook, HasScript, IsTelling};

use crate::ending::{Ending, Refusal};
use crate::handed::Handed;
use fn_rounds::{other_order, rounds_text};
use fn_spread::tally_text;
use fn_table::Book;
use gates::Gate;
use relay_run::{Lines, LinesFault, Relayed, relay, relay_text, split_lines};
use replay_report::{report_text, summary_text};
use replay_run::{Replayed, replay};
use script_run::{Caller, PlayFault, play_script, trial_script};
use script_text::{Script, ScriptFault, read_script};
use std::alloc::{AllocError, AllocGlobal, Global};
use std::random::RandomSource;
use std::sync::Wait;
use std::thread::Threads;
use throttle_run::{ThrottleFault, throttle_text};
use trace_text::{NoMemory, Trace, TraceFault, make_drill, read_trace};

/// The text of a command, and what it hands back.
#[derive(Drop)]
pub struct Told {
    pub text: Vec<u8>,
    pub handed: Handed,
}

/// How a run ends that has no text, and the callers of a table on which a line of a script can't be done.
#[derive(Drop)]
pub struct Untold {
    pub ending: Ending,
    pub halted: Vec<Caller>,
}

impl Untold {
    ghost use Rattle.std.specs.Prelude.{◌≡◌, []};

    /// An end that hands back no callers.
    pub fn new(alloc: Global, ending: Ending) -> Untold
        ensures ending { result.ending ≡ ending }
        ensures halted { result.halted.items ≡ [] }
    {
        Untold {
            ending,
            halted: Vec::new(alloc),
        }
    }
}

/// Plays a script on the pure core.
pub fn tell_play(alloc: Global, bytes: &[u8]) -> Result<Told, Untold>
    ensures { IsTelling command.Play bytes.now result }
{
    let script = script_in(alloc, bytes)?;
    match play_script(alloc, &script) {
        Ok(text) => Ok(Told {
            text,
            handed: Handed::nothing(alloc),
        }),
        Err(PlayFault::NoMemory) => Err(Untold::new(alloc, Ending::NoMemory)),
        Err(fault) => Err(Untold::new(alloc, Ending::Refused(Refusal::ByPlay(fault)))),
    }
}

/// Runs a script on the table.
pub fn tell_trial(alloc: Global, bytes: &[u8]) -> Result<Told, Untold>
    ensures { IsTelling command.Trial bytes.now result }
{
    let script = script_in(alloc, bytes)?;
    match trial_script(alloc, &script) {
        Ok((text, book)) => tell_book(alloc, text, book),
        Err((PlayFault::NoMemory, _)) => Err(Untold::new(alloc, Ending::NoMemory)),
        Err((fault, halted)) => Err(Untold {
            ending: Ending::Refused(Refusal::ByPlay(fault)),
            halted,
        }),
    }
}

// A text and its one book.
fn tell_book(alloc: Global, text: Vec<u8>, book: Book) -> Result<Told, Untold>
    ensures { HasBook text.items book result }
{
    match Handed::book(alloc, book) {
        Ok(handed) => Ok(Told { text, handed }),
        Err(_) => Err(Untold::new(alloc, Ending::NoMemory)),
    }
}

// The script that some bytes spell.
fn script_in(alloc: Global, bytes: &[u8]) -> Result<Script, Untold>
    ensures { HasScript bytes.now result }
{
    match read_script(alloc, bytes) {
        Ok(script) => Ok(script),
        Err(ScriptFault::NoMemory) => Err(Untold::new(alloc, Ending::NoMemory)),
        Err(fault) => Err(Untold::new(alloc, Ending::Refused(Refusal::ByScript(fault)))),
    }
}

/// Replays a trace.
pub fn tell_replay<R: Threads + Wait + Sync, G: Gate + Sync>(
    rt: &R,
    alloc: Global,
    workers: u32,
    bytes: &[u8],
    gate: &G,
) -> Result<Told, Untold>
    requires { (1 ≤ workers) × (workers ≤ 64) }
    ensures { IsTelling (command.Replay workers) bytes.now result }
{
    match read_trace(alloc, workers, bytes) {
        Ok(trace) => match report(rt, alloc, workers, &trace, gate) {
            Ok(told) => Ok(told),
            Err(NoMemory) => Err(Untold::new(alloc, Ending::NoMemory)),
        },
        Err(TraceFault::NoMemory) => Err(Untold::new(alloc, Ending::NoMemory)),
        Err(fault) => Err(Untold::new(alloc, Ending::Refused(Refusal::ByTrace(fault)))),
    }
}

// Replays a trace, and reports it.
fn report<R: Threads + Wait + Sync, G: Gate + Sync>(
    rt: &R,
    alloc: Global,
    workers: u32,
    trace: &Trace,
    gate: &G,
) -> Result<Told, NoMemory>
    requires workers { (1 ≤ workers) × (workers ≤ 64) }
    requires sound { IsSoundTrace workers (content trace.now) }
    ensures { IfOk result (λ told. IsReport workers (content trace.now) told.text.items (handed told.handed)) }
{
    let Replayed { answers, books } = replay(rt, alloc, trace, workers, gate)?;
    let finals = values_of(alloc, &books)?;
    let text = report_text(alloc, trace, &answers, &finals)?;
    Ok(Told {
        text,
        handed: Handed::replayed(answers, books),
    })
}

/// Replays the trace of a drill, which has no input.
pub fn tell_drill<R: Threads + Wait + Sync, G: Gate + Sync>(
    rt: &R,
    alloc: Global,
    seed: u64,
    rows: u64,
    workers: u32,
    gate: &G,
) -> Result<Told, Untold>
    requires seed { seed ≤ 1000000 }
    requires rows { (1 ≤ rows) × (rows ≤ 1000000) }
    requires workers { (1 ≤ workers) × (workers ≤ 64) }
    ensures { IsTelling (command.Drill seed rows workers) [] result }
{
    match sum_up(rt, alloc, seed, rows, workers, gate) {
        Ok(told) => Ok(told),
        Err(NoMemory) => Err(Untold::new(alloc, Ending::NoMemory)),
    }
}

// Replays the trace of a drill, and sums it up.
fn sum_up<R: Threads + Wait + Sync, G: Gate + Sync>(
    rt: &R,
    alloc: Global,
    seed: u64,
    rows: u64,
    workers: u32,
    gate: &G,
) -> Result<Told, NoMemory>
    requires seed { seed ≤ 1000000 }
    requires rows { (1 ≤ rows) × (rows ≤ 1000000) }
    requires workers { (1 ≤ workers) × (workers ≤ 64) }
    ensures { IfOk result (λ told. IsSummary workers (drill seed rows workers) told.text.items (handed told.handed)) }
{
    let trace = make_drill(alloc, seed, rows, workers)?;
    let Replayed { answers, books } = replay(rt, alloc, &trace, workers, gate)?;
    let finals = values_of(alloc, &books)?;
    let text = summary_text(alloc, &trace, workers, &answers, &finals)?;
    Ok(Told {
        text,
        handed: Handed::replayed(answers, books),
    })
}

/// Relays lines.
pub fn tell_relay<R: Threads + Wait + Sync, G: Gate + Sync>(
    rt: &R,
    alloc: Global,
    workers: u32,
    capacity: u32,
    bytes: &[u8],
    gate: &G,
) -> Result<Told, Untold>
    requires workers { (1 ≤ workers) × (workers ≤ 64) }
    requires capacity { (1 ≤ capacity) × (capacity ≤ 65536) }
    ensures { IsTelling (command.Relay workers capacity) bytes.now result }
{
    match split_lines(alloc, bytes) {
        Ok(lines) => match relay_lines(rt, alloc, workers, capacity, &lines, gate) {
            Ok(told) => Ok(told),
            Err(_) => Err(Untold::new(alloc, Ending::NoMemory)),
        },
        Err(LinesFault::TooMany { at }) => Err(Untold::new(
            alloc,
            Ending::Refused(Refusal::TooManyLines { at }),
        )),
        Err(LinesFault::NoMemory) => Err(Untold::new(alloc, Ending::NoMemory)),
    }
}

// Relays lines that were found.
fn relay_lines<R: Threads + Wait + Sync, G: Gate + Sync>(
    rt: &R,
    alloc: Global,
    workers: u32,
    capacity: u32,
    lines: &Lines<'_>,
    gate: &G,
) -> Result<Told, tq_queue::NoMemory>
    requires lines { length lines.now ≤ MOST_LINES }
    requires workers { (1 ≤ workers) × (workers ≤ 64) }
    requires capacity { (1 ≤ capacity) × (capacity ≤ 65536) }
    ensures { IfOk result (λ told. HasRelayed workers capacity lines.now told.text.items (handed told.handed)) }
{
    let count = lines.count() as u64;
    let Relayed { order, book } = relay(rt, alloc, count, workers, capacity, gate)?;
    let text = relay_text(alloc, lines, &order)?;
    Ok(Told {
        text,
        handed: Handed::queue(alloc, book),
    })
}

/// Makes the additions and subtractions of a script in turns.
pub fn tell_rounds<R: Wait + RandomSource + AllocGlobal>(
    rt: &R,
    alloc: Global,
    bytes: &[u8],
) -> Result<Told, Untold>
    ensures { IsTelling command.Rounds bytes.now result }
{
    let script = script_in(alloc, bytes)?;
    match other_order(&script) {
        Some(at) => Err(Untold::new(alloc, Ending::Refused(Refusal::ByOrder { at }))),
        None => match rounds_text(rt, alloc, &script) {
            Ok((text, book)) => tell_book(alloc, text, book),
            Err(_) => Err(Untold::new(alloc, Ending::NoMemory)),
        },
    }
}

/// Counts the newlines of the input.
pub fn tell_tally<R: Threads + Wait + Sync>(
    rt: &R,
    alloc: Global,
    workers: u32,
    grain: u64,
    bytes: &[u8],
) -> Result<Told, Untold>
    requires bytes { length bytes.now ≤ INPUT_LIMIT }
    requires workers { (1 ≤ workers) × (workers ≤ 64) }
    requires grain { (1 ≤ grain) × (grain ≤ 1024) }
    ensures { IsTelling (command.Tally workers grain) bytes.now result }
{
    match tally_text(rt, alloc, bytes, workers, grain) {
        Ok((text, book)) => tell_book(alloc, text, book),
        Err(_) => Err(Untold::new(alloc, Ending::NoMemory)),
    }
}

/// Lets lines of takes through a bucket.
pub fn tell_throttle<R: Threads + Wait + Sync, G: Gate + Sync>(
    rt: &R,
    alloc: Global,
    workers: u32,
    burst: u64,
    rate: u64,
    period: u64,
    bytes: &[u8],
    gate: &G,
) -> Result<Told, Untold>
    requires workers { (1 ≤ workers) × (workers ≤ 64) }
    requires burst { (1 ≤ burst) × (burst ≤ NO_CAP) }
    requires rate { 1 ≤ rate }
    requires period { 1 ≤ period }
    ensures { IsTelling (command.Throttle workers burst rate period) bytes.now result }
{
    match throttle_text(
        rt,
        alloc,
        bytes,
        workers,
        burst,
        rate,
        period,
        &|worker, place| gate.before(worker, place),
        &|worker, place| gate.answered(worker, place),
    ) {
        Ok((text, book)) => Ok(Told {
            text,
            handed: Handed::bucket(alloc, book),
        }),
        Err(ThrottleFault::NoMemory) => Err(Untold::new(alloc, Ending::NoMemory)),
        Err(fault) => Err(Untold::new(alloc, Ending::Refused(Refusal::ByThrottle(fault)))),
    }
}

// The values of some books.
fn values_of(alloc: Global, books: &[Book]) -> Result<Vec<u64>, AllocError>
    ensures { IfOk result (λ values. values.items ≡ map value_in books.now) }
{
    let mut values = Vec::new(alloc);
    for book in books {
        values.push(book.value())?;
    }
    Ok(values)
}
