//! The tool's run: words, input, text, what is handed back, and the line of how it ended.
ghost use Rattle.std.specs.Prelude.{◌≡◌, ◌≤◌, ◌⊎◌, Some};
ghost use Rattle.edge_io.specs.Causes.{Rose};
ghost use Rattle.edge_io.specs.Whole.{AppendsFront};
ghost use Rattle.tool_words.specs.Asked.{InRange, asked};
ghost use Rattle.tool_run.specs.declared.ending.Ending.{Ending};
ghost use Rattle.tool_run.specs.Accounts.{IsAccounted};
ghost use Rattle.tool_run.specs.Handed as back;
ghost use Rattle.tool_run.specs.Outcome.{Ends, IsComplete, Writes, error_line, of_scripts, reading, status_of, writing};
ghost use Rattle.tool_run.specs.Telling.{Finishes, HasRead, IsPrepared};

use crate::ending::{Ending, INPUT_LIMIT, Refusal};
use crate::handed::Handed;
use crate::telling::{
    Told, Untold, tell_drill, tell_play, tell_relay, tell_replay, tell_rounds, tell_tally,
    tell_throttle, tell_trial,
};
use edge_io::{ReadFault, Sink, Source, WriteFault, read_all, write_all};
use fn_table::Book;
use gates::Gate;
use quota_bucket::BucketBook;
use quota_pool::Moved;
use relay_run::QueueBook;
use script_run::Caller;
use std::alloc::{AllocGlobal, Global};
use std::random::RandomSource;
use std::sync::Wait;
use std::thread::Threads;
use tool_words::{Command, read_command};

/// What a run comes to.
#[derive(Drop)]
pub struct Outcome {
    pub status: u8,
    /// the books of a replay, or the one book of a trial, of calls in turns or of a tally
    pub books: Vec<Book>,
    /// the answers of a replay
    pub answers: Vec<Moved>,
    /// the book of a relay's queue
    pub queue: Option<QueueBook<u64>>,
    /// the book of a bucket through which lines of takes went
    pub bucket: Option<BucketBook>,
    /// the callers of the table on which a line of a script couldn't be done
    pub halted: Vec<Caller>,
}

/// Reads words and input, does the script on the core or on the table, and writes its text, and a line to `err` where that didn't go well.
pub fn run_play<S: Source, K: Sink, E: Sink>(
    alloc: Global,
    words: &[String],
    source: &mut S,
    out: &mut K,
    err: &mut E,
) -> Outcome
    ensures ends { (ending : Ending) × (status_of ending ≡ result.status)
        × Ends (of_scripts (asked words.now)) (reading (S.left source.old) (S.left source.new) (S.faults source.old) (S.faults source.new)) (writing (K.held out.old) (K.held out.new) (K.faults out.old) (K.faults out.new) (K.empty_writes out.old) (K.empty_writes out.new)) result.answers.items ending
        × AppendsFront (E.held err.old) (E.held err.new) (error_line ending) (Rose (E.faults err.old) (E.faults err.new) ⊎ Rose (E.empty_writes err.old) (E.empty_writes err.new)) }
    ensures account { (ending : Ending) × (status_of ending ≡ result.status)
        × IsAccounted (of_scripts (asked words.now)) (reading (S.left source.old) (S.left source.new) (S.faults source.old) (S.faults source.new)) (writing (K.held out.old) (K.held out.new) (K.faults out.old) (K.faults out.new) (K.empty_writes out.old) (K.empty_writes out.new)) result ending }
    ensures complete { IsComplete (of_scripts (asked words.now)) (reading (S.left source.old) (S.left source.new) (S.faults source.old) (S.faults source.new)) (writing (K.held out.old) (K.held out.new) (K.faults out.old) (K.faults out.new) (K.empty_writes out.old) (K.empty_writes out.new)) result }
    ensures quiet { result.status ≡ 0 → err.new ≡ err.old }
    ensures later_read { S.faults source.old ≤ S.faults source.new }
    ensures later_written { (K.faults out.old ≤ K.faults out.new) × (K.empty_writes out.old ≤ K.empty_writes out.new) }
    ensures later_told { (E.faults err.old ≤ E.faults err.new) × (E.empty_writes err.old ≤ E.empty_writes err.new) }
{
    let told = prepare_script(alloc, words, source);
    finish(alloc, out, err, told)
}

/// Reads words and input, does what they ask for, and writes its text, and a line to `err` where that didn't go well. It waits for the workers of a command, who ask the gate before and after each row of a replay and each line of a relay or of takes.
pub fn run<
    R: Threads + Wait + Sync + RandomSource + AllocGlobal,
    S: Source,
    K: Sink,
    E: Sink,
    G: Gate + Sync,
>(
    rt: &R,
    alloc: Global,
    words: &[String],
    source: &mut S,
    out: &mut K,
    err: &mut E,
    gate: &G,
) -> Outcome
    ensures ends { (ending : Ending) × (status_of ending ≡ result.status)
        × Ends (asked words.now) (reading (S.left source.old) (S.left source.new) (S.faults source.old) (S.faults source.new)) (writing (K.held out.old) (K.held out.new) (K.faults out.old) (K.faults out.new) (K.empty_writes out.old) (K.empty_writes out.new)) result.answers.items ending
        × AppendsFront (E.held err.old) (E.held err.new) (error_line ending) (Rose (E.faults err.old) (E.faults err.new) ⊎ Rose (E.empty_writes err.old) (E.empty_writes err.new)) }
    ensures account { (ending : Ending) × (status_of ending ≡ result.status)
        × IsAccounted (asked words.now) (reading (S.left source.old) (S.left source.new) (S.faults source.old) (S.faults source.new)) (writing (K.held out.old) (K.held out.new) (K.faults out.old) (K.faults out.new) (K.empty_writes out.old) (K.empty_writes out.new)) result ending }
    ensures complete { IsComplete (asked words.now) (reading (S.left source.old) (S.left source.new) (S.faults source.old) (S.faults source.new)) (writing (K.held out.old) (K.held out.new) (K.faults out.old) (K.faults out.new) (K.empty_writes out.old) (K.empty_writes out.new)) result }
    ensures quiet { result.status ≡ 0 → err.new ≡ err.old }
    ensures later_read { S.faults source.old ≤ S.faults source.new }
    ensures later_written { (K.faults out.old ≤ K.faults out.new) × (K.empty_writes out.old ≤ K.empty_writes out.new) }
    ensures later_told { (E.faults err.old ≤ E.faults err.new) × (E.empty_writes err.old ≤ E.empty_writes err.new) }
{
    let told = prepare(rt, alloc, words, source, gate);
    finish(alloc, out, err, told)
}

// The text of the script that the words ask for.
fn prepare_script<S: Source>(
    alloc: Global,
    words: &[String],
    source: &mut S,
) -> Result<Told, Untold>
    ensures prepared { IsPrepared (of_scripts (asked words.now)) (reading (S.left source.old) (S.left source.new) (S.faults source.old) (S.faults source.new)) result }
    ensures later { S.faults source.old ≤ S.faults source.new }
{
    match read_command(alloc, words) {
        Ok(Some(command)) => tell_script(alloc, command, source),
        Ok(None) => Err(Untold::new(alloc, Ending::Words)),
        Err(_) => Err(Untold::new(alloc, Ending::NoMemory)),
    }
}

// The text of what the words ask for.
fn prepare<R: Threads + Wait + Sync + RandomSource + AllocGlobal, S: Source, G: Gate + Sync>(
    rt: &R,
    alloc: Global,
    words: &[String],
    source: &mut S,
    gate: &G,
) -> Result<Told, Untold>
    ensures prepared { IsPrepared (asked words.now) (reading (S.left source.old) (S.left source.new) (S.faults source.old) (S.faults source.new)) result }
    ensures later { S.faults source.old ≤ S.faults source.new }
{
    match read_command(alloc, words) {
        Ok(Some(command)) => tell_command(rt, alloc, command, source, gate),
        Ok(None) => Err(Untold::new(alloc, Ending::Words)),
        Err(_) => Err(Untold::new(alloc, Ending::NoMemory)),
    }
}

// The text of a command on scripts.
fn tell_script<S: Source>(alloc: Global, command: Command, source: &mut S) -> Result<Told, Untold>
    ensures prepared { IsPrepared (of_scripts (Some command)) (reading (S.left source.old) (S.left source.new) (S.faults source.old) (S.faults source.new)) result }
    ensures later { S.faults source.old ≤ S.faults source.new }
{
    match command {
        Command::Play => tell_play(alloc, &read_input(alloc, source)?),
        Command::Trial => tell_trial(alloc, &read_input(alloc, source)?),
        Command::Replay { .. }
        | Command::Drill { .. }
        | Command::Relay { .. }
        | Command::Rounds
        | Command::Tally { .. }
        | Command::Throttle { .. } => Err(Untold::new(alloc, Ending::Words)),
    }
}

// The text of a command.
fn tell_command<R: Threads + Wait + Sync + RandomSource + AllocGlobal, S: Source, G: Gate + Sync>(
    rt: &R,
    alloc: Global,
    command: Command,
    source: &mut S,
    gate: &G,
) -> Result<Told, Untold>
    requires { InRange command }
    ensures prepared { IsPrepared (Some command) (reading (S.left source.old) (S.left source.new) (S.faults source.old) (S.faults source.new)) result }
    ensures later { S.faults source.old ≤ S.faults source.new }
{
    match command {
        Command::Play | Command::Trial => tell_script(alloc, command, source),
        Command::Replay { workers } => {
            tell_replay(rt, alloc, workers, &read_input(alloc, source)?, gate)
        }
        Command::Drill {
            seed,
            rows,
            workers,
        } => tell_drill(rt, alloc, seed, rows, workers, gate),
        Command::Relay { workers, capacity } => {
            tell_relay(
                rt,
                alloc,
                workers,
                capacity,
                &read_input(alloc, source)?,
                gate,
            )
        }
        Command::Rounds => tell_rounds(rt, alloc, &read_input(alloc, source)?),
        Command::Tally { workers, grain } => {
            tell_tally(rt, alloc, workers, grain, &read_input(alloc, source)?)
        }
        Command::Throttle {
            workers,
            burst,
            rate,
            period,
        } => {
            let bytes = read_input(alloc, source)?;
            tell_throttle(rt, alloc, workers, burst, rate, period, &bytes, gate)
        }
    }
}

// The bytes of the input.
fn read_input<S: Source>(alloc: Global, source: &mut S) -> Result<Vec<u8>, Untold>
    ensures read { HasRead (reading (S.left source.old) (S.left source.new) (S.faults source.old) (S.faults source.new)) result }
    ensures later { S.faults source.old ≤ S.faults source.new }
{
    match read_all(alloc, source, INPUT_LIMIT) {
        Ok(bytes) => Ok(bytes),
        Err(ReadFault::Failed) => Err(Untold::new(alloc, Ending::ReadFailed)),
        Err(ReadFault::TooLong { limit: _ }) => {
            Err(Untold::new(alloc, Ending::Refused(Refusal::TooLong)))
        }
        Err(ReadFault::NoMemory) => Err(Untold::new(alloc, Ending::NoMemory)),
    }
}

// Writes the text, or the line of how the run ended without one.
fn finish<K: Sink, E: Sink>(
    alloc: Global,
    out: &mut K,
    err: &mut E,
    told: Result<Told, Untold>,
) -> Outcome
    ensures ends { (ending : Ending) × (status_of ending ≡ result.status)
        × Finishes told (writing (K.held out.old) (K.held out.new) (K.faults out.old) (K.faults out.new) (K.empty_writes out.old) (K.empty_writes out.new)) result ending
        × AppendsFront (E.held err.old) (E.held err.new) (error_line ending) (Rose (E.faults err.old) (E.faults err.new) ⊎ Rose (E.empty_writes err.old) (E.empty_writes err.new)) }
    ensures quiet { result.status ≡ 0 → err.new ≡ err.old }
    ensures later_written { (K.faults out.old ≤ K.faults out.new) × (K.empty_writes out.old ≤ K.empty_writes out.new) }
    ensures later_told { (E.faults err.old ≤ E.faults err.new) × (E.empty_writes err.old ≤ E.empty_writes err.new) }
{
    match told {
        Ok(told) => {
            let Told { text, handed } = told;
            let ending = write_text(out, &text);
            tell(err, ending);
            hand_back(ending.status(), handed, Vec::new(alloc))
        }
        Err(Untold { ending, halted }) => {
            tell(err, ending);
            hand_back(ending.status(), Handed::nothing(alloc), halted)
        }
    }
}

// Hands back what a run had, with its status.
fn hand_back(status: u8, handed: Handed, halted: Vec<Caller>) -> Outcome
    ensures status { result.status ≡ status }
    ensures given { back.handed_by result ≡ back.handed handed }
    ensures halted { result.halted.items ≡ halted.items }
{
    let Handed {
        answers,
        books,
        queue,
        bucket,
    } = handed;
    Outcome {
        status,
        books,
        answers,
        queue,
        bucket,
        halted,
    }
}

// Writes a text.
fn write_text<K: Sink>(out: &mut K, text: &[u8]) -> Ending
    ensures written { Writes (writing (K.held out.old) (K.held out.new) (K.faults out.old) (K.faults out.new) (K.empty_writes out.old) (K.empty_writes out.new)) text.now result }
    ensures later { (K.faults out.old ≤ K.faults out.new) × (K.empty_writes out.old ≤ K.empty_writes out.new) }
{
    match write_all(out, text) {
        Ok(()) => Ending::Done,
        Err(WriteFault::Failed) => Ending::WriteFailed,
        Err(WriteFault::Stuck) => Ending::WriteStuck,
    }
}

/// Writes the line of an ending, as far as the sink takes it.
pub fn tell<E: Sink>(err: &mut E, ending: Ending)
    ensures line { AppendsFront (E.held err.old) (E.held err.new) (error_line ending)
        (Rose (E.faults err.old) (E.faults err.new) ⊎ Rose (E.empty_writes err.old) (E.empty_writes err.new)) }
    ensures quiet { ending ≡ Ending.Done → err.new ≡ err.old }
    ensures later { (E.faults err.old ≤ E.faults err.new) × (E.empty_writes err.old ≤ E.empty_writes err.new) }
{
    match ending {
        Ending::Done => {}
        _ => {
            let line = ending.line();
            let _ = write_all(err, line.text());
        }
    }
}
