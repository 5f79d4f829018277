//! Runs of commands on streams in memory, and what they came to.
ghost use Rattle.std.specs.Prelude.{◌≤◌};

use edge_io::{MemSink, MemSource};
use gates::Gate;
use std::alloc::{AllocGlobal, Global};
use std::random::RandomSource;
use std::sync::Wait;
use std::test::Fail;
use std::thread::Threads;
use tool_run::{Outcome, run, run_play};

/// How many bytes the streams of a run move at once, which of their reads and writes fail, and how many bytes of text there is room for.
#[derive(Clone, Copy)]
pub(crate) struct Streams<'a> {
    pub(crate) read: usize,
    pub(crate) failing_reads: &'a [u64],
    pub(crate) room: usize,
    pub(crate) write: usize,
    pub(crate) failing_writes: &'a [u64],
    pub(crate) line: usize,
    pub(crate) failing_lines: &'a [u64],
}

/// Streams that never fail.
pub(crate) fn sound() -> Streams<'static>
    ensures { 1 ≤ result.read }
{
    Streams {
        read: 100,
        failing_reads: &[],
        room: 1000,
        write: 100,
        failing_writes: &[],
        line: 100,
        failing_lines: &[],
    }
}

/// Streams of small pieces, of whose reads these fail.
pub(crate) fn failing_reads(read: usize, failing: &[u64]) -> Streams<'_>
    requires { 1 ≤ read }
    ensures { 1 ≤ result.read }
{
    Streams {
        read,
        failing_reads: failing,
        room: 1000,
        write: 10,
        failing_writes: &[],
        line: 5,
        failing_lines: &[],
    }
}

/// Streams of small pieces, of whose writes of text these fail.
pub(crate) fn failing_writes(read: usize, failing: &[u64]) -> Streams<'_>
    requires { 1 ≤ read }
    ensures { 1 ≤ result.read }
{
    Streams {
        read,
        failing_reads: &[],
        room: 1000,
        write: 10,
        failing_writes: failing,
        line: 100,
        failing_lines: &[],
    }
}

/// What a run came to: what it handed back, and what was written.
#[derive(Drop)]
pub(crate) struct Ran {
    pub(crate) outcome: Outcome,
    pub(crate) text: Vec<u8>,
    pub(crate) line: Vec<u8>,
}

impl Ran {
    fn of(alloc: Global, outcome: Outcome, out: &MemSink, err: &MemSink) -> Result<Ran, Fail> {
        Ok(Ran {
            outcome,
            text: Vec::from_slice(alloc, out.held())?,
            line: Vec::from_slice(alloc, err.held())?,
        })
    }

    /// Whether the run ended with this status, this text and this line.
    pub(crate) fn is(&self, status: u8, text: &[u8], line: &[u8]) -> bool {
        self.outcome.status == status
            && self.text.as_slice() == text
            && self.line.as_slice() == line
    }
}

// The words of a line.
fn words_of(alloc: Global, line: &str) -> Result<Vec<String>, Fail> {
    let mut words = Vec::new(alloc);
    for word in line.split_whitespace() {
        words.push(String::from_str(alloc, word)?)?;
    }
    Ok(words)
}

// The streams of a run: its bytes, its text and its line.
fn opened(
    alloc: Global,
    bytes: &[u8],
    streams: Streams<'_>,
) -> Result<(MemSource, MemSink, MemSink), Fail>
    requires { 1 ≤ streams.read }
{
    let source = MemSource::new(alloc, bytes, streams.read, streams.failing_reads)?;
    let out = MemSink::new(alloc, streams.room, streams.write, streams.failing_writes)?;
    let err = MemSink::new(alloc, 1000, streams.line, streams.failing_lines)?;
    Ok((source, out, err))
}

/// Runs the command of a line of words on these bytes.
pub(crate) fn run_on<R, G>(
    rt: &R,
    line: &str,
    bytes: &[u8],
    streams: Streams<'_>,
    gate: &G,
) -> Result<Ran, Fail>
where
    R: Threads + Wait + Sync + RandomSource + AllocGlobal,
    G: Gate + Sync,
    requires { 1 ≤ streams.read }
{
    let alloc = rt.alloc();
    let words = words_of(alloc, line)?;
    let (mut source, mut out, mut err) = opened(alloc, bytes, streams)?;
    let outcome = run(rt, alloc, &words, &mut source, &mut out, &mut err, gate);
    Ran::of(alloc, outcome, &out, &err)
}

/// Runs the command of a line of words on these bytes, where it is one on scripts.
pub(crate) fn play_on(
    alloc: Global,
    line: &str,
    bytes: &[u8],
    streams: Streams<'_>,
) -> Result<Ran, Fail>
    requires { 1 ≤ streams.read }
{
    let words = words_of(alloc, line)?;
    let (mut source, mut out, mut err) = opened(alloc, bytes, streams)?;
    let outcome = run_play(alloc, &words, &mut source, &mut out, &mut err);
    Ran::of(alloc, outcome, &out, &err)
}
