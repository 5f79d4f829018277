//! The trace and the report of a picture, from their sources.
ghost use Rattle.std.specs.Prelude.{◌≤◌, length};
ghost use Rattle.trace_text.specs.SoundTrace.{IsSoundTrace};
ghost use Rattle.trace_text.specs.Trace.{content};
ghost use Rattle.picture_run.specs.Streams.{reading};
ghost use Rattle.picture_run.specs.Telling.{GivesReport, GivesTrace, Spells, Tells};

use crate::ending::{Ending, REPORT_LIMIT, Refusal, TRACE_LIMIT};
use crate::streams::read_source;
use edge_io::Source;
use picture_report::{Report, ReportFault, read_report};
use std::alloc::Global;
use trace_text::{Trace, TraceFault, read_trace};

/// The trace that a source gives.
pub fn trace_from<T: Source>(alloc: Global, workers: u32, source: &mut T) -> Result<Trace, Ending>
    requires { (1 ≤ workers) × (workers ≤ 64) }
    ensures gives { GivesTrace workers (reading (T.left source.old) (T.left source.new) (T.faults source.old) (T.faults source.new)) result }
    ensures later { T.faults source.old ≤ T.faults source.new }
{
    match read_source(alloc, source, TRACE_LIMIT, Refusal::LongTrace) {
        Ok(bytes) => trace_in(alloc, workers, &bytes),
        Err(ending) => Err(ending),
    }
}

// The trace that some bytes spell.
fn trace_in(alloc: Global, workers: u32, bytes: &[u8]) -> Result<Trace, Ending>
    requires { (1 ≤ workers) × (workers ≤ 64) }
    ensures { Spells workers bytes.now result }
{
    match read_trace(alloc, workers, bytes) {
        Ok(trace) => Ok(trace),
        Err(TraceFault::NoMemory) => Err(Ending::NoMemory),
        Err(fault) => Err(Ending::Refused(Refusal::ByTrace(fault))),
    }
}

/// The report of a trace that a source gives.
pub fn report_from<S: Source>(
    alloc: Global,
    workers: u32,
    trace: &Trace,
    source: &mut S,
) -> Result<Report, Ending>
    requires { IsSoundTrace workers (content trace.now) }
    ensures gives { GivesReport (content trace.now) (reading (S.left source.old) (S.left source.new) (S.faults source.old) (S.faults source.new)) result }
    ensures later { S.faults source.old ≤ S.faults source.new }
{
    match read_source(alloc, source, REPORT_LIMIT, Refusal::LongReport) {
        Ok(bytes) => report_in(alloc, workers, trace, &bytes),
        Err(ending) => Err(ending),
    }
}

// The report of a trace that some bytes are.
fn report_in(alloc: Global, workers: u32, trace: &Trace, bytes: &[u8]) -> Result<Report, Ending>
    requires { IsSoundTrace workers (content trace.now) }
    ensures { Tells (content trace.now) bytes.now result }
{
    match read_report(alloc, trace, bytes) {
        Ok(report) => Ok(report),
        Err(ReportFault::NotOfTrace) => Err(Ending::Refused(Refusal::ByReport)),
        Err(ReportFault::NoMemory) => Err(Ending::NoMemory),
    }
}
