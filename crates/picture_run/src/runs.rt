//! The run: words, trace, report, text, and the line of how it ended.
ghost use Rattle.std.specs.Prelude.{◌≡◌, ◌≤◌, ◌⊎◌, Some};
ghost use Rattle.edge_io.specs.Causes.{Rose};
ghost use Rattle.edge_io.specs.Whole.{AppendsFront};
ghost use Rattle.trace_text.specs.SoundTrace.{IsSoundTrace};
ghost use Rattle.trace_text.specs.Trace.{content};
ghost use Rattle.picture_run.specs.declared.ending.Ending.{Ending};
ghost use Rattle.picture_run.specs.Asked.{InRange, asked, workers_of};
ghost use Rattle.picture_run.specs.Ended.{error_line, status_of};
ghost use Rattle.picture_run.specs.Outcome.{Ends};
ghost use Rattle.picture_run.specs.Streams.{reading, writing};
ghost use Rattle.picture_run.specs.Telling.{IsDrawn, IsDrawnBy};

use crate::ending::Ending;
use crate::inputs::{report_from, trace_from};
use crate::streams::finish;
use crate::texts::picture_text;
use crate::words::{Picture, read_words};
use edge_io::{Sink, Source};
use std::alloc::Global;
use trace_text::Trace;

/// Reads words, then the trace that they speak of, then its report, and writes the picture that
/// they ask for, or a line to `err` where that didn't go well. The report isn't read before the
/// trace is known, and nothing is written before the whole text is there. The result is a status:
/// 0 done, 2 words, 3 input refused, 4 a read failed, 5 a write failed, 6 no memory.
pub fn run<T: Source, S: Source, K: Sink, E: Sink>(
    alloc: Global,
    words: &[String],
    trace: &mut T,
    report: &mut S,
    out: &mut K,
    err: &mut E,
) -> u8
    ensures ends { (ending : Ending) × (status_of ending ≡ result)
        × Ends (asked words.now) (reading (T.left trace.old) (T.left trace.new) (T.faults trace.old) (T.faults trace.new)) (reading (S.left report.old) (S.left report.new) (S.faults report.old) (S.faults report.new)) (writing (K.held out.old) (K.held out.new) (K.faults out.old) (K.faults out.new) (K.empty_writes out.old) (K.empty_writes out.new)) ending
        × AppendsFront (E.held err.old) (E.held err.new) (error_line ending) (Rose (E.faults err.old) (E.faults err.new) ⊎ Rose (E.empty_writes err.old) (E.empty_writes err.new)) }
    ensures quiet { result ≡ 0 → err.new ≡ err.old }
    ensures later_read { (T.faults trace.old ≤ T.faults trace.new) × (S.faults report.old ≤ S.faults report.new) }
    ensures later_written { (K.faults out.old ≤ K.faults out.new) × (K.empty_writes out.old ≤ K.empty_writes out.new) }
    ensures later_told { (E.faults err.old ≤ E.faults err.new) × (E.empty_writes err.old ≤ E.empty_writes err.new) }
{
    let drawn = draw(alloc, words, trace, report);
    finish(out, err, drawn)
}

// The text of what the words ask for.
fn draw<T: Source, S: Source>(
    alloc: Global,
    words: &[String],
    trace: &mut T,
    report: &mut S,
) -> Result<Vec<u8>, Ending>
    ensures drawn { IsDrawn (asked words.now) (reading (T.left trace.old) (T.left trace.new) (T.faults trace.old) (T.faults trace.new)) (reading (S.left report.old) (S.left report.new) (S.faults report.old) (S.faults report.new)) result }
    ensures later { (T.faults trace.old ≤ T.faults trace.new) × (S.faults report.old ≤ S.faults report.new) }
{
    match read_words(alloc, words) {
        Ok(Some(picture)) => draw_picture(alloc, &picture, trace, report),
        Ok(None) => Err(Ending::Words),
        Err(_) => Err(Ending::NoMemory),
    }
}

// The text of a picture.
fn draw_picture<T: Source, S: Source>(
    alloc: Global,
    picture: &Picture,
    trace: &mut T,
    report: &mut S,
) -> Result<Vec<u8>, Ending>
    requires { InRange picture.now }
    ensures drawn { IsDrawn (Some picture.now) (reading (T.left trace.old) (T.left trace.new) (T.faults trace.old) (T.faults trace.new)) (reading (S.left report.old) (S.left report.new) (S.faults report.old) (S.faults report.new)) result }
    ensures later { (T.faults trace.old ≤ T.faults trace.new) × (S.faults report.old ≤ S.faults report.new) }
{
    match trace_from(alloc, picture.workers(), trace) {
        Ok(known) => draw_known(alloc, picture, &known, report),
        Err(ending) => Err(ending),
    }
}

// The text of a picture of a trace that is known.
fn draw_known<S: Source>(
    alloc: Global,
    picture: &Picture,
    known: &Trace,
    report: &mut S,
) -> Result<Vec<u8>, Ending>
    requires { IsSoundTrace (workers_of picture.now) (content known.now) }
    ensures drawn { IsDrawnBy picture.now (content known.now) (reading (S.left report.old) (S.left report.new) (S.faults report.old) (S.faults report.new)) result }
    ensures later { S.faults report.old ≤ S.faults report.new }
{
    match report_from(alloc, picture.workers(), known, report) {
        Ok(told) => picture_text(alloc, picture, known, &told),
        Err(ending) => Err(ending),
    }
}
