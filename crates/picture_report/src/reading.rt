//! Reading a report: its numbers are taken loosely, and then it has to be the report of these.
ghost use Rattle.std.specs.Prelude.{◌≡◌, ◌+◌, ◌*◌, ◌<◌, ◌^◌, true, IfOk, length};
ghost use Rattle.std.specs.List.{All};
ghost use Rattle.trace_text.specs.SoundTrace.{CutsRise};
ghost use Rattle.trace_text.specs.Trace.{content};
ghost use Rattle.replay_report.specs.Report.{HasAnswers, report_text};
ghost use Rattle.picture_report.specs.Told.{IsSmall};

use replay_report::{Moved, NoMemory, Trace, report_text};
use std::alloc::{AllocError, Global};
use text_lines::{Lines, number};

/// What a report says beside its trace: the answer of each row, and for each segment, in order,
/// the value of each tenant at its end. Reports don't say which way a call went.
#[derive(Debug, Drop)]
pub struct Report {
    pub answers: Vec<Moved>,
    pub finals: Vec<u64>,
}

/// Why some bytes weren't read as the report of a trace.
#[derive(Clone, Copy, Debug, PartialEq, Eq)]
pub enum ReportFault {
    /// no report of this trace, or one with a number of 2^63 or more
    NotOfTrace,
    /// memory ran out
    NoMemory,
}

impl From<AllocError> for ReportFault {
    ghost use Rattle.std.specs.Prelude.{◌≡◌};
    ghost use Rattle.picture_report.specs.declared.reading.ReportFault.TheVariants as fault;

    ghost from_gives = { λ _ e. e ≡ fault.NoMemory };

    fn from(_: AllocError) -> Self {
        ReportFault::NoMemory
    }
}

impl From<NoMemory> for ReportFault {
    ghost use Rattle.std.specs.Prelude.{◌≡◌};
    ghost use Rattle.picture_report.specs.declared.reading.ReportFault.TheVariants as fault;

    ghost from_gives = { λ _ e. e ≡ fault.NoMemory };

    fn from(_: NoMemory) -> Self {
        ReportFault::NoMemory
    }
}

/// Reads the report of a trace. The bytes are those of the report of the numbers that were read;
/// that some run has these numbers isn't tested.
pub fn read_report(alloc: Global, trace: &Trace, report: &[u8]) -> Result<Report, ReportFault>
    requires tenants { All (λ row. row.tenant < length trace.now.tenants.items) trace.now.rows.items }
    requires cuts { CutsRise 0 (length trace.now.rows.items) trace.now.cuts.items }
    ensures exact { IfOk result (λ read. HasAnswers (content trace.now) read.answers.items read.finals.items
        × (report.now ≡ report_text (content trace.now) read.answers.items read.finals.items)) }
    ensures small { IfOk result (λ read. All IsSmall read.answers.items) }
{
    let read = numbers_of(alloc, report)?;
    if !is_whole(trace, &read) {
        return Err(ReportFault::NotOfTrace);
    }
    let text = report_text(alloc, trace, &read.answers, &read.finals)?;
    if text.as_slice() == report {
        Ok(read)
    } else {
        Err(ReportFault::NotOfTrace)
    }
}

// The last two numbers of each line of a row, and the last one of each other line.
fn numbers_of(alloc: Global, report: &[u8]) -> Result<Report, ReportFault>
    ensures { IfOk result (λ read. All IsSmall read.answers.items) }
{
    let mut read = Report {
        answers: Vec::new(alloc),
        finals: Vec::new(alloc),
    };
    let mut lines = Lines::new(report);
    while let Some(line) = lines.next() {
        take_line(&mut read, line)?;
    }
    Ok(read)
}

// Puts the numbers of a line behind those before it.
fn take_line(read: &mut Report, line: &[u8]) -> Result<(), ReportFault>
    requires { All IsSmall read.old.answers.items }
    ensures { All IsSmall read.new.answers.items }
{
    let mut fields = line.rsplit(|byte| *byte == b',');
    let last = number_in(fields.next())?;
    if line.starts_with(b"row,") {
        let before = number_in(fields.next())?;
        push_answer(&mut read.answers, before, last)?;
        Ok(())
    } else {
        push_value(&mut read.finals, last)?;
        Ok(())
    }
}

fn push_answer(answers: &mut Vec<Moved>, before: u64, moved: u64) -> Result<(), AllocError>
    requires small { All IsSmall answers.old.items }
    requires before { before < 2 ^ 63 }
    requires moved { moved < 2 ^ 63 }
    ensures { All IsSmall answers.new.items }
{
    answers.push(Moved {
        before,
        moved,
        way: None,
    })?;
    Ok(())
}

fn push_value(finals: &mut Vec<u64>, value: u64) -> Result<(), AllocError> {
    finals.push(value)?;
    Ok(())
}

// The number that a field is.
fn number_in(field: Option<&[u8]>) -> Result<u64, ReportFault>
    ensures { IfOk result (λ n. n < 2 ^ 63) }
{
    let Some(digits) = field else {
        return Err(ReportFault::NotOfTrace);
    };
    match number(digits) {
        Some(n) => Ok(n),
        None => Err(ReportFault::NotOfTrace),
    }
}

// Whether there is an answer for each row, and a value for each tenant and segment.
fn is_whole(trace: &Trace, read: &Report) -> bool
    ensures { result ≡ true → (length read.now.answers.items ≡ length trace.now.rows.items)
        × (length read.now.finals.items ≡ (length trace.now.cuts.items + 1) * length trace.now.tenants.items) }
{
    let segments = trace.cuts.len() + 1;
    match segments.checked_mul(trace.tenants.len()) {
        Some(values) => read.answers.len() == trace.rows.len() && read.finals.len() == values,
        None => false,
    }
}
