//! The text of a picture, from a trace and its report.
ghost use Rattle.std.specs.Prelude.{◌≡◌, ◌<◌, ◌≤◌, IfOk, length};
ghost use Rattle.std.specs.List.{All};
ghost use Rattle.picture_report.specs.Told.{IsSmall};
ghost use Rattle.replay_report.specs.Report.{HasAnswers};
ghost use Rattle.trace_text.specs.Trace.{content};
ghost use Rattle.picture_run.specs.Telling.{IsShown};
ghost use Rattle.picture_run.specs.Texts.{drawing_text, lines_text};

use crate::ending::{Ending, Refusal};
use crate::words::Picture;
use picture_line::line_text;
use picture_report::{Report, heading_of, headings_of, marks_by_tenant, marks_of, tenant_named};
use picture_svg::svg_text;
use std::alloc::{AllocError, Global};
use trace_text::{NoMemory, Trace};

/// The text of a picture, or how a run ends without it: the trace has no such tenant, or memory
/// ran out.
pub fn picture_text(
    alloc: Global,
    picture: &Picture,
    trace: &Trace,
    report: &Report,
) -> Result<Vec<u8>, Ending>
    requires few { length trace.now.tenants.items ≤ 256 }
    requires answered { HasAnswers (content trace.now) report.now.answers.items report.now.finals.items }
    requires small { All IsSmall report.now.answers.items }
    ensures { IsShown picture.now (content trace.now) report.now.answers.items report.now.finals.items result }
{
    match picture {
        Picture::Lines { .. } => match lines_text(alloc, trace, report) {
            Ok(text) => Ok(text),
            Err(_) => Err(Ending::NoMemory),
        },
        Picture::Drawing { workers, tenant } => match tenant_named(trace, &tenant.items) {
            Some(number) => match drawing_text(
                alloc,
                *workers,
                &tenant.items,
                trace,
                report,
                number,
            ) {
                Ok(text) => Ok(text),
                Err(_) => Err(Ending::NoMemory),
            },
            None => Err(Ending::Refused(Refusal::ByTenant)),
        },
    }
}

// The line of each tenant.
fn lines_text(alloc: Global, trace: &Trace, report: &Report) -> Result<Vec<u8>, AllocError>
    requires answered { HasAnswers (content trace.now) report.now.answers.items report.now.finals.items }
    requires small { All IsSmall report.now.answers.items }
    ensures { IfOk result (λ text. text.items ≡ lines_text (content trace.now) report.now.answers.items report.now.finals.items) }
{
    let headings = headings_of(alloc, trace, report)?;
    let marks = marks_by_tenant(alloc, trace, &report.answers)?;
    let tenants = trace.tenants.as_slice();
    let mut text = Vec::new(alloc);
    for (i, tenant) in tenants.iter().enumerate() {
        line_text(&mut text, alloc, &tenant.name.items, headings[i], &marks[i])?;
    }
    Ok(text)
}

// The drawing of the tenant with a name and a number.
fn drawing_text(
    alloc: Global,
    workers: u32,
    name: &[u8],
    trace: &Trace,
    report: &Report,
    number: u32,
) -> Result<Vec<u8>, NoMemory>
    requires answered { HasAnswers (content trace.now) report.now.answers.items report.now.finals.items }
    requires small { All IsSmall report.now.answers.items }
    requires number { number < length trace.now.tenants.items }
    ensures { IfOk result (λ text. text.items ≡ drawing_text workers name.now (content trace.now) report.now.answers.items report.now.finals.items number) }
{
    let heading = heading_of(alloc, trace, report, number)?;
    let marks = marks_of(alloc, trace, &report.answers, number)?;
    svg_text(alloc, name, heading, workers, &marks)
}
