//! The headings of tenants: the numbers of their last lines.
ghost use Rattle.std.specs.Prelude.{◌≡◌, ◌<◌, IfOk, length};
ghost use Rattle.trace_text.specs.Trace.{content};
ghost use Rattle.replay_report.specs.Report.{HasAnswers};
ghost use Rattle.picture_report.specs.Told.{HeadingsAreTold, all_headings, heading_at};

use crate::reading::Report;
use picture_marks::Heading;
use replay_report::{Sums, Trace, sums_of};
use std::alloc::{AllocError, Global};

/// The heading of each tenant.
pub fn headings_of(
    alloc: Global,
    trace: &Trace,
    report: &Report,
) -> Result<Vec<Heading>, AllocError>
    requires { HasAnswers (content trace.now) report.now.answers.items report.now.finals.items }
    ensures { IfOk result (λ headings. headings.items ≡ all_headings (content trace.now) report.now.answers.items report.now.finals.items) }
{
    let tenants = trace.tenants.as_slice();
    let sums = sums_of(alloc, tenants.len(), &trace.rows, &report.answers)?;
    let last = &report.finals[trace.cuts.len() * tenants.len()..];
    let mut headings = Vec::new(alloc);
    for (i, tenant) in tenants.iter().enumerate() {
        headings.push(heading(tenant.opening, sums[i], last[i]))?;
    }
    Ok(headings)
}

/// The heading of one tenant.
pub fn heading_of(
    alloc: Global,
    trace: &Trace,
    report: &Report,
    tenant: u32,
) -> Result<Heading, AllocError>
    requires answered { HasAnswers (content trace.now) report.now.answers.items report.now.finals.items }
    requires tenant { tenant < length trace.now.tenants.items }
    ensures { IfOk result (λ heading. heading ≡ heading_at (content trace.now) report.now.answers.items report.now.finals.items tenant) }
{
    let headings = headings_of(alloc, trace, report)?;
    Ok(headings[tenant as usize])
}

fn heading(opening: u64, sums: Sums, last: u64) -> Heading
    ensures { result ≡ record { opening = opening; added = sums.added; taken = sums.taken; last = last } }
{
    let Sums { added, taken } = sums;
    Heading {
        opening,
        added,
        taken,
        last,
    }
}

/// The headings of a report are the numbers of its last lines.
pub fn headings_laws()
    ensures { HeadingsAreTold }
{}
