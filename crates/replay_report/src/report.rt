//! The report of a trace, and the summary of one with one tenant.
ghost use Rattle.std.specs.Prelude.{◌≡◌, ℕ, ◌+◌, ◌-◌, ◌*◌, ◌<◌, ◌≤◌, ◌++◌, IfOk, OnOk, length};
ghost use Rattle.std.specs.List.{All, enumerate_from, flat_map, zip};
ghost use Rattle.trace_text.specs.Trace.{content};
ghost use Rattle.replay_report.specs.Report.{HasAnswers, answered, report_text, row_line, segments_text, settled_line, summary_line, summary_text, total_line, total_text};

use crate::numbers::{push_named, push_named_sum};
use crate::sums::{Sums, sums_of};
use quota_pool::Moved;
use std::alloc::{AllocError, Global};
use trace_text::{NoMemory, Row, Tenant, Trace};

/// The lines of all rows and tenants.
pub fn report_text(
    alloc: Global,
    trace: &Trace,
    answers: &[Moved],
    finals: &[u64],
) -> Result<Vec<u8>, NoMemory>
    requires { HasAnswers (content trace.now) answers.now finals.now }
    ensures { IfOk result (λ text. text.items ≡ report_text (content trace.now) answers.now finals.now) }
{
    let mut text = Vec::new(alloc);
    push_segments(&mut text, trace, answers, finals)?;
    let last = &finals[trace.cuts.len() * trace.tenants.len()..];
    push_totals(&mut text, alloc, trace, answers, last)?;
    Ok(text)
}

/// The line of a trace with one tenant.
pub fn summary_text(
    alloc: Global,
    trace: &Trace,
    workers: u32,
    answers: &[Moved],
    finals: &[u64],
) -> Result<Vec<u8>, NoMemory>
    requires answered { HasAnswers (content trace.now) answers.now finals.now }
    requires alone { length trace.now.tenants.items ≡ 1 }
    ensures { IfOk result (λ text. text.items ≡ summary_text (content trace.now) workers answers.now finals.now) }
{
    let sums = sums_of(alloc, 1, &trace.rows, answers)?;
    let opening = trace.tenants[0].opening;
    let last = finals[trace.cuts.len()];
    let mut text = Vec::new(alloc);
    push_summary(&mut text, trace.rows.len(), workers, opening, sums[0], last)?;
    Ok(text)
}

fn push_summary(
    text: &mut Vec<u8>,
    rows: usize,
    workers: u32,
    opening: u64,
    sums: Sums,
    last: u64,
) -> Result<(), AllocError>
    ensures { OnOk result (text.new.items ≡ text.old.items ++ summary_line rows workers opening sums.added sums.taken last) }
{
    push_named(text, b"rows ", rows as u64)?;
    push_named(text, b" workers ", u64::from(workers))?;
    push_named(text, b" opening ", opening)?;
    push_named_sum(text, b" added ", sums.added)?;
    push_named_sum(text, b" taken ", sums.taken)?;
    push_named(text, b" final ", last)?;
    text.extend_from_slice(b"\n")
}

// Appends the lines of all segments.
fn push_segments(
    text: &mut Vec<u8>,
    trace: &Trace,
    answers: &[Moved],
    finals: &[u64],
) -> Result<(), AllocError>
    requires { HasAnswers (content trace.now) answers.now finals.now }
    ensures { OnOk result (text.new.items ≡ text.old.items ++ segments_text trace.now.tenants.items finals.now 0 0 (answered (content trace.now) answers.now) trace.now.cuts.items) }
{
    let rows = trace.rows.as_slice();
    let cuts = trace.cuts.as_slice();
    let tenants = trace.tenants.as_slice();
    let mut before = 0usize;
    for (segment, cut) in cuts.iter().enumerate() {
        let end = cut.rows as usize;
        push_rows(text, &rows[before..end], &answers[before..end])?;
        let first = segment * tenants.len();
        push_settled(text, cut.at, tenants, &finals[first..])?;
        before = end;
    }
    push_rows(text, &rows[before..], &answers[before..])
}

// Appends the lines of some rows.
fn push_rows(text: &mut Vec<u8>, rows: &[Row], answers: &[Moved]) -> Result<(), AllocError>
    requires { length answers.now ≡ length rows.now }
    ensures { OnOk result (text.new.items ≡ text.old.items ++ flat_map row_line (zip rows.now answers.now)) }
{
    for (i, row) in rows.iter().enumerate() {
        push_row(text, *row, answers[i])?;
    }
    Ok(())
}

fn push_row(text: &mut Vec<u8>, row: Row, answer: Moved) -> Result<(), AllocError>
    ensures { OnOk result (text.new.items ≡ text.old.items ++ row_line (row, answer)) }
{
    push_named(text, b"row,", row.at)?;
    push_named(text, b",", answer.before)?;
    push_named(text, b",", answer.moved)?;
    text.extend_from_slice(b"\n")
}

// Appends the line of each tenant's value at a cut.
fn push_settled(
    text: &mut Vec<u8>,
    at: u64,
    tenants: &[Tenant],
    values: &[u64],
) -> Result<(), AllocError>
    requires { length tenants.now ≤ length values.now }
    ensures { OnOk result (text.new.items ≡ text.old.items ++ flat_map (settled_line at) (zip tenants.now values.now)) }
{
    for (i, tenant) in tenants.iter().enumerate() {
        push_value(text, at, tenant, values[i])?;
    }
    Ok(())
}

fn push_value(text: &mut Vec<u8>, at: u64, tenant: &Tenant, value: u64) -> Result<(), AllocError>
    ensures { OnOk result (text.new.items ≡ text.old.items ++ settled_line at (tenant.now, value)) }
{
    push_named(text, b"settled,", at)?;
    text.extend_from_slice(b",")?;
    text.extend_from_slice(&tenant.name.items)?;
    push_named(text, b",", value)?;
    text.extend_from_slice(b"\n")
}

// Appends the last line of each tenant.
fn push_totals(
    text: &mut Vec<u8>,
    alloc: Global,
    trace: &Trace,
    answers: &[Moved],
    values: &[u64],
) -> Result<(), AllocError>
    requires answers { length answers.now ≡ length trace.now.rows.items }
    requires tenants { All (λ row. row.tenant < length trace.now.tenants.items) trace.now.rows.items }
    requires values { length trace.now.tenants.items ≤ length values.now }
    ensures { OnOk result (text.new.items ≡ text.old.items ++ flat_map (total_line (answered (content trace.now) answers.now)) (zip (enumerate_from 0 trace.now.tenants.items) values.now)) }
{
    let tenants = trace.tenants.as_slice();
    let sums = sums_of(alloc, tenants.len(), &trace.rows, answers)?;
    for (i, tenant) in tenants.iter().enumerate() {
        push_total(text, tenant, sums[i], values[i])?;
    }
    Ok(())
}

fn push_total(text: &mut Vec<u8>, tenant: &Tenant, sums: Sums, value: u64) -> Result<(), AllocError>
    ensures { OnOk result (text.new.items ≡ text.old.items ++ total_text tenant.now sums.added sums.taken value) }
{
    text.extend_from_slice(b"total,")?;
    text.extend_from_slice(&tenant.name.items)?;
    push_named(text, b",", tenant.opening)?;
    push_named_sum(text, b",", sums.added)?;
    push_named_sum(text, b",", sums.taken)?;
    push_named(text, b",", value)?;
    text.extend_from_slice(b"\n")
}
