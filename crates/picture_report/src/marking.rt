//! The marks of tenants: their rows with what each met and left.
ghost use Rattle.std.specs.Prelude.{◌≡◌, ◌<◌, ◌^◌, IfOk, length, map, replicate, [], OnOk};
ghost use Rattle.std.specs.List.{All, zip};
ghost use Rattle.trace_text.specs.Trace.{content};
ghost use Rattle.replay_report.specs.Report.{answered};
ghost use Rattle.picture_report.specs.Told.{IsSmall, RowsAreMarked, all_marks, left_by, mark_of, marks_at};

use picture_marks::Mark;
use replay_report::{Moved, Trace};
use std::alloc::{AllocError, Global};
use trace_text::{Op, Row};

/// The marks of a tenant's rows, in the order of the trace.
pub fn marks_of(
    alloc: Global,
    trace: &Trace,
    answers: &[Moved],
    tenant: u32,
) -> Result<Vec<Mark>, AllocError>
    requires answers { length answers.now ≡ length trace.now.rows.items }
    requires small { All IsSmall answers.now }
    ensures { IfOk result (λ marks. marks.items ≡ marks_at tenant (answered (content trace.now) answers.now)) }
{
    let rows = trace.rows.as_slice();
    let mut marks = Vec::new(alloc);
    for (i, row) in rows.iter().enumerate() {
        if row.tenant == tenant {
            marks.push(mark_of(*row, answers[i]))?;
        }
    }
    Ok(marks)
}

/// The marks of each tenant, by one pass over the rows.
pub fn marks_by_tenant(
    alloc: Global,
    trace: &Trace,
    answers: &[Moved],
) -> Result<Vec<Vec<Mark>>, AllocError>
    requires answers { length answers.now ≡ length trace.now.rows.items }
    requires tenants { All (λ row. row.tenant < length trace.now.tenants.items) trace.now.rows.items }
    requires small { All IsSmall answers.now }
    ensures { IfOk result (λ lists. map (λ list. list.items) lists.items ≡ all_marks (length trace.now.tenants.items) (answered (content trace.now) answers.now)) }
{
    let mut lists = no_marks(alloc, trace.tenants.len())?;
    push_marks(&mut lists, &trace.rows, answers)?;
    Ok(lists)
}

/// The marks of all tenants are as many as the rows.
pub fn marks_laws()
    ensures { RowsAreMarked }
{}

// So many empty lists.
fn no_marks(alloc: Global, tenants: usize) -> Result<Vec<Vec<Mark>>, AllocError>
    ensures { IfOk result (λ lists. map (λ list. list.items) lists.items ≡ replicate tenants []) }
{
    let mut lists = Vec::new(alloc);
    for _ in 0..tenants {
        lists.push(Vec::new(alloc))?;
    }
    Ok(lists)
}

// Puts the mark of each row behind those of its tenant.
fn push_marks(lists: &mut [Vec<Mark>], rows: &[Row], answers: &[Moved]) -> Result<(), AllocError>
    requires empty { map (λ list. list.items) lists.old ≡ replicate (length lists.old) [] }
    requires answers { length answers.now ≡ length rows.now }
    requires tenants { All (λ row. row.tenant < length lists.old) rows.now }
    requires small { All IsSmall answers.now }
    ensures { OnOk result (map (λ list. list.items) lists.new ≡ all_marks (length lists.old) (zip rows.now answers.now)) }
{
    for (i, row) in rows.iter().enumerate() {
        let list = &mut lists[row.tenant as usize];
        list.push(mark_of(*row, answers[i]))?;
    }
    Ok(())
}

// The mark of a row.
fn mark_of(row: Row, answer: Moved) -> Mark
    requires { IsSmall answer }
    ensures { result ≡ mark_of (row, answer) }
{
    Mark {
        worker: row.worker,
        at: row.at,
        before: answer.before,
        after: left_by(row.op, answer.before, answer.moved),
    }
}

// What a call leaves of the number that it met.
fn left_by(op: Op, before: u64, moved: u64) -> u64
    requires before { before < 2 ^ 63 }
    requires moved { moved < 2 ^ 63 }
    ensures { result ≡ left_by op before moved }
{
    match op {
        Op::Add | Op::Direct => before + moved,
        Op::Take => before.saturating_sub(moved),
        Op::Read => before,
    }
}
