//! The trace of a drill.
ghost use Rattle.std.specs.Prelude.{◌≡◌, ◌≤◌, ◌*◌, IfOk};
ghost use Rattle.trace_text.specs.Drill.{drill, drill_row, drill_rows, taken, total_taken};
ghost use Rattle.trace_text.specs.SoundTrace.{IsSoundTrace};
ghost use Rattle.trace_text.specs.Trace.{content};

use crate::traces::{Name, Op, Row, Tenant, Trace};
use std::alloc::Global;
use text_lines::{MOST_NUMBER, NoMemory};

/// The greatest seed of a drill.
pub const MOST_SEED: u64 = 1_000_000;

/// The most rows of a drill.
pub const MOST_ROWS: u64 = 1_000_000;

/// Makes the trace of a drill: one tenant, which opens with all that its rows take.
pub fn make_drill(alloc: Global, seed: u64, rows: u64, workers: u32) -> Result<Trace, NoMemory>
    requires seed { seed ≤ MOST_SEED }
    requires rows { 1 ≤ rows × (rows ≤ MOST_ROWS) }
    requires workers { 1 ≤ workers × (workers ≤ 64) }
    ensures exact { IfOk result (λ trace. content trace ≡ drill seed rows workers) }
    ensures sound { IfOk result (λ trace. IsSoundTrace workers (content trace)) }
{
    let (rows, opening) = drill_rows(alloc, seed, rows, workers)?;
    let name = Name {
        items: Vec::from_slice(alloc, b"drill")?,
    };
    let mut tenants = Vec::new(alloc);
    let cap = MOST_NUMBER;
    if tenants.push(Tenant { name, opening, cap }).is_err() {
        return Err(NoMemory);
    }
    let cuts = Vec::new(alloc);
    Ok(Trace {
        tenants,
        rows,
        cuts,
    })
}

// The rows, and what they take together.
fn drill_rows(
    alloc: Global,
    seed: u64,
    count: u64,
    workers: u32,
) -> Result<(Vec<Row>, u64), NoMemory>
    requires seed { seed ≤ MOST_SEED }
    requires count { count ≤ MOST_ROWS }
    requires workers { 1 ≤ workers }
    ensures rows { IfOk result (λ made. made.0.items ≡ drill_rows seed count workers) }
    ensures taken { IfOk result (λ made. made.1 ≡ total_taken made.0.items) }
{
    let mut rows = Vec::new(alloc);
    let mut total = 0;
    for i in 0..count {
        let row = drill_row(seed, workers, i);
        total += taken(row.op, row.amount);
        if rows.push(row).is_err() {
            return Err(NoMemory);
        }
    }
    Ok((rows, total))
}

// A row by its number.
fn drill_row(seed: u64, workers: u32, i: u64) -> Row
    requires seed { seed ≤ MOST_SEED }
    requires i { i ≤ MOST_ROWS }
    requires workers { 1 ≤ workers }
    ensures exact { result ≡ drill_row seed workers i }
    ensures amount { result.amount ≤ 97 }
{
    Row {
        at: i + 2,
        worker: (i % u64::from(workers)) as u32,
        op: if i % 3 == 2 { Op::Take } else { Op::Add },
        tenant: 0,
        amount: (seed + 7 * i) % 97 + 1,
    }
}

// What a row takes.
fn taken(op: Op, amount: u64) -> u64
    ensures exact { result ≡ taken op amount }
    ensures bound { result ≤ amount }
{
    match op {
        Op::Take => amount,
        Op::Add | Op::Direct | Op::Read => 0,
    }
}
