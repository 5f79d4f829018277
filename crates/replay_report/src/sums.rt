//! What was added to each tenant and taken from it.
ghost use Rattle.std.specs.Prelude.{◌≡◌, ℕ, ◌+◌, ◌<◌, ◌≤◌, ◌^◌, IfOk, length, slice_index_or};
ghost use Rattle.std.specs.List.{All, zip};
ghost use Rattle.trace_text.specs.Drill.{taken};
ghost use Rattle.trace_text.specs.Trace.{added};
ghost use Rattle.replay_report.specs.Report.{added_to, taken_from};

use quota_pool::Moved;
use std::alloc::{AllocError, Global};
use trace_text::{Op, Row};

/// What was added to a tenant and taken from it.
#[derive(Clone, Copy, Debug, PartialEq, Eq)]
pub struct Sums {
    pub added: u128,
    pub taken: u128,
}

/// The sums of each tenant over all rows.
pub fn sums_of(
    alloc: Global,
    tenants: usize,
    rows: &[Row],
    answers: &[Moved],
) -> Result<Vec<Sums>, AllocError>
    requires answers { length answers.now ≡ length rows.now }
    requires tenants { All (λ row. row.tenant < tenants) rows.now }
    ensures count { IfOk result (λ sums. length sums.items ≡ tenants) }
    ensures added { IfOk result (λ sums. (tenant : ℕ) (d : Sums) → tenant < tenants → (slice_index_or sums.items tenant d).added ≡ added_to tenant (zip rows.now answers.now)) }
    ensures taken { IfOk result (λ sums. (tenant : ℕ) (d : Sums) → tenant < tenants → (slice_index_or sums.items tenant d).taken ≡ taken_from tenant (zip rows.now answers.now)) }
{
    let none = Sums { added: 0, taken: 0 };
    let mut sums = vec![in alloc; none; tenants]?;
    for (i, row) in rows.iter().enumerate() {
        let tenant = row.tenant as usize;
        let moved = answers[i].moved;
        sums[tenant] = with_row(sums[tenant], row.op, moved);
    }
    Ok(sums)
}

// The sums with one more row.
fn with_row(sums: Sums, op: Op, moved: u64) -> Sums
    requires added { sums.added + moved < 2 ^ 128 }
    requires taken { sums.taken + moved < 2 ^ 128 }
    ensures added { result.added ≡ sums.added + added op moved }
    ensures taken { result.taken ≡ sums.taken + taken op moved }
    ensures small { (result.added ≤ sums.added + moved) × (result.taken ≤ sums.taken + moved) }
{
    let Sums { added, taken } = sums;
    let moved = u128::from(moved);
    match op {
        Op::Add | Op::Direct => Sums {
            added: added + moved,
            taken,
        },
        Op::Take => Sums {
            added,
            taken: taken + moved,
        },
        Op::Read => sums,
    }
}
