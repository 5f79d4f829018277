//! What workers may add and take in a segment.
ghost use Rattle.std.specs.Prelude.{◌≡◌, ◌+◌, ◌^◌, ◌<◌, ◌≤◌, ℕ, IfOk, All, length, replicate, slice_index, slice_set};
ghost use Rattle.trace_text.specs.SoundTrace.{amounts};
ghost use Rattle.replay_run.specs.Ready.{ArePlanned};

use quota_pool::Plan;
use std::alloc::Global;
use trace_text::{NoMemory, Row};

// Plans that allow nothing.
fn no_plans(alloc: Global, tenants: usize, workers: usize) -> Result<Vec<Plan>, NoMemory>
    ensures { IfOk result (λ plans. plans.items ≡ replicate tenants (replicate workers 0)) }
{
    let mut plans = Vec::new(alloc);
    for _ in 0..tenants {
        let items = vec![in alloc; 0u64; workers]?;
        if plans.push(Plan { items }).is_err() {
            return Err(NoMemory);
        }
    }
    Ok(plans)
}

// Allows a worker more.
fn allow(plan: &mut Plan, worker: usize, amount: u64)
    requires worker { worker < length plan.old }
    requires fits { slice_index plan.old worker + amount < 2 ^ 64 }
    ensures { plan.new ≡ slice_set plan.old worker (slice_index plan.old worker + amount) }
{
    plan.items[worker] += amount;
}

/// A plan for each tenant, which allows each worker the amounts of its rows there.
pub fn plan_rows(
    alloc: Global,
    rows: &[Row],
    tenants: usize,
    workers: u32,
) -> Result<Vec<Plan>, NoMemory>
    requires tenants { All (λ row. row.tenant < tenants) rows.now }
    requires workers { All (λ row. row.worker < workers) rows.now }
    requires below { (tenant : ℕ) → tenant < tenants → amounts tenant rows.now < 2 ^ 63 }
    ensures { IfOk result (λ plans. ArePlanned rows.now tenants workers plans.items) }
{
    let mut plans = no_plans(alloc, tenants, workers as usize)?;
    for row in rows {
        let plan = &mut plans[row.tenant as usize];
        allow(plan, row.worker as usize, row.amount);
    }
    Ok(plans)
}
