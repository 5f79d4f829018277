//! Tenants open, and workers get their passes.
ghost use Rattle.std.specs.Prelude.{◌≡◌, ◌≤◌, None, IfOk, All, length, map};
ghost use Rattle.quota_pool.specs.Rooms.{Suits, contents};
ghost use Rattle.running.specs.Running.{upto};
ghost use Rattle.fn_model.specs.declared.TheConstants.{NO_CAP};
ghost use Rattle.fn_core.specs.Calls.{open_fault};
ghost use Rattle.fn_table.specs.Seen.{fresh_passes};
ghost use Rattle.quota_pool.specs.Faults.{pool_fault};
ghost use Rattle.quota_pool.specs.Opened.{fresh_hand, seated, IsOpen, AreOpen};

use crate::closing::Closing;
use crate::desks::Desk;
use crate::plans::Plan;
use crate::rooms::{hand, rooms_for};
use fn_funnel::{Funnel, OpenFault, Pass, shape_for};
use std::alloc::{AllocError, Global};

// Opens a tenant's funnel, whose numbers are no fault.
fn open_tenant(
    alloc: Global,
    workers: u32,
    opening: u64,
    cap: u64,
    plan: &Plan,
) -> Result<(Funnel, Vec<Pass>), AllocError>
    requires workers { (1 ≤ workers) × (workers ≤ 64) }
    requires one_each { length plan.now ≡ workers }
    requires cap { cap ≤ NO_CAP }
    requires sound { open_fault opening cap plan.now ≡ None }
    ensures count { IfOk result (λ r. r.0.start.shape.passes ≡ workers) }
    ensures open { IfOk result (λ r. IsOpen workers opening cap plan.now r.0) }
    ensures passes { IfOk result (λ r. r.1.items ≡ fresh_passes r.0) }
{
    match Funnel::open_capped(alloc, shape_for(workers), opening, cap, &plan.items) {
        Ok(opened) => Ok(opened),
        Err(OpenFault::NoMemory) => Err(AllocError),
        Err(_) => unreachable!(),
    }
}

/// Opens all tenants, whose numbers are no fault, and gives the passes of each worker.
pub fn open_all(
    alloc: Global,
    openings: &[u64],
    caps: &[u64],
    workers: u32,
    plans: &[Plan],
) -> Result<(Vec<Funnel>, Vec<Vec<Pass>>), AllocError>
    requires workers { (1 ≤ workers) × (workers ≤ 64) }
    requires one_cap_each { length caps.now ≡ length openings.now }
    requires caps { All (λ cap. cap ≤ NO_CAP) caps.now }
    requires one_each { length plans.now ≡ length openings.now }
    requires plans { All (λ plan. length plan ≡ workers) plans.now }
    requires sound { pool_fault openings.now caps.now plans.now ≡ None }
    ensures count { IfOk result (λ r. All (λ funnel. funnel.start.shape.passes ≡ workers) r.0.items) }
    ensures open { IfOk result (λ r. AreOpen workers openings.now caps.now plans.now r.0.items) }
    ensures hands { IfOk result (λ r. contents r.1.items ≡ map (fresh_hand r.0.items) (upto workers)) }
{
    let mut hands = rooms_for(alloc, openings.len(), workers as usize)?;
    let mut funnels = Vec::with_capacity(alloc, openings.len())?;
    for (at, plan) in plans.iter().enumerate() {
        let (funnel, passes) = open_tenant(alloc, workers, openings[at], caps[at], plan)?;
        hand(&mut hands, passes);
        funnels.push(funnel)?;
    }
    Ok((funnels, hands))
}

/// A desk for each worker, with its passes. The first keeps room for closing.
pub fn desks_of(
    alloc: Global,
    hands: Vec<Vec<Pass>>,
    closing: Closing,
) -> Result<Vec<Desk>, AllocError>
    requires few { length hands.items ≤ 64 }
    requires closing { All (λ hand. Suits closing hand.items) hands.items }
    ensures { IfOk result (λ desks. desks.items ≡ seated 0 (contents hands.items)) }
{
    let mut desks = Vec::with_capacity(alloc, hands.len())?;
    let mut closing = Some(closing);
    for (worker, passes) in hands.into_iter().enumerate() {
        let worker = worker as u32;
        let closing = closing.take();
        desks.push(Desk {
            worker,
            passes,
            closing,
        })?;
    }
    Ok(desks)
}
