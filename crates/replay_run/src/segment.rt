//! One segment of a trace.
ghost use Rattle.std.specs.Prelude.{◌≡◌, ◌+◌, ◌^◌, ◌<◌, ◌≤◌, ◌++◌, [], ℕ, All, IfOk, OnOk, None, length, map};
ghost use Rattle.std.specs.Vec.{vec_capacity};
ghost use Rattle.fn_model.specs.declared.TheConstants.{NO_CAP};
ghost use Rattle.quota_pool.specs.Faults.{pool_fault};
ghost use Rattle.quota_pool.specs.Opened.{IsOpened};
ghost use Rattle.replay_run.specs.Ready.{IsSoundSegment, IsReady, Adds};
ghost use Rattle.replay_run.specs.Work.{AreFresh, AreMade, MayWork, seats};

use crate::gathering::gather;
use crate::places::{Place, deal, leave, make_rooms, seat};
use crate::planning::plan_rows;
use crate::working::{work, work_all};
use fn_funnel::Book;
use gates::Gate;
use quota_pool::{Desk, Moved, Plan, PoolFault, QuotaPool};
use std::alloc::Global;
use std::sync::Wait;
use std::thread::Threads;
use trace_text::{NoMemory, Row, Tenant};

// Opens a pool with numbers at which nothing but memory can fail.
fn open_pool(
    alloc: Global,
    openings: &[u64],
    caps: &[u64],
    workers: u32,
    plans: &[Plan],
) -> Result<(QuotaPool, Vec<Desk>), NoMemory>
    requires few { length openings.now ≤ 256 }
    requires workers { (1 ≤ workers) × (workers ≤ 64) }
    requires one_cap_each { length caps.now ≡ length openings.now }
    requires caps { All (λ cap. cap ≤ NO_CAP) caps.now }
    requires one_each { length plans.now ≡ length openings.now }
    requires plans { All (λ plan. length plan ≡ workers) plans.now }
    requires sound { pool_fault openings.now caps.now plans.now ≡ None }
    ensures { IfOk result (λ r. IsOpened openings.now caps.now workers plans.now r.0 r.1.items) }
{
    match QuotaPool::open_capped(alloc, openings, caps, workers, plans) {
        Ok(opened) => Ok(opened),
        Err(PoolFault::NoMemory) => Err(NoMemory),
        Err(_) => unreachable!(),
    }
}

// What stands before a segment's first call: its pool, its desks with their rows, and room for the desks after the last.
#[derive(Drop)]
struct Ready {
    pool: QuotaPool,
    places: Vec<Place>,
    desks: Vec<Desk>,
}

// Takes a segment's memory but for that of its answers.
fn make_ready(
    alloc: Global,
    caps: &[u64],
    openings: &[u64],
    rows: &[Row],
    workers: u32,
) -> Result<Ready, NoMemory>
    requires workers { (1 ≤ workers) × (workers ≤ 64) }
    requires sound { IsSoundSegment workers caps.now openings.now rows.now }
    ensures ready { IfOk result (λ ready. IsReady workers caps.now openings.now rows.now ready.pool (seats rows.now ready.places.items)) }
    ensures fresh { IfOk result (λ ready. AreFresh rows.now ready.places.items) }
    ensures none { IfOk result (λ ready. ready.desks.items ≡ []) }
    ensures room { IfOk result (λ ready. workers ≤ vec_capacity ready.desks) }
{
    let plans = plan_rows(alloc, rows, caps.len(), workers)?;
    let (pool, desks) = open_pool(alloc, openings, caps, workers, &plans)?;
    let mut places = seat(alloc, desks)?;
    deal(rows, &mut places)?;
    let desks = Vec::with_capacity(alloc, workers as usize)?;
    Ok(Ready {
        pool,
        places,
        desks,
    })
}

// The tenants' caps.
fn caps_of(alloc: Global, tenants: &[Tenant]) -> Result<Vec<u64>, NoMemory>
    ensures { IfOk result (λ caps. caps.items ≡ map (λ tenant. tenant.cap) tenants.now) }
{
    let caps = tenants.iter().map(|tenant| tenant.cap).collect(alloc)?;
    Ok(caps)
}

// Makes all calls of one worker, whose answers are those of the segment.
fn make_alone<R: Wait, G: Gate>(
    rt: &R,
    pool: &QuotaPool,
    places: &mut [Place],
    rows: &[Row],
    gate: &G,
    answers: &mut Vec<Moved>,
)
    requires one { length places.old ≡ 1 }
    requires workers { All (λ row. row.worker < length places.old) rows.now }
    requires fresh { AreFresh rows.now places.old }
    requires may { All (MayWork pool.now) (seats rows.now places.old) }
    requires room { length answers.old.items + length rows.now ≤ vec_capacity answers.old }
    ensures made { AreMade pool.now rows.now places.old answers.old.items places.new answers.new.items }
    ensures room { vec_capacity answers.old ≤ vec_capacity answers.new }
{
    let first = answers.len();
    let place = &mut places[0];
    let desk = &mut place.desk;
    let numbers = &place.jobs.numbers;
    work(rt, pool, desk, rows, first, numbers, answers, 0, gate);
}

// Makes the calls of all workers at once, each of which has room for its answers, and then gathers these.
fn make_together<R: Threads + Wait + Sync, G: Gate + Sync>(
    rt: &R,
    alloc: Global,
    pool: &QuotaPool,
    places: &mut [Place],
    rows: &[Row],
    gate: &G,
    answers: &mut Vec<Moved>,
) -> Result<(), NoMemory>
    requires few { length places.old < 2 ^ 32 }
    requires workers { All (λ row. row.worker < length places.old) rows.now }
    requires fresh { AreFresh rows.now places.old }
    requires may { All (MayWork pool.now) (seats rows.now places.old) }
    requires room { length answers.old.items + length rows.now ≤ vec_capacity answers.old }
    ensures made { OnOk result (AreMade pool.now rows.now places.old answers.old.items places.new answers.new.items) }
    ensures room { vec_capacity answers.old ≤ vec_capacity answers.new }
{
    let mut next = vec![in alloc; 0usize; places.len()]?;
    make_rooms(alloc, places)?;
    work_all(rt, pool, places, rows, answers.len(), gate);
    gather(rows, places, &mut next, answers);
    Ok(())
}

// Makes all calls of a segment.
fn make_all<R: Threads + Wait + Sync, G: Gate + Sync>(
    rt: &R,
    alloc: Global,
    pool: &QuotaPool,
    places: &mut [Place],
    rows: &[Row],
    gate: &G,
    answers: &mut Vec<Moved>,
) -> Result<(), NoMemory>
    requires few { length places.old < 2 ^ 32 }
    requires workers { All (λ row. row.worker < length places.old) rows.now }
    requires fresh { AreFresh rows.now places.old }
    requires may { All (MayWork pool.now) (seats rows.now places.old) }
    requires room { length answers.old.items + length rows.now ≤ vec_capacity answers.old }
    ensures made { OnOk result (AreMade pool.now rows.now places.old answers.old.items places.new answers.new.items) }
    ensures room { vec_capacity answers.old ≤ vec_capacity answers.new }
{
    match places.len() {
        1 => {
            make_alone(rt, pool, places, rows, gate, answers);
            Ok(())
        }
        _ => make_together(rt, alloc, pool, places, rows, gate, answers),
    }
}

/// Replays one segment: puts its answers behind those that stand there, where they find room, and gives its books. All its memory is taken before its first call.
pub fn replay_segment<R: Threads + Wait + Sync, G: Gate + Sync>(
    rt: &R,
    alloc: Global,
    tenants: &[Tenant],
    openings: &[u64],
    rows: &[Row],
    workers: u32,
    gate: &G,
    answers: &mut Vec<Moved>,
) -> Result<Vec<Book>, NoMemory>
    requires workers { (1 ≤ workers) × (workers ≤ 64) }
    requires sound { IsSoundSegment workers (map (λ tenant. tenant.cap) tenants.now) openings.now rows.now }
    requires room { length answers.old.items + length rows.now ≤ vec_capacity answers.old }
    ensures segment { IfOk result (λ books. Adds workers tenants.now openings.now rows.now answers.old.items answers.new.items books.items) }
    ensures room { vec_capacity answers.old ≤ vec_capacity answers.new }
{
    let caps = caps_of(alloc, tenants)?;
    let Ready {
        pool,
        mut places,
        desks,
    } = make_ready(alloc, &caps, openings, rows, workers)?;
    make_all(rt, alloc, &pool, &mut places, rows, gate, answers)?;
    Ok(pool.close(leave(places, desks)))
}
