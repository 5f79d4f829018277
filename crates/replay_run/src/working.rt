//! Workers make the calls of their rows.
ghost use Rattle.std.specs.Prelude.{◌≡◌, ◌+◌, ◌<◌, ◌≤◌, ◌++◌, ◌∷◌, [], ◌^◌, ℕ, All, length, slice_index_or};
ghost use Rattle.std.specs.Vec.{vec_capacity};
ghost use Rattle.quota_pool.specs.Views.{Belongs, left_at};
ghost use Rattle.quota_pool.specs.Claims.{MadeAt};
ghost use Rattle.quota_pool.specs.Calls.{WentAt};
ghost use Rattle.trace_text.specs.SoundTrace.{IsAmount};
ghost use Rattle.replay_run.specs.Segments.{kind_of, goes_through};
ghost use Rattle.replay_run.specs.Work.{rows_at, MayRun, HasMade, MayBegin, IsDone};

use crate::places::Place;
use gates::Gate;
use quota_pool::{Desk, Moved, QuotaPool};
use std::sync::Wait;
use std::thread;
use std::thread::Threads;
use trace_text::{Op, Row};

// Makes the call of a row.
fn make_call<R: Wait>(rt: &R, pool: &QuotaPool, desk: &mut Desk, row: Row) -> Moved
    requires together { Belongs pool.now desk.old }
    requires tenant { row.tenant < length desk.old.passes }
    requires amount { IsAmount row.op row.amount }
    requires left { row.amount ≤ left_at desk.old row.tenant }
    ensures made { MadeAt pool.now desk.old row.tenant (kind_of row.op) row.amount result desk.new }
    ensures way { WentAt desk.old row.tenant (kind_of row.op) (goes_through row.op) row.amount result desk.new }
{
    match row.op {
        Op::Add => desk.add(rt, pool, row.tenant, row.amount),
        Op::Take => desk.take(rt, pool, row.tenant, row.amount),
        Op::Direct => desk.direct(rt, pool, row.tenant, row.amount),
        Op::Read => desk.read(pool, row.tenant),
    }
}

// Puts an answer behind those that stand there, where it finds room.
fn put(answers: &mut Vec<Moved>, answer: Moved)
    requires { length answers.old.items < vec_capacity answers.old }
    ensures items { answers.new.items ≡ answers.old.items ++ answer ∷ [] }
    ensures room { vec_capacity answers.old ≤ vec_capacity answers.new }
{
    match answers.push(answer) {
        Ok(()) => {}
        Err(_) => unreachable!(),
    }
}

/// Makes the calls of the rows of these numbers on a worker's desk, in order, and puts their answers behind those that stand there, where they find room. So many rows of the trace stand before the segment.
pub fn work<R: Wait, G: Gate>(
    rt: &R,
    pool: &QuotaPool,
    desk: &mut Desk,
    rows: &[Row],
    first: usize,
    numbers: &[usize],
    answers: &mut Vec<Moved>,
    worker: u32,
    gate: &G,
)
    requires may { MayRun pool.now desk.old (rows_at rows.now numbers.now) }
    requires within { All (λ number. number < length rows.now) numbers.now }
    requires fits { first + length rows.now < 2 ^ 64 }
    requires room { length answers.old.items + length numbers.now ≤ vec_capacity answers.old }
    ensures made { HasMade pool.now desk.old (rows_at rows.now numbers.now) answers.old.items answers.new.items desk.new }
    ensures room { vec_capacity answers.old ≤ vec_capacity answers.new }
{
    for number in numbers {
        let at = (first + *number) as u64;
        gate.before(worker, at);
        let answer = make_call(rt, pool, desk, rows[*number]);
        put(answers, answer);
        gate.answered(worker, at);
    }
}

// Makes the calls of one place.
fn work_at<R: Wait, G: Gate>(
    rt: &R,
    pool: &QuotaPool,
    place: &mut Place,
    rows: &[Row],
    first: usize,
    worker: u32,
    gate: &G,
)
    requires ready { MayBegin pool.now rows.now place.old }
    requires fits { first + length rows.now < 2 ^ 64 }
    ensures { IsDone pool.now rows.now place.old place.new }
{
    let desk = &mut place.desk;
    let jobs = &mut place.jobs;
    work(
        rt,
        pool,
        desk,
        rows,
        first,
        &jobs.numbers,
        &mut jobs.answers,
        worker,
        gate,
    );
}

/// Makes the calls of all places, all workers at once. So many rows of the trace stand before the segment.
pub fn work_all<R: Threads + Wait + Sync, G: Gate + Sync>(
    rt: &R,
    pool: &QuotaPool,
    places: &mut [Place],
    rows: &[Row],
    first: usize,
    gate: &G,
)
    requires few { length places.old < 2 ^ 32 }
    requires ready { All (MayBegin pool.now rows.now) places.old }
    requires fits { first + length rows.now < 2 ^ 64 }
    ensures { (worker : ℕ) (d : _) → worker < length places.old → IsDone pool.now rows.now (slice_index_or places.old worker d) (slice_index_or places.new worker d) }
{
    let count = places.len();
    if count > 0 {
        thread::for_each_mut(
            rt,
            places,
            count,
            &|worker, place| { work_at(rt, pool, place, rows, first, worker as u32, gate) },
        );
    }
}
