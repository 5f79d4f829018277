//! The workers, each with a desk and its lines.
ghost use Rattle.std.specs.Prelude.{◌≡◌, ◌++◌, ◌∷◌, [], ◌<◌, ◌≤◌, ◌^◌, ℕ, All, IfOk, OnOk, length, map, slice_index_or};
ghost use Rattle.quota_bucket.specs.Seen.{burst};
ghost use Rattle.throttle_run.specs.Work.{lines_in, bare, desks_in, Each, IsDealt, MayRun, Ran, MayWork, Worked};

use crate::lines::ThrottleLine;
use quota_bucket::{Bucket, BucketDesk, Taken};
use std::alloc::{AllocError, Global};
use std::marker::Model;
use std::sync::Wait;
use std::thread;
use std::thread::Threads;

/// A line, with its place among all and what its take told.
#[derive(Clone, Copy, Debug)]
pub struct Job {
    pub place: u64,
    pub line: ThrottleLine,
    pub told: Taken,
}

/// The lines of one worker, in order.
#[derive(Debug, Drop)]
pub struct Jobs {
    pub items: Vec<Job>,
}

impl Model for Jobs {
    ghost use Rattle.std.specs.Prelude.{List};
    ghost use Rattle.throttle_run.specs.declared.workers.Job.{Job};

    ghost Value = { List Job };

    ghost view = { λ jobs. jobs.items.items };
}

/// A worker's desk, and its lines.
#[derive(Drop)]
pub struct Worker {
    pub desk: BucketDesk,
    pub jobs: Jobs,
}

// A worker without lines for each desk.
fn bare_workers(alloc: Global, desks: Vec<BucketDesk>) -> Result<Vec<Worker>, AllocError>
    ensures { IfOk result (λ all. all.items ≡ map bare desks.items) }
{
    let mut all = Vec::with_capacity(alloc, desks.len())?;
    for desk in desks {
        let items = Vec::new(alloc);
        let jobs = Jobs { items };
        all.push(Worker { desk, jobs })?;
    }
    Ok(all)
}

// A line before its take.
fn job_of(place: u64, line: ThrottleLine) -> Job
    ensures { result.line ≡ line }
{
    let told = Taken {
        refilled: 0,
        before: 0,
        moved: 0,
    };
    Job { place, line, told }
}

// Gives a worker one more job.
fn give(worker: &mut Worker, job: Job) -> Result<(), AllocError>
    ensures desk { worker.new.desk ≡ worker.old.desk }
    ensures jobs { OnOk result (worker.new.jobs ≡ worker.old.jobs ++ job ∷ []) }
{
    worker.jobs.items.push(job)?;
    Ok(())
}

/// A worker for each desk, with its lines, in order.
pub fn engage(
    alloc: Global,
    desks: Vec<BucketDesk>,
    lines: &[ThrottleLine],
) -> Result<Vec<Worker>, AllocError>
    requires { All (λ line. line.worker < length desks.items) lines.now }
    ensures desks { IfOk result (λ all. desks_in all.items ≡ desks.items) }
    ensures dealt { IfOk result (λ all. Each (IsDealt lines.now) all.items) }
{
    let mut all = bare_workers(alloc, desks)?;
    for (place, line) in lines.iter().enumerate() {
        give(&mut all[line.worker as usize], job_of(place as u64, *line))?;
    }
    Ok(all)
}

// Makes the takes of a worker's lines on its desk, in order, and calls the closures around each.
fn work<R: Wait, B: Fn(u32, u64), A: Fn(u32, u64)>(
    rt: &R,
    bucket: &Bucket,
    desk: &mut BucketDesk,
    jobs: &mut [Job],
    worker: u32,
    before: &B,
    answered: &A,
)
    requires before { B.IsAlwaysCallable before.now }
    requires answered { A.IsAlwaysCallable answered.now }
    requires may { MayRun bucket.now desk.old (lines_in jobs.old) }
    ensures lines { lines_in jobs.new ≡ lines_in jobs.old }
    ensures ran { Ran bucket.now desk.old jobs.new desk.new }
{
    for job in jobs.iter_mut() {
        before(worker, job.place);
        job.told = desk.take(rt, bucket, job.line.now, job.line.amount);
        answered(worker, job.place);
    }
}

// Makes the takes of one worker.
fn work_at<R: Wait, B: Fn(u32, u64), A: Fn(u32, u64)>(
    rt: &R,
    bucket: &Bucket,
    place: &mut Worker,
    worker: u32,
    before: &B,
    answered: &A,
)
    requires before { B.IsAlwaysCallable before.now }
    requires answered { A.IsAlwaysCallable answered.now }
    requires may { MayWork bucket.now place.old }
    ensures { Worked bucket.now place.old place.new }
{
    let desk = &mut place.desk;
    let jobs = &mut place.jobs;
    work(rt, bucket, desk, &mut jobs.items, worker, before, answered);
}

// Makes the takes of all workers, at once.
fn work_all<R: Threads + Wait + Sync, B: Fn(u32, u64) + Sync, A: Fn(u32, u64) + Sync>(
    rt: &R,
    bucket: &Bucket,
    all: &mut [Worker],
    before: &B,
    answered: &A,
)
    requires before { B.IsAlwaysCallable before.now }
    requires answered { A.IsAlwaysCallable answered.now }
    requires few { length all.old < 2 ^ 32 }
    requires ready { All (MayWork bucket.now) all.old }
    ensures { (w : ℕ) (d : _) → w < length all.old → Worked bucket.now (slice_index_or all.old w d) (slice_index_or all.new w d) }
{
    let count = all.len();
    if count > 0 {
        thread::for_each_mut(
            rt,
            all,
            count,
            &|worker, place: &mut Worker|
                requires { B.IsAlwaysCallable before.now × A.IsAlwaysCallable answered.now × (worker < 2 ^ 32) × MayWork bucket.now place.now }
                ensures { Worked bucket.entry.now place.entry.now place.exit.now }
            { work_at(rt, bucket, place, worker as u32, before, answered) },
        );
    }
}

/// The workers after their work, which they do at once.
pub fn worked<R: Threads + Wait + Sync, B: Fn(u32, u64) + Sync, A: Fn(u32, u64) + Sync>(
    rt: &R,
    bucket: &Bucket,
    all: Vec<Worker>,
    before: &B,
    answered: &A,
) -> Vec<Worker>
    requires before { B.IsAlwaysCallable before.now }
    requires answered { A.IsAlwaysCallable answered.now }
    requires few { length all.items < 2 ^ 32 }
    requires ready { All (MayWork bucket.now) all.items }
    ensures count { length result.items ≡ length all.items }
    ensures each { (w : ℕ) (d : _) → w < length all.items → Worked bucket.now (slice_index_or all.items w d) (slice_index_or result.items w d) }
{
    let mut all = all;
    work_all(rt, bucket, &mut all, before, answered);
    all
}
