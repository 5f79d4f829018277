//! The answers of workers, in order of the lines, and their desks.
ghost use Rattle.std.specs.Prelude.{◌≡◌, ℕ, ◌<◌, All, IfOk, length, map, slice_index_or};
ghost use Rattle.throttle_run.specs.Throttled.{answers_of};
ghost use Rattle.throttle_run.specs.Work.{tolds, desks_in, job_at, jobs_of, Each, IsDealt};

use crate::lines::ThrottleLine;
use crate::workers::{Jobs, Worker};
use quota_bucket::{BucketDesk, Taken};
use std::alloc::{AllocError, Global};

/// The answer to each line: those to a worker's lines are what its takes told, in order.
pub fn answers(
    alloc: Global,
    lines: &[ThrottleLine],
    all: &[Worker],
) -> Result<Vec<Taken>, AllocError>
    requires there { All (λ line. line.worker < length all.now) lines.now }
    requires dealt { Each (IsDealt lines.now) all.now }
    ensures one_each { IfOk result (λ answers. length answers.items ≡ length lines.now) }
    ensures sorted { IfOk result (λ answers. (w : ℕ) → w < length all.now → answers_of w lines.now answers.items ≡ tolds (jobs_of all.now w)) }
{
    let mut next = vec![in alloc; 0usize; all.len()]?;
    let mut answers = Vec::with_capacity(alloc, lines.len())?;
    for line in lines {
        let worker = line.worker as usize;
        let at = next[worker];
        next[worker] = at + 1;
        answers.push(told_at(&all[worker].jobs, at))?;
    }
    Ok(answers)
}

// What the take of a job told.
fn told_at(jobs: &Jobs, at: usize) -> Taken
    requires { at < length jobs.now }
    ensures { result ≡ (job_at jobs.now at).told }
{
    let job = &jobs.items[at];
    job.told
}

/// The desks of workers, in order.
pub fn leave(alloc: Global, all: Vec<Worker>) -> Result<Vec<BucketDesk>, AllocError>
    ensures { IfOk result (λ desks. desks.items ≡ desks_in all.items) }
{
    let mut desks = Vec::with_capacity(alloc, all.len())?;
    for worker in all {
        let Worker { desk, jobs: _ } = worker;
        desks.push(desk)?;
    }
    Ok(desks)
}
