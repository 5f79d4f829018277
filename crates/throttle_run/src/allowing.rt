//! What each worker's lines may move.
ghost use Rattle.std.specs.Prelude.{◌≡◌, ◌+◌, ◌<◌, ◌^◌, ℕ, All, IfOk, length, sum, sum_by, slice_index};
ghost use Rattle.throttle_run.specs.Lines.{cost, AreSound};
ghost use Rattle.throttle_run.specs.Throttled.{lines_of};

use crate::lines::ThrottleLine;
use std::alloc::{AllocError, Global};

/// For each worker, the tokens that its lines may move.
pub fn allowances(
    alloc: Global,
    lines: &[ThrottleLine],
    workers: u32,
    burst: u64,
) -> Result<Vec<u64>, AllocError>
    requires { AreSound workers burst lines.now }
    ensures count { IfOk result (λ all. length all.items ≡ workers) }
    ensures total { IfOk result (λ all. sum all.items ≡ sum_by (cost burst) lines.now) }
    ensures each { IfOk result (λ all. (w : ℕ) → w < workers → slice_index all.items w ≡ sum_by (cost burst) (lines_of w lines.now)) }
{
    let mut all = vec![in alloc; 0u64; workers as usize]?;
    for line in lines {
        let worker = line.worker as usize;
        all[worker] += line.amount + burst;
    }
    Ok(all)
}
