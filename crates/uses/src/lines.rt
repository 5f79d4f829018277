//! Work on lines, handed out in ranges.
ghost use Rattle.std.specs.Prelude.{◌≡◌, ◌≤◌, ◌^◌, IfOk, length, map};

use fn_spread::{NoMemory, spread};
use std::alloc::Global;
use std::sync::Wait;
use std::thread::Threads;

/// The length of each line, found by four workers that draw sixteen lines at a time.
pub fn lengths<H: Threads + Wait + Sync>(
    rt: &H,
    alloc: Global,
    lines: &[&[u8]],
) -> Result<Vec<u64>, NoMemory>
    requires few { length lines.now ≤ 2 ^ 32 }
    ensures { IfOk result (λ counts. counts.items ≡ map (λ line. length line.now) lines.entry.now) }
{
    let counted = spread(
        rt,
        alloc,
        lines,
        4,
        16,
        &|line: &&[u8]| -> u64
            ensures { result ≡ length line.entry.now.now }
        { line.len() as u64 },
    )?;
    Ok(counted.results)
}
