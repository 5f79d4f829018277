//! Numbers that are handed out in ranges.
ghost use Rattle.std.specs.Prelude.{◌≡◌, ◌⊎◌, ◌<◌, ◌≤◌, ◌^◌, IfOk, IfErr};
ghost use Rattle.uses.specs.Books.{IsNew};
ghost use Rattle.uses.specs.Counts.{HasDrawn};

use crate::pairs::{both, close};
use fn_funnel::{Funnel, OpenFault, Pass, add, shape_for};
use std::alloc::Global;
use std::sync::Wait;
use std::thread;
use std::thread::Threads;

// Draws a range of so many numbers, and gives where it begins.
fn draw<R: Wait>(rt: &R, funnel: &Funnel, pass: Pass, size: u64) -> (Pass, u64)
    requires new { IsNew funnel.now size pass }
    requires size { 1 ≤ size }
    ensures { HasDrawn funnel.now pass size result.1 result.0 }
{
    let (pass, added) = add(rt, funnel, pass, size);
    (pass, added.before)
}

/// Two threads draw a range of so many numbers each, at once, and are told where it begins: one gets the first range, and the other the next.
pub fn two_ranges<R: Threads + Wait + Sync>(
    rt: &R,
    alloc: Global,
    size: u64,
) -> Result<(u64, u64), OpenFault>
    requires { (1 ≤ size) × (size < 2 ^ 62) }
    ensures ranges { IfOk result (λ begins. ((begins.0 ≡ 0) × (begins.1 ≡ size)) ⊎ ((begins.0 ≡ size) × (begins.1 ≡ 0))) }
    ensures memory { IfErr result (λ fault. fault ≡ OpenFault.NoMemory) }
{
    let (funnel, passes) = Funnel::open(alloc, shape_for(2), 0, &[size, size])?;
    let (one, two) = both(&funnel, passes);
    let shared = &funnel;
    let ((one, first), (two, second)) = thread::join(
        rt,
        move || -> (Pass, u64)
            requires new { IsNew shared.now size one }
            requires size { 1 ≤ size }
            ensures { HasDrawn shared.entry.now one size result.1 result.0 }
        { draw(rt, shared, one, size) },
        move || -> (Pass, u64)
            requires new { IsNew shared.now size two }
            requires size { 1 ≤ size }
            ensures { HasDrawn shared.entry.now two size result.1 result.0 }
        { draw(rt, shared, two, size) },
    );
    close(alloc, funnel, one, two)?;
    Ok((first, second))
}
