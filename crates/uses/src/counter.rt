//! A counter that two threads add to.
ghost use Rattle.std.specs.Prelude.{◌≡◌, ◌+◌, ◌<◌, ◌^◌, IfOk, IfErr};
ghost use Rattle.uses.specs.Books.{IsNew};
ghost use Rattle.uses.specs.Counts.{HasAdded};

use crate::pairs::{both, close};
use fn_funnel::{Funnel, OpenFault, Pass, add, shape_for};
use std::alloc::Global;
use std::sync::Wait;
use std::thread;
use std::thread::Threads;

// Adds 1, so many times.
fn add_ones<R: Wait>(rt: &R, funnel: &Funnel, pass: Pass, times: u64) -> Pass
    requires { IsNew funnel.now times pass }
    ensures { HasAdded funnel.now pass times result }
{
    let mut pass = pass;
    for _done in 0..times {
        let (next, _) = add(rt, funnel, pass, 1);
        pass = next;
    }
    pass
}

/// Two threads count on one counter at once, each so often. The counter ends at what both have counted.
pub fn count_at_once<R: Threads + Wait + Sync>(
    rt: &R,
    alloc: Global,
    first: u64,
    second: u64,
) -> Result<u64, OpenFault>
    requires { first + second < 2 ^ 63 }
    ensures counted { IfOk result (λ total. total ≡ first + second) }
    ensures memory { IfErr result (λ fault. fault ≡ OpenFault.NoMemory) }
{
    let (funnel, passes) = Funnel::open(alloc, shape_for(2), 0, &[first, second])?;
    let (one, two) = both(&funnel, passes);
    let shared = &funnel;
    let (one, two) = thread::join(
        rt,
        move || -> Pass
            requires { IsNew shared.now first one }
            ensures { HasAdded shared.entry.now one first result }
        { add_ones(rt, shared, one, first) },
        move || -> Pass
            requires { IsNew shared.now second two }
            ensures { HasAdded shared.entry.now two second result }
        { add_ones(rt, shared, two, second) },
    );
    let book = close(alloc, funnel, one, two)?;
    Ok(book.value())
}
