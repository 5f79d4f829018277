//! A quota that two threads borrow from.
ghost use Rattle.std.specs.Prelude.{◌≡◌, ◌+◌, ◌*◌, ◌<◌, ◌≤◌, ◌^◌, min, IfOk, IfErr};
ghost use Rattle.uses.specs.Books.{IsNew};
ghost use Rattle.uses.specs.Counts.{HasReturned};

use crate::pairs::{both, close};
use fn_funnel::{Funnel, OpenFault, Pass, add, shape_for, sub};
use std::alloc::Global;
use std::sync::Wait;
use std::thread;
use std::thread::Threads;

/// What two threads had of a quota, and what was left of it at the end.
#[derive(Clone, Copy, Debug, PartialEq, Eq)]
pub struct Lent {
    pub first: u64,
    pub second: u64,
    pub left: u64,
}

// Takes up to an amount, and gives back what there was of it.
fn borrow<R: Wait>(rt: &R, funnel: &Funnel, pass: Pass, amount: u64) -> (Pass, u64)
    requires new { IsNew funnel.now (2 * amount) pass }
    requires amount { 1 ≤ amount }
    ensures had { result.1 ≤ min amount funnel.now.start.cap }
    ensures returned { HasReturned funnel.now pass result.0 }
{
    let (pass, taken) = sub(rt, funnel, pass, amount);
    let had = taken.before.min(amount);
    if had == 0 {
        return (pass, had);
    }
    let (pass, _) = add(rt, funnel, pass, had);
    (pass, had)
}

/// Two threads borrow up to an amount each from one quota, at once, and give back what they had. None has more than there is, and in the end the quota is whole.
pub fn lend_at_once<R: Threads + Wait + Sync>(
    rt: &R,
    alloc: Global,
    quota: u64,
    first: u64,
    second: u64,
) -> Result<Lent, OpenFault>
    requires some { (1 ≤ first) × (1 ≤ second) }
    requires total { quota + 2 * first + 2 * second < 2 ^ 63 }
    ensures had { IfOk result (λ lent. (lent.first ≤ min first quota) × (lent.second ≤ min second quota)) }
    ensures whole { IfOk result (λ lent. lent.left ≡ quota) }
    ensures memory { IfErr result (λ fault. fault ≡ OpenFault.NoMemory) }
{
    let allowances = [2 * first, 2 * second];
    let (funnel, passes) = Funnel::open_capped(alloc, shape_for(2), quota, quota, &allowances)?;
    let (one, two) = both(&funnel, passes);
    let shared = &funnel;
    let ((one, had), (two, other)) = thread::join(
        rt,
        move || -> (Pass, u64)
            requires new { IsNew shared.now (2 * first) one }
            requires amount { 1 ≤ first }
            ensures had { result.1 ≤ min first shared.entry.now.start.cap }
            ensures returned { HasReturned shared.entry.now one result.0 }
        { borrow(rt, shared, one, first) },
        move || -> (Pass, u64)
            requires new { IsNew shared.now (2 * second) two }
            requires amount { 1 ≤ second }
            ensures had { result.1 ≤ min second shared.entry.now.start.cap }
            ensures returned { HasReturned shared.entry.now two result.0 }
        { borrow(rt, shared, two, second) },
    );
    let left = close(alloc, funnel, one, two)?.value();
    Ok(Lent {
        first: had,
        second: other,
        left,
    })
}
