//! A limiter whose tasks share one thread: a task gives the thread back while it waits for its batch.
ghost use Rattle.std.specs.Prelude.{◌≡◌, ◌≤◌, IfSome, IsSome, nat_lt, ℕ};
ghost use Rattle.fn_model.specs.declared.Kind.TheVariants.{Add};
ghost use Rattle.fn_table.specs.Seen.{AreOpened, IsOf};
ghost use Rattle.fn_table.specs.Standing.{IsNumbered};
ghost use Rattle.fn_table.specs.Claims.{left, Made, Rests};

use fn_future::{AddFuture, FunnelTable, Pass};
use fn_layout::Shape;
use futures::Future;
use futures::executor::block_on;
use futures::future::join;
use futures::task::{Context, Poll};
use std::alloc::{AllocError, AllocGlobal, Global};
use std::random::RandomSource;
use std::sync::Wait;
use std::test::*;

/// A request at a limiter: it is let through where the integer that it meets is below the limit.
#[derive(Drop)]
pub struct Request<'a> {
    call: AddFuture<'a>,
    limit: u64,
}

impl Future for Request<'_> {
    type Output = (Pass, bool);

    ghost can_poll = { λ q. IsSome q.call.pending };

    ghost gives = { λ q r. (before : ℕ) × Made q.call.given Add q.call.amount before r.0 × (r.1 ≡ nat_lt before q.limit) };

    fn poll(&mut self, cx: &mut Context<'_>) -> Poll<(Pass, bool)> {
        match self.call.poll(cx) {
            Poll::Ready((pass, before)) => Poll::Ready((pass, before < self.limit)),
            Poll::Pending => Poll::Pending,
        }
    }
}

/// Adds for two passes, as two tasks of one thread: while the one waits for its batch, the thread goes on with the other.
pub fn add_both<R>(
    rt: &R,
    table: &FunnelTable,
    first: Pass,
    second: Pass,
    amount: u64,
) -> Option<((Pass, u64), (Pass, u64))>
where
    R: Wait + RandomSource + AllocGlobal,
    requires together { IsOf table.now first × IsOf table.now second }
    requires rest { Rests first × Rests second }
    requires amount { (1 ≤ amount) × (amount ≤ left first) × (amount ≤ left second) }
    ensures first { IfSome result (λ r. Made first Add amount r.0.1 r.0.0) }
    ensures second { IfSome result (λ r. Made second Add amount r.1.1 r.1.0) }
{
    let Ok(first) = AddFuture::new(table, first, amount) else {
        return None;
    };
    let Ok(second) = AddFuture::new(table, second, amount) else {
        return None;
    };
    // Polled first, the second waits where its batch has the first one's call at its head.
    match block_on(rt, join(second, first)) {
        Ok((second, first)) => Some((first, second)),
        Err(_) => None,
    }
}

// The two passes of a table.
fn two_passes(table: &FunnelTable, mut passes: Vec<Pass>) -> Option<(Pass, Pass)>
    requires opened { AreOpened table.now passes.items }
    requires two { table.now.start.shape.passes ≡ 2 }
    ensures { IfSome result (λ r. IsNumbered table.now r.0 0 × IsNumbered table.now r.1 1) }
{
    let second = passes.pop()?;
    let first = passes.pop()?;
    Some((first, second))
}

// The value of the book, when both have come back.
fn value_of_two(
    alloc: Global,
    table: FunnelTable,
    first: Pass,
    second: Pass,
) -> Result<u64, AllocError>
    requires two { table.start.shape.passes ≡ 2 }
    requires passes { IsNumbered table first 0 × IsNumbered table second 1 }
{
    let mut passes = Vec::new(alloc);
    passes.push(first)?;
    passes.push(second)?;
    Ok(table.close(passes).value())
}

// Adds 5 for both passes, and tells the replies and the value.
fn both_add<R>(
    rt: &R,
    alloc: Global,
    table: FunnelTable,
    passes: Vec<Pass>,
) -> Option<(u64, u64, u64)>
where
    R: Wait + RandomSource + AllocGlobal,
    requires opened { AreOpened table passes.items }
    requires two { table.start.shape.passes ≡ 2 }
{
    let (first, second) = two_passes(&table, passes)?;
    if first.allowance() < 5 || second.allowance() < 5 {
        return None;
    }
    let ((first, before), (second, then)) = add_both(rt, &table, first, second, 5)?;
    let value = value_of_two(alloc, table, first, second).ok()?;
    Some((before, then, value))
}

#[test]
fn two_tasks_share_a_thread(rt: HostRuntime) -> Result<(), Fail> {
    if let Ok(shape) = Shape::new(2, 1, 1, 1)
        && let Ok((table, passes)) = FunnelTable::open(rt.alloc(), shape, 0, &[5, 5])
    {
        assert_eq!(rt; both_add(&rt, rt.alloc(), table, passes), Some((0, 5, 10)));
        return Ok(());
    }
    assert!(&rt; false);
    Ok(())
}

// Which of two requests for 5 is let through, where the limit is 5.
fn let_through<R>(rt: &R, table: &FunnelTable, passes: Vec<Pass>) -> Option<(bool, bool)>
where
    R: Wait + RandomSource + AllocGlobal,
    requires opened { AreOpened table.now passes.items }
    requires two { table.now.start.shape.passes ≡ 2 }
{
    let (first, second) = two_passes(table, passes)?;
    if first.allowance() < 5 || second.allowance() < 5 {
        return None;
    }
    let call = AddFuture::new(table, first, 5).ok()?;
    let first = Request { call, limit: 5 };
    let call = AddFuture::new(table, second, 5).ok()?;
    let second = Request { call, limit: 5 };
    let ((_, later), (_, earlier)) = block_on(rt, join(second, first)).ok()?;
    Some((earlier, later))
}

#[test]
fn requests_are_let_through_up_to_the_limit(rt: HostRuntime) -> Result<(), Fail> {
    if let Ok(shape) = Shape::new(2, 1, 1, 1)
        && let Ok((table, passes)) = FunnelTable::open(rt.alloc(), shape, 0, &[5, 5])
    {
        assert_eq!(rt; let_through(&rt, &table, passes), Some((true, false)));
        return Ok(());
    }
    assert!(&rt; false);
    Ok(())
}
