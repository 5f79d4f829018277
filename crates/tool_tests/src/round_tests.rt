ghost use Rattle.std.specs.Prelude.{◌≡◌, [], ◌∷◌, true, IfSome, IsSome, IsSomeAnd};
ghost use Rattle.fn_core.specs.Machine.{IsChange};
ghost use Rattle.fn_table.specs.Seen.{IsOf, AreOpened};
ghost use Rattle.fn_table.specs.Standing.{IsNumbered};
ghost use Rattle.fn_table.specs.Claims.{Rests};
ghost use Rattle.fn_rounds.specs.Lanes.{MayMakeAll};
ghost use Rattle.fn_rounds.specs.Rounds.{AreStarted, AreAllInOrder};

use fn_climb::{Begun, Pending, Turn, begin};
use fn_layout::Shape;
use fn_rounds::*;
use futures::task::Poll;
use futures::test::MockTask;
use std::alloc::{AllocError, AllocGlobal, Global};
use std::random::RandomSource;
use std::sync::Wait;
use std::test::*;

// A lane without orders.
fn lane_of_none(alloc: Global, pass: Pass) -> Lane
    ensures pass { result.pass ≡ pass }
    ensures may { MayMakeAll pass result.orders }
{
    Lane {
        pass,
        orders: Orders {
            items: Vec::new(alloc),
        },
    }
}

// A lane with one order, where the pass may make it.
fn lane_of_one(alloc: Global, pass: Pass, order: (Kind, u64)) -> Option<Lane>
    requires { IsChange order.0 }
    ensures pass { IfSome result (λ lane. lane.pass ≡ pass) }
    ensures may { IfSome result (λ lane. MayMakeAll pass lane.orders) }
{
    if order.1 < 1 || pass.allowance() < order.1 {
        return None;
    }
    let mut items = Vec::new(alloc);
    items.push(order).ok()?;
    Some(Lane {
        pass,
        orders: Orders { items },
    })
}

// A lane with two orders, where the pass may make them.
fn lane_of_two(alloc: Global, pass: Pass, one: (Kind, u64), two: (Kind, u64)) -> Option<Lane>
    requires one { IsChange one.0 }
    requires two { IsChange two.0 }
    ensures pass { IfSome result (λ lane. lane.pass ≡ pass) }
    ensures may { IfSome result (λ lane. MayMakeAll pass lane.orders) }
{
    let allowance = pass.allowance();
    if one.1 < 1 || two.1 < 1 || allowance < one.1 || allowance - one.1 < two.1 {
        return None;
    }
    let mut items = Vec::new(alloc);
    items.push(one).ok()?;
    items.push(two).ok()?;
    Some(Lane {
        pass,
        orders: Orders { items },
    })
}

// The calls of two lanes.
fn calls_of_two<'a>(
    alloc: Global,
    table: &'a FunnelTable,
    first: Lane,
    second: Lane,
) -> Option<AllCalls<'a>>
    requires first { IsOf table.now first.pass × Rests first.pass × MayMakeAll first.pass first.orders }
    requires second { IsOf table.now second.pass × Rests second.pass × MayMakeAll second.pass second.orders }
    ensures { IfSome result (λ calls. IsSomeAnd calls.lanes (AreStarted (first ∷ second ∷ []))) }
{
    let mut lanes = Vec::new(alloc);
    lanes.push(first).ok()?;
    lanes.push(second).ok()?;
    AllCalls::new(alloc, table, lanes).ok()
}

// What two lanes give in the end.
fn dones_of_two<R>(rt: &R, calls: AllCalls<'_>) -> Option<(LaneDone, LaneDone)>
where
    R: Wait + RandomSource + AllocGlobal,
    requires { IsSome calls.lanes }
    ensures { IfSome result (λ r. IfSome calls.entry.lanes (λ lanes. AreAllInOrder lanes (r.0 ∷ r.1 ∷ []))) }
{
    let mut dones = finish_all(rt, calls).ok()?.into_iter();
    let first = dones.next()?;
    let second = dones.next()?;
    match dones.next() {
        None => Some((first, second)),
        Some(_) => None,
    }
}

// The value of the book, when both passes have come back.
fn value_of_two(
    alloc: Global,
    table: FunnelTable,
    first: Pass,
    second: Pass,
) -> Result<u64, AllocError>
    requires two { table.start.shape.passes ≡ 2 }
    requires first { IsNumbered table first 0 }
    requires second { IsNumbered table second 1 }
{
    let mut passes = Vec::new(alloc);
    passes.push(first)?;
    passes.push(second)?;
    Ok(table.close(passes).value())
}

// Two lanes, run to their end.
fn run_two<R>(
    rt: &R,
    alloc: Global,
    table: &FunnelTable,
    first: Lane,
    second: Lane,
) -> Option<(LaneDone, LaneDone)>
where
    R: Wait + RandomSource + AllocGlobal,
    requires first { IsNumbered table.now first.pass 0 × MayMakeAll first.pass first.orders }
    requires second { IsNumbered table.now second.pass 1 × MayMakeAll second.pass second.orders }
    ensures { IfSome result (λ r. IsNumbered table.now r.0.pass 0 × IsNumbered table.now r.1.pass 1) }
{
    let calls = calls_of_two(alloc, table, first, second)?;
    dones_of_two(rt, calls)
}

// The two passes of a table.
fn two_passes(table: &FunnelTable, mut passes: Vec<Pass>) -> Option<(Pass, Pass)>
    requires opened { AreOpened table.now passes.items }
    requires two { table.now.start.shape.passes ≡ 2 }
    ensures { IfSome result (λ r. IsNumbered table.now r.0 0 × IsNumbered table.now r.1 1) }
{
    let second = passes.pop();
    let first = passes.pop();
    match (first, second) {
        (Some(first), Some(second)) => Some((first, second)),
        _ => None,
    }
}

// The replies of two lanes, of two orders and of one, and the value.
fn adds_and_subtracts<R>(
    rt: &R,
    alloc: Global,
    table: FunnelTable,
    passes: Vec<Pass>,
) -> Option<(Replies, Replies, u64)>
where
    R: Wait + RandomSource + AllocGlobal,
    requires opened { AreOpened table passes.items }
    requires two { table.start.shape.passes ≡ 2 }
{
    let (first, second) = two_passes(&table, passes)?;
    let first = lane_of_two(alloc, first, (Kind::Add, 5), (Kind::Sub, 30))?;
    let second = lane_of_one(alloc, second, (Kind::Add, 7))?;
    let (first, second) = run_two(rt, alloc, &table, first, second)?;
    let value = value_of_two(alloc, table, first.pass, second.pass).ok()?;
    Some((first.replies, second.replies, value))
}

#[test]
fn two_lanes_take_turns(rt: HostRuntime) -> Result<(), Fail> {
    if let Ok(shape) = Shape::new(2, 1, 1, 2)
        && let Ok((table, passes)) = FunnelTable::open(rt.alloc(), shape, 10, &[35, 7])
        && let Some((first, second, value)) = adds_and_subtracts(&rt, rt.alloc(), table, passes)
    {
        assert_eq!(rt; first.items.as_slice(), [10, 22].as_slice());
        assert_eq!(rt; second.items.as_slice(), [15].as_slice());
        assert_eq!(rt; value, 0);
        return Ok(());
    }
    assert!(&rt; false);
    Ok(())
}

// How many lanes without orders end at the first poll.
fn end_at_once<R>(rt: &R, alloc: Global, table: &FunnelTable, passes: Vec<Pass>) -> Option<usize>
where
    R: RandomSource + AllocGlobal,
    requires opened { AreOpened table.now passes.items }
    requires two { table.now.start.shape.passes ≡ 2 }
{
    let (first, second) = two_passes(table, passes)?;
    let first = lane_of_none(alloc, first);
    let second = lane_of_none(alloc, second);
    let mut calls = calls_of_two(alloc, table, first, second)?;
    match MockTask::new(rt).ok()?.poll(&mut calls) {
        Poll::Ready(dones) => Some(dones.len()),
        Poll::Pending => None,
    }
}

#[test]
fn lanes_without_orders_end_at_the_first_poll(rt: HostRuntime) -> Result<(), Fail> {
    if let Ok(shape) = Shape::new(2, 1, 1, 1)
        && let Ok((table, passes)) = FunnelTable::open(rt.alloc(), shape, 4, &[0, 0])
    {
        assert_eq!(rt; end_at_once(&rt, rt.alloc(), &table, passes), Some(2));
        return Ok(());
    }
    assert!(&rt; false);
    Ok(())
}

// An addition begins.
fn starts(table: &FunnelTable, pass: Pass, amount: u64) -> Option<Pending>
    requires together { IsOf table.now pass }
    requires idle { Rests pass }
    ensures { IfSome result (λ p. IsOf table.now p.pass) }
{
    if amount < 1 || pass.allowance() < amount {
        return None;
    }
    match begin(table, pass, Kind::Add, amount) {
        Begun::Waiting(pending) => Some(pending),
        Begun::NoRow(_, _) => None,
    }
}

// A poll that ends it.
fn ends(table: &FunnelTable, pending: Pending) -> Option<u64>
    requires { IsOf table.now pending.pass }
{
    match pending.poll(table) {
        Turn::Ready(_, reply) => Some(reply),
        Turn::NotYet(_, _) => None,
    }
}

// The calls of two lanes of one addition each.
fn calls_of_adds<'a>(
    alloc: Global,
    table: &'a FunnelTable,
    first: Pass,
    second: Pass,
    amount: u64,
) -> Option<AllCalls<'a>>
    requires first { IsOf table.now first × Rests first }
    requires second { IsOf table.now second × Rests second }
    ensures { IfSome result (λ calls. IsSome calls.lanes) }
{
    let first = lane_of_one(alloc, first, (Kind::Add, amount));
    let second = lane_of_one(alloc, second, (Kind::Add, amount));
    match (first, second) {
        (Some(first), Some(second)) => calls_of_two(alloc, table, first, second),
        _ => None,
    }
}

// Whether a poll tells the lanes to wait.
fn waits(task: &MockTask, calls: &mut AllCalls<'_>) -> bool
    requires { IsSome calls.old.lanes }
    ensures { result ≡ true → IsSome calls.new.lanes }
{
    match task.poll(calls) {
        Poll::Ready(_) => false,
        Poll::Pending => true,
    }
}

// Two lanes are told twice to wait for a stalled call: what its poll then gives, and then they.
fn reply_after(
    task: &MockTask,
    table: &FunnelTable,
    stalled: Pending,
    mut calls: AllCalls<'_>,
) -> Option<(u64, Vec<LaneDone>)>
    requires stalled { IsOf table.now stalled.pass }
    requires calls { IsSome calls.lanes }
{
    if !waits(task, &mut calls) {
        return None;
    }
    if !waits(task, &mut calls) {
        return None;
    }
    let reply = ends(table, stalled)?;
    match task.poll(&mut calls) {
        Poll::Ready(dones) => Some((reply, dones)),
        Poll::Pending => None,
    }
}

// A pass begins a call, for which the lanes of two others have to wait.
fn wait_for_it<R>(
    rt: &R,
    alloc: Global,
    table: &FunnelTable,
    first: Pass,
    second: Pass,
    third: Pass,
) -> Option<(u64, Vec<LaneDone>)>
where
    R: RandomSource + AllocGlobal,
    requires first { IsOf table.now first × Rests first }
    requires second { IsOf table.now second × Rests second }
    requires third { IsOf table.now third × Rests third }
{
    let stalled = starts(table, third, 1)?;
    let calls = calls_of_adds(alloc, table, first, second, 2)?;
    let task = MockTask::new(rt).ok()?;
    reply_after(&task, table, stalled, calls)
}

// The third pass begins a call, for which two lanes have to wait: what its poll gives, and then they.
fn wait_for_a_third<R>(
    rt: &R,
    alloc: Global,
    table: &FunnelTable,
    mut passes: Vec<Pass>,
) -> Option<(u64, Vec<LaneDone>)>
where
    R: RandomSource + AllocGlobal,
    requires opened { AreOpened table.now passes.items }
    requires three { table.now.start.shape.passes ≡ 3 }
{
    let third = passes.pop();
    let second = passes.pop();
    let first = passes.pop();
    match (first, second, third) {
        (Some(first), Some(second), Some(third)) => {
            wait_for_it(rt, alloc, table, first, second, third)
        }
        _ => None,
    }
}

#[test]
fn lanes_wait_for_a_stalled_delegate(rt: HostRuntime) -> Result<(), Fail> {
    if let Ok(shape) = Shape::new(3, 1, 1, 1)
        && let Ok((table, passes)) = FunnelTable::open(rt.alloc(), shape, 0, &[2, 2, 1])
        && let Some((reply, dones)) = wait_for_a_third(&rt, rt.alloc(), &table, passes)
    {
        assert_eq!(rt; reply, 0);
        assert_eq!(rt; dones.len(), 2);
        for (done, before) in dones.iter().zip([1, 3]) {
            assert_eq!(rt; done.replies.items.as_slice(), [before].as_slice());
        }
        return Ok(());
    }
    assert!(&rt; false);
    Ok(())
}
