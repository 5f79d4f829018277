ghost use Rattle.std.specs.Prelude.{◌≡◌, ◌≤◌, IfSome};
ghost use Rattle.fn_model.specs.declared.TheConstants.{NO_CAP};
ghost use Rattle.fn_core.specs.Calls.{IsIdle};
ghost use Rattle.fn_table.specs.Seen.{IsOf, AreOpened};
ghost use Rattle.fn_table.specs.Standing.{IsNumbered};

use crate::climb_tests::goes_on;
use fn_climb::FunnelTable;
use fn_funnel::*;
use std::alloc::{AllocError, Global};
use std::sync::Wait;
use std::test::*;
use std::thread;
use std::thread::Threads;

// The two passes of a funnel.
fn two_passes(funnel: &Funnel, mut passes: Vec<Pass>) -> Option<(Pass, Pass)>
    requires opened { AreOpened funnel.now passes.items }
    requires two { funnel.now.start.shape.passes ≡ 2 }
    ensures { IfSome result (λ r. IsNumbered funnel.now r.0 0 × IsNumbered funnel.now r.1 1) }
{
    let second = passes.pop();
    let first = passes.pop();
    match (first, second) {
        (Some(first), Some(second)) => Some((first, second)),
        _ => None,
    }
}

// The value of the book, when both have come back.
fn value_of_two(alloc: Global, funnel: Funnel, first: Pass, second: Pass) -> Result<u64, AllocError>
    requires two { funnel.start.shape.passes ≡ 2 }
    requires passes { IsNumbered funnel first 0 × IsNumbered funnel second 1 }
{
    let mut passes = Vec::new(alloc);
    passes.push(first)?;
    passes.push(second)?;
    let book = funnel.close(passes);
    Ok(book.value())
}

// An addition that waits, where the allowance is enough.
fn adds<R: Wait>(rt: &R, funnel: &Funnel, pass: Pass, amount: u64) -> Option<(Pass, Added)>
    requires together { IsOf funnel.now pass }
    requires idle { IsIdle pass.seen pass.number }
    ensures { IfSome result (λ r. IsOf funnel.now r.0 × (r.0.number ≡ pass.number) × IsIdle r.0.seen r.0.number) }
{
    if amount < 1 || pass.allowance() < amount {
        return None;
    }
    Some(add(rt, funnel, pass, amount))
}

// A subtraction.
fn subtracts<R: Wait>(rt: &R, funnel: &Funnel, pass: Pass, amount: u64) -> Option<(Pass, Added)>
    requires together { IsOf funnel.now pass }
    requires idle { IsIdle pass.seen pass.number }
    ensures { IfSome result (λ r. IsOf funnel.now r.0 × (r.0.number ≡ pass.number) × IsIdle r.0.seen r.0.number) }
{
    if amount < 1 || pass.allowance() < amount {
        return None;
    }
    Some(sub(rt, funnel, pass, amount))
}

// A call of this kind begins.
fn starts(table: &FunnelTable, pass: Pass, amount: u64) -> Option<Pending>
    requires together { IsOf table.now pass }
    requires idle { IsIdle pass.seen pass.number }
    ensures { IfSome result (λ p. IsOf table.now p.pass × (p.number ≡ pass.number)) }
{
    if amount < 1 || pass.allowance() < amount {
        return None;
    }
    match begin(table, pass, Kind::Add, amount) {
        Begun::Waiting(pending) => Some(pending),
        Begun::NoRow(_, _) => None,
    }
}

// A poll that ends it.
fn replies(table: &FunnelTable, pending: Pending) -> Option<(Pass, u64)>
    requires { IsOf table.now pending.pass }
    ensures { IfSome result (λ r. IsOf table.now r.0 × (r.0.number ≡ pending.number) × IsIdle r.0.seen r.0.number) }
{
    match pending.poll(table) {
        Turn::Ready(pass, reply) => Some((pass, reply)),
        Turn::NotYet(_, _) => None,
    }
}

// A step that loses an exchange.
fn loses(table: &FunnelTable, pending: Pending) -> Option<(Pending, Why)>
    requires { IsOf table.now pending.pass }
    ensures { IfSome result (λ r. IsOf table.now r.0.pass) }
{
    match pending.step(table) {
        Step::NotYet(pending, why) => Some((pending, why)),
        Step::Going(_) | Step::Ready(_, _) => None,
    }
}

// What stands after a call that goes past a stalled one.
#[derive(Debug, PartialEq, Eq, Drop)]
struct Passed {
    first: u64,
    added: Added,
    second: u64,
    value: u64,
}

// The second pass stalls, and the first calls again.
fn goes_past<R: Wait>(rt: &R, alloc: Global, funnel: Funnel, passes: Vec<Pass>) -> Option<Passed>
    requires opened { AreOpened funnel passes.items }
    requires two { funnel.start.shape.passes ≡ 2 }
{
    let (first, second) = two_passes(&funnel, passes)?;
    let first = starts(funnel.table(), first, 1)?;
    let second = starts(funnel.table(), second, 1)?;
    let (first, one) = replies(funnel.table(), first)?;
    let (first, added) = adds(rt, &funnel, first, 5)?;
    let (second, two) = replies(funnel.table(), second)?;
    let value = value_of_two(alloc, funnel, first, second).ok()?;
    Some(Passed {
        first: one,
        added,
        second: two,
        value,
    })
}

#[test]
fn a_call_goes_past_a_stalled_one(rt: HostRuntime) -> Result<(), Fail> {
    if let Ok(shape) = Shape::new(2, 1, 1, 1)
        && let Ok((funnel, passes)) = Funnel::open(rt.alloc(), shape, 0, &[10, 10])
    {
        let way = Way::Direct(Blocked {
            level: 1,
            row: 0,
            pass: 1,
            announced: 0,
        });
        let passed = Passed {
            first: 0,
            added: Added { before: 2, way },
            second: 1,
            value: 7,
        };
        assert_eq!(rt; goes_past(&rt, rt.alloc(), funnel, passes), Some(passed));
        return Ok(());
    }
    assert!(&rt; false);
    Ok(())
}

// So many additions of 1, with their replies.
fn add_ones<R: Wait>(
    rt: &R,
    funnel: &Funnel,
    pass: Pass,
    times: u32,
    mut replies: Vec<u64>,
) -> (Pass, Vec<u64>)
    requires together { IsOf funnel.now pass }
    requires idle { IsIdle pass.seen pass.number }
    ensures together { IsOf funnel.now result.0 }
    ensures number { result.0.number ≡ pass.number }
    ensures idle { IsIdle result.0.seen result.0.number }
{
    let mut pass = pass;
    for _ in 0..times {
        if pass.allowance() < 1 {
            return (pass, replies);
        }
        let (next, added) = add(rt, funnel, pass, 1);
        pass = next;
        let _ = replies.push(added.before);
    }
    (pass, replies)
}

// The replies of two threads that add at once, and the value of the book.
fn two_threads<R: Threads + Wait + Sync>(
    rt: &R,
    alloc: Global,
    funnel: Funnel,
    passes: Vec<Pass>,
    times: u32,
    some: Vec<u64>,
    more: Vec<u64>,
) -> Result<Option<(Vec<u64>, u64)>, AllocError>
    requires opened { AreOpened funnel passes.items }
    requires two { funnel.start.shape.passes ≡ 2 }
{
    let Some((first, second)) = two_passes(&funnel, passes) else {
        return Ok(None);
    };
    let shared = &funnel;
    let ((first, mut replies), (second, more)) = thread::join(
        rt,
        move || -> (Pass, Vec<u64>)
            requires { IsNumbered shared.now first 0 }
            ensures { IsNumbered shared.entry.now result.0 0 }
        { add_ones(rt, shared, first, times, some) },
        move || -> (Pass, Vec<u64>)
            requires { IsNumbered shared.now second 1 }
            ensures { IsNumbered shared.entry.now result.0 1 }
        { add_ones(rt, shared, second, times, more) },
    );
    let value = value_of_two(alloc, funnel, first, second)?;
    for reply in more {
        replies.push(reply)?;
    }
    replies.sort()?;
    Ok(Some((replies, value)))
}

#[test]
fn two_threads_add_at_once(rt: HostRuntime) -> Result<(), Fail> {
    let shape = shape_for(2);
    let some = Vec::new(rt.alloc());
    let more = Vec::new(rt.alloc());
    if let Ok((funnel, passes)) = Funnel::open(rt.alloc(), shape, 0, &[1000, 1000])
        && let Some((replies, value)) = two_threads(
            &rt,
            rt.alloc(),
            funnel,
            passes,
            1000,
            some,
            more,
        )?
    {
        assert_eq!(rt; value, 2000);
        assert_eq!(rt; replies.len(), 2000);
        for (place, reply) in replies.iter().enumerate() {
            assert_eq!(rt; *reply, place as u64);
        }
        return Ok(());
    }
    assert!(&rt; false);
    Ok(())
}

// An addition, and a read.
fn adds_and_reads<R: Wait>(
    rt: &R,
    funnel: &Funnel,
    mut passes: Vec<Pass>,
    amount: u64,
) -> Option<(Added, u64)>
    requires opened { AreOpened funnel.now passes.items }
{
    let pass = passes.pop()?;
    let (mut pass, added) = adds(rt, funnel, pass, amount)?;
    Some((added, read(funnel.table(), &mut pass)))
}

#[test]
fn additions_stop_at_the_cap(rt: HostRuntime) -> Result<(), Fail> {
    if let Ok(shape) = Shape::new(1, 1, 1, 1)
        && let Ok((some, passes)) = Funnel::open_capped(rt.alloc(), shape, 8, 10, &[5])
        && let Ok((none, others)) = Funnel::open_capped(rt.alloc(), shape, 0, 0, &[3])
    {
        let way = Way::Funnel;
        assert_eq!(rt; some.cap(), 10);
        let added = Added { before: 8, way };
        assert_eq!(rt; adds_and_reads(&rt, &some, passes, 5), Some((added, 10)));
        let added = Added { before: 0, way };
        assert_eq!(rt; adds_and_reads(&rt, &none, others, 3), Some((added, 0)));
        return Ok(());
    }
    assert!(&rt; false);
    Ok(())
}

// A subtraction, and a read.
fn subtracts_and_reads<R: Wait>(
    rt: &R,
    funnel: &Funnel,
    mut passes: Vec<Pass>,
    amount: u64,
) -> Option<(Added, u64)>
    requires opened { AreOpened funnel.now passes.items }
{
    let pass = passes.pop()?;
    let (mut pass, added) = subtracts(rt, funnel, pass, amount)?;
    Some((added, read(funnel.table(), &mut pass)))
}

#[test]
fn subtractions_stop_at_zero(rt: HostRuntime) -> Result<(), Fail> {
    if let Ok(shape) = Shape::new(1, 1, 1, 1)
        && let Ok((funnel, passes)) = Funnel::open(rt.alloc(), shape, 3, &[5])
    {
        let way = Way::Funnel;
        let added = Added { before: 3, way };
        assert_eq!(rt;
            subtracts_and_reads(&rt, &funnel, passes, 5),
            Some((added, 0))
        );
        return Ok(());
    }
    assert!(&rt; false);
    Ok(())
}

// A direct subtraction comes between a load and its exchange.
fn loses_once(funnel: &Funnel, passes: Vec<Pass>) -> Option<(u64, Why, u64, u64)>
    requires opened { AreOpened funnel.now passes.items }
    requires two { funnel.now.start.shape.passes ≡ 2 }
{
    let (first, mut second) = two_passes(funnel, passes)?;
    let first = starts(funnel.table(), first, 4)?;
    let first = goes_on(funnel.table(), first, 3)?;
    if second.allowance() < 2 {
        return None;
    }
    let taken = sub_direct(funnel.table(), &mut second, 2).ok()?;
    let (first, why) = loses(funnel.table(), first)?;
    let (mut first, reply) = replies(funnel.table(), first)?;
    Some((taken, why, reply, read(funnel.table(), &mut first)))
}

#[test]
fn a_capped_batch_loses_to_a_subtraction(rt: HostRuntime) -> Result<(), Fail> {
    if let Ok(shape) = Shape::new(2, 1, 1, 2)
        && let Ok((funnel, passes)) = Funnel::open_capped(rt.alloc(), shape, 5, 10, &[20, 20])
    {
        let (loaded, found) = (5, 3);
        let lost = Why::Lost { loaded, found };
        assert_eq!(rt; loses_once(&funnel, passes), Some((5, lost, 3, 7)));
        return Ok(());
    }
    assert!(&rt; false);
    Ok(())
}

#[test]
fn totals_and_caps_are_checked(rt: HostRuntime) -> Result<(), Fail> {
    if let Ok(one) = Shape::new(1, 1, 1, 1) {
        let opening = 9223372036854775807;
        let total = 9223372036854775808;
        match Funnel::open(rt.alloc(), one, opening, &[1]) {
            Ok(_) => assert!(&rt; false),
            Err(fault) => assert_eq!(rt; fault, OpenFault::TooMuch { opening, total }),
        }
    }
    if let Ok(two) = Shape::new(2, 1, 1, 1) {
        let (opening, cap) = (11, 10);
        match Funnel::open_capped(rt.alloc(), two, opening, cap, &[1, 1]) {
            Ok(_) => assert!(&rt; false),
            Err(fault) => assert_eq!(rt; fault, OpenFault::AboveCap { opening, cap }),
        }
    }
    Ok(())
}

fn is_shared<T: Sync>(_: &T) {}

fn is_sent<T: Send>(_: &T) {}

#[test]
fn threads_share_a_funnel_and_hand_on_its_passes(rt: HostRuntime) -> Result<(), Fail> {
    if let Ok(shape) = Shape::new(2, 1, 1, 1)
        && let Ok((funnel, passes)) = Funnel::open(rt.alloc(), shape, 0, &[10, 10])
        && let Some((first, second)) = two_passes(&funnel, passes)
        && let Some(pending) = starts(funnel.table(), second, 1)
    {
        is_shared(&funnel);
        is_sent(&first);
        is_sent(&pending);
        return Ok(());
    }
    assert!(&rt; false);
    Ok(())
}
