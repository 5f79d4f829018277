ghost use Rattle.std.specs.Prelude.{◌≡◌, [], IfOk, IfSome};
ghost use Rattle.fn_rows.specs.declared.Stage.TheVariants.{Waiting, Based};
ghost use Rattle.fn_core.specs.Calls.{IsIdle};
ghost use Rattle.fn_table.specs.Seen.{IsOf, AreOpened};
ghost use Rattle.fn_table.specs.Standing.{IsNumbered};
ghost use Rattle.table_tests.specs.Levels.{Stands};

use crate::more_levels::{apply, begin, end_at_leaf, lead};
use fn_core::OpenFault;
use fn_layout::{Kind, Shape};
use fn_model::NO_CAP;
use fn_table::*;
use std::alloc::{AllocError, Global};
use std::sync::Wait;
use std::test::*;
use std::thread;
use std::thread::Threads;

#[test]
fn a_table_opens_and_closes(rt: HostRuntime) -> Result<(), Fail> {
    if let Ok(shape) = Shape::new(2, 1, 1, 1)
        && let Ok((table, passes)) = FunnelTable::open(rt.alloc(), shape, 10, &[5, 7])
    {
        assert_eq!(rt; table.cap(), NO_CAP);
        let book = table.close(passes);
        assert_eq!(rt; book.value(), 10);
        assert_eq!(rt; book.opening(), 10);
        return Ok(());
    }
    assert!(&rt; false);
    Ok(())
}

#[test]
fn totals_and_caps_are_checked(rt: HostRuntime) -> Result<(), Fail> {
    if let Ok(one) = Shape::new(1, 1, 1, 1) {
        let opening = 9223372036854775807;
        let total = 9223372036854775808;
        match FunnelTable::open(rt.alloc(), one, opening, &[1]) {
            Ok(_) => assert!(&rt; false),
            Err(fault) => assert_eq!(rt; fault, OpenFault::TooMuch { opening, total }),
        }
    }
    if let Ok(two) = Shape::new(2, 1, 1, 1) {
        let (opening, cap) = (11, 10);
        match FunnelTable::open_capped(rt.alloc(), two, opening, cap, &[1, 1]) {
            Ok(_) => assert!(&rt; false),
            Err(fault) => assert_eq!(rt; fault, OpenFault::AboveCap { opening, cap }),
        }
    }
    Ok(())
}

// An addition of 1 by itself, and a read.
fn add_and_read(table: &FunnelTable, pass: &mut Pass) -> Option<(u64, u64)>
    requires together { IsOf table.now pass.old }
    requires idle { IsIdle pass.old.seen pass.old.number }
    ensures together { IsOf table.now pass.new }
    ensures number { pass.new.number ≡ pass.old.number }
    ensures idle { IsIdle pass.new.seen pass.new.number }
{
    let _number = pass.number();
    if table.cap() == NO_CAP && pass.allowance() >= 1 {
        let before = direct(table, pass, 1);
        let read = load_read(table, pass);
        return Some((before, read));
    }
    None
}

// A load, an addition of another pass, and an exchange that subtracts 4.
fn load_and_exchange(
    table: &FunnelTable,
    pass: &mut Pass,
    other: &mut Pass,
    added: u64,
) -> Option<(u64, Result<(), u64>)>
    requires together { IsOf table.now pass.old × IsOf table.now other.old }
    requires idle { IsIdle pass.old.seen pass.old.number × IsIdle other.old.seen other.old.number }
    ensures together { IsOf table.now pass.new × IsOf table.now other.new }
    ensures idle { IsIdle pass.new.seen pass.new.number × IsIdle other.new.seen other.new.number }
    ensures numbers { (pass.new.number ≡ pass.old.number) × (other.new.number ≡ other.old.number) }
{
    let _number = pass.number();
    if pass.allowance() < 4 {
        return None;
    }
    let loaded = load_try(table, pass);
    add(table, other, added);
    let told = exchange(table, pass, Kind::Sub, 4, loaded);
    Some((loaded, told))
}

// An addition by itself, where there is something to add.
fn add(table: &FunnelTable, pass: &mut Pass, amount: u64)
    requires together { IsOf table.now pass.old }
    requires idle { IsIdle pass.old.seen pass.old.number }
    ensures together { IsOf table.now pass.new }
    ensures number { pass.new.number ≡ pass.old.number }
    ensures idle { IsIdle pass.new.seen pass.new.number }
{
    let _number = pass.number();
    if table.cap() == NO_CAP && amount >= 1 && pass.allowance() >= amount {
        direct(table, pass, amount);
    }
}

// The sum of the replies of so many additions of 1.
fn add_many(table: &FunnelTable, mut pass: Pass, times: u64) -> (u64, Pass)
    requires together { IsOf table.now pass }
    requires idle { IsIdle pass.seen pass.number }
    ensures together { IsOf table.now result.1 }
    ensures number { result.1.number ≡ pass.number }
    ensures idle { IsIdle result.1.seen result.1.number }
{
    let mut sum = 0u64;
    for _ in 0..times {
        if let Some((before, read)) = add_and_read(table, &mut pass)
            && before < read
        {
            sum = sum.saturating_add(before);
        }
    }
    (sum, pass)
}

// Where an addition leads at its leaf at once, its batch is closed and applied: its end, and its base.
fn lead_and_apply(table: &FunnelTable, pass: &mut Pass, number: u32, at: u64) -> Option<(u64, u64)>
    requires waits { Stands table.now number pass.old 1 (Waiting at) [] }
    ensures based { IfSome result (λ r. Stands table.now number pass.new 1 (Based at r.0 r.1) []) }
{
    let end = lead(table, pass, number, 1, at, &[])?;
    let base = apply(table, pass, number, 1, (at, end), &[])?;
    Some((end, base))
}

// A whole addition of a pass that leads at once: what it saw, its offset, its end, its base, and what `last` was.
fn whole_call(
    table: &FunnelTable,
    pass: &mut Pass,
    amount: u64,
) -> Option<(u64, u64, u64, u64, u64)>
    requires together { IsOf table.now pass.old }
    requires idle { IsIdle pass.old.seen pass.old.number }
    ensures { IfSome result (λ _. IsOf table.now pass.new × (pass.new.number ≡ pass.old.number) × IsIdle pass.new.seen pass.new.number) }
{
    let number = pass.number();
    let (seen, at) = begin(table, pass, number, amount)?;
    let (end, base) = lead_and_apply(table, pass, number, at)?;
    let link = end_at_leaf(table, pass, number, (at, end), base)?;
    Some((seen, at, end, base, link))
}

// The two passes of a table.
fn two_passes(table: &FunnelTable, mut passes: Vec<Pass>) -> Option<(Pass, Pass)>
    requires opened { AreOpened table.now passes.items }
    requires two { table.now.start.shape.passes ≡ 2 }
    ensures { IfSome result (λ r. IsNumbered table.now r.0 0 × IsNumbered table.now r.1 1) }
{
    let second = passes.pop()?;
    let first = passes.pop()?;
    Some((first, second))
}

// Its book, when both have come back.
fn close_two(
    alloc: Global,
    table: FunnelTable,
    first: Pass,
    second: Pass,
) -> Result<Book, AllocError>
    requires two { table.start.shape.passes ≡ 2 }
    requires passes { IsNumbered table first 0 × IsNumbered table second 1 }
{
    let mut passes = Vec::new(alloc);
    passes.push(first)?;
    passes.push(second)?;
    Ok(table.close(passes))
}

// Two threads add by themselves: the sum of their replies, and the book.
fn two_threads<R: Threads + Wait + Sync>(
    rt: &R,
    alloc: Global,
    table: FunnelTable,
    passes: Vec<Pass>,
    times: u64,
) -> Result<Option<(u64, Book)>, AllocError>
    requires opened { AreOpened table passes.items }
    requires two { table.start.shape.passes ≡ 2 }
{
    let Some((first, second)) = two_passes(&table, passes) else {
        return Ok(None);
    };
    let shared = &table;
    let ((some, first), (more, second)) = thread::join(
        rt,
        move || -> (u64, Pass)
            requires { IsNumbered shared.now first 0 }
            ensures { IsNumbered shared.entry.now result.1 0 }
        { add_many(shared, first, times) },
        move || -> (u64, Pass)
            requires { IsNumbered shared.now second 1 }
            ensures { IsNumbered shared.entry.now result.1 1 }
        { add_many(shared, second, times) },
    );
    let book = close_two(alloc, table, first, second)?;
    Ok(Some((some.saturating_add(more), book)))
}

#[test]
fn a_call_is_made_by_hand(rt: HostRuntime) -> Result<(), Fail> {
    if let Ok(shape) = Shape::new(1, 1, 1, 1)
        && let Ok((table, mut passes)) = FunnelTable::open(rt.alloc(), shape, 10, &[5])
        && let Some(mut pass) = passes.pop()
    {
        assert_eq!(rt; whole_call(&table, &mut pass, 5), Some((0, 0, 5, 10, 0)));
        assert_eq!(rt; pass.allowance(), 0);
        return Ok(());
    }
    assert!(&rt; false);
    Ok(())
}

#[test]
fn a_batch_holds_two_calls(rt: HostRuntime) -> Result<(), Fail> {
    if let Ok(shape) = Shape::new(2, 1, 1, 1)
        && let Ok((table, passes)) = FunnelTable::open(rt.alloc(), shape, 10, &[5, 7])
        && let Some((mut first, mut second)) = two_passes(&table, passes)
    {
        if let Some((0, at)) = begin(&table, &mut first, 0, 5) {
            assert_eq!(rt; at, 0);
            assert_eq!(rt; begin(&table, &mut second, 1, 7), Some((0, 5)));
            assert_eq!(rt; lead_and_apply(&table, &mut first, 0, at), Some((12, 10)));
            assert_eq!(rt; first.allowance(), 0);
            return Ok(());
        }
    }
    assert!(&rt; false);
    Ok(())
}

#[test]
fn an_exchange_loses_and_wins(rt: HostRuntime) -> Result<(), Fail> {
    if let Ok(shape) = Shape::new(2, 1, 1, 1)
        && let Ok((table, passes)) = FunnelTable::open(rt.alloc(), shape, 10, &[9, 9])
        && let Some((mut first, mut second)) = two_passes(&table, passes)
    {
        assert_eq!(rt;
            load_and_exchange(&table, &mut first, &mut second, 3),
            Some((10, Err(13)))
        );
        assert_eq!(rt; first.allowance(), 9);
        assert_eq!(rt;
            load_and_exchange(&table, &mut first, &mut second, 0),
            Some((13, Ok(())))
        );
        assert_eq!(rt; first.allowance(), 5);
        let book = close_two(rt.alloc(), table, first, second)?;
        assert_eq!(rt; book.value(), 9);
        return Ok(());
    }
    assert!(&rt; false);
    Ok(())
}

#[test]
fn a_note_is_met(rt: HostRuntime) -> Result<(), Fail> {
    if let Ok(shape) = Shape::new(2, 1, 1, 1)
        && let Ok((table, passes)) = FunnelTable::open(rt.alloc(), shape, 10, &[9, 9])
        && let Some((mut first, mut second)) = two_passes(&table, passes)
    {
        add(&table, &mut first, 3);
        let told = note(&table, &mut first);
        meet(&table, &mut second, told);
        assert_eq!(rt; add_and_read(&table, &mut second), Some((13, 14)));
        return Ok(());
    }
    assert!(&rt; false);
    Ok(())
}

#[test]
fn two_threads_share_a_table(rt: HostRuntime) -> Result<(), Fail> {
    if let Ok(shape) = Shape::new(2, 1, 1, 1)
        && let Ok((table, passes)) = FunnelTable::open(rt.alloc(), shape, 0, &[100, 100])
        && let Some((sum, book)) = two_threads(&rt, rt.alloc(), table, passes, 100)?
    {
        assert_eq!(rt; book.value(), 200);
        assert_eq!(rt; sum, 19900);
        return Ok(());
    }
    assert!(&rt; false);
    Ok(())
}
