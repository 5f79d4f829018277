//! Calls at each of three levels, step by step, and what scans find of them there.
ghost use Rattle.fn_core.specs.Calls.{IsIdle};
ghost use Rattle.fn_table.specs.Seen.{IsOf, AreOpened};
ghost use Rattle.std.specs.Prelude.{IfSome};

use crate::climb_tests::{adds_one, both_reply, goes_on, last_of, replies, start, start_two};
use fn_climb::{FunnelTable, Kind, Pass, Pending};
use fn_layout::Shape;
use fn_table::scan;
use std::test::*;

// What a scan finds that another pass announced for its addition, where both have one aggregator at this level.
fn announced(table: &FunnelTable, pass: &mut Pass, level: u32, other: u32) -> Option<u64>
    requires together { IsOf table.now pass.old }
    requires idle { IsIdle pass.old.seen pass.old.number }
    ensures together { IsOf table.now pass.new }
    ensures idle { IsIdle pass.new.seen pass.new.number }
{
    let number = pass.number();
    let shape = table.shape();
    let levels = shape.levels();
    let passes = shape.passes();
    if level < 1 {
        return None;
    }
    if levels < level {
        return None;
    }
    if passes <= other {
        return None;
    }
    if other == number {
        return None;
    }
    let mine = shape.aggregator_of(number, level);
    let theirs = shape.aggregator_of(other, level);
    if theirs != mine {
        return None;
    }
    Some(scan(table, pass, Kind::Add, level, other))
}

// What the scans of a pass find at three levels.
fn announced_at_three(table: &FunnelTable, mut pass: Pass, other: u32) -> Option<(u64, u64, u64)>
    requires together { IsOf table.now pass }
    requires idle { IsIdle pass.seen pass.number }
{
    let leaf = announced(table, &mut pass, 1, other)?;
    let middle = announced(table, &mut pass, 2, other)?;
    let top = announced(table, &mut pass, 3, other)?;
    Some((leaf, middle, top))
}

// What is found of an addition that has gone so many steps from its leaf.
fn announced_after(
    table: &FunnelTable,
    mut passes: Vec<Pass>,
    steps: u32,
) -> Option<(u64, u64, u64)>
    requires { AreOpened table.now passes.items }
{
    let other = last_of(table, &mut passes)?;
    let pass = last_of(table, &mut passes)?;
    let pending = start(table, other, Kind::Add, 1)?;
    let _pending = goes_on(table, pending, steps)?;
    announced_at_three(table, pass, 1)
}

// .. and of one that has ended.
fn announced_at_the_end(table: &FunnelTable, mut passes: Vec<Pass>) -> Option<(u64, u64, u64)>
    requires { AreOpened table.now passes.items }
{
    let other = last_of(table, &mut passes)?;
    let pass = last_of(table, &mut passes)?;
    let _ended = adds_one(table, other)?;
    announced_at_three(table, pass, 1)
}

// Two calls take so many steps each.
fn both_go_on(
    table: &FunnelTable,
    first: Pending,
    second: Pending,
    times: u32,
) -> Option<(Pending, Pending)>
    requires first { IsOf table.now first.pass }
    requires second { IsOf table.now second.pass }
    ensures { IfSome result (λ r. IsOf table.now r.0.pass × IsOf table.now r.1.pass) }
{
    let first = goes_on(table, first, times);
    let second = goes_on(table, second, times);
    match (first, second) {
        (Some(first), Some(second)) => Some((first, second)),
        _ => None,
    }
}

// A call ends, and its pass adds 1: what both met.
fn replies_and_adds(table: &FunnelTable, pending: Pending) -> Option<(u64, u64)>
    requires { IsOf table.now pending.pass }
{
    let (pass, met) = replies(table, pending)?;
    let (_, again) = adds_one(table, pass)?;
    Some((met, again))
}

// Two delegates come to the third level, of which the first adds again: what it met, and what the other met.
fn delegates_reply(table: &FunnelTable, first: Pending, third: Pending) -> Option<((u64, u64), u64)>
    requires first { IsOf table.now first.pass }
    requires third { IsOf table.now third.pass }
{
    let (first, third) = both_go_on(table, first, third, 5)?;
    let met = replies_and_adds(table, first)?;
    let (_, other) = replies(table, third)?;
    Some((met, other))
}

// Four calls come from their leaves, and the two delegates among them end first.
fn four_reply(
    table: &FunnelTable,
    leaders: (Pending, Pending),
    others: (Pending, Pending),
) -> Option<((u64, u64), u64, (u64, u64))>
    requires leaders { IsOf table.now leaders.0.pass × IsOf table.now leaders.1.pass }
    requires others { IsOf table.now others.0.pass × IsOf table.now others.1.pass }
{
    let (first, second) = both_go_on(table, leaders.0, leaders.1, 5)?;
    let (third, fourth) = both_go_on(table, others.0, others.1, 5)?;
    let (met, other) = delegates_reply(table, first, third)?;
    let members = both_reply(table, second, fourth)?;
    Some((met, other, members))
}

// Four calls with a leaf each share a batch at the third level by two delegates, of which one adds again before the other three look for their rows: what it met, and what they met.
fn three_levels(table: &FunnelTable, mut passes: Vec<Pass>) -> Option<((u64, u64), u64, (u64, u64))>
    requires { AreOpened table.now passes.items }
{
    let others = start_two(table, &mut passes, 4, 8)?;
    let leaders = start_two(table, &mut passes, 1, 2)?;
    four_reply(table, leaders, others)
}

#[test]
fn scans_find_announcements_at_each_level(rt: HostRuntime) -> Result<(), Fail> {
    for (steps, found) in [
        (0, (1, 0, 0)),
        (3, (1, 0, 0)),
        (4, (1, 1, 0)),
        (8, (1, 1, 0)),
        (9, (1, 1, 1)),
    ] {
        if let Ok(shape) = Shape::new(2, 1, 3, 1)
            && let Ok((table, passes)) = FunnelTable::open(rt.alloc(), shape, 0, &[1, 1])
        {
            assert_eq!(rt; announced_after(&table, passes, steps), Some(found));
        } else {
            assert!(&rt; false);
        }
    }
    Ok(())
}

#[test]
fn scans_find_nothing_of_an_ended_call(rt: HostRuntime) -> Result<(), Fail> {
    if let Ok(shape) = Shape::new(2, 1, 3, 1)
        && let Ok((table, passes)) = FunnelTable::open(rt.alloc(), shape, 0, &[1, 1])
    {
        assert_eq!(rt; announced_at_the_end(&table, passes), Some((0, 0, 0)));
        return Ok(());
    }
    assert!(&rt; false);
    Ok(())
}

#[test]
fn calls_find_their_rows_at_three_levels(rt: HostRuntime) -> Result<(), Fail> {
    if let Ok(shape) = Shape::new(4, 4, 3, 2)
        && let Ok((table, passes)) = FunnelTable::open(rt.alloc(), shape, 100, &[2, 2, 4, 8])
    {
        let told = three_levels(&table, passes);
        assert!(rt; told == Some(((100, 115), 103, (101, 107))));
        return Ok(());
    }
    assert!(&rt; false);
    Ok(())
}
