ghost use Rattle.std.specs.Prelude.{◌≡◌, ◌<◌, ◌≤◌, ◌-◌, [], All, IfSome, IsTrue};
ghost use Rattle.fn_rows.specs.declared.Stage.TheVariants.{Waiting, Shut, Based, At, Over, Hit, Got};
ghost use Rattle.fn_core.specs.Calls.{IsIdle};
ghost use Rattle.fn_table.specs.Seen.{IsOf, IsWhole, AreOpened};
ghost use Rattle.fn_layout.specs.Words.{IsSlot};
ghost use Rattle.fn_model.specs.declared.Kind.TheVariants.{Add};
ghost use Rattle.fn_table.specs.Standing.{IsNumbered};
ghost use Rattle.table_tests.specs.Levels.{Stands, StandsBelow, IsLast, HoldsRow, IsFirstRow, AreNew};

use fn_layout::{Field, Kind, Shape};
use fn_model::{NO_CAP, after_capped};
use fn_table::*;
use std::test::*;

// The last of some passes, which has this number.
fn taken(table: &FunnelTable, passes: &mut Vec<Pass>, number: u32) -> Option<Pass>
    requires together { All (λ p. IsOf table.now p) passes.old.items }
    requires idle { All IsWhole passes.old.items }
    ensures together { All (λ p. IsOf table.now p) passes.new.items }
    ensures idle { All IsWhole passes.new.items }
    ensures pass { IfSome result (λ p. IsNumbered table.now p number) }
{
    let pass = passes.pop()?;
    let own = pass.number();
    if own != number {
        return None;
    }
    Some(pass)
}

// The first row of the pass was never published at any level.
fn is_new(table: &FunnelTable, pass: &Pass) -> bool
    requires together { IsOf table.now pass.now }
    ensures { IsTrue result → AreNew pass.now }
{
    let _number = pass.number();
    for level in 1..table.shape().levels() + 1 {
        let end = pass.row_end(table, Kind::Add, level, 0);
        if end != 0 {
            return false;
        }
    }
    true
}

// An addition begins: what the pass saw at its leaf, and its offset there.
pub(crate) fn begin(
    table: &FunnelTable,
    pass: &mut Pass,
    number: u32,
    amount: u64,
) -> Option<(u64, u64)>
    requires rests { IsNumbered table.now pass.old number }
    ensures waits { IfSome result (λ r. Stands table.now number pass.new 1 (Waiting r.1) []) }
{
    let _number = pass.number();
    let new = is_new(table, pass);
    if !new {
        return None;
    }
    if amount < 1 {
        return None;
    }
    let seen = see(table, pass, Kind::Add, 1);
    announce(table, pass, Kind::Add, 1, seen);
    let left = pass.allowance();
    if left < amount {
        return None;
    }
    let at = arrive(table, pass, Kind::Add, 1, amount);
    Some((seen, at))
}

// The batch that was closed one level below arrives at a level: what the pass saw there, and its offset.
fn rise(
    table: &FunnelTable,
    pass: &mut Pass,
    number: u32,
    level: u32,
    batch: (u64, u64),
    under: &[(u64, u64)],
) -> Option<(u64, u64)>
    requires shut { StandsBelow table.now number pass.old level (Shut batch.0 batch.1) under.now }
    requires last { IsLast under.now batch }
    ensures waits { IfSome result (λ r. Stands table.now number pass.new level (Waiting r.1) under.now) }
{
    let _ = number;
    let (at, end) = batch;
    let levels = table.shape().levels();
    if level < 2 {
        return None;
    }
    if levels < level {
        return None;
    }
    if end <= at {
        return None;
    }
    let seen = see(table, pass, Kind::Add, level);
    announce(table, pass, Kind::Add, level, seen);
    let at = arrive(table, pass, Kind::Add, level, end - at);
    Some((seen, at))
}

// A look finds that it is not the call's turn: what `done` was.
fn waits(
    table: &FunnelTable,
    pass: &mut Pass,
    number: u32,
    level: u32,
    at: u64,
    under: &[(u64, u64)],
) -> Option<u64>
    requires waits { Stands table.now number pass.old level (Waiting at) under.now }
    ensures waits { IfSome result (λ _. Stands table.now number pass.new level (Waiting at) under.now) }
{
    let _ = number;
    let done = look(table, pass, Kind::Add, level);
    if at <= done {
        return None;
    }
    Some(done)
}

// The call leads, and closes its batch: the end.
pub(crate) fn lead(
    table: &FunnelTable,
    pass: &mut Pass,
    number: u32,
    level: u32,
    at: u64,
    under: &[(u64, u64)],
) -> Option<u64>
    requires waits { Stands table.now number pass.old level (Waiting at) under.now }
    ensures shut { IfSome result (λ end. Stands table.now number pass.new level (Shut at end) under.now) }
{
    let _ = number;
    let done = look(table, pass, Kind::Add, level);
    if done != at {
        return None;
    }
    let end = close_batch(table, pass, Kind::Add, level);
    Some(end)
}

// The batch of the last level enters the main word: its base.
pub(crate) fn apply(
    table: &FunnelTable,
    pass: &mut Pass,
    number: u32,
    level: u32,
    batch: (u64, u64),
    under: &[(u64, u64)],
) -> Option<u64>
    requires shut { Stands table.now number pass.old level (Shut batch.0 batch.1) under.now }
    ensures based { IfSome result (λ base. Stands table.now number pass.new level (Based batch.0 batch.1 base) under.now) }
{
    let _ = number;
    let (at, end) = batch;
    let levels = table.shape().levels();
    if level != levels {
        return None;
    }
    let cap = table.cap();
    if cap != NO_CAP {
        return None;
    }
    let base = apply_batch(table, pass, end.saturating_sub(at));
    Some(base)
}

// The batch is filled into the first row of the pass, and published: what `last` was.
fn publish_row(
    table: &FunnelTable,
    pass: &mut Pass,
    number: u32,
    level: u32,
    batch: (u64, u64),
    base: u64,
    under: &[(u64, u64)],
) -> Option<u64>
    requires based { Stands table.now number pass.old level (Based batch.0 batch.1 base) under.now }
    ensures got { IfSome result (λ _. Stands table.now number pass.new level (Got base 0) under.now) }
{
    let (at, end) = batch;
    let shape = table.shape();
    let row = shape.row_of(number, Kind::Add, level, 0);
    let link = head(table, pass, Kind::Add, level);
    let used = pass.row_end(table, Kind::Add, level, 0);
    if used != 0 {
        return None;
    }
    fill(table, pass, row, Field::Lo, at);
    fill(table, pass, row, Field::Base, base);
    fill(table, pass, row, Field::Prev, link);
    point(table, pass, Kind::Add, level, row);
    publish(table, pass, Kind::Add, level, end);
    Some(link)
}

// The call leaves a level with the base of its batch there: the base of its batch one level below.
fn go_down(
    table: &FunnelTable,
    pass: &mut Pass,
    number: u32,
    level: u32,
    got: (u64, u64),
    batch: (u64, u64),
    under: &[(u64, u64)],
) -> Option<u64>
    requires got { Stands table.now number pass.old level (Got got.0 got.1) under.now }
    requires last { IsLast under.now batch }
    ensures based { IfSome result (λ base. StandsBelow table.now number pass.new level (Based batch.0 batch.1 base) under.now) }
{
    let _ = (number, batch);
    let (base, ahead) = got;
    let cap = table.cap();
    if cap != NO_CAP {
        return None;
    }
    leave(table, pass, Kind::Add, level);
    let reply = after_capped(cap, base, Kind::Add, ahead);
    Some(reply)
}

// The call leaves its leaf, and has ended.
fn finish(table: &FunnelTable, pass: &mut Pass, number: u32, got: (u64, u64))
    requires got { Stands table.now number pass.old 1 (Got got.0 got.1) [] }
    ensures rests { IsNumbered table.now pass.new number }
{
    let _ = (number, got);
    leave(table, pass, Kind::Add, 1);
}

// A scan of another pass's announcement, where both have one aggregator at this level.
fn announced(
    table: &FunnelTable,
    pass: &mut Pass,
    number: u32,
    level: u32,
    other: u32,
) -> Option<u64>
    requires rests { IsNumbered table.now pass.old number }
    ensures rests { IfSome result (λ _. IsNumbered table.now pass.new number) }
{
    let own = pass.number();
    let shape = table.shape();
    let levels = shape.levels();
    let passes = shape.passes();
    if level < 1 {
        return None;
    }
    if levels < level {
        return None;
    }
    if passes <= other {
        return None;
    }
    if other == own {
        return None;
    }
    let mine = shape.aggregator_of(own, level);
    let theirs = shape.aggregator_of(other, level);
    if theirs != mine {
        return None;
    }
    let _ = number;
    let found = scan(table, pass, Kind::Add, level, other);
    Some(found)
}

// An addition begins and leads at its leaf: what it saw, and its batch.
fn start(
    table: &FunnelTable,
    pass: &mut Pass,
    number: u32,
    amount: u64,
) -> Option<(u64, (u64, u64))>
    requires rests { IsNumbered table.now pass.old number }
    ensures shut { IfSome result (λ r. Stands table.now number pass.new 1 (Shut r.1.0 r.1.1) []) }
{
    let (seen, at) = begin(table, pass, number, amount)?;
    let end = lead(table, pass, number, 1, at, &[])?;
    Some((seen, (at, end)))
}

// Its batch goes up to a level and leads there: what the pass saw there, and the batch there.
fn climb(
    table: &FunnelTable,
    pass: &mut Pass,
    number: u32,
    level: u32,
    batch: (u64, u64),
    under: &[(u64, u64)],
) -> Option<(u64, (u64, u64))>
    requires shut { StandsBelow table.now number pass.old level (Shut batch.0 batch.1) under.now }
    requires last { IsLast under.now batch }
    ensures shut { IfSome result (λ r. Stands table.now number pass.new level (Shut r.1.0 r.1.1) under.now) }
{
    let (seen, at) = rise(table, pass, number, level, batch, under)?;
    let end = lead(table, pass, number, level, at, under)?;
    Some((seen, (at, end)))
}

// A batch that has its base is published, and the call goes down: what `last` was, and the base one level below.
fn descend(
    table: &FunnelTable,
    pass: &mut Pass,
    number: u32,
    level: u32,
    held: (u64, u64),
    base: u64,
    batch: (u64, u64),
    under: &[(u64, u64)],
) -> Option<(u64, u64)>
    requires based { Stands table.now number pass.old level (Based held.0 held.1 base) under.now }
    requires last { IsLast under.now batch }
    ensures based { IfSome result (λ r. StandsBelow table.now number pass.new level (Based batch.0 batch.1 r.1) under.now) }
{
    let link = publish_row(table, pass, number, level, held, base, under)?;
    let reply = go_down(table, pass, number, level, (base, 0), batch, under)?;
    Some((link, reply))
}

// The batch of a leaf is published, and the call ends: what `last` was.
pub(crate) fn end_at_leaf(
    table: &FunnelTable,
    pass: &mut Pass,
    number: u32,
    batch: (u64, u64),
    base: u64,
) -> Option<u64>
    requires based { Stands table.now number pass.old 1 (Based batch.0 batch.1 base) [] }
    ensures rests { IfSome result (λ _. IsNumbered table.now pass.new number) }
{
    let link = publish_row(table, pass, number, 1, batch, base, &[])?;
    finish(table, pass, number, (base, 0));
    Some(link)
}

// A whole addition at two levels: what it saw at each, its offset, its end and what `last` was, and its reply.
fn two_levels(
    table: &FunnelTable,
    pass: &mut Pass,
    number: u32,
    amount: u64,
) -> Option<((u64, u64, u64, u64), (u64, u64, u64, u64), u64)>
    requires rests { IsNumbered table.now pass.old number }
    ensures rests { IfSome result (λ _. IsNumbered table.now pass.new number) }
{
    let (seen, leaf) = start(table, pass, number, amount)?;
    let under = [leaf];
    let (above, top) = climb(table, pass, number, 2, leaf, &under)?;
    let base = apply(table, pass, number, 2, top, &under)?;
    let (last, reply) = descend(table, pass, number, 2, top, base, leaf, &under)?;
    let link = end_at_leaf(table, pass, number, leaf, reply)?;
    Some((
        (seen, leaf.0, leaf.1, link),
        (above, top.0, top.1, last),
        reply,
    ))
}

// .. at three levels: what it saw above its leaf, its offset, its end and what `last` was, and its reply.
fn three_levels(
    table: &FunnelTable,
    pass: &mut Pass,
    number: u32,
    amount: u64,
) -> Option<((u64, u64, u64, u64), (u64, u64, u64, u64), u64)>
    requires rests { IsNumbered table.now pass.old number }
    ensures rests { IfSome result (λ _. IsNumbered table.now pass.new number) }
{
    let (_, leaf) = start(table, pass, number, amount)?;
    let one = [leaf];
    let (above, middle) = climb(table, pass, number, 2, leaf, &one)?;
    let two = [middle, leaf];
    let (highest, top) = climb(table, pass, number, 3, middle, &two)?;
    let base = apply(table, pass, number, 3, top, &two)?;
    let (first, reply) = descend(table, pass, number, 3, top, base, middle, &two)?;
    let (last, reply) = descend(table, pass, number, 2, middle, reply, leaf, &one)?;
    let _link = end_at_leaf(table, pass, number, leaf, reply)?;
    Some((
        (above, middle.0, middle.1, last),
        (highest, top.0, top.1, first),
        reply,
    ))
}

// What a scan at level 2 finds before another addition arrives there, and after.
fn scans(table: &FunnelTable, first: &mut Pass, second: &mut Pass) -> Option<(u64, u64)>
    requires rest { IsNumbered table.now first.old 0 × IsNumbered table.now second.old 1 }
{
    two_levels(table, second, 1, 7)?;
    let (_, leaf) = start(table, first, 0, 5)?;
    let before = announced(table, second, 1, 2, 0)?;
    let under = [leaf];
    rise(table, first, 0, 2, leaf, &under)?;
    let after = announced(table, second, 1, 2, 0)?;
    Some((before, after))
}

#[test]
fn an_addition_goes_through_two_levels(rt: HostRuntime) -> Result<(), Fail> {
    if let Ok(shape) = Shape::new(2, 2, 2, 1)
        && let Ok((table, mut passes)) = FunnelTable::open(rt.alloc(), shape, 100, &[5, 7])
        && let Some(mut second) = taken(&table, &mut passes, 1)
        && let Some(mut first) = taken(&table, &mut passes, 0)
    {
        assert_eq!(rt;
            two_levels(&table, &mut first, 0, 5),
            Some(((0, 0, 5, 0), (0, 0, 5, 0), 100))
        );
        assert_eq!(rt;
            two_levels(&table, &mut second, 1, 7),
            Some(((0, 0, 7, 0), (5, 5, 12, 2), 105))
        );
        assert_eq!(rt; first.allowance(), 0);
        assert_eq!(rt; second.allowance(), 0);
        return Ok(());
    }
    assert!(&rt; false);
    Ok(())
}

#[test]
fn an_addition_goes_through_three_levels(rt: HostRuntime) -> Result<(), Fail> {
    if let Ok(shape) = Shape::new(2, 2, 3, 1)
        && let Ok((table, mut passes)) = FunnelTable::open(rt.alloc(), shape, 100, &[5, 7])
        && let Some(mut second) = taken(&table, &mut passes, 1)
        && let Some(mut first) = taken(&table, &mut passes, 0)
    {
        assert_eq!(rt;
            three_levels(&table, &mut first, 0, 5),
            Some(((0, 0, 5, 0), (0, 0, 5, 0), 100))
        );
        assert_eq!(rt;
            three_levels(&table, &mut second, 1, 7),
            Some(((5, 5, 12, 2), (5, 5, 12, 3), 105))
        );
        return Ok(());
    }
    assert!(&rt; false);
    Ok(())
}

#[test]
fn a_scan_finds_what_another_announced(rt: HostRuntime) -> Result<(), Fail> {
    if let Ok(shape) = Shape::new(2, 2, 2, 1)
        && let Ok((table, mut passes)) = FunnelTable::open(rt.alloc(), shape, 100, &[5, 7])
        && let Some(mut second) = taken(&table, &mut passes, 1)
        && let Some(mut first) = taken(&table, &mut passes, 0)
    {
        assert_eq!(rt; scans(&table, &mut first, &mut second), Some((0, 8)));
        return Ok(());
    }
    assert!(&rt; false);
    Ok(())
}

// The first row of another pass, where both have one aggregator at this level.
fn first_row(table: &FunnelTable, number: u32, level: u32, owner: u32) -> Option<u32>
    requires slot { IsSlot table.now.start.shape number Add level }
    ensures first { IfSome result (λ row. IsFirstRow table.now number level owner row) }
{
    let shape = table.shape();
    let passes = shape.passes();
    if passes <= owner {
        return None;
    }
    let mine = shape.aggregator_of(number, level);
    let theirs = shape.aggregator_of(owner, level);
    if theirs != mine {
        return None;
    }
    let row = shape.row_of(owner, Kind::Add, level, 0);
    Some(row)
}

// The call is late, and takes the row in hand that was published last: what `done` was.
fn come_late(
    table: &FunnelTable,
    pass: &mut Pass,
    number: u32,
    level: u32,
    at: u64,
    owner: u32,
    under: &[(u64, u64)],
) -> Option<u64>
    requires waits { Stands table.now number pass.old level (Waiting at) under.now }
    ensures row { IfSome result (λ _. HoldsRow table.now number pass.new level (At at) owner under.now) }
{
    let row = first_row(table, number, level, owner)?;
    let done = look(table, pass, Kind::Add, level);
    if done <= at {
        return None;
    }
    let link = head(table, pass, Kind::Add, level);
    if link != u64::from(row) + 1 {
        return None;
    }
    Some(done)
}

// The row in hand begins above the offset, and the one before it comes into hand: where it begins.
fn go_over(
    table: &FunnelTable,
    pass: &mut Pass,
    number: u32,
    level: u32,
    at: u64,
    owners: (u32, u32),
    under: &[(u64, u64)],
) -> Option<u64>
    requires row { HoldsRow table.now number pass.old level (At at) owners.0 under.now }
    ensures row { IfSome result (λ _. HoldsRow table.now number pass.new level (At at) owners.1 under.now) }
{
    let row = first_row(table, number, level, owners.0)?;
    let before = first_row(table, number, level, owners.1)?;
    let lo = peek(table, pass, row, Field::Lo);
    if lo <= at {
        return None;
    }
    let link = peek(table, pass, row, Field::Prev);
    if link != u64::from(before) + 1 {
        return None;
    }
    Some(lo)
}

// The row in hand is that of the call's batch: its base, and how far ahead of the call it begins.
fn meet_batch(
    table: &FunnelTable,
    pass: &mut Pass,
    number: u32,
    level: u32,
    at: u64,
    owner: u32,
    under: &[(u64, u64)],
) -> Option<(u64, u64)>
    requires row { HoldsRow table.now number pass.old level (At at) owner under.now }
    ensures got { IfSome result (λ r. Stands table.now number pass.new level (Got r.0 r.1) under.now) }
{
    let row = first_row(table, number, level, owner)?;
    let lo = peek(table, pass, row, Field::Lo);
    if at < lo {
        return None;
    }
    let base = peek(table, pass, row, Field::Base);
    let ahead = at.saturating_sub(lo);
    Some((base, ahead))
}

// A call that came second to a batch is late by two batches, and walks to its own: what `done` was at its looks, where the row begins that it goes over, what it met, and what the two others met.
fn walks(
    table: &FunnelTable,
    first: &mut Pass,
    second: &mut Pass,
    third: &mut Pass,
) -> Option<((u64, u64), u64, (u64, u64), (u64, u64, u64))>
    requires rest { IsNumbered table.now first.old 0 × IsNumbered table.now second.old 1 × IsNumbered table.now third.old 2 }
{
    let (_, leaf) = start(table, first, 0, 5)?;
    let one = [leaf];
    let (_, at) = rise(table, first, 0, 2, leaf, &one)?;
    let (_, other) = start(table, second, 1, 7)?;
    let two = [other];
    let (_, behind) = rise(table, second, 1, 2, other, &two)?;
    let still = waits(table, second, 1, 2, behind, &two)?;
    let end = lead(table, first, 0, 2, at, &one)?;
    let base = apply(table, first, 0, 2, (at, end), &one)?;
    let (_, reply) = descend(table, first, 0, 2, (at, end), base, leaf, &one)?;
    end_at_leaf(table, first, 0, leaf, reply)?;
    let (_, _, last) = two_levels(table, third, 2, 1)?;
    let done = come_late(table, second, 1, 2, behind, 2, &two)?;
    let over = go_over(table, second, 1, 2, behind, (2, 0), &two)?;
    let got = meet_batch(table, second, 1, 2, behind, 0, &two)?;
    let met = go_down(table, second, 1, 2, got, other, &two)?;
    end_at_leaf(table, second, 1, other, met)?;
    Some(((still, done), over, got, (reply, met, last)))
}

#[test]
fn a_late_call_walks_to_its_row(rt: HostRuntime) -> Result<(), Fail> {
    if let Ok(shape) = Shape::new(3, 2, 2, 1)
        && let Ok((table, mut passes)) = FunnelTable::open(rt.alloc(), shape, 100, &[5, 7, 1])
        && let Some(mut third) = taken(&table, &mut passes, 2)
        && let Some(mut second) = taken(&table, &mut passes, 1)
        && let Some(mut first) = taken(&table, &mut passes, 0)
    {
        assert_eq!(rt;
            walks(&table, &mut first, &mut second, &mut third),
            Some(((0, 13), 12, (100, 5), (100, 105, 112)))
        );
        return Ok(());
    }
    assert!(&rt; false);
    Ok(())
}
