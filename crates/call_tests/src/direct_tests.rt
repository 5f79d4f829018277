ghost use Rattle.std.specs.Prelude.{◌≡◌};
ghost use Rattle.fn_table.specs.Seen.{IsOf};
ghost use Rattle.fn_core.specs.Calls.{IsIdle};

use fn_direct::*;
use fn_layout::Shape;
use fn_model::NO_CAP;
use std::test::*;

// Reads, adds and subtracts, and reads again: what each met.
fn four_calls(
    table: &FunnelTable,
    pass: &mut Pass,
    added: u64,
    taken: u64,
) -> Option<(u64, u64, u64, u64)>
    requires together { IsOf table.now pass.old }
    requires idle { IsIdle pass.old.seen pass.old.number }
    ensures together { IsOf table.now pass.new }
    ensures idle { IsIdle pass.new.seen pass.new.number }
    ensures number { pass.new.number ≡ pass.old.number }
{
    let first = read(table, pass);
    if table.cap() != NO_CAP || added == 0 || pass.allowance() < added {
        return None;
    }
    let second = add_direct(table, pass, added);
    if taken == 0 || pass.allowance() < taken {
        return None;
    }
    let Ok(third) = sub_direct(table, pass, taken) else {
        return None;
    };
    Some((first, second, third, read(table, pass)))
}

// Adds up to the cap, and reads: what each met.
fn add_to_the_cap(table: &FunnelTable, pass: &mut Pass, added: u64) -> Option<(u64, u64)>
    requires together { IsOf table.now pass.old }
    requires idle { IsIdle pass.old.seen pass.old.number }
{
    if added == 0 || pass.allowance() < added {
        return None;
    }
    let Ok(before) = add_capped(table, pass, added) else {
        return None;
    };
    Some((before, read(table, pass)))
}

// What one pass has added, the other meets once it has taken in a note of it.
fn tell(table: &FunnelTable, first: &mut Pass, second: &mut Pass) -> u64
    requires together { IsOf table.now first.old × IsOf table.now second.old }
    requires idle { IsIdle first.old.seen first.old.number × IsIdle second.old.seen second.old.number }
{
    if table.cap() == NO_CAP && first.allowance() >= 3 {
        add_direct(table, first, 3);
    }
    let told = note(table, first);
    meet(table, second, told);
    read(table, second)
}

#[test]
fn calls_meet_the_main_word(rt: HostRuntime) -> Result<(), Fail> {
    if let Ok(shape) = Shape::new(1, 1, 1, 1)
        && let Ok((table, mut passes)) = FunnelTable::open(rt.alloc(), shape, 8, &[20])
        && let Some(mut pass) = passes.pop()
    {
        assert_eq!(rt; four_calls(&table, &mut pass, 5, 15), Some((8, 8, 13, 0)));
        assert_eq!(rt; pass.allowance(), 0);
        return Ok(());
    }
    assert!(&rt; false);
    Ok(())
}

#[test]
fn additions_stop_at_the_cap(rt: HostRuntime) -> Result<(), Fail> {
    if let Ok(shape) = Shape::new(1, 1, 1, 1)
        && let Ok((table, mut passes)) = FunnelTable::open_capped(rt.alloc(), shape, 8, 10, &[20])
        && let Some(mut pass) = passes.pop()
    {
        assert_eq!(rt; add_to_the_cap(&table, &mut pass, 5), Some((8, 10)));
        return Ok(());
    }
    assert!(&rt; false);
    Ok(())
}

#[test]
fn a_note_carries_what_was_seen(rt: HostRuntime) -> Result<(), Fail> {
    if let Ok(shape) = Shape::new(2, 1, 1, 1)
        && let Ok((table, mut passes)) = FunnelTable::open(rt.alloc(), shape, 10, &[9, 9])
        && let Some(mut second) = passes.pop()
        && let Some(mut first) = passes.pop()
    {
        assert_eq!(rt; tell(&table, &mut first, &mut second), 13);
        return Ok(());
    }
    assert!(&rt; false);
    Ok(())
}
