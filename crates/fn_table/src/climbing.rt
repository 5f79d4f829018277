//! The steps of a call at its aggregators.
ghost use Rattle.std.specs.Prelude.{◌≡◌, ◌≢◌};
ghost use Rattle.fn_rows.specs.declared.Stage.TheVariants.{Saw};
ghost use Rattle.fn_core.specs.declared.Move.TheVariants.{Scan, See, Announce, Arrive, Look, Close, Head, Fill, Point, Publish, Peek, Leave};
ghost use Rattle.fn_core.specs.Words.{end_by, fill_word};
ghost use Rattle.fn_table.specs.Seen.{IsOf, May, Stepped, Stored, own_of};

use crate::pass::Pass;
use crate::steps::{add, load, quiet_load, quiet_store, store};
use crate::table::FunnelTable;
use fn_core::Move;
use fn_layout::{Field, Kind};

// What an arrival takes from the allowance: its weight at level 1, and nothing above.
fn spent_at(level: u32, weight: u64) -> u64
    ensures leaf { level ≡ 1 → result ≡ weight }
    ensures above { level ≢ 1 → result ≡ 0 }
{
    match level {
        1 => weight,
        _ => 0,
    }
}

/// Loads another pass's announcement, while the pass makes no call.
#[inline(always)]
pub fn scan(table: &FunnelTable, pass: &mut Pass, kind: Kind, level: u32, other: u32) -> u64
    requires together { IsOf table.now pass.old }
    requires may { May pass.old (Scan kind level other) }
    ensures { Stepped pass.old (Scan kind level other) result pass.new }
{
    quiet_load(table, pass, Move::Scan { kind, level, other })
}

/// Loads `done` of the pass's aggregator, before it announces.
#[inline(always)]
pub fn see(table: &FunnelTable, pass: &mut Pass, kind: Kind, level: u32) -> u64
    requires together { IsOf table.now pass.old }
    requires may { May pass.old (See kind level) }
    ensures { Stepped pass.old (See kind level) result pass.new }
{
    let found = load(table, &mut pass.caller, Move::See { kind, level });
    pass.tally.calling = true;
    found
}

/// Announces the number that the pass saw.
#[inline(always)]
pub fn announce(table: &FunnelTable, pass: &mut Pass, kind: Kind, level: u32, seen: u64)
    requires together { IsOf table.now pass.old }
    requires may { May pass.old (Announce kind level) }
    requires seen { (own_of pass.old).stages kind level ≡ Saw seen }
    ensures { Stored pass.old (Announce kind level) pass.new }
{
    let _number = pass.number();
    quiet_store(table, pass, seen + 1, Move::Announce { kind, level });
}

/// Adds the weight to the value of the pass's aggregator; at level 1 a call begins, which spends it.
#[inline(always)]
pub fn arrive(table: &FunnelTable, pass: &mut Pass, kind: Kind, level: u32, weight: u64) -> u64
    requires together { IsOf table.now pass.old }
    requires may { May pass.old (Arrive kind level weight) }
    ensures { Stepped pass.old (Arrive kind level weight) result pass.new }
{
    let spent = spent_at(level, weight);
    let step = Move::Arrive {
        kind,
        level,
        weight,
    };
    let found = add(table, &mut pass.caller, weight, step);
    pass.tally.left -= spent;
    found
}

/// Loads `done` of the pass's aggregator, by which the pass learns whether it leads, waits or is late.
#[inline(always)]
pub fn look(table: &FunnelTable, pass: &mut Pass, kind: Kind, level: u32) -> u64
    requires together { IsOf table.now pass.old }
    requires may { May pass.old (Look kind level) }
    ensures { Stepped pass.old (Look kind level) result pass.new }
{
    quiet_load(table, pass, Move::Look { kind, level })
}

/// Loads the value of the pass's aggregator, which ends its batch.
#[inline(always)]
pub fn close_batch(table: &FunnelTable, pass: &mut Pass, kind: Kind, level: u32) -> u64
    requires together { IsOf table.now pass.old }
    requires may { May pass.old (Close kind level) }
    ensures { Stepped pass.old (Close kind level) result pass.new }
{
    quiet_load(table, pass, Move::Close { kind, level })
}

/// Loads `last` of the pass's aggregator.
#[inline(always)]
pub fn head(table: &FunnelTable, pass: &mut Pass, kind: Kind, level: u32) -> u64
    requires together { IsOf table.now pass.old }
    requires may { May pass.old (Head kind level) }
    ensures { Stepped pass.old (Head kind level) result pass.new }
{
    quiet_load(table, pass, Move::Head { kind, level })
}

/// Stores a word of the pass's row.
#[inline(always)]
pub fn fill(table: &FunnelTable, pass: &mut Pass, row: u32, field: Field, word: u64)
    requires together { IsOf table.now pass.old }
    requires may { May pass.old (Fill row field) }
    requires word { word ≡ fill_word pass.old.seen.start (own_of pass.old) pass.old.number field (own_of pass.old).caller.position }
    ensures { Stored pass.old (Fill row field) pass.new }
{
    quiet_store(table, pass, word, Move::Fill { row, field });
}

/// Stores the number of the pass's row in `last`.
#[inline(always)]
pub fn point(table: &FunnelTable, pass: &mut Pass, kind: Kind, level: u32, row: u32)
    requires together { IsOf table.now pass.old }
    requires may { May pass.old (Point kind level row) }
    ensures { Stored pass.old (Point kind level row) pass.new }
{
    let _number = pass.number();
    let first = pass.spot(kind, level).row;
    let step = Move::Point { kind, level, row };
    store(table, &mut pass.caller, u64::from(row) + 1, step);
    pass.tally.pointed = row - first;
}

/// Stores the end of the pass's batch in `done`.
#[inline(always)]
pub fn publish(table: &FunnelTable, pass: &mut Pass, kind: Kind, level: u32, end: u64)
    requires together { IsOf table.now pass.old }
    requires may { May pass.old (Publish kind level) }
    requires end { end ≡ end_by ((own_of pass.old).stages kind level) }
    ensures { Stored pass.old (Publish kind level) pass.new }
{
    let _number = pass.number();
    let place = pass.spot(kind, level).end + pass.tally.pointed;
    store(table, &mut pass.caller, end, Move::Publish { kind, level });
    pass.tally.publish(place, end);
}

/// Loads a word of the row in hand.
#[inline(always)]
pub fn peek(table: &FunnelTable, pass: &mut Pass, row: u32, field: Field) -> u64
    requires together { IsOf table.now pass.old }
    requires may { May pass.old (Peek row field) }
    ensures { Stepped pass.old (Peek row field) result pass.new }
{
    quiet_load(table, pass, Move::Peek { row, field })
}

/// Takes the pass's announcement back.
#[inline(always)]
pub fn leave(table: &FunnelTable, pass: &mut Pass, kind: Kind, level: u32)
    requires together { IsOf table.now pass.old }
    requires may { May pass.old (Leave kind level) }
    ensures { Stored pass.old (Leave kind level) pass.new }
{
    store(table, &mut pass.caller, 0, Move::Leave { kind, level });
    pass.tally.calling = level != 1;
}
