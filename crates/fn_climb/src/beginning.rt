//! How a call begins: it finds a row at each level, and arrives at its leaf.
ghost use Rattle.std.specs.Prelude.{◌≡◌, ◌<◌, IfOk, IfErr};
ghost use Rattle.fn_layout.specs.Tree.{IsLevel};
ghost use Rattle.fn_core.specs.Machine.{IsChange, MaySpend};
ghost use Rattle.fn_core.specs.Calls.{state_in, IsIdle};
ghost use Rattle.fn_table.specs.Seen.{IsOf};
ghost use Rattle.fn_climb.specs.declared.beginning.Begun.TheVariants as begun;
ghost use Rattle.fn_climb.specs.Course.{Holds, pending_of};
ghost use Rattle.fn_climb.specs.Begin.{AreOpen, Arrived, BeginAnswers, RowTried, LevelTried, RowsTried};

use crate::course::{Batch, Course};
use crate::pending::Pending;
use crate::row_words::shape_of;
use fn_core::Blocked;
use fn_layout::Kind;
use fn_rows::{Stage, lets};
use fn_table::{FunnelTable, Pass, announce, arrive, scan, see};

/// What the beginning of a call answers.
#[derive(Drop)]
pub enum Begun {
    /// The call has arrived at its leaf, and its amount is spent.
    Waiting(Pending),
    /// At some level each row of the pass was blocked, the last of them by this load.
    NoRow(Pass, Blocked),
}

/// Begins a call: it waits at its leaf, or at some level each row of the pass is blocked.
#[inline(always)]
pub fn begin(table: &FunnelTable, mut pass: Pass, kind: Kind, amount: u64) -> Begun
    requires together { IsOf table.now pass }
    requires idle { IsIdle pass.seen pass.number }
    requires change { IsChange kind }
    requires amount { MaySpend (state_in pass.seen) pass.number amount }
    ensures { BeginAnswers pass kind amount result }
{
    match begin_on(table, &mut pass, kind, amount) {
        Ok(course) => Begun::Waiting(Pending { pass, course }),
        Err(blocked) => Begun::NoRow(pass, blocked),
    }
}

/// Begins a call of a pass in place: gives how far the call has come, or the load by which it is refused.
#[inline(always)]
pub fn begin_on(
    table: &FunnelTable,
    pass: &mut Pass,
    kind: Kind,
    amount: u64,
) -> Result<Course, Blocked>
    requires together { IsOf table.now pass.old }
    requires idle { IsIdle pass.old.seen pass.old.number }
    requires change { IsChange kind }
    requires amount { MaySpend (state_in pass.old.seen) pass.old.number amount }
    ensures begun { IfOk result (λ course. BeginAnswers pass.old kind amount (begun.Waiting (pending_of pass.new course)) × Holds pass.new course) }
    ensures refused { IfErr result (λ at. BeginAnswers pass.old kind amount (begun.NoRow pass.new at)) }
{
    match find_rows(table, pass, kind) {
        Ok(rows) => Ok(arrive_at_leaf(table, pass, kind, amount, rows)),
        Err(blocked) => Err(blocked),
    }
}

// The call arrives at its leaf, with an open row for each level.
#[inline(always)]
fn arrive_at_leaf(
    table: &FunnelTable,
    pass: &mut Pass,
    kind: Kind,
    amount: u64,
    rows: [u32; 3],
) -> Course
    requires together { IsOf table.now pass.old }
    requires idle { IsIdle pass.old.seen pass.old.number }
    requires change { IsChange kind }
    requires amount { MaySpend (state_in pass.old.seen) pass.old.number amount }
    requires open_rows { AreOpen pass.old kind rows }
    ensures arrived { Arrived pass.old kind amount pass.new }
    ensures holds { Holds pass.new result }
    ensures rows { result.rows ≡ rows }
{
    let _number = pass.number();
    let seen = see(table, pass, kind, 1);
    announce(table, pass, kind, 1, seen);
    let at = arrive(table, pass, kind, 1, amount);
    Course {
        kind,
        level: 1,
        word: None,
        stage: Stage::Waiting(at),
        below: [Batch { at: 0, hi: 0 }; 2],
        rows,
    }
}

// Tries the levels up to the first without an open row, and gives the first open row of each, or the load that refuses the call.
fn find_rows(table: &FunnelTable, pass: &mut Pass, kind: Kind) -> Result<[u32; 3], Blocked>
    requires together { IsOf table.now pass.old }
    requires idle { IsIdle pass.old.seen pass.old.number }
    requires change { IsChange kind }
    ensures { RowsTried pass.old kind result pass.new }
{
    let _number = pass.number();
    let mut rows = [0; 3];
    for level in 1..shape_of(table, pass).levels() + 1 {
        match find_row(table, pass, kind, level) {
            Ok(row) => rows[(level - 1) as usize] = row,
            Err(blocked) => return Err(blocked),
        }
    }
    Ok(rows)
}

// Tries the rows of a level up to the first open one, and gives that, or the last load that blocked one.
fn find_row(table: &FunnelTable, pass: &mut Pass, kind: Kind, level: u32) -> Result<u32, Blocked>
    requires together { IsOf table.now pass.old }
    requires idle { IsIdle pass.old.seen pass.old.number }
    requires change { IsChange kind }
    requires level { IsLevel table.now.start.shape level }
    ensures { LevelTried pass.old kind level result pass.new }
{
    let _number = pass.number();
    let mut last = Blocked {
        level,
        row: 0,
        pass: 0,
        announced: 0,
    };
    for row in 0..shape_of(table, pass).rows() {
        match try_row(table, pass, kind, level, row) {
            None => return Ok(row),
            Some(blocked) => last = blocked,
        }
    }
    Err(last)
}

// Tries a row, which is open without a scan where it was never filled, and gives the load of another member that blocks it.
fn try_row(
    table: &FunnelTable,
    pass: &mut Pass,
    kind: Kind,
    level: u32,
    row: u32,
) -> Option<Blocked>
    requires together { IsOf table.now pass.old }
    requires idle { IsIdle pass.old.seen pass.old.number }
    requires change { IsChange kind }
    requires level { IsLevel table.now.start.shape level }
    requires row { row < table.now.start.shape.rows }
    ensures { RowTried pass.old kind level row result pass.new }
{
    let number = pass.number();
    let end = pass.row_end(table, kind, level, row);
    if end == 0 {
        return None;
    }
    let shape = shape_of(table, pass);
    let spot = pass.spot(kind, level);
    for member in 0..spot.members {
        let other = shape.pass_of(level, spot.index, member);
        if other == number {
            continue;
        }
        let word = scan(table, pass, kind, level, other);
        if !lets(word, end) {
            return Some(Blocked {
                level,
                row,
                pass: other,
                announced: word - 1,
            });
        }
    }
    None
}
