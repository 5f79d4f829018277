// The words by which rows are named on the table, and their numbers at an aggregator.
ghost use Rattle.std.specs.Prelude.{◌≡◌, ◌/◌, ◌%◌, ◌<◌, ◌≤◌, ℕ};
ghost use Rattle.fn_layout.specs.Tree.{members};
ghost use Rattle.fn_layout.specs.Words.{IsAggregator};
ghost use Rattle.fn_core.specs.Order.{own_row};
ghost use Rattle.fn_core.specs.Words.{row_there, link, NamesMine};
ghost use Rattle.fn_core.specs.After.{row_read};
ghost use Rattle.fn_table.specs.Seen.{IsOf};
ghost use Rattle.fn_table.specs.Spots.{spot_of};
ghost use Rattle.fn_climb.specs.Course.{IsLink, Holds};

use crate::course::Course;
use fn_layout::{Kind, Shape};
use fn_table::{FunnelTable, Pass, Spot};

// How often one number is in another, and what is left, with no division where that is the number itself.
#[inline(always)]
fn parts(number: u64, by: u32) -> (u64, u64)
    requires { 1 ≤ by }
    ensures quotient { result.0 ≡ number / by }
    ensures remainder { result.1 ≡ number % by }
    ensures small { result.1 < by }
{
    let by = u64::from(by);
    if number < by {
        (0, number)
    } else {
        (number / by, number % by)
    }
}

/// The row with this number at an aggregator, by its number in the layout.
pub fn row_there(shape: Shape, kind: Kind, level: u32, index: u32, row: u64) -> u32
    requires aggregator { IsAggregator shape kind level index }
    requires owned { row / shape.rows < members shape level index }
    ensures { result ≡ row_there shape kind level index row }
{
    let (member, rest) = parts(row, shape.rows());
    let pass = shape.pass_of(level, index, member as u32);
    shape.row_of(pass, kind, level, rest as u32)
}

/// The word that names a row on the table, by the word that names it at the aggregator.
pub fn link(shape: Shape, kind: Kind, level: u32, index: u32, word: u64) -> u64
    requires aggregator { IsAggregator shape kind level index }
    requires mine { NamesMine shape level index word }
    ensures { result ≡ link shape kind level index word }
{
    if word == 0 {
        0
    } else {
        u64::from(row_there(shape, kind, level, index, word - 1)) + 1
    }
}

/// The word that names a row at its aggregator, by the word that names it on the table.
pub fn row_read(shape: Shape, word: u64) -> u64
    requires { IsLink shape word }
    ensures { result ≡ row_read shape word }
{
    if word == 0 {
        return 0;
    }
    let (slot, rest) = parts(word - 1, shape.rows());
    let (pair, level) = parts(slot, shape.levels());
    let member = shape.member((pair / 2) as u32, (level + 1) as u32);
    u64::from(member) * u64::from(shape.rows()) + rest + 1
}

/// The table's shape, which is the pass's.
#[inline(always)]
pub fn shape_of(table: &FunnelTable, pass: &Pass) -> Shape
    requires together { IsOf table.now pass.now }
    ensures { result ≡ pass.now.seen.start.shape }
{
    let _ = pass;
    table.shape()
}

/// Where the call's pass stands at the call's aggregator.
#[inline(always)]
pub fn spot_of(pass: &Pass, course: &Course) -> Spot
    requires holds { Holds pass.now course.now }
    ensures { result ≡ spot_of pass.now.seen.start.shape pass.now.number course.now.kind course.now.level }
{
    pass.spot(course.kind, course.level)
}

/// The row of the pass that has this number at the call's aggregator, by its number in the layout.
pub fn own_row(table: &FunnelTable, pass: &Pass, course: &Course, row: u64) -> u32
    requires together { IsOf table.now pass.now }
    requires holds { Holds pass.now course.now }
    ensures { result ≡ own_row pass.now.seen.start.shape pass.now.number course.now.kind course.now.level row }
{
    let (_, rest) = parts(row, shape_of(table, pass).rows());
    spot_of(pass, course).row + rest as u32
}
