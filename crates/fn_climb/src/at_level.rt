// The steps of a call that lead to another stage at its level.
ghost use Rattle.std.specs.Prelude.{◌≡◌, None, Some, true};
ghost use Rattle.fn_rows.specs.Law.{row_in_hand};
ghost use Rattle.fn_table.specs.Seen.{IsOf, May, Stepped};
ghost use Rattle.fn_climb.specs.Course.{chosen_at, goes_on, has_row, walks, peek_of, Holds, Moved};

use crate::course::Course;
use crate::row_words::{link, own_row, row_read, row_there, shape_of, spot_of};
use fn_layout::Field;
use fn_rows::Stage;
use fn_table::{
    FunnelTable, Pass, announce, arrive, close_batch, fill, head, peek, point, publish,
};

/// Takes the step by which a call goes on at its level, and gives the stage to which it leads.
pub fn go_on(table: &FunnelTable, pass: &mut Pass, course: &Course, stage: Stage) -> Stage
    requires together { IsOf table.now pass.old }
    requires holds { Holds pass.old course.now }
    requires free { course.now.word ≡ None }
    requires there { course.now.stage ≡ stage }
    requires goes_on { goes_on stage ≡ true }
    ensures { Moved pass.old course.now result pass.new }
{
    let (kind, level) = (course.kind, course.level);
    match stage {
        Stage::Saw(seen) => {
            announce(table, pass, kind, level, seen);
            Stage::Told(seen)
        }
        Stage::Told(_) => {
            let weight = course.weight_below();
            Stage::Waiting(arrive(table, pass, kind, level, weight))
        }
        Stage::Lead(at) => Stage::Shut(at, close_batch(table, pass, kind, level)),
        Stage::Late(at) => {
            let shape = shape_of(table, pass);
            let word = head(table, pass, kind, level);
            Stage::At(at, row_read(shape, word).saturating_sub(1))
        }
        Stage::Based(at, hi, base) => {
            let shape = shape_of(table, pass);
            let word = head(table, pass, kind, level);
            Stage::Headed(at, hi, base, row_read(shape, word))
        }
        _ => fill_row(table, pass, course, stage),
    }
}

// Takes the next step of a call that fills its row, or walks along rows.
fn fill_row(table: &FunnelTable, pass: &mut Pass, course: &Course, stage: Stage) -> Stage
    requires together { IsOf table.now pass.old }
    requires holds { Holds pass.old course.now }
    requires free { course.now.word ≡ None }
    requires there { course.now.stage ≡ stage }
    requires has_row { has_row stage ≡ true }
    ensures { Moved pass.old course.now result pass.new }
{
    let (kind, level) = (course.kind, course.level);
    match stage {
        Stage::Headed(at, hi, base, last) => {
            let local = chosen(table, pass, course);
            let row = own_row(table, pass, course, local);
            fill(table, pass, row, Field::Lo, at);
            Stage::FilledLo(at, hi, base, last, local)
        }
        Stage::FilledLo(at, hi, base, last, local) => {
            let row = own_row(table, pass, course, local);
            fill(table, pass, row, Field::Base, base);
            Stage::FilledBase(at, hi, base, last, local)
        }
        Stage::FilledBase(at, hi, base, last, local) => {
            let row = own_row(table, pass, course, local);
            let index = spot_of(pass, course).index;
            let word = link(shape_of(table, pass), kind, level, index, last);
            fill(table, pass, row, Field::Prev, word);
            Stage::Filled(at, hi, base, local)
        }
        Stage::Filled(at, hi, base, local) => {
            let row = own_row(table, pass, course, local);
            point(table, pass, kind, level, row);
            Stage::Pointed(at, hi, base, local)
        }
        Stage::Pointed(_, hi, base, _) => {
            publish(table, pass, kind, level, hi);
            Stage::Got(base, 0)
        }
        _ => walk(table, pass, course, stage),
    }
}

// The row in memory for the call's level, by its number at the aggregator.
fn chosen(table: &FunnelTable, pass: &Pass, course: &Course) -> u64
    requires together { IsOf table.now pass.now }
    requires holds { Holds pass.now course.now }
    ensures { result ≡ chosen_at pass.now course.now course.now.level }
{
    let (shape, level) = (shape_of(table, pass), course.level);
    let row = course.rows[(level - 1) as usize];
    u64::from(shape.member(pass.number(), level)) * u64::from(shape.rows()) + u64::from(row)
}

// Takes the next step of a late call, which walks along the rows to the one of its batch.
fn walk(table: &FunnelTable, pass: &mut Pass, course: &Course, stage: Stage) -> Stage
    requires together { IsOf table.now pass.old }
    requires holds { Holds pass.old course.now }
    requires free { course.now.word ≡ None }
    requires there { course.now.stage ≡ stage }
    requires walks { walks stage ≡ true }
    ensures { Moved pass.old course.now result pass.new }
{
    match stage {
        Stage::At(at, row) => {
            let lo = peek_at(table, pass, course, row, Field::Lo);
            if lo <= at {
                Stage::Hit(at, row, lo)
            } else {
                Stage::Over(at, row)
            }
        }
        Stage::Over(at, row) => {
            let shape = shape_of(table, pass);
            let word = peek_at(table, pass, course, row, Field::Prev);
            Stage::At(at, row_read(shape, word).saturating_sub(1))
        }
        Stage::Hit(at, row, lo) => {
            let base = peek_at(table, pass, course, row, Field::Base);
            Stage::Got(base, at.saturating_sub(lo))
        }
        _ => stage,
    }
}

// Loads a field of the row in hand.
fn peek_at(table: &FunnelTable, pass: &mut Pass, course: &Course, row: u64, field: Field) -> u64
    requires together { IsOf table.now pass.old }
    requires holds { Holds pass.old course.now }
    requires free { course.now.word ≡ None }
    requires in_hand { row_in_hand (course.now.stage) ≡ Some row }
    requires may { May pass.old (peek_of pass.old course.now row field) }
    ensures { Stepped pass.old (peek_of pass.old course.now row field) result pass.new }
{
    let index = spot_of(pass, course).index;
    let row = row_there(shape_of(table, pass), course.kind, course.level, index, row);
    peek(table, pass, row, field)
}
