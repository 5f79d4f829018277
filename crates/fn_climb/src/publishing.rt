// A batch that has its base is filled into a row and published, step by step.
ghost use Rattle.std.specs.Prelude.{◌≡◌, None};
ghost use Rattle.fn_core.specs.declared.answer.CoreStep.TheVariants as told;
ghost use Rattle.fn_rows.specs.declared.Stage.TheVariants as stage;
ghost use Rattle.fn_table.specs.Seen.{IsOf};
ghost use Rattle.fn_climb.specs.Course.{Holds, pending_of};
ghost use Rattle.fn_climb.specs.Turns.{Ran};

use crate::course::Course;
use crate::row_words::spot_of;
use fn_layout::Field;
use fn_rows::Stage;
use fn_table::{FunnelTable, Pass, fill, head, point, publish};

/// Where the call has got a base for its batch, takes the steps that fill its row and publish it.
#[tactic(auto, using(crate::proofs::Runs::ran_none))]
#[inline(always)]
pub fn publish_based(table: &FunnelTable, pass: &mut Pass, course: &mut Course)
    requires together { IsOf table.now pass.old }
    requires holds { Holds pass.old course.old }
    ensures { Ran (pending_of pass.old course.old) told.Going pass.new course.new }
{
    if course.word.is_none() {
        match course.stage {
            Stage::Based(at, hi, base) => publish_batch(table, pass, course, at, hi, base),
            _ => {}
        }
    }
}

// Takes the steps from the base of a batch up to where its call may leave the aggregator.
#[inline(always)]
fn publish_batch(
    table: &FunnelTable,
    pass: &mut Pass,
    course: &mut Course,
    at: u64,
    hi: u64,
    base: u64,
)
    requires together { IsOf table.now pass.old }
    requires holds { Holds pass.old course.old }
    requires free { course.old.word ≡ None }
    requires based { course.old.stage ≡ stage.Based at hi base }
    ensures { Ran (pending_of pass.old course.old) told.Going pass.new course.new }
{
    let (kind, level) = (course.kind, course.level);
    let row = spot_of(pass, course).row + course.rows[(level - 1) as usize];
    let last = head(table, pass, kind, level);
    fill(table, pass, row, Field::Lo, at);
    fill(table, pass, row, Field::Base, base);
    fill(table, pass, row, Field::Prev, last);
    point(table, pass, kind, level, row);
    publish(table, pass, kind, level, hi);
    course.go_to(Stage::Got(base, 0));
}
