// A call that leads takes the steps that follow of themselves straight, with no look at where it stands between them.
ghost use Rattle.std.specs.Prelude.{◌≡◌, None};
ghost use Rattle.fn_core.specs.declared.answer.CoreStep.TheVariants as told;
ghost use Rattle.fn_rows.specs.declared.Stage.TheVariants as stage;
ghost use Rattle.fn_table.specs.Seen.{IsOf};
ghost use Rattle.fn_climb.specs.Course.{Holds, pending_of};
ghost use Rattle.fn_climb.specs.Turns.{Ran};

use crate::course::Course;
use crate::publishing::publish_based;
use crate::stepping::{come_down, go_up};
use fn_core::CoreStep;
use fn_rows::Stage;
use fn_table::{FunnelTable, Pass, close_batch};

/// Where the call leads, closes its batch and takes it up; where it has a base for its batch, publishes that; and where it has its reply at its leaf then, leaves with it.
#[inline(always)]
pub fn lead_on(table: &FunnelTable, pass: &mut Pass, course: &mut Course) -> CoreStep
    requires together { IsOf table.now pass.old }
    requires holds { Holds pass.old course.old }
    ensures { Ran (pending_of pass.old course.old) result pass.new course.new }
{
    close_led(table, pass, course);
    publish_based(table, pass, course);
    leave_led(table, pass, course)
}

// Where the call leads, closes its batch and takes it up.
#[tactic(auto, using(crate::proofs::Runs::ran_none))]
#[inline(always)]
fn close_led(table: &FunnelTable, pass: &mut Pass, course: &mut Course)
    requires together { IsOf table.now pass.old }
    requires holds { Holds pass.old course.old }
    ensures { Ran (pending_of pass.old course.old) told.Going pass.new course.new }
{
    if course.word.is_none() {
        match course.stage {
            Stage::Lead(at) => take_up(table, pass, course, at),
            _ => {}
        }
    }
}

// Closes the batch of a call that leads, and takes it up a level or to the main word.
#[inline(always)]
fn take_up(table: &FunnelTable, pass: &mut Pass, course: &mut Course, at: u64)
    requires together { IsOf table.now pass.old }
    requires holds { Holds pass.old course.old }
    requires free { course.old.word ≡ None }
    requires leads { course.old.stage ≡ stage.Lead at }
    ensures { Ran (pending_of pass.old course.old) told.Going pass.new course.new }
{
    let hi = close_batch(table, pass, course.kind, course.level);
    course.go_to(Stage::Shut(at, hi));
    go_up(table, pass, course);
}

// Where the call has its reply at its leaf, leaves with it.
#[tactic(auto, using(crate::proofs::Runs::ran_none))]
#[inline(always)]
fn leave_led(table: &FunnelTable, pass: &mut Pass, course: &mut Course) -> CoreStep
    requires together { IsOf table.now pass.old }
    requires holds { Holds pass.old course.old }
    ensures { Ran (pending_of pass.old course.old) result pass.new course.new }
{
    if course.level == 1 && course.word.is_none() {
        match course.stage {
            Stage::Got(base, ahead) => come_down(table, pass, course, base, ahead),
            _ => CoreStep::Going,
        }
    } else {
        CoreStep::Going
    }
}
