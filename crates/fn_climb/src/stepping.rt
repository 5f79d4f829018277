// The steps of a call, each taken where the call stands in memory.
ghost use Rattle.std.specs.Prelude.{◌≡◌, ◌==◌, ◌&&◌, None, Some, false};
ghost use Rattle.fn_model.specs.Calls.{same_kind};
ghost use Rattle.fn_rows.specs.declared.Stage.TheVariants as stage;
ghost use Rattle.fn_table.specs.Seen.{IsOf};
ghost use Rattle.fn_climb.specs.Course.{IsShut, Holds, pending_of};
ghost use Rattle.fn_core.specs.declared.answer.CoreStep.TheVariants as told;
ghost use Rattle.fn_climb.specs.Steps.{Advanced};

use crate::at_level::go_on;
use crate::course::Course;
use fn_core::{CoreStep, Why};
use fn_model::{Kind, NO_CAP, after_capped};
use fn_rows::Stage;
use fn_table::{FunnelTable, Pass, apply_batch, exchange, leave, load_try, look, see};

/// Takes the next step of a call, exactly one, and tells how the call stands then.
#[inline(always)]
pub fn advance(table: &FunnelTable, pass: &mut Pass, course: &mut Course) -> CoreStep
    requires together { IsOf table.now pass.old }
    requires holds { Holds pass.old course.old }
    ensures { Advanced (pending_of pass.old course.old) result pass.new course.new }
{
    match course.word {
        Some(word) => decide(table, pass, course, word),
        None => climb(table, pass, course),
    }
}

// Takes the next step of a call that has loaded no word.
#[inline(always)]
fn climb(table: &FunnelTable, pass: &mut Pass, course: &mut Course) -> CoreStep
    requires together { IsOf table.now pass.old }
    requires holds { Holds pass.old course.old }
    requires free { course.old.word ≡ None }
    ensures { Advanced (pending_of pass.old course.old) result pass.new course.new }
{
    let stage = course.stage;
    match stage {
        Stage::Waiting(at) => look_at(table, pass, course, at),
        Stage::Shut(_, _) => {
            go_up(table, pass, course);
            CoreStep::Going
        }
        Stage::Got(base, ahead) => come_down(table, pass, course, base, ahead),
        _ => {
            let next = go_on(table, pass, course, stage);
            course.go_to(next);
            CoreStep::Going
        }
    }
}

// Looks whether the call leads, waits or is late.
#[inline(always)]
fn look_at(table: &FunnelTable, pass: &mut Pass, course: &mut Course, at: u64) -> CoreStep
    requires together { IsOf table.now pass.old }
    requires holds { Holds pass.old course.old }
    requires free { course.old.word ≡ None }
    requires waits { course.old.stage ≡ stage.Waiting at }
    ensures { Advanced (pending_of pass.old course.old) result pass.new course.new }
{
    let done = look(table, pass, course.kind, course.level);
    if done < at {
        return CoreStep::NotYet(Why::Behind { done, at });
    }
    if at == done {
        course.go_to(Stage::Lead(at));
    } else {
        course.go_to(Stage::Late(at));
    }
    CoreStep::Going
}

/// The batch that the call has closed goes up a level, or enters the main word.
#[inline(always)]
pub fn go_up(table: &FunnelTable, pass: &mut Pass, course: &mut Course)
    requires together { IsOf table.now pass.old }
    requires holds { Holds pass.old course.old }
    requires free { course.old.word ≡ None }
    requires shut { IsShut course.old }
    ensures { Advanced (pending_of pass.old course.old) told.Going pass.new course.new }
{
    if course.level < table.shape().levels() {
        let seen = see(table, pass, course.kind, course.level + 1);
        course.rise(seen);
    } else {
        match course.kind {
            Kind::Add => if table.cap() == NO_CAP {
                apply(table, pass, course)
            } else {
                load(table, pass, course)
            },
            _ => load(table, pass, course),
        }
    }
}

// Adds the batch to the main word.
#[inline(always)]
fn apply(table: &FunnelTable, pass: &mut Pass, course: &mut Course)
    requires together { IsOf table.now pass.old }
    requires holds { Holds pass.old course.old }
    requires free { course.old.word ≡ None }
    requires shut { IsShut course.old }
    requires top { course.old.level ≡ pass.old.seen.start.shape.levels }
    requires adds { course.old.kind ≡ Kind.Add }
    requires uncapped { pass.old.seen.start.cap ≡ NO_CAP }
    ensures { Advanced (pending_of pass.old course.old) told.Going pass.new course.new }
{
    let base = apply_batch(table, pass, course.weight());
    course.take_base(base);
}

// Loads the main word, to exchange it.
#[inline(always)]
fn load(table: &FunnelTable, pass: &mut Pass, course: &mut Course)
    requires together { IsOf table.now pass.old }
    requires holds { Holds pass.old course.old }
    requires free { course.old.word ≡ None }
    requires shut { IsShut course.old }
    requires top { course.old.level ≡ pass.old.seen.start.shape.levels }
    requires tries { (same_kind course.old.kind Kind.Add && (pass.old.seen.start.cap == NO_CAP)) ≡ false }
    ensures { Advanced (pending_of pass.old course.old) told.Going pass.new course.new }
{
    course.word = Some(load_try(table, pass));
}

// Exchanges the main word, where it is still the one that was loaded.
#[inline(always)]
fn decide(table: &FunnelTable, pass: &mut Pass, course: &mut Course, word: u64) -> CoreStep
    requires together { IsOf table.now pass.old }
    requires holds { Holds pass.old course.old }
    requires loaded { course.old.word ≡ Some word }
    ensures { Advanced (pending_of pass.old course.old) result pass.new course.new }
{
    let weight = course.weight();
    match exchange(table, pass, course.kind, weight, word) {
        Ok(()) => {
            course.take_base(word);
            CoreStep::Going
        }
        Err(found) => {
            course.word = None;
            CoreStep::NotYet(Why::Lost {
                loaded: word,
                found,
            })
        }
    }
}

/// Leaves the aggregator with the base of its batch, by which the call ends or goes down a level.
#[inline(always)]
pub fn come_down(
    table: &FunnelTable,
    pass: &mut Pass,
    course: &mut Course,
    base: u64,
    ahead: u64,
) -> CoreStep
    requires together { IsOf table.now pass.old }
    requires holds { Holds pass.old course.old }
    requires free { course.old.word ≡ None }
    requires got { course.old.stage ≡ stage.Got base ahead }
    ensures { Advanced (pending_of pass.old course.old) result pass.new course.new }
{
    let (kind, level) = (course.kind, course.level);
    let reply = after_capped(table.cap(), base, kind, ahead);
    leave(table, pass, kind, level);
    if level == 1 {
        return CoreStep::Ready(reply);
    }
    course.sink(reply);
    CoreStep::Going
}
