//! The steps of a call up to an answer.
ghost use Rattle.fn_table.specs.Seen.{IsOf};
ghost use Rattle.fn_climb.specs.Course.{Holds, pending_of};
ghost use Rattle.fn_climb.specs.Steps.{HoldsStill};
ghost use Rattle.fn_climb.specs.Turns.{Polled, PollAnswers};

use crate::course::Course;
use crate::leading::lead_on;
use crate::pending::Pending;
use crate::stepping::advance;
use fn_core::{CoreStep, Why};
use fn_table::{FunnelTable, Pass};

/// What a poll of a call answers.
#[derive(Drop)]
pub enum Turn {
    /// The call has ended, and met this number.
    Ready(Pass, u64),
    NotYet(Pending, Why),
}

impl Pending {
    /// Takes steps of the call up to the first that ends it or tells it to wait.
    #[inline(always)]
    pub fn poll(self, table: &FunnelTable) -> Turn
        requires together { IsOf table.now self.pass }
        ensures { PollAnswers self result }
    {
        let Pending {
            mut pass,
            mut course,
        } = self;
        match poll_on(table, &mut pass, &mut course) {
            CoreStep::Ready(reply) => Turn::Ready(pass, reply),
            CoreStep::NotYet(why) => Turn::NotYet(Pending { pass, course }, why),
            CoreStep::Going => unreachable!(),
        }
    }
}

/// Takes steps of a call in place, up to the first that ends it or tells it to wait.
#[inline(always)]
pub fn poll_on(table: &FunnelTable, pass: &mut Pass, course: &mut Course) -> CoreStep
    requires together { IsOf table.now pass.old }
    requires holds { Holds pass.old course.old }
    ensures polled { Polled (pending_of pass.old course.old) result pass.new }
    ensures holds { HoldsStill (pending_of pass.old course.old) result pass.new course.new }
{
    loop {
        match advance(table, pass, course) {
            CoreStep::Going => match lead_on(table, pass, course) {
                CoreStep::Going => {}
                told => return told,
            },
            told => return told,
        }
    }
}
