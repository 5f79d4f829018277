//! A call between its steps.
ghost use Rattle.fn_table.specs.Seen.{IsOf};
ghost use Rattle.fn_climb.specs.Steps.{StepAnswers};

use crate::course::Course;
use crate::stepping::advance;
use fn_core::{CoreStep, Why};
use fn_table::{FunnelTable, Pass};
use std::marker::Model;

/// A pass with a call that has arrived at its leaf and hasn't ended. Contracts see the pass, and the rows that the call's beginning found open.
#[derive(Drop)]
pub struct Pending {
    pub(crate) pass: Pass,
    pub(crate) course: Course,
}

impl Model for Pending {
    ghost use Rattle.fn_climb.specs.Next.{PendingView};
    ghost use Rattle.fn_climb.specs.Course.{Holds, pending_of};

    ghost Value = { PendingView };

    ghost view = { λ p. pending_of p.pass p.course };

    ghost invariant = { λ p. Holds p.pass p.course };
}

/// What a step of a call answers.
#[derive(Drop)]
pub enum Step {
    Going(Pending),
    /// The call has ended, and met this number.
    Ready(Pass, u64),
    NotYet(Pending, Why),
}

impl Pending {
    /// Takes the next step of the call, exactly one.
    pub fn step(self, table: &FunnelTable) -> Step
        requires together { IsOf table.now self.pass }
        ensures { StepAnswers self result }
    {
        let Pending {
            mut pass,
            mut course,
        } = self;
        match advance(table, &mut pass, &mut course) {
            CoreStep::Going => Step::Going(Pending { pass, course }),
            CoreStep::Ready(reply) => Step::Ready(pass, reply),
            CoreStep::NotYet(why) => Step::NotYet(Pending { pass, course }, why),
        }
    }
}
