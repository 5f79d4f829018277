//! The words of a funnel and where its passes stand, in plain fields.

ghost use Rattle.std.specs.Prelude.{◌≡◌, ◌↔◌, ◌<◌, List, IsTrue};
ghost use Rattle.fn_layout.specs.Tree.{aggregator, member, IsLevel};
ghost use Rattle.fn_layout.specs.Words.{IsSlot, aggregator_number};
ghost use Rattle.fn_core.specs.Machine.{local_row, weight_of};
ghost use Rattle.fn_core.specs.State.{stage};

use crate::answer::Answer;
use crate::{Event, Move, Position, Start};
use fn_layout::Kind;
use fn_rows::{RowState, Stage};

/// Where a pass stands in its call, and what is left of its allowance.
#[derive(Clone, Copy)]
pub struct Standing {
    pub position: Position,
    pub left: u64,
}

/// The main word, the aggregators by number, and the passes.
#[derive(Drop)]
pub struct Machine {
    pub start: Start,
    pub main: u64,
    pub rows: Vec<RowState>,
    pub standings: Vec<Standing>,
}

impl Machine {
    ghost use Rattle.fn_core.specs.Fields.{HasTaken, InEach, MayTake, Takes};

    // The number of the pass's aggregator, and the pass's number among its members.
    #[inline(always)]
    pub(crate) fn seat(&self, pass: u32, kind: Kind, level: u32) -> (usize, u32)
        requires { IsSlot self.now.start.shape pass kind level }
        ensures place { result.0 ≡ aggregator_number self.now.start.shape kind level (aggregator self.now.start.shape pass level) }
        ensures member { result.1 ≡ member self.now.start.shape level pass }
    {
        let shape = self.start.shape;
        let index = shape.aggregator_of(pass, level);
        let place = shape.aggregator_number(kind, level, index);
        (place as usize, shape.member(pass, level))
    }

    // The number at its aggregator of a row of the pass.
    pub(crate) fn local_row(&self, pass: u32, level: u32, row: u32) -> u32
        requires slot { (pass < self.now.start.shape.passes) × IsLevel self.now.start.shape level }
        ensures { result ≡ local_row self.now.start.shape level pass row }
    {
        let shape = self.start.shape;
        shape.member(pass, level) * shape.rows() + row % shape.rows()
    }

    // Where the pass stands at its aggregator of this kind and level.
    pub(crate) fn stage_of(&self, pass: u32, kind: Kind, level: u32) -> Stage
        requires taken { HasTaken self.now }
        requires slot { IsSlot self.now.start.shape pass kind level }
        ensures { InEach self.now (λ s. result ≡ stage self.now.start s kind level pass) }
    {
        let (place, member) = self.seat(pass, kind, level);
        self.rows[place].stage(member)
    }

    // The weight of the batch that the pass has closed at this level.
    pub(crate) fn weight_of(&self, pass: u32, kind: Kind, level: u32) -> u64
        requires taken { HasTaken self.now }
        requires slot { IsSlot self.now.start.shape pass kind level }
        ensures { InEach self.now (λ s. result ≡ weight_of self.now.start s pass kind level) }
    {
        match self.stage_of(pass, kind, level) {
            Stage::Shut(at, hi) => hi.saturating_sub(at),
            _ => 0,
        }
    }

    /// Takes a step, and gives its answer.
    pub fn take(&mut self, event: Event) -> Answer
        requires { MayTake self.old event.pass event.step }
        ensures start { self.new.start ≡ self.old.start }
        ensures takes { Takes self.old self.new event.pass event.step result }
    {
        let pass = event.pass;
        match event.step {
            Move::Scan { kind, level, other } => self.scan(pass, kind, level, other),
            Move::See { kind, level } => self.see(pass, kind, level),
            Move::Announce { kind, level } => self.announce(pass, kind, level),
            Move::Arrive {
                kind,
                level,
                weight,
            } => self.arrive(pass, kind, level, weight),
            Move::Look { kind, level } => self.look(pass, kind, level),
            Move::Close { kind, level } => self.close_batch(pass, kind, level),
            Move::Apply { weight } => self.apply_batch(pass, weight),
            Move::Head { kind, level } => self.head(pass, kind, level),
            Move::Fill { row, field } => self.fill(pass, row, field),
            Move::Point { kind, level, row } => self.point(pass, kind, level, row),
            Move::Publish { kind, level } => self.publish(pass, kind, level),
            Move::Peek { row, field } => self.peek(pass, row, field),
            Move::Leave { kind, level } => self.leave(pass, kind, level),
            Move::Load { purpose } => self.load(pass, purpose),
            Move::Exchange { kind, amount } => self.exchange(pass, kind, amount),
            Move::Direct { amount } => self.direct(pass, amount),
            Move::Glance => Answer::Word(self.main),
        }
    }
}
