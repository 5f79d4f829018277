//! A funnel as a value: its machine, and the list of its events, which only contracts see.

ghost use Rattle.std.specs.Prelude.{◌≡◌, ◌↔◌, ◌+◌, ◌^◌, ◌<◌, ◌≤◌, IsTrue, IfOk, IfErr, IsOk, MatchResult, None, Some, length, sum};
ghost use Rattle.fn_layout.specs.Words.{IsSlot};
ghost use Rattle.fn_model.specs.Integer.{value};
ghost use Rattle.fn_core.specs.State.{stage};
ghost use Rattle.fn_core.specs.Machine.{IsChange, MaySpend, Allowed};
ghost use Rattle.fn_core.specs.Order.{next_move};
ghost use Rattle.fn_core.specs.Batches.{has_come};
ghost use Rattle.fn_core.specs.Calls.{state_in, calls_in, IsLegal, with_move, with_moves, newly_opened, open_fault, TellsFault, IsIdle, HasCall, left_of, LeavesOthers, stage_for, look_told, exchange_told, told_by, step_answer, Follows, HasFewLeft, MayOwn, own_moves, exchange_moves, OwnCallJoins};

use crate::aggregator_steps::reply_of;
use crate::answer::{Answer, CoreStep, NoMemory, OpenFault, Why};
use crate::event_log::EventLog;
use crate::machine::Machine;
use crate::opening::{TOO_MUCH, aggregators, standings, total};
use crate::{Allowances, Event, Move, Position, Purpose, Start};
use fn_layout::{Kind, Shape};
use fn_model::NO_CAP;
use fn_rows::{RowState, Stage};
use std::alloc::Global;
use std::marker::Model;

/// A funnel, of which contracts see what it opened with and its events since.
#[derive(Drop)]
pub struct Core {
    pub(crate) machine: Machine,
    pub(crate) log: EventLog,
}

impl Model for Core {
    ghost use Rattle.fn_core.specs.Calls.{CoreLog};

    ghost Value = { CoreLog };

    ghost use Rattle.fn_core.specs.Fields.{Stands};

    ghost view = { λ core. record { start = core.machine.start; log = core.log } };

    ghost invariant = { λ core. Stands core.machine core.log };
}

impl Core {
    ghost use Rattle.fn_core.specs.Fields.{answer_of};

    /// A funnel at which no addition stops.
    pub fn new(
        alloc: Global,
        shape: &Shape,
        opening: u64,
        allowances: &[u64],
    ) -> Result<Core, OpenFault>
        requires { length allowances.now ≡ shape.now.passes }
        ensures opened { IfOk result (λ core. core ≡ newly_opened shape.now opening NO_CAP allowances.now) }
        ensures faults { MatchResult result (λ _. open_fault opening NO_CAP allowances.now ≡ None) (TellsFault (open_fault opening NO_CAP allowances.now)) }
    {
        Core::new_capped(alloc, shape, opening, NO_CAP, allowances)
    }

    /// A funnel whose additions stop at `cap`.
    pub fn new_capped(
        alloc: Global,
        shape: &Shape,
        opening: u64,
        cap: u64,
        allowances: &[u64],
    ) -> Result<Core, OpenFault>
        requires one_each { length allowances.now ≡ shape.now.passes }
        requires cap_below_limit { cap ≤ NO_CAP }
        ensures opened { IfOk result (λ core. core ≡ newly_opened shape.now opening cap allowances.now) }
        ensures faults { MatchResult result (λ _. open_fault opening cap allowances.now ≡ None) (TellsFault (open_fault opening cap allowances.now)) }
    {
        let total = total(opening, allowances);
        if total >= TOO_MUCH {
            return Err(OpenFault::TooMuch { opening, total });
        }
        if opening > cap {
            return Err(OpenFault::AboveCap { opening, cap });
        }
        Ok(Core::open(alloc, *shape, opening, cap, allowances)?)
    }

    /// Whether the event may happen now.
    pub fn can(&self, event: &Event) -> bool
        ensures { IsTrue result ↔ Allowed self.now.start (state_in self.now) event.now }
    {
        self.machine.can(event)
    }

    /// Lets the event happen, and gives its answer. It takes no memory.
    pub fn apply(&mut self, event: &Event) -> Result<Answer, NoMemory>
        requires { Allowed self.old.start (state_in self.old) event.now }
        ensures taken { IfOk result (λ _. self.new ≡ with_move self.old event.now.pass event.now.step) }
        ensures answer { IfOk result (λ answer. answer ≡ answer_of self.old.start (state_in self.old) event.now.pass event.now.step) }
        ensures no_memory { IfErr result (λ _. self.new ≡ self.old) }
        ensures always { IsOk result }
    {
        let answer = self.machine.take(*event);
        self.log.push(*event);
        Ok(answer)
    }

    /// The main word, which is what all calls of the history have made of the opening.
    pub fn main(&self) -> u64
        ensures word { result ≡ (state_in self.now).main }
        ensures value { result ≡ value self.now.start.cap self.now.start.opening (calls_in self.now) }
    {
        self.machine.main
    }

    /// What every funnel is: its start may be opened, and its events are legal, so that all laws of legal logs hold of it.
    pub fn log_is_legal(&self)
        ensures { IsLegal self.now }
    {
        let _ = &self.log;
    }

    /// Whether the pass makes no call.
    pub fn is_idle(&self, pass: u32) -> bool
        requires { pass < self.now.start.shape.passes }
        ensures { IsTrue result ↔ IsIdle self.now pass }
    {
        self.machine.standings[pass as usize].position == Position::Resting
    }

    /// Whether the pass has a call that has arrived at its leaf and hasn't ended.
    pub fn has_call(&self, pass: u32) -> bool
        requires { pass < self.now.start.shape.passes }
        ensures { IsTrue result ↔ HasCall self.now pass }
    {
        has_come(self.stage(pass, Kind::Add, 1)) || has_come(self.stage(pass, Kind::Sub, 1))
    }

    /// Takes the next step of the pass's call. It takes no memory.
    pub fn step(&mut self, pass: u32) -> Result<CoreStep, NoMemory>
        requires in_range { pass < self.old.start.shape.passes }
        requires underway { HasCall self.old pass }
        ensures taken { IfOk result (λ _. self.new ≡ with_move self.old pass (next_move self.old.start (state_in self.old) pass)) }
        ensures told { IfOk result (λ told. told ≡ step_answer self.old.start (state_in self.old) pass) }
        ensures follows { IfOk result (λ told. Follows self.old self.new pass told) }
        ensures few { IfOk result (λ _. HasFewLeft self.old pass) }
        ensures spends { IfOk result (λ _. left_of self.new pass ≡ left_of self.old pass) }
        ensures others { IfOk result (λ _. LeavesOthers self.old self.new pass) }
        ensures no_memory { IfErr result (λ _. self.new ≡ self.old) }
        ensures always { IsOk result }
    {
        let step = self.machine.next_move(pass);
        let stage = self.stage_at(pass, step);
        let cap = self.machine.start.cap;
        let answer = self.apply(&Event { pass, step })?;
        Ok(told_by(cap, step, stage, answer))
    }

    /// Makes a call that goes to the main word by itself, and gives the number that it met. It takes no memory.
    pub fn own(&mut self, pass: u32, kind: Kind, amount: u64) -> Result<u64, NoMemory>
        requires in_range { pass < self.old.start.shape.passes }
        requires idle { IsIdle self.old pass }
        requires amount { MayOwn self.old pass kind amount }
        ensures taken { IfOk result (λ _. self.new ≡ with_moves self.old pass (own_moves self.old.start.cap kind amount)) }
        ensures met { IfOk result (λ reply. reply ≡ (state_in self.old).main) }
        ensures joins { IfOk result (λ reply. OwnCallJoins self.old self.new pass kind amount reply) }
        ensures idle { IfOk result (λ _. IsIdle self.new pass) }
        ensures spends { IfOk result (λ _. left_of self.new pass + amount ≡ left_of self.old pass) }
        ensures others { IfOk result (λ _. LeavesOthers self.old self.new pass) }
        ensures no_memory { IfErr result (λ _. self.new ≡ self.old) }
        ensures always { IsOk result }
    {
        self.log_is_legal();
        let read = Move::Load {
            purpose: Purpose::Read,
        };
        match kind {
            Kind::Read => self.own_step(pass, read),
            Kind::Add => self.own_addition(pass, amount),
            Kind::Sub => self.own_exchange(pass, Kind::Sub, amount),
        }
    }
}

impl Core {
    // A funnel that may be opened.
    fn open(
        alloc: Global,
        shape: Shape,
        opening: u64,
        cap: u64,
        allowances: &[u64],
    ) -> Result<Core, NoMemory>
        requires one_each { length allowances.now ≡ shape.passes }
        requires cap_below_limit { cap ≤ NO_CAP }
        requires opening_below_cap { opening ≤ cap }
        requires total_below_limit { opening + sum allowances.now < 2 ^ 63 }
        ensures { IfOk result (λ core. core ≡ newly_opened shape opening cap allowances.now) }
    {
        let rows = aggregators(alloc, shape)?;
        let standings = standings(alloc, allowances)?;
        let allowances = Allowances {
            items: Vec::from_slice(alloc, allowances)?,
        };
        let start = Start {
            shape,
            opening,
            cap,
            allowances,
        };
        let machine = Machine {
            start,
            main: opening,
            rows,
            standings,
        };
        Ok(Core {
            machine,
            log: EventLog::new(),
        })
    }

    // Where the pass stands as it looks or leaves.
    fn stage_at(&self, pass: u32, step: Move) -> Stage
        requires legal { IsLegal self.now }
        requires allowed { Allowed self.now.start (state_in self.now) (record { pass = pass; step = step }) }
        ensures { result ≡ stage_for self.now.start (state_in self.now) pass step }
    {
        match step {
            Move::Look { kind, level } => self.stage(pass, kind, level),
            Move::Leave { kind, level } => self.stage(pass, kind, level),
            _ => Stage::Out,
        }
    }

    // Where the pass stands at its aggregator of this kind and level.
    fn stage(&self, pass: u32, kind: Kind, level: u32) -> Stage
        requires { IsSlot self.now.start.shape pass kind level }
        ensures exact { result ≡ stage self.now.start (state_in self.now) kind level pass }
        ensures legal { IsLegal self.now }
    {
        let (place, member) = self.machine.seat(pass, kind, level);
        self.machine.rows[place].stage(member)
    }

    // Makes a call of one step, and gives the number that it met.
    fn own_step(&mut self, pass: u32, step: Move) -> Result<u64, NoMemory>
        requires { Allowed self.old.start (state_in self.old) (record { pass = pass; step = step }) }
        ensures taken { IfOk result (λ _. self.new ≡ with_move self.old pass step) }
        ensures met { IfOk result (λ reply. reply ≡ (state_in self.old).main) }
        ensures no_memory { IfErr result (λ _. self.new ≡ self.old) }
        ensures always { IsOk result }
    {
        let main = self.main();
        self.apply(&Event { pass, step })?;
        Ok(main)
    }

    // Adds as a call of its own, and gives the number that it met.
    fn own_addition(&mut self, pass: u32, amount: u64) -> Result<u64, NoMemory>
        requires in_range { pass < self.old.start.shape.passes }
        requires idle { IsIdle self.old pass }
        requires amount { MayOwn self.old pass Kind.Add amount }
        ensures taken { IfOk result (λ _. self.new ≡ with_moves self.old pass (own_moves self.old.start.cap Kind.Add amount)) }
        ensures met { IfOk result (λ reply. reply ≡ (state_in self.old).main) }
        ensures no_memory { IfErr result (λ _. self.new ≡ self.old) }
        ensures always { IsOk result }
    {
        if self.machine.start.cap == NO_CAP {
            self.own_step(pass, Move::Direct { amount })
        } else {
            self.own_exchange(pass, Kind::Add, amount)
        }
    }

    // Loads the main word and exchanges it, which nobody comes between.
    fn own_exchange(&mut self, pass: u32, kind: Kind, amount: u64) -> Result<u64, NoMemory>
        requires in_range { pass < self.old.start.shape.passes }
        requires idle { IsIdle self.old pass }
        requires change { IsChange kind }
        requires amount { MaySpend (state_in self.old) pass amount }
        ensures taken { IfOk result (λ _. self.new ≡ with_moves self.old pass (exchange_moves kind amount)) }
        ensures met { IfOk result (λ reply. reply ≡ (state_in self.old).main) }
        ensures no_memory { IfErr result (λ _. self.new ≡ self.old) }
        ensures always { IsOk result }
    {
        let load = Event {
            pass,
            step: Move::Load {
                purpose: Purpose::Try,
            },
        };
        let exchange = Event {
            pass,
            step: Move::Exchange { kind, amount },
        };
        let main = self.machine.main;
        self.machine.take(load);
        self.machine.take(exchange);
        self.log.push(load);
        self.log.push(exchange);
        Ok(main)
    }
}

// Whether a member at this stage has arrived.
fn has_come(stage: Stage) -> bool
    ensures { result ≡ has_come stage }
{
    !matches!(stage, Stage::Out | Stage::Saw(_) | Stage::Told(_))
}

// What a step tells, by where the pass stood, and by the step's answer.
fn told_by(cap: u64, step: Move, stage: Stage, answer: Answer) -> CoreStep
    requires { cap ≤ NO_CAP }
    ensures { result ≡ told_by cap step stage answer }
{
    match step {
        Move::Look { .. } => look_told(stage, answer),
        Move::Leave { kind, level: 1 } => CoreStep::Ready(reply_of(cap, kind, stage)),
        Move::Exchange { .. } => exchange_told(answer),
        _ => CoreStep::Going,
    }
}

// What a look tells.
fn look_told(stage: Stage, answer: Answer) -> CoreStep
    ensures { result ≡ look_told stage answer }
{
    match (stage, answer) {
        (Stage::Waiting(at), Answer::Word(done)) if done < at => {
            CoreStep::NotYet(Why::Behind { done, at })
        }
        _ => CoreStep::Going,
    }
}

// What an exchange tells.
fn exchange_told(answer: Answer) -> CoreStep
    ensures { result ≡ exchange_told answer }
{
    match answer {
        Answer::Lost { loaded, found } => CoreStep::NotYet(Why::Lost { loaded, found }),
        _ => CoreStep::Going,
    }
}
