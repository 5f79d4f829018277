//! How a call begins: it finds a row at each level, and arrives at its leaf.

ghost use Rattle.std.specs.Prelude.{◌≡◌, ◌≢◌, ◌-◌, ◌+◌, ◌*◌, ◌<◌, ◌≤◌, ◌++◌, List, length, IfOk, IfErr, ℕ, suc, None, Some, if◌then◌else◌, option_map};
ghost use Rattle.fn_model.specs.declared.Kind.{Kind};
ghost use Rattle.fn_layout.specs.Tree.{IsLevel, aggregator};
ghost use Rattle.fn_layout.specs.Words.{IsSlot, Announcement, aggregator_number};
ghost use Rattle.fn_core.specs.declared.Event.{Event};
ghost use Rattle.fn_core.specs.declared.answer.CoreBegun.TheVariants.{Waiting, NoRow};
ghost use Rattle.fn_core.specs.declared.answer.Blocked.{Blocked};
ghost use Rattle.fn_core.specs.State.{State, opened, next_call};
ghost use Rattle.fn_core.specs.Machine.{IsChange, MaySpend, Legal, run};
ghost use Rattle.fn_core.specs.Words.{word};
ghost use Rattle.fn_core.specs.Order.{first_below, first_free};
ghost use Rattle.fn_core.specs.Begin.{is_other, is_open, row_end, blocker, row_scans, level_scans, has_open, scans, first_steps, begin_moves, blocked_by, blocked_at, refusal, begun, events_of, IsBlocked, WaitsAtLeaf, spent};
ghost use Rattle.fn_core.specs.Calls.{state_in, with_moves, IsIdle, LeavesOthers};

use crate::answer::{Blocked, CoreBegun, NoMemory};
use crate::funnel::Core;
use crate::machine::Machine;
use crate::{Event, Move};
use fn_layout::Kind;
use fn_rows::lets;
use std::alloc::Global;

impl Core {
    /// Begins a call: it waits at its leaf, or at some level each row of the pass is blocked; a funnel stays as it is where memory runs out.
    pub fn begin(&mut self, pass: u32, kind: Kind, amount: u64) -> Result<CoreBegun, NoMemory>
        requires in_range { pass < self.old.start.shape.passes }
        requires idle { IsIdle self.old pass }
        requires change { IsChange kind }
        requires amount { MaySpend (state_in self.old) pass amount }
        ensures taken { IfOk result (λ _. self.new ≡ with_moves self.old pass (begin_moves self.old.start (state_in self.old) pass kind amount)) }
        ensures told { IfOk result (λ told. told ≡ begun self.old.start (state_in self.old) pass kind) }
        ensures waits { IfOk result (λ told. told ≡ Waiting → WaitsAtLeaf self.new pass kind) }
        ensures made { IfOk result (λ told. told ≡ Waiting → ((state_in self.new).callers pass).last ≡ next_call (state_in self.old) pass kind amount × ((state_in self.new).callers pass).made ≡ suc ((state_in self.old).callers pass).made) }
        ensures spends { IfOk result (λ told. ((state_in self.new).callers pass).left + spent told amount ≡ ((state_in self.old).callers pass).left) }
        ensures refused { IfOk result (λ told. (at : Blocked) → told ≡ NoRow at → (state_in self.new).callers pass ≡ (state_in self.old).callers pass) }
        ensures blocked { IfOk result (λ told. (at : Blocked) → told ≡ NoRow at → IsBlocked self.old.start (state_in self.old) pass kind (begin_moves self.old.start (state_in self.old) pass kind amount) at) }
        ensures others { IfOk result (λ _. LeavesOthers self.old self.new pass) }
        ensures chosen { IfOk result (λ told. told ≡ Waiting → (level : ℕ) → IsLevel self.old.start.shape level → first_free self.new.start (state_in self.new) kind level pass ≡ first_below (is_open self.old.start (state_in self.old) kind level pass) self.old.start.shape.rows) }
        ensures few { IfOk result (λ _. length (begin_moves self.old.start (state_in self.old) pass kind amount) ≤ self.old.start.shape.levels * (self.old.start.shape.passes * self.old.start.shape.rows + 3)) }
        ensures no_memory { IfErr result (λ _. self.new ≡ self.old) }
    {
        let alloc = *self.machine.rows.allocator();
        let (events, told) = self.machine.beginning(alloc, pass, kind, amount)?;
        self.log.extend(&events);
        self.machine.take_all(&events);
        Ok(told)
    }
}

impl Machine {
    ghost use Rattle.fn_core.specs.Fields.{Mirrors, Stands, HasTaken};

    // Takes some steps, one after the other.
    fn take_all(&mut self, events: &[Event])
        requires { (log : List Event) × Stands self.old log × Legal self.old.start events.now (run self.old.start log (opened self.old.start)) }
        ensures start { self.new.start ≡ self.old.start }
        ensures stands { (log : List Event) → Stands self.old log → Legal self.old.start events.now (run self.old.start log (opened self.old.start)) → Stands self.new (log ++ events.now) }
    {
        for event in events {
            self.take(*event);
        }
    }

    // The steps by which a call begins, and what its beginning answers.
    fn beginning(
        &self,
        alloc: Global,
        pass: u32,
        kind: Kind,
        amount: u64,
    ) -> Result<(Vec<Event>, CoreBegun), NoMemory>
        requires in_range { pass < self.now.start.shape.passes }
        requires change { IsChange kind }
        requires reached { HasTaken self.now }
        ensures steps { IfOk result (λ found. (s : State) → Mirrors self.now s → found.0.items ≡ events_of pass (begin_moves self.now.start s pass kind amount)) }
        ensures told { IfOk result (λ found. (s : State) → Mirrors self.now s → found.1 ≡ begun self.now.start s pass kind) }
    {
        let mut events = Vec::new(alloc);
        match self.try_levels(&mut events, pass, kind)? {
            Some(blocked) => Ok((events, CoreBegun::NoRow(blocked))),
            None => {
                push_first_steps(&mut events, pass, kind, amount)?;
                Ok((events, CoreBegun::Waiting))
            }
        }
    }

    // Tries each level, up to the first without an open row, and gives the load that refuses the call.
    fn try_levels(
        &self,
        events: &mut Vec<Event>,
        pass: u32,
        kind: Kind,
    ) -> Result<Option<Blocked>, NoMemory>
        requires in_range { pass < self.now.start.shape.passes }
        requires change { IsChange kind }
        requires reached { HasTaken self.now }
        ensures steps { IfOk result (λ _. (s : State) → Mirrors self.now s → events.new.items ≡ events.old.items ++ events_of pass (scans self.now.start s kind pass)) }
        ensures told { IfOk result (λ told. (s : State) → Mirrors self.now s → told ≡ refusal self.now.start s kind pass) }
    {
        for level in 1..self.start.shape.levels() + 1 {
            let blocked = self.try_level(events, pass, kind, level)?;
            if blocked.is_some() {
                return Ok(blocked);
            }
        }
        Ok(None)
    }

    // Tries the rows of a level, up to the first open one, and where there is none gives the last load that blocked one.
    fn try_level(
        &self,
        events: &mut Vec<Event>,
        pass: u32,
        kind: Kind,
        level: u32,
    ) -> Result<Option<Blocked>, NoMemory>
        requires slot { IsSlot self.now.start.shape pass kind level }
        requires reached { HasTaken self.now }
        ensures steps { IfOk result (λ _. (s : State) → Mirrors self.now s → events.new.items ≡ events.old.items ++ events_of pass (level_scans self.now.start s kind pass level)) }
        ensures told { IfOk result (λ told. (s : State) → Mirrors self.now s → told ≡ (if has_open self.now.start s kind pass level then None else Some (blocked_at self.now.start s kind pass level))) }
    {
        let mut last = None;
        for row in 0..self.start.shape.rows() {
            last = self.try_row(events, pass, kind, level, row)?;
            if last.is_none() {
                return Ok(None);
            }
        }
        Ok(last)
    }

    // Tries a row, which is taken without a scan where it was never filled, and gives the load that blocks it.
    fn try_row(
        &self,
        events: &mut Vec<Event>,
        pass: u32,
        kind: Kind,
        level: u32,
        row: u32,
    ) -> Result<Option<Blocked>, NoMemory>
        requires slot { IsSlot self.now.start.shape pass kind level }
        requires in_range { row < self.now.start.shape.rows }
        requires reached { HasTaken self.now }
        ensures steps { IfOk result (λ _. (s : State) → Mirrors self.now s → events.new.items ≡ events.old.items ++ events_of pass (row_scans self.now.start s kind level pass row)) }
        ensures told { IfOk result (λ told. (s : State) → Mirrors self.now s → told ≡ option_map (blocked_by self.now.start s kind level row) (blocker self.now.start s kind level pass (row_end self.now.start s kind level pass row))) }
    {
        let end = self.row_end(pass, kind, level, row);
        if end == 0 {
            return Ok(None);
        }
        let index = self.start.shape.aggregator_of(pass, level);
        let (place, _) = self.seat(pass, kind, level);
        for other in 0..self.start.shape.passes() {
            if !self.is_other(level, index, pass, other) {
                continue;
            }
            let step = Move::Scan { kind, level, other };
            events.push(Event { pass, step })?;
            let word = self.announced(place, other, kind, level);
            if !lets(word, end) {
                return Ok(Some(Blocked {
                    level,
                    row,
                    pass: other,
                    announced: word - 1,
                }));
            }
        }
        Ok(None)
    }

    // Whether a pass is another one of the pass's aggregator, which has this index.
    #[inline(always)]
    fn is_other(&self, level: u32, index: u32, pass: u32, other: u32) -> bool
        requires level { IsLevel self.now.start.shape level }
        requires index { index ≡ aggregator self.now.start.shape pass level }
        requires in_range { other < self.now.start.shape.passes }
        ensures { result ≡ is_other self.now.start.shape level pass other }
    {
        self.start.shape.aggregator_of(other, level) == index && other != pass
    }

    // The end of the batch that the pass's row held last, or 0.
    fn row_end(&self, pass: u32, kind: Kind, level: u32, row: u32) -> u64
        requires slot { IsSlot self.now.start.shape pass kind level }
        requires in_range { row < self.now.start.shape.rows }
        requires reached { HasTaken self.now }
        ensures { (s : State) → Mirrors self.now s → result ≡ row_end self.now.start s kind level pass row }
    {
        let (place, _) = self.seat(pass, kind, level);
        self.rows[place].end(self.local_row(pass, level, row))
    }

    // The pass's announcement at its aggregator, which stands at this place: the number that it has announced plus 1, or 0.
    #[inline(always)]
    fn announced(&self, place: usize, pass: u32, kind: Kind, level: u32) -> u64
        requires slot { IsSlot self.now.start.shape pass kind level }
        requires place { place ≡ aggregator_number self.now.start.shape kind level (aggregator self.now.start.shape pass level) }
        requires reached { HasTaken self.now }
        ensures { (s : State) → Mirrors self.now s → result ≡ word self.now.start s (Announcement pass kind level) }
    {
        let member = self.start.shape.member(pass, level);
        self.rows[place].announced(member)
    }
}

// Appends a call's first three steps at its leaf.
fn push_first_steps(
    events: &mut Vec<Event>,
    pass: u32,
    kind: Kind,
    amount: u64,
) -> Result<(), NoMemory>
    ensures { IfOk result (λ _. events.new.items ≡ events.old.items ++ events_of pass (first_steps kind amount)) }
{
    let level = 1;
    let see = Move::See { kind, level };
    let announce = Move::Announce { kind, level };
    let arrive = Move::Arrive {
        kind,
        level,
        weight: amount,
    };
    events.push(Event { pass, step: see })?;
    events.push(Event {
        pass,
        step: announce,
    })?;
    events.push(Event { pass, step: arrive })?;
    Ok(())
}
