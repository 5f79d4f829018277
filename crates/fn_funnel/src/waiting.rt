//! Additions and subtractions that wait for their reply.
ghost use Rattle.std.specs.Prelude.{◌≡◌, IfOk, IfErr, ◌≢◌};
ghost use Rattle.fn_model.specs.declared.Kind.TheVariants.{Add, Sub};
ghost use Rattle.fn_core.specs.Machine.{IsChange, MaySpend};
ghost use Rattle.fn_core.specs.Calls.{state_in, IsIdle};
ghost use Rattle.fn_core.specs.Entries.{IsAlone};
ghost use Rattle.fn_table.specs.Seen.{IsOf};
ghost use Rattle.fn_climb.specs.Course.{Holds, pending_of};
ghost use Rattle.fn_table.specs.Later.{IsLater};
ghost use Rattle.fn_table.specs.Called.{call_of, HasCalled, HasMadeNone};
ghost use Rattle.fn_direct.specs.Tries.{Tried};
ghost use Rattle.fn_funnel.specs.Waiting.{Waited, IsAnswered, IsStraight, Exchanges, is_one_step};
ghost use Rattle.fn_table.specs.Claims.{Made};

use crate::opening::Funnel;
use crossbeam_utils::Backoff;
use fn_climb::{Course, begin_on, poll_on};
use fn_core::{Blocked, CoreStep};
use fn_direct::{Lost, add_capped, add_direct, sub_direct};
use fn_layout::Kind;
use fn_model::NO_CAP;
use fn_table::{FunnelTable, Pass};
use std::sync::Wait;

/// The way that a call went.
#[derive(Clone, Copy, Debug, PartialEq, Eq)]
pub enum Way {
    /// Through the aggregators.
    Funnel,
    /// To the main word by itself, since at some level each row of the pass was blocked, the last of them by this load.
    Direct(Blocked),
}

/// What an addition or a subtraction met, and the way that it went.
#[derive(Clone, Copy, Debug, PartialEq, Eq)]
pub struct Added {
    pub before: u64,
    pub way: Way,
}

/// Adds, up to the cap, and gives the integer before. It may wait for the callers of its batch.
pub fn add<R: Wait>(rt: &R, funnel: &Funnel, mut pass: Pass, amount: u64) -> (Pass, Added)
    requires together { IsOf funnel.now pass }
    requires idle { IsIdle pass.seen pass.number }
    requires amount { MaySpend (state_in pass.seen) pass.number amount }
    ensures made { Made pass Add amount result.1.before result.0 }
    ensures way { Waited pass Add amount result.1 result.0 }
{
    let added = add_on(rt, funnel, &mut pass, amount);
    (pass, added)
}

/// Subtracts, down to zero, and gives the integer before. It may wait for the callers of its batch.
pub fn sub<R: Wait>(rt: &R, funnel: &Funnel, mut pass: Pass, amount: u64) -> (Pass, Added)
    requires together { IsOf funnel.now pass }
    requires idle { IsIdle pass.seen pass.number }
    requires amount { MaySpend (state_in pass.seen) pass.number amount }
    ensures made { Made pass Sub amount result.1.before result.0 }
    ensures way { Waited pass Sub amount result.1 result.0 }
{
    let added = sub_on(rt, funnel, &mut pass, amount);
    (pass, added)
}

/// Adds as `add` does, by a pass that stays where it is.
pub fn add_on<R: Wait>(rt: &R, funnel: &Funnel, pass: &mut Pass, amount: u64) -> Added
    requires together { IsOf funnel.now pass.old }
    requires idle { IsIdle pass.old.seen pass.old.number }
    requires amount { MaySpend (state_in pass.old.seen) pass.old.number amount }
    ensures made { Made pass.old Add amount result.before pass.new }
    ensures way { Waited pass.old Add amount result pass.new }
{
    call(rt, funnel.table(), pass, Kind::Add, amount)
}

/// Subtracts as `sub` does, by a pass that stays where it is.
pub fn sub_on<R: Wait>(rt: &R, funnel: &Funnel, pass: &mut Pass, amount: u64) -> Added
    requires together { IsOf funnel.now pass.old }
    requires idle { IsIdle pass.old.seen pass.old.number }
    requires amount { MaySpend (state_in pass.old.seen) pass.old.number amount }
    ensures made { Made pass.old Sub amount result.before pass.new }
    ensures way { Waited pass.old Sub amount result pass.new }
{
    call(rt, funnel.table(), pass, Kind::Sub, amount)
}

// Makes a call through the funnel, or past it where it finds no row.
fn call<R: Wait>(rt: &R, table: &FunnelTable, pass: &mut Pass, kind: Kind, amount: u64) -> Added
    requires together { IsOf table.now pass.old }
    requires idle { IsIdle pass.old.seen pass.old.number }
    requires change { IsChange kind }
    requires amount { MaySpend (state_in pass.old.seen) pass.old.number amount }
    ensures made { Made pass.old kind amount result.before pass.new }
    ensures way { Waited pass.old kind amount result pass.new }
{
    let _in_range = pass.number();
    match begin_on(table, pass, kind, amount) {
        Ok(course) => {
            let before = await_reply(rt, table, pass, course);
            let way = Way::Funnel;
            Added { before, way }
        }
        Err(blocked) => {
            let before = go_straight(rt, table, pass, kind, amount);
            let way = Way::Direct(blocked);
            Added { before, way }
        }
    }
}

// Polls a call until it has its reply.
#[inline(always)]
fn await_reply<R: Wait>(rt: &R, table: &FunnelTable, pass: &mut Pass, course: Course) -> u64
    requires together { IsOf table.now pass.old }
    requires holds { Holds pass.old course }
    ensures { IsAnswered (pending_of pass.old course) result pass.new }
{
    let backoff = Backoff::new();
    let mut course = course;
    for _ in rt.forever() {
        match poll_on(table, pass, &mut course) {
            CoreStep::Ready(reply) => return reply,
            CoreStep::NotYet(_) => {}
            CoreStep::Going => unreachable!(),
        }
        backoff.snooze();
    }
    unreachable!()
}

/// Makes a call on the main word by itself, past the aggregators, and gives the integer before. It may wait where that takes an exchange.
pub fn go_straight<R: Wait>(
    rt: &R,
    table: &FunnelTable,
    pass: &mut Pass,
    kind: Kind,
    amount: u64,
) -> u64
    requires together { IsOf table.now pass.old }
    requires idle { IsIdle pass.old.seen pass.old.number }
    requires change { IsChange kind }
    requires amount { MaySpend (state_in pass.old.seen) pass.old.number amount }
    ensures later { IsLater pass.old pass.new }
    ensures way { IsStraight (is_one_step kind pass.old.seen.start.cap) pass.old kind amount result pass.new }
    ensures called { HasCalled pass.old kind amount result pass.new }
    ensures alone { IsAlone pass.new.seen (call_of pass.old kind amount) }
{
    if kind == Kind::Add && table.cap() == NO_CAP {
        add_direct(table, pass, amount)
    } else {
        exchange(rt, table, pass, kind, amount)
    }
}

// Makes a call by loads and exchanges of the main word, up to the first exchange that wins.
fn exchange<R: Wait>(rt: &R, table: &FunnelTable, pass: &mut Pass, kind: Kind, amount: u64) -> u64
    requires together { IsOf table.now pass.old }
    requires idle { IsIdle pass.old.seen pass.old.number }
    requires change { IsChange kind }
    requires amount { MaySpend (state_in pass.old.seen) pass.old.number amount }
    ensures later { IsLater pass.old pass.new }
    ensures way { Exchanges pass.old kind amount result pass.new }
    ensures called { HasCalled pass.old kind amount result pass.new }
    ensures alone { IsAlone pass.new.seen (call_of pass.old kind amount) }
{
    let backoff = Backoff::new();
    let _in_range = pass.number();
    for _ in rt.forever() {
        match try_exchange(table, pass, kind, amount) {
            Ok(before) => return before,
            Err(_) => backoff.snooze(),
        }
    }
    unreachable!()
}

// Loads the main word, and exchanges it for what the call makes of it.
fn try_exchange(table: &FunnelTable, pass: &mut Pass, kind: Kind, amount: u64) -> Result<u64, Lost>
    requires together { IsOf table.now pass.old }
    requires idle { IsIdle pass.old.seen pass.old.number }
    requires change { IsChange kind }
    requires amount { MaySpend (state_in pass.old.seen) pass.old.number amount }
    ensures called { IfOk result (λ reply. Tried pass.old kind amount reply reply pass.new × HasCalled pass.old kind amount reply pass.new) }
    ensures alone { IfOk result (λ _. IsAlone pass.new.seen (call_of pass.old kind amount)) }
    ensures lost { IfErr result (λ lost. Tried pass.old kind amount lost.loaded lost.found pass.new × (lost.found ≢ lost.loaded) × HasMadeNone pass.old pass.new) }
{
    match kind {
        Kind::Add => add_capped(table, pass, amount),
        Kind::Sub => sub_direct(table, pass, amount),
        Kind::Read => unreachable!(),
    }
}
