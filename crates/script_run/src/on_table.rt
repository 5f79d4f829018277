//! Orders to the callers of a table. Each caller has a slot, from which it is taken while it does an order.
ghost use Rattle.std.specs.Prelude.{◌≡◌, ◌≤◌, ◌<◌, None, Some, IfOk, IfErr, slice_get, slice_set, length, true, false};
ghost use Rattle.fn_core.specs.Machine.{IsChange, no_cap};
ghost use Rattle.fn_table.specs.Seen.{IsNoteOf, IsOf};
ghost use Rattle.script_text.specs.Order.{amount};
ghost use Rattle.script_text.specs.Sound.{HasAmount, HasPasses};
ghost use Rattle.script_run.specs.Trial.{StepDone};
ghost use Rattle.script_run.specs.Slots.{AllStand, AreFull, Gives, HasLeft, Noted, TookIn, beginning_of, is_resting_slot, present};

use crate::lines::LineAnswer;
use crate::play::PlayFault;
use crate::trial::Caller;
use fn_climb::{Begun, Pending, Step, Turn, begin};
use fn_direct::{Lost, add_direct, meet, note, read, sub_direct};
use fn_model::Kind;
use fn_table::{FunnelTable, Note, Pass};
use script_text::{Order, ScriptLine};

// Takes the caller of this number from its slot, which has to make no call.
fn take_idle(callers: &mut [Option<Caller>], at: u64, number: u32) -> Result<Pass, PlayFault>
    requires { number < length callers.old }
    ensures taken { IfOk result (λ pass. (slice_get callers.old number ≡ Some (Some (Caller.Idle pass))) × (callers.new ≡ slice_set callers.old number None)) }
    ensures busy { IfErr result (λ fault. (is_resting_slot (slice_get callers.old number) ≡ false) × (fault ≡ PlayFault.Busy at number) × (callers.new ≡ callers.old)) }
{
    let slot = &mut callers[number as usize];
    match slot.take() {
        Some(Caller::Idle(pass)) => Ok(pass),
        Some(Caller::Pending(pending)) => {
            *slot = Some(Caller::Pending(pending));
            Err(PlayFault::Busy { at, pass: number })
        }
        None => Err(PlayFault::Busy { at, pass: number }),
    }
}

// Takes the caller of this number from its slot, which has to be in mid-call.
fn take_pending(callers: &mut [Option<Caller>], at: u64, number: u32) -> Result<Pending, PlayFault>
    requires inside { number < length callers.old }
    requires full { AreFull callers.old }
    ensures taken { IfOk result (λ pending. (slice_get callers.old number ≡ Some (Some (Caller.Pending pending))) × (callers.new ≡ slice_set callers.old number None)) }
    ensures idle { IfErr result (λ fault. (is_resting_slot (slice_get callers.old number) ≡ true) × (fault ≡ PlayFault.NothingPending at number) × (callers.new ≡ callers.old)) }
{
    let slot = &mut callers[number as usize];
    match slot.take() {
        Some(Caller::Pending(pending)) => Ok(pending),
        Some(Caller::Idle(pass)) => {
            *slot = Some(Caller::Idle(pass));
            Err(PlayFault::NothingPending { at, pass: number })
        }
        None => Err(PlayFault::NothingPending { at, pass: number }),
    }
}

// Begins a call.
fn begin_call(
    table: &FunnelTable,
    callers: &mut [Option<Caller>],
    at: u64,
    number: u32,
    kind: Kind,
    amount: u64,
) -> Result<LineAnswer, PlayFault>
    requires inside { number < length callers.old }
    requires full { AreFull callers.old }
    requires stand { AllStand table.now (present callers.old) }
    requires change { IsChange kind }
    requires some { 1 ≤ amount }
    requires left { HasLeft (present callers.old) number amount }
    ensures { Gives callers.old callers.new at number (beginning_of kind amount) result }
{
    let pass = take_idle(callers, at, number)?;
    match begin(table, pass, kind, amount) {
        Begun::Waiting(pending) => {
            callers[number as usize] = Some(Caller::Pending(pending));
            Ok(LineAnswer::Waits)
        }
        Begun::NoRow(pass, blocked) => {
            callers[number as usize] = Some(Caller::Idle(pass));
            Ok(LineAnswer::NoRow(blocked))
        }
    }
}

// Reads the main word.
fn read_main(
    table: &FunnelTable,
    callers: &mut [Option<Caller>],
    at: u64,
    number: u32,
) -> Result<LineAnswer, PlayFault>
    requires inside { number < length callers.old }
    requires full { AreFull callers.old }
    requires stand { AllStand table.now (present callers.old) }
    ensures { Gives callers.old callers.new at number Order.Read result }
{
    let mut pass = take_idle(callers, at, number)?;
    let reply = read(table, &mut pass);
    callers[number as usize] = Some(Caller::Idle(pass));
    Ok(LineAnswer::Reply(reply))
}

// Adds to the main word.
fn add(
    table: &FunnelTable,
    callers: &mut [Option<Caller>],
    at: u64,
    number: u32,
    amount: u64,
) -> Result<LineAnswer, PlayFault>
    requires inside { number < length callers.old }
    requires full { AreFull callers.old }
    requires stand { AllStand table.now (present callers.old) }
    requires no_cap { table.now.start.cap ≡ no_cap }
    requires some { 1 ≤ amount }
    requires left { HasLeft (present callers.old) number amount }
    ensures { Gives callers.old callers.new at number (Order.Direct amount) result }
{
    let mut pass = take_idle(callers, at, number)?;
    let reply = add_direct(table, &mut pass, amount);
    callers[number as usize] = Some(Caller::Idle(pass));
    Ok(LineAnswer::Reply(reply))
}

// Tries to subtract from the main word.
fn subtract(
    table: &FunnelTable,
    callers: &mut [Option<Caller>],
    at: u64,
    number: u32,
    amount: u64,
) -> Result<LineAnswer, PlayFault>
    requires inside { number < length callers.old }
    requires full { AreFull callers.old }
    requires stand { AllStand table.now (present callers.old) }
    requires some { 1 ≤ amount }
    requires left { HasLeft (present callers.old) number amount }
    ensures { Gives callers.old callers.new at number (Order.SubDirect amount) result }
{
    let mut pass = take_idle(callers, at, number)?;
    let answer = sub_direct(table, &mut pass, amount);
    callers[number as usize] = Some(Caller::Idle(pass));
    match answer {
        Ok(reply) => Ok(LineAnswer::Reply(reply)),
        Err(Lost { loaded, found }) => Ok(LineAnswer::Lost { loaded, found }),
    }
}

// A caller after one step of its call, and what that was answered.
fn stepped(table: &FunnelTable, pending: Pending) -> (Caller, LineAnswer)
    requires { IsOf table.now pending.pass }
    ensures { StepDone pending Order.Step result.1 result.0 }
{
    match pending.step(table) {
        Step::Going(pending) => (Caller::Pending(pending), LineAnswer::Going),
        Step::Ready(pass, reply) => (Caller::Idle(pass), LineAnswer::Reply(reply)),
        Step::NotYet(pending, why) => (Caller::Pending(pending), LineAnswer::NotYet(why)),
    }
}

// .. and after a poll.
fn polled(table: &FunnelTable, pending: Pending) -> (Caller, LineAnswer)
    requires { IsOf table.now pending.pass }
    ensures { StepDone pending Order.Poll result.1 result.0 }
{
    match pending.poll(table) {
        Turn::Ready(pass, reply) => (Caller::Idle(pass), LineAnswer::Reply(reply)),
        Turn::NotYet(pending, why) => (Caller::Pending(pending), LineAnswer::NotYet(why)),
    }
}

// Takes one step of a call.
fn step(
    table: &FunnelTable,
    callers: &mut [Option<Caller>],
    at: u64,
    number: u32,
) -> Result<LineAnswer, PlayFault>
    requires inside { number < length callers.old }
    requires full { AreFull callers.old }
    requires stand { AllStand table.now (present callers.old) }
    ensures { Gives callers.old callers.new at number Order.Step result }
{
    let pending = take_pending(callers, at, number)?;
    let (caller, answer) = stepped(table, pending);
    callers[number as usize] = Some(caller);
    Ok(answer)
}

// Takes the steps of a call up to the first that doesn't leave it going.
fn poll(
    table: &FunnelTable,
    callers: &mut [Option<Caller>],
    at: u64,
    number: u32,
) -> Result<LineAnswer, PlayFault>
    requires inside { number < length callers.old }
    requires full { AreFull callers.old }
    requires stand { AllStand table.now (present callers.old) }
    ensures { Gives callers.old callers.new at number Order.Poll result }
{
    let pending = take_pending(callers, at, number)?;
    let (caller, answer) = polled(table, pending);
    callers[number as usize] = Some(caller);
    Ok(answer)
}

// Wants a caller that makes no call.
fn want_idle(callers: &[Option<Caller>], at: u64, number: u32) -> Result<(), PlayFault>
    requires { number < length callers.now }
    ensures idle { IfOk result (λ _. is_resting_slot (slice_get callers.now number) ≡ true) }
    ensures busy { IfErr result (λ fault. (is_resting_slot (slice_get callers.now number) ≡ false) × (fault ≡ PlayFault.Busy at number)) }
{
    match &callers[number as usize] {
        Some(Caller::Idle(_)) => Ok(()),
        _ => Err(PlayFault::Busy { at, pass: number }),
    }
}

// Takes a note of what a caller has seen, which has to make no call.
fn take_note(
    table: &FunnelTable,
    callers: &mut [Option<Caller>],
    at: u64,
    number: u32,
) -> Result<Note, PlayFault>
    requires inside { number < length callers.old }
    requires full { AreFull callers.old }
    requires stand { AllStand table.now (present callers.old) }
    ensures noted { IfOk result (λ note. Noted callers.old number note callers.new) }
    ensures busy { IfErr result (λ fault. (is_resting_slot (slice_get callers.old number) ≡ false) × (fault ≡ PlayFault.Busy at number) × (callers.new ≡ callers.old)) }
{
    let mut pass = take_idle(callers, at, number)?;
    let note = note(table, &mut pass);
    callers[number as usize] = Some(Caller::Idle(pass));
    Ok(note)
}

// Lets a caller take in a note.
fn take_in(
    table: &FunnelTable,
    callers: &mut [Option<Caller>],
    at: u64,
    number: u32,
    note: Note,
) -> Result<(), PlayFault>
    requires inside { number < length callers.old }
    requires full { AreFull callers.old }
    requires stand { AllStand table.now (present callers.old) }
    requires note { IsNoteOf table.now note }
    ensures taken { IfOk result (λ _. TookIn callers.old number note callers.new) }
    ensures busy { IfErr result (λ fault. (is_resting_slot (slice_get callers.old number) ≡ false) × (fault ≡ PlayFault.Busy at number) × (callers.new ≡ callers.old)) }
{
    let mut pass = take_idle(callers, at, number)?;
    meet(table, &mut pass, note);
    callers[number as usize] = Some(Caller::Idle(pass));
    Ok(())
}

// Lets a caller meet another, or itself.
fn meet_other(
    table: &FunnelTable,
    callers: &mut [Option<Caller>],
    at: u64,
    number: u32,
    other: u32,
) -> Result<LineAnswer, PlayFault>
    requires inside { number < length callers.old }
    requires other { other < length callers.old }
    requires full { AreFull callers.old }
    requires stand { AllStand table.now (present callers.old) }
    ensures { Gives callers.old callers.new at number (Order.Meet other) result }
{
    want_idle(callers, at, number)?;
    let note = take_note(table, callers, at, other)?;
    take_in(table, callers, at, number, note)?;
    Ok(LineAnswer::Met)
}

/// Does a line.
pub fn do_line(
    table: &FunnelTable,
    callers: &mut [Option<Caller>],
    line: ScriptLine,
) -> Result<LineAnswer, PlayFault>
    requires passes { HasPasses (length callers.old) line }
    requires amount { HasAmount line.order }
    requires full { AreFull callers.old }
    requires stand { AllStand table.now (present callers.old) }
    requires no_cap { table.now.start.cap ≡ no_cap }
    requires left { HasLeft (present callers.old) line.pass (amount line.order) }
    ensures { Gives callers.old callers.new line.at line.pass line.order result }
{
    let ScriptLine { at, pass, order } = line;
    match order {
        Order::Add(amount) => begin_call(table, callers, at, pass, Kind::Add, amount),
        Order::Sub(amount) => begin_call(table, callers, at, pass, Kind::Sub, amount),
        Order::Direct(amount) => add(table, callers, at, pass, amount),
        Order::SubDirect(amount) => subtract(table, callers, at, pass, amount),
        Order::Read => read_main(table, callers, at, pass),
        Order::Step => step(table, callers, at, pass),
        Order::Poll => poll(table, callers, at, pass),
        Order::Meet(other) => meet_other(table, callers, at, pass, other),
    }
}
