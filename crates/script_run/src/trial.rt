//! Running a script on the table.
ghost use Rattle.std.specs.Prelude.{◌≡◌, ◌≢◌, ◌∷◌, ◌<◌, ◌⊎◌, [], List, Some, IfOk, IfErr, OnOk, map, length};
ghost use Rattle.std.specs.List.{All};
ghost use Rattle.fn_core.specs.Machine.{no_cap};
ghost use Rattle.script_text.specs.Sound.{HasAmount, HasPasses, IsSound};
ghost use Rattle.script_text.specs.declared.scripts.ScriptLine.{ScriptLine};
ghost use Rattle.script_run.specs.Play.{fault_by, least_busy, opened_core};
ghost use Rattle.script_run.specs.Answered.{TellsScript};
ghost use Rattle.script_run.specs.Trial.{AreHandedBack, TellsTrial, first_callers, rests_in};
ghost use Rattle.script_run.specs.Slots.{AllStand, AreFull, HaveLeft, StopsAt, TookLines, idle_in, idle_passes, present};

use crate::lines::{push_line, push_value};
use crate::on_table::do_line;
use crate::play::PlayFault;
use fn_climb::Pending;
use fn_core::NoMemory;
use fn_table::{Book, FunnelTable, Pass};
use script_text::{Script, ScriptLine, allowances};
use std::alloc::Global;

/// A caller of a table: it makes no call, or its call is underway.
#[derive(Drop)]
pub enum Caller {
    Idle(Pass),
    Pending(Pending),
}

/// Runs a script on the table, one line after the other, and gives the text of its answers and the table's book. An Err hands back all callers of the table, in order of number; for want of memory it hands back none.
pub fn trial_script(
    alloc: Global,
    script: &Script,
) -> Result<(Vec<u8>, Book), (PlayFault, Vec<Caller>)>
    requires { IsSound script.now }
    ensures told { IfOk result (λ r. TellsScript script.now r.0.items) }
    ensures way { IfOk result (λ r. TellsTrial script.now r.0.items r.1) }
    ensures refused { IfErr result (λ r. AreHandedBack script.now r.0 r.1.items) }
{
    match open(alloc, script) {
        Ok((table, callers)) => run_script(alloc, script, table, callers),
        Err(_) => Err((PlayFault::NoMemory, Vec::new(alloc))),
    }
}

// The table of a script, and its callers in their slots.
fn open(alloc: Global, script: &Script) -> Result<(FunnelTable, Vec<Option<Caller>>), NoMemory>
    requires { IsSound script.now }
    ensures start { IfOk result (λ r. r.0.start ≡ (opened_core script.now).start) }
    ensures callers { IfOk result (λ r. r.1.items ≡ map (λ c. Some c) (first_callers r.0)) }
{
    let Ok(allowances) = allowances(alloc, script) else {
        return Err(NoMemory);
    };
    match FunnelTable::open(alloc, script.shape, script.opening, &allowances) {
        Ok((table, passes)) => Ok((table, seated(alloc, passes)?)),
        Err(_) => Err(NoMemory),
    }
}

// Passes that make no call, in their slots.
fn seated(alloc: Global, passes: Vec<Pass>) -> Result<Vec<Option<Caller>>, NoMemory>
    ensures { IfOk result (λ r. r.items ≡ map (λ p. Some (Caller.Idle p)) passes.items) }
{
    let mut callers = Vec::new(alloc);
    for pass in passes {
        callers.push(Some(Caller::Idle(pass)))?;
    }
    Ok(callers)
}

// Does the lines of a script, and ends the table.
fn run_script(
    alloc: Global,
    script: &Script,
    table: FunnelTable,
    callers: Vec<Option<Caller>>,
) -> Result<(Vec<u8>, Book), (PlayFault, Vec<Caller>)>
    requires sound { IsSound script.now }
    requires start { table.start ≡ (opened_core script.now).start }
    requires callers { callers.items ≡ map (λ c. Some c) (first_callers table) }
    ensures told { IfOk result (λ r. TellsTrial script.now r.0.items r.1) }
    ensures refused { IfErr result (λ r. AreHandedBack script.now r.0 r.1.items) }
{
    let mut callers = callers;
    let mut text = Vec::new(alloc);
    let lines = &script.lines;
    match do_lines(&table, &mut callers, &mut text, &lines.items) {
        Ok(()) => finish(alloc, script, table, callers, text),
        Err(fault) => Err(hand_back(alloc, fault, callers)),
    }
}

// Does lines one after the other, and appends what they are answered.
fn do_lines(
    table: &FunnelTable,
    callers: &mut [Option<Caller>],
    text: &mut Vec<u8>,
    lines: &[ScriptLine],
) -> Result<(), PlayFault>
    requires passes { All (HasPasses (length callers.old)) lines.now }
    requires amounts { All (λ line. HasAmount line.order) lines.now }
    requires full { AreFull callers.old }
    requires stand { AllStand table.now (present callers.old) }
    requires no_cap { table.now.start.cap ≡ no_cap }
    requires left { HaveLeft (present callers.old) lines.now }
    ensures done { OnOk result (TookLines (present callers.old) lines.now text.old.items (present callers.new) text.new.items) }
    ensures refused { IfErr result (λ fault. (fault ≡ PlayFault.NoMemory) ⊎ StopsAt (present callers.old) lines.now fault (present callers.new)) }
    ensures full { AreFull callers.new }
    ensures stand { AllStand table.now (present callers.new) }
{
    for line in lines {
        take_line(table, callers, text, *line)?;
    }
    Ok(())
}

// Does a line, and appends what it is answered.
fn take_line(
    table: &FunnelTable,
    callers: &mut [Option<Caller>],
    text: &mut Vec<u8>,
    line: ScriptLine,
) -> Result<(), PlayFault>
    requires passes { HasPasses (length callers.old) line }
    requires amount { HasAmount line.order }
    requires full { AreFull callers.old }
    requires stand { AllStand table.now (present callers.old) }
    requires no_cap { table.now.start.cap ≡ no_cap }
    requires left { (rest : List ScriptLine) × HaveLeft (present callers.old) (line ∷ rest) }
    ensures done { OnOk result (TookLines (present callers.old) (line ∷ []) text.old.items (present callers.new) text.new.items) }
    ensures refused { IfErr result (λ fault. (fault ≡ PlayFault.NoMemory) ⊎ ((callers.new ≡ callers.old) × (fault_by (rests_in (present callers.old)) line.at line.pass line.order ≡ Some fault))) }
    ensures full { AreFull callers.new }
    ensures stand { AllStand table.now (present callers.new) }
{
    let answer = do_line(table, callers, line)?;
    match push_line(text, answer) {
        Ok(()) => Ok(()),
        Err(_) => Err(PlayFault::NoMemory),
    }
}

// Ends a table whose callers have done all lines.
fn finish(
    alloc: Global,
    script: &Script,
    table: FunnelTable,
    callers: Vec<Option<Caller>>,
    text: Vec<u8>,
) -> Result<(Vec<u8>, Book), (PlayFault, Vec<Caller>)>
    requires sound { IsSound script.now }
    requires start { table.start ≡ (opened_core script.now).start }
    requires full { AreFull callers.items }
    requires stand { AllStand table (present callers.items) }
    requires done { TookLines (first_callers table) script.now.lines [] (present callers.items) text.items }
    ensures told { IfOk result (λ r. TellsTrial script.now r.0.items r.1) }
    ensures refused { IfErr result (λ r. AreHandedBack script.now r.0 r.1.items) }
{
    match least_busy(&callers, script.shape.passes()) {
        Some(pass) => Err(hand_back(alloc, PlayFault::Unfinished { pass }, callers)),
        None => match idle_passes(alloc, callers) {
            Ok(passes) => close(alloc, script, table, passes, text),
            Err(_) => Err((PlayFault::NoMemory, Vec::new(alloc))),
        },
    }
}

// Closes a table whose passes have done all lines.
fn close(
    alloc: Global,
    script: &Script,
    table: FunnelTable,
    passes: Vec<Pass>,
    text: Vec<u8>,
) -> Result<(Vec<u8>, Book), (PlayFault, Vec<Caller>)>
    requires sound { IsSound script.now }
    requires start { table.start ≡ (opened_core script.now).start }
    requires stand { AllStand table (map (λ p. Caller.Idle p) passes.items) }
    requires done { TookLines (first_callers table) script.now.lines [] (map (λ p. Caller.Idle p) passes.items) text.items }
    ensures told { IfOk result (λ r. TellsTrial script.now r.0.items r.1) }
    ensures refused { IfErr result (λ r. AreHandedBack script.now r.0 r.1.items) }
{
    let _ = script;
    let mut text = text;
    let book = table.close(passes);
    match push_value(&mut text, book.value()) {
        Ok(()) => Ok((text, book)),
        Err(_) => Err((PlayFault::NoMemory, Vec::new(alloc))),
    }
}

// The least caller in mid-call.
fn least_busy(callers: &[Option<Caller>], passes: u32) -> Option<u32>
    requires passes { passes ≡ length callers.now }
    requires full { AreFull callers.now }
    ensures { result ≡ least_busy (rests_in (present callers.now)) passes }
{
    for pass in 0..passes {
        if !rests(callers, pass) {
            return Some(pass);
        }
    }
    None
}

// Whether a caller makes no call.
fn rests(callers: &[Option<Caller>], pass: u32) -> bool
    requires inside { pass < length callers.now }
    requires full { AreFull callers.now }
    ensures { result ≡ rests_in (present callers.now) pass }
{
    matches!(&callers[pass as usize], Some(Caller::Idle(_)))
}

// The passes of the callers that make no call.
fn idle_passes(alloc: Global, callers: Vec<Option<Caller>>) -> Result<Vec<Pass>, NoMemory>
    ensures { IfOk result (λ r. r.items ≡ idle_passes callers.items) }
{
    let mut passes = Vec::new(alloc);
    for slot in callers {
        match idle_pass(slot) {
            Some(pass) => passes.push(pass)?,
            None => {}
        }
    }
    Ok(passes)
}

// The pass of a caller that makes no call.
fn idle_pass(slot: Option<Caller>) -> Option<Pass>
    ensures { result ≡ idle_in slot }
{
    match slot {
        Some(Caller::Idle(pass)) => Some(pass),
        Some(Caller::Pending(_)) => None,
        None => None,
    }
}

// A fault, and all callers; for want of memory none.
fn hand_back(
    alloc: Global,
    fault: PlayFault,
    callers: Vec<Option<Caller>>,
) -> (PlayFault, Vec<Caller>)
    ensures { ((result.0 ≡ PlayFault.NoMemory) × (result.1.items ≡ [])) ⊎ ((result.0 ≡ fault) × (fault ≢ PlayFault.NoMemory) × (result.1.items ≡ present callers.items)) }
{
    if fault == PlayFault::NoMemory {
        return (fault, Vec::new(alloc));
    }
    match all_callers(alloc, callers) {
        Ok(all) => (fault, all),
        Err(_) => (PlayFault::NoMemory, Vec::new(alloc)),
    }
}

// The callers, out of their slots.
fn all_callers(alloc: Global, callers: Vec<Option<Caller>>) -> Result<Vec<Caller>, NoMemory>
    ensures { IfOk result (λ r. r.items ≡ present callers.items) }
{
    let mut all = Vec::new(alloc);
    for slot in callers {
        match slot {
            Some(caller) => all.push(caller)?,
            None => {}
        }
    }
    Ok(all)
}
