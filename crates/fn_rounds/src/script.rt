// The additions and subtractions of a script, each pass's by that pass, and their text.
ghost use Rattle.std.specs.Prelude.{◌≡◌, All, IfOk};
ghost use Rattle.fn_core.specs.Calls.{calls_in};
ghost use Rattle.fn_table.specs.Seen.{IsOf, fresh_passes};
ghost use Rattle.fn_table.specs.Claims.{Rests};
ghost use Rattle.script_text.specs.Sound.{IsSound};
ghost use Rattle.fn_rounds.specs.Lanes.{MayMakeAll};
ghost use Rattle.fn_rounds.specs.Script.{IsBookOf, IsChangeOrder, TellsRounds};
ghost use Rattle.fn_rounds.specs.Dealing.{AreDone, OpensFor, lanes_for};

use crate::all_calls::{AllCalls, finish_all};
use crate::answering::{answers, part};
use crate::dealing::lanes_for;
use crate::lanes::{Lane, LaneDone};
use crate::telling::text_of;
use fn_climb::FunnelTable;
use fn_core::OpenFault;
use fn_future::NoMemory;
use fn_table::Book;
use script_text::{Script, allowances};
use std::alloc::{AllocError, AllocGlobal, Global};
use std::random::RandomSource;
use std::sync::Wait;

/// Makes the additions and subtractions of a script on one thread: each pass makes those of its own lines, in order, and the passes take turns. The text has a line for each line of the script, in order, and then the value. It may wait.
/// An error says that memory ran out, or that the random words with which an executor begins couldn't be had; the table is then lost.
pub fn rounds_text<R>(rt: &R, alloc: Global, script: &Script) -> Result<(Vec<u8>, Book), NoMemory>
where
    R: Wait + RandomSource + AllocGlobal,
    requires sound { IsSound script.now }
    requires changes { All (λ line. IsChangeOrder line.order) script.now.lines }
    ensures told { IfOk result (λ r. TellsRounds script.now r.0.items (calls_in r.1)) }
    ensures book { IfOk result (λ r. IsBookOf script.now r.1) }
{
    let (table, lanes) = open(alloc, script)?;
    let dones = make_all(rt, alloc, &table, lanes)?;
    match finish(alloc, script, table, dones) {
        Ok(told) => Ok(told),
        Err(_) => Err(NoMemory),
    }
}

// The table of a script, and its passes with the orders of their lines.
fn open(alloc: Global, script: &Script) -> Result<(FunnelTable, Vec<Lane>), NoMemory>
    requires { IsSound script.now }
    ensures start { IfOk result (λ r. OpensFor script.now r.0) }
    ensures lanes { IfOk result (λ r. r.1.items ≡ lanes_for script.now.lines (fresh_passes r.0)) }
{
    let Ok(allowances) = allowances(alloc, script) else {
        return Err(NoMemory);
    };
    let lines = &script.lines;
    match FunnelTable::open(alloc, script.shape, script.opening, &allowances) {
        Ok((table, passes)) => match lanes_for(alloc, passes, &lines.items) {
            Ok(lanes) => Ok((table, lanes)),
            Err(_) => Err(NoMemory),
        },
        Err(OpenFault::NoMemory) => Err(NoMemory),
        Err(OpenFault::TooMuch { .. }) => unreachable!(),
        Err(OpenFault::AboveCap { .. }) => unreachable!(),
    }
}

// Makes the calls of all lanes.
fn make_all<R>(
    rt: &R,
    alloc: Global,
    table: &FunnelTable,
    lanes: Vec<Lane>,
) -> Result<Vec<LaneDone>, NoMemory>
where
    R: Wait + RandomSource + AllocGlobal,
    requires together { All (λ lane. IsOf table.now lane.pass) lanes.items }
    requires idle { All (λ lane. Rests lane.pass) lanes.items }
    requires may { All (λ lane. MayMakeAll lane.pass lane.orders) lanes.items }
    ensures { IfOk result (λ dones. AreDone lanes.items dones.items) }
{
    let calls = AllCalls::new(alloc, table, lanes)?;
    finish_all(rt, calls)
}

// Closes the table whose lanes are done, and tells of it.
fn finish(
    alloc: Global,
    script: &Script,
    table: FunnelTable,
    dones: Vec<LaneDone>,
) -> Result<(Vec<u8>, Book), AllocError>
    requires sound { IsSound script.now }
    requires start { OpensFor script.now table }
    requires done { AreDone (lanes_for script.now.lines (fresh_passes table)) dones.items }
    ensures told { IfOk result (λ r. TellsRounds script.now r.0.items (calls_in r.1)) }
    ensures book { IfOk result (λ r. IsBookOf script.now r.1) }
{
    let (passes, replies) = part(alloc, dones)?;
    let lines = &script.lines;
    let answers = answers(alloc, &lines.items, &replies)?;
    let book = table.close(passes);
    let text = text_of(alloc, &lines.items, &answers, book.value())?;
    Ok((text, book))
}
