//! Calls of a pass that go to the main word by themselves, in the words of the history.
ghost use Rattle.std.specs.Prelude.{◌≡◌, ◌≢◌, ◌≤◌, IfErr, IfOk};
ghost use Rattle.fn_model.specs.declared.Kind.TheVariants.{Add, Read};
ghost use Rattle.fn_core.specs.Machine.{IsChange, no_cap};
ghost use Rattle.fn_table.specs.Seen.{IsOf};
ghost use Rattle.fn_table.specs.Later.{IsLater};
ghost use Rattle.fn_table.specs.Called.{HasCalled, HasMadeNone};
ghost use Rattle.fn_direct.specs.Tries.{Tried};
ghost use Rattle.fn_table.specs.Claims.{left, Rests, Made, MadeNone};
ghost use Rattle.fn_callers.specs.Ways.{HasLost};

use fn_direct::{Lost, add_capped, add_direct, read, sub_direct};
use fn_layout::Kind;
use fn_model::NO_CAP;
use fn_table::{FunnelTable, Pass};

/// The integer, as a call of its own.
pub fn load(table: &FunnelTable, pass: &mut Pass) -> u64
    requires together { IsOf table.now pass.old }
    requires rests { Rests pass.old }
    ensures together { IsOf table.now pass.new }
    ensures made { Made pass.old Read 0 result pass.new }
    ensures called { HasCalled pass.old Read 0 result pass.new }
{
    let _legal = pass.number();
    read(table, pass)
}

/// Adds or subtracts, by one step or by one exchange. Where another changed the word in between, no call was made.
pub fn change(table: &FunnelTable, pass: &mut Pass, kind: Kind, amount: u64) -> Result<u64, Lost>
    requires together { IsOf table.now pass.old }
    requires rests { Rests pass.old }
    requires change { IsChange kind }
    requires amount { (1 ≤ amount) × (amount ≤ left pass.old) }
    ensures together { IsOf table.now pass.new }
    ensures rests { Rests pass.new }
    ensures made { IfOk result (λ before. Made pass.old kind amount before pass.new) }
    ensures none { IfErr result (λ _. MadeNone pass.old pass.new) }
    ensures called { IfOk result (λ before. HasCalled pass.old kind amount before pass.new) }
    ensures lost { IfErr result (λ _. HasLost pass.old kind amount pass.new) }
    ensures capped { IfErr result (λ _. kind ≡ Add → table.now.start.cap ≢ no_cap) }
{
    let _legal = pass.number();
    try_once(table, pass, kind, amount)
}

// Adds or subtracts, by the steps that it takes.
fn try_once(table: &FunnelTable, pass: &mut Pass, kind: Kind, amount: u64) -> Result<u64, Lost>
    requires together { IsOf table.now pass.old }
    requires rests { Rests pass.old }
    requires change { IsChange kind }
    requires amount { (1 ≤ amount) × (amount ≤ left pass.old) }
    ensures later { IsLater pass.old pass.new }
    ensures called { IfOk result (λ before. HasCalled pass.old kind amount before pass.new) }
    ensures lost { IfErr result (λ lost. Tried pass.old kind amount lost.loaded lost.found pass.new × (lost.found ≢ lost.loaded) × HasMadeNone pass.old pass.new) }
    ensures capped { IfErr result (λ _. kind ≡ Add → table.now.start.cap ≢ no_cap) }
{
    match kind {
        Kind::Add => add_once(table, pass, amount),
        Kind::Sub => sub_direct(table, pass, amount),
        Kind::Read => unreachable!(),
    }
}

// Adds, by one step, or by an exchange where there is a cap.
fn add_once(table: &FunnelTable, pass: &mut Pass, amount: u64) -> Result<u64, Lost>
    requires together { IsOf table.now pass.old }
    requires rests { Rests pass.old }
    requires amount { (1 ≤ amount) × (amount ≤ left pass.old) }
    ensures later { IsLater pass.old pass.new }
    ensures called { IfOk result (λ before. HasCalled pass.old Add amount before pass.new) }
    ensures lost { IfErr result (λ lost. Tried pass.old Add amount lost.loaded lost.found pass.new × (lost.found ≢ lost.loaded) × HasMadeNone pass.old pass.new) }
    ensures capped { IfErr result (λ _. table.now.start.cap ≢ no_cap) }
{
    if table.cap() == NO_CAP {
        return Ok(add_direct(table, pass, amount));
    }
    add_capped(table, pass, amount)
}
