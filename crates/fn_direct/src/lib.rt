//! Calls that go to the main word by themselves, past the funnel: reads, additions and subtractions. And notes, by which passes learn what others have seen.
#![tactic(auto)]

ghost use Rattle.std.specs.Prelude.{◌≡◌, ◌≢◌, IfOk, IfErr};
ghost use mathlib.Core.List.{IsPrefix};
ghost use Rattle.fn_model.specs.declared.Kind.{Kind};
ghost use Rattle.fn_model.specs.declared.Kind.TheVariants.{Add, Sub, Read};
ghost use Rattle.fn_core.specs.declared.Move.TheVariants.{Load, Direct, Glance};
ghost use Rattle.fn_core.specs.declared.Purpose.TheVariants as purpose;
ghost use Rattle.fn_core.specs.Machine.{IsChange, MaySpend, no_cap};
ghost use Rattle.fn_core.specs.Calls.{state_in, IsIdle, calls_in};
ghost use Rattle.fn_core.specs.Entries.{IsAlone};
ghost use Rattle.fn_table.specs.Seen.{IsOf, IsNoteOf, Stepped, Stored, Met, note_of};
ghost use Rattle.fn_table.specs.Called.{call_of, HasCalled, HasMadeNone};
ghost use Rattle.fn_table.specs.Claims.{Made, MadeNone, past};
ghost use Rattle.fn_direct.specs.Tries.{Tried};

pub use fn_layout::Kind;
pub use fn_table::{FunnelTable, Note, Pass};
use fn_table::{direct, exchange, load_read, load_try};

/// A compare-exchange of the main word that found another word than the one that was loaded.
#[derive(Clone, Copy, Debug, PartialEq, Eq)]
pub struct Lost {
    pub loaded: u64,
    pub found: u64,
}

/// The integer, as a call of its own: one load.
pub fn read(table: &FunnelTable, pass: &mut Pass) -> u64
    requires together { IsOf table.now pass.old }
    requires idle { IsIdle pass.old.seen pass.old.number }
    ensures made { Made pass.old Read 0 result pass.new }
    ensures step { Stepped pass.old (Load purpose.Read) result pass.new }
    ensures called { HasCalled pass.old Read 0 result pass.new }
    ensures alone { IsAlone pass.new.seen (call_of pass.old Read 0) }
{
    let _in_range = pass.number();
    load_read(table, pass)
}

/// Adds by one fetch-and-add, where no addition stops at a cap, and gives the integer before.
pub fn add_direct(table: &FunnelTable, pass: &mut Pass, amount: u64) -> u64
    requires together { IsOf table.now pass.old }
    requires idle { IsIdle pass.old.seen pass.old.number }
    requires amount { MaySpend (state_in pass.old.seen) pass.old.number amount }
    requires no_cap { table.now.start.cap ≡ no_cap }
    ensures made { Made pass.old Add amount result pass.new }
    ensures step { Stepped pass.old (Direct amount) result pass.new }
    ensures called { HasCalled pass.old Add amount result pass.new }
    ensures alone { IsAlone pass.new.seen (call_of pass.old Add amount) }
{
    let _in_range = pass.number();
    direct(table, pass, amount)
}

/// Subtracts, down to zero, by one load and one exchange, and gives the integer before.
///
/// Where another changed the word in between, nothing is spent and no call was made.
pub fn sub_direct(table: &FunnelTable, pass: &mut Pass, amount: u64) -> Result<u64, Lost>
    requires together { IsOf table.now pass.old }
    requires idle { IsIdle pass.old.seen pass.old.number }
    requires amount { MaySpend (state_in pass.old.seen) pass.old.number amount }
    ensures made { IfOk result (λ reply. Made pass.old Sub amount reply pass.new) }
    ensures made_none { IfErr result (λ lost. MadeNone pass.old pass.new) }
    ensures called { IfOk result (λ reply. Tried pass.old Sub amount reply reply pass.new × HasCalled pass.old Sub amount reply pass.new) }
    ensures alone { IfOk result (λ _. IsAlone pass.new.seen (call_of pass.old Sub amount)) }
    ensures lost { IfErr result (λ lost. Tried pass.old Sub amount lost.loaded lost.found pass.new × (lost.found ≢ lost.loaded) × HasMadeNone pass.old pass.new) }
{
    try_exchange(table, pass, Kind::Sub, amount)
}

/// Adds, up to the cap, by one load and one exchange, and gives the integer before.
///
/// Where another changed the word in between, nothing is spent and no call was made.
pub fn add_capped(table: &FunnelTable, pass: &mut Pass, amount: u64) -> Result<u64, Lost>
    requires together { IsOf table.now pass.old }
    requires idle { IsIdle pass.old.seen pass.old.number }
    requires amount { MaySpend (state_in pass.old.seen) pass.old.number amount }
    ensures made { IfOk result (λ reply. Made pass.old Add amount reply pass.new) }
    ensures made_none { IfErr result (λ lost. MadeNone pass.old pass.new) }
    ensures called { IfOk result (λ reply. Tried pass.old Add amount reply reply pass.new × HasCalled pass.old Add amount reply pass.new) }
    ensures alone { IfOk result (λ _. IsAlone pass.new.seen (call_of pass.old Add amount)) }
    ensures lost { IfErr result (λ lost. Tried pass.old Add amount lost.loaded lost.found pass.new × (lost.found ≢ lost.loaded) × HasMadeNone pass.old pass.new) }
{
    try_exchange(table, pass, Kind::Add, amount)
}

/// A copy of what the pass has seen.
pub fn note(table: &FunnelTable, pass: &mut Pass) -> Note
    requires together { IsOf table.now pass.old }
    requires idle { IsIdle pass.old.seen pass.old.number }
    ensures step { Stored pass.old Glance pass.new }
    ensures note { result ≡ note_of pass.new }
    ensures made_none { MadeNone pass.old pass.new }
    ensures none { HasMadeNone pass.old pass.new }
{
    fn_table::note(table, pass)
}

/// The pass has then seen what the note has.
pub fn meet(table: &FunnelTable, pass: &mut Pass, note: Note)
    requires together { IsOf table.now pass.old }
    requires note { IsNoteOf table.now note }
    requires idle { IsIdle pass.old.seen pass.old.number }
    ensures met { Met pass.old note pass.new }
    ensures made_none { MadeNone pass.old pass.new }
    ensures knows { IsPrefix (calls_in note.seen) (past pass.new) }
    ensures none { HasMadeNone pass.old pass.new }
{
    fn_table::meet(table, pass, note);
}

// Loads the main word, and exchanges it for what the call makes of it.
fn try_exchange(table: &FunnelTable, pass: &mut Pass, kind: Kind, amount: u64) -> Result<u64, Lost>
    requires together { IsOf table.now pass.old }
    requires idle { IsIdle pass.old.seen pass.old.number }
    requires change { IsChange kind }
    requires amount { MaySpend (state_in pass.old.seen) pass.old.number amount }
    ensures made { IfOk result (λ reply. Made pass.old kind amount reply pass.new) }
    ensures made_none { IfErr result (λ lost. MadeNone pass.old pass.new) }
    ensures called { IfOk result (λ reply. Tried pass.old kind amount reply reply pass.new × HasCalled pass.old kind amount reply pass.new) }
    ensures alone { IfOk result (λ _. IsAlone pass.new.seen (call_of pass.old kind amount)) }
    ensures lost { IfErr result (λ lost. Tried pass.old kind amount lost.loaded lost.found pass.new × (lost.found ≢ lost.loaded) × HasMadeNone pass.old pass.new) }
{
    let _in_range = pass.number();
    let loaded = load_try(table, pass);
    match exchange(table, pass, kind, amount, loaded) {
        Ok(()) => Ok(loaded),
        Err(found) => Err(Lost { loaded, found }),
    }
}
