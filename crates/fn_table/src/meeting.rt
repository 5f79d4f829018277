//! Notes, by which one pass learns what another had seen.
ghost use Rattle.std.specs.Prelude.{◌≡◌, ◌<◌};
ghost use Rattle.fn_core.specs.declared.Move.TheVariants.{Glance};
ghost use Rattle.fn_core.specs.Calls.{IsIdle};
ghost use Rattle.fn_table.specs.Seen.{IsOf, IsNoteOf, Stored, Met, note_of};

use crate::pass::{Note, Pass};
use crate::rule::{Finds, Meets, Notes, Words};
use crate::seated::Seated;
use crate::steps::quiet_load;
use crate::table::FunnelTable;
use fn_core::Move;
use std::marker::Brand;

// A copy of what the pass has seen.
fn copy(words: &Words, pass: &mut Seated) -> Note
    requires words { 0 < words.now.table_id.words }
    requires together { pass.old.table ≡ words.now.table_id }
    ensures same { pass.new ≡ pass.old }
    ensures note { result ≡ note_of pass.old }
{
    Note {
        seat: words.split_seat::<Notes>(&mut pass.seat),
    }
}

// The pass takes in a note, and ends with a Glance.
fn take_in(words: &Words, pass: &mut Seated, note: Note)
    requires words { 0 < words.now.table_id.words }
    requires together { (pass.old.table ≡ words.now.table_id) × (note.table ≡ words.now.table_id) }
    requires idle { IsIdle pass.old.seen pass.old.number }
    ensures { Met pass.old note pass.new }
{
    let Note { seat } = note;
    words.join_seat::<Meets>(&mut pass.seat, seat);
    words.load::<Finds<Brand>>(&mut pass.seat, 0);
}

/// A copy of what the pass has seen.
pub fn note(table: &FunnelTable, pass: &mut Pass) -> Note
    requires together { IsOf table.now pass.old }
    requires idle { IsIdle pass.old.seen pass.old.number }
    ensures pass { Stored pass.old Glance pass.new }
    ensures note { result ≡ note_of pass.new }
{
    let _number = pass.number();
    quiet_load(table, pass, Move::Glance);
    copy(&table.table.shared, &mut pass.caller)
}

/// The pass has then seen what the note has.
pub fn meet(table: &FunnelTable, pass: &mut Pass, note: Note)
    requires together { IsOf table.now pass.old }
    requires note { IsNoteOf table.now note }
    requires idle { IsIdle pass.old.seen pass.old.number }
    ensures { Met pass.old note pass.new }
{
    take_in(&table.table.shared, &mut pass.caller, note);
}
