//! A table ends.
ghost use Rattle.std.specs.Prelude.{◌≡◌, ◌<◌, ℕ, All, Some, slice_get};
ghost use Rattle.fn_core.specs.Calls.{IsIdle, calls_in};
ghost use Rattle.fn_table.specs.Seen.{PassView, IsOf, AreAll, IsClosed};
ghost use Rattle.fn_model.specs.Calls.{own};
ghost use Rattle.fn_table.specs.Seats.{IsGathering};

use crate::book::Book;
use crate::pass::Pass;
use crate::rule::{Finds, Meets, Notes, Place, Sits, Words};
use crate::seated::Seated;
use crate::table::FunnelTable;
use std::marker::Brand;

// One seat takes in all passes.
fn gather(words: &Words, passes: Vec<Pass>) -> Place
    requires words { 0 < words.now.table_id.words }
    requires tables { All (λ p. p.table ≡ words.now.table_id) passes.items }
    ensures { IsGathering words.entry.now.table_id words.entry.now.key passes.items result }
{
    let (_, mut seat) = words.load_new_seat::<Sits>(0);
    for pass in passes {
        let Pass { caller, .. } = pass;
        let Seated { seat: other, .. } = caller;
        words.join_seat::<Meets>(&mut seat, other);
    }
    seat
}

impl FunnelTable {
    /// Ends the table, given all its passes, in order of number, each idle.
    pub fn close(self, passes: Vec<Pass>) -> Book
        requires together { All (λ p. IsOf self p) passes.items }
        requires all { AreAll self passes.items }
        requires idle { All (λ p. IsIdle p.seen p.number) passes.items }
        ensures start { result.start ≡ self.start }
        ensures passes { IsClosed passes.items result }
        ensures calls { (k : ℕ) (p : PassView) → slice_get passes.items k ≡ Some p → own p.number (calls_in result) ≡ own p.number (calls_in p.seen) }
    {
        let FunnelTable { table, opening, .. } = self;
        let mut seat = gather(&table.shared, passes);
        table.shared.load::<Finds<Brand>>(&mut seat, 0);
        let seen = table.shared.split_seat::<Notes>(&mut seat);
        let closed = table.close_with(seat);
        let value = closed.word(0);
        closed.free();
        Book {
            value,
            opening,
            seat: seen,
        }
    }
}
