//! Cells end.
ghost use Rattle.std.specs.Prelude.{◌≡◌, ◌<◌, All};
ghost use Rattle.tq_cells.specs.Seen.{IsOf, AreAll, IsClosed};
ghost use Rattle.tq_cells.specs.Seats.{IsGathering};

use crate::book::CellBook;
use crate::cells::Cells;
use crate::rule::{Looks, Meets, Place, Sits, Words};
use crate::seat::CellSeat;

// One seat takes in all others.
fn gather<T>(words: &Words<T>, seats: Vec<CellSeat<T>>) -> Place<T>
    requires words { 0 < words.now.table_id.words }
    requires tables { All (λ p. p.table ≡ words.now.table_id) seats.items }
    ensures { IsGathering words.entry.now.table_id words.entry.now.key seats.items result }
{
    let (_, mut first) = words.load_new_seat::<Sits>(0);
    for seat in seats {
        let CellSeat { place, number: _ } = seat;
        words.join_seat::<Meets>(&mut first, place);
    }
    first
}

impl<T> Cells<T> {
    /// Ends the cells, given all their seats, in order of number.
    pub fn close(self, seats: Vec<CellSeat<T>>) -> CellBook<T>
        requires together { All (λ p. IsOf self p) seats.items }
        requires all { AreAll self seats.items }
        ensures start { result.start ≡ self.start }
        ensures seats { IsClosed seats.items result }
    {
        let Cells { table, .. } = self;
        let mut place = gather(&table.shared, seats);
        table.shared.load::<Looks>(&mut place, 0);
        CellBook { table, place }
    }
}
