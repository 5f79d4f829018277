//! A table ends.
ghost use Rattle.std.specs.Prelude.{◌≡◌, ◌<◌, All};
ghost use Rattle.tick_table.specs.Claims.{EachOnce};
ghost use Rattle.tick_table.specs.Seen.{IsOf, AreAll, IsClosed};
ghost use Rattle.tick_table.specs.Seats.{IsGathering};

use crate::book::TickBook;
use crate::rule::{Looks, Meets, Place, Sits, Words};
use crate::seat::TickSeat;
use crate::table::TickTable;

// One seat takes in all others.
fn gather(words: &Words, seats: Vec<TickSeat>) -> Place
    requires words { 0 < words.now.table_id.words }
    requires tables { All (λ p. p.table ≡ words.now.table_id) seats.items }
    ensures { IsGathering words.entry.now.table_id words.entry.now.key seats.items result }
{
    let (_, mut first) = words.load_new_seat::<Sits>(0);
    for seat in seats {
        let TickSeat { place, number: _ } = seat;
        words.join_seat::<Meets>(&mut first, place);
    }
    first
}

impl TickTable {
    /// Ends the table, given all its seats, in order of number.
    pub fn close(self, seats: Vec<TickSeat>) -> TickBook
        requires together { All (λ p. IsOf self p) seats.items }
        requires all { AreAll self seats.items }
        ensures start { result.start ≡ self.start }
        ensures seats { IsClosed seats.items result }
        ensures once { EachOnce result.start.tick result.log }
    {
        let TickTable { table } = self;
        let mut place = gather(&table.shared, seats);
        let tick = table.shared.load::<Looks>(&mut place, 0);
        TickBook { tick, place }
    }
}
