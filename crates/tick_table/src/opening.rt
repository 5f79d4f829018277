//! A table opens.
ghost use Rattle.std.specs.Prelude.{◌≡◌, ◌+◌, ◌<◌, ◌≤◌, IfOk};
ghost use Rattle.tick_table.specs.Seen.{fresh, fresh_seats};
ghost use Rattle.tick_table.specs.Seats.{IsDealer};

use crate::entry::Start;
use crate::rule::{Hands, Place, Words};
use crate::seat::TickSeat;
use crate::table::TickTable;
use atomic_table::Table;
use std::alloc::{AllocError, AllocFailed, Global};

/// Memory ran out.
#[derive(Clone, Copy, Debug, PartialEq, Eq)]
pub struct NoMemory;

impl From<AllocError> for NoMemory {
    fn from(_: AllocError) -> Self {
        NoMemory
    }
}

impl<T: Drop> From<AllocFailed<T>> for NoMemory {
    fn from(_: AllocFailed<T>) -> Self {
        NoMemory
    }
}

// Gives the next number to a new seat.
fn deal(words: &Words, first: &mut Place, number: u32) -> TickSeat
    requires words { 0 < words.now.table_id.words }
    requires inside { (0 < number) × (number < first.old.me.0.start.desks) }
    requires dealer { IsDealer words.now.table_id first.old.me.0.start number first.old }
    ensures dealer { IsDealer words.now.table_id first.old.me.0.start (number + 1) first.new }
    ensures seat { result ≡ fresh (record { table = words.now.table_id; start = first.old.me.0.start }) number }
{
    TickSeat {
        place: words.split_seat::<Hands>(first),
        number,
    }
}

// All seats, by number.
fn all_seats(
    alloc: Global,
    words: &Words,
    mut first: Place,
    count: u32,
) -> Result<Vec<TickSeat>, NoMemory>
    requires words { 0 < words.now.table_id.words }
    requires dealer { IsDealer words.now.table_id first.me.0.start 1 first }
    requires count { count ≡ first.me.0.start.desks }
    requires some { 0 < count }
    ensures { IfOk result (λ all. all.items ≡ fresh_seats (record { table = words.now.table_id; start = first.me.0.start })) }
{
    let mut all = Vec::new(alloc);
    for number in 1..count {
        let seat = deal(words, &mut first, number);
        all.push(seat)?;
    }
    let seat = TickSeat {
        place: first,
        number: 0,
    };
    all.insert(0, seat)?;
    Ok(all)
}

impl TickTable {
    /// A table at this tick, with its seats in order of number. Want of memory alone refuses it.
    pub fn open(
        alloc: Global,
        tick: u64,
        desks: u32,
    ) -> Result<(TickTable, Vec<TickSeat>), NoMemory>
        requires desks { 1 ≤ desks }
        ensures table { IfOk result (λ r. r.0.start ≡ record { tick = tick; desks = desks }) }
        ensures seats { IfOk result (λ r. r.1.items ≡ fresh_seats r.0) }
    {
        let start = Start { tick, desks };
        let (table, first) = Table::of_words(alloc, &[tick], &start)?;
        let all = all_seats(alloc, &table.shared, first, desks)?;
        Ok((TickTable { table }, all))
    }
}
