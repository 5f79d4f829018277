//! Cells open.
ghost use Rattle.std.specs.Prelude.{◌≡◌, ◌*◌, ◌+◌, ◌<◌, ◌≤◌, map, IfOk};
ghost use Rattle.running.specs.Running.{upto};
ghost use Rattle.tq_cells.specs.Seen.{fresh, fresh_seats};
ghost use Rattle.tq_cells.specs.Seats.{IsDealer};

use crate::cells::Cells;
use crate::entry::Start;
use crate::rule::{Hands, Place, Words};
use crate::seat::CellSeat;
use atomic_table::Table;
use std::alloc::{AllocError, AllocFailed, Global};

/// Memory ran out.
#[derive(Clone, Copy, Debug, PartialEq, Eq)]
pub struct NoMemory;

impl From<AllocError> for NoMemory {
    fn from(_: AllocError) -> Self {
        NoMemory
    }
}

impl<T: Drop> From<AllocFailed<T>> for NoMemory {
    fn from(_: AllocFailed<T>) -> Self {
        NoMemory
    }
}

// The turn words before the first step.
fn first_words(alloc: Global, capacity: u32) -> Result<Vec<u64>, NoMemory>
    ensures { IfOk result (λ all. all.items ≡ map (λ c. 4 * c) (upto capacity)) }
{
    let mut all = Vec::new(alloc);
    for cell in 0..capacity {
        all.push(4 * u64::from(cell))?;
    }
    Ok(all)
}

// Gives the next number to a new seat.
fn deal<T>(words: &Words<T>, first: &mut Place<T>, number: u32) -> CellSeat<T>
    requires words { 0 < words.now.table_id.words }
    requires inside { (0 < number) × (number < first.old.me.0.start.seats) }
    requires dealer { IsDealer words.now.table_id first.old.me.0.start number first.old }
    ensures dealer { IsDealer words.now.table_id first.old.me.0.start (number + 1) first.new }
    ensures seat { result ≡ fresh (record { table = words.now.table_id; start = first.old.me.0.start }) number }
{
    CellSeat {
        place: words.split_seat::<Hands>(first),
        number,
    }
}

// All seats, by number.
fn all_seats<T: Drop>(
    alloc: Global,
    words: &Words<T>,
    mut first: Place<T>,
    count: u32,
) -> Result<Vec<CellSeat<T>>, NoMemory>
    requires words { 0 < words.now.table_id.words }
    requires dealer { IsDealer words.now.table_id first.me.0.start 1 first }
    requires count { count ≡ first.me.0.start.seats }
    requires some { 0 < count }
    ensures { IfOk result (λ all. all.items ≡ fresh_seats (record { table = words.now.table_id; start = first.me.0.start })) }
{
    let mut all = Vec::new(alloc);
    for number in 1..count {
        let seat = deal(words, &mut first, number);
        all.push(seat)?;
    }
    let seat = CellSeat {
        place: first,
        number: 0,
    };
    all.insert(0, seat)?;
    Ok(all)
}

impl<T: Drop> Cells<T> {
    /// Empty cells, with their seats in order of number. Want of memory alone refuses them.
    pub fn open(
        alloc: Global,
        capacity: u32,
        seats: u32,
    ) -> Result<(Cells<T>, Vec<CellSeat<T>>), NoMemory>
        requires capacity { (1 ≤ capacity) × (capacity ≤ 65536) }
        requires seats { (1 ≤ seats) × (seats ≤ 64) }
        ensures cells { IfOk result (λ r. r.0.start ≡ record { capacity = capacity; seats = seats }) }
        ensures seats { IfOk result (λ r. r.1.items ≡ fresh_seats r.0) }
    {
        let start = Start { capacity, seats };
        let words = first_words(alloc, capacity)?;
        let (table, first) = Table::vacant(alloc, &words, capacity as usize, &start)?;
        let all = all_seats(alloc, &table.shared, first, seats)?;
        Ok((Cells { table, capacity }, all))
    }
}
