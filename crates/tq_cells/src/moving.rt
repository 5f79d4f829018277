//! Items go through the cells.
ghost use Rattle.std.specs.Prelude.{◌≡◌, ◌<◌, ◌+◌, ◌*◌, ◌%◌, ◌^◌, MatchResult};
ghost use Rattle.tq_cells.specs.declared.entry.Entry.TheVariants.{Hold, Put};
ghost use Rattle.tq_cells.specs.Seen.{IsOf, IsSame, EnteredBoth, Missed, Removed};

use crate::cells::Cells;
use crate::rule::{Frees, Holds, Puts, Takes};
use crate::seat::CellSeat;

/// The turn word found was another than the one at which the ticket may be put or taken.
#[derive(Clone, Copy, Debug, PartialEq, Eq)]
pub struct Turn {
    pub found: u64,
}

impl<T> Cells<T> {
    // The cell of a ticket.
    fn cell_of(&self, ticket: u64) -> usize
        ensures exact { result ≡ ticket % self.now.start.capacity }
        ensures inside { result < self.now.table.words }
    {
        (ticket % u64::from(self.capacity)) as usize
    }
}

/// Puts the item under the ticket. It comes back where the ticket may not be put yet, or no more.
pub fn place<T>(
    cells: &Cells<T>,
    seat: &mut CellSeat<T>,
    ticket: u64,
    item: T,
) -> Result<(), (T, Turn)>
    requires together { IsOf cells.now seat.old }
    requires ticket { ticket < 2 ^ 60 }
    ensures seat { IsSame seat.old seat.new }
    ensures outcome { MatchResult result (λ _. EnteredBoth seat.old (Hold ticket) (Put ticket item) seat.new) (λ e. (e.0 ≡ item) × Missed seat.old (4 * ticket) e.1.found seat.new) }
{
    let words = &cells.table.shared;
    let cell = cells.cell_of(ticket);
    let free = 4 * ticket;
    let found = words.compare_exchange::<Holds>(&mut seat.place, cell, free, free + 1);
    if found != free {
        return Err((item, Turn { found }));
    }
    match words.exchange(&mut seat.place, cell, Some(item)) {
        None => {}
        Some(_) => unreachable!(),
    }
    words.store::<Puts>(&mut seat.place, cell, free + 2);
    Ok(())
}

/// Takes the item that was put under the ticket, where it may be taken now.
pub fn remove<T>(cells: &Cells<T>, seat: &mut CellSeat<T>, ticket: u64) -> Result<T, Turn>
    requires together { IsOf cells.now seat.old }
    requires ticket { ticket < 2 ^ 60 }
    ensures seat { IsSame seat.old seat.new }
    ensures outcome { MatchResult result (λ x. Removed seat.old ticket x seat.new) (λ e. Missed seat.old (4 * ticket + 2) e.found seat.new) }
{
    let words = &cells.table.shared;
    let cell = cells.cell_of(ticket);
    let full = 4 * ticket + 2;
    let found = words.compare_exchange::<Takes>(&mut seat.place, cell, full, 4 * ticket + 3);
    if found != full {
        return Err(Turn { found });
    }
    let item = words.exchange(&mut seat.place, cell, None);
    let next = ticket + u64::from(cells.capacity);
    words.store::<Frees>(&mut seat.place, cell, 4 * next);
    Ok(item.unwrap())
}
