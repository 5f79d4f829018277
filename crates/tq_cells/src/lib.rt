//! Cells of a bounded ticket queue, each with a turn word and a slot: an item leaves a cell under the ticket that put it.
#![tactic(auto)]

mod book;
mod cells;
mod closing;
mod entry;
mod moving;
mod opening;
mod rule;
mod seat;

ghost use Rattle.running.specs.Machine.{Laws};
ghost use Rattle.tq_cells.specs.Machine.{cells};
ghost use Rattle.tq_cells.specs.Laws.{ExactLogsAreLegal, EntriesFind, BeginningsAreExact, TicketsStandOnce, TakesFollowPuts, PutsAndTakesStay, EntriesStandAlone, OneSeatHolds};

pub use book::CellBook;
pub use cells::Cells;
pub use entry::{Entry, Event, Start};
pub use moving::{Turn, place, remove};
pub use opening::NoMemory;
pub use seat::CellSeat;

/// The cells are a machine of the running rule: each entry changes its one turn word alone, and leaves what the other seats' guards read.
pub fn cells_are_a_machine<T>()
    ensures laws { Laws (cells T) }
    ensures legal { ExactLogsAreLegal T }
{}

/// Each entry of a legal log says what it found, and so does each beginning of one.
pub fn entries_find_words<T>()
    ensures entries { EntriesFind T }
    ensures beginnings { BeginningsAreExact T }
{}

/// A ticket is put once and taken once at most, as far as its cell's turn word says; the item taken is the one that was put.
pub fn tickets_stand_once<T>()
    ensures tickets { TicketsStandOnce T }
    ensures takes { TakesFollowPuts T }
    ensures stay { PutsAndTakesStay T }
    ensures alone { EntriesStandAlone T }
{}

/// Where a cell's turn word is odd, exactly one seat holds the turn.
pub fn one_seat_holds<T>()
    ensures { OneSeatHolds T }
{}
