// The rule of the table, and what each step on it tells.
use crate::entry::{Event, Start};
use atomic_table::{Join, Play, Seat, Shared, Split, TableRule};
use running::View;

pub type Known<T> = View<Start, Event<T>>;

/// Between any two steps the table stands as some legal log of the cells leaves it.
pub struct Runs;

impl<T> TableRule<Option<T>, Known<T>, Start> for Runs {
    ghost use Rattle.std.specs.Prelude.{[]};
    ghost use Rattle.running.specs.Running.{knows, upto};
    ghost use Rattle.tq_cells.specs.Rule.{Rule};

    ghost holds = { λ start. Rule start };

    ghost first = { λ start. knows start (upto start.seats) [] };
}

pub type Words<T> = Shared<Option<T>, Known<T>, Start, Runs>;

pub type Place<T> = Seat<Option<T>, Known<T>>;

/// The exchange that takes the turn to put.
pub struct Holds;

impl<T> Play<Option<T>, Known<T>> for Holds {
    ghost use Rattle.tq_cells.specs.Rule.{held_turn};

    ghost then = { held_turn };
}

/// The store that gives the slot with the item.
pub struct Puts;

impl<T> Play<Option<T>, Known<T>> for Puts {
    ghost use Rattle.tq_cells.specs.Rule.{gave_item};

    ghost then = { gave_item };
}

/// The exchange that takes the turn to take.
pub struct Takes;

impl<T> Play<Option<T>, Known<T>> for Takes {
    ghost use Rattle.tq_cells.specs.Rule.{took_turn};

    ghost then = { took_turn };
}

/// The store that gives the empty slot.
pub struct Frees;

impl<T> Play<Option<T>, Known<T>> for Frees {
    ghost use Rattle.tq_cells.specs.Rule.{gave_turn};

    ghost then = { gave_turn };
}

/// A new seat sees the whole log, and keeps no number.
pub struct Sits;

impl<T> Play<Option<T>, Known<T>> for Sits {
    ghost use Rattle.std.specs.Prelude.{◌≡◌, []};
    ghost use Rattle.running.specs.Running.{knows, log_of};

    ghost then = { λ step me n after. after.0 ≡ knows me.0.start [] (log_of after.0.parts) };
}

/// A load that tells the whole log.
pub struct Looks;

impl<T> Play<Option<T>, Known<T>> for Looks {
    ghost use Rattle.std.specs.Prelude.{◌≡◌};
    ghost use Rattle.tq_cells.specs.Rule.{Looked};

    ghost then = { λ step me n after. Looked me.0 after.0 × (after.1 ≡ me.1) };
}

/// The second number goes to a new seat.
pub struct Hands;

impl<T> Split<Known<T>> for Hands {
    ghost use Rattle.running.specs.Running.{handing, handed};

    ghost left = { handing };

    ghost right = { handed };
}

/// One seat takes in what another knows.
pub struct Meets;

impl<T> Join<Known<T>> for Meets {
    ghost use Rattle.running.specs.Running.{joined, spent};
    ghost use Rattle.tq_cells.specs.Seats.{nowhere};

    ghost both = { joined };

    ghost spent = { spent nowhere };
}
