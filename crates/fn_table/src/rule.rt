// The rule of the table, and what each step on it tells.
ghost use Rattle.std.specs.Prelude.{◌≡◌};

use atomic_table::{Join, Play, Seat, Shared, Split, TableRule};
use fn_core::{Event, Move, Start};
use running::View;
use std::marker::{Brand, PhantomData};

pub type Known = View<Start, Event>;

/// Between any two steps the table stands as some legal log of the funnel leaves it.
pub struct Runs;

impl TableRule<(), Known, Start> for Runs {
    ghost use Rattle.std.specs.Prelude.{[]};
    ghost use Rattle.running.specs.Running.{Running, knows, upto};
    ghost use Rattle.fn_table.specs.Funnel.{funnel};

    ghost holds = { λ start. Running funnel start };

    ghost first = { λ start. knows start (upto start.shape.passes) [] };
}

/// Names the move that a step takes. Each call picks it.
pub trait Taken {
    ghost use Rattle.fn_core.specs.declared.Move.{Move};

    ghost step: { Move };
}

impl Taken for Brand {
    ghost use Rattle.fn_core.specs.declared.Move.TheVariants.{Glance};

    ghost step = { Glance };
}

/// A step that finds a number.
pub struct Finds<T> {
    step: PhantomData<T>,
}

impl<T: Taken> Play<(), Known> for Finds<T> {
    ghost use Rattle.std.specs.Prelude.{◌≡◌};
    ghost use Rattle.running.specs.Running.{TookAt, numbers_of};
    ghost use Rattle.fn_table.specs.Funnel.{funnel};
    ghost use Rattle.fn_table.specs.Seats.{taken_by};

    ghost then = { λ step me n after. TookAt funnel (taken_by (numbers_of me.0.parts) T.step) me.0 n after.0 × (after.1 ≡ me.1) };
}

/// A step that stores.
pub struct Stores<T> {
    step: PhantomData<T>,
}

impl<T: Taken> Play<(), Known> for Stores<T> {
    ghost use Rattle.std.specs.Prelude.{◌≡◌, ℕ};
    ghost use Rattle.running.specs.Running.{TookAt, numbers_of};
    ghost use Rattle.fn_table.specs.Funnel.{funnel};
    ghost use Rattle.fn_table.specs.Seats.{taken_by};

    ghost then = { λ step me n after. ((k : ℕ) × TookAt funnel (taken_by (numbers_of me.0.parts) T.step) me.0 k after.0) × (after.1 ≡ me.1) };
}

pub type Words = Shared<(), Known, Start, Runs>;

pub type Place = Seat<(), Known>;

/// A new seat sees the whole log, and keeps no number.
pub struct Sits;

impl Play<(), Known> for Sits {
    ghost use Rattle.std.specs.Prelude.{◌≡◌, []};
    ghost use Rattle.running.specs.Running.{knows, log_of};

    ghost then = { λ step me n after. after.0 ≡ knows me.0.start [] (log_of after.0.parts) };
}

/// The second number goes to a new seat.
pub struct Hands;

impl Split<Known> for Hands {
    ghost use Rattle.running.specs.Running.{handing, handed};

    ghost left = { handing };

    ghost right = { handed };
}

/// A new seat knows what the old one does.
pub struct Notes;

impl Split<Known> for Notes {
    ghost use Rattle.running.specs.Running.{noted};

    ghost left = { λ v. v };

    ghost right = { noted };
}

/// One seat takes in what another knows.
pub struct Meets;

impl Join<Known> for Meets {
    ghost use Rattle.running.specs.Running.{joined, spent};
    ghost use Rattle.fn_table.specs.Seats.{nowhere};

    ghost both = { joined };

    ghost spent = { spent nowhere };
}
