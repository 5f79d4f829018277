//! What a closed table was.

ghost use Rattle.std.specs.Prelude.{◌≡◌};

use crate::rule::Place;
use std::marker::Model;

/// What a closed table was. Contracts see what it opened with, and its whole log.
#[derive(Drop)]
pub struct Book {
    pub(crate) value: u64,
    pub(crate) opening: u64,
    pub(crate) seat: Place,
}

impl Model for Book {
    ghost use Rattle.std.specs.Prelude.{◌≡◌};
    ghost use Rattle.fn_core.specs.Calls.{CoreLog, state_in, IsLegal};
    ghost use Rattle.fn_table.specs.Seats.{shown_book};

    ghost Value = { CoreLog };

    ghost view = { λ b. shown_book b.seat.me.0 };

    ghost invariant = { λ b. (b.value ≡ (state_in (shown_book b.seat.me.0)).main) × (b.opening ≡ b.seat.me.0.start.opening) × IsLegal (shown_book b.seat.me.0) };
}

impl Book {
    ghost use Rattle.fn_model.specs.Integer.{value};
    ghost use Rattle.fn_core.specs.Calls.{calls_in};

    /// The integer after all calls.
    pub fn value(&self) -> u64
        ensures { result ≡ value self.now.start.cap self.now.start.opening (calls_in self.now) }
    {
        self.value
    }

    /// The integer before all calls.
    pub fn opening(&self) -> u64
        ensures { result ≡ self.now.start.opening }
    {
        self.opening
    }
}
