//! The rows of a pass, and their numbers at its aggregator and in the layout.

ghost use Rattle.std.specs.Prelude.{◌≡◌, ◌↔◌, ℕ, ◌+◌, ◌*◌, ◌/◌, ◌<◌, ◌≤◌, IsTrue};
ghost use Rattle.fn_layout.specs.Tree.{aggregator, member, members};
ghost use Rattle.fn_layout.specs.Words.{IsSlot, row_number};
ghost use Rattle.fn_rows.specs.Aggregator.{state_of};
ghost use Rattle.fn_rows.specs.Machine.{IsFree};
ghost use Rattle.fn_core.specs.Machine.{IsRow, local_row, place};
ghost use Rattle.fn_core.specs.Order.{IsFirst, first_free, own_row};
ghost use Rattle.fn_core.specs.Words.{row_there};

use crate::machine::Machine;
use fn_layout::Kind;
use fn_rows::RowState;

impl Machine {
    ghost use Rattle.fn_core.specs.Fields.{HasTaken, InEach, ClimbsIn};

    // Whether the row is the pass's, of this kind and level.
    pub(crate) fn owns(&self, pass: u32, kind: Kind, level: u32, row: u32) -> bool
        requires { IsSlot self.now.start.shape pass kind level }
        ensures { IsTrue result ↔ ((n : ℕ) × IsRow self.now.start.shape pass kind level row n) }
    {
        self.own_row(pass, kind, level, u64::from(row)) == row
    }

    // Whether this row of the pass may be filled.
    pub(crate) fn is_free(&self, pass: u32, kind: Kind, level: u32, row: u32) -> bool
        requires taken { HasTaken self.now }
        requires slot { IsSlot self.now.start.shape pass kind level }
        ensures { InEach self.now (λ s. IsTrue result ↔ IsFree (members self.now.start.shape level (aggregator self.now.start.shape pass level)) (place self.now.start s kind level pass).state (member self.now.start.shape level pass) (local_row self.now.start.shape level pass row)) }
    {
        let (place, member) = self.seat(pass, kind, level);
        let number = self.local_row(pass, level, row);
        self.rows[place].is_free(member, number)
    }

    // The first of the pass's rows that may be filled, or how many rows it has.
    pub(crate) fn first_free(&self, pass: u32, kind: Kind, level: u32) -> u32
        requires taken { HasTaken self.now }
        requires slot { IsSlot self.now.start.shape pass kind level }
        ensures { InEach self.now (λ s. result ≡ first_free self.now.start s kind level pass) }
    {
        let (place, member) = self.seat(pass, kind, level);
        first_free_of(&self.rows[place], member, self.start.shape.rows())
    }

    // The first of the pass's rows that may be filled, by its number in the layout.
    pub(crate) fn free_row(&self, pass: u32, kind: Kind, level: u32) -> u32
        requires climbs { ClimbsIn self.now pass kind level }
        requires free { InEach self.now (λ s. first_free self.now.start s kind level pass < self.now.start.shape.rows) }
        ensures { InEach self.now (λ s. result ≡ row_number self.now.start.shape pass kind level (first_free self.now.start s kind level pass)) }
    {
        let row = self.first_free(pass, kind, level);
        self.start.shape.row_of(pass, kind, level, row)
    }

    // The pass's row that has this number at its aggregator, by its number in the layout.
    pub(crate) fn own_row(&self, pass: u32, kind: Kind, level: u32, row: u64) -> u32
        requires { IsSlot self.now.start.shape pass kind level }
        ensures { result ≡ own_row self.now.start.shape pass kind level row }
    {
        let shape = self.start.shape;
        let rest = row % u64::from(shape.rows());
        shape.row_of(pass, kind, level, rest as u32)
    }

    // The row with this number at the pass's aggregator, by its number in the layout.
    pub(crate) fn row_there(&self, pass: u32, kind: Kind, level: u32, row: u64) -> u32
        requires slot { IsSlot self.now.start.shape pass kind level }
        requires named { row / self.now.start.shape.rows < members self.now.start.shape level (aggregator self.now.start.shape pass level) }
        ensures { result ≡ row_there self.now.start.shape kind level (aggregator self.now.start.shape pass level) row }
    {
        let index = self.start.shape.aggregator_of(pass, level);
        self.row_in(kind, level, index, row)
    }
}

// The first of the member's rows that may be filled, or how many rows it has.
fn first_free_of(state: &RowState, member: u32, rows: u32) -> u32
    requires member { member < state.now.members }
    requires rows { rows ≡ state.now.rows }
    requires few { member < 64 }
    requires short { rows ≤ 8 }
    ensures { IsFirst (λ n. IsFree state.now.members (state_of state.now) member (member * rows + n)) rows result }
{
    for n in 0..rows {
        if state.is_free(member, member * rows + n) {
            return n;
        }
    }
    rows
}
