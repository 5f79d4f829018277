//! The callers of a queue.
ghost use Rattle.std.specs.Prelude.{◌≡◌};
ghost use Rattle.tq_queue.specs.Seen.{left_in};

use crate::fours::Four;
use fn_funnel::Pass;
use std::marker::Model;
use tq_cells::CellSeat;

/// A caller. Contracts see its seat at the cells, and its pass of each funnel.
#[derive(Drop)]
pub struct QueuePass<T> {
    pub(crate) seat: CellSeat<T>,
    pub(crate) passes: Four<Pass>,
}

impl<T> Model for QueuePass<T> {
    ghost use Rattle.tq_queue.specs.Seen.{CallerView};
    ghost use Rattle.tq_queue.specs.Kept.{Keeps};

    ghost Value = { CallerView T };

    ghost view = { λ p. record { seat = p.seat; passes = p.passes } };

    ghost invariant = { λ p. Keeps (record { seat = p.seat; passes = p.passes }) };
}

impl<T> QueuePass<T> {
    /// How many calls the pass may still make at least: what is left of its allowances.
    pub fn left(&self) -> u64
        ensures { result ≡ left_in self.now }
    {
        let passes = &self.passes;
        let tickets = passes.tail.allowance().min(passes.head.allowance());
        tickets.min(passes.free.allowance().min(passes.items.allowance()))
    }
}
