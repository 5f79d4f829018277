//! What a closed queue was.
ghost use Rattle.std.specs.Prelude.{◌≡◌};
ghost use Rattle.tq_queue.specs.Seen.{value_of};

use crate::fours::Four;
use fn_funnel::Book;
use std::marker::Model;
use tq_cells::CellBook;

/// What a closed queue was. Contracts see the log of its cells, and the books of its four funnels. Items that are left are dropped with the book.
#[derive(Drop)]
pub struct QueueBook<T> {
    pub(crate) cells: CellBook<T>,
    pub(crate) funnels: Four<Book>,
}

impl<T> Model for QueueBook<T> {
    ghost use Rattle.tq_queue.specs.Seen.{BookView};

    ghost Value = { BookView T };

    ghost view = { λ b. record { cells = b.cells; funnels = b.funnels } };
}

impl<T> QueueBook<T> {
    /// How many items were put.
    pub fn puts(&self) -> u64
        ensures { result ≡ value_of self.now.funnels.tail }
    {
        self.funnels.tail.value()
    }
}
