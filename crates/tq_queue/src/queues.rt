//! The queue.
use crate::fours::Four;
use crate::rooms::Rooms;
use fn_funnel::Funnel;
use std::marker::Model;
use std::sync::Mutex;
use tq_cells::Cells;

/// A bounded queue of items under tickets. Contracts see its cells and its four funnels: the tickets put and taken, the cells that are free, and the items there.
#[derive(Drop)]
pub struct TicketQueue<T> {
    pub(crate) cells: Cells<T>,
    pub(crate) funnels: Four<Funnel>,
    // Taken out at the closing alone. The lock is never taken: by it threads may share what they may not read.
    pub(crate) rooms: Mutex<Rooms<T>>,
}

impl<T> Model for TicketQueue<T> {
    ghost use Rattle.tq_queue.specs.Seen.{QueueView};
    ghost use Rattle.tq_queue.specs.Kept.{IsOpen};

    ghost Value = { QueueView };

    ghost view = { λ q. record { cells = q.cells; funnels = q.funnels } };

    ghost invariant = { λ q. IsOpen (record { cells = q.cells; funnels = q.funnels }) };
}
