//! Items are put.
ghost use Rattle.std.specs.Prelude.{◌≡◌, ◌≤◌, ◌<◌, ◌+◌, ◌^◌, MatchResult};
ghost use Rattle.tq_cells.specs.Seen as seats;
ghost use Rattle.tq_queue.specs.Seen.{IsOf, left_in};
ghost use Rattle.tq_queue.specs.Claims.{MadePut, MetFull};
ghost use Rattle.tq_queue.specs.Moves.{HasPut, FoundFull, Placed};

use crate::fours::Four;
use crate::passes::QueuePass;
use crate::queues::TicketQueue;
use crossbeam_utils::Backoff;
use fn_funnel::{add, sub};
use std::sync::Wait;
use tq_cells::{CellSeat, Cells, place};

/// The queue had no free cell for the item.
#[derive(Debug, Drop)]
pub struct Full<T> {
    pub item: T,
}

// Places the item, once the turn of its ticket has come.
fn place_in_turn<T, R: Wait>(rt: &R, cells: &Cells<T>, seat: &mut CellSeat<T>, ticket: u64, item: T)
    requires together { seats.IsOf cells.now seat.old }
    requires ticket { ticket < 2 ^ 60 }
    ensures same { seats.IsSame seat.old seat.new }
    ensures placed { Placed seat.old ticket item seat.new }
{
    let backoff = Backoff::new();
    let mut item = item;
    for _ in rt.forever() {
        match place(cells, seat, ticket, item) {
            Ok(()) => return,
            Err((back, _)) => item = back,
        }
        backoff.snooze();
    }
    unreachable!()
}

/// Puts the item under the next ticket, and gives the ticket. It may wait for other callers, also for the cell of its ticket to be free.
pub fn try_put<T, R: Wait>(
    rt: &R,
    queue: &TicketQueue<T>,
    pass: QueuePass<T>,
    item: T,
) -> (QueuePass<T>, Result<u64, Full<T>>)
    requires together { IsOf queue.now pass }
    requires left { 1 ≤ left_in pass }
    ensures made { MatchResult result.1 (λ ticket. MadePut pass ticket item result.0) (λ full. (full.item ≡ item) × MetFull pass result.0) }
    ensures way { MatchResult result.1 (λ ticket. HasPut pass ticket item result.0) (λ full. FoundFull pass result.0) }
    ensures together { IsOf queue.now result.0 }
    ensures number { result.0.seat.number ≡ pass.seat.number }
    ensures left { left_in pass ≤ left_in result.0 + 1 }
{
    let QueuePass { mut seat, passes } = pass;
    let Four {
        tail,
        head,
        free,
        items,
    } = passes;
    let (free, room) = sub(rt, &queue.funnels.free, free, 1);
    if room.before == 0 {
        let passes = Four {
            tail,
            head,
            free,
            items,
        };
        let pass = QueuePass { seat, passes };
        return (pass, Err(Full { item }));
    }
    let (tail, added) = add(rt, &queue.funnels.tail, tail, 1);
    let ticket = added.before;
    place_in_turn(rt, &queue.cells, &mut seat, ticket, item);
    let (items, _) = add(rt, &queue.funnels.items, items, 1);
    let passes = Four {
        tail,
        head,
        free,
        items,
    };
    let pass = QueuePass { seat, passes };
    (pass, Ok(ticket))
}
