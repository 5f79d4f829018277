//! Items are taken.
ghost use Rattle.std.specs.Prelude.{◌≡◌, ◌≤◌, ◌<◌, ◌+◌, ◌^◌, MatchResult};
ghost use Rattle.tq_cells.specs.Seen as seats;
ghost use Rattle.tq_queue.specs.Seen.{IsOf, left_in};
ghost use Rattle.tq_queue.specs.Claims.{MadeTake, MetEmpty};
ghost use Rattle.tq_queue.specs.Moves.{HasTaken, FoundEmpty, Taken};

use crate::fours::Four;
use crate::passes::QueuePass;
use crate::queues::TicketQueue;
use crossbeam_utils::Backoff;
use fn_funnel::{add, sub};
use std::sync::Wait;
use tq_cells::{CellSeat, Cells, remove};

/// The queue had no item.
#[derive(Clone, Copy, Debug, PartialEq, Eq)]
pub struct Empty;

// Removes the item, once the turn of its ticket has come.
fn remove_in_turn<T, R: Wait>(rt: &R, cells: &Cells<T>, seat: &mut CellSeat<T>, ticket: u64) -> T
    requires together { seats.IsOf cells.now seat.old }
    requires ticket { ticket < 2 ^ 60 }
    ensures same { seats.IsSame seat.old seat.new }
    ensures taken { Taken seat.old ticket result seat.new }
{
    let backoff = Backoff::new();
    for _ in rt.forever() {
        match remove(cells, seat, ticket) {
            Ok(item) => return item,
            Err(_) => {}
        }
        backoff.snooze();
    }
    unreachable!()
}

/// Takes the item of the next ticket, and gives both. It may wait for other callers, also for the item of its ticket.
pub fn try_take<T, R: Wait>(
    rt: &R,
    queue: &TicketQueue<T>,
    pass: QueuePass<T>,
) -> (QueuePass<T>, Result<(u64, T), Empty>)
    requires together { IsOf queue.now pass }
    requires left { 1 ≤ left_in pass }
    ensures made { MatchResult result.1 (λ taken. MadeTake pass taken.0 taken.1 result.0) (λ _. MetEmpty pass result.0) }
    ensures way { MatchResult result.1 (λ taken. HasTaken pass taken.0 taken.1 result.0) (λ _. FoundEmpty pass result.0) }
    ensures together { IsOf queue.now result.0 }
    ensures number { result.0.seat.number ≡ pass.seat.number }
    ensures left { left_in pass ≤ left_in result.0 + 1 }
{
    let QueuePass { mut seat, passes } = pass;
    let Four {
        tail,
        head,
        free,
        items,
    } = passes;
    let (items, there) = sub(rt, &queue.funnels.items, items, 1);
    if there.before == 0 {
        let passes = Four {
            tail,
            head,
            free,
            items,
        };
        let pass = QueuePass { seat, passes };
        return (pass, Err(Empty));
    }
    let (head, added) = add(rt, &queue.funnels.head, head, 1);
    let ticket = added.before;
    let item = remove_in_turn(rt, &queue.cells, &mut seat, ticket);
    let (free, _) = add(rt, &queue.funnels.free, free, 1);
    let passes = Four {
        tail,
        head,
        free,
        items,
    };
    let pass = QueuePass { seat, passes };
    (pass, Ok((ticket, item)))
}
