//! A queue ends.
ghost use Rattle.std.specs.Prelude.{◌≡◌, ◌≤◌, All, length};
ghost use Rattle.tq_queue.specs.Fours.{pick, AllFour};
ghost use Rattle.tq_queue.specs.Seen.{IsOf, AreAll, HasClosed, IsClosed};
ghost use Rattle.tq_queue.specs.Kept.{Keeps};
ghost use Rattle.tq_queue.specs.Laws.{IsSound};
ghost use Rattle.tq_queue.specs.Shares.{HoldsParts, IsReady};

use crate::books::QueueBook;
use crate::fours::Four;
use crate::passes::QueuePass;
use crate::queues::TicketQueue;
use crate::rooms::{Parts, Rooms, push_each};
use fn_funnel::{Book, Funnel, Pass};

// The seats, and the passes of each funnel, each in the room that was made for them.
fn part<T>(rooms: Rooms<T>, passes: Vec<QueuePass<T>>) -> Parts<T>
    requires { length passes.items ≤ 64 }
    ensures parts { HoldsParts passes.items result }
    ensures kept { All Keeps passes.items }
{
    let Rooms {
        mut seats,
        passes: mut parts,
    } = rooms;
    for pass in passes {
        let QueuePass { seat, passes: own } = pass;
        seats.push_reserved(seat);
        push_each(&mut parts, own);
    }
    Parts {
        seats,
        passes: parts,
    }
}

// Ends a funnel.
fn close_one(funnel: Funnel, passes: Vec<Pass>) -> Book
    requires { IsReady funnel passes.items }
    ensures { HasClosed funnel passes.items result }
{
    funnel.close(passes)
}

// Ends each of four funnels.
fn close_each(funnels: Four<Funnel>, passes: Four<Vec<Pass>>) -> Four<Book>
    requires { AllFour (λ w. IsReady (pick w funnels) (pick w passes).items) }
    ensures { AllFour (λ w. HasClosed (pick w funnels) (pick w passes).items (pick w result)) }
{
    Four {
        tail: close_one(funnels.tail, passes.tail),
        head: close_one(funnels.head, passes.head),
        free: close_one(funnels.free, passes.free),
        items: close_one(funnels.items, passes.items),
    }
}

impl<T> TicketQueue<T> {
    /// Ends the queue, given all its passes, in order of number.
    pub fn close(self, passes: Vec<QueuePass<T>>) -> QueueBook<T>
        requires together { All (λ p. IsOf self p) passes.items }
        requires all { AreAll self passes.items }
        ensures closed { IsClosed self passes.items result }
        ensures sound { IsSound result }
    {
        let TicketQueue {
            cells,
            funnels,
            rooms,
        } = self;
        let parts = part(rooms.into_inner(), passes);
        QueueBook {
            cells: cells.close(parts.seats),
            funnels: close_each(funnels, parts.passes),
        }
    }
}
