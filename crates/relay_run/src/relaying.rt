//! Relaying lines.
ghost use Rattle.std.specs.Prelude.{◌≡◌, ◌<◌, ◌≤◌, All, IfOk};
ghost use Rattle.tq_queue.specs.Laws.{IsSound};
ghost use Rattle.relay_run.specs.Claim.{IsOrder};
ghost use Rattle.relay_run.specs.Relay.{IsRelay, order_of};

use crate::gathering::{Handed, places, written};
use crate::lines::MOST_LINES;
use crate::workers::{engage, worked};
use gates::Gate;
use std::alloc::Global;
use std::sync::Wait;
use std::thread::Threads;
use tq_queue::{NoMemory, QueueBook, TicketQueue};

/// What stands after a relay: the numbers of the lines by rising ticket, and what the queue was.
#[derive(Drop)]
pub struct Relayed {
    pub order: Vec<u64>,
    pub book: QueueBook<u64>,
}

/// Relays the numbers of so many lines by so many workers, all at once, through a queue of this capacity. A worker puts its lines in order, asks the gate before the first try of each and after its put, and takes as many as it puts.
pub fn relay<R: Threads + Wait + Sync, G: Gate + Sync>(
    rt: &R,
    alloc: Global,
    lines: u64,
    workers: u32,
    capacity: u32,
    gate: &G,
) -> Result<Relayed, NoMemory>
    requires lines { lines ≤ MOST_LINES }
    requires workers { (1 ≤ workers) × (workers ≤ 64) }
    requires capacity { (1 ≤ capacity) × (capacity ≤ 65536) }
    ensures told { IfOk result (λ relayed. IsOrder workers lines relayed.order.items) }
    ensures book { IfOk result (λ relayed. IsRelay workers capacity lines relayed.book) }
    ensures sound { IfOk result (λ relayed. IsSound relayed.book) }
    ensures order { IfOk result (λ relayed. relayed.order.items ≡ order_of lines relayed.book) }
    ensures within { IfOk result (λ relayed. All (λ line. line < lines) relayed.order.items) }
{
    let order = places(alloc, lines)?;
    let room = Handed::new(alloc, workers as usize)?;
    let (queue, passes) = TicketQueue::open(alloc, capacity, workers)?;
    let all = engage(alloc, &queue, passes, lines, workers)?;
    let handed = room.take_in(worked(rt, &queue, all, gate));
    let book = queue.close(handed.passes);
    let order = written(order, handed.tickets, workers);
    Ok(Relayed { order, book })
}
