//! The workers.
ghost use Rattle.std.specs.Prelude.{◌≡◌, ◌<◌, ◌≤◌, ◌^◌, ℕ, All, IfOk, length, map, slice_index_or};
ghost use Rattle.running.specs.Running.{upto};
ghost use Rattle.tq_queue.specs.Seen.{IsOf, fresh_passes};
ghost use Rattle.relay_run.specs.Work.{first_lines, Advances, IsReady, IsDone, IsSame, AreSame, HasPlaces};

use crate::desks::Desk;
use crate::lines::MOST_LINES;
use crate::shares::Share;
use gates::Gate;
use std::alloc::Global;
use std::sync::Wait;
use std::thread;
use std::thread::Threads;
use tq_queue::{NoMemory, QueuePass, TicketQueue};

/// A worker: which of all it is, its desk, and a place for the ticket of each of its lines.
#[derive(Drop)]
pub struct Worker {
    pub share: Share,
    pub desk: Option<Desk>,
    pub tickets: Vec<u64>,
}

/// A worker for each pass, in order.
pub fn engage(
    alloc: Global,
    queue: &TicketQueue<u64>,
    passes: Vec<QueuePass<u64>>,
    lines: u64,
    workers: u32,
) -> Result<Vec<Worker>, NoMemory>
    requires lines { lines ≤ MOST_LINES }
    requires workers { queue.now.cells.start.seats ≡ workers }
    requires passes { passes.items ≡ fresh_passes queue.now }
    ensures numbers { IfOk result (λ all. map (λ worker. worker.share.worker) all.items ≡ upto workers) }
    ensures ready { IfOk result (λ all. All (IsReady queue.now) all.items) }
    ensures places { IfOk result (λ all. All (HasPlaces workers lines) all.items) }
{
    let mut all = Vec::new(alloc);
    let mut worker = 0;
    for pass in passes {
        let share = Share { worker, workers };
        let owed = share.size(lines);
        let tickets = vec![in alloc; 0; owed as usize]?;
        all.push(Worker {
            share,
            desk: Some(Desk { pass, owed }),
            tickets,
        })?;
        worker += 1;
    }
    Ok(all)
}

// Puts a worker's lines, in order, each with its ticket, and takes as many as are owed.
fn work<R: Wait, G: Gate>(
    rt: &R,
    queue: &TicketQueue<u64>,
    desk: Desk,
    tickets: &mut [u64],
    share: Share,
    gate: &G,
) -> Desk
    requires together { IsOf queue.now desk.pass }
    requires few { length tickets.old ≤ MOST_LINES }
    ensures together { IsOf queue.now result.pass }
    ensures outcome { Advances desk result tickets.new (first_lines share.workers share.worker (length tickets.old)) }
    ensures owed { result.owed ≡ 0 }
{
    let mut desk = desk;
    for (place, ticket) in tickets.iter_mut().enumerate() {
        let line = share.line(place);
        gate.before(share.worker, line);
        let (next, put) = desk.put(rt, queue, line);
        desk = next;
        *ticket = put;
        gate.answered(share.worker, line);
    }
    desk.take_rest(rt, queue)
}

// Does a worker's work.
fn work_at<R: Wait, G: Gate>(rt: &R, queue: &TicketQueue<u64>, worker: &mut Worker, gate: &G)
    requires { IsReady queue.now worker.old }
    ensures done { IsDone queue.now worker.new }
    ensures same { IsSame worker.old worker.new }
{
    let share = worker.share;
    match worker.desk.take() {
        Some(desk) => {
            let desk = work(rt, queue, desk, &mut worker.tickets, share, gate);
            worker.desk = Some(desk);
        }
        None => unreachable!(),
    }
}

// Does the work of all workers, at once.
fn work_all<R: Threads + Wait + Sync, G: Gate + Sync>(
    rt: &R,
    queue: &TicketQueue<u64>,
    all: &mut [Worker],
    gate: &G,
)
    requires { All (IsReady queue.now) all.old }
    ensures done { (i : ℕ) (d : _) → i < length all.old → IsDone queue.now (slice_index_or all.new i d) }
    ensures same { (i : ℕ) (d : _) → i < length all.old → IsSame (slice_index_or all.old i d) (slice_index_or all.new i d) }
{
    let count = all.len();
    if count > 0 {
        thread::for_each_mut(
            rt,
            all,
            count,
            &|_, worker: &mut Worker|
                requires { IsReady queue.now worker.now }
                ensures done { IsDone queue.entry.now worker.exit.now }
                ensures same { IsSame worker.entry.now worker.exit.now }
            { work_at(rt, queue, worker, gate) },
        );
    }
}

/// The workers after their work, which they do at once.
pub fn worked<R: Threads + Wait + Sync, G: Gate + Sync>(
    rt: &R,
    queue: &TicketQueue<u64>,
    all: Vec<Worker>,
    gate: &G,
) -> Vec<Worker>
    requires { All (IsReady queue.now) all.items }
    ensures done { All (IsDone queue.now) result.items }
    ensures same { AreSame all.items result.items }
{
    let mut all = all;
    work_all(rt, queue, &mut all, gate);
    all
}
