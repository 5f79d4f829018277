//! What the workers hand in.
ghost use Rattle.std.specs.Prelude.{◌≡◌, ◌+◌, ◌<◌, ◌≤◌, ◌++◌, All, IfOk, length, map, replicate, vec_len, vec_capacity};
ghost use Rattle.relay_run.specs.Work.{line_of, pass_in, passes_in, HasRoom};
ghost use Rattle.relay_run.specs.Filling.{filled, all_filled};

use crate::desks::Desk;
use crate::lines::MOST_LINES;
use crate::shares::Share;
use crate::workers::Worker;
use std::alloc::Global;
use tq_queue::{NoMemory, QueuePass};

/// The passes of all workers, and the tickets of each, in order.
#[derive(Drop)]
pub struct Handed {
    pub passes: Vec<QueuePass<u64>>,
    pub tickets: Vec<Vec<u64>>,
}

// Takes the pass of a desk that is there.
fn push_pass(passes: &mut Vec<QueuePass<u64>>, desk: Option<Desk>)
    requires { vec_len passes.old < vec_capacity passes.old }
    ensures items { passes.new.items ≡ passes.old.items ++ pass_in desk }
    ensures capacity { vec_capacity passes.new ≡ vec_capacity passes.old }
    ensures len { vec_len passes.new ≤ vec_len passes.old + 1 }
{
    if let Some(desk) = desk {
        passes.push_reserved(desk.pass);
    }
}

impl Handed {
    /// Room for so many workers.
    pub fn new(alloc: Global, workers: usize) -> Result<Handed, NoMemory>
        ensures passes { IfOk result (λ handed. HasRoom workers handed.passes) }
        ensures tickets { IfOk result (λ handed. HasRoom workers handed.tickets) }
    {
        Ok(Handed {
            passes: Vec::with_capacity(alloc, workers)?,
            tickets: Vec::with_capacity(alloc, workers)?,
        })
    }

    /// Takes what the workers hand in.
    pub fn take_in(self, all: Vec<Worker>) -> Handed
        requires passes { HasRoom (length all.items) self.passes }
        requires tickets { HasRoom (length all.items) self.tickets }
        ensures passes { result.passes.items ≡ passes_in all.items }
        ensures tickets { result.tickets.items ≡ map (λ worker. worker.tickets) all.items }
    {
        let Handed {
            mut passes,
            mut tickets,
        } = self;
        for worker in all {
            let Worker {
                share: _,
                desk,
                tickets: own,
            } = worker;
            push_pass(&mut passes, desk);
            tickets.push_reserved(own);
        }
        Handed { passes, tickets }
    }
}

/// A place for so many numbers.
pub fn places(alloc: Global, count: u64) -> Result<Vec<u64>, NoMemory>
    ensures { IfOk result (λ all. all.items ≡ replicate count 0) }
{
    Ok(vec![in alloc; 0; count as usize]?)
}

// Writes the number of each of a worker's lines at its ticket.
fn fill(order: &mut [u64], tickets: &[u64], share: Share)
    requires few { length tickets.now ≤ MOST_LINES }
    requires within { All (λ ticket. ticket < length order.old) tickets.now }
    ensures { order.new ≡ filled (line_of share.workers share.worker) 0 tickets.now order.old }
{
    for (place, ticket) in tickets.iter().enumerate() {
        order[*ticket as usize] = share.line(place);
    }
}

// Writes the number of each line at its ticket.
fn fill_all(order: &mut [u64], tickets: &[Vec<u64>], workers: u32)
    requires workers { length tickets.now ≤ workers }
    requires few { All (λ own. length own.items ≤ MOST_LINES) tickets.now }
    requires within { All (λ own. All (λ ticket. ticket < length order.old) own.items) tickets.now }
    ensures { order.new ≡ all_filled workers 0 (map (λ own. own.items) tickets.now) order.old }
{
    for (worker, own) in tickets.iter().enumerate() {
        let share = Share {
            worker: worker as u32,
            workers,
        };
        fill(order, own, share);
    }
}

/// The numbers of the lines, each written at its ticket.
pub fn written(order: Vec<u64>, tickets: Vec<Vec<u64>>, workers: u32) -> Vec<u64>
    requires workers { length tickets.items ≤ workers }
    requires few { All (λ own. length own.items ≤ MOST_LINES) tickets.items }
    requires within { All (λ own. All (λ ticket. ticket < length order.items) own.items) tickets.items }
    ensures { result.items ≡ all_filled workers 0 (map (λ own. own.items) tickets.items) order.items }
{
    let mut order = order;
    fill_all(&mut order, &tickets, workers);
    order
}
