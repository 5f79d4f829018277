//! An item that goes from one thread to another through a queue.
ghost use Rattle.std.specs.Prelude.{◌≡◌, IfOk};
ghost use Rattle.tq_queue.specs.Seen.{IsOf};
ghost use Rattle.uses.specs.Handed.{HasGiven, HasGot};

use std::alloc::Global;
use std::sync::Wait;
use std::thread;
use std::thread::Threads;
use tq_queue::{Empty, NoMemory, QueuePass, TicketQueue, try_put, try_take};

// Puts the item, once there is room.
fn give<T, R: Wait>(rt: &R, queue: &TicketQueue<T>, pass: QueuePass<T>, item: T) -> QueuePass<T>
    requires { IsOf queue.now pass }
    ensures { HasGiven queue.now pass item result }
{
    let mut pass = pass;
    let mut item = item;
    for _ in rt.forever() {
        if pass.left() > 0 {
            let (next, put) = try_put(rt, queue, pass, item);
            pass = next;
            match put {
                Ok(_) => return pass,
                Err(full) => item = full.item,
            }
        }
        thread::yield_now();
    }
    unreachable!()
}

// Takes an item, once there is one.
fn get<T, R: Wait>(rt: &R, queue: &TicketQueue<T>, pass: QueuePass<T>) -> (QueuePass<T>, T)
    requires { IsOf queue.now pass }
    ensures { HasGot queue.now pass result.1 result.0 }
{
    let mut pass = pass;
    for _ in rt.forever() {
        if pass.left() > 0 {
            let (next, taken) = try_take(rt, queue, pass);
            pass = next;
            match taken {
                Ok((_, item)) => return (pass, item),
                Err(Empty) => {}
            }
        }
        thread::yield_now();
    }
    unreachable!()
}

/// One thread puts an item into a queue, and another takes it. Gives what came out, and how many items were put.
pub fn hand_over<T: Send + Drop, R: Threads + Wait + Sync>(
    rt: &R,
    alloc: Global,
    item: T,
) -> Result<(T, u64), NoMemory>
    ensures { IfOk result (λ r. (r.0 ≡ item) × (r.1 ≡ 1)) }
{
    let (queue, mut passes) = TicketQueue::open(alloc, 1, 2)?;
    let (Some(taker), Some(giver)) = (passes.pop(), passes.pop()) else {
        unreachable!()
    };
    let shared = &queue;
    let (giver, (taker, got)) = thread::join(
        rt,
        move || -> QueuePass<T>
            requires { IsOf shared.now giver }
            ensures { HasGiven shared.entry.now giver item result }
        { give(rt, shared, giver, item) },
        move || -> (QueuePass<T>, T)
            requires { IsOf shared.now taker }
            ensures { HasGot shared.entry.now taker result.1 result.0 }
        { get(rt, shared, taker) },
    );
    passes.push(giver)?;
    passes.push(taker)?;
    let book = queue.close(passes);
    Ok((got, book.puts()))
}
