ghost use Rattle.std.specs.Prelude.{◌≡◌, ◌≤◌};
ghost use Rattle.tq_queue.specs.Seen.{IsOf};

use std::sync::Wait;
use std::test::*;
use std::thread;
use tq_queue::*;

// The pass after a put, and whether it met what was wanted: the ticket, or that the queue is full.
fn puts<R: Wait>(
    rt: &R,
    queue: &TicketQueue<u8>,
    pass: QueuePass<u8>,
    item: u8,
    wanted: Option<u64>,
) -> (QueuePass<u8>, bool)
    requires { IsOf queue.now pass }
    ensures together { IsOf queue.now result.0 }
    ensures number { result.0.seat.number ≡ pass.seat.number }
{
    if pass.left() == 0 {
        return (pass, false);
    }
    let (pass, put) = try_put(rt, queue, pass, item);
    let right = match put {
        Ok(ticket) => wanted == Some(ticket),
        Err(full) => wanted.is_none() && full.item == item,
    };
    (pass, right)
}

// The pass after a take, and whether it met what was wanted: the ticket and the item, or that the queue is empty.
fn takes<R: Wait>(
    rt: &R,
    queue: &TicketQueue<u8>,
    pass: QueuePass<u8>,
    wanted: Option<(u64, u8)>,
) -> (QueuePass<u8>, bool)
    requires { IsOf queue.now pass }
    ensures together { IsOf queue.now result.0 }
    ensures number { result.0.seat.number ≡ pass.seat.number }
{
    if pass.left() == 0 {
        return (pass, false);
    }
    let (pass, taken) = try_take(rt, queue, pass);
    let right = match taken {
        Ok((ticket, item)) => match wanted {
            Some((at, that)) => ticket == at && item == that,
            None => false,
        },
        Err(Empty) => wanted.is_none(),
    };
    (pass, right)
}

#[test]
fn one_pass_goes_round(rt: HostRuntime) -> Result<(), Fail> {
    let (queue, mut passes) = TicketQueue::open(rt.alloc(), 1, 1)?;
    let Some(pass) = passes.pop() else {
        unreachable!()
    };
    assert_eq!(rt; pass.left(), 1 << 52);
    let (pass, first) = puts(&rt, &queue, pass, b'a', Some(0));
    let (pass, second) = puts(&rt, &queue, pass, b'b', None);
    let (pass, third) = takes(&rt, &queue, pass, Some((0, b'a')));
    let (pass, fourth) = takes(&rt, &queue, pass, None);
    let (pass, fifth) = puts(&rt, &queue, pass, b'b', Some(1));
    assert!(rt; first && second && third && fourth && fifth);
    passes.push(pass)?;
    let book = queue.close(passes);
    assert_eq!(rt; book.puts(), 2);
    Ok(())
}

// Puts the item, once there is room.
fn put_one<R: Wait>(
    rt: &R,
    queue: &TicketQueue<u8>,
    pass: QueuePass<u8>,
    item: u8,
) -> (QueuePass<u8>, u64)
    requires { IsOf queue.now pass }
    ensures together { IsOf queue.now result.0 }
    ensures number { result.0.seat.number ≡ pass.seat.number }
{
    let mut pass = pass;
    for _ in rt.forever() {
        if pass.left() > 0 {
            let (next, put) = try_put(rt, queue, pass, item);
            pass = next;
            if let Ok(ticket) = put {
                return (pass, ticket);
            }
        }
        thread::yield_now();
    }
    unreachable!()
}

// Takes an item, once there is one.
fn take_one<R: Wait>(
    rt: &R,
    queue: &TicketQueue<u8>,
    pass: QueuePass<u8>,
) -> (QueuePass<u8>, (u64, u8))
    requires { IsOf queue.now pass }
    ensures together { IsOf queue.now result.0 }
    ensures number { result.0.seat.number ≡ pass.seat.number }
{
    let mut pass = pass;
    for _ in rt.forever() {
        if pass.left() > 0 {
            let (next, taken) = try_take(rt, queue, pass);
            pass = next;
            if let Ok(found) = taken {
                return (pass, found);
            }
        }
        thread::yield_now();
    }
    unreachable!()
}

// Whether a hundred items got the tickets from 0 on.
fn put_all<R: Wait>(rt: &R, queue: &TicketQueue<u8>, pass: QueuePass<u8>) -> (QueuePass<u8>, bool)
    requires { IsOf queue.now pass }
    ensures together { IsOf queue.now result.0 }
    ensures number { result.0.seat.number ≡ pass.seat.number }
{
    let mut pass = pass;
    let mut right = true;
    for value in 0..100u8 {
        let (next, ticket) = put_one(rt, queue, pass, 99 - value);
        pass = next;
        right &= ticket == u64::from(value);
    }
    (pass, right)
}

// Whether a hundred tickets had their own items.
fn take_all<R: Wait>(rt: &R, queue: &TicketQueue<u8>, pass: QueuePass<u8>) -> (QueuePass<u8>, bool)
    requires { IsOf queue.now pass }
    ensures together { IsOf queue.now result.0 }
    ensures number { result.0.seat.number ≡ pass.seat.number }
{
    let mut pass = pass;
    let mut right = true;
    for value in 0..100u8 {
        let (next, (ticket, item)) = take_one(rt, queue, pass);
        pass = next;
        right &= ticket == u64::from(value) && item == 99 - value;
    }
    (pass, right)
}

#[test]
fn two_threads_put_and_take(rt: HostRuntime) -> Result<(), Fail> {
    let (queue, mut passes) = TicketQueue::open(rt.alloc(), 3, 2)?;
    let (Some(second), Some(first)) = (passes.pop(), passes.pop()) else {
        unreachable!()
    };
    let shared = &queue;
    let ((_, put), (_, taken)) = thread::join(
        &rt,
        move || -> (QueuePass<u8>, bool)
            requires { IsOf shared.now first }
            ensures together { IsOf shared.entry.now result.0 }
            ensures number { result.0.seat.number ≡ first.seat.number }
        { put_all(&rt, shared, first) },
        move || -> (QueuePass<u8>, bool)
            requires { IsOf shared.now second }
            ensures together { IsOf shared.entry.now result.0 }
            ensures number { result.0.seat.number ≡ second.seat.number }
        { take_all(&rt, shared, second) },
    );
    assert!(rt; put && taken);
    Ok(())
}
