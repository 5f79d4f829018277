ghost use Rattle.std.specs.Prelude.{◌<◌, ◌^◌, IfOk};
ghost use Rattle.tq_cells.specs.Seen.{IsOf, IsSame};

use std::alloc::{AllocError, Global};
use std::sync::Wait;
use std::test::*;
use std::thread;
use tq_cells::*;

type Bytes = Vec<u8>;

#[test]
fn cells_open_and_close(rt: HostRuntime) -> Result<(), Fail> {
    let (cells, seats) = Cells::<Bytes>::open(rt.alloc(), 3, 2)?;
    assert_eq!(rt; seats.len(), 2);
    drop(cells.close(seats));
    Ok(())
}

// Whether each of four tickets can be put and has its own item.
fn goes_round(
    alloc: Global,
    cells: &Cells<Bytes>,
    seat: &mut CellSeat<Bytes>,
) -> Result<bool, AllocError>
    requires { IsOf cells.now seat.old }
    ensures { IfOk result (λ _. IsSame seat.old seat.new) }
{
    let mut right = true;
    for ticket in 0..4 {
        let item = vec![in alloc; ticket as u8]?;
        right &= place(cells, seat, ticket, item).is_ok();
        right &= match remove(cells, seat, ticket) {
            Ok(item) => item.as_slice() == [ticket as u8].as_slice(),
            Err(_) => false,
        };
    }
    Ok(right)
}

#[test]
fn one_seat_goes_round_twice(rt: HostRuntime) -> Result<(), Fail> {
    let (cells, mut seats) = Cells::open(rt.alloc(), 2, 1)?;
    let Some(mut seat) = seats.pop() else {
        unreachable!()
    };
    assert!(rt; goes_round(rt.alloc(), &cells, &mut seat)?);
    seats.push(seat)?;
    drop(cells.close(seats));
    Ok(())
}

#[test]
fn an_early_ticket_misses(rt: HostRuntime) -> Result<(), Fail> {
    let (cells, mut seats) = Cells::open(rt.alloc(), 2, 1)?;
    let Some(mut seat) = seats.pop() else {
        unreachable!()
    };
    assert!(rt; place(&cells, &mut seat, 1, vec![in rt.alloc(); 1u8]?).is_ok());
    let (item, turn) = match place(&cells, &mut seat, 3, vec![in rt.alloc(); 3u8]?) {
        Ok(()) => return Ok(()),
        Err(missed) => missed,
    };
    assert_eq!(rt; item.as_slice(), [3].as_slice());
    assert_eq!(rt; turn, Turn { found: 6 });
    let turn = remove(&cells, &mut seat, 3).err();
    assert_eq!(rt; turn, Some(Turn { found: 6 }));
    seats.push(seat)?;
    drop(cells.close(seats));
    Ok(())
}

fn put_one<R: Wait>(
    rt: &R,
    cells: &Cells<Bytes>,
    seat: &mut CellSeat<Bytes>,
    ticket: u64,
    mut item: Bytes,
)
    requires together { IsOf cells.now seat.old }
    requires ticket { ticket < 2 ^ 60 }
    ensures { IsSame seat.old seat.new }
{
    for _ in rt.forever() {
        match place(cells, seat, ticket, item) {
            Ok(()) => return,
            Err((back, _)) => item = back,
        }
        thread::yield_now();
    }
    unreachable!()
}

fn take_one<R: Wait>(rt: &R, cells: &Cells<Bytes>, seat: &mut CellSeat<Bytes>, ticket: u64) -> Bytes
    requires together { IsOf cells.now seat.old }
    requires ticket { ticket < 2 ^ 60 }
    ensures { IsSame seat.old seat.new }
{
    for _ in rt.forever() {
        if let Ok(item) = remove(cells, seat, ticket) {
            return item;
        }
        thread::yield_now();
    }
    unreachable!()
}

// The items, last first.
fn put_all<R: Wait>(
    rt: &R,
    cells: &Cells<Bytes>,
    mut seat: CellSeat<Bytes>,
    mut items: Vec<Bytes>,
) -> CellSeat<Bytes>
    requires together { IsOf cells.now seat }
    ensures { IsSame seat result }
{
    for ticket in 0..100 {
        let Some(item) = items.pop() else { break };
        put_one(rt, cells, &mut seat, ticket, item);
    }
    seat
}

// Whether each ticket had its own item.
fn take_all<R: Wait>(
    rt: &R,
    cells: &Cells<Bytes>,
    mut seat: CellSeat<Bytes>,
) -> (CellSeat<Bytes>, bool)
    requires together { IsOf cells.now seat }
    ensures { IsSame seat result.0 }
{
    let mut right = true;
    for ticket in 0..100 {
        let item = take_one(rt, cells, &mut seat, ticket);
        right &= item.as_slice() == [99 - ticket as u8].as_slice();
    }
    (seat, right)
}

#[test]
fn two_threads_pass_items(rt: HostRuntime) -> Result<(), Fail> {
    let (cells, mut seats) = Cells::open(rt.alloc(), 3, 2)?;
    let (Some(second), Some(first)) = (seats.pop(), seats.pop()) else {
        unreachable!()
    };
    let mut items = Vec::new(rt.alloc());
    for value in 0..100u8 {
        items.push(vec![in rt.alloc(); value]?)?;
    }
    let shared = &cells;
    let (first, (second, right)) = thread::join(
        &rt,
        move || -> CellSeat<Bytes>
            requires { IsOf shared.now first }
            ensures { IsSame first result }
        { put_all(&rt, shared, first, items) },
        move || -> (CellSeat<Bytes>, bool)
            requires { IsOf shared.now second }
            ensures { IsSame second result.0 }
        { take_all(&rt, shared, second) },
    );
    assert!(rt; right);
    seats.push(first)?;
    seats.push(second)?;
    drop(cells.close(seats));
    Ok(())
}
