//! A queue opens.
ghost use Rattle.std.specs.Prelude.{◌≡◌, ◌≤◌, All, IfOk};
ghost use Rattle.fn_table.specs.Seen as funnels;
ghost use Rattle.tq_cells.specs.Seen as seats_of;
ghost use Rattle.tq_queue.specs.Fours.{pick, AllFour};
ghost use Rattle.tq_queue.specs.Seen.{Begins, AllBegin, OpensWith, fresh_passes, IsWhole};
ghost use Rattle.tq_queue.specs.Kept.{AreSizes};

use crate::fours::{Four, next_of, next_of_each};
use crate::passes::QueuePass;
use crate::queues::TicketQueue;
use crate::rooms::Rooms;
use fn_funnel::{Funnel, OpenFault, Pass, shape_for};
use std::alloc::Global;
use std::sync::Mutex;
use tq_cells::{CellSeat, Cells, NoMemory};

/// How many calls a pass may make on each funnel.
const ALLOWANCE: u64 = 1 << 52;

// A funnel of the queue, with its passes in order of number.
fn open_funnel(alloc: Global, passes: u32, first: u64) -> Result<(Funnel, Vec<Pass>), NoMemory>
    requires passes { (1 ≤ passes) × (passes ≤ 64) }
    requires first { first ≤ 65536 }
    ensures funnel { IfOk result (λ r. Begins passes first r.0.start) }
    ensures passes { IfOk result (λ r. funnels.AreOpened r.0 r.1.items) }
{
    let allowances = vec![in alloc; ALLOWANCE; passes as usize]?;
    match Funnel::open(alloc, shape_for(passes), first, &allowances) {
        Ok(opened) => Ok(opened),
        Err(OpenFault::NoMemory) => Err(NoMemory),
        Err(_) => unreachable!(),
    }
}

// The four funnels of a queue, each with its passes.
fn open_funnels(
    alloc: Global,
    passes: u32,
    capacity: u32,
) -> Result<(Four<Funnel>, Four<Vec<Pass>>), NoMemory>
    requires passes { (1 ≤ passes) × (passes ≤ 64) }
    requires capacity { capacity ≤ 65536 }
    ensures funnels { IfOk result (λ r. AllBegin capacity passes (λ w. (pick w r.0).start)) }
    ensures passes { IfOk result (λ r. AllFour (λ w. funnels.AreOpened (pick w r.0) (pick w r.1).items)) }
{
    let (tail, tails) = open_funnel(alloc, passes, 0)?;
    let (head, heads) = open_funnel(alloc, passes, 0)?;
    let (free, frees) = open_funnel(alloc, passes, u64::from(capacity))?;
    let (items, item_passes) = open_funnel(alloc, passes, 0)?;
    let funnels = Four {
        tail,
        head,
        free,
        items,
    };
    let passes = Four {
        tail: tails,
        head: heads,
        free: frees,
        items: item_passes,
    };
    Ok((funnels, passes))
}

// The passes: each has the seat and the funnel passes of its number.
fn deal<T: Drop>(
    alloc: Global,
    queue: &TicketQueue<T>,
    count: u32,
    seats: Vec<CellSeat<T>>,
    passes: Four<Vec<Pass>>,
) -> Result<Vec<QueuePass<T>>, NoMemory>
    requires queue { OpensWith queue.now queue.now.cells.start.capacity count }
    requires sizes { AreSizes queue.now.cells.start }
    requires seats { seats.items ≡ seats_of.fresh_seats queue.now.cells }
    requires passes { AllFour (λ w. (pick w passes).items ≡ funnels.fresh_passes (pick w queue.now.funnels)) }
    ensures { IfOk result (λ all. all.items ≡ fresh_passes queue.now) }
{
    let mut seats = seats.into_iter();
    let tail = passes.tail.into_iter();
    let head = passes.head.into_iter();
    let free = passes.free.into_iter();
    let items = passes.items.into_iter();
    let mut rest = Four {
        tail,
        head,
        free,
        items,
    };
    let mut all = Vec::new(alloc);
    for _number in 0..count {
        let seat = next_of(&mut seats);
        let passes = next_of_each(&mut rest);
        let pass = QueuePass { seat, passes };
        all.push(pass)?;
    }
    Ok(all)
}

impl<T: Drop> TicketQueue<T> {
    /// An empty queue, with its passes in order of number. Want of memory alone refuses it.
    pub fn open(
        alloc: Global,
        capacity: u32,
        passes: u32,
    ) -> Result<(TicketQueue<T>, Vec<QueuePass<T>>), NoMemory>
        requires capacity { (1 ≤ capacity) × (capacity ≤ 65536) }
        requires passes { (1 ≤ passes) × (passes ≤ 64) }
        ensures queue { IfOk result (λ r. OpensWith r.0 capacity passes) }
        ensures passes { IfOk result (λ r. r.1.items ≡ fresh_passes r.0) }
        ensures whole { IfOk result (λ r. All IsWhole r.1.items) }
    {
        let (cells, seats) = Cells::open(alloc, capacity, passes)?;
        let (funnels, funnel_passes) = open_funnels(alloc, passes, capacity)?;
        let rooms = Mutex::new(Rooms::new(alloc)?);
        let queue = TicketQueue {
            cells,
            funnels,
            rooms,
        };
        let all = deal(alloc, &queue, passes, seats, funnel_passes)?;
        Ok((queue, all))
    }
}
