//! Room for all seats and funnel passes of a queue, so that its closing takes no memory.
ghost use Rattle.std.specs.Prelude.{◌≡◌, ◌<◌, ◌+◌, ◌∷◌, ◌++◌, [], IfOk, vec_len, vec_capacity};
ghost use Rattle.tq_queue.specs.Fours.{pick, AllFour};
ghost use Rattle.tq_queue.specs.Rooms.{HasRoom};

use crate::fours::Four;
use fn_funnel::Pass;
use std::alloc::Global;
use tq_cells::{CellSeat, NoMemory};

/// How many passes a queue may have.
const MOST_PASSES: usize = 64;

/// Empty lists, each with room for as many as a queue may have: for seats, and for passes of each funnel.
#[derive(Drop)]
pub struct Rooms<T> {
    pub seats: Vec<CellSeat<T>>,
    pub passes: Four<Vec<Pass>>,
    pub ghost empty: { HasRoom seats × AllFour (λ w. HasRoom (pick w passes)) },
}

/// The seats of passes, and their passes of each funnel.
#[derive(Drop)]
pub struct Parts<T> {
    pub seats: Vec<CellSeat<T>>,
    pub passes: Four<Vec<Pass>>,
}

// An empty list, with its room.
fn room<X: Drop>(alloc: Global) -> Result<Vec<X>, NoMemory>
    ensures { IfOk result (λ list. HasRoom list) }
{
    Ok(Vec::with_capacity(alloc, MOST_PASSES)?)
}

impl<T: Drop> Rooms<T> {
    /// Empty lists, with their room.
    pub fn new(alloc: Global) -> Result<Rooms<T>, NoMemory> {
        let seats = room(alloc)?;
        let passes = Four {
            tail: room(alloc)?,
            head: room(alloc)?,
            free: room(alloc)?,
            items: room(alloc)?,
        };
        Ok(Rooms { seats, passes })
    }
}

/// Takes a pass of each funnel.
pub fn push_each(all: &mut Four<Vec<Pass>>, passes: Four<Pass>)
    requires { AllFour (λ w. vec_len (pick w all.old) < vec_capacity (pick w all.old)) }
    ensures items { AllFour (λ w. (pick w all.new).items ≡ (pick w all.old).items ++ pick w passes ∷ []) }
    ensures len { AllFour (λ w. vec_len (pick w all.new) ≡ vec_len (pick w all.old) + 1) }
    ensures capacity { AllFour (λ w. vec_capacity (pick w all.new) ≡ vec_capacity (pick w all.old)) }
{
    let Four {
        tail,
        head,
        free,
        items,
    } = passes;
    all.tail.push_reserved(tail);
    all.head.push_reserved(head);
    all.free.push_reserved(free);
    all.items.push_reserved(items);
}
