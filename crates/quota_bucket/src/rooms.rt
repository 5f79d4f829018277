//! Room for all passes and seats of a bucket, so that its closing takes no memory.
ghost use Rattle.quota_bucket.specs.Rooms.{HasRoom};

use fn_funnel::Pass;
use std::alloc::{AllocError, Global};
use tick_table::TickSeat;

/// How many desks a bucket may have.
const MOST_DESKS: usize = 64;

/// Empty lists, each with room for as many as a bucket may have.
#[derive(Drop)]
pub struct Rooms {
    pub passes: Vec<Pass>,
    pub seats: Vec<TickSeat>,
    pub ghost empty: { HasRoom passes × HasRoom seats },
}

/// The passes of desks, and their seats.
#[derive(Drop)]
pub struct Parts {
    pub passes: Vec<Pass>,
    pub seats: Vec<TickSeat>,
}

impl Rooms {
    /// Empty lists, with their room.
    pub fn new(alloc: Global) -> Result<Rooms, AllocError> {
        Ok(Rooms {
            passes: Vec::with_capacity(alloc, MOST_DESKS)?,
            seats: Vec::with_capacity(alloc, MOST_DESKS)?,
        })
    }
}
