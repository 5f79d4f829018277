//! What the closing of a pool needs.
ghost use Rattle.std.specs.Prelude.{◌≡◌, ◌≤◌, [], IfOk, length};
ghost use Rattle.std.specs.Vec.{vec_capacity};
ghost use Rattle.quota_pool.specs.Closed.{MayCloseAll, AreClosedFrom};
ghost use Rattle.quota_pool.specs.Rooms.{HasPlace, contents};

use crate::rooms::rooms_for;
use fn_funnel::{Book, Funnel, Pass};
use std::alloc::{AllocError, Global};

/// Room for closing a pool, taken as it opens: a room for the passes of each tenant, and place for the books.
#[derive(Drop)]
pub struct Closing {
    pub rooms: Vec<Vec<Pass>>,
    pub books: Vec<Book>,
}

/// Room for so many tenants, each with a pass of each worker.
pub fn closing_for(alloc: Global, workers: u32, count: usize) -> Result<Closing, AllocError>
    ensures { IfOk result (λ closing. HasPlace workers count closing) }
{
    let rooms = rooms_for(alloc, workers as usize, count)?;
    let books = Vec::with_capacity(alloc, count)?;
    Ok(Closing { rooms, books })
}

/// Closes each funnel with the passes in its room. The books find room where they are.
pub fn close_all(funnels: Vec<Funnel>, rooms: Vec<Vec<Pass>>, mut books: Vec<Book>) -> Vec<Book>
    requires none { books.items ≡ [] }
    requires place { length funnels.items ≤ vec_capacity books }
    requires ready { MayCloseAll funnels.items (contents rooms.items) }
    ensures { AreClosedFrom funnels.items (contents rooms.items) result.items }
{
    for (funnel, room) in funnels.into_iter().zip(rooms) {
        books.push_reserved(funnel.close(room));
    }
    books
}
