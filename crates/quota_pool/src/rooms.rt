//! Rooms, in which passes lie: those of the workers while a pool opens, and those of the tenants while it closes.
ghost use Rattle.std.specs.Prelude.{◌≡◌, suc, All, IfOk, length};
ghost use Rattle.quota_pool.specs.Rooms.{IsBare, HasPlaceFor, HaveSizes, contents, handed, rooms_after};

use crate::desks::Desk;
use fn_funnel::Pass;
use std::alloc::{AllocError, Global};

/// So many empty rooms, each with place for so many passes.
pub fn rooms_for(alloc: Global, places: usize, count: usize) -> Result<Vec<Vec<Pass>>, AllocError>
    ensures count { IfOk result (λ rooms. length rooms.items ≡ count) }
    ensures bare { IfOk result (λ rooms. All (IsBare places) rooms.items) }
{
    let mut rooms = Vec::with_capacity(alloc, count)?;
    for _ in 0..count {
        let room = Vec::with_capacity(alloc, places)?;
        rooms.push(room)?;
    }
    Ok(rooms)
}

/// Puts one pass into each room.
pub fn hand(rooms: &mut [Vec<Pass>], passes: Vec<Pass>)
    requires one_each { length passes.items ≡ length rooms.old }
    requires place { All (HasPlaceFor 1) rooms.old }
    ensures passes { contents rooms.new ≡ handed (contents rooms.old) passes.items }
    ensures sizes { HaveSizes rooms.old rooms.new }
{
    for (at, pass) in passes.into_iter().enumerate() {
        rooms[at].push_reserved(pass);
    }
}

// The passes of a desk.
fn passes_of(desk: Desk) -> Vec<Pass>
    ensures { result.items ≡ desk.passes }
{
    let Desk {
        worker: _,
        passes,
        closing: _,
    } = desk;
    passes
}

/// Puts the passes of the first desk and of the others into the rooms, in order of the desks.
pub fn hand_all(mut rooms: Vec<Vec<Pass>>, first: Vec<Pass>, others: Vec<Desk>) -> Vec<Vec<Pass>>
    requires first { length first.items ≡ length rooms.items }
    requires others { All (λ desk. length desk.passes ≡ length rooms.items) others.items }
    requires place { All (HasPlaceFor (suc (length others.items))) rooms.items }
    ensures { contents result.items ≡ rooms_after (handed (contents rooms.items) first.items) others.items }
{
    hand(&mut rooms, first);
    for desk in others {
        hand(&mut rooms, passes_of(desk));
    }
    rooms
}
