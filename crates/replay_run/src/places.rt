//! The desks of a segment, each with the rows of its worker.
ghost use Rattle.std.specs.Prelude.{◌≡◌, ◌+◌, ◌^◌, ◌<◌, ◌≤◌, ◌++◌, ◌∷◌, [], ℕ, IfOk, OnOk, All, length, map, slice_index_or};
ghost use Rattle.std.specs.Vec.{vec_capacity};
ghost use Rattle.replay_run.specs.Work.{AreFresh, IsRoomy, desks_at};

use quota_pool::{Desk, Moved};
use std::alloc::Global;
use trace_text::{NoMemory, Row};

/// The work of one worker: the numbers of its rows among those of the segment, in order, and the answers that it has made so far.
#[derive(Debug, Drop)]
pub struct Jobs {
    pub numbers: Vec<usize>,
    pub answers: Vec<Moved>,
}

/// A worker's desk, and its work.
#[derive(Drop)]
pub struct Place {
    pub desk: Desk,
    pub jobs: Jobs,
}

/// Gives each desk a place, which has no rows yet.
pub fn seat(alloc: Global, desks: Vec<Desk>) -> Result<Vec<Place>, NoMemory>
    ensures desks { IfOk result (λ places. desks_at places.items ≡ desks.items) }
    ensures empty { IfOk result (λ places. All (λ place. (place.jobs.numbers.items ≡ []) × (place.jobs.answers.items ≡ [])) places.items) }
{
    let mut places = Vec::new(alloc);
    for desk in desks {
        let numbers = Vec::new(alloc);
        let answers = Vec::new(alloc);
        let jobs = Jobs { numbers, answers };
        match places.push(Place { desk, jobs }) {
            Ok(()) => {}
            Err(_) => return Err(NoMemory),
        }
    }
    Ok(places)
}

// Gives a place one more row.
fn give(place: &mut Place, number: usize) -> Result<(), NoMemory>
    ensures desk { place.new.desk ≡ place.old.desk }
    ensures numbers { OnOk result (place.new.jobs.numbers.items ≡ place.old.jobs.numbers.items ++ number ∷ []) }
    ensures answers { place.new.jobs.answers.items ≡ place.old.jobs.answers.items }
{
    if place.jobs.numbers.push(number).is_err() {
        return Err(NoMemory);
    }
    Ok(())
}

/// Deals the rows to the places of their workers, in order.
pub fn deal(rows: &[Row], places: &mut [Place]) -> Result<(), NoMemory>
    requires workers { All (λ row. row.worker < length places.old) rows.now }
    requires empty { All (λ place. (place.jobs.numbers.items ≡ []) × (place.jobs.answers.items ≡ [])) places.old }
    ensures desks { desks_at places.new ≡ desks_at places.old }
    ensures rows { OnOk result (AreFresh rows.now places.new) }
{
    for (at, row) in rows.iter().enumerate() {
        give(&mut places[row.worker as usize], at)?;
    }
    Ok(())
}

// Makes room for the answers of a place.
fn make_room(alloc: Global, place: &mut Place) -> Result<(), NoMemory>
    ensures { OnOk result (IsRoomy place.old place.new) }
{
    match Vec::with_capacity(alloc, place.jobs.numbers.len()) {
        Ok(answers) => {
            place.jobs.answers = answers;
            Ok(())
        }
        Err(_) => Err(NoMemory),
    }
}

/// Makes room for the answers of all places, which have none yet.
pub fn make_rooms(alloc: Global, places: &mut [Place]) -> Result<(), NoMemory>
    ensures { OnOk result ((worker : ℕ) (d : _) → worker < length places.old → IsRoomy (slice_index_or places.old worker d) (slice_index_or places.new worker d)) }
{
    for place in places.iter_mut() {
        make_room(alloc, place)?;
    }
    Ok(())
}

/// Takes the desks out of their places, in order. They find room where they are put.
pub fn leave(places: Vec<Place>, mut desks: Vec<Desk>) -> Vec<Desk>
    requires none { desks.items ≡ [] }
    requires room { length places.items ≤ vec_capacity desks }
    ensures { result.items ≡ desks_at places.items }
{
    for place in places {
        let Place { desk, jobs: _ } = place;
        match desks.push(desk) {
            Ok(()) => {}
            Err(_) => unreachable!(),
        }
    }
    desks
}
