//! The answers of a segment, in order of its rows.
ghost use Rattle.std.specs.Prelude.{◌≡◌, ◌+◌, ◌^◌, ◌<◌, ◌≤◌, ◌++◌, ◌∷◌, [], ℕ, All, length, replicate, slice_index, slice_set};
ghost use Rattle.std.specs.Vec.{vec_capacity};
ghost use Rattle.replay_run.specs.Work.{HaveAnswers, gathered, seats};

use crate::places::Place;
use quota_pool::Moved;
use trace_text::Row;

// Adds one to a count, and gives it as it was.
fn count_up(counts: &mut [usize], at: usize) -> usize
    requires place { at < length counts.old }
    requires room { slice_index counts.old at + 1 < 2 ^ 64 }
    ensures before { result ≡ slice_index counts.old at }
    ensures after { counts.new ≡ slice_set counts.old at (result + 1) }
{
    let before = counts[at];
    counts[at] = before + 1;
    before
}

/// Puts the answers of all rows behind those that stand there, in order. They find room there; `next` counts the rows of each worker.
pub fn gather(rows: &[Row], places: &[Place], next: &mut [usize], answers: &mut Vec<Moved>)
    requires workers { All (λ row. row.worker < length places.now) rows.now }
    requires dealt { HaveAnswers rows.now places.now }
    requires none { next.old ≡ replicate (length places.now) 0 }
    requires room { length answers.old.items + length rows.now ≤ vec_capacity answers.old }
    ensures answers { answers.new.items ≡ answers.old.items ++ gathered rows.now (seats rows.now places.now) }
    ensures room { vec_capacity answers.old ≤ vec_capacity answers.new }
{
    for row in rows {
        let worker = row.worker as usize;
        let at = count_up(next, worker);
        let place = &places[worker];
        match answers.push(place.jobs.answers[at]) {
            Ok(()) => {}
            Err(_) => unreachable!(),
        }
    }
}
