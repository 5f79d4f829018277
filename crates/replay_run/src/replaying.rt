//! Replaying a trace.
ghost use Rattle.std.specs.Prelude.{◌≡◌, ◌+◌, ◌-◌, ◌≤◌, ◌++◌, IfOk, length, map, take, drop};
ghost use Rattle.std.specs.Vec.{vec_capacity};
ghost use Rattle.trace_text.specs.Trace.{content};
ghost use Rattle.trace_text.specs.SoundTrace.{IsSoundTrace};
ghost use Rattle.replay_run.specs.Claim.{TellsReplay};
ghost use Rattle.replay_run.specs.Replay.{IsReplay, value_in};
ghost use Rattle.replay_run.specs.Ready.{IsSoundSegment};
ghost use Rattle.replay_run.specs.Course.{GoesOn};

use crate::segment::replay_segment;
use fn_funnel::Book;
use gates::Gate;
use quota_pool::Moved;
use std::alloc::Global;
use std::sync::Wait;
use std::thread::Threads;
use trace_text::{NoMemory, Row, Tenant, Trace};

/// What stands after a replay: an answer for each row, in order, and for each segment, in order, a book for each tenant.
#[derive(Drop)]
pub struct Replayed {
    pub answers: Vec<Moved>,
    pub books: Vec<Book>,
}

// The tenants' openings.
fn openings_of(alloc: Global, tenants: &[Tenant]) -> Result<Vec<u64>, NoMemory>
    ensures { IfOk result (λ openings. openings.items ≡ map (λ tenant. tenant.opening) tenants.now) }
{
    let openings = tenants.iter().map(|tenant| tenant.opening).collect(alloc)?;
    Ok(openings)
}

// Opens the next segment with what the books have come to.
fn settle(openings: &mut [u64], books: &[Book])
    requires { length openings.old ≡ length books.now }
    ensures { openings.new ≡ map value_in books.now }
{
    for (at, opening) in openings.iter_mut().enumerate() {
        *opening = books[at].value();
    }
}

// Puts books behind those that stand there, where they find room.
fn keep(kept: &mut Vec<Book>, books: Vec<Book>)
    requires { length kept.old.items + length books.items ≤ vec_capacity kept.old }
    ensures books { kept.new.items ≡ kept.old.items ++ books.items }
    ensures room { vec_capacity kept.old ≤ vec_capacity kept.new }
{
    for book in books {
        match kept.push(book) {
            Ok(()) => {}
            Err(_) => unreachable!(),
        }
    }
}

// The rows of a segment.
fn part_of(rows: &[Row], before: usize, end: usize) -> &[Row]
    requires order { before ≤ end }
    requires end { end ≤ length rows.now }
    ensures { result.now ≡ take (end - before) (drop before rows.now) }
{
    &rows[before..end]
}

// Replays one more segment.
fn go_on<R: Threads + Wait + Sync, G: Gate + Sync>(
    rt: &R,
    alloc: Global,
    tenants: &[Tenant],
    openings: &mut [u64],
    rows: &[Row],
    workers: u32,
    gate: &G,
    replayed: &mut Replayed,
) -> Result<(), NoMemory>
    requires workers { (1 ≤ workers) × (workers ≤ 64) }
    requires sound { IsSoundSegment workers (map (λ tenant. tenant.cap) tenants.now) openings.old rows.now }
    requires room { length replayed.old.answers.items + length rows.now ≤ vec_capacity replayed.old.answers }
    requires shelf { length replayed.old.books.items + length tenants.now ≤ vec_capacity replayed.old.books }
    ensures more { IfOk result (λ _. GoesOn workers tenants.now rows.now openings.old replayed.old openings.new replayed.new) }
    ensures room { vec_capacity replayed.old.answers ≤ vec_capacity replayed.new.answers }
    ensures shelf { vec_capacity replayed.old.books ≤ vec_capacity replayed.new.books }
{
    let answers = &mut replayed.answers;
    let kept = &mut replayed.books;
    let books = replay_segment(rt, alloc, tenants, openings, rows, workers, gate, answers)?;
    settle(openings, &books);
    keep(kept, books);
    Ok(())
}

/// Replays a trace by so many workers, all at once, who wait for each other at each cut. A worker makes the calls of its rows in order, each on its own desk, and asks the gate before and after each. Of each tenant there is then one history, of which all its answers and its books' values tell.
pub fn replay<R: Threads + Wait + Sync, G: Gate + Sync>(
    rt: &R,
    alloc: Global,
    trace: &Trace,
    workers: u32,
    gate: &G,
) -> Result<Replayed, NoMemory>
    requires workers { (1 ≤ workers) × (workers ≤ 64) }
    requires sound { IsSoundTrace workers (content trace.now) }
    ensures told { IfOk result (λ replayed. TellsReplay (content trace.now) replayed.answers.items (map value_in replayed.books.items)) }
    ensures books { IfOk result (λ replayed. IsReplay workers (content trace.now) replayed.answers.items replayed.books.items) }
{
    let tenants = trace.tenants.as_slice();
    let rows = trace.rows.as_slice();
    let mut openings = openings_of(alloc, tenants)?;
    let answers = Vec::with_capacity(alloc, rows.len())?;
    let books = Vec::with_capacity(alloc, (trace.cuts.len() + 1) * tenants.len())?;
    let mut replayed = Replayed { answers, books };
    let mut before = 0;
    for cut in &trace.cuts {
        let end = cut.rows as usize;
        let part = part_of(rows, before, end);
        go_on(
            rt,
            alloc,
            tenants,
            &mut openings,
            part,
            workers,
            gate,
            &mut replayed,
        )?;
        before = end;
    }
    let part = part_of(rows, before, rows.len());
    go_on(
        rt,
        alloc,
        tenants,
        &mut openings,
        part,
        workers,
        gate,
        &mut replayed,
    )?;
    Ok(replayed)
}
