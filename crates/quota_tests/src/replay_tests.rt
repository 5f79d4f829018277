//! Whole replays.
ghost use Rattle.std.specs.Prelude.{◌≤◌, IfSome};
ghost use Rattle.trace_text.specs.Trace.{content};
ghost use Rattle.trace_text.specs.SoundTrace.{IsSoundTrace};

use replay_run::*;
use std::alloc::{AllocError, Global};
use std::sync::Wait;
use std::sync::atomic::{AtomicU64, Ordering};
use std::test::Fail;
use std::thread::Threads;
use trace_text::{make_drill, read_trace};

// The integers before all rows, in order, and the books' values.
#[derive(Debug, Drop)]
struct Seen {
    befores: Vec<u64>,
    moved: Vec<u64>,
    values: Vec<u64>,
}

fn look_at(alloc: Global, replayed: &Replayed) -> Result<Seen, AllocError> {
    let answers = replayed.answers.as_slice();
    let befores = answers.iter().map(|answer| answer.before).collect(alloc)?;
    let moved = answers.iter().map(|answer| answer.moved).collect(alloc)?;
    let books = replayed.books.as_slice();
    let values = books.iter().map(|book| book.value()).collect(alloc)?;
    Ok(Seen {
        befores,
        moved,
        values,
    })
}

// Replays a text, which is a trace.
fn replay_text<R: Threads + Wait + Sync, G: Gate + Sync>(
    rt: &R,
    alloc: Global,
    text: &[u8],
    workers: u32,
    gate: &G,
) -> Option<Replayed>
    requires { (1 ≤ workers) × (workers ≤ 64) }
{
    match read_trace(alloc, workers, text) {
        Ok(trace) => replay(rt, alloc, &trace, workers, gate).ok(),
        Err(_) => None,
    }
}

#[test]
fn four_workers_count_together(rt: HostRuntime) -> Result<(), Fail> {
    let mut text = Vec::from_slice(rt.alloc(), b"worker,op,tenant,amount\n0,open,t,0\n")?;
    for _ in 0..1000 {
        text.extend_from_slice(b"0,add,t,1\n1,add,t,1\n2,add,t,1\n3,add,t,1\n")?;
    }
    let Some(replayed) = replay_text(&rt, rt.alloc(), &text, 4, &OpenGate) else {
        panic!(rt; "no replay");
    };
    let mut seen = look_at(rt.alloc(), &replayed)?;
    seen.befores.sort()?;
    assert_eq!(rt; seen.befores.len(), 4000);
    for (at, before) in seen.befores.iter().enumerate() {
        assert_eq!(rt; *before, at as u64);
    }
    assert!(rt; seen.moved.iter().all(|moved| *moved == 1));
    assert_eq!(rt; seen.values.as_slice(), [4000u64].as_slice());
    Ok(())
}

#[test]
fn one_worker_goes_through_the_funnel(rt: HostRuntime) -> Result<(), Fail> {
    let Ok(trace) = make_drill(rt.alloc(), 7, 300, 1) else {
        panic!(rt; "no trace");
    };
    let Ok(replayed) = replay(&rt, rt.alloc(), &trace, 1, &OpenGate) else {
        panic!(rt; "no replay");
    };
    assert_eq!(rt; replayed.answers.len(), 300);
    for answer in &replayed.answers {
        assert_eq!(rt; answer.way, Some(Way::Funnel));
    }
    Ok(())
}

#[test]
fn the_second_segment_goes_on(rt: HostRuntime) -> Result<(), Fail> {
    let text =
        b"worker,op,tenant,amount,cap\n0,open,d,5,100\n0,take,d,3,0\n0,settle,-,0,0\n1,add,d,4,0\n";
    let Some(replayed) = replay_text(&rt, rt.alloc(), text, 2, &OpenGate) else {
        panic!(rt; "no replay");
    };
    let seen = look_at(rt.alloc(), &replayed)?;
    assert_eq!(rt; seen.befores.as_slice(), [5u64, 2].as_slice());
    assert_eq!(rt; seen.moved.as_slice(), [3u64, 4].as_slice());
    assert_eq!(rt; seen.values.as_slice(), [2u64, 6].as_slice());
    Ok(())
}

// At this gate the first two rows begin together, and the second is answered first.
#[derive(Drop)]
struct Crossing {
    first_began: AtomicU64,
    second_began: AtomicU64,
    second_answered: AtomicU64,
    gave_up: AtomicU64,
}

impl Crossing {
    fn wait_for(&self, flag: &AtomicU64) {
        for _ in 0..10_000_000u64 {
            if flag.load(Ordering::SeqCst) == 1 {
                return;
            }
            std::thread::yield_now();
        }
        self.gave_up.fetch_add(1, Ordering::SeqCst);
    }
}

impl Gate for Crossing {
    fn before(&self, _worker: u32, row: u64) {
        if row == 0 {
            self.first_began.store(1, Ordering::SeqCst);
            self.wait_for(&self.second_began);
            self.wait_for(&self.second_answered);
        }
        if row == 1 {
            self.second_began.store(1, Ordering::SeqCst);
            self.wait_for(&self.first_began);
        }
    }

    fn answered(&self, _worker: u32, row: u64) {
        if row == 1 {
            self.second_answered.store(1, Ordering::SeqCst);
        }
    }
}

#[test]
fn workers_cross(rt: HostRuntime) -> Result<(), Fail> {
    let gate = Crossing {
        first_began: AtomicU64::new(0),
        second_began: AtomicU64::new(0),
        second_answered: AtomicU64::new(0),
        gave_up: AtomicU64::new(0),
    };
    let text = b"worker,op,tenant,amount\n0,open,t,0\n0,add,t,1\n1,add,t,2\n";
    let Some(replayed) = replay_text(&rt, rt.alloc(), text, 2, &gate) else {
        panic!(rt; "no replay");
    };
    let seen = look_at(rt.alloc(), &replayed)?;
    assert_eq!(rt; seen.befores.as_slice(), [2u64, 0].as_slice());
    assert_eq!(rt; seen.values.as_slice(), [3u64].as_slice());
    assert_eq!(rt; gate.gave_up.load(Ordering::SeqCst), 0);
    Ok(())
}
