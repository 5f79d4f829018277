//! Rounds of additions, each on ground of its own.
ghost use Rattle.std.specs.Prelude.{◌≡◌, All, length};
ghost use Rattle.fn_core.specs.Calls.{IsIdle};
ghost use Rattle.fn_table.specs.Seen.{IsOf, IsWhole};

use fn_funnel::{Funnel, Pass, Shape, Way, add_on, shape_for};
use std::alloc::{AllocError, Global};
use std::sync::atomic::{AtomicU64, Ordering};
use std::sync::{Mutex, Wait};
use std::thread;
use std::thread::Threads;
use std::time::Duration;

/// What the threads add to.
#[derive(Clone, Copy)]
pub enum Ground {
    Funnel,
    Word,
    Lock,
}

impl Ground {
    pub fn name(self) -> &'static str {
        match self {
            Ground::Funnel => "funnel",
            Ground::Word => "word",
            Ground::Lock => "lock",
        }
    }
}

/// So many threads, each of which adds 1 so many times.
#[derive(Clone, Copy)]
pub struct Round {
    pub threads: u32,
    pub times: u32,
}

/// What additions came to: the value that they left, and how many of them went past the funnel.
#[derive(Clone, Copy)]
pub struct Made {
    pub value: u64,
    pub past: u64,
}

impl Round {
    /// Makes the additions.
    pub fn run<R: Threads + Wait + Sync>(
        self,
        rt: &R,
        alloc: Global,
        ground: Ground,
    ) -> Result<Made, AllocError> {
        match ground {
            Ground::Funnel => on_a_funnel(rt, alloc, self),
            Ground::Word => Ok(Made {
                value: on_a_word(rt, alloc, self)?,
                past: 0,
            }),
            Ground::Lock => Ok(Made {
                value: under_a_lock(rt, alloc, self)?,
                past: 0,
            }),
        }
    }

    /// How many additions there are in all.
    pub fn additions(self) -> u64 {
        self.threads as u64 * self.times as u64
    }

    /// How many tenths of a nanosecond one addition took.
    pub fn tenths(self, spent: Duration) -> u64 {
        let nanos = spent.as_secs().saturating_mul(1_000_000_000);
        let nanos = nanos.saturating_add(spent.subsec_nanos() as u64);
        nanos.saturating_mul(10) / self.additions().max(1)
    }

    /// How many in 100 of the additions so many are.
    pub fn percent(self, some: u64) -> u64 {
        some.saturating_mul(100) / self.additions().max(1)
    }
}

// On one funnel, with a pass for each thread.
fn on_a_funnel<R: Threads + Wait + Sync>(
    rt: &R,
    alloc: Global,
    round: Round,
) -> Result<Made, AllocError> {
    let passes = round.threads.max(1).min(64);
    let allowances = vec![in alloc; round.times as u64; passes as usize]?;
    open_and_add(rt, alloc, shape_for(passes), &allowances, round)
}

// On a funnel of this shape.
fn open_and_add<R: Threads + Wait + Sync>(
    rt: &R,
    alloc: Global,
    shape: Shape,
    allowances: &[u64],
    round: Round,
) -> Result<Made, AllocError>
    requires { length allowances.now ≡ shape.passes }
{
    let (funnel, passes) = match Funnel::open(alloc, shape, 0, allowances) {
        Ok(opened) => opened,
        Err(_) => return Err(AllocError),
    };
    add_at_once(rt, &funnel, passes, round.times)
}

// A thread for each pass, which makes so many additions. The value is the greatest that one of them left.
fn add_at_once<R: Threads + Wait + Sync>(
    rt: &R,
    funnel: &Funnel,
    passes: Vec<Pass>,
    times: u32,
) -> Result<Made, AllocError>
    requires together { All (λ p. IsOf funnel.now p) passes.items }
    requires idle { All IsWhole passes.items }
{
    let ended = thread::map_vec(
        rt,
        passes,
        &|pass| -> Made
            requires { IsOf funnel.now pass × IsIdle pass.seen pass.number }
        { add_ones(rt, funnel, pass, times) },
    )?;
    let mut all = Made { value: 0, past: 0 };
    for made in ended {
        all.value = all.value.max(made.value);
        all.past = all.past.saturating_add(made.past);
    }
    Ok(all)
}

// So many additions of 1 through the funnel: what the last of them left, and how many went past it.
fn add_ones<R: Wait>(rt: &R, funnel: &Funnel, pass: Pass, times: u32) -> Made
    requires together { IsOf funnel.now pass }
    requires idle { IsIdle pass.seen pass.number }
{
    let mut pass = pass;
    let mut made = Made { value: 0, past: 0 };
    for _ in 0..times {
        if pass.allowance() == 0 {
            return made;
        }
        let added = add_on(rt, funnel, &mut pass, 1);
        made.value = added.before.saturating_add(1);
        match added.way {
            Way::Funnel => {}
            Way::Direct(_) => made.past = made.past.saturating_add(1),
        }
    }
    made
}

// On one word, by a fetch-and-add each.
fn on_a_word<R: Threads + Sync>(rt: &R, alloc: Global, round: Round) -> Result<u64, AllocError> {
    let word = AtomicU64::new(0);
    let shared = &word;
    thread::map_indices(
        rt,
        alloc,
        round.threads as usize,
        &|_| {
            for _ in 0..round.times {
                shared.fetch_add(1, Ordering::SeqCst);
            }
        },
    )?;
    Ok(word.load(Ordering::SeqCst))
}

// Under one lock.
fn under_a_lock<R: Threads + Wait + Sync>(
    rt: &R,
    alloc: Global,
    round: Round,
) -> Result<u64, AllocError> {
    let lock = Mutex::new(0u64);
    let shared = &lock;
    thread::map_indices(
        rt,
        alloc,
        round.threads as usize,
        &|_| {
            for _ in 0..round.times {
                let mut value = shared.lock(rt);
                *value = value.wrapping_add(1);
            }
        },
    )?;
    Ok(lock.into_inner())
}
