//! A worker's waits between tries.
use crossbeam_utils::Backoff;
use std::sync::Wait;
use std::thread::Parker;
use std::time::Duration;

/// The first sleep, in microseconds.
const SHORTEST: u64 = 64;

/// The longest sleep, in microseconds.
const LONGEST: u64 = 1024;

/// Waits that grow: it spins and yields a few times, and then sleeps, twice as long each time up to a bound.
#[derive(Drop)]
pub struct Patience {
    backoff: Backoff,
    parker: Parker,
    sleep: u64,
}

impl Patience {
    /// Before the first wait.
    pub fn new() -> Patience {
        Patience {
            backoff: Backoff::new(),
            parker: Parker::new(),
            sleep: SHORTEST,
        }
    }

    /// Waits, longer than the last time.
    pub fn wait<R: Wait>(&mut self, rt: &R) {
        if !self.backoff.is_completed() {
            self.backoff.snooze();
            return;
        }
        self.parker
            .park_timeout(rt, Duration::from_micros(self.sleep));
        if self.sleep < LONGEST {
            self.sleep *= 2;
        }
    }

    /// Begins anew, after a success.
    pub fn reset(&mut self) {
        self.backoff.reset();
        self.sleep = SHORTEST;
    }
}
