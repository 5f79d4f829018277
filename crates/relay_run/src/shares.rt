//! Which lines are a worker's.
ghost use Rattle.std.specs.Prelude.{◌≡◌, ◌<◌, ◌≤◌, length};
ghost use Rattle.relay_run.specs.Relay.{lines_at};
ghost use Rattle.relay_run.specs.Work.{line_of};

use crate::lines::MOST_LINES;

/// A worker's number, and how many workers there are.
#[derive(Clone, Copy, Debug, PartialEq, Eq)]
pub struct Share {
    pub worker: u32,
    pub workers: u32,
}

impl Share {
    /// How many of so many lines the worker has.
    pub fn size(self, lines: u64) -> u64
        requires worker { self.worker < self.workers }
        requires lines { lines ≤ MOST_LINES }
        ensures { result ≡ length (lines_at self.workers lines self.worker) }
    {
        let workers = u64::from(self.workers);
        (lines + (workers - 1 - u64::from(self.worker))) / workers
    }

    /// The number of the worker's line at a place.
    pub fn line(self, place: usize) -> u64
        requires { place ≤ MOST_LINES }
        ensures { result ≡ line_of self.workers self.worker place }
    {
        u64::from(self.worker) + place as u64 * u64::from(self.workers)
    }
}
