//! What the tool is asked to do.

/// What the tool is asked to do.
#[derive(Clone, Copy, Debug, PartialEq, Eq)]
pub enum Command {
    /// plays a script on the pure core
    Play,
    /// runs a script on the table
    Trial,
    /// replays a trace
    Replay {
        workers: u32,
    },
    /// replays a trace that its numbers name
    Drill {
        seed: u64,
        rows: u64,
        workers: u32,
    },
    /// passes lines through a queue
    Relay {
        workers: u32,
        capacity: u32,
    },
    /// makes a script's additions and subtractions in turns, all in one thread
    Rounds,
    /// counts the newlines of its input by workers that draw so many pieces at a time
    Tally {
        workers: u32,
        grain: u64,
    },
    /// lets lines of takes through a bucket of so many tokens, which gains so many in each period
    Throttle {
        workers: u32,
        burst: u64,
        rate: u64,
        period: u64,
    },
}
