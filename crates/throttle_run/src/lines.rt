//! A line of a text of takes.

/// A line with words: at a moment, a worker takes an amount.
#[derive(Clone, Copy, Debug, PartialEq, Eq)]
pub struct ThrottleLine {
    /// the number of the line, from 1
    pub at: u64,
    pub worker: u32,
    pub now: u64,
    pub amount: u64,
}
