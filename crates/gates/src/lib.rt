//! What workers call around each row or line: a test can let two of them cross there, a program lets them pass.
#![tactic(auto)]

/// What a worker calls before and after each row. Its calls change nothing that a replay answers.
pub trait Gate {
    /// The worker is about to make the call of this row.
    fn before(&self, worker: u32, row: u64);

    /// The worker has the answer of this row.
    fn answered(&self, worker: u32, row: u64);
}

/// A gate that does nothing.
#[derive(Clone, Copy, Debug, PartialEq, Eq)]
pub struct OpenGate;

impl Gate for OpenGate {
    fn before(&self, _worker: u32, _row: u64) {}

    fn answered(&self, _worker: u32, _row: u64) {}
}
