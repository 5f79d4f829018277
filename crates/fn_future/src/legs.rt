// The legs of a move: the subtraction, the beginning of the addition, and the addition.

use fn_climb::{Pass, Pending};

/// Where a move stands between its polls.
#[derive(Drop)]
pub enum MoveStage {
    /// The subtraction has begun.
    Taking(Pending, Pass),
    /// This much was taken, and the addition has found no row yet.
    Between(Pass, Pass, u64),
    /// The addition has begun.
    Adding(Pass, Pending, u64),
    Over,
}

/// How far a poll of a move came.
#[derive(Drop)]
pub enum Leg {
    Done(Pass, Pass, u64),
    Waits(MoveStage),
}
