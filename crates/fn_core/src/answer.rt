//! What steps and calls answer.

ghost use Rattle.std.specs.Prelude.{◌≡◌};

use std::alloc::{AllocError, AllocFailed};

/// What a step answers: the word that it loaded or added to, that its word was stored, or how its exchange ended.
#[derive(Clone, Copy, Debug, PartialEq, Eq)]
pub enum Answer {
    Word(u64),
    Stored,
    Won,
    Lost { loaded: u64, found: u64 },
}

/// The last load that kept a row from being filled again: the row's level, its number from 0 among
/// the pass's rows there, the pass that was scanned, and the number that it had announced.
#[derive(Clone, Copy, Debug, PartialEq, Eq)]
pub struct Blocked {
    pub level: u32,
    pub row: u32,
    pub pass: u32,
    pub announced: u64,
}

/// Why a call has to wait.
#[derive(Clone, Copy, Debug, PartialEq, Eq)]
pub enum Why {
    /// A batch before its own isn't published: `done` is below its offset.
    Behind { done: u64, at: u64 },
    /// Its exchange found another word than it had loaded.
    Lost { loaded: u64, found: u64 },
}

/// What the beginning of a call answers.
#[derive(Clone, Copy, Debug, PartialEq, Eq)]
pub enum CoreBegun {
    Waiting,
    NoRow(Blocked),
}

/// What a step of a call answers.
#[derive(Clone, Copy, Debug, PartialEq, Eq)]
pub enum CoreStep {
    Going,
    /// The call has ended, and met this number.
    Ready(u64),
    NotYet(Why),
}

/// Memory ran out.
#[derive(Clone, Copy, Debug, PartialEq, Eq)]
pub struct NoMemory;

impl From<AllocError> for NoMemory {
    fn from(_: AllocError) -> Self {
        NoMemory
    }
}

impl<T: Drop> From<AllocFailed<T>> for NoMemory {
    fn from(_: AllocFailed<T>) -> Self {
        NoMemory
    }
}

impl From<fn_rows::NoMemory> for NoMemory {
    fn from(_: fn_rows::NoMemory) -> Self {
        NoMemory
    }
}

/// Why a funnel isn't opened.
#[derive(Clone, Copy, Debug, PartialEq, Eq)]
pub enum OpenFault {
    /// The opening and all allowances total 2^63 or more.
    TooMuch { opening: u64, total: u128 },
    NoMemory,
    /// The opening is above the cap.
    AboveCap { opening: u64, cap: u64 },
}

impl From<NoMemory> for OpenFault {
    ghost use Rattle.fn_core.specs.declared.answer.OpenFault.{OpenFault};

    ghost from_gives = { λ _ fault. fault ≡ OpenFault.NoMemory };

    fn from(_: NoMemory) -> Self {
        OpenFault::NoMemory
    }
}
