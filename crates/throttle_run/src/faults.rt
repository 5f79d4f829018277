//! Why a text is refused.

use std::alloc::AllocError;

/// Why a text is no text of takes, with the number of the line.
#[derive(Clone, Copy, Debug, PartialEq, Eq)]
pub enum ThrottleFault {
    /// too few or too many words
    Fields { at: u64 },
    /// no number of a worker
    Worker { at: u64 },
    /// no moment, or no amount of at least 1
    Amount { at: u64 },
    /// a line past the limit
    TooMany { at: u64 },
    /// the burst and what the lines may move reach 2^63
    Total { at: u64 },
    /// memory ran out
    NoMemory,
}

impl From<AllocError> for ThrottleFault {
    ghost use Rattle.std.specs.Prelude.{◌≡◌};
    ghost use Rattle.throttle_run.specs.declared.faults.ThrottleFault.TheVariants as fault;

    ghost from_gives = { λ _ e. e ≡ fault.NoMemory };

    fn from(_: AllocError) -> Self {
        ThrottleFault::NoMemory
    }
}
