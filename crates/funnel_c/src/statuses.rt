//! What a function answers to C.
ghost use Rattle.std.specs.Prelude.{◌≡◌};
ghost use Rattle.funnel_c.specs.Told.{reason_status, status_of, begun_status, reply_or};

use fn_callers::Reason;

/// The call was made, or the funnel is open, or the slot is empty again.
pub const OK: u32 = 0;

/// The call waits for its reply.
pub const NOT_YET: u32 = 1;

/// At some level each row of the caller is blocked, and no call was begun.
pub const NO_ROW: u32 = 2;

/// Another changed the number in between, and no call was made.
pub const LOST: u32 = 3;

/// There is no caller in the slot.
pub const EMPTY: u32 = 4;

/// The caller's call has no reply yet.
pub const UNDERWAY: u32 = 5;

/// The caller has no call underway.
pub const IDLE: u32 = 6;

/// The amount is 0, or more than the caller has left.
pub const SPENT: u32 = 7;

/// There is no memory for a funnel.
pub const NO_MEMORY: u32 = 8;

/// A slot is full, there isn't an allowance for each slot, or the numbers open no funnel.
pub const REFUSED: u32 = 9;

// The status of a reason.
fn status_for(reason: Reason) -> u32
    ensures { result ≡ reason_status reason }
{
    match reason {
        Reason::NotYet => NOT_YET,
        Reason::NoRow => NO_ROW,
        Reason::Lost => LOST,
        Reason::Underway => UNDERWAY,
        Reason::Idle => IDLE,
        Reason::Spent => SPENT,
    }
}

/// The status of a call, whose reply is written.
pub fn tell(answer: Result<u64, Reason>, reply: &mut u64) -> u32
    ensures status { result ≡ status_of answer }
    ensures written { reply.new ≡ reply_or reply.old answer }
{
    match answer {
        Ok(number) => {
            *reply = number;
            OK
        }
        Err(reason) => status_for(reason),
    }
}

/// The status of a beginning.
pub fn tell_begun(answer: Result<(), Reason>) -> u32
    ensures { result ≡ begun_status answer }
{
    match answer {
        Ok(()) => NOT_YET,
        Err(reason) => status_for(reason),
    }
}
