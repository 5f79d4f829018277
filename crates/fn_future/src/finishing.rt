// Futures that are run to their end.
ghost use Rattle.std.specs.Prelude.{IsSome, IfOk};
ghost use Rattle.fn_model.specs.declared.Kind.TheVariants.{Add, Sub};
ghost use Rattle.fn_table.specs.Claims.{Made};
ghost use Rattle.fn_future.specs.Calls.{HasMade};
ghost use Rattle.fn_future.specs.Moves.{HasMoved, IsOpen};
ghost use Rattle.fn_future.specs.Transfers.{Transferred};

use crate::moving::MoveFuture;
use crate::single::{AddFuture, SubFuture};
use fn_climb::Pass;
use futures::Future;
use futures::executor::block_on;
use std::alloc::AllocGlobal;
use std::random::RandomSource;
use std::sync::Wait;

/// Memory ran out, or the random words with which an executor begins couldn't be had.
#[derive(Clone, Copy, Debug, PartialEq, Eq)]
pub struct NoMemory;

/// Polls an addition until it has its reply. It may wait. After an error the pass is lost with the future.
pub fn finish_add<R>(rt: &R, call: AddFuture<'_>) -> Result<(Pass, u64), NoMemory>
where
    R: Wait + RandomSource + AllocGlobal,
    requires { IsSome call.pending }
    ensures made { IfOk result (λ r. Made call.entry.given Add call.entry.amount r.1 r.0) }
    ensures way { IfOk result (λ r. HasMade call.entry r.0 r.1) }
{
    finish(rt, call)
}

/// Polls a subtraction until it has its reply. It may wait. After an error the pass is lost with the future.
pub fn finish_sub<R>(rt: &R, call: SubFuture<'_>) -> Result<(Pass, u64), NoMemory>
where
    R: Wait + RandomSource + AllocGlobal,
    requires { IsSome call.pending }
    ensures made { IfOk result (λ r. Made call.entry.given Sub call.entry.amount r.1 r.0) }
    ensures way { IfOk result (λ r. HasMade call.entry r.0 r.1) }
{
    finish(rt, call)
}

/// Polls a move until it is over. It may wait. After an error both passes are lost with the future.
pub fn finish_move<R>(rt: &R, call: MoveFuture<'_>) -> Result<(Pass, Pass, u64), NoMemory>
where
    R: Wait + RandomSource + AllocGlobal,
    requires { IsOpen call }
    ensures moved { IfOk result (λ r. Transferred call.entry.out call.entry.into call.entry.amount r.0 r.1 r.2) }
    ensures way { IfOk result (HasMoved call.entry) }
{
    finish(rt, call)
}

// Polls a future on this thread until it is ready.
fn finish<R, F>(rt: &R, future: F) -> Result<F::Output, NoMemory>
where
    R: Wait + RandomSource + AllocGlobal,
    F: Future,
    requires { F.can_poll future }
    ensures { IfOk result (F.gives future) }
{
    match block_on(rt, future) {
        Ok(output) => Ok(output),
        Err(_) => Err(NoMemory),
    }
}
