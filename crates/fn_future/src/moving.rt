// A move from one funnel to another as a future.
ghost use Rattle.std.specs.Prelude.{◌≡◌, ◌≤◌, IfErr, IfNone, IfOk, IfSome};
ghost use Rattle.fn_table.specs.Seen.{IsOf};
ghost use Rattle.fn_table.specs.Claims.{left, MadeNone, Rests};
ghost use Rattle.fn_future.specs.Moves.{GivesMove, IsMoveFor, IsOpen, StartsMove, TurnedMove};

use crate::legs::{Leg, MoveStage};
use crate::walking::go;
use fn_climb::{Begun, Blocked, FunnelTable, Kind, Pass, begin};
use futures::Future;
use futures::task::{Context, Poll};
use std::marker::Model;
use std::mem;
use std::snapshot::Snapshot;

/// Subtracts at one table and then adds at another what was there, as a future: it gives both passes and what was moved. Where nothing was there it makes no call at the other. It isn't polled after that.
#[derive(Drop)]
pub struct MoveFuture<'a> {
    from: &'a FunnelTable,
    to: &'a FunnelTable,
    amount: u64,
    out: Snapshot<Pass>,
    into: Snapshot<Pass>,
    stage: MoveStage,
}

impl<'a> Model for MoveFuture<'a> {
    ghost use Rattle.fn_future.specs.Moves.{MoveView};
    ghost use Rattle.fn_future.specs.Moving.{IsMoving};

    ghost Value = { MoveView };

    ghost view = { λ m. record { from = m.from.now; to = m.to.now; out = m.out.value; into = m.into.value; amount = m.amount; stage = m.stage } };

    ghost invariant = { λ m. IsMoving (record { from = m.from.now; to = m.to.now; out = m.out.value; into = m.into.value; amount = m.amount; stage = m.stage }) };
}

impl<'a> MoveFuture<'a> {
    /// Begins the subtraction: it waits at its leaf. Where at some level each row of its pass is blocked, both passes come back with the load that blocks the last of them, and no call was made. The two tables may be one.
    pub fn new(
        from: &'a FunnelTable,
        out: Pass,
        to: &'a FunnelTable,
        into: Pass,
        amount: u64,
    ) -> Result<MoveFuture<'a>, (Pass, Pass, Blocked)>
        requires from { IsOf from.now out }
        requires to { IsOf to.now into }
        requires rest { Rests out × Rests into }
        requires amount { (1 ≤ amount) × (amount ≤ left out) × (amount ≤ left into) }
        ensures call { IfOk result (IsMoveFor out into amount) }
        ensures refused { IfErr result (λ e. MadeNone out e.0 × (e.1 ≡ into)) }
        ensures way { StartsMove from.now out to.now into amount result }
    {
        let _numbers = (out.number(), into.number());
        let given = Snapshot::of(&out);
        let waits = Snapshot::of(&into);
        match begin(from, out, Kind::Sub, amount) {
            Begun::Waiting(pending) => Ok(MoveFuture {
                from,
                to,
                amount,
                out: given,
                into: waits,
                stage: MoveStage::Taking(pending, into),
            }),
            Begun::NoRow(out, blocked) => Err((out, into, blocked)),
        }
    }

    // Goes on as far as it comes.
    fn turn(&mut self) -> Option<(Pass, Pass, u64)>
        requires { IsOpen self.old }
        ensures turned { TurnedMove self.old result self.new }
        ensures moved { IfSome result (GivesMove self.old) }
        ensures open { IfNone result (IsOpen self.new) }
    {
        let stage = mem::replace(&mut self.stage, MoveStage::Over);
        match go(self.from, self.to, self.amount, stage) {
            Leg::Done(out, into, moved) => Some((out, into, moved)),
            Leg::Waits(stage) => {
                self.stage = stage;
                None
            }
        }
    }
}

impl Future for MoveFuture<'_> {
    type Output = (Pass, Pass, u64);

    ghost use Rattle.std.specs.Prelude.{ℕ};
    ghost use Rattle.fn_table.specs.Seen.{PassView};
    ghost use Rattle.futures.specs.Task.{Covers, Keeps};
    ghost use Rattle.futures.specs.Poll.{IfReady, OnPending};
    ghost use Rattle.fn_future.specs.Moves.{GivesMove, HasMoved, IsOpen, TurnedMove};
    ghost use Rattle.fn_future.specs.Polls.{given_by, AsksAgain};
    ghost use Rattle.fn_future.specs.Transfers.{Transferred};

    ghost can_poll = { IsOpen };

    ghost gives = { GivesMove };

    fn poll(&mut self, cx: &mut Context<'_>) -> Poll<(Pass, Pass, u64)>
        requires { IsOpen self.old }
        ensures moved { IfReady result (λ r. Transferred self.old.out self.old.into self.old.amount r.0 r.1 r.2) }
        ensures way { IfReady result (HasMoved self.old) }
        ensures polled { TurnedMove self.old (given_by result) self.new }
        ensures asks { OnPending result (AsksAgain cx.new) }
        ensures value { IfReady result (GivesMove self.old) }
        ensures again { OnPending result (IsOpen self.new) }
        ensures same { OnPending result ((r : PassView × PassView × ℕ) → GivesMove self.new r → GivesMove self.old r) }
        ensures registered { OnPending result (Covers cx.new (λ _. ⊥)) }
        ensures kept { Keeps cx.old cx.new }
    {
        match self.turn() {
            Some(moved) => Poll::Ready(moved),
            None => cx.yield_now(),
        }
    }
}
