// A call that has begun, between its polls.
ghost use Rattle.std.specs.Prelude.{◌≡◌, IfErr, IfOk, IsSome};
ghost use Rattle.fn_core.specs.Machine.{IsChange, MaySpend};
ghost use Rattle.fn_core.specs.Calls.{state_in, IsIdle};
ghost use Rattle.fn_table.specs.Seen.{IsOf};
ghost use Rattle.fn_table.specs.Claims.{Made, MadeNone};
ghost use Rattle.fn_future.specs.Calls.{Gives, HasMade, IsFor, Starts};
ghost use Rattle.fn_future.specs.Polls.{AsksAgain, PolledOnce};

use fn_climb::{Begun, Blocked, FunnelTable, Kind, Pass, Pending, Turn, Why, begin};
use futures::Future;
use futures::task::{Context, Poll};
use std::marker::Model;
use std::snapshot::Snapshot;

/// A call of a pass, which is made by polls. Contracts see the pass as it was handed in, the call, and how it stands.
#[derive(Drop)]
pub struct Underway<'a> {
    table: &'a FunnelTable,
    given: Snapshot<Pass>,
    kind: Snapshot<Kind>,
    amount: Snapshot<u64>,
    pending: Option<Pending>,
    why: Option<Why>,
}

impl<'a> Model for Underway<'a> {
    ghost use Rattle.fn_future.specs.Views.{CallView};
    ghost use Rattle.fn_future.specs.Standing.{Stands};

    ghost Value = { CallView };

    ghost view = { λ c. record { table = c.table.now; given = c.given.value; kind = c.kind.value; amount = c.amount.value; pending = c.pending; why = c.why } };

    ghost invariant = { λ c. Stands c.table.now c.given.value c.kind.value c.amount.value c.pending c.why };
}

impl<'a> Underway<'a> {
    /// Begins the call.
    pub fn start(
        table: &'a FunnelTable,
        pass: Pass,
        kind: Kind,
        amount: u64,
    ) -> Result<Underway<'a>, (Pass, Blocked)>
        requires together { IsOf table.now pass }
        requires idle { IsIdle pass.seen pass.number }
        requires change { IsChange kind }
        requires amount { MaySpend (state_in pass.seen) pass.number amount }
        ensures call { IfOk result (IsFor pass kind amount) }
        ensures refused { IfErr result (λ e. MadeNone pass e.0) }
        ensures way { Starts table.now pass kind amount result }
    {
        let _number = pass.number();
        let given = Snapshot::of(&pass);
        match begin(table, pass, kind, amount) {
            Begun::Waiting(pending) => Ok(Underway {
                table,
                given,
                kind: Snapshot::of(&kind),
                amount: Snapshot::of(&amount),
                pending: Some(pending),
                why: None,
            }),
            Begun::NoRow(pass, blocked) => Err((pass, blocked)),
        }
    }

    /// Why the last poll didn't end the call.
    pub fn why(&self) -> Option<Why>
        ensures { result ≡ self.now.why }
    {
        self.why
    }
}

impl Future for Underway<'_> {
    type Output = (Pass, u64);

    ghost use Rattle.std.specs.Prelude.{ℕ};
    ghost use Rattle.fn_table.specs.Seen.{PassView};
    ghost use Rattle.futures.specs.Task.{Covers, Keeps};
    ghost use Rattle.futures.specs.Poll.{IfReady, OnPending};

    ghost can_poll = { λ c. IsSome c.pending };

    ghost gives = { λ c. Gives c.kind c };

    fn poll(&mut self, cx: &mut Context<'_>) -> Poll<(Pass, u64)>
        requires { IsSome self.old.pending }
        ensures polled { PolledOnce self.old result self.new }
        ensures asks { OnPending result (AsksAgain cx.new) }
        ensures value { IfReady result (Gives self.old.kind self.old) }
        ensures again { OnPending result (IsSome self.new.pending) }
        ensures same { OnPending result ((r : PassView × ℕ) → Gives self.new.kind self.new r → Gives self.old.kind self.old r) }
        ensures registered { OnPending result (Covers cx.new (λ _. ⊥)) }
        ensures kept { Keeps cx.old cx.new }
    {
        let Some(pending) = self.pending.take() else {
            unreachable!()
        };
        match pending.poll(self.table) {
            Turn::Ready(pass, reply) => Poll::Ready((pass, reply)),
            Turn::NotYet(pending, why) => {
                self.pending = Some(pending);
                self.why = Some(why);
                cx.yield_now()
            }
        }
    }
}
