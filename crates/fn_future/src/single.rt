// An addition and a subtraction as futures.
ghost use Rattle.std.specs.Prelude.{◌≡◌, ◌≤◌, IfErr, IfOk, IsSome};
ghost use Rattle.fn_model.specs.declared.Kind.TheVariants.{Add, Sub};
ghost use Rattle.fn_table.specs.Seen.{IsOf};
ghost use Rattle.fn_table.specs.Claims.{left, Made, MadeNone, Rests};
ghost use Rattle.fn_future.specs.Calls.{Gives, HasMade, IsFor, Starts};
ghost use Rattle.fn_future.specs.Polls.{AsksAgain, PolledOnce};

use crate::underway::Underway;
use fn_climb::{Blocked, FunnelTable, Kind, Pass, Why};
use futures::Future;
use futures::task::{Context, Poll};
use std::marker::Model;

/// An addition, up to the cap, as a future: it gives the pass and the integer before. It isn't polled after that.
#[derive(Drop)]
pub struct AddFuture<'a> {
    call: Underway<'a>,
}

impl<'a> Model for AddFuture<'a> {
    ghost use Rattle.std.specs.Prelude.{◌≡◌};
    ghost use Rattle.fn_model.specs.declared.Kind.TheVariants.{Add};
    ghost use Rattle.fn_future.specs.Views.{CallView};

    ghost Value = { CallView };

    ghost view = { λ f. f.call };

    ghost invariant = { λ f. f.call.kind ≡ Add };
}

impl<'a> AddFuture<'a> {
    /// Begins the addition: it waits at its leaf. Where at some level each row of the pass is blocked, the pass comes back with the load that blocks the last of them, and no call was made.
    pub fn new(
        table: &'a FunnelTable,
        pass: Pass,
        amount: u64,
    ) -> Result<AddFuture<'a>, (Pass, Blocked)>
        requires together { IsOf table.now pass }
        requires rests { Rests pass }
        requires amount { (1 ≤ amount) × (amount ≤ left pass) }
        ensures call { IfOk result (IsFor pass Add amount) }
        ensures refused { IfErr result (λ e. MadeNone pass e.0) }
        ensures way { Starts table.now pass Add amount result }
    {
        let call = Underway::start(table, pass, Kind::Add, amount)?;
        Ok(AddFuture { call })
    }

    /// Why the last poll didn't end the call; none before the first.
    pub fn why(&self) -> Option<Why>
        ensures { result ≡ self.now.why }
    {
        self.call.why()
    }
}

impl Future for AddFuture<'_> {
    type Output = (Pass, u64);

    ghost use Rattle.std.specs.Prelude.{ℕ};
    ghost use Rattle.fn_table.specs.Seen.{PassView};
    ghost use Rattle.futures.specs.Task.{Covers, Keeps};
    ghost use Rattle.futures.specs.Poll.{IfReady, OnPending};

    ghost can_poll = { λ f. IsSome f.pending };

    ghost gives = { Gives Add };

    fn poll(&mut self, cx: &mut Context<'_>) -> Poll<(Pass, u64)>
        requires { IsSome self.old.pending }
        ensures made { IfReady result (λ r. Made self.old.given Add self.old.amount r.1 r.0) }
        ensures way { IfReady result (λ r. HasMade self.old r.0 r.1) }
        ensures polled { PolledOnce self.old result self.new }
        ensures asks { OnPending result (AsksAgain cx.new) }
        ensures value { IfReady result (Gives Add self.old) }
        ensures again { OnPending result (IsSome self.new.pending) }
        ensures same { OnPending result ((r : PassView × ℕ) → Gives Add self.new r → Gives Add self.old r) }
        ensures registered { OnPending result (Covers cx.new (λ _. ⊥)) }
        ensures kept { Keeps cx.old cx.new }
    {
        self.call.poll(cx)
    }
}

/// A subtraction, down to zero, as a future: it gives the pass and the integer before. It isn't polled after that.
#[derive(Drop)]
pub struct SubFuture<'a> {
    call: Underway<'a>,
}

impl<'a> Model for SubFuture<'a> {
    ghost use Rattle.std.specs.Prelude.{◌≡◌};
    ghost use Rattle.fn_model.specs.declared.Kind.TheVariants.{Sub};
    ghost use Rattle.fn_future.specs.Views.{CallView};

    ghost Value = { CallView };

    ghost view = { λ f. f.call };

    ghost invariant = { λ f. f.call.kind ≡ Sub };
}

impl<'a> SubFuture<'a> {
    /// Begins the subtraction: it waits at its leaf. Where at some level each row of the pass is blocked, the pass comes back with the load that blocks the last of them, and no call was made.
    pub fn new(
        table: &'a FunnelTable,
        pass: Pass,
        amount: u64,
    ) -> Result<SubFuture<'a>, (Pass, Blocked)>
        requires together { IsOf table.now pass }
        requires rests { Rests pass }
        requires amount { (1 ≤ amount) × (amount ≤ left pass) }
        ensures call { IfOk result (IsFor pass Sub amount) }
        ensures refused { IfErr result (λ e. MadeNone pass e.0) }
        ensures way { Starts table.now pass Sub amount result }
    {
        let call = Underway::start(table, pass, Kind::Sub, amount)?;
        Ok(SubFuture { call })
    }

    /// Why the last poll didn't end the call; none before the first.
    pub fn why(&self) -> Option<Why>
        ensures { result ≡ self.now.why }
    {
        self.call.why()
    }
}

impl Future for SubFuture<'_> {
    type Output = (Pass, u64);

    ghost use Rattle.std.specs.Prelude.{ℕ};
    ghost use Rattle.fn_table.specs.Seen.{PassView};
    ghost use Rattle.futures.specs.Task.{Covers, Keeps};
    ghost use Rattle.futures.specs.Poll.{IfReady, OnPending};

    ghost can_poll = { λ f. IsSome f.pending };

    ghost gives = { Gives Sub };

    fn poll(&mut self, cx: &mut Context<'_>) -> Poll<(Pass, u64)>
        requires { IsSome self.old.pending }
        ensures made { IfReady result (λ r. Made self.old.given Sub self.old.amount r.1 r.0) }
        ensures way { IfReady result (λ r. HasMade self.old r.0 r.1) }
        ensures polled { PolledOnce self.old result self.new }
        ensures asks { OnPending result (AsksAgain cx.new) }
        ensures value { IfReady result (Gives Sub self.old) }
        ensures again { OnPending result (IsSome self.new.pending) }
        ensures same { OnPending result ((r : PassView × ℕ) → Gives Sub self.new r → Gives Sub self.old r) }
        ensures registered { OnPending result (Covers cx.new (λ _. ⊥)) }
        ensures kept { Keeps cx.old cx.new }
    {
        self.call.poll(cx)
    }
}
