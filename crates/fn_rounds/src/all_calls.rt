// All lanes, a round of them at each poll.
ghost use Rattle.std.specs.Prelude.{◌≡◌, All, IsSome, IsSomeAnd, IfSome, IfOk, option_map};
ghost use Rattle.fn_table.specs.Seen.{IsOf};
ghost use Rattle.fn_table.specs.Claims.{Rests};
ghost use Rattle.fn_rounds.specs.Lanes.{MayMakeAll};
ghost use Rattle.fn_rounds.specs.Rounds.{AreStarted, AreAllInOrder, AreAllMade, HasGiven, Round};

use crate::all_lanes::AllLanes;
use crate::lanes::{Lane, LaneDone};
use fn_climb::FunnelTable;
use fn_future::NoMemory;
use futures::Future;
use futures::executor::block_on;
use futures::task::{Context, Poll};
use std::alloc::{AllocGlobal, Global};
use std::marker::Model;
use std::random::RandomSource;
use std::sync::Wait;

/// The calls of all lanes as a future, which gives the passes with their replies. Each poll makes one round: each lane with an order left, one after the other, begins it or polls it once.
#[derive(Drop)]
pub struct AllCalls<'a> {
    table: &'a FunnelTable,
    lanes: Option<AllLanes>,
}

impl<'a> Model for AllCalls<'a> {
    ghost use Rattle.std.specs.Prelude.{All, IfSome};
    ghost use Rattle.fn_table.specs.Seen.{IsOf};
    ghost use Rattle.fn_rounds.specs.Views.{RoundsView};

    ghost Value = { RoundsView };

    ghost view = { λ c. record { table = c.table.now; lanes = c.lanes } };

    ghost invariant = { λ c. IfSome c.lanes (All (λ l. IsOf c.table.now l.given)) };
}

impl<'a> AllCalls<'a> {
    /// Takes all memory that the calls need; none of them has begun. After an error the passes are lost.
    pub fn new(
        alloc: Global,
        table: &'a FunnelTable,
        lanes: Vec<Lane>,
    ) -> Result<AllCalls<'a>, NoMemory>
        requires together { All (λ lane. IsOf table.now lane.pass) lanes.items }
        requires idle { All (λ lane. Rests lane.pass) lanes.items }
        requires may { All (λ lane. MayMakeAll lane.pass lane.orders) lanes.items }
        ensures { IfOk result (λ c. (c.table ≡ table.now) × IsSomeAnd c.lanes (AreStarted lanes.items)) }
    {
        match AllLanes::new(alloc, lanes) {
            Ok(lanes) => Ok(AllCalls {
                table,
                lanes: Some(lanes),
            }),
            Err(_) => Err(NoMemory),
        }
    }

    // Makes a round, and hands all back where no call is left.
    fn round(&mut self) -> Option<Vec<LaneDone>>
        requires { IsSome self.old.lanes }
        ensures turned { Round self.old (option_map (λ v. v.items) result) self.new }
        ensures made { IfSome result (λ dones. HasGiven self.old dones.items) }
    {
        let Some(lanes) = self.lanes.take() else {
            unreachable!()
        };
        let lanes = lanes.take_turns(self.table);
        if lanes.any_left() {
            self.lanes = Some(lanes);
            None
        } else {
            Some(lanes.hand_back())
        }
    }
}

impl Future for AllCalls<'_> {
    type Output = Vec<LaneDone>;

    ghost use Rattle.std.specs.Prelude.{Vec, IsSome, IfSome, option_map};
    ghost use Rattle.std.specs.declared.alloc.Global.{Global};
    ghost use Rattle.fn_rounds.specs.declared.lanes.LaneDone.{LaneDone};
    ghost use Rattle.futures.specs.Task.{Covers, Keeps};
    ghost use Rattle.futures.specs.Poll.{IfReady, OnPending};
    ghost use Rattle.fn_rounds.specs.Rounds.{AreAllInOrder, AreAllMade, HasGiven, LeavesSome, Round};
    ghost use Rattle.fn_future.specs.Polls.{given_by, AsksAgain};

    ghost can_poll = { λ c. IsSome c.lanes };

    ghost gives = { λ c dones. HasGiven c dones.items };

    fn poll(&mut self, cx: &mut Context<'_>) -> Poll<Vec<LaneDone>>
        requires { IsSome self.old.lanes }
        ensures made { IfReady result (λ dones. IfSome self.old.lanes (λ lanes. AreAllInOrder lanes dones.items)) }
        ensures way { IfReady result (λ dones. IfSome self.old.lanes (λ lanes. AreAllMade lanes dones.items)) }
        ensures polled { Round self.old (option_map (λ v. v.items) (given_by result)) self.new }
        ensures pending { OnPending result (LeavesSome self.old self.new) }
        ensures asks { OnPending result (AsksAgain cx.new) }
        ensures value { IfReady result (λ dones. HasGiven self.old dones.items) }
        ensures again { OnPending result (IsSome self.new.lanes) }
        ensures same { OnPending result ((r : Vec LaneDone Global) → HasGiven self.new r.items → HasGiven self.old r.items) }
        ensures registered { OnPending result (Covers cx.new (λ _. ⊥)) }
        ensures kept { Keeps cx.old cx.new }
    {
        match self.round() {
            Some(dones) => Poll::Ready(dones),
            None => cx.yield_now(),
        }
    }
}

/// Polls all calls until they have ended. It may wait. After an error the passes are lost with the future.
pub fn finish_all<R>(rt: &R, calls: AllCalls<'_>) -> Result<Vec<LaneDone>, NoMemory>
where
    R: Wait + RandomSource + AllocGlobal,
    requires { IsSome calls.lanes }
    ensures made { IfOk result (λ dones. IfSome calls.entry.lanes (λ lanes. AreAllInOrder lanes dones.items)) }
    ensures way { IfOk result (λ dones. IfSome calls.entry.lanes (λ lanes. AreAllMade lanes dones.items)) }
{
    block_on(rt, calls).map_err(|_| NoMemory)
}
