//! The desks of a bucket.
ghost use Rattle.std.specs.Prelude.{◌≡◌, ◌≤◌, ◌+◌};
ghost use Rattle.fn_table.specs.Claims.{left};
ghost use Rattle.quota_bucket.specs.Seen.{Belongs, burst};
ghost use Rattle.quota_bucket.specs.Taking.{Takes, TakesBy, Peeks, PeeksBy};

use crate::buckets::Bucket;
use fn_funnel::{Pass, read, sub};
use std::marker::Model;
use std::sync::Wait;
use tick_table::TickSeat;

/// How many ticks a take refilled, the tokens that it met then, and how many of them it took.
#[derive(Clone, Copy, Debug, PartialEq, Eq)]
pub struct Taken {
    pub refilled: u64,
    pub before: u64,
    pub moved: u64,
}

/// One caller's place at a bucket, for one thread at a time. Contracts see its pass of the tokens and its seat at the ticks.
#[derive(Drop)]
pub struct BucketDesk {
    // There between calls.
    pub(crate) pass: Option<Pass>,
    pub(crate) seat: TickSeat,
}

impl Model for BucketDesk {
    ghost use Rattle.std.specs.Prelude.{◌≡◌, Some};
    ghost use Rattle.quota_bucket.specs.Seen.{DeskView};
    ghost use Rattle.quota_bucket.specs.Places.{pass_in};

    ghost Value = { DeskView };

    ghost view = { λ d. record { pass = pass_in d.seat d.pass; seat = d.seat } };

    ghost invariant = { λ d. d.pass ≡ Some (pass_in d.seat d.pass) };
}

impl BucketDesk {
    /// How many tokens the desk may still add and take, of its allowance.
    pub fn left(&self) -> u64
        ensures { result ≡ left self.now.pass }
    {
        match &self.pass {
            Some(pass) => pass.allowance(),
            None => unreachable!(),
        }
    }

    /// Claims the ticks up to this moment that nobody has claimed and adds their tokens, and then takes tokens, down to none. It may wait for the callers of its batches.
    pub fn take<R: Wait>(&mut self, rt: &R, bucket: &Bucket, now: u64, amount: u64) -> Taken
        requires together { Belongs bucket.now self.old }
        requires amount { 1 ≤ amount }
        requires left { amount + burst bucket.now ≤ left self.old.pass }
        ensures takes { Takes bucket.now self.old now amount result self.new }
        ensures way { TakesBy bucket.now self.old amount result self.new }
    {
        let tick = now / bucket.period;
        let found = bucket.ticks.claim(&mut self.seat, tick);
        let refilled = tick.saturating_sub(found);
        let Some(pass) = self.pass.take() else {
            unreachable!()
        };
        let pass = bucket.refill(rt, pass, refilled);
        let (pass, taken) = sub(rt, &bucket.funnel, pass, amount);
        self.pass = Some(pass);
        Taken {
            refilled,
            before: taken.before,
            moved: amount.min(taken.before),
        }
    }

    /// The tokens, as a call of its own, without a refill.
    pub fn peek(&mut self, bucket: &Bucket) -> u64
        requires together { Belongs bucket.now self.old }
        ensures peeks { Peeks bucket.now self.old result self.new }
        ensures way { PeeksBy self.old result self.new }
    {
        let Some(mut pass) = self.pass.take() else {
            unreachable!()
        };
        let _in_range = pass.number();
        let tokens = read(bucket.funnel.table(), &mut pass);
        self.pass = Some(pass);
        tokens
    }
}
