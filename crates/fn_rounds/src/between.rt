// A lane between the rounds.
ghost use Rattle.std.specs.Prelude.{◌≡◌, IfOk, false};
ghost use Rattle.fn_table.specs.Seen.{IsOf};
ghost use Rattle.fn_table.specs.Claims.{Rests};
ghost use Rattle.fn_rounds.specs.Lanes.{MayMakeAll, LaneTurned, has_left, AreMade, is_new, IsHandedBack};

use crate::lanes::{Caller, Lane, LaneDone, Orders, Replies};
use crate::turns::take_turn;
use fn_climb::{FunnelTable, Pass};
use std::alloc::{AllocError, Global};
use std::marker::Model;
use std::snapshot::Snapshot;

/// A lane between the rounds. Contracts see the pass as it was handed in, the orders, the replies so far and the caller.
#[derive(Drop)]
pub struct Running {
    given: Snapshot<Pass>,
    orders: Orders,
    replies: Vec<u64>,
    caller: Caller,
}

impl Model for Running {
    ghost use Rattle.std.specs.Prelude.{◌≤◌, length, vec_capacity};
    ghost use Rattle.fn_rounds.specs.Views.{LaneView};
    ghost use Rattle.fn_rounds.specs.Standing.{Stands};

    ghost Value = { LaneView };

    ghost view = { λ r. record { given = r.given.value; orders = r.orders; replies = r.replies.items; caller = r.caller } };

    ghost invariant = { λ r. (length r.orders ≤ vec_capacity r.replies) × Stands r.given.value r.orders r.replies.items r.caller };
}

impl Running {
    /// A lane that has made none of its calls, with room for all replies.
    pub fn new(alloc: Global, lane: Lane) -> Result<Running, AllocError>
        requires idle { Rests lane.pass }
        requires may { MayMakeAll lane.pass lane.orders }
        ensures { IfOk result (is_new lane) }
    {
        let Lane { pass, orders } = lane;
        let _number = pass.number();
        let replies = Vec::with_capacity(alloc, orders.len())?;
        Ok(Running {
            given: Snapshot::of(&pass),
            orders,
            replies,
            caller: Caller::Idle(pass),
        })
    }

    /// Whether a call is left that hasn't ended.
    pub fn has_left(&self) -> bool
        ensures { result ≡ has_left self.now }
    {
        self.replies.len() < self.orders.len()
    }

    /// Begins the next call where the pass is idle, else polls it once; and does nothing where no call is left.
    pub fn turn(&mut self, table: &FunnelTable)
        requires { IsOf table.now self.old.given }
        ensures { LaneTurned self.old self.new }
    {
        if self.replies.len() >= self.orders.len() {
            return;
        }
        let (kind, amount) = self.orders.order(self.replies.len());
        match take_turn(table, &mut self.caller, kind, amount) {
            None => {}
            Some(reply) => match self.replies.push(reply) {
                Ok(()) => {}
                Err(_) => unreachable!(),
            },
        }
    }

    /// The pass with all replies.
    pub fn finish(self) -> LaneDone
        requires { has_left self ≡ false }
        ensures made { AreMade self.given self.orders result.replies result.pass }
        ensures back { IsHandedBack self result }
    {
        let Running {
            replies,
            caller,
            ..
        } = self;
        match caller {
            Caller::Idle(pass) => LaneDone {
                pass,
                replies: Replies { items: replies },
            },
            Caller::Pending(_) | Caller::Gone => unreachable!(),
        }
    }
}
