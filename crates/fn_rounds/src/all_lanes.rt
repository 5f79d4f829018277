// All lanes between the rounds.
ghost use Rattle.std.specs.Prelude.{◌≡◌, ◌≤◌, false, length, All, IfOk};
ghost use Rattle.std.specs.List.{list_any};
ghost use Rattle.fn_table.specs.Seen.{IsOf};
ghost use Rattle.fn_table.specs.Claims.{Rests};
ghost use Rattle.fn_rounds.specs.Lanes.{MayMakeAll, has_left};
ghost use Rattle.fn_rounds.specs.Rounds.{AreStarted, HaveTurned, AreHandedBack, AreAllMade};

use crate::between::Running;
use crate::lanes::{Lane, LaneDone};
use fn_climb::FunnelTable;
use std::alloc::{AllocError, Global};
use std::marker::Model;

/// All lanes between the rounds, with room to hand them back.
#[derive(Drop)]
pub struct AllLanes {
    running: Vec<Running>,
    dones: Vec<LaneDone>,
}

impl Model for AllLanes {
    ghost use Rattle.std.specs.Prelude.{◌≡◌, ◌≤◌, List, [], length, vec_capacity};
    ghost use Rattle.fn_rounds.specs.Views.{LaneView};

    ghost Value = { List LaneView };

    ghost view = { λ lanes. lanes.running.items };

    ghost invariant = { λ lanes. (lanes.dones.items ≡ []) × (length lanes.running.items ≤ vec_capacity lanes.dones) };
}

impl AllLanes {
    /// Lanes that have made none of their calls, with all memory that these need.
    pub fn new(alloc: Global, lanes: Vec<Lane>) -> Result<AllLanes, AllocError>
        requires idle { All (λ lane. Rests lane.pass) lanes.items }
        requires may { All (λ lane. MayMakeAll lane.pass lane.orders) lanes.items }
        ensures { IfOk result (AreStarted lanes.items) }
    {
        let dones = Vec::with_capacity(alloc, lanes.len())?;
        let mut running = Vec::with_capacity(alloc, lanes.len())?;
        for lane in lanes {
            running.push(Running::new(alloc, lane)?)?;
        }
        Ok(AllLanes { running, dones })
    }

    /// A turn for each lane, in order.
    pub fn take_turns(self, table: &FunnelTable) -> AllLanes
        requires { All (λ l. IsOf table.now l.given) self }
        ensures { HaveTurned self result }
    {
        let AllLanes { mut running, dones } = self;
        for lane in running.iter_mut() {
            lane.turn(table);
        }
        AllLanes { running, dones }
    }

    /// Whether some lane has a call left.
    pub fn any_left(&self) -> bool
        ensures { result ≡ list_any has_left self.now }
    {
        self.running.iter().any(|lane| lane.has_left())
    }

    /// Each lane's pass with its replies.
    pub fn hand_back(self) -> Vec<LaneDone>
        requires { list_any has_left self ≡ false }
        ensures back { AreHandedBack self result.items }
        ensures made { AreAllMade self result.items }
    {
        let AllLanes { running, mut dones } = self;
        for lane in running {
            match dones.push(lane.finish()) {
                Ok(()) => {}
                Err(_) => unreachable!(),
            }
        }
        dones
    }
}
