// How far one poll of a move comes.
ghost use Rattle.std.specs.Prelude.{◌≤◌};
ghost use Rattle.fn_core.specs.Machine.{MaySpend};
ghost use Rattle.fn_core.specs.Calls.{state_in, IsIdle};
ghost use Rattle.fn_table.specs.Seen.{IsOf};
ghost use Rattle.fn_future.specs.Moves.{AddedLeg, BeganLeg, TookLeg, GoesFrom, MayGo};

use crate::legs::{Leg, MoveStage};
use fn_climb::{Begun, FunnelTable, Kind, Pass, Pending, Turn, begin};

/// Goes on from where the move stands.
pub fn go(from: &FunnelTable, to: &FunnelTable, amount: u64, stage: MoveStage) -> Leg
    requires { MayGo from.now to.now amount stage }
    ensures { GoesFrom amount stage result }
{
    match stage {
        MoveStage::Taking(pending, into) => take(from, to, amount, pending, into),
        MoveStage::Between(out, into, moved) => begin_to_add(to, out, into, moved),
        MoveStage::Adding(out, pending, moved) => add(to, out, pending, moved),
        MoveStage::Over => unreachable!(),
    }
}

// Polls the subtraction, and goes on with the addition where that ends it.
fn take(from: &FunnelTable, to: &FunnelTable, amount: u64, pending: Pending, into: Pass) -> Leg
    requires from { IsOf from.now pending.pass }
    requires to { IsOf to.now into }
    requires idle { IsIdle into.seen into.number }
    requires amount { MaySpend (state_in into.seen) into.number amount }
    ensures { TookLeg amount pending into result }
{
    match pending.poll(from) {
        Turn::Ready(out, before) => {
            let moved = amount.min(before);
            if moved == 0 {
                Leg::Done(out, into, 0)
            } else {
                begin_to_add(to, out, into, moved)
            }
        }
        Turn::NotYet(pending, _) => Leg::Waits(MoveStage::Taking(pending, into)),
    }
}

// Begins the addition, and polls it where it has found its rows.
fn begin_to_add(to: &FunnelTable, out: Pass, into: Pass, moved: u64) -> Leg
    requires together { IsOf to.now into }
    requires idle { IsIdle into.seen into.number }
    requires amount { MaySpend (state_in into.seen) into.number moved }
    ensures { BeganLeg out into moved result }
{
    match begin(to, into, Kind::Add, moved) {
        Begun::Waiting(pending) => add(to, out, pending, moved),
        Begun::NoRow(into, _) => Leg::Waits(MoveStage::Between(out, into, moved)),
    }
}

// Polls the addition.
fn add(to: &FunnelTable, out: Pass, pending: Pending, moved: u64) -> Leg
    requires { IsOf to.now pending.pass }
    ensures { AddedLeg out pending moved result }
{
    match pending.poll(to) {
        Turn::Ready(into, _) => Leg::Done(out, into, moved),
        Turn::NotYet(pending, _) => Leg::Waits(MoveStage::Adding(out, pending, moved)),
    }
}
