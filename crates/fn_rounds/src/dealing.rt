// The lines of a script as lanes.
ghost use Rattle.std.specs.Prelude.{◌≡◌, ◌<◌, ◌++◌, ◌∷◌, [], All, IfOk, OnOk, length, map};
ghost use Rattle.running.specs.Running.{upto};
ghost use Rattle.fn_rounds.specs.Script.{order_of};
ghost use Rattle.fn_rounds.specs.Dealing.{lanes_for};

use crate::lanes::{Lane, Orders};
use fn_climb::{Kind, Pass};
use script_text::{Order, ScriptLine};
use std::alloc::{AllocError, Global};

/// Each pass with the orders of its lines.
pub fn lanes_for(
    alloc: Global,
    passes: Vec<Pass>,
    lines: &[ScriptLine],
) -> Result<Vec<Lane>, AllocError>
    requires numbers { map (λ p. p.number) passes.items ≡ upto (length passes.items) }
    requires there { All (λ line. line.pass < length passes.items) lines.now }
    ensures { IfOk result (λ lanes. lanes.items ≡ lanes_for lines.now passes.items) }
{
    let mut lanes = bare_lanes(alloc, passes)?;
    for line in lines {
        add_order(&mut lanes[line.pass as usize], order_of(line.order))?;
    }
    Ok(lanes)
}

// Each pass without an order.
fn bare_lanes(alloc: Global, passes: Vec<Pass>) -> Result<Vec<Lane>, AllocError>
    ensures { IfOk result (λ lanes. lanes.items ≡ lanes_for [] passes.items) }
{
    let mut lanes = Vec::with_capacity(alloc, passes.len())?;
    for pass in passes {
        let items = Vec::new(alloc);
        let orders = Orders { items };
        lanes.push(Lane { pass, orders })?;
    }
    Ok(lanes)
}

// Gives a lane one order more.
fn add_order(lane: &mut Lane, order: (Kind, u64)) -> Result<(), AllocError>
    ensures { OnOk result (lane.new ≡ record lane.old { orders = lane.old.orders ++ order ∷ [] }) }
{
    lane.orders.items.push(order)?;
    Ok(())
}

// What an order asks for, where it is an addition or a subtraction.
fn order_of(order: Order) -> (Kind, u64)
    ensures { result ≡ order_of order }
{
    match order {
        Order::Add(amount) => (Kind::Add, amount),
        Order::Sub(amount) => (Kind::Sub, amount),
        _ => (Kind::Read, 0),
    }
}
