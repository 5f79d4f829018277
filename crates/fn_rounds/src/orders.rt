//! Whether a script has additions and subtractions alone.
ghost use Rattle.std.specs.Prelude.{◌≡◌, All, IfNone};
ghost use Rattle.fn_rounds.specs.Script.{IsChangeOrder, is_change, other_order};

use script_text::{Order, Script};

/// The number of the first line whose order is neither an addition nor a subtraction.
pub fn other_order(script: &Script) -> Option<u64>
    ensures first { result ≡ other_order script.now.lines }
    ensures changes { IfNone result (All (λ line. IsChangeOrder line.order) script.now.lines) }
{
    for line in &script.lines.items {
        if !is_change(line.order) {
            return Some(line.at);
        }
    }
    None
}

fn is_change(order: Order) -> bool
    ensures { result ≡ is_change order }
{
    matches!(order, Order::Add(_) | Order::Sub(_))
}
