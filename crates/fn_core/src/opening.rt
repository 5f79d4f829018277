//! The words of a funnel that opens.

ghost use Rattle.std.specs.Prelude.{◌≡◌, ◌+◌, ◌≤◌, ◌++◌, IfOk, List, length, map, sum};
ghost use Rattle.fn_layout.specs.Tree.{IsLevel};
ghost use Rattle.fn_rows.specs.Aggregator.{Aggregator};
ghost use Rattle.fn_core.specs.Fields.{ArePlaces};
ghost use Rattle.fn_core.specs.Opening.{AreLevel, AreKind, unreached, resting};

use crate::Position;
use crate::answer::NoMemory;
use crate::machine::Standing;
use fn_layout::Shape;
use fn_rows::RowState;
use std::alloc::Global;

/// The least total of an opening and its allowances that is too much.
pub(crate) const TOO_MUCH: u128 = 9223372036854775808;

/// The opening and all allowances.
pub(crate) fn total(opening: u64, allowances: &[u64]) -> u128
    requires { length allowances.now ≤ 64 }
    ensures { result ≡ opening + sum allowances.now }
{
    let mut total = u128::from(opening);
    for allowance in allowances {
        total += u128::from(*allowance);
    }
    total
}

/// The passes, none of which makes a call.
pub(crate) fn standings(alloc: Global, allowances: &[u64]) -> Result<Vec<Standing>, NoMemory>
    ensures { IfOk result (λ all. all.items ≡ map resting allowances.now) }
{
    let mut all = Vec::new(alloc);
    for left in allowances {
        all.push(Standing {
            position: Position::Resting,
            left: *left,
        })?;
    }
    Ok(all)
}

/// The aggregators of both kinds, by number.
pub(crate) fn aggregators(alloc: Global, shape: Shape) -> Result<Vec<RowState>, NoMemory>
    ensures { IfOk result (λ all. ArePlaces shape all.items unreached) }
{
    let mut all = Vec::new(alloc);
    add_kind(&mut all, alloc, shape)?;
    add_kind(&mut all, alloc, shape)?;
    Ok(all)
}

// Adds the aggregators of one kind, level by level.
fn add_kind(all: &mut Vec<RowState>, alloc: Global, shape: Shape) -> Result<(), NoMemory>
    ensures { IfOk result (λ _. (more : List Aggregator) × (all.new.items ≡ all.old.items ++ more) × AreKind shape more) }
{
    for level in 1..shape.levels() + 1 {
        add_level(all, alloc, shape, level)?;
    }
    Ok(())
}

// Adds the aggregators of one level.
fn add_level(
    all: &mut Vec<RowState>,
    alloc: Global,
    shape: Shape,
    level: u32,
) -> Result<(), NoMemory>
    requires { IsLevel shape level }
    ensures { IfOk result (λ _. (more : List Aggregator) × (all.new.items ≡ all.old.items ++ more) × AreLevel shape level more) }
{
    for index in 0..shape.width(level) {
        let members = shape.members(level, index);
        all.push(RowState::new(alloc, members, shape.rows())?)?;
    }
    Ok(())
}
