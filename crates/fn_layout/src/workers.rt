//! The shape that a number of workers gets.
ghost use Rattle.std.specs.Prelude.{◌≤◌};
ghost use Rattle.fn_layout.specs.Workers.{IsShapeFor};

use crate::shape::Shape;

/// A pass for each worker, one leaf for each four workers, four rows, and two levels where there are at least two leaves.
pub fn shape_for(workers: u32) -> Shape
    requires few { (1 ≤ workers) × (workers ≤ 64) }
    ensures { IsShapeFor workers result }
{
    let leaves = (workers + 3) / 4;
    let levels = if leaves >= 2 { 2 } else { 1 };
    match Shape::new(workers, leaves, levels, 4) {
        Ok(shape) => shape,
        Err(_) => unreachable!(),
    }
}
