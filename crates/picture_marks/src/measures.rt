//! The bounds of some marks, the workers' shares of them, and the scale on which they are drawn.
ghost use Rattle.std.specs.Prelude.{◌≡◌, ◌≤◌, ◌<◌, IfOk};
ghost use Rattle.picture_marks.specs.Laws.{BoundsAreMet, BoundsHold, ColumnsFit, ScaleFits, ScaleRises, SharesAddUp};
ghost use Rattle.picture_marks.specs.Marks.{greatest_of, least_of, scale, shares_of, top};

use crate::marks::{Heading, Mark};
use std::alloc::{AllocError, Global};

/// The least number that the marks met or left, or 0 where there are none.
pub fn least(column: &[Mark]) -> u64
    ensures { result ≡ least_of column.now }
{
    column
        .iter()
        .map(|mark| mark.before.min(mark.after))
        .min()
        .unwrap_or(0)
}

/// The greatest number that the marks met or left, or 0 where there are none.
pub fn greatest(column: &[Mark]) -> u64
    ensures { result ≡ greatest_of column.now }
{
    column
        .iter()
        .map(|mark| mark.before.max(mark.after))
        .max()
        .unwrap_or(0)
}

/// How many of the marks each worker has. Marks of a worker that isn't below `workers` are in no
/// share.
pub fn shares(alloc: Global, workers: u32, column: &[Mark]) -> Result<Vec<u64>, AllocError>
    ensures { IfOk result (λ shares. shares.items ≡ shares_of workers column.now) }
{
    let mut shares = vec![in alloc; 0; workers as usize]?;
    for mark in column {
        if mark.worker < workers {
            shares[mark.worker as usize] += 1;
        }
    }
    Ok(shares)
}

/// How far up a value stands on a scale of this size.
pub fn scaled(size: u64, top: u64, value: u64) -> u64
    requires within { value ≤ top }
    requires room { 0 < top }
    ensures { result ≡ scale size top value }
{
    (u128::from(value) * u128::from(size) / u128::from(top)) as u64
}

/// The top of the scale on which all numbers of a tenant stand.
pub fn top_of(heading: Heading, marks: &[Mark]) -> u64
    ensures { result ≡ top heading marks.now }
{
    heading
        .opening
        .max(heading.last)
        .max(greatest(marks))
        .max(1)
}

/// No number of the marks is outside the bounds, both bounds are numbers of marks, and those of
/// each column stand below the top.
pub fn bounds_laws()
    ensures hold { BoundsHold }
    ensures met { BoundsAreMet }
    ensures fit { ColumnsFit }
{}

/// The shares of marks whose workers are all below `workers` add up to their number.
pub fn shares_laws()
    ensures { SharesAddUp }
{}

/// A value up to the top stands within the size, and a greater one doesn't stand lower.
pub fn scale_laws()
    ensures fits { ScaleFits }
    ensures rises { ScaleRises }
{}
