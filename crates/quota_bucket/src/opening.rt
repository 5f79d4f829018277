//! A bucket opens.
ghost use Rattle.std.specs.Prelude.{◌≡◌, ◌≤◌, All, IfOk, MatchResult, None, length, map, zip};
ghost use Rattle.fn_model.specs.declared.TheConstants.{NO_CAP};
ghost use Rattle.quota_bucket.specs.Faults.{bucket_fault, TellsFault};
ghost use Rattle.quota_bucket.specs.Opened.{OpensWith, fresh_desks, IsNew};
ghost use Rattle.quota_bucket.specs.Places.{desk_of};

use crate::buckets::Bucket;
use crate::desks::BucketDesk;
use crate::faults::BucketFault;
use crate::rooms::Rooms;
use fn_funnel::{Funnel, Pass, shape_for};
use std::alloc::{AllocError, Global};
use std::sync::Mutex;
use tick_table::{TickSeat, TickTable};

// The desks: each has a seat, and the pass of the same place.
fn deal(
    alloc: Global,
    seats: Vec<TickSeat>,
    passes: Vec<Pass>,
) -> Result<Vec<BucketDesk>, AllocError>
    ensures { IfOk result (λ desks. desks.items ≡ map desk_of (zip seats.items passes.items)) }
{
    let mut desks = Vec::new(alloc);
    for (seat, pass) in seats.into_iter().zip(passes) {
        let pass = Some(pass);
        desks.push(BucketDesk { pass, seat })?;
    }
    Ok(desks)
}

impl Bucket {
    /// A bucket that holds `burst` tokens at most, with `opening` in it, and `rate` more for each tick of `period` moments after `start`; and a desk for each allowance, in order.
    ///
    /// It takes all memory that the calls of desks and `close` need.
    pub fn open(
        alloc: Global,
        burst: u64,
        opening: u64,
        rate: u64,
        period: u64,
        start: u64,
        allowances: &[u64],
    ) -> Result<(Bucket, Vec<BucketDesk>), BucketFault>
        requires burst { (1 ≤ burst) × (burst ≤ NO_CAP) }
        requires rate { 1 ≤ rate }
        requires period { 1 ≤ period }
        requires few { (1 ≤ length allowances.now) × (length allowances.now ≤ 64) }
        ensures bucket { IfOk result (λ r. OpensWith burst opening rate period start allowances.now r.0) }
        ensures desks { IfOk result (λ r. r.1.items ≡ fresh_desks r.0) }
        ensures new { IfOk result (λ r. All (IsNew r.0) r.1.items) }
        ensures faults { MatchResult result (λ _. bucket_fault opening burst allowances.now ≡ None) (TellsFault (bucket_fault opening burst allowances.now)) }
    {
        let count = allowances.len() as u32;
        let (funnel, passes) = Funnel::open_capped(
            alloc,
            shape_for(count),
            opening,
            burst,
            allowances,
        )?;
        let (ticks, seats) = TickTable::open(alloc, start / period, count)?;
        let desks = deal(alloc, seats, passes)?;
        let rooms = Mutex::new(Rooms::new(alloc)?);
        let bucket = Bucket {
            funnel,
            ticks,
            rate,
            period,
            rooms,
        };
        Ok((bucket, desks))
    }
}
