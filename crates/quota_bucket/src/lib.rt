//! A bucket of tokens: many callers take from it, and for each tick of the moments that they hand in it is refilled once.
#![tactic(auto)]

mod books;
mod buckets;
mod closing;
mod desks;
mod faults;
mod moments;
mod opening;
mod refills;
mod rooms;

ghost use Rattle.quota_bucket.specs.Refill.{RefillIsAdditions, RefillsJoin, RefillFits};
ghost use Rattle.quota_bucket.specs.Closed.{TakesStand};

pub use books::BucketBook;
pub use buckets::Bucket;
pub use desks::{BucketDesk, Taken};
pub use faults::BucketFault;

/// One addition of a refill leaves what an addition of the rate for each tick leaves.
pub fn a_refill_is_its_additions()
    ensures additions { RefillIsAdditions }
    ensures joins { RefillsJoin }
    ensures fits { RefillFits }
{}

/// What a take has met stands in the book of the bucket, whatever the others did since.
pub fn takes_stand()
    ensures { TakesStand }
{}
