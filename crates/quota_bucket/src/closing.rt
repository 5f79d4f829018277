//! A bucket ends.
ghost use Rattle.std.specs.Prelude.{◌≡◌, ◌≤◌, Some, All, length, map};
ghost use Rattle.tick_table.specs.Claims.{EachOnce};
ghost use Rattle.quota_bucket.specs.Seen.{Belongs, AreAll};
ghost use Rattle.quota_bucket.specs.Closed.{IsClosed, ClosesBy};
ghost use Rattle.quota_bucket.specs.Parts.{HoldsParts};

use crate::books::BucketBook;
use crate::buckets::Bucket;
use crate::desks::BucketDesk;
use crate::rooms::{Parts, Rooms};

// The passes and the seats of desks, each in the room that was made for them.
fn part(rooms: Rooms, desks: Vec<BucketDesk>) -> Parts
    requires { length desks.items ≤ 64 }
    ensures { HoldsParts desks.items result }
{
    let Rooms {
        mut passes,
        mut seats,
    } = rooms;
    for desk in desks {
        let BucketDesk { pass, seat } = desk;
        match pass {
            Some(pass) => passes.push_reserved(pass),
            None => unreachable!(),
        }
        seats.push_reserved(seat);
    }
    Parts { passes, seats }
}

impl Bucket {
    /// Ends the bucket, given all its desks, in order.
    pub fn close(self, desks: Vec<BucketDesk>) -> BucketBook
        requires together { All (Belongs self) desks.items }
        requires all { AreAll self desks.items }
        ensures closed { IsClosed self desks.items result }
        ensures once { EachOnce result.ticks.start.tick result.ticks.log }
        ensures way { ClosesBy desks.items result }
    {
        let Bucket {
            funnel,
            ticks,
            rate: _,
            period: _,
            rooms,
        } = self;
        let parts = part(rooms.into_inner(), desks);
        BucketBook {
            tokens: funnel.close(parts.passes),
            ticks: ticks.close(parts.seats),
        }
    }
}
