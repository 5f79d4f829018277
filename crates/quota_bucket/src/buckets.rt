//! A bucket.
ghost use Rattle.std.specs.Prelude.{◌≡◌, ◌≤◌};
ghost use Rattle.fn_table.specs.Claims.{Rests, left};
ghost use Rattle.fn_table.specs.Seen.{IsOf};
ghost use Rattle.quota_bucket.specs.Seen.{burst};
ghost use Rattle.quota_bucket.specs.Taking.{Refills, RefillsBy};

use crate::refills::refill;
use crate::rooms::Rooms;
use fn_funnel::{Funnel, Pass, add};
use std::marker::Model;
use std::sync::{Mutex, Wait};
use tick_table::TickTable;

/// Tokens that are taken, and refilled by so many for each tick of so many moments. Contracts see the funnel of the tokens, the table of the ticks, and both numbers.
#[derive(Drop)]
pub struct Bucket {
    pub(crate) funnel: Funnel,
    pub(crate) ticks: TickTable,
    pub(crate) rate: u64,
    pub(crate) period: u64,
    // Taken out at the closing alone. The lock is never taken: by it threads may share what they may not read.
    pub(crate) rooms: Mutex<Rooms>,
}

impl Model for Bucket {
    ghost use Rattle.quota_bucket.specs.Seen.{BucketView};
    ghost use Rattle.quota_bucket.specs.Opened.{IsOpen};

    ghost Value = { BucketView };

    ghost view = { λ b. record { funnel = b.funnel; ticks = b.ticks; rate = b.rate; period = b.period } };

    ghost invariant = { λ b. IsOpen (record { funnel = b.funnel; ticks = b.ticks; rate = b.rate; period = b.period }) };
}

impl Bucket {
    /// The most tokens that the bucket holds.
    pub fn burst(&self) -> u64
        ensures { result ≡ burst self.now }
    {
        self.funnel.cap()
    }

    /// Adds the tokens of so many ticks, where there are some. It may wait for the callers of its batch.
    pub(crate) fn refill<R: Wait>(&self, rt: &R, pass: Pass, ticks: u64) -> Pass
        requires together { IsOf self.now.funnel pass }
        requires rests { Rests pass }
        requires left { burst self.now ≤ left pass }
        ensures made { Refills self.now pass ticks result }
        ensures way { RefillsBy self.now pass ticks result }
    {
        if ticks == 0 {
            return pass;
        }
        let tokens = refill(self.funnel.cap(), self.rate, ticks);
        let (pass, _added) = add(rt, &self.funnel, pass, tokens);
        pass
    }
}
