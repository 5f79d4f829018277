//! When a bucket would have so many tokens.
ghost use Rattle.std.specs.Prelude.{◌≡◌, ◌<◌, ◌^◌, ℕ, IfSome, IfNone};
ghost use Rattle.quota_bucket.specs.Moments.{IsReadyAt, held_at};

use crate::buckets::Bucket;

impl Bucket {
    /// The least moment from which on the amount would be there, if nobody took any: of `held` tokens after the refill of `tick`. `None` where it would be there at no moment, since it is above the burst or the moments end.
    pub fn ready_at(&self, held: u64, tick: u64, amount: u64) -> Option<u64>
        ensures ready { IfSome result (λ moment. IsReadyAt self.now held tick amount moment) }
        ensures never { IfNone result ((moment : ℕ) → moment < 2 ^ 64 → held_at self.now held tick moment < amount) }
    {
        if amount > self.funnel.cap() {
            return None;
        }
        if amount <= held {
            return Some(0);
        }
        let ticks = (amount - held).div_ceil(self.rate);
        tick.checked_add(ticks)?.checked_mul(self.period)
    }
}
