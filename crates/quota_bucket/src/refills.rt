//! What a refill adds.
ghost use Rattle.std.specs.Prelude.{◌≡◌, ◌≤◌};
ghost use Rattle.quota_bucket.specs.Refill.{refill};

/// The tokens of so many ticks: the rate for each, and no more than the burst.
pub fn refill(burst: u64, rate: u64, ticks: u64) -> u64
    ensures exact { result ≡ refill burst rate ticks }
    ensures within { result ≤ burst }
{
    let tokens = u128::from(rate) * u128::from(ticks);
    u128::from(burst).min(tokens) as u64
}
