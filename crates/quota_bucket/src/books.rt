//! What a closed bucket was.
ghost use Rattle.std.specs.Prelude.{◌≡◌};
ghost use Rattle.tick_table.specs.Claims.{reach};
ghost use Rattle.fn_model.specs.Integer.{value};
ghost use Rattle.quota_bucket.specs.Closed.{history};

use fn_funnel::Book;
use std::marker::Model;
use tick_table::TickBook;

/// What a closed bucket was. Contracts see the history of its tokens, and the log of its ticks.
#[derive(Drop)]
pub struct BucketBook {
    pub(crate) tokens: Book,
    pub(crate) ticks: TickBook,
}

impl Model for BucketBook {
    ghost use Rattle.quota_bucket.specs.Closed.{BucketLog};

    ghost Value = { BucketLog };

    ghost view = { λ b. record { tokens = b.tokens; ticks = b.ticks } };
}

impl BucketBook {
    /// The last tick that was claimed, or that of the start.
    pub fn tick(&self) -> u64
        ensures { result ≡ reach self.now.ticks.start.tick self.now.ticks.log }
    {
        self.ticks.tick()
    }

    /// The tokens that are left.
    pub fn value(&self) -> u64
        ensures { result ≡ value self.now.tokens.start.cap self.now.tokens.start.opening (history self.now) }
    {
        self.tokens.value()
    }
}
