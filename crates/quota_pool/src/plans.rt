//! What a tenant's workers may add and take.
use std::marker::Model;

/// One allowance for each worker.
#[derive(Debug, Drop)]
pub struct Plan {
    pub items: Vec<u64>,
}

impl Model for Plan {
    ghost use Rattle.std.specs.Prelude.{List, ℕ};

    ghost Value = { List ℕ };

    ghost view = { λ plan. plan.items.items };
}
