//! A pool of tenants, each with a funnel of its own, and a desk for each worker.
#![tactic(auto)]

mod closing;
mod desks;
mod faults;
mod moved;
mod opening;
mod plans;
mod pool;
mod rooms;

pub use desks::Desk;
pub use faults::PoolFault;
pub use fn_funnel::{Blocked, Book, Shape, Way};
pub use moved::Moved;
pub use plans::Plan;
pub use pool::QuotaPool;
