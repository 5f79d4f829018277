//! Replays a trace: a worker for each of its lines of rows, all at once, on a pool of its tenants.
#![tactic(auto)]

mod gathering;
mod places;
mod planning;
mod replaying;
mod segment;
mod working;

pub use fn_funnel::Book;
pub use gates::{Gate, OpenGate};
pub use quota_pool::{Blocked, Moved, Way};
pub use replaying::{Replayed, replay};
pub use trace_text::{Cut, Name, NoMemory, Op, Row, Tenant, Trace};
