//! A call that goes through aggregators, as a state machine on a funnel's table: it begins, and takes one step at a time until it has its reply.
#![tactic(auto)]

mod at_level;
mod beginning;
mod course;
mod leading;
mod pending;
mod polling;
mod publishing;
mod row_words;
mod stepping;

pub use beginning::{Begun, begin, begin_on};
pub use course::Course;
pub use fn_core::{Blocked, Why};
pub use fn_layout::Kind;
pub use fn_table::{FunnelTable, Pass};
pub use pending::{Pending, Step};
pub use polling::{Turn, poll_on};
