//! A funnel for callers that wait: it opens with its passes, each addition and subtraction goes through it or past it up to its reply, and it closes into a book.
#![tactic(auto)]

mod opening;
mod waiting;

pub use fn_climb::{Begun, Pending, Step, Turn, begin};
pub use fn_core::{Blocked, OpenFault, Why};
pub use fn_direct::{Lost, add_capped, add_direct, meet, note, read, sub_direct};
pub use fn_layout::{Kind, Shape, shape_for};
pub use fn_table::{Book, FunnelTable, Note, Pass};
pub use opening::Funnel;
pub use waiting::{Added, Way, add, add_on, go_straight, sub, sub_on};
