//! Many calls that one thread makes in turns, each lane of them by its own pass, and a script's additions and subtractions made so.
#![tactic(auto)]

mod all_calls;
mod all_lanes;
mod answering;
mod between;
mod dealing;
mod lanes;
mod orders;
mod script;
mod telling;
mod turns;

pub use all_calls::{AllCalls, finish_all};
pub use fn_climb::{FunnelTable, Kind, Pass};
pub use fn_future::NoMemory;
pub use fn_table::Book;
pub use lanes::{Lane, LaneDone, Orders, Replies};
pub use orders::other_order;
pub use script::rounds_text;
pub use script_text::Script;
