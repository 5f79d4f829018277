//! Scripts of callers on one funnel: played on the pure core, and run on the table.
#![tactic(auto)]

mod lines;
mod on_table;
mod play;
mod trial;

pub use fn_climb::Pending;
pub use fn_table::{Book, Pass};
pub use lines::LineAnswer;
pub use play::{PlayFault, play_script, replies_are_met};
pub use script_text::Script;
pub use trial::{Caller, trial_script};
