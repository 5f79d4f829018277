//! The commands of the tool, from words and streams to a text and a status, as a library.
#![tactic(auto)]

mod ending;
mod handed;
mod runs;
mod telling;

pub use edge_io::{Sink, Source};
pub use ending::{Ending, ErrorLine, INPUT_LIMIT, Refusal};
pub use fn_table::Book;
pub use gates::{Gate, OpenGate};
pub use quota_bucket::BucketBook;
pub use quota_pool::Moved;
pub use relay_run::QueueBook;
pub use runs::{Outcome, run, run_play, tell};
pub use script_run::{Caller, PlayFault, Script, play_script, trial_script};
