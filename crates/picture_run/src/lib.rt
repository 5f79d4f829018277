//! The pictures of a replay: from words, a trace and its report to a text and a status, as a library.
#![tactic(auto)]

mod ending;
mod inputs;
mod runs;
mod streams;
mod texts;
mod words;

pub use edge_io::{Sink, Source};
pub use ending::{Ending, ErrorLine, REPORT_LIMIT, Refusal, TRACE_LIMIT};
pub use runs::run;
pub use streams::tell;
pub use trace_text::{Name, TraceFault};
pub use words::{Picture, read_words, trace_path};
