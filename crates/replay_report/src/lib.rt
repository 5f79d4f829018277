//! The texts of a trace's answers: a report of all rows and tenants, and a summary of one tenant.
#![tactic(auto)]

mod numbers;
mod report;
mod sums;

pub use quota_pool::Moved;
pub use report::{report_text, summary_text};
pub use sums::{Sums, sums_of};
pub use trace_text::{NoMemory, Trace};
