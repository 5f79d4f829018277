//! Lines of takes go through a refilled bucket by workers, and come out with what each met.
#![tactic(auto)]

mod allowing;
mod faults;
mod gathering;
mod lines;
mod reading;
mod telling;
mod throttling;
mod workers;

pub use faults::ThrottleFault;
pub use lines::ThrottleLine;
pub use quota_bucket::BucketBook;
pub use reading::{read_lines, reading_laws};
pub use throttling::throttle_text;
