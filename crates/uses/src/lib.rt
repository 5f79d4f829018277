//! Uses of the library, as a caller writes them: a counter, ranges of numbers, a quota, a queue, and work that is handed out.
#![tactic(auto)]

mod counter;
mod handing;
mod lines;
mod pairs;
mod quota;
mod ranges;

pub use counter::count_at_once;
pub use handing::hand_over;
pub use lines::lengths;
pub use quota::{Lent, lend_at_once};
pub use ranges::two_ranges;
