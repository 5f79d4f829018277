//! A tenant's line of a picture: its values in the order of its rows as a row of bars.
#![tactic(auto)]

mod bars;
mod lines;

pub use bars::MOST_BARS;
pub use lines::line_text;
