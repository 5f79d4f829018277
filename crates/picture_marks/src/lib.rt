//! A tenant's rows as marks of a picture: their columns, their bounds and their scale.
#![tactic(auto)]

mod marks;
mod measures;

pub use marks::{Heading, Mark, columns, columns_laws, run_length};
pub use measures::{bounds_laws, greatest, least, scale_laws, scaled, shares, shares_laws, top_of};
