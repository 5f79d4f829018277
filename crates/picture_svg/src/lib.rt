//! The picture of a tenant's rows, as an SVG that is well-formed XML.
#![tactic(auto)]

mod columns;
mod drawing;
mod frame;
mod heading;
mod shapes;

pub use drawing::svg_text;
pub use heading::STYLE;
pub use picture_marks::{Heading, Mark};
pub use text_lines::NoMemory;
