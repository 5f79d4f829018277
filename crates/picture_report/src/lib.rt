//! Reports of traces read back: their answers and values, and what they tell of each tenant.
#![tactic(auto)]

mod headings;
mod marking;
mod naming;
mod reading;

pub use headings::{heading_of, headings_laws, headings_of};
pub use marking::{marks_by_tenant, marks_laws, marks_of};
pub use naming::tenant_named;
pub use picture_marks::{Heading, Mark};
pub use reading::{Report, ReportFault, read_report};
pub use replay_report::{Moved, NoMemory, Trace};
