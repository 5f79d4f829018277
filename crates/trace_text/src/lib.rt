//! Traces: what the records of a text ask of tenants, or their first fault, and the traces of drills.
#![tactic(auto)]

mod accounts;
mod drill;
mod fields;
mod records;
mod tenants;
mod traces;
mod tracing;

pub use drill::make_drill;
pub use text_lines::NoMemory;
pub use traces::{Cut, Name, Op, Row, Tenant, Trace, TraceFault};
pub use tracing::{read_trace, trace_fault_laws, trace_laws};
