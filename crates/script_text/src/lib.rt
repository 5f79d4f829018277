//! Scripts: what a text asks of the passes of a funnel, or its first fault.
#![tactic(auto)]

mod headers;
mod orders;
mod reading;
mod scripts;
mod totals;

pub use fn_layout::{Shape, ShapeFault};
pub use reading::{fault_laws, read_script};
pub use scripts::{Order, Script, ScriptFault, ScriptLine, ScriptLines};
pub use text_lines::NoMemory;
pub use totals::{allowance_laws, allowances};
