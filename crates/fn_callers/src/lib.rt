//! Callers of a funnel: each has a pass and a share of the table, so that a call asks for nothing beforehand. Each call answers a reply, or the reason why there is none.
#![tactic(auto)]

mod caller;
mod climbing;
mod direct;
mod opening;

pub use caller::{Caller, Reason};
pub use opening::{OpenFault, open};
