//! Lines go through a ticket queue by workers, and come out by rising ticket.
#![tactic(auto)]

mod desks;
mod gathering;
mod lines;
mod patience;
mod relaying;
mod shares;
mod texts;
mod workers;

ghost use Rattle.relay_run.specs.Laws.{RelaysAreOrdered};

pub use gates::{Gate, OpenGate};
pub use lines::{Lines, LinesFault, MOST_LINES, split_lines};
pub use relaying::{Relayed, relay};
pub use texts::relay_text;
pub use tq_queue::{NoMemory, QueueBook};

/// What a relay's account claims: the order of the tickets has all lines, and keeps each worker's.
pub fn relay_laws()
    ensures { RelaysAreOrdered }
{}
