//! The funnel's table: threads take the machine's events on shared words, each step exactly one event.
#![tactic(auto)]

mod book;
mod climbing;
mod closing;
mod dealing;
mod main_word;
mod meeting;
mod opening;
mod pass;
mod rule;
mod seated;
mod spots;
mod steps;
mod table;
mod tally;

ghost use Rattle.running.specs.Machine.{Laws};
ghost use Rattle.fn_table.specs.Seen.{GlancesLeaveStates, GlancesLeaveIdle, GlancesAreLegal};
ghost use Rattle.fn_table.specs.Later.{StepsAreLater, LaterPassesGoOn, LaterPassesStayAtTheirTable};
ghost use Rattle.fn_table.specs.Funnel.{funnel, LogsAreLegal, GuardsAreOwn, AdditionsFit, StepsAreTold};

pub use book::Book;
pub use climbing::{
    announce, arrive, close_batch, fill, head, leave, look, peek, point, publish, scan, see,
};
pub use fn_core::OpenFault;
pub use fn_layout::{Field, Kind, Shape};
pub use main_word::{apply_batch, direct, exchange, load_read, load_try};
pub use meeting::{meet, note};
pub use pass::{Note, Pass};
pub use spots::Spot;
pub use table::FunnelTable;

/// The funnel is a machine of the running rule: after every legal log each event changes its one word alone, and leaves what the other passes' guards read.
pub fn funnel_is_a_machine()
    ensures laws { Laws funnel }
    ensures logs_are_legal { LogsAreLegal }
    ensures guards_are_own { GuardsAreOwn }
    ensures additions_fit { AdditionsFit }
    ensures steps_are_told { StepsAreTold }
{}

/// A table opens with glances of its first pass alone, which change nothing: its passes rest, and nothing has entered the main word.
pub fn glances_change_nothing()
    ensures states { GlancesLeaveStates }
    ensures idle { GlancesLeaveIdle }
    ensures legal { GlancesAreLegal }
{}

/// What a pass has seen only grows: after a step of its own it has seen more; and again after more of them; and it stays a pass of its table.
pub fn later_passes()
    ensures steps { StepsAreLater }
    ensures go_on { LaterPassesGoOn }
    ensures table { LaterPassesStayAtTheirTable }
{}
