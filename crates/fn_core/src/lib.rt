//! The machine of aggregating funnels: its states, its events, and what holds after every legal log.
#![tactic(auto)]

ghost use Rattle.fn_core.specs.Laws.{RepliesAreRight, DirectRepliesAreRight, RepliesAreBounded, MainIsValue, CallsStandOnce, HistoriesGrow, PlacesAreBeyond, WordsAreSmall, AdditionsAddAll, BatchesFollow, BasesAreRight, HeldBasesAreRight};
ghost use Rattle.fn_core.specs.Laws.{RowsAreLawful, RowsHaveNames, FreeRowsStay, FreeRowsAreFound, CallsKeepRows, ChosenRowsStay, LastCallsAreOwn, OwnCallsAreInOrder, OwnCallsGrowByOne, OwnCallsStay};
ghost use Rattle.fn_core.specs.Laws.{EventsAreLocal, GuardsStay, NextIsOwn, EventsAreSteps, PositionsFit, CallsAlwaysGoOn, StepsRunOut, CallsAreShort, OthersCostNothing};
ghost use Rattle.fn_core.specs.Trees.{TreesStand, OneStepAnEvent};
ghost use Rattle.fn_core.specs.Offsets.{TotalsAreSums, PassesStandAtOffsets, OffsetsAreApart};
ghost use Rattle.fn_core.specs.GoneUp.{PublishedHaveGoneUp};
ghost use Rattle.fn_core.specs.Needs.{ScansAreEnough, UnneededRowsStay};
ghost use Rattle.fn_core.specs.Entries.{EntriesStay, NoCallEntersTwice, DirectCallsAreAlone, FunnelledCallsAreBatched};
ghost use Rattle.fn_core.specs.Orders.{LogsArePartedAndJoined, RunsGoOn, HistoriesGoOn, CallsAreOfPasses, RestingPassesHaveNoCall, StepsLeave, OwnCallsLeave, BeginningsLeave, FaultlessStartsAreStarts};
ghost use Rattle.fn_core.specs.Polls.{StepsFollow, PollsAreShort};
ghost use Rattle.fn_core.specs.After.{StepsTell, WordsAreFound};

mod aggregator_steps;
mod allowed_steps;
mod answer;
mod begin;
mod event_log;
mod funnel;
mod machine;
mod main_steps;
mod next_step;
mod opening;
mod row_numbers;

pub use answer::{Answer, Blocked, CoreBegun, CoreStep, NoMemory, OpenFault, Why};
pub use fn_layout::{Field, Kind, Shape};
pub use funnel::Core;
use std::marker::Model;

/// What a funnel opens with: its shape, the main word, the number at which additions stop, and what each pass may add and subtract in all.
#[derive(Drop)]
pub struct Start {
    pub shape: Shape,
    pub opening: u64,
    pub cap: u64,
    pub allowances: Allowances,
}

/// One allowance for each pass.
#[derive(Drop)]
pub struct Allowances {
    pub items: Vec<u64>,
}

impl Model for Allowances {
    ghost use Rattle.std.specs.Prelude.{ℕ, List};
    ghost use Rattle.std.specs.Coded.{codes};

    ghost Value = { List ℕ };

    ghost view = { λ allowances. allowances.items.items };
}

/// Where a pass stands between its steps.
#[derive(Clone, Copy, Debug, PartialEq, Eq)]
pub enum Position {
    /// It makes no call.
    Resting,
    /// A direct call has loaded this word.
    Trying { word: u64 },
    /// Its call has climbed to this level.
    Climbing { kind: Kind, level: u32 },
    /// Its batch at the top has loaded this word.
    Deciding { kind: Kind, level: u32, word: u64 },
}

/// What the main word is loaded for.
#[derive(Clone, Copy, Drop)]
pub enum Purpose {
    Try,
    Read,
}

/// What a pass does next.
#[derive(Clone, Copy, Drop)]
pub enum Move {
    Scan { kind: Kind, level: u32, other: u32 },
    See { kind: Kind, level: u32 },
    Announce { kind: Kind, level: u32 },
    Arrive { kind: Kind, level: u32, weight: u64 },
    Look { kind: Kind, level: u32 },
    Close { kind: Kind, level: u32 },
    Apply { weight: u64 },
    Head { kind: Kind, level: u32 },
    Fill { row: u32, field: Field },
    Point { kind: Kind, level: u32, row: u32 },
    Publish { kind: Kind, level: u32 },
    Peek { row: u32, field: Field },
    Leave { kind: Kind, level: u32 },
    Load { purpose: Purpose },
    Exchange { kind: Kind, amount: u64 },
    Direct { amount: u64 },
    Glance,
}

/// A step of one pass.
#[derive(Clone, Copy, Drop)]
pub struct Event {
    pub pass: u32,
    pub step: Move,
}

/// A call that has got its reply at its leaf stands in the history once, and the reply is the integer that it meets there.
pub fn replies_are_right()
    ensures climbing { RepliesAreRight }
    ensures direct { DirectRepliesAreRight }
    ensures bounded { RepliesAreBounded }
{}

/// The main word is the value of the history, in which each call stands at most once, and which only grows at its end.
pub fn main_is_value()
    ensures value { MainIsValue }
    ensures once { CallsStandOnce }
    ensures grows { HistoriesGrow }
    ensures beyond { PlacesAreBeyond }
{}

/// No word passes its limit, so an addition adds its whole amount.
pub fn words_are_small()
    ensures words { WordsAreSmall }
    ensures additions { AdditionsAddAll }
{}

/// The batches of each aggregator go up one behind the other, and are the published ones and at most one more. The first call of each meets its base, from the step that gives the base to its delegate.
pub fn batches_follow()
    ensures batches { BatchesFollow }
    ensures bases { BasesAreRight }
    ensures held { HeldBasesAreRight }
    ensures published { PublishedHaveGoneUp }
{}

/// The word of each aggregator is the sum of what has arrived there. Who has arrived and has no reply yet stands among the arrivals at its offset, which no other arrival has.
pub fn arrivals_have_offsets()
    ensures totals { TotalsAreSums }
    ensures offsets { PassesStandAtOffsets }
    ensures apart { OffsetsAreApart }
{}

/// One step of the main word stands for a whole tree of batches: all calls under a batch that enters stand side by side in the history, and each meets what the word found and the offsets on the way down give.
pub fn one_step_for_a_tree()
    ensures trees { TreesStand }
    ensures one { OneStepAnEvent }
{}

/// A call that a pass makes by itself enters the main word by itself, and one that waits at its leaf enters in a batch. That stays so, and no call enters in both ways.
pub fn entries_stay()
    ensures stay { EntriesStay }
    ensures once { NoCallEntersTwice }
    ensures alone { DirectCallsAreAlone }
    ensures batched { FunnelledCallsAreBatched }
{}

/// Each aggregator keeps the row law, and a call keeps a free row at each level at which it may come to fill one, the first of which is the same from its beginning on. What a scan found of a row is enough until the row is published again.
pub fn rows_are_kept()
    ensures lawful { RowsAreLawful }
    ensures named { RowsHaveNames }
    ensures stay { FreeRowsStay }
    ensures found { FreeRowsAreFound }
    ensures kept { CallsKeepRows }
    ensures chosen { ChosenRowsStay }
    ensures enough { ScansAreEnough }
    ensures unneeded { UnneededRowsStay }
{}

/// The own calls of a pass stand in the history in the order in which it made them, and each call adds itself alone.
pub fn own_calls_are_in_order()
    ensures last { LastCallsAreOwn }
    ensures in_order { OwnCallsAreInOrder }
    ensures by_one { OwnCallsGrowByOne }
    ensures stay { OwnCallsStay }
{}

/// An event of one pass changes nothing of any other, and leaves each step that it may take and the one that it takes next.
pub fn events_are_local()
    ensures local { EventsAreLocal }
    ensures guards { GuardsStay }
    ensures next { NextIsOwn }
{}

/// Each step of a pass is on one of the funnel's words, and what it finds there tells the pass where it stands then.
pub fn steps_tell()
    ensures steps { StepsTell }
    ensures words { WordsAreFound }
    ensures aggregators { EventsAreSteps }
{}

/// A call that has arrived can always take its next step, and ends after so many, but for looks below its offset and exchanges that lose.
pub fn calls_go_on()
    ensures fits { PositionsFit }
    ensures next { CallsAlwaysGoOn }
    ensures run_out { StepsRunOut }
    ensures short { CallsAreShort }
    ensures others { OthersCostNothing }
    ensures follow { StepsFollow }
    ensures polls { PollsAreShort }
{}

/// A legal log is legal in its parts, and goes on from the state that its first part leaves, as its history does from that part's; each call in its history is of a pass of the funnel, which has none underway while it rests.
pub fn logs_go_on()
    ensures parts { LogsArePartedAndJoined }
    ensures runs { RunsGoOn }
    ensures histories { HistoriesGoOn }
    ensures passes { CallsAreOfPasses }
    ensures resting { RestingPassesHaveNoCall }
{}

/// What each order to a pass leaves of the log, of the pass's calls and allowance and of the other passes: a step of its call, a call by itself, and a beginning. Each is legal where its premises hold; a funnel may open with the numbers that have no fault.
pub fn orders_leave()
    ensures steps { StepsLeave }
    ensures own { OwnCallsLeave }
    ensures beginnings { BeginningsLeave }
    ensures starts { FaultlessStartsAreStarts }
{}
