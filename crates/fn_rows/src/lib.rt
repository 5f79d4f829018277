//! The rows of one aggregator, reused by announcements: what holds in every state that allowed steps reach.
#![tactic(auto)]

mod stages;
mod state;

ghost use Rattle.std.specs.Prelude.{ℕ, List, ◌++◌, ◌<◌};
ghost use Rattle.fn_rows.specs.Machine.{Step, start, AllAllowed, Lets};
ghost use Rattle.fn_rows.specs.Trace.{nothing, run};
ghost use Rattle.fn_rows.specs.Law.{IsLawful, Needs, NonePublishes};

pub use state::{NoMemory, RowState, lets};

/// Where a member stands in its call.
///
/// From `Waiting` to `Hit` the first number is the member's offset.
/// From `Shut` to `Pointed` the second is the end of the batch that it leads.
#[derive(Clone, Copy, Drop)]
pub enum Stage {
    /// In no call.
    Out,
    /// It has loaded `done`, which was this number.
    Saw(u64),
    /// It has announced that number.
    Told(u64),
    /// It has arrived, and no look has shown its batch's turn yet.
    Waiting(u64),
    /// It is the first of the next batch.
    Lead(u64),
    /// Its batch has been published by another.
    Late(u64),
    /// It has closed its batch.
    Shut(u64, u64),
    /// It has the base of its batch.
    Based(u64, u64, u64),
    /// It has loaded `last`, which was the fourth number.
    Headed(u64, u64, u64, u64),
    /// It has stored the offset in a row, the fifth number.
    FilledLo(u64, u64, u64, u64, u64),
    /// It has stored the base there.
    FilledBase(u64, u64, u64, u64, u64),
    /// It has stored what `last` was there: offset, end, base and row are left.
    Filled(u64, u64, u64, u64),
    /// `last` names that row.
    Pointed(u64, u64, u64, u64),
    /// A late member has this row in hand.
    At(u64, u64),
    /// The row's batch begins above the offset.
    Over(u64, u64),
    /// The row's batch is the member's, and begins at the third number.
    Hit(u64, u64, u64),
    /// It has the base of its batch, and stands so far behind the batch's first arrival.
    Got(u64, u64),
}

/// The words of a row: where its batch begins, the base of the batch, and the word that names the row of the batch before.
#[derive(Clone, Copy, Drop)]
pub enum Field {
    Lo,
    Base,
    Prev,
}

/// In every interleaving a needed row holds its batch and is reached from `last`, and no fill names it.
pub fn rows_are_kept()
    ensures { (members rows : ℕ) (steps : List Step) → AllAllowed members rows steps start → IsLawful members rows (run steps nothing) }
{}

/// A member that is found with an announcement that lets a row be filled doesn't need that row until it is published again.
pub fn scans_are_enough()
    ensures { (members rows q r : ℕ) (before later : List Step) → AllAllowed members rows (before ++ later) start → Lets ((run before nothing).announced q) ((run before nothing).end r) → NonePublishes r later (run before nothing).state → Needs (run (before ++ later) nothing).state q r → ⊥ }
{}
