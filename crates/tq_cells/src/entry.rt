//! What seats enter in the log of the cells. Logs exist in proofs alone.

/// What the cells open with.
#[derive(Clone, Copy)]
pub struct Start {
    pub capacity: u32,
    pub seats: u32,
}

/// An entry of the log: the turn of a ticket that a seat took or left, or the word that an exchange found in place of the one it expected.
#[derive(Drop)]
pub enum Entry<T> {
    /// The ticket may be put by this seat alone.
    Hold(u64),
    /// The item stands in the ticket's cell.
    Put(u64, T),
    /// The ticket's item may be taken by this seat alone.
    Take(u64),
    /// The ticket's cell is free for the ticket that comes next there.
    Free(u64),
    /// The word expected, and the word found.
    Miss(u64, u64),
}

/// An entry, and the number of the seat that made it.
#[derive(Drop)]
pub struct Event<T> {
    pub seat: u64,
    pub entry: Entry<T>,
}
