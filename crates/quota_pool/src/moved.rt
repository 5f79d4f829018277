//! What a call of a desk moved.
use fn_funnel::Way;

/// The integer before a call, how much of its amount the call moved, and the way that it went, where it may go through the funnel.
#[derive(Clone, Copy, Debug, PartialEq, Eq)]
pub struct Moved {
    pub before: u64,
    pub moved: u64,
    pub way: Option<Way>,
}
