//! Tests of calls as futures, of work that is spread, and of the uses of both, of quotas and of the queue.
#![tactic(auto)]

#[cfg(test)]
mod future_tests;
#[cfg(test)]
mod limiter_tests;
#[cfg(test)]
mod spread_tests;
#[cfg(test)]
mod use_tests;
