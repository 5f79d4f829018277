//! Tests of the ticks, of pools and buckets of quota, and of runs over them.
#![tactic(auto)]

#[cfg(test)]
mod bucket_tests;
#[cfg(test)]
mod line_tests;
#[cfg(test)]
mod pool_tests;
#[cfg(test)]
mod replay_tests;
#[cfg(test)]
mod throttle_tests;
#[cfg(test)]
mod tick_tests;
