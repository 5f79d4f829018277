//! Tests of the calls of a funnel: step by step, direct, and to their end.
#![tactic(auto)]

#[cfg(test)]
mod caller_tests;
#[cfg(test)]
mod climb_tests;
#[cfg(test)]
mod direct_tests;
#[cfg(test)]
mod funnel_tests;
#[cfg(test)]
mod level_tests;
#[cfg(test)]
mod shape_tests;
