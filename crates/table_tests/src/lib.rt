//! Tests of a funnel's table: its opening and closing, and the steps of its passes.
#![tactic(auto)]

#[cfg(test)]
mod more_levels;
#[cfg(test)]
mod one_level;
