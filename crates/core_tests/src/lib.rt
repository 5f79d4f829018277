//! Tests of the integer and of the machine.
#![tactic(auto)]

#[cfg(test)]
mod integer_tests;
#[cfg(test)]
mod machine_tests;
