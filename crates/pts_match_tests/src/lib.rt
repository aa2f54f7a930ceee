//! Tests of matching.
//! They show that each call answers, and in a worked case what.
//! No crate stands on it.
#![tactic(auto)]

#[cfg(test)]
mod matches;
