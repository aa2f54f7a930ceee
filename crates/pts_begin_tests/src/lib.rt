//! Tests of the beginning of theorems.
//! They show what an open proof begins with, and that a statement without a sort is refused.
//! No crate stands on it.
#![tactic(auto)]

#[cfg(test)]
mod beginning;
