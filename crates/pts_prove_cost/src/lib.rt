//! Proof commands at their cost: what a command puts in the place of a goal, or why it refuses, and in how many units that is
//! found.
//! Each command has at most one outcome, at one cost.
//! Stands on matching and on the definition of inference at its cost.
#![tactic(auto)]

mod laws;

pub use laws::commands_have_one_outcome;
