//! Theorems that are being proved: what is open and the term that is made, without the numbers of any record.
//! An open proof is seen as its theorem, and its commands do to the theorem what their definition says.
//! Stands on open proofs and on the definition of the commands at their cost.
#![tactic(auto)]

mod laws;

pub use laws::{goals_are_open, lines_change_nothing, steps_make_the_term, steps_refine};
