//! Workers that run beside each other, each once, and gates, at which a test may hold them.
//! Each worker is afterwards what its own run promises, whatever threads there are.
//! Stands on nothing of the others.
#![tactic(auto)]

mod gate;
mod round;

pub use gate::{FreeGate, Gate, Point};
pub use round::{Worker, run_round};
