//! The texts of flaws and of the faults of inferences, for declarations, proofs and sessions alike.
//! Each text is that of the definition, byte for byte; the terms of a flaw are printed over its names.
//! Stands on inference, whose faults they are, and on the printer.
#![tactic(auto)]

mod flaw;
mod inference;

pub use flaw::{flaw_text, place_text};
pub use inference::infer_text;
