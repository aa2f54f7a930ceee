//! The beginning of a theorem: an open proof of its statement, in a record of its own.
//! A statement is tested as the type of an assumption is, and at the same cost.
//! Stands on inference and on open proofs.
#![tactic(auto)]

mod beginning;

pub use beginning::begin;
pub use pts_ctx::{Context, System};
pub use pts_goals::Proof;
pub use pts_infer::InferFault;
pub use pts_names::Name;
pub use pts_rules::Meter;
pub use pts_terms::Term;
