//! What is stated of a name, in terms, is inferred over a front and becomes a declaration.
//! Each answer is the outcome of the definition at its cost, and a declaration comes with a valid record that concludes it.
//! Stands on inference and on the checker's definition of declarations that may enter.
#![tactic(auto)]

mod checking;
mod fault;
mod laws;
mod stated;

pub use checking::check;
pub use fault::DeclareFault;
pub use laws::declarations_have_one_outcome;
pub use pts_ctx::{Context, System};
pub use pts_infer::{InferFault, Part};
pub use pts_names::Name;
pub use pts_record::Declaration;
pub use pts_rules::Meter;
pub use pts_terms::Term;
pub use stated::Stated;
