//! Drafts: declarations over a front of the core that have not been offered yet.
//! Each has a valid record over the front and the declarations before it, so that a draft's offer is sound.
//! Stands on the core, for offers, and on what makes a declaration of terms.
#![tactic(auto)]

mod copies;
mod draft;
mod fault;
mod renaming;
mod scopes;

pub use draft::Draft;
pub use fault::{DraftFault, RenameFault};
pub use pts_declare::{InferFault, Part};
