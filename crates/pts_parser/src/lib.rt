//! Terms are read from texts.
//! A text is read as the term that it says, or refused at the first fault that the rules name, with its place.
//! Stands on tokens, the grammar, systems and terms.
#![tactic(auto)]

mod binders;
mod fault;
mod part;
mod read;
mod resolution;
mod scope;

pub use fault::ReadFault;
pub use pts_grammar::{Kind, Tree};
pub use read::{read_term, read_tree};
pub use resolution::resolve;
pub use scope::Scope;
