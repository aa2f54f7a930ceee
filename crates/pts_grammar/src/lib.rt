//! The grammar of terms, and a parser that is equal to it.
//! A list of tokens is the text of at most one tree, and the parser finds it, or the first token that does not fit.
//! Stands on tokens and names.
#![tactic(auto)]

mod fault;
mod frame;
mod kind;
mod laws;
mod parser;
mod part;
mod stack;
mod state;
mod tree;
mod whole;

pub use fault::SyntaxFault;
pub use kind::Kind;
pub use laws::{refusals_are_determined, texts_are_unambiguous};
pub use parser::{Parsed, parse};
pub use tree::Tree;
pub use whole::parse_term;
