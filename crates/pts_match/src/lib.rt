//! First-order matching of a pattern with a term of the same record, which builds nothing.
//! A match is found exactly where there is one, and it is the only one.
//! Stands on terms that are made inside a record.
#![tactic(auto)]

mod finding;
mod laws;
mod lowering;
mod matching;
mod subterm;

pub use finding::find_match;
pub use laws::{matches_are_complete, matches_are_sound, matches_are_unique};
pub use lowering::{is_clear, lower, take_out};
pub use subterm::Subterm;
