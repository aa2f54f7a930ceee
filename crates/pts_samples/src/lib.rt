//! What the tests share: a system, small records, and whether a value is printed so.
//! Its calls promise nothing.
//! Stands on records and contexts.
#![tactic(auto)]

mod records;
mod systems;
mod texts;

pub use records::{add, add_node, fill, node};
pub use systems::{add_axiom, one_axiom, simple, spelled, stars_and_boxes};
pub use texts::prints;
