// Systems of sorts, axioms and rules, and contexts of assumptions and definitions.
// A system that was made is exactly the written one, and the first fault of another is named; a context is a list.
// It stands on the terms and names below it, and finds labels by `indexmap`.
#![tactic(auto)]

mod chunk;
mod chunks;
mod context;
mod entry;
mod firsts;
mod index;
mod part;
mod places;
mod slot;
mod system;

pub use context::{Context, ROOM};
pub use entry::Entry;
pub use pts_names::{NameFault, SortName, SortNameFault};
pub use pts_terms::{Boxed, Name, Sort, Term};
pub use system::{System, SystemFault, SystemPart};
