// Terms of pure type systems with printed names, and the operations on them.
// Each operation is the definition over plain data, limits included; each comparison tells the operation's result.
// Stands on names.
#![tactic(auto)]

mod comparisons;
mod equality;
mod measure;
mod operations;
mod results;
mod term;

pub use operations::Big;
pub use pts_names::Name;
pub use sqlite_items::Boxed;
pub use term::{Sort, Term};
