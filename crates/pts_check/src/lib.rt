// The checker: whether each node of a record is an instance of its form, and whether a record concludes a declaration.
// It answers the first fault exactly, takes no memory, and what it accepts is derivable.
// Stands on the rules.
#![tactic(auto)]

mod comparisons;
mod contexts;
mod definitions;
mod forms;
mod functions;
mod kinds;
mod leaves;
mod nodes;
mod steps;
mod verdict;

pub use pts_ctx::{Context, Entry, System};
pub use pts_record::{Declaration, Form, Name, Node, Record, Shape, Sort, Term};
pub use pts_rules::Why;
pub use verdict::{Verdict, check, concluded_limits, concludes, declaration_fault};
