// Records of derivations: a table of terms and a table of nodes, linked by number.
// A link leads to an earlier line, a node's terms stand, and every term is within limits.
// Stands on systems and contexts.
#![tactic(auto)]

mod compare;
mod declaration;
mod entry;
mod hints;
mod links;
mod measure;
mod packed;
mod record;
mod renaming;
mod shape;
mod tree;

pub use declaration::Declaration;
pub use entry::{LocalEntry, Terms};
pub use measure::Measure;
pub use pts_ctx::{Boxed, Name, Sort, Term};
pub use record::Record;
pub use renaming::Names;
pub use shape::{Extent, Form, FormKind, Node, RecordFault, Shape};
