//! The statements of a module file are read over a front, and become declarations.
//! Each answer is the outcome of the definition at its cost, and a declaration comes with a valid record that concludes it.
//! Stands on the reader of terms, and on what makes a declaration of terms.
#![tactic(auto)]

mod fault;
mod laws;
mod scope;
mod statements;
mod words;

pub use fault::StatementFault;
pub use laws::statements_have_one_outcome;
pub use pts_ctx::{Context, System};
pub use pts_declare::DeclareFault;
pub use pts_names::Name;
pub use pts_parser::{ReadFault, Tree};
pub use pts_record::Declaration;
pub use pts_rules::Meter;
pub use scope::FileScope;
pub use statements::{assume, define};
pub use words::fault_text;
