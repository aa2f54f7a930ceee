//! The lines of a session that ask and change nothing: `infer`, `reduce`, `equal` and `show`, over a front and under
//! hypotheses; and the texts of replies that hold terms. Each reply is the one line of the definition, on a budget of units.
//! Stands on the reader and the printer of terms, on reduction and inference, and on the texts of flaws.
#![tactic(auto)]

mod comparison;
mod entries;
mod hypotheses;
mod inference;
mod laws;
mod reading;
mod reduction;
mod replies;
mod scope;

pub use comparison::equal;
pub use entries::show;
pub use hypotheses::Under;
pub use inference::infer;
pub use laws::{equal_has_one_answer, infer_has_one_answer, reduce_has_one_answer};
pub use pts_ctx::{Context, Entry, System};
pub use pts_names::{Name, Text};
pub use pts_parser::Tree;
pub use reduction::reduce;
pub use replies::{declared_line, shown_line};
pub use scope::FrontScope;
