//! Lines of terms, read and printed again.
//! Each line of a source is answered by its term or by the refusal of it, in order, until the source ends or something fails.
//! Stands on the reader and the printer of terms, and on the outside.
#![tactic(auto)]

mod laws;
mod lines;
mod scope;
mod text;
mod words;

pub use laws::{lines_have_one_answer, printed_lines_are_read_back, texts_have_one_answer};
pub use lines::format_lines;
pub use pts_io::Ended;
