//! The lines of a session, and the declarations of a module file.
//! A text is read as the line that it says, or refused at the first fault that the grammar names, with its place.
//! Stands on tokens, the grammar of terms and its parser.
#![tactic(auto)]

mod command;
mod declaration;
mod item;
mod laws;
mod line;
mod read;
mod shape;
mod term;
mod word;

pub use command::Declaring;
pub use declaration::{DeclaringLine, declaring_word, read_declaration};
pub use laws::{line_refusals_are_determined, lines_are_unambiguous};
pub use line::Line;
pub use pts_grammar::{Kind, Tree};
pub use pts_parser::ReadFault;
pub use read::read_line;
