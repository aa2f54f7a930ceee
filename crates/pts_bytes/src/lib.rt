//! Bytes as the readers of texts see them: pieces between bytes, lines, characters, and numbers in decimal digits.
//! Each call answers what its definition says, and takes no memory.
//! Stands on names, for the comparison of texts.
#![tactic(auto)]

mod digits;
mod pieces;
mod text;

pub use digits::{is_digits, number_up_to};
pub use pieces::{split_at, whole_line, without_return};
pub use text::{is_text, text_of};
