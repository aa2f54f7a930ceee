//! Names and the spellings of sorts, and a list and a text that contracts see as what they hold.
//! Each value of these types is well formed, and each call's contract gives its answer byte for byte.
//! Stands on `unicode_ident` for the characters of identifiers.
#![tactic(auto)]

mod fault;
mod identifier;
mod laws;
mod list;
mod name;
mod sort_name;
mod text;

pub use fault::{NameFault, SortNameFault};
pub use identifier::{continues_identifier, is_identifier, is_keyword, starts_identifier};
pub use laws::names_are_dotted_identifiers;
pub use list::List;
pub use name::Name;
pub use sort_name::SortName;
pub use text::Text;
