//! The tokens of texts of terms, with their places.
//! A text is cut into exactly the tokens that the definition names, or refused at its first fault.
//! Stands on names and the spellings of sorts.
#![tactic(auto)]

mod fault;
mod length;
mod sign;
mod token;
mod tokens;
mod word;

pub use fault::TokenFault;
pub use token::Token;
pub use tokens::read_tokens;
