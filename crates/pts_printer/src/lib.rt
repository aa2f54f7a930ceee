//! Terms and goals are printed as texts.
//! The text is the one that the rules of printing say, with the names that they choose for binders and locals.
//! Stands on the definitions of printed text, on systems and on terms.
#![tactic(auto)]

mod ahead;
mod choice;
mod clash;
mod form;
mod goal;
mod locals;
mod marks;
mod occurrence;
mod outer;
mod page;
mod print;
mod taken;
mod writing;

pub use print::{print_goal, print_term};
