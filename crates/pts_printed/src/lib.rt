// The text of terms and goals: the names that their binders and locals are printed with, and what is written.
// What is printed is read back as an equal term.
// Stands on the reader of terms.
#![tactic(auto)]

mod laws;
mod names;
mod spellings;

pub use laws::{
    chosen_names_capture_nothing, locals_are_told_apart, numbers_are_least,
    printed_goals_are_read_back, printed_terms_are_read_back, sorts_of_systems_stand_once,
};
pub use names::{names_are_names, names_of_terms_are_names};
pub use spellings::sorts_of_systems_have_spellings;
