// Inference at its cost: what the type of a term is, or what is wrong with the term and where, and in how many units
// that is found.
// Stands on the costs of reduction and of the conversion test.
#![tactic(auto)]

mod laws;

pub use laws::{
    fits_are_exact, fits_are_sound, fits_have_one_outcome, flaws_are_scoped,
    flaws_of_fits_are_scoped, flaws_of_sort_tests_are_scoped, flaws_of_sorts_are_scoped,
    inference_has_one_outcome, inference_is_exact, inference_is_sound, sort_tests_are_exact,
    sort_tests_are_sound, sort_tests_have_one_outcome, sorts_are_exact, sorts_are_sound,
    sorts_have_one_outcome,
};
