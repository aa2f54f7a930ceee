// Costs: what reduction and the conversion test come to, and in how many units. Its laws say that there is at most one
// outcome, and that work on a budget comes to that outcome exactly where the budget allows it.
// Stands on the rules.
#![tactic(auto)]

mod laws;

pub use laws::{
    forms_are_convertible, reduction_has_one_outcome, reduction_is_exact, tests_are_exact,
    tests_are_sound, tests_have_one_outcome,
};
