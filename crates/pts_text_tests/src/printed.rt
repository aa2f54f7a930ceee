use pts_ctx::System;
use pts_printed::{
    chosen_names_capture_nothing, locals_are_told_apart, names_are_names, names_of_terms_are_names,
    numbers_are_least, printed_goals_are_read_back, printed_terms_are_read_back,
    sorts_of_systems_have_spellings, sorts_of_systems_stand_once,
};
use pts_terms::Term;

/// A law is a function that does nothing.
#[test]
fn the_laws_can_be_called() {
    printed_terms_are_read_back();
    printed_goals_are_read_back();
    chosen_names_capture_nothing();
    numbers_are_least();
    locals_are_told_apart();
    sorts_of_systems_stand_once();
}

/// What is sure of every value is asked for without a condition.
#[test]
fn what_is_sure_of_values_can_be_asked_for(rt: HostRuntime) {
    names_of_terms_are_names(&Term::Var(0));
    names_are_names(&[]);
    let alloc = rt.alloc();
    if let Ok(system) = System::new(alloc, Vec::new(alloc), Vec::new(alloc), Vec::new(alloc)) {
        sorts_of_systems_have_spellings(&system);
    }
}
