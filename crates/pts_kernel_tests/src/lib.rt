//! The tests of contexts, systems, records and the checker, by their public calls.
//! They have a crate of their own because the check of a crate with tests in it proves that crate once more.
//! No crate stands on it.
#![tactic(auto)]

#[cfg(test)]
mod checks;
#[cfg(test)]
mod contexts;
#[cfg(test)]
mod records;
#[cfg(test)]
mod systems;
