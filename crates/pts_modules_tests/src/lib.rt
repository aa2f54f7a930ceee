//! The tests of shelves and of the order of modules.
//! They have a crate of their own because the check of a crate with tests in it proves that crate once more.
//! No crate stands on it.
#![tactic(auto)]

#[cfg(test)]
mod orders;
#[cfg(test)]
mod shelves;
