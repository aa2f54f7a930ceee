//! The tests of images of records: a constant is renamed, constants are replaced, a record is grafted on another, and the
//! checker judges what came of it.
//! They have a crate of their own because the check of a crate with tests in it proves that crate once more.
//! No crate stands on it.
#![tactic(auto)]

#[cfg(test)]
mod grafting;
#[cfg(test)]
mod laws;
#[cfg(test)]
mod makers;
#[cfg(test)]
mod renaming;
#[cfg(test)]
mod substitution;
