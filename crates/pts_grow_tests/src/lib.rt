//! The tests of records that grow: each kind of line and of node is added, and the whole is judged by the checker.
//! They have a crate of their own because the check of a crate with tests in it proves that crate once more.
//! No crate stands on it.
#![tactic(auto)]

#[cfg(test)]
mod binders;
#[cfg(test)]
mod comparisons;
#[cfg(test)]
mod growths;
#[cfg(test)]
mod judgements;
