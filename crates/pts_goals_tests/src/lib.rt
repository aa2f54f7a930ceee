//! The tests of open proofs: each kind of step is put in and taken back, and what is finished is judged by the checker.
//! They have a crate of their own because the check of a crate with tests in it proves that crate once more.
//! No crate stands on it.
#![tactic(auto)]

#[cfg(test)]
mod copies;
#[cfg(test)]
mod filling;
#[cfg(test)]
mod finishing;
#[cfg(test)]
mod judgements;
#[cfg(test)]
mod laws;
#[cfg(test)]
mod lending;
#[cfg(test)]
mod makers;
#[cfg(test)]
mod moves;
#[cfg(test)]
mod steps;
#[cfg(test)]
mod undoing;
