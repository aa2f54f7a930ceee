//! The tests of proof commands: each answers, and in a worked case what, at what cost.
//! They have a crate of their own because the check of a crate with tests in it proves that crate once more.
//! No crate stands on it.
#![tactic(auto)]

#[cfg(test)]
mod answers;
#[cfg(test)]
mod applying;
#[cfg(test)]
mod beginning;
#[cfg(test)]
mod commands;
#[cfg(test)]
mod laws;
#[cfg(test)]
mod long;
#[cfg(test)]
mod proving;
#[cfg(test)]
mod scene;
