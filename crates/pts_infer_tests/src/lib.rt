//! The tests of reduction and inference at their cost, of their flaws and of the text of these, and of the laws of
//! the rules.
//! The proofs say what each call answers for every input; these calls show that it answers, and in a worked case what.
//! They have a crate of their own because the check of a crate with tests in it proves that crate once more.
//! No crate stands on it.
#![tactic(auto)]

#[cfg(test)]
mod fits;
#[cfg(test)]
mod flaws;
#[cfg(test)]
mod inference;
#[cfg(test)]
mod laws;
#[cfg(test)]
mod outcome;
#[cfg(test)]
mod reductions;
