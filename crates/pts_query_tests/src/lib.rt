//! Tests of the lines that ask about a scope, or under hypotheses, and change nothing.
//! They show that each call answers, and in a worked case what.
//! No crate stands on it.
#![tactic(auto)]

#[cfg(test)]
mod hypotheses;
#[cfg(test)]
mod laws;
#[cfg(test)]
mod queries;
#[cfg(test)]
mod scene;
#[cfg(test)]
mod texts;
