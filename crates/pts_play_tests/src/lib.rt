//! Tests of rounds and of plays.
//! They show that each call answers, and in a worked case what.
//! No crate stands on it.
#![tactic(auto)]

#[cfg(test)]
mod replays;
#[cfg(test)]
mod rounds;
#[cfg(test)]
mod sessions;
