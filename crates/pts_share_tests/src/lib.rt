//! Tests of the lock and of shared cores, and threads that look beside one another.
//! They show what threads may do with both, that each call answers, and in worked cases what.
//! Only measurements stand on it.
#![tactic(auto)]

#[cfg(test)]
mod answered;
#[cfg(test)]
mod asking;
mod beside;
#[cfg(test)]
mod counts;
#[cfg(test)]
mod crossing;
#[cfg(test)]
mod full;
mod offers;
#[cfg(test)]
mod pairs;
#[cfg(test)]
mod turns;

pub use beside::looked;
pub use offers::{assumption, examined_over};
