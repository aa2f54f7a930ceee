//! Rounds in which each session runs its lines in a thread of its own, over one core that they share.
//! What the threads do together is a round of one thread, in the order of the core's history.
//! Stands on shared cores, on workers, and on the definitions of rounds.
#![tactic(auto)]

mod client;
mod round;
mod worker;

pub use client::{Client, Desk};
pub use round::{Served, Staff, serve_round};
