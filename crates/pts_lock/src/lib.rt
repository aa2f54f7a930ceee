//! A lock around a value with a history: threads take the value in the order of the tickets that they drew.
//! Each turn goes on with the history that the turns before it left, and closing the lock gives the whole history.
//! Stands on the table of atomic words and slots of the toolchain.
#![tactic(auto)]

mod handing;
mod rule;
mod seat;
mod staged;
mod steps;
mod turnstile;

pub use seat::{LockSeat, TableSeat, View};
pub use staged::Staged;
pub use turnstile::Turnstile;
