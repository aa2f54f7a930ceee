//! Tests of the core and of ports to it.
//! They show that each call answers, and in a worked case what.
//! No crate stands on it.
#![tactic(auto)]

#[cfg(test)]
mod events;
#[cfg(test)]
mod full;
#[cfg(test)]
mod histories;
#[cfg(test)]
mod laws;
#[cfg(test)]
mod makers;
#[cfg(test)]
mod names;
#[cfg(test)]
mod ports;
#[cfg(test)]
mod replies;
