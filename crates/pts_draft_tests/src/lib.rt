//! Tests of drafts and of what they offer to a core.
//! They show that each call answers, and in a worked case what.
//! No crate stands on it.
#![tactic(auto)]

#[cfg(test)]
mod adding;
#[cfg(test)]
mod drafts;
#[cfg(test)]
mod laws;
#[cfg(test)]
mod makers;
#[cfg(test)]
mod moving;
#[cfg(test)]
mod offering;
#[cfg(test)]
mod stating;
#[cfg(test)]
mod words;
