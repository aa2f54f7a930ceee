//! Tests of what reads and prints texts, and of what bytes come from and go to.
//! They show that each call answers, and in a worked case what.
//! No crate stands on it.
#![tactic(auto)]

#[cfg(test)]
mod bytes;
#[cfg(test)]
mod certificates;
#[cfg(test)]
mod formats;
#[cfg(test)]
mod grammar;
#[cfg(test)]
mod libraries;
#[cfg(test)]
mod lines;
#[cfg(test)]
mod module_files;
#[cfg(test)]
mod module_lines;
#[cfg(test)]
mod names;
#[cfg(test)]
mod parser;
#[cfg(test)]
mod pieces;
#[cfg(test)]
mod printed;
#[cfg(test)]
mod printer;
#[cfg(test)]
mod spec_files;
#[cfg(test)]
mod terms;
#[cfg(test)]
mod tokens;
