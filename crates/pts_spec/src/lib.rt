//! Specification files: TOML documents that write a system of sorts, axioms and rules.
//! A file is read as the system that it writes, or its first refusal is named, with the key or the places.
//! Stands on systems and names, and reads TOML by `toml`.
#![tactic(auto)]

mod fault;
mod keys;
mod list;
mod read;

pub use fault::SpecFault;
pub use pts_ctx::{System, SystemFault, SystemPart};
pub use pts_names::{List, Text};
pub use read::read_system;
