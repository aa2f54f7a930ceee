//! ModuleFile files.
//! The bytes of a file are read as its lines, or refused at the first line that breaks the format.
//! Stands on the lines of declarations.
#![tactic(auto)]

mod fault;
mod file;
mod item;
mod split;
mod stage;

pub use fault::{FileFault, FileWhy};
pub use file::{ModuleFile, ModuleLine, read_module};
