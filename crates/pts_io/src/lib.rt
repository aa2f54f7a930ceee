//! The outside as the program sees it: where bytes come from, and where they go.
//! Promises that a failure is answered only where a count of faults rose, and that bytes move unchanged where they are shown.
//! Stands on no other crate of this repository; `thiserror` derives its error types.
#![tactic(auto)]

mod ended;
mod faults;
mod folder;
mod libraries;
mod lines;
mod memory;
mod memory_library;
mod schedule;
mod sinks;
mod sources;
mod standard;
mod whole;

pub use ended::Ended;
pub use faults::{Fail, ReadFail, WholeFault};
pub use folder::FolderLibrary;
pub use libraries::{FILE_LIMIT, Found, Library};
pub use lines::{Input, LINE_LIMIT, LineReader};
pub use memory::{MemorySink, MemorySource};
pub use memory_library::MemoryLibrary;
pub use sinks::Sink;
pub use sources::Source;
pub use standard::{StdSink, StdSource};
pub use whole::{read_whole, write_whole};
