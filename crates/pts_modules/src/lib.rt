//! The files of a library, and the order in which modules are loaded.
//! Each module comes after those that it uses, and there is one such order; otherwise the first fault is named.
//! Stands on module files.
#![tactic(auto)]

mod fault;
mod laws;
mod order;
mod shelf;
mod uses;

pub use fault::OrderFault;
pub use laws::modules_have_one_order;
pub use order::{order_modules, place_module};
pub use pts_module_file::FileWhy;
pub use pts_names::Name;
pub use shelf::Shelf;
