//! Batches: the file of a module is checked, and its declarations enter the empty front.
//! The lines, the entries and the units are those of the definition, and each declaration has a record that concludes it.
//! Stands on module files and on the declaring of statements.
#![tactic(auto)]

mod answer;
mod laws;
mod lines;
mod loading;
mod world;

pub use answer::batch;
pub use laws::modules_have_one_answer;
pub use pts_ctx::{Context, System};
pub use pts_names::{List, Name, Text};
pub use pts_record::Declaration;
pub use world::{Batch, World};
