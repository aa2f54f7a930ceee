//! Open proofs: a scratch record, the goals of a theorem, and the steps that fill them.
//! Each proof that is finished is a declaration with its evidence, found without a budget and without a new check.
//! Stands on the growth of records.
#![tactic(auto)]

mod closing;
mod copies;
mod fault;
mod finishing;
mod laws;
mod measures;
mod proof;
mod spines;
mod stack;
mod step;

pub use fault::{FillFault, FinishFault};
pub use laws::{fills_are_undone, steps_make_one_term};
pub use proof::Proof;
pub use pts_grow::{Compared, Judged};
pub use pts_names::List;
pub use pts_record::{Declaration, Name, Record};
pub use step::{Argument, FilledGoal, Goal, Link, Reduction, Step};
