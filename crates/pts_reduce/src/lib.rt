// Reduction to weak head normal form and the conversion test, at their cost, over a record that grows by the nodes that
// compare the terms.
// Stands on the costs and on records that grow.
#![tactic(auto)]

mod answer;
mod calls;
mod chain;
mod differ;
mod fault;
mod locals;
mod pairs;
mod pay;
mod step;
mod testing;

pub use answer::{Conversion, Whnf};
pub use calls::{convert, whnf, whnf_turned};
pub use fault::ReduceFault;
pub use pts_rules::Meter;
