//! Inference at its exact cost, over a record that grows by the judgements which it makes.
//! Each answer is a judgement in a valid record; each refusal names the flaw, its place and the binders on the way.
//! Stands on reduction, on the definition of inference at its cost, and on judgements that are added to records.
#![tactic(auto)]

mod answer;
mod calls;
mod fault;
mod judgements;
mod judging;
mod lent;
mod part;
mod parts;
mod pay;
mod rules;
mod show;
mod terms;
mod told;
mod type_tests;
mod work;

pub use answer::{FitFault, Flaw, FlawKind, InferFault, ProductParts, Typed};
pub use calls::{fit, infer, infer_product, infer_sorted, sort_test};
pub use part::Part;
pub use pts_reduce::{Conversion, Meter, ReduceFault, Whnf, convert, whnf};
pub use terms::{infer_fitted, infer_term, infer_type};
