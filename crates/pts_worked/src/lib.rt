//! A worked record over a small front, which the tests of growth and of inference begin with, and what its nodes are to the calls
//! that add others.
//! Stands on growth.
#![tactic(auto)]

mod fronts;
mod judgements;
mod worked;

pub use fronts::{assume, assume_type};
pub use judgements::{begun, number};
pub use worked::{
    compared, front, is_assumption, is_bare, is_begun, is_definition, is_longer, is_sort, is_typed,
    judged, terms,
};
