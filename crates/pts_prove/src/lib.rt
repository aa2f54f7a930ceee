//! Proof commands: each refines the goal of an open proof that comes first.
//! Each gives exactly the next open proof of its definition, at its cost, or the refusal, after which goals and steps are as
//! before.
//! Stands on open proofs, on inference, and on the definition of the commands at their cost.
#![tactic(auto)]

mod arguments;
mod by_abstraction;
mod by_body;
mod by_function;
mod by_lemma;
mod by_statement;
mod by_term;
mod calls;
mod command;
mod copies;
mod fault;
mod functions;
mod judging;
mod opening;
mod refining;
mod replacing;
mod scope;
mod searching;
mod taking;
mod work;

pub use calls::{apply, convert_goal, cut, exact, intro, unfold};
pub use fault::ProveFault;
