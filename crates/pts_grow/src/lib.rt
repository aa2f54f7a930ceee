//! Records that grow: terms made of a record's terms, and a node of each form from what its premises say.
//! What a record had it keeps, and a record that was valid is valid. No call says that a number is new.
//! Stands on the rules.
#![tactic(auto)]

mod build;
mod closing;
mod compared;
mod comparisons;
mod contexts;
mod conversions;
mod definitions;
mod fault;
mod judged;
mod leaves;
mod locals;
mod nodes;
mod products;
mod read;

pub use build::{add_line, apply, lift, put, take_in};
pub use closing::close;
pub use compared::Compared;
pub use comparisons::{add_bare, add_capp, add_clam, add_cpi, add_left, add_right, add_same};
pub use contexts::{add_assume, add_define, add_empty};
pub use conversions::{add_again, add_conv, add_thin};
pub use definitions::{add_let, add_letsort};
pub use fault::TermFault;
pub use judged::{Judged, RuleSorts};
pub use leaves::{add_const, add_sort, add_var};
pub use locals::entry_type;
pub use nodes::push;
pub use products::{add_app, add_lam, add_pi};
pub use read::judged_at;
