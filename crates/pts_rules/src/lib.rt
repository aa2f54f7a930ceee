// The rules: steps and convertibility, derivability and legality, the table of forms, valid records, and meters.
// Its laws say that what a valid record over a legal front says is derivable.
// Stands on records, contexts and terms.
#![tactic(auto)]

mod laws;
mod meter;
mod why;

pub use laws::{
    conclusions_are_legal, head_steps_are_steps, judgements_are_scoped, judgements_are_thinned,
    longer_fronts_have_entries, prefixes_are_legal, thin, valid_records_are_sound,
    valid_records_are_thinned,
};
pub use meter::Meter;
pub use pts_ctx::{Context, System};
pub use pts_record::{Boxed, Form, Measure, Name, Node, Record, Shape, Sort, Term};
pub use why::Why;
