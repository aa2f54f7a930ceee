//! Images of records: a constant gets another name, constants are replaced by judged terms, a record is grafted on another.
//! What is valid stays valid over the fronts that the laws name, and concludes the image of what it concluded.
//! Stands on the rules and on records.
#![tactic(auto)]

mod append;
mod closed;
mod declaration;
mod grafting;
mod laws;
mod lines;
mod rename;
mod replacement;
mod substitution;

pub use append::append_image;
pub use closed::{is_closed_judgement, is_last_closed};
pub use declaration::{rename_declaration, rename_term};
pub use grafting::graft;
pub use laws::{
    arguments_are_interpreted, assumptions_are_interpreted, bases_are_interpreted,
    bases_are_renamed, entries_are_fixed, entries_are_interpreted, fronts_are_renamed,
    grafts_are_valid, grafts_say_the_same, images_are_valid, images_conclude, instances_follow,
    judgements_are_fixed, renamed_follow, renamed_records_are_valid, renamed_records_conclude,
    substituted_records_are_valid, substituted_records_conclude,
};
pub use pts_record::{Name, Names, Record};
pub use pts_terms::Big;
pub use rename::{OneName, rename_const};
pub use replacement::{Replacement, Replacements};
pub use substitution::subst_const;
