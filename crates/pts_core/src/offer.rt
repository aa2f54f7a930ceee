// What is offered to the core.

use pts_ctx::{Context, Entry};
use pts_names::{List, Name};
use pts_record::Declaration;

/// Declarations over a front, with their evidence, and perhaps the label under which they are to enter.
#[derive(Drop)]
pub struct Offer {
    pub front: Context,
    pub declarations: List<Declaration>,
    pub label: Option<Name>,
}

/// A module that was checked over a front: its parameters as entries after that front, and its declarations after these.
#[derive(Drop)]
pub struct Template {
    pub name: Name,
    pub base: Context,
    pub parameters: List<Entry>,
    pub declarations: List<Declaration>,
}
