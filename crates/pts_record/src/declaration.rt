// Declarations with their evidence.

use crate::Record;
use pts_ctx::{Name, Term};

/// A name with its type, with a body where it is a definition, and with the record that is to conclude it.
#[derive(Drop)]
pub struct Declaration {
    pub name: Name,
    pub body: Option<Term>,
    pub ty: Term,
    pub proof: Record,
}
