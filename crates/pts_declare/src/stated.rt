// What is stated of a name.

use pts_terms::Term;

/// What is stated of a name, in terms.
#[derive(Debug, Drop)]
pub enum Stated {
    /// An assumption with this type.
    Assumption(Term),
    /// A definition by this body, whose type is inferred.
    Definition(Term),
    /// A definition with this type, by this body.
    Typed(Term, Term),
}
