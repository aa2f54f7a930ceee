use crate::part::Subtree;
use pts_names::Name;

/// What binds a name that has a type only.
#[derive(Clone, Copy, Debug, PartialEq, Eq)]
pub(crate) enum Binder {
    Lam,
    Pi,
}

/// A construct that is open, with what was read of it.
#[derive(Debug, Drop)]
pub(crate) enum Frame {
    /// A parenthesis, perhaps with the function before it.
    Parens(Option<Subtree>),
    /// What a binder binds, at its type and at its body.
    Type(Binder, Name),
    Body(Binder, Name, Subtree),
    /// A local definition, at the definition, at its type and at its body.
    LetValue(Name),
    LetType(Name, Subtree),
    LetBody(Name, Subtree, Subtree),
    /// A product after its arrow.
    Arrow(Subtree),
}
