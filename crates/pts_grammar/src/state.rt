use crate::frame::{Binder, Frame};
use crate::kind::Kind;
use crate::part::Subtree;
use pts_names::Name;

/// Where the reading is, beside the constructs that are open.
#[derive(Debug, Drop)]
pub(crate) enum State {
    /// Before a term.
    Begin,
    /// Before the name that a binder binds, and after it.
    Binder(Binder),
    BinderSign(Binder, Name),
    /// The same for a local definition.
    LetName,
    LetSign(Name),
    /// After an application that may go on.
    After(Subtree),
}

/// What a token does.
#[derive(Debug, Drop)]
pub(crate) enum Move {
    /// The reading goes on.
    Go(State),
    /// The token comes after this whole term, and nothing is open.
    Stay(Subtree),
    /// Another kind of token must be here.
    Fail(Kind),
    /// One parenthesis is open too many.
    Deep,
}

/// A whole part: in a term that ends with it, or in a construct that needs a token after it.
#[derive(Debug, Drop)]
pub(crate) enum Around {
    Wider(Subtree),
    Bracket(Frame, Subtree),
}
