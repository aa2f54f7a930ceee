/// A command whose line is its word alone.
#[derive(Clone, Copy, Debug, PartialEq, Eq)]
pub(crate) enum Alone {
    Look,
    Commit,
    Goals,
    Qed,
    Abort,
    Undo,
    Discard,
    Draft,
}

/// A command after which a plain name comes.
#[derive(Clone, Copy, Debug, PartialEq, Eq)]
pub(crate) enum Named {
    Load,
    Accept,
    Intro,
}

/// A command after which any name comes.
#[derive(Clone, Copy, Debug, PartialEq, Eq)]
pub(crate) enum Placed {
    Unfold,
    Show,
}

/// A command after which a term comes.
#[derive(Clone, Copy, Debug, PartialEq, Eq)]
pub(crate) enum Asked {
    Exact,
    Apply,
    Convert,
    Infer,
    Reduce,
}

/// A command after which a plain name comes with its type.
#[derive(Clone, Copy, Debug, PartialEq, Eq)]
pub(crate) enum WithType {
    Assume,
    Theorem,
    Cut,
}

/// A command, by what comes after its word.
#[derive(Clone, Copy, Debug, PartialEq, Eq)]
pub(crate) enum Command {
    OfNothing(Alone),
    OfPlain(Named),
    OfName(Placed),
    OfTerm(Asked),
    OfType(WithType),
    /// Two plain names.
    Rename,
    /// A number.
    Budget,
    /// Two terms.
    Equal,
    /// A plain name, perhaps its type, and a term.
    Define,
    /// Two plain names and any number of terms.
    Instance,
}

/// What a line of a module file declares.
#[derive(Clone, Copy, Debug, PartialEq, Eq)]
pub enum Declaring {
    Parameter,
    Assume,
    Define,
}
