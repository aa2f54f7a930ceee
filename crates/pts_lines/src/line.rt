use pts_grammar::Tree;
use pts_names::Name;

/// A line of a session: a command, and what it is to work on. The names and trees stand in the order of the text, but
/// for `Define`, whose tree in the option is the type and stands before the body.
#[derive(Debug, Drop)]
pub enum Line {
    Look,
    Commit,
    Load(Name),
    /// A module, a label, and the arguments.
    Instance(Name, Name, Vec<Tree>),
    Accept(Name),
    Assume(Name, Tree),
    /// A name, the type if it is written, and the body.
    Define(Name, Option<Tree>, Tree),
    Theorem(Name, Tree),
    Intro(Name),
    Exact(Tree),
    Apply(Tree),
    Cut(Name, Tree),
    /// The byte place of the name, and the name.
    Unfold(usize, Name),
    Convert(Tree),
    Goals,
    Qed,
    Abort,
    Undo,
    /// At most 10,000,000.
    Budget(u64),
    Infer(Tree),
    Reduce(Tree),
    Equal(Tree, Tree),
    /// The old name and the new one.
    Rename(Name, Name),
    Discard,
    /// The byte place of the name, and the name.
    Show(usize, Name),
    Draft,
}
