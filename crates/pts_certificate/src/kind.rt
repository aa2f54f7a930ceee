/// The form of a term's line.
#[derive(Clone, Copy, Debug, PartialEq, Eq)]
pub(crate) enum RowKind {
    SortTerm,
    ConstTerm,
    VarTerm,
    AppTerm,
    LamTerm,
    PiTerm,
    LetTerm,
}
