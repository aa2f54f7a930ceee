use pts_names::{Name, SortName};
use sqlite_items::Boxed;

/// What a text of a term says, before its names are looked up. A number is the byte place of the sort or the name that
/// follows. The parts of `Let` are the definition, its type and the body. `A -> B` is a `Pi` that binds `_`.
#[derive(Debug, Drop)]
pub enum Tree {
    Sort(usize, SortName),
    Named(usize, Name),
    App(Boxed<Tree>, Boxed<Tree>),
    Lam(Name, Boxed<Tree>, Boxed<Tree>),
    Pi(Name, Boxed<Tree>, Boxed<Tree>),
    Let(Name, Boxed<Tree>, Boxed<Tree>, Boxed<Tree>),
}
