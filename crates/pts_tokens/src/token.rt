use pts_names::{Name, SortName, Text};

/// A token of a text.
#[derive(Debug, Drop)]
pub enum Token {
    /// `\`
    Lambda,
    /// `@`
    At,
    /// The keyword `let`.
    Let,
    /// The keyword `in`.
    In,
    /// `:`
    Colon,
    /// `:=`
    Assign,
    /// `.`
    Dot,
    /// `->`
    Arrow,
    /// `(`
    Open,
    /// `)`
    Close,
    /// `;`
    Semicolon,
    /// The spelling of a sort: `*`, `#`, or `'` and one identifier.
    Sort(SortName),
    /// A name: one or more identifiers with a dot directly between each and the next.
    Name(Name),
    /// A number, as its decimal digits. It may have any length.
    Number(Text),
}
