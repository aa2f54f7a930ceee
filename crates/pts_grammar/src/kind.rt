use std::fmt;
use std::fmt::{Display, Formatter};

/// What must be at a place. `Command`, `Plain`, `Semicolon` and `Number` belong to lines of commands alone.
#[derive(Clone, Copy, Debug, PartialEq, Eq)]
pub enum Kind {
    /// The word of a command.
    Command,
    /// A term, or an atom of one.
    Term,
    /// A name.
    Name,
    /// A name of one part other than `_`.
    Plain,
    /// `:`
    Colon,
    /// `.`
    Dot,
    /// `:=`
    Assign,
    /// `in`
    In,
    /// `)`
    Close,
    /// `;`
    Semicolon,
    /// A number.
    Number,
    /// The end of the text.
    End,
}

impl Display for Kind {
    ghost use Rattle.std.specs.Prelude.{Some};
    ghost use Rattle.pts_grammar.specs.FaultText.{kind_text};

    ghost output = { λ k. Some (kind_text k) };

    fn fmt<W: fmt::Write>(&self, f: &mut Formatter<W>) -> fmt::Result {
        f.write_str(match self {
            Kind::Command => "Command",
            Kind::Term => "Term",
            Kind::Name => "Name",
            Kind::Plain => "Plain",
            Kind::Colon => "Colon",
            Kind::Dot => "Dot",
            Kind::Assign => "Assign",
            Kind::In => "In",
            Kind::Close => "Close",
            Kind::Semicolon => "Semicolon",
            Kind::Number => "Number",
            Kind::End => "End",
        })
    }
}
