ghost use Rattle.std.specs.Prelude.{◌≡◌};

use pts_grammar::{Kind, SyntaxFault};
use pts_names::{Name, SortName};
use pts_tokens::TokenFault;
use std::alloc::{AllocError, AllocFailed};
use std::fmt;
use std::fmt::{Display, Formatter};

/// Why a text is no term. A place is the number of bytes before it.
#[derive(Debug, Drop)]
pub enum ReadFault {
    /// The character at this place begins no token.
    BadChar(usize),
    /// The name that begins at this place has more than 128 bytes.
    LongName(usize),
    /// This kind of token must be at this place.
    Expected(usize, Kind),
    /// The parenthesis at this place is open beside 2,000 others; or the term is deeper than 2,000, and the place is the
    /// text's length.
    TooDeep(usize),
    /// The name at this place is neither bound nor in the scope.
    UnknownName(usize, Name),
    /// The sort at this place is none of the system's.
    UnknownSort(usize, SortName),
    /// There was no memory for the term.
    Memory,
}

impl From<AllocError> for ReadFault {
    ghost use Rattle.pts_parser.specs.declared.fault.ReadFault.{ReadFault};

    ghost from_gives = { λ _ fault. fault ≡ ReadFault.Memory };

    fn from(_: AllocError) -> ReadFault {
        ReadFault::Memory
    }
}

impl<T: Drop> From<AllocFailed<T>> for ReadFault {
    ghost use Rattle.pts_parser.specs.declared.fault.ReadFault.{ReadFault};

    ghost from_gives = { λ _ fault. fault ≡ ReadFault.Memory };

    fn from(_: AllocFailed<T>) -> ReadFault {
        ReadFault::Memory
    }
}

impl From<TokenFault> for ReadFault {
    ghost use Rattle.pts_parser.specs.Reading.{token_fault};

    ghost from_gives = { λ given fault. fault ≡ token_fault given };

    fn from(fault: TokenFault) -> ReadFault {
        match fault {
            TokenFault::BadChar(place) => ReadFault::BadChar(place),
            TokenFault::LongName(place) => ReadFault::LongName(place),
            TokenFault::Memory => ReadFault::Memory,
        }
    }
}

impl From<SyntaxFault> for ReadFault {
    ghost use Rattle.pts_parser.specs.Reading.{syntax_fault};

    ghost from_gives = { λ given fault. fault ≡ syntax_fault given };

    fn from(fault: SyntaxFault) -> ReadFault {
        match fault {
            SyntaxFault::Expected(place, kind) => ReadFault::Expected(place, kind),
            SyntaxFault::TooDeep(place) => ReadFault::TooDeep(place),
            SyntaxFault::Memory => ReadFault::Memory,
        }
    }
}

impl Display for ReadFault {
    ghost use Rattle.std.specs.Prelude.{Some};
    ghost use Rattle.pts_parser.specs.FaultText.{read_text};

    ghost output = { λ e. Some (read_text e) };

    fn fmt<W: fmt::Write>(&self, f: &mut Formatter<W>) -> fmt::Result {
        match self {
            ReadFault::BadChar(place) => write!(f, "BadChar {place}"),
            ReadFault::LongName(place) => write!(f, "LongName {place}"),
            ReadFault::Expected(place, kind) => write!(f, "Expected {place} {kind}"),
            ReadFault::TooDeep(place) => write!(f, "TooDeep {place}"),
            ReadFault::UnknownName(place, name) => write!(f, "UnknownName {place} {name}"),
            ReadFault::UnknownSort(place, sort) => write!(f, "UnknownSort {place} {sort}"),
            ReadFault::Memory => f.write_str("Memory"),
        }
    }
}
