ghost use Rattle.std.specs.Prelude.{◌≡◌};

use crate::kind::Kind;
use std::alloc::AllocError;

/// Why tokens are no text of a term. A place is the number of bytes before it.
#[derive(Debug, Drop, PartialEq, Eq)]
pub enum SyntaxFault {
    /// This kind of token must be at this place.
    Expected(usize, Kind),
    /// The parenthesis at this place is open beside 2,000 others; or the term is deeper than 2,000, and the place is the
    /// text's length.
    TooDeep(usize),
    /// There was no memory for the tree.
    Memory,
}

impl From<AllocError> for SyntaxFault {
    ghost use Rattle.pts_grammar.specs.declared.fault.SyntaxFault.{SyntaxFault};

    ghost from_gives = { λ _ fault. fault ≡ SyntaxFault.Memory };

    fn from(_: AllocError) -> SyntaxFault {
        SyntaxFault::Memory
    }
}
