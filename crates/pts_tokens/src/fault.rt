ghost use Rattle.std.specs.Prelude.{◌≡◌};

use std::alloc::{AllocError, AllocFailed};

/// Why a text has no tokens. A place is the number of bytes before it.
#[derive(Debug, Drop, PartialEq, Eq)]
pub enum TokenFault {
    /// The character at this place begins no token.
    BadChar(usize),
    /// The name that begins at this place has more than 128 bytes.
    LongName(usize),
    /// There was no memory for the tokens.
    Memory,
}

impl From<AllocError> for TokenFault {
    ghost use Rattle.pts_tokens.specs.declared.fault.TokenFault.{TokenFault};

    ghost from_gives = { λ _ fault. fault ≡ TokenFault.Memory };

    fn from(_: AllocError) -> TokenFault {
        TokenFault::Memory
    }
}

impl<T: Drop> From<AllocFailed<T>> for TokenFault {
    ghost use Rattle.pts_tokens.specs.declared.fault.TokenFault.{TokenFault};

    ghost from_gives = { λ _ fault. fault ≡ TokenFault.Memory };

    fn from(_: AllocFailed<T>) -> TokenFault {
        TokenFault::Memory
    }
}
