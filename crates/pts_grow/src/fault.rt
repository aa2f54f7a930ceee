// Why a term is not made.

ghost use Rattle.std.specs.Prelude.{◌≡◌};
ghost use Rattle.pts_grow.specs.declared.fault.TermFault.TheVariants.{Memory};

use std::alloc::AllocError;

/// Why a term is not made.
#[derive(Debug, Drop)]
pub enum TermFault {
    /// The term is not within limits.
    TooLarge,
    /// There is no memory, the table is full, or an index does not fit 32 bits.
    Memory,
}

impl From<AllocError> for TermFault {
    ghost from_gives = { λ _ e. e ≡ Memory };

    fn from(_: AllocError) -> Self {
        TermFault::Memory
    }
}
