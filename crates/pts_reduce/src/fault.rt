// Why a call of reduction has no other answer.

ghost use Rattle.std.specs.Prelude.{◌≡◌};
ghost use Rattle.pts_reduce.specs.declared.fault.Fault.TheVariants.{Memory};
ghost use Rattle.pts_reduce.specs.declared.fault.ReduceFault.TheVariants.{Memory as NoMemory};
ghost use Rattle.pts_reduce.specs.Given.{same_fault};

use pts_grow::TermFault;
use pts_record::Boxed;
use std::alloc::{AllocError, AllocFailed};

/// Why a call of reduction has no other answer.
#[derive(Debug, Drop)]
pub enum ReduceFault {
    /// The cost is above what the meter had left.
    Spent,
    /// A term or the nesting of tests is beyond the limits.
    Deep,
    /// There is no memory.
    Memory,
}

impl From<AllocError> for ReduceFault {
    ghost from_gives = { λ _ e. e ≡ NoMemory };

    fn from(_: AllocError) -> Self {
        ReduceFault::Memory
    }
}

// Two forms that differ, and the numbers of the parts that lead to them, the innermost first.
#[derive(Debug, Drop)]
pub(crate) struct FoundDifference {
    pub place: Vec<u8>,
    pub left: usize,
    pub right: usize,
}

// Why an inner call has no other answer. It is small, since such calls nest.
#[derive(Debug, Drop)]
pub(crate) enum Fault {
    Spent,
    Deep,
    Memory,
    Differ(Boxed<FoundDifference>),
}

impl From<AllocError> for Fault {
    ghost from_gives = { λ _ e. e ≡ Memory };

    fn from(_: AllocError) -> Self {
        Fault::Memory
    }
}

impl<T: Drop> From<AllocFailed<T>> for Fault {
    ghost from_gives = { λ _ e. e ≡ Memory };

    fn from(_: AllocFailed<T>) -> Self {
        Fault::Memory
    }
}

impl From<TermFault> for Fault {
    ghost from_gives = { λ t e. e ≡ same_fault t };

    fn from(fault: TermFault) -> Self {
        match fault {
            TermFault::TooLarge => Fault::Deep,
            TermFault::Memory => Fault::Memory,
        }
    }
}
