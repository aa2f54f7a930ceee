// Why a call gives no other answer.

ghost use Rattle.std.specs.Prelude.{◌≡◌};
ghost use Rattle.pts_goals.specs.declared.fault.FillFault.TheVariants.{Memory};

use std::alloc::AllocError;

/// Why a step is not put in.
#[derive(Debug, Drop)]
pub enum FillFault {
    /// The whole term with the step is not within limits.
    Deep,
    /// Out of memory.
    Memory,
}

impl From<AllocError> for FillFault {
    ghost from_gives = { λ _ e. e ≡ Memory };

    fn from(_: AllocError) -> Self {
        FillFault::Memory
    }
}

/// Why a proof is not finished.
#[derive(Debug, Drop)]
pub enum FinishFault {
    /// So many goals are open.
    GoalsLeft(usize),
    /// Out of memory.
    Memory,
}
