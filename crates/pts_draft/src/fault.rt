// Why a draft refuses.

ghost use Rattle.std.specs.Prelude.{◌≡◌};
ghost use Rattle.pts_draft.specs.declared.fault.DraftFault.TheVariants.{Memory as NoMemory};
ghost use Rattle.pts_draft.specs.declared.fault.RenameFault.TheVariants.{Memory as NotRenamed};
ghost use Rattle.pts_draft.specs.Refusals.{draft_fault};

use pts_declare::{DeclareFault, InferFault, Part};
use pts_names::Name;
use std::alloc::AllocError;

/// Why a draft refuses.
#[derive(Debug, Drop)]
pub enum DraftFault {
    /// The name is taken already, at that place.
    Taken(Name, usize),
    /// The inference of this part has this fault, which is not that memory ran out.
    Infer(Part, InferFault),
    /// Out of memory.
    Memory,
}

impl From<DeclareFault> for DraftFault {
    ghost from_gives = { λ given fault. fault ≡ draft_fault given };

    fn from(fault: DeclareFault) -> DraftFault {
        match fault {
            DeclareFault::Infer(part, fault) => DraftFault::Infer(part, fault),
            DeclareFault::Memory => DraftFault::Memory,
        }
    }
}

impl From<AllocError> for DraftFault {
    ghost from_gives = { λ _ fault. fault ≡ NoMemory };

    fn from(_: AllocError) -> DraftFault {
        DraftFault::Memory
    }
}

/// Why a declaration is not renamed.
#[derive(Debug, Drop)]
pub enum RenameFault {
    /// No declaration of the draft has this name.
    NotThere(Name),
    /// The new name is taken already, at that place.
    Taken(Name, usize),
    /// Out of memory.
    Memory,
}

impl From<AllocError> for RenameFault {
    ghost from_gives = { λ _ fault. fault ≡ NotRenamed };

    fn from(_: AllocError) -> RenameFault {
        RenameFault::Memory
    }
}
