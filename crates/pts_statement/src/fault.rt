// Why a statement is refused.

ghost use Rattle.std.specs.Prelude.{◌≡◌};
ghost use Rattle.pts_statement.specs.declared.fault.StatementFault.TheVariants.{Memory as NoMemory};

use pts_declare::DeclareFault;
use pts_names::Name;
use pts_parser::ReadFault;
use std::alloc::AllocError;

/// Why a statement does not become a declaration. `Memory` alone says that memory ran out.
#[derive(Debug, Drop)]
pub enum StatementFault {
    /// A name or a sort is unknown.
    Read(ReadFault),
    /// The name is taken already, at that place of the front.
    Taken(Name, usize),
    /// What is stated does not become a declaration.
    Declare(DeclareFault),
    /// There is no memory.
    Memory,
}

impl From<ReadFault> for StatementFault {
    ghost use Rattle.pts_statement.specs.Refusals.{read_fault};

    ghost from_gives = { λ given fault. fault ≡ read_fault given };

    fn from(fault: ReadFault) -> StatementFault {
        match fault {
            ReadFault::Memory => StatementFault::Memory,
            fault => StatementFault::Read(fault),
        }
    }
}

impl From<DeclareFault> for StatementFault {
    ghost use Rattle.pts_statement.specs.Refusals.{declare_fault};

    ghost from_gives = { λ given fault. fault ≡ declare_fault given };

    fn from(fault: DeclareFault) -> StatementFault {
        match fault {
            DeclareFault::Memory => StatementFault::Memory,
            fault => StatementFault::Declare(fault),
        }
    }
}

impl From<AllocError> for StatementFault {
    ghost from_gives = { λ _ fault. fault ≡ NoMemory };

    fn from(_: AllocError) -> StatementFault {
        StatementFault::Memory
    }
}
