// The texts of refusals.

ghost use Rattle.std.specs.Prelude.{◌≡◌, ◌≢◌, IfOk, OnOk, string_bytes};
ghost use Rattle.pts_statement.specs.declared.fault.StatementFault.{StatementFault};
ghost use Rattle.pts_statement.specs.Words.{fault_text};

use crate::fault::StatementFault;
use pts_ctx::System;
use pts_declare::DeclareFault;
use pts_flaw_text::infer_text;
use std::alloc::{AllocError, Global};

/// How the refusal of a statement is printed. Running out of memory is none.
pub fn fault_text(
    alloc: Global,
    system: &System,
    fault: &StatementFault,
) -> Result<String, AllocError>
    ensures text { IfOk result (λ s. string_bytes s ≡ fault_text system.now.sorts fault.now) }
    ensures refusal { OnOk result (fault.now ≢ StatementFault.Memory) }
{
    match fault {
        StatementFault::Read(fault) => format!(in alloc; "{fault}"),
        StatementFault::Taken(name, place) => format!(in alloc; "Taken {name} {place}"),
        StatementFault::Declare(DeclareFault::Infer(part, fault)) => {
            infer_text(alloc, system, *part, fault)
        }
        StatementFault::Declare(DeclareFault::Memory) | StatementFault::Memory => Err(AllocError),
    }
}
