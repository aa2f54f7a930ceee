// How the faults of inferences are printed.

ghost use Rattle.std.specs.Prelude.{◌≡◌, ◌≢◌, IfOk, OnOk, string_bytes};
ghost use Rattle.pts_infer.specs.declared.answer.InferFault.{InferFault};
ghost use Rattle.pts_flaw_text.specs.InferText.{infer_text};

use crate::flaw::flaw_text;
use pts_ctx::System;
use pts_infer::{InferFault, Part};
use std::alloc::{AllocError, Global};

/// How the fault of an inference is printed: a flaw with the part that has it, and `Spent` and `Deep` alone. That memory
/// lacks is not printed.
pub fn infer_text(
    alloc: Global,
    system: &System,
    part: Part,
    fault: &InferFault,
) -> Result<String, AllocError>
    ensures text { IfOk result (λ s. string_bytes s ≡ infer_text system.now.sorts part fault.now) }
    ensures refusal { OnOk result (fault.now ≢ InferFault.Memory) }
{
    match fault {
        InferFault::Flaw(flaw) => {
            let part = format!(in alloc; "{part}")?;
            flaw_text(alloc, system, part.as_str(), flaw)
        }
        InferFault::Spent => String::from_str(alloc, "Spent"),
        InferFault::Deep => String::from_str(alloc, "Deep"),
        InferFault::Memory => Err(AllocError),
    }
}
