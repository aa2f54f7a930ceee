ghost use Rattle.std.specs.Prelude.{◌≡◌, ◌≢◌, IfOk, OnOk, string_bytes};
ghost use Rattle.pts_parser.specs.declared.fault.ReadFault.{ReadFault};
ghost use Rattle.pts_format.specs.Words.{refusal_line, bad_line};

use pts_parser::ReadFault;
use std::alloc::{AllocError, Global};

/// `refused` with the refusal. Running out of memory is none.
pub(crate) fn refusal_line(alloc: Global, fault: &ReadFault) -> Result<String, AllocError>
    ensures line { IfOk result (λ s. string_bytes s ≡ refusal_line fault.now) }
    ensures refusal { OnOk result (fault.now ≢ ReadFault.Memory) }
{
    match fault {
        ReadFault::Memory => Err(AllocError),
        fault => format!(in alloc; "refused {fault}\n"),
    }
}

/// `refused line K`
pub(crate) fn bad_line(alloc: Global, number: u64) -> Result<String, AllocError>
    ensures { IfOk result (λ s. string_bytes s ≡ bad_line number) }
{
    format!(in alloc; "refused line {number}\n")
}
