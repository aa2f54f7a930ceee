// The words that `check` prints.

ghost use Rattle.std.specs.Prelude.{◌≡◌, IfOk, string_bytes};
ghost use Rattle.yarrow.specs.Words.{valid_line, unreadable_line, refusal_line};

use crate::enter::Refusal;
use pts_certificate::CertificateFault;
use std::alloc::{AllocError, Global};

/// `valid N`
pub(crate) fn valid_line(alloc: Global, count: usize) -> Result<String, AllocError>
    ensures { IfOk result (λ s. string_bytes s ≡ valid_line count) }
{
    format!(in alloc; "valid {count}\n")
}

/// `unreadable` with the refusal
pub(crate) fn unreadable_line(alloc: Global, fault: &CertificateFault) -> Result<String, AllocError>
    ensures { IfOk result (λ s. string_bytes s ≡ unreadable_line fault.now) }
{
    format!(in alloc; "unreadable {fault}\n")
}

/// `clash NAME PLACE`, `full 200000` or `faulty NAME NODE WHY`
pub(crate) fn refusal_line(alloc: Global, refusal: &Refusal) -> Result<String, AllocError>
    ensures { IfOk result (λ s. string_bytes s ≡ refusal_line refusal.now) }
{
    match refusal {
        Refusal::Clash(name, place) => format!(in alloc; "clash {name} {place}\n"),
        Refusal::Full => String::from_str(alloc, "full 200000\n"),
        Refusal::Faulty(name, node, why) => format!(in alloc; "faulty {name} {node} {why}\n"),
    }
}
