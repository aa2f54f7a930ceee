ghost use Rattle.std.specs.Prelude.{◌≡◌, Ok, Err, IfOk, IfErr, MatchResult};
ghost use Rattle.pts_certificate.specs.Certificate.{certificate_of, at_line, ended, UnlessMemory};
ghost use Rattle.pts_certificate.specs.Seen.{written_of, state_of};

use crate::fault::{CertificateFault, LineFault};
use crate::split::split_line;
use crate::state::{Front, State, step};
use pts_ctx::System;
use pts_names::List;
use pts_record::Declaration;
use std::alloc::Global;

/// A system and the declarations over it, each with its evidence.
#[derive(Drop)]
pub struct Certificate {
    pub system: System,
    pub declarations: List<Declaration>,
}

/// The certificate that a text is.
///
/// # Errors
///
/// The first line that is refused is named, with the first of `BadLine`, `BadNumber` and `TooLarge` that holds of it.
/// `System` comes at the first line after the rules, before all that may be wrong with that line. `Truncated` comes
/// where no line is refused and none is `end`.
#[tactic(auto, unfolding(crate::specs::Certificate::certificate_of))]
pub fn read_certificate(alloc: Global, bytes: &[u8]) -> Result<Certificate, CertificateFault>
    ensures read { IfOk result (λ c. certificate_of bytes.now ≡ Ok (written_of c)) }
    ensures refused { IfErr result (λ e. UnlessMemory e (certificate_of bytes.now ≡ Err e)) }
{
    let mut state = State::Start;
    let mut rest = bytes;
    let mut number: usize = 0;
    while let Some((line, behind)) = split_line(rest) {
        number += 1;
        state = match step(alloc, state, line) {
            Ok(next) => next,
            Err(refusal) => return Err(at_line(number, refusal)),
        };
        rest = behind;
    }
    whole(state)
}

/// The certificate that was read, where its end was.
fn whole(state: State) -> Result<Certificate, CertificateFault>
    ensures { MatchResult result (λ c. ended (state_of state) ≡ Ok (written_of c)) (λ e. ended (state_of state) ≡ Err e) }
{
    match state {
        State::End(
            Front {
                system,
                declarations,
            },
        ) => Ok(Certificate {
            system,
            declarations: List::of(declarations),
        }),
        _ => Err(CertificateFault::Truncated),
    }
}

fn at_line(number: usize, refusal: LineFault) -> CertificateFault
    ensures { result ≡ at_line number refusal }
{
    match refusal {
        LineFault::BadLine => CertificateFault::BadLine(number),
        LineFault::BadNumber => CertificateFault::BadNumber(number),
        LineFault::TooLarge => CertificateFault::TooLarge(number),
        LineFault::System(fault) => CertificateFault::System(fault),
        LineFault::Memory => CertificateFault::Memory,
    }
}
