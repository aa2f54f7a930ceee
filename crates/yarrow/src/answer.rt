// What the program answers to a certificate.

ghost use Rattle.std.specs.Prelude.{◌≡◌, [], Ok, IfOk, string_bytes};
ghost use Rattle.pts_certificate.specs.Seen.{written_of};
ghost use Rattle.yarrow.specs.Answers.{answer_to, answer_read};

use crate::enter::{Entrance, enter_all};
use crate::words::{refusal_line, unreadable_line, valid_line};
use pts_certificate::{Certificate, CertificateFault, read_certificate};
use pts_ctx::Context;
use std::alloc::{AllocError, Global};

/// The status, the line to print, and the context of the entered declarations.
#[derive(Drop)]
pub(crate) struct Answer {
    pub status: u8,
    pub line: String,
    pub context: Context,
}

/// Reads a certificate and checks its declarations.
#[tactic(auto, unfolding(crate::specs::Answers::answer_to))]
pub(crate) fn answer_to(alloc: Global, bytes: &[u8]) -> Result<Answer, AllocError>
    ensures status { IfOk result (λ a. a.status ≡ (answer_to bytes.now).status) }
    ensures line { IfOk result (λ a. string_bytes a.line ≡ (answer_to bytes.now).line) }
    ensures entries { IfOk result (λ a. a.context.entries ≡ (answer_to bytes.now).entries) }
    ensures labels { IfOk result (λ a. a.context.labels ≡ []) }
{
    match read_certificate(alloc, bytes) {
        Ok(certificate) => answer_read(alloc, certificate),
        Err(CertificateFault::Memory) => Err(AllocError),
        Err(fault) => Ok(Answer {
            status: 1,
            line: unreadable_line(alloc, &fault)?,
            context: Context::new(alloc),
        }),
    }
}

// The answer to a certificate that was read.
fn answer_read(alloc: Global, certificate: Certificate) -> Result<Answer, AllocError>
    ensures status { IfOk result (λ a. a.status ≡ (answer_read (Ok (written_of certificate))).status) }
    ensures line { IfOk result (λ a. string_bytes a.line ≡ (answer_read (Ok (written_of certificate))).line) }
    ensures entries { IfOk result (λ a. a.context.entries ≡ (answer_read (Ok (written_of certificate))).entries) }
    ensures labels { IfOk result (λ a. a.context.labels ≡ []) }
{
    let Certificate {
        system,
        declarations,
    } = certificate;
    let Entrance { context, refusal } = enter_all(alloc, &system, declarations.into_vec())?;
    match refusal {
        None => Ok(Answer {
            status: 0,
            line: valid_line(alloc, context.len())?,
            context,
        }),
        Some(refusal) => Ok(Answer {
            status: 1,
            line: refusal_line(alloc, &refusal)?,
            context,
        }),
    }
}
