ghost use Rattle.std.specs.Prelude.{◌≡◌, ◌<◌, length, Ok, IfSome};
ghost use Rattle.pts_record.specs.Table.{AllBelow, term_links};
ghost use Rattle.pts_certificate.specs.Calls.{Answers, AnswersAs};
ghost use Rattle.pts_certificate.specs.Rows as rows;
ghost use Rattle.pts_certificate.specs.Certificate.{judges};
ghost use Rattle.pts_certificate.specs.Certificate as format;
ghost use Rattle.pts_certificate.specs.Seen.{declared_of, heading_of};

use crate::fault::LineFault;
use crate::state::Heading;
use pts_record::{Declaration, Form, FormKind, Node, Record, RecordFault, Shape};

/// The record with one more term.
pub(crate) fn with_term(mut proof: Record, shape: Shape) -> Result<Record, LineFault>
    ensures { Answers result (rows.with_term proof shape) }
{
    match proof.add_term(shape) {
        Ok(_) => Ok(proof),
        Err(fault) => Err(refusal_of(fault)),
    }
}

/// The record with one more node.
pub(crate) fn with_node(mut proof: Record, node: Node) -> Result<Record, LineFault>
    ensures { Answers result (rows.with_node proof node) }
{
    match proof.add_node(node) {
        Ok(_) => Ok(proof),
        Err(fault) => Err(refusal_of(fault)),
    }
}

fn refusal_of(fault: RecordFault) -> LineFault
    ensures { result ≡ rows.refusal_of fault }
{
    match fault {
        RecordFault::Link(_) => LineFault::BadNumber,
        RecordFault::TooLarge => LineFault::TooLarge,
        RecordFault::Memory => LineFault::Memory,
    }
}

/// What the last node of a record declares.
#[tactic(auto, unfolding(crate::specs::Certificate::concluded))]
pub(crate) fn concluded(heading: Heading, proof: Record) -> Result<Declaration, LineFault>
    ensures { AnswersAs declared_of result (format.concluded (heading_of heading) proof) }
{
    let Some(last) = last_node(&proof) else {
        return Err(LineFault::BadLine);
    };
    if !judges(last.form) {
        return Err(LineFault::BadLine);
    }
    declared(heading, proof, last)
}

fn last_node(proof: &Record) -> Option<Node>
    ensures node { result ≡ format.last_node proof.now }
    ensures stands { IfSome result (λ n. AllBelow (length proof.now.shapes) (term_links n)) }
{
    let count = proof.nodes();
    if count == 0 {
        return None;
    }
    Some(proof.node(count - 1))
}

fn declared(heading: Heading, mut proof: Record, last: Node) -> Result<Declaration, LineFault>
    requires subject { last.subject < length proof.shapes }
    requires claim { last.claim < length proof.shapes }
    ensures { AnswersAs declared_of result (Ok (format.declared (heading_of heading) proof last)) }
{
    proof.trim();
    let subject = proof.tree(last.subject)?;
    let (body, ty) = if heading.defines {
        (Some(subject), proof.tree(last.claim)?)
    } else {
        (None, subject)
    };
    Ok(Declaration {
        name: heading.name,
        body,
        ty,
        proof,
    })
}

/// Whether a node of this form is a judgement.
fn judges(form: Form) -> bool
    ensures { result ≡ judges form }
{
    matches!(form.kind(), FormKind::Judgement)
}
