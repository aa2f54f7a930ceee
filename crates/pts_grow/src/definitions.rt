// Local definitions with their types.

ghost use Rattle.std.specs.Prelude.{◌≡◌, ◌<◌, length, IfOk};
ghost use Rattle.pts_terms.specs.Tree.{let_in};
ghost use Rattle.pts_record.specs.Table.{bare_at};
ghost use Rattle.pts_grow.specs.Keeps.{Keeps, StaysValid};
ghost use Rattle.pts_grow.specs.Judges.{IsTypedContext, Judges, IsDefineOf, IsSort};

use crate::{Judged, push};
use pts_record::{Form, Node, Record};
use std::alloc::AllocError;

/// A local definition whose body has a sort as its type has that sort.
#[tactic(auto, using(crate::proofs::Judgements::new_judges, crate::proofs::Defined::letsort_ok))]
pub fn add_letsort(
    proof: &mut Record,
    ctx: usize,
    subject: usize,
    claim: usize,
    definition: Judged,
    inner: usize,
    body: Judged,
) -> Result<Judged, AllocError>
    requires ctx { ctx < length proof.old.nodes }
    requires typed { IsTypedContext proof.old ctx }
    requires subject { subject < length proof.old.shapes }
    requires claim { claim < length proof.old.shapes }
    requires inner { IsDefineOf proof.old ctx definition inner }
    requires body { Judges proof.old inner body }
    requires parts { bare_at proof.old.shapes subject ≡ let_in (bare_at proof.old.shapes definition.subject) (bare_at proof.old.shapes definition.claim) (bare_at proof.old.shapes body.subject) }
    requires ty { bare_at proof.old.shapes claim ≡ bare_at proof.old.shapes body.claim }
    requires sort { IsSort proof.old body.claim }
    ensures pair { IfOk result (λ j. (j.subject ≡ subject) × (j.claim ≡ claim)) }
    ensures judges { IfOk result (λ j. Judges proof.new ctx j) }
    ensures shapes { proof.new.shapes ≡ proof.old.shapes }
    ensures keeps { Keeps proof.old proof.new }
    ensures valid { StaysValid proof.old proof.new }
{
    let _ = (definition, inner);
    let node = push(
        proof,
        Node {
            form: Form::LetSort,
            ctx,
            subject,
            claim,
            first: body.node,
            second: 0,
            third: 0,
        },
    )?;
    Ok(Judged {
        subject,
        claim,
        node,
    })
}

/// A local definition has the same local definition of its body's type as its type, where that has a sort.
#[tactic(auto, using(crate::proofs::Judgements::new_judges, crate::proofs::Defined::let_ok))]
pub fn add_let(
    proof: &mut Record,
    ctx: usize,
    subject: usize,
    claim: usize,
    definition: Judged,
    inner: usize,
    body: Judged,
    sorted: Judged,
) -> Result<Judged, AllocError>
    requires ctx { ctx < length proof.old.nodes }
    requires typed { IsTypedContext proof.old ctx }
    requires subject { subject < length proof.old.shapes }
    requires claim { claim < length proof.old.shapes }
    requires inner { IsDefineOf proof.old ctx definition inner }
    requires body { Judges proof.old inner body }
    requires sorted { Judges proof.old ctx sorted }
    requires parts { bare_at proof.old.shapes subject ≡ let_in (bare_at proof.old.shapes definition.subject) (bare_at proof.old.shapes definition.claim) (bare_at proof.old.shapes body.subject) }
    requires ty { bare_at proof.old.shapes claim ≡ let_in (bare_at proof.old.shapes definition.subject) (bare_at proof.old.shapes definition.claim) (bare_at proof.old.shapes body.claim) }
    requires same { bare_at proof.old.shapes sorted.subject ≡ bare_at proof.old.shapes claim }
    requires sort { IsSort proof.old sorted.claim }
    ensures pair { IfOk result (λ j. (j.subject ≡ subject) × (j.claim ≡ claim)) }
    ensures judges { IfOk result (λ j. Judges proof.new ctx j) }
    ensures shapes { proof.new.shapes ≡ proof.old.shapes }
    ensures keeps { Keeps proof.old proof.new }
    ensures valid { StaysValid proof.old proof.new }
{
    let _ = (definition, inner);
    let node = push(
        proof,
        Node {
            form: Form::LetAt,
            ctx,
            subject,
            claim,
            first: body.node,
            second: sorted.node,
            third: 0,
        },
    )?;
    Ok(Judged {
        subject,
        claim,
        node,
    })
}
