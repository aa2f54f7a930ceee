// Judgements again: with other printed names, in a longer context, or with a convertible type.

ghost use Rattle.std.specs.Prelude.{◌≡◌, ◌<◌, length, IfOk, Some, nat_eq, position};
ghost use Rattle.pts_terms.specs.Tree.{lift};
ghost use Rattle.pts_record.specs.Table.{bare_at};
ghost use Rattle.pts_record.specs.Said.{named_told, scope_of};
ghost use Rattle.pts_grow.specs.Keeps.{Keeps, StaysValid, Compares};
ghost use Rattle.pts_grow.specs.Judges.{IsTypedContext, Judges, IsSort};

use crate::{Compared, Judged, push};
use pts_record::{Form, Node, Record};
use std::alloc::AllocError;

/// A judgement in a context that has `by` entries more than the premise's, and leads to it.
#[tactic(auto, using(crate::proofs::Judgements::new_judges, crate::proofs::Converted::thin_ok))]
pub fn add_thin(
    proof: &mut Record,
    ctx: usize,
    subject: usize,
    claim: usize,
    from: usize,
    premise: Judged,
    by: u64,
) -> Result<Judged, AllocError>
    requires ctx { ctx < length proof.old.nodes }
    requires typed { IsTypedContext proof.old ctx }
    requires subject { subject < length proof.old.shapes }
    requires claim { claim < length proof.old.shapes }
    requires premise { Judges proof.old from premise }
    requires distance { position (nat_eq from) (scope_of (named_told proof.old ctx)).trail ≡ Some by }
    requires lifted { bare_at proof.old.shapes subject ≡ lift 0 by (bare_at proof.old.shapes premise.subject) }
    requires ty { bare_at proof.old.shapes claim ≡ lift 0 by (bare_at proof.old.shapes premise.claim) }
    ensures pair { IfOk result (λ j. (j.subject ≡ subject) × (j.claim ≡ claim)) }
    ensures judges { IfOk result (λ j. Judges proof.new ctx j) }
    ensures shapes { proof.new.shapes ≡ proof.old.shapes }
    ensures keeps { Keeps proof.old proof.new }
    ensures valid { StaysValid proof.old proof.new }
{
    let _ = (from, by);
    let node = push(
        proof,
        Node {
            form: Form::Thin,
            ctx,
            subject,
            claim,
            first: premise.node,
            second: 0,
            third: 0,
        },
    )?;
    Ok(Judged {
        subject,
        claim,
        node,
    })
}

/// A judgement in its own context, with terms that are equal apart from printed names.
#[tactic(auto, using(crate::proofs::Judgements::new_judges, crate::proofs::Converted::again))]
pub fn add_again(
    proof: &mut Record,
    ctx: usize,
    subject: usize,
    claim: usize,
    premise: Judged,
) -> Result<Judged, AllocError>
    requires ctx { ctx < length proof.old.nodes }
    requires typed { IsTypedContext proof.old ctx }
    requires subject { subject < length proof.old.shapes }
    requires claim { claim < length proof.old.shapes }
    requires premise { Judges proof.old ctx premise }
    requires same { bare_at proof.old.shapes subject ≡ bare_at proof.old.shapes premise.subject }
    requires ty { bare_at proof.old.shapes claim ≡ bare_at proof.old.shapes premise.claim }
    ensures pair { IfOk result (λ j. (j.subject ≡ subject) × (j.claim ≡ claim)) }
    ensures judges { IfOk result (λ j. Judges proof.new ctx j) }
    ensures shapes { proof.new.shapes ≡ proof.old.shapes }
    ensures keeps { Keeps proof.old proof.new }
    ensures valid { StaysValid proof.old proof.new }
{
    let _ = proof.node(ctx);
    add_thin(proof, ctx, subject, claim, ctx, premise, 0)
}

/// The subject of a judgement has a type with a sort that is compared with its claim.
#[tactic(auto, using(crate::proofs::Judgements::new_judges, crate::proofs::Converted::conv_ok))]
pub fn add_conv(
    proof: &mut Record,
    ctx: usize,
    subject: usize,
    claim: usize,
    judged: Judged,
    wanted: Judged,
    compared: Compared,
) -> Result<Judged, AllocError>
    requires ctx { ctx < length proof.old.nodes }
    requires typed { IsTypedContext proof.old ctx }
    requires subject { subject < length proof.old.shapes }
    requires claim { claim < length proof.old.shapes }
    requires judged { Judges proof.old ctx judged }
    requires wanted { Judges proof.old ctx wanted }
    requires compared { Compares proof.old ctx compared }
    requires same { bare_at proof.old.shapes subject ≡ bare_at proof.old.shapes judged.subject }
    requires ty { bare_at proof.old.shapes claim ≡ bare_at proof.old.shapes wanted.subject }
    requires sort { IsSort proof.old wanted.claim }
    requires left { bare_at proof.old.shapes compared.left ≡ bare_at proof.old.shapes judged.claim }
    requires right { bare_at proof.old.shapes compared.right ≡ bare_at proof.old.shapes claim }
    ensures pair { IfOk result (λ j. (j.subject ≡ subject) × (j.claim ≡ claim)) }
    ensures judges { IfOk result (λ j. Judges proof.new ctx j) }
    ensures shapes { proof.new.shapes ≡ proof.old.shapes }
    ensures keeps { Keeps proof.old proof.new }
    ensures valid { StaysValid proof.old proof.new }
{
    let node = push(
        proof,
        Node {
            form: Form::Conv,
            ctx,
            subject,
            claim,
            first: judged.node,
            second: wanted.node,
            third: compared.node,
        },
    )?;
    Ok(Judged {
        subject,
        claim,
        node,
    })
}
