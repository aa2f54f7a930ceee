// Sorts, constants and variables with their types.

ghost use Rattle.std.specs.Prelude.{◌≡◌, ◌<◌, ◌+◌, length, IfOk, Some};
ghost use Rattle.std.specs.Option.{option_and_then};
ghost use Rattle.pts_terms.specs.Tree.{sort, var, lift};
ghost use Rattle.pts_ctx.specs.System.{Specification, axiom_of};
ghost use Rattle.pts_ctx.specs.Front.{Front, bare_front, entry_at};
ghost use Rattle.pts_record.specs.Table.{named_at, bare_at};
ghost use Rattle.pts_record.specs.Said.{named_told, scope_of};
ghost use Rattle.pts_rules.specs.Valid.{IsValid};
ghost use Rattle.pts_grow.specs.Keeps.{Keeps, StaysValid};
ghost use Rattle.pts_grow.specs.Judges.{IsTypedContext, Judges, type_in, constant_type};

use crate::{Judged, push};
use pts_ctx::{Context, System};
use pts_record::{Form, Node, Record};
use pts_terms::Sort;
use std::alloc::AllocError;

/// A sort has the sort of its axiom as its type.
#[tactic(auto, using(crate::proofs::Judgements::new_judges, crate::proofs::Atoms::sort_ok))]
pub fn add_sort(
    system: &System,
    proof: &mut Record,
    ctx: usize,
    subject: usize,
    claim: usize,
    own: Sort,
    above: Sort,
) -> Result<Judged, AllocError>
    requires ctx { ctx < length proof.old.nodes }
    requires typed { IsTypedContext proof.old ctx }
    requires subject { subject < length proof.old.shapes }
    requires claim { claim < length proof.old.shapes }
    requires sort { bare_at proof.old.shapes subject ≡ sort own.0 }
    requires axiom { axiom_of system.now own.0 ≡ Some above.0 }
    requires ty { bare_at proof.old.shapes claim ≡ sort above.0 }
    ensures pair { IfOk result (λ j. (j.subject ≡ subject) × (j.claim ≡ claim)) }
    ensures judges { IfOk result (λ j. Judges proof.new ctx j) }
    ensures shapes { proof.new.shapes ≡ proof.old.shapes }
    ensures keeps { Keeps proof.old proof.new }
    ensures valid { (G : Front) → IsValid system.now G proof.old → IsValid system.now G proof.new }
{
    let _ = system.axiom(own);
    let _ = above;
    let node = push(
        proof,
        Node {
            form: Form::SortAt,
            ctx,
            subject,
            claim,
            first: 0,
            second: 0,
            third: 0,
        },
    )?;
    Ok(Judged {
        subject,
        claim,
        node,
    })
}

/// A constant has the type of its entry in the front.
#[tactic(auto, using(crate::proofs::Judgements::new_judges, crate::proofs::Atoms::const_ok))]
pub fn add_const(
    front: &Context,
    proof: &mut Record,
    ctx: usize,
    subject: usize,
    claim: usize,
) -> Result<Judged, AllocError>
    requires ctx { ctx < length proof.old.nodes }
    requires typed { IsTypedContext proof.old ctx }
    requires subject { subject < length proof.old.shapes }
    requires claim { claim < length proof.old.shapes }
    requires entry { constant_type front.now.entries (bare_at proof.old.shapes subject) ≡ Some (bare_at proof.old.shapes claim) }
    ensures pair { IfOk result (λ j. (j.subject ≡ subject) × (j.claim ≡ claim)) }
    ensures judges { IfOk result (λ j. Judges proof.new ctx j) }
    ensures shapes { proof.new.shapes ≡ proof.old.shapes }
    ensures keeps { Keeps proof.old proof.new }
    ensures valid { (S : Specification) → IsValid S (bare_front front.now.entries) proof.old → IsValid S (bare_front front.now.entries) proof.new }
{
    let _ = front.len();
    let node = push(
        proof,
        Node {
            form: Form::ConstAt,
            ctx,
            subject,
            claim,
            first: 0,
            second: 0,
            third: 0,
        },
    )?;
    Ok(Judged {
        subject,
        claim,
        node,
    })
}

/// A variable has the type of its entry in the context, lifted past that entry and those after it.
#[tactic(auto, using(crate::proofs::Judgements::new_judges, crate::proofs::Atoms::var_ok))]
pub fn add_var(
    proof: &mut Record,
    ctx: usize,
    subject: usize,
    claim: usize,
    index: u32,
    ty: usize,
) -> Result<Judged, AllocError>
    requires ctx { ctx < length proof.old.nodes }
    requires typed { IsTypedContext proof.old ctx }
    requires subject { subject < length proof.old.shapes }
    requires claim { claim < length proof.old.shapes }
    requires variable { bare_at proof.old.shapes subject ≡ var index }
    requires entry { option_and_then type_in (entry_at (scope_of (named_told proof.old ctx)).entries index) ≡ Some (named_at proof.old.shapes ty) }
    requires ty { bare_at proof.old.shapes claim ≡ lift 0 (index + 1) (bare_at proof.old.shapes ty) }
    ensures pair { IfOk result (λ j. (j.subject ≡ subject) × (j.claim ≡ claim)) }
    ensures judges { IfOk result (λ j. Judges proof.new ctx j) }
    ensures shapes { proof.new.shapes ≡ proof.old.shapes }
    ensures keeps { Keeps proof.old proof.new }
    ensures valid { StaysValid proof.old proof.new }
{
    let _ = (index, ty);
    let node = push(
        proof,
        Node {
            form: Form::VarAt,
            ctx,
            subject,
            claim,
            first: 0,
            second: 0,
            third: 0,
        },
    )?;
    Ok(Judged {
        subject,
        claim,
        node,
    })
}
