// Contexts, empty or with an entry more that a judgement gives.

ghost use Rattle.std.specs.Prelude.{◌≡◌, ◌<◌, length, IfOk};
ghost use Rattle.pts_grow.specs.Keeps.{Keeps, StaysValid};
ghost use Rattle.pts_grow.specs.Judges.{IsTypedContext, Judges, IsEmpty, IsAssumeOf, IsDefineOf, IsSort};

use crate::{Judged, push};
use pts_record::{Form, Node, Record};
use std::alloc::AllocError;

/// An empty context.
#[tactic(auto, using(crate::proofs::Longer::made))]
pub fn add_empty(proof: &mut Record) -> Result<usize, AllocError>
    ensures empty { IfOk result (λ n. IsEmpty proof.new n) }
    ensures typed { IfOk result (λ n. IsTypedContext proof.new n) }
    ensures shapes { proof.new.shapes ≡ proof.old.shapes }
    ensures keeps { Keeps proof.old proof.new }
    ensures valid { StaysValid proof.old proof.new }
{
    let node = push(
        proof,
        Node {
            form: Form::Empty,
            ctx: 0,
            subject: 0,
            claim: 0,
            first: 0,
            second: 0,
            third: 0,
        },
    )?;
    Ok(node)
}

/// The context with an assumption more: the subject of a judgement whose claim is a sort.
#[tactic(auto, using(crate::proofs::Longer::made))]
pub fn add_assume(proof: &mut Record, ctx: usize, ty: Judged) -> Result<usize, AllocError>
    requires ctx { ctx < length proof.old.nodes }
    requires typed { IsTypedContext proof.old ctx }
    requires ty { Judges proof.old ctx ty }
    requires sort { IsSort proof.old ty.claim }
    ensures assume { IfOk result (λ n. IsAssumeOf proof.new ctx ty n) }
    ensures typed { IfOk result (λ n. IsTypedContext proof.new n) }
    ensures shapes { proof.new.shapes ≡ proof.old.shapes }
    ensures keeps { Keeps proof.old proof.new }
    ensures valid { StaysValid proof.old proof.new }
{
    let node = push(
        proof,
        Node {
            form: Form::Assume,
            ctx: 0,
            subject: 0,
            claim: 0,
            first: ty.node,
            second: 0,
            third: 0,
        },
    )?;
    Ok(node)
}

/// The context with a definition more: the subject of a judgement, with the claim as its type.
#[tactic(auto, using(crate::proofs::Longer::made))]
pub fn add_define(proof: &mut Record, ctx: usize, body: Judged) -> Result<usize, AllocError>
    requires ctx { ctx < length proof.old.nodes }
    requires typed { IsTypedContext proof.old ctx }
    requires body { Judges proof.old ctx body }
    ensures define { IfOk result (λ n. IsDefineOf proof.new ctx body n) }
    ensures typed { IfOk result (λ n. IsTypedContext proof.new n) }
    ensures shapes { proof.new.shapes ≡ proof.old.shapes }
    ensures keeps { Keeps proof.old proof.new }
    ensures valid { StaysValid proof.old proof.new }
{
    let node = push(
        proof,
        Node {
            form: Form::Define,
            ctx: 0,
            subject: 0,
            claim: 0,
            first: body.node,
            second: 0,
            third: 0,
        },
    )?;
    Ok(node)
}
