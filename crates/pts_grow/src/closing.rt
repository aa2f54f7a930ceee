// Records that end with a judgement, which is then what they conclude.

ghost use Rattle.std.specs.Prelude.{◌≡◌, ◌<◌, length, suc, IfOk};
ghost use Rattle.pts_grow.specs.Keeps.{Keeps, StaysValid};
ghost use Rattle.pts_grow.specs.Judges.{IsTypedContext, Judges};

use crate::Judged;
use pts_record::{Form, Node, Record};
use std::alloc::AllocError;

/// The number of the last node, which then judges what the given node judges.
///
/// # Errors
///
/// Only that memory runs out.
#[tactic(auto, using(crate::proofs::Grow::keeping))]
pub fn close(proof: &mut Record, ctx: usize, judged: Judged) -> Result<usize, AllocError>
    requires ctx { ctx < length proof.old.nodes }
    requires typed { IsTypedContext proof.old ctx }
    requires judged { Judges proof.old ctx judged }
    ensures last { IfOk result (λ n. suc n ≡ length proof.new.nodes) }
    ensures judges { IfOk result (λ n. Judges proof.new ctx (record { subject = judged.subject; claim = judged.claim; node = n })) }
    ensures keeps { Keeps proof.old proof.new }
    ensures valid { StaysValid proof.old proof.new }
{
    if proof.nodes() - judged.node == 1 {
        return Ok(judged.node);
    }
    repeat(proof, ctx, judged)
}

// A judgement again, as the last node.
#[tactic(auto, using(crate::proofs::Grow::pushed, crate::proofs::Judgements::new_judges, crate::proofs::Last::last_node))]
fn repeat(proof: &mut Record, ctx: usize, judged: Judged) -> Result<usize, AllocError>
    requires ctx { ctx < length proof.old.nodes }
    requires typed { IsTypedContext proof.old ctx }
    requires judged { Judges proof.old ctx judged }
    ensures last { IfOk result (λ n. suc n ≡ length proof.new.nodes) }
    ensures judges { IfOk result (λ n. Judges proof.new ctx (record { subject = judged.subject; claim = judged.claim; node = n })) }
    ensures keeps { Keeps proof.old proof.new }
    ensures valid { StaysValid proof.old proof.new }
{
    let _ = proof.node(ctx);
    let node = Node {
        form: Form::Thin,
        ctx,
        subject: judged.subject,
        claim: judged.claim,
        first: judged.node,
        second: 0,
        third: 0,
    };
    match proof.add_node(node) {
        Ok(number) => Ok(number),
        Err(_) => Err(AllocError),
    }
}
