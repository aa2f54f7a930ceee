// Reduction to weak head normal form, and the nodes that compare along it.

ghost use Rattle.std.specs.Prelude.{◌≡◌, ◌<◌, length, IfOk, true};
ghost use Rattle.pts_ctx.specs.System.{Specification};
ghost use Rattle.pts_ctx.specs.Front.{bare_front};
ghost use Rattle.pts_record.specs.Table.{named_at};
ghost use Rattle.pts_record.specs.Said.{named_told, is_context};
ghost use Rattle.pts_rules.specs.Meter.{left as units};
ghost use Rattle.pts_rules.specs.Valid.{IsValid};
ghost use Rattle.pts_reduce_cost.specs.Work.{reduced};
ghost use Rattle.pts_grow.specs.Keeps.{Keeps, StaysValid, Compares};
ghost use Rattle.pts_reduce.specs.Given.{Gives, Later};
ghost use Rattle.pts_reduce.specs.Chain.{IsChain, first_of, entries_of};

use crate::fault::Fault;
use crate::step::step;
use pts_ctx::Context;
use pts_grow::{Compared, add_left, add_right};
use pts_record::Record;
use pts_rules::Meter;
use std::alloc::AllocError;

/// The terms that steps were made from, and the form that was reached.
#[derive(Drop)]
pub(crate) struct Chain {
    pub steps: Vec<usize>,
    pub form: usize,
}

/// Head steps until none is left.
#[tactic(auto, using(pts_grow::proofs::Grow::keeping, crate::proofs::Paid::later, crate::proofs::Walks::endings))]
pub(crate) fn reduce(
    front: &Context,
    proof: &mut Record,
    ctx: usize,
    term: usize,
    meter: &mut Meter,
) -> Result<Chain, Fault>
    requires ctx { ctx < length proof.old.nodes }
    requires term { term < length proof.old.shapes }
    ensures runs { Gives (λ c. named_at proof.new.shapes c.form) result (units meter.new) (reduced front.now.entries (entries_of proof.old ctx) (units meter.old) (named_at proof.old.shapes term)) }
    ensures chain { IfOk result (λ c. IsChain front.now.entries (entries_of proof.old ctx) proof.new.shapes term c.steps.items c.form) }
    ensures keeps { Keeps proof.old proof.new }
    ensures valid { StaysValid proof.old proof.new }
    ensures nodes { proof.new.nodes ≡ proof.old.nodes }
    ensures later { Later meter.old meter.new }
{
    let mut steps = Vec::new(proof.alloc());
    let mut form = term;
    'walk: while let Some(next) = step(front, proof, ctx, form, meter)? {
        steps.push(form)?;
        form = next;
    }
    Ok(Chain { steps, form })
}

/// Compares the first term of a chain with what its form is compared with.
#[tactic(auto, using(pts_grow::proofs::Grow::keeping, crate::proofs::Walks::joins))]
pub(crate) fn join_left(
    front: &Context,
    proof: &mut Record,
    ctx: usize,
    chain: &Chain,
    next: Compared,
) -> Result<Compared, AllocError>
    requires ctx { ctx < length proof.old.nodes }
    requires context { is_context (named_told proof.old ctx) ≡ true }
    requires chain { IsChain front.now.entries (entries_of proof.old ctx) proof.old.shapes (first_of chain.now.steps.items chain.now.form) chain.now.steps.items chain.now.form }
    requires next { Compares proof.old ctx next }
    requires form { next.left ≡ chain.now.form }
    ensures pair { IfOk result (λ p. (p.left ≡ first_of chain.now.steps.items chain.now.form) × (p.right ≡ next.right)) }
    ensures compares { IfOk result (λ p. Compares proof.new ctx p) }
    ensures shapes { proof.new.shapes ≡ proof.old.shapes }
    ensures keeps { Keeps proof.old proof.new }
    ensures valid { (S : Specification) → IsValid S (bare_front front.now.entries) proof.old → IsValid S (bare_front front.now.entries) proof.new }
{
    let mut at = chain.steps.len();
    let mut joined = next;
    'join: while at > 0 {
        at -= 1;
        joined = add_left(front, proof, ctx, chain.steps[at], joined)?;
    }
    Ok(joined)
}

/// Compares what the form of a chain is compared with with the chain's first term.
#[tactic(auto, using(pts_grow::proofs::Grow::keeping, crate::proofs::Walks::joins))]
pub(crate) fn join_right(
    front: &Context,
    proof: &mut Record,
    ctx: usize,
    chain: &Chain,
    next: Compared,
) -> Result<Compared, AllocError>
    requires ctx { ctx < length proof.old.nodes }
    requires context { is_context (named_told proof.old ctx) ≡ true }
    requires chain { IsChain front.now.entries (entries_of proof.old ctx) proof.old.shapes (first_of chain.now.steps.items chain.now.form) chain.now.steps.items chain.now.form }
    requires next { Compares proof.old ctx next }
    requires form { next.right ≡ chain.now.form }
    ensures pair { IfOk result (λ p. (p.left ≡ next.left) × (p.right ≡ first_of chain.now.steps.items chain.now.form)) }
    ensures compares { IfOk result (λ p. Compares proof.new ctx p) }
    ensures shapes { proof.new.shapes ≡ proof.old.shapes }
    ensures keeps { Keeps proof.old proof.new }
    ensures valid { (S : Specification) → IsValid S (bare_front front.now.entries) proof.old → IsValid S (bare_front front.now.entries) proof.new }
{
    let mut at = chain.steps.len();
    let mut joined = next;
    'join: while at > 0 {
        at -= 1;
        joined = add_right(front, proof, ctx, chain.steps[at], joined)?;
    }
    Ok(joined)
}
