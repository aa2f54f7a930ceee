// Nodes that compare terms, from what their premises say.

ghost use Rattle.std.specs.Prelude.{◌≡◌, ◌<◌, length, IfOk, Some, true};
ghost use Rattle.pts_terms.specs.Tree.{app, lam, pi, same_term};
ghost use Rattle.pts_ctx.specs.System.{Specification};
ghost use Rattle.pts_ctx.specs.Front.{bare_front};
ghost use Rattle.pts_record.specs.Table.{named_at, bare_at};
ghost use Rattle.pts_record.specs.Said.{named_told, scope_of, is_context};
ghost use Rattle.pts_rules.specs.Step.{head_step};
ghost use Rattle.pts_rules.specs.Valid.{IsValid};
ghost use Rattle.pts_grow.specs.Keeps.{Keeps, StaysValid, Compares, IsBareOf};

use crate::Compared;
use crate::nodes::push;
use pts_ctx::Context;
use pts_record::{Form, Node, Record};
use std::alloc::AllocError;

/// The context with one bare entry more.
#[tactic(auto, using(crate::proofs::Grow::keeping, crate::proofs::Instances::new_bare, crate::proofs::Instances::bare_ok))]
pub fn add_bare(proof: &mut Record, ctx: usize) -> Result<usize, AllocError>
    requires ctx { ctx < length proof.old.nodes }
    requires context { is_context (named_told proof.old ctx) ≡ true }
    ensures bare { IfOk result (λ n. IsBareOf proof.new ctx n) }
    ensures shapes { proof.new.shapes ≡ proof.old.shapes }
    ensures keeps { Keeps proof.old proof.new }
    ensures valid { StaysValid proof.old proof.new }
{
    let node = push(
        proof,
        Node {
            form: Form::Bare,
            ctx,
            subject: 0,
            claim: 0,
            first: 0,
            second: 0,
            third: 0,
        },
    )?;
    Ok(node)
}

/// Compares two terms that are equal apart from printed names.
#[tactic(auto, using(crate::proofs::Grow::keeping, crate::proofs::Instances::new_compares, crate::proofs::Instances::same_ok))]
pub fn add_same(
    proof: &mut Record,
    ctx: usize,
    left: usize,
    right: usize,
) -> Result<Compared, AllocError>
    requires ctx { ctx < length proof.old.nodes }
    requires context { is_context (named_told proof.old ctx) ≡ true }
    requires left { left < length proof.old.shapes }
    requires right { right < length proof.old.shapes }
    requires same { same_term (bare_at proof.old.shapes left) (bare_at proof.old.shapes right) ≡ true }
    ensures pair { IfOk result (λ p. (p.left ≡ left) × (p.right ≡ right)) }
    ensures compares { IfOk result (λ p. Compares proof.new ctx p) }
    ensures shapes { proof.new.shapes ≡ proof.old.shapes }
    ensures keeps { Keeps proof.old proof.new }
    ensures valid { StaysValid proof.old proof.new }
{
    let node = push(
        proof,
        Node {
            form: Form::Same,
            ctx,
            subject: left,
            claim: right,
            first: 0,
            second: 0,
            third: 0,
        },
    )?;
    Ok(Compared { left, right, node })
}

/// Compares a term whose head step is the left one of two compared terms with the right one.
#[tactic(auto, using(crate::proofs::Grow::keeping, crate::proofs::Instances::new_compares, crate::proofs::Instances::left_ok))]
pub fn add_left(
    front: &Context,
    proof: &mut Record,
    ctx: usize,
    left: usize,
    next: Compared,
) -> Result<Compared, AllocError>
    requires ctx { ctx < length proof.old.nodes }
    requires context { is_context (named_told proof.old ctx) ≡ true }
    requires left { left < length proof.old.shapes }
    requires next { Compares proof.old ctx next }
    requires step { head_step front.now.entries (scope_of (named_told proof.old ctx)).entries (named_at proof.old.shapes left) ≡ Some (named_at proof.old.shapes next.left) }
    ensures pair { IfOk result (λ p. (p.left ≡ left) × (p.right ≡ next.right)) }
    ensures compares { IfOk result (λ p. Compares proof.new ctx p) }
    ensures shapes { proof.new.shapes ≡ proof.old.shapes }
    ensures keeps { Keeps proof.old proof.new }
    ensures valid { (S : Specification) → IsValid S (bare_front front.now.entries) proof.old → IsValid S (bare_front front.now.entries) proof.new }
{
    let _ = front.len();
    let right = next.right;
    let node = push(
        proof,
        Node {
            form: Form::Left,
            ctx,
            subject: left,
            claim: right,
            first: next.node,
            second: 0,
            third: 0,
        },
    )?;
    Ok(Compared { left, right, node })
}

/// Compares the left one of two compared terms with a term whose head step is the right one.
#[tactic(auto, using(crate::proofs::Grow::keeping, crate::proofs::Instances::new_compares, crate::proofs::Instances::right_ok))]
pub fn add_right(
    front: &Context,
    proof: &mut Record,
    ctx: usize,
    right: usize,
    next: Compared,
) -> Result<Compared, AllocError>
    requires ctx { ctx < length proof.old.nodes }
    requires context { is_context (named_told proof.old ctx) ≡ true }
    requires right { right < length proof.old.shapes }
    requires next { Compares proof.old ctx next }
    requires step { head_step front.now.entries (scope_of (named_told proof.old ctx)).entries (named_at proof.old.shapes right) ≡ Some (named_at proof.old.shapes next.right) }
    ensures pair { IfOk result (λ p. (p.left ≡ next.left) × (p.right ≡ right)) }
    ensures compares { IfOk result (λ p. Compares proof.new ctx p) }
    ensures shapes { proof.new.shapes ≡ proof.old.shapes }
    ensures keeps { Keeps proof.old proof.new }
    ensures valid { (S : Specification) → IsValid S (bare_front front.now.entries) proof.old → IsValid S (bare_front front.now.entries) proof.new }
{
    let _ = front.len();
    let left = next.left;
    let node = push(
        proof,
        Node {
            form: Form::Right,
            ctx,
            subject: left,
            claim: right,
            first: next.node,
            second: 0,
            third: 0,
        },
    )?;
    Ok(Compared { left, right, node })
}

/// Compares two applications, by their functions and by their arguments.
#[tactic(auto, using(crate::proofs::Grow::keeping, crate::proofs::Instances::new_compares, crate::proofs::Instances::capp_ok))]
pub fn add_capp(
    proof: &mut Record,
    ctx: usize,
    left: usize,
    right: usize,
    functions: Compared,
    arguments: Compared,
) -> Result<Compared, AllocError>
    requires ctx { ctx < length proof.old.nodes }
    requires context { is_context (named_told proof.old ctx) ≡ true }
    requires left { left < length proof.old.shapes }
    requires right { right < length proof.old.shapes }
    requires functions { Compares proof.old ctx functions }
    requires arguments { Compares proof.old ctx arguments }
    requires left_parts { bare_at proof.old.shapes left ≡ app (bare_at proof.old.shapes functions.left) (bare_at proof.old.shapes arguments.left) }
    requires right_parts { bare_at proof.old.shapes right ≡ app (bare_at proof.old.shapes functions.right) (bare_at proof.old.shapes arguments.right) }
    ensures pair { IfOk result (λ p. (p.left ≡ left) × (p.right ≡ right)) }
    ensures compares { IfOk result (λ p. Compares proof.new ctx p) }
    ensures shapes { proof.new.shapes ≡ proof.old.shapes }
    ensures keeps { Keeps proof.old proof.new }
    ensures valid { StaysValid proof.old proof.new }
{
    let node = push(
        proof,
        Node {
            form: Form::CongApp,
            ctx,
            subject: left,
            claim: right,
            first: functions.node,
            second: arguments.node,
            third: 0,
        },
    )?;
    Ok(Compared { left, right, node })
}

/// Compares two abstractions, by their domains, and by their bodies in the context with a bare entry more.
#[tactic(auto, using(crate::proofs::Grow::keeping, crate::proofs::Instances::new_compares, crate::proofs::Instances::clam_ok))]
pub fn add_clam(
    proof: &mut Record,
    ctx: usize,
    left: usize,
    right: usize,
    domains: Compared,
    inner: usize,
    bodies: Compared,
) -> Result<Compared, AllocError>
    requires ctx { ctx < length proof.old.nodes }
    requires context { is_context (named_told proof.old ctx) ≡ true }
    requires left { left < length proof.old.shapes }
    requires right { right < length proof.old.shapes }
    requires domains { Compares proof.old ctx domains }
    requires inner { IsBareOf proof.old ctx inner }
    requires bodies { Compares proof.old inner bodies }
    requires left_parts { bare_at proof.old.shapes left ≡ lam (bare_at proof.old.shapes domains.left) (bare_at proof.old.shapes bodies.left) }
    requires right_parts { bare_at proof.old.shapes right ≡ lam (bare_at proof.old.shapes domains.right) (bare_at proof.old.shapes bodies.right) }
    ensures pair { IfOk result (λ p. (p.left ≡ left) × (p.right ≡ right)) }
    ensures compares { IfOk result (λ p. Compares proof.new ctx p) }
    ensures shapes { proof.new.shapes ≡ proof.old.shapes }
    ensures keeps { Keeps proof.old proof.new }
    ensures valid { StaysValid proof.old proof.new }
{
    let node = push(
        proof,
        Node {
            form: Form::CongLam,
            ctx,
            subject: left,
            claim: right,
            first: domains.node,
            second: bodies.node,
            third: 0,
        },
    )?;
    Ok(Compared { left, right, node })
}

/// Compares two products, by their domains, and by their codomains in the context with a bare entry more.
#[tactic(auto, using(crate::proofs::Grow::keeping, crate::proofs::Instances::new_compares, crate::proofs::Instances::cpi_ok))]
pub fn add_cpi(
    proof: &mut Record,
    ctx: usize,
    left: usize,
    right: usize,
    domains: Compared,
    inner: usize,
    bodies: Compared,
) -> Result<Compared, AllocError>
    requires ctx { ctx < length proof.old.nodes }
    requires context { is_context (named_told proof.old ctx) ≡ true }
    requires left { left < length proof.old.shapes }
    requires right { right < length proof.old.shapes }
    requires domains { Compares proof.old ctx domains }
    requires inner { IsBareOf proof.old ctx inner }
    requires bodies { Compares proof.old inner bodies }
    requires left_parts { bare_at proof.old.shapes left ≡ pi (bare_at proof.old.shapes domains.left) (bare_at proof.old.shapes bodies.left) }
    requires right_parts { bare_at proof.old.shapes right ≡ pi (bare_at proof.old.shapes domains.right) (bare_at proof.old.shapes bodies.right) }
    ensures pair { IfOk result (λ p. (p.left ≡ left) × (p.right ≡ right)) }
    ensures compares { IfOk result (λ p. Compares proof.new ctx p) }
    ensures shapes { proof.new.shapes ≡ proof.old.shapes }
    ensures keeps { Keeps proof.old proof.new }
    ensures valid { StaysValid proof.old proof.new }
{
    let node = push(
        proof,
        Node {
            form: Form::CongPi,
            ctx,
            subject: left,
            claim: right,
            first: domains.node,
            second: bodies.node,
            third: 0,
        },
    )?;
    Ok(Compared { left, right, node })
}
