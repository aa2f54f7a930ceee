// The public calls: inference, the sort test and the fit of judgements.

ghost use Rattle.std.specs.Prelude.{◌≡◌, ◌<◌, ℕ, length, IfOk, IfErr, is_some, true, Some};
ghost use Rattle.pts_terms.specs.Tree.{Named, named_pi, sort as sort_term};
ghost use Rattle.pts_ctx.specs.Front.{bare_front};
ghost use Rattle.pts_record.specs.Table.{named_at};
ghost use Rattle.pts_record.specs.Said.{named_told, judgement, scope_of, is_judgement, place_of, subject_of, claim_of};
ghost use Rattle.pts_rules.specs.Meter.{left};
ghost use Rattle.pts_rules.specs.Valid.{IsValid};
ghost use Rattle.pts_reduce_cost.specs.Laws.{WithinBudget};
ghost use Rattle.pts_infer_cost.specs.Typing.{Infers, Sorts, SortTest, Fits, as_product, comes, inference_nesting};
ghost use Rattle.pts_grow.specs.Keeps.{Keeps, IsNode};
ghost use Rattle.pts_grow.specs.Judges.{IsProduct, IsProductNode, IsTypedContext};
ghost use Rattle.pts_reduce.specs.Given.{Later};
ghost use Rattle.pts_reduce.specs.Chain.{entries_of};
ghost use Rattle.pts_infer.specs.Answered.{Refused, Unfit};

use crate::answer::{FitFault, InferFault, ProductParts};
use crate::lent::{fit_in, infer_in, product_in, sort_test_in, sorted_in};
use crate::show::{show_fault, show_misfit};
use crate::work::Binder;
use pts_ctx::{Context, System};
use pts_grow::judged_at;
use pts_names::Name;
use pts_record::{Record, Shape};
use pts_rules::Meter;
use std::alloc::AllocError;

// How deep inferences may be nested.
pub(crate) const NESTING: u32 = 4000;

/// The judgement of a term in a context, at the cost of inference: a unit for each rule, and those of reduction and of
/// the conversion test. The names stand for the entries of the context, the outermost first; flaws tell them.
///
/// # Errors
///
/// `Flaw` and `Deep` are the outcome of inference. `Spent` comes exactly where the cost is above what the meter has
/// left; the meter then stands at its limit. `Memory`. After each of them the record has what it had, and is valid if it
/// was.
#[tactic(auto, using(pts_grow::proofs::Grow::keeping, pts_reduce::proofs::Paid::later, crate::proofs::Refusals::inferences))]
pub fn infer(
    system: &System,
    front: &Context,
    proof: &mut Record,
    ctx: usize,
    names: &[Name],
    term: usize,
    meter: &mut Meter,
) -> Result<usize, InferFault>
    requires ctx { ctx < length proof.old.nodes }
    requires typed { IsTypedContext proof.old ctx }
    requires term { term < length proof.old.shapes }
    ensures judged { IfOk result (λ n. (T : Named) × WithinBudget (Infers system.now front.now.entries inference_nesting (entries_of proof.old ctx) (named_at proof.old.shapes term)) (left meter.old) (comes T) (left meter.new) × IsNode proof.new n (judgement ctx (scope_of (named_told proof.old ctx)) (named_at proof.old.shapes term) T)) }
    ensures refused { IfErr result (λ e. Refused names.now (Infers system.now front.now.entries inference_nesting (entries_of proof.old ctx) (named_at proof.old.shapes term)) e (left meter.old) (left meter.new)) }
    ensures keeps { Keeps proof.old proof.new }
    ensures valid { IsValid system.now (bare_front front.now.entries) proof.old → IsValid system.now (bare_front front.now.entries) proof.new }
    ensures later { Later meter.old meter.new }
{
    match infer_in(system, front, proof, ctx, term, NESTING, meter) {
        Ok(judged) => Ok(judged.node),
        Err(fault) => Err(show_fault(proof, names, fault)),
    }
}

/// The judgement of a term that has a sort as its type, in a context: inference with the sort test, at its cost. The
/// names stand for the entries of the context, the outermost first; flaws show them.
///
/// # Errors
///
/// `Flaw` and `Deep` are the outcome of inference with the sort test. `Spent` comes exactly where the cost is above what
/// the meter has left; the meter then is at its limit. `Memory`. After each of them the record has what it had, and is
/// valid if it was.
#[tactic(auto, using(pts_grow::proofs::Grow::keeping, pts_reduce::proofs::Paid::later, crate::proofs::Refusals::inferences))]
pub fn infer_sorted(
    system: &System,
    front: &Context,
    proof: &mut Record,
    ctx: usize,
    names: &[Name],
    term: usize,
    meter: &mut Meter,
) -> Result<usize, InferFault>
    requires ctx { ctx < length proof.old.nodes }
    requires typed { IsTypedContext proof.old ctx }
    requires term { term < length proof.old.shapes }
    ensures judged { IfOk result (λ n. (s : ℕ) × WithinBudget (Sorts system.now front.now.entries inference_nesting (entries_of proof.old ctx) (named_at proof.old.shapes term)) (left meter.old) (comes s) (left meter.new) × IsNode proof.new n (judgement ctx (scope_of (named_told proof.old ctx)) (named_at proof.old.shapes term) (sort_term s))) }
    ensures refused { IfErr result (λ e. Refused names.now (Sorts system.now front.now.entries inference_nesting (entries_of proof.old ctx) (named_at proof.old.shapes term)) e (left meter.old) (left meter.new)) }
    ensures keeps { Keeps proof.old proof.new }
    ensures valid { IsValid system.now (bare_front front.now.entries) proof.old → IsValid system.now (bare_front front.now.entries) proof.new }
    ensures later { Later meter.old meter.new }
{
    match sorted_in(system, front, proof, ctx, term, NESTING, meter) {
        Ok(sorted) => Ok(sorted.judged.node),
        Err(fault) => Err(show_fault(proof, names, fault)),
    }
}

// The parts of a product.
fn product_at(proof: &Record, term: usize) -> Result<Binder, AllocError>
    requires term { term < length proof.now.shapes }
    requires product { is_some (as_product (named_at proof.now.shapes term)) ≡ true }
    ensures term { IfOk result (λ b. b.term ≡ term) }
    ensures parts { IfOk result (λ b. (b.domain < length proof.now.shapes) × (b.body < length proof.now.shapes)) }
    ensures is { IfOk result (λ b. named_at proof.now.shapes term ≡ named_pi b.name (named_at proof.now.shapes b.domain) (named_at proof.now.shapes b.body)) }
{
    match proof.shape(term) {
        Shape::Pi(x, domain, body) => {
            let name = x.copy()?;
            let (domain, body) = (*domain, *body);
            Ok(Binder {
                term,
                name,
                domain,
                body,
            })
        }
        _ => unreachable!(),
    }
}

/// The judgement of a product in a context, at the cost of inference, and what its node is made of: the judgement of its
/// domain, and that of its body where the domain is assumed. The names stand for the entries of the context, the
/// outermost first; flaws show them.
///
/// # Errors
///
/// As those of `infer`.
#[tactic(auto, using(pts_grow::proofs::Grow::keeping, pts_reduce::proofs::Paid::later, crate::proofs::Refusals::inferences))]
pub fn infer_product(
    system: &System,
    front: &Context,
    proof: &mut Record,
    ctx: usize,
    names: &[Name],
    term: usize,
    meter: &mut Meter,
) -> Result<ProductParts, InferFault>
    requires ctx { ctx < length proof.old.nodes }
    requires typed { IsTypedContext proof.old ctx }
    requires term { term < length proof.old.shapes }
    requires product { is_some (as_product (named_at proof.old.shapes term)) ≡ true }
    ensures judged { IfOk result (λ f. (T : Named) × WithinBudget (Infers system.now front.now.entries inference_nesting (entries_of proof.old ctx) (named_at proof.old.shapes term)) (left meter.old) (comes T) (left meter.new) × IsNode proof.new f.product.node (judgement ctx (scope_of (named_told proof.old ctx)) (named_at proof.old.shapes term) T)) }
    ensures parts { IfOk result (λ f. as_product (named_at proof.old.shapes term) ≡ Some (named_at proof.new.shapes f.domain.subject, named_at proof.new.shapes f.body.subject)) }
    ensures formed { IfOk result (λ f. IsProduct proof.new ctx f.product f.domain f.inner f.body) }
    ensures node { IfOk result (λ f. IsProductNode proof.new f.product.node f.domain.node f.body.node) }
    ensures refused { IfErr result (λ e. Refused names.now (Infers system.now front.now.entries inference_nesting (entries_of proof.old ctx) (named_at proof.old.shapes term)) e (left meter.old) (left meter.new)) }
    ensures keeps { Keeps proof.old proof.new }
    ensures valid { IsValid system.now (bare_front front.now.entries) proof.old → IsValid system.now (bare_front front.now.entries) proof.new }
    ensures later { Later meter.old meter.new }
{
    let binder = product_at(proof, term)?;
    match product_in(system, front, proof, ctx, &binder, meter) {
        Ok(formed) => Ok(formed),
        Err(fault) => Err(show_fault(proof, names, fault)),
    }
}

/// The sort test of the claim of a judgement: a judgement of the same subject whose claim is the sort, at the cost of
/// reducing the claim where it is no sort as it stands.
///
/// # Errors
///
/// `Flaw` says that the claim is no sort, or one without an axiom where it was found by reduction; its place is empty.
/// `Deep` is the outcome too, and `Spent` comes exactly where the cost is above what the meter has left, which then
/// stands at its limit. `Memory`. After each of them the record has what it had, and is valid if it was.
#[tactic(auto, using(pts_grow::proofs::Grow::keeping, pts_reduce::proofs::Paid::later, crate::proofs::Refusals::inferences))]
pub fn sort_test(
    system: &System,
    front: &Context,
    proof: &mut Record,
    names: &[Name],
    node: usize,
    meter: &mut Meter,
) -> Result<usize, InferFault>
    requires node { node < length proof.old.nodes }
    requires judgement { is_judgement (named_told proof.old node) ≡ true }
    requires typed { IsTypedContext proof.old (place_of (named_told proof.old node)) }
    ensures judged { IfOk result (λ n. (s : ℕ) × WithinBudget (SortTest system.now front.now.entries (entries_of proof.old node) (claim_of (named_told proof.old node))) (left meter.old) (comes s) (left meter.new) × IsNode proof.new n (judgement (place_of (named_told proof.old node)) (scope_of (named_told proof.old node)) (subject_of (named_told proof.old node)) (sort_term s))) }
    ensures refused { IfErr result (λ e. Refused names.now (SortTest system.now front.now.entries (entries_of proof.old node) (claim_of (named_told proof.old node))) e (left meter.old) (left meter.new)) }
    ensures keeps { Keeps proof.old proof.new }
    ensures valid { IsValid system.now (bare_front front.now.entries) proof.old → IsValid system.now (bare_front front.now.entries) proof.new }
    ensures later { Later meter.old meter.new }
{
    let (ctx, judged) = judged_at(proof, node);
    match sort_test_in(system, front, proof, ctx, judged, meter) {
        Ok(sorted) => Ok(sorted.judged.node),
        Err(fault) => Err(show_fault(proof, names, fault)),
    }
}

/// The fit of a judgement to a wanted type: a judgement of the same subject with the wanted type, at its cost: a unit,
/// and where the types are not equal the inference of the wanted type with the sort test, and the conversion test.
///
/// # Errors
///
/// `Wanted` is a flaw of the wanted type, and `Judged` says that the types are not convertible. `Deep` is the outcome
/// too, and `Spent` comes exactly where the cost is above what the meter has left, which then stands at its limit.
/// `Memory`. After each of them the record has what it had, and is valid if it was.
#[tactic(auto, using(pts_grow::proofs::Grow::keeping, pts_reduce::proofs::Paid::later, crate::proofs::Refusals::inferences))]
pub fn fit(
    system: &System,
    front: &Context,
    proof: &mut Record,
    names: &[Name],
    node: usize,
    want: usize,
    meter: &mut Meter,
) -> Result<usize, FitFault>
    requires node { node < length proof.old.nodes }
    requires judgement { is_judgement (named_told proof.old node) ≡ true }
    requires typed { IsTypedContext proof.old (place_of (named_told proof.old node)) }
    requires want { want < length proof.old.shapes }
    ensures judged { IfOk result (λ n. WithinBudget (Fits system.now front.now.entries inference_nesting (entries_of proof.old node) (claim_of (named_told proof.old node)) (named_at proof.old.shapes want)) (left meter.old) (comes tt) (left meter.new) × IsNode proof.new n (judgement (place_of (named_told proof.old node)) (scope_of (named_told proof.old node)) (subject_of (named_told proof.old node)) (named_at proof.old.shapes want))) }
    ensures refused { IfErr result (λ e. Unfit names.now (Fits system.now front.now.entries inference_nesting (entries_of proof.old node) (claim_of (named_told proof.old node)) (named_at proof.old.shapes want)) e (left meter.old) (left meter.new)) }
    ensures keeps { Keeps proof.old proof.new }
    ensures valid { IsValid system.now (bare_front front.now.entries) proof.old → IsValid system.now (bare_front front.now.entries) proof.new }
    ensures later { Later meter.old meter.new }
{
    let (ctx, judged) = judged_at(proof, node);
    match fit_in(system, front, proof, ctx, judged, want, NESTING, meter) {
        Ok(fitted) => Ok(fitted.node),
        Err(misfit) => Err(show_misfit(proof, names, misfit)),
    }
}
