// The public calls on terms that are handed in: their types, in records of their own.

ghost use Rattle.std.specs.Prelude.{◌≡◌, ◌<◌, ℕ, length, true, [], Some, None, IfOk, IfErr, OnOk};
ghost use Rattle.pts_terms.specs.Tree.{bare, sort as sort_term};
ghost use Rattle.pts_terms.specs.Limits.{within};
ghost use Rattle.pts_terms.specs.Seen.{named};
ghost use Rattle.pts_ctx.specs.Front.{bare_front};
ghost use Rattle.pts_record.specs.Table.{named_at};
ghost use Rattle.pts_rules.specs.Meter.{left};
ghost use Rattle.pts_rules.specs.Valid.{IsValid, last_said, concludes_as};
ghost use Rattle.pts_reduce_cost.specs.Laws.{WithinBudget};
ghost use Rattle.pts_infer_cost.specs.Typing.{Fits, comes, inference_nesting};
ghost use Rattle.pts_grow.specs.Keeps.{StaysValid, IsTerm, WhyNot};
ghost use Rattle.pts_grow.specs.Judges.{IsTypedContext, Judges};
ghost use Rattle.pts_reduce.specs.Given.{Later};
ghost use Rattle.pts_reduce.specs.Chain.{entries_of};
ghost use Rattle.pts_infer.specs.Given.{IsOpened, IsTooLarge, EitherLarge};
ghost use Rattle.pts_infer.specs.Answered.{Refused, Unfit, OfTerm, OfType, OfFitted};

use crate::answer::{FitFault, InferFault, Typed};
use crate::calls::NESTING;
use crate::judgements::Sorted;
use crate::lent::{fit_in, infer_in, sorted_in};
use crate::show::{show_fault, show_judged, show_misfit};
use pts_ctx::{Context, System};
use pts_grow::{Judged, TermFault, add_empty, close, take_in};
use pts_record::Record;
use pts_rules::Meter;
use pts_terms::Term;
use std::alloc::{AllocError, Global};

// A record with the empty context and a term.
#[derive(Drop)]
pub(crate) struct Opened {
    pub proof: Record,
    pub ctx: usize,
    pub term: usize,
}

// Opens a record for a term.
#[tactic(auto, using(pts_grow::proofs::Grow::keeping, crate::proofs::Conclusions::nothing_faulty))]
fn open(alloc: Global, term: &Term) -> Result<Opened, TermFault>
    ensures opened { IfOk result (λ o. IsOpened o.proof o.ctx) }
    ensures term { IfOk result (λ o. IsTerm o.proof o.term (named term.now)) }
    ensures within { OnOk result (within (named term.now) ≡ true) }
    ensures refused { IfErr result (λ e. WhyNot e (named term.now)) }
{
    let mut proof = Record::new(alloc);
    let ctx = add_empty(&mut proof)?;
    let term = take_in(&mut proof, term)?;
    Ok(Opened { proof, ctx, term })
}

// The record that ends with a judgement, with its claim.
#[tactic(auto, using(pts_grow::proofs::Grow::keeping, crate::proofs::Conclusions::concluded_by))]
fn typed(proof: Record, ctx: usize, judged: Judged) -> Result<Typed, AllocError>
    requires ctx { ctx < length proof.nodes }
    requires typed { IsTypedContext proof ctx }
    requires empty { entries_of proof ctx ≡ [] }
    requires judged { Judges proof ctx judged }
    ensures ty { IfOk result (λ t. named t.ty ≡ named_at proof.shapes judged.claim) }
    ensures concludes { IfOk result (λ t. concludes_as (last_said t.proof) (Some (bare (named_at proof.shapes judged.subject))) (bare (named_at proof.shapes judged.claim)) ≡ true) }
    ensures valid { IfOk result (λ t. StaysValid proof t.proof) }
{
    let mut proof = proof;
    let _node = close(&mut proof, ctx, judged)?;
    let ty = proof.tree(judged.claim)?;
    Ok(Typed { ty, proof })
}

/// The type of a term, and a record that ends with that judgement, in the empty context.
///
/// # Errors
///
/// `Deep` for nothing where the term is beyond the limits. Else `Flaw` and `Deep` are the outcome of inference; `Spent`
/// comes exactly where the cost is above what the meter has left, which then stands at its limit. `Memory`.
#[tactic(auto, using(pts_reduce::proofs::Paid::later, crate::proofs::Conclusions::large_term))]
pub fn infer_term(
    alloc: Global,
    system: &System,
    front: &Context,
    term: &Term,
    meter: &mut Meter,
) -> Result<Typed, InferFault>
    ensures typed { IfOk result (λ t. WithinBudget (OfTerm system.now front.now.entries (named term.now)) (left meter.old) (comes (named t.ty)) (left meter.new)) }
    ensures concludes { IfOk result (λ t. concludes_as (last_said t.proof) (Some (bare (named term.now))) (bare (named t.ty)) ≡ true) }
    ensures valid { IfOk result (λ t. IsValid system.now (bare_front front.now.entries) t.proof) }
    ensures refused { IfErr result (λ e. Refused [] (OfTerm system.now front.now.entries (named term.now)) e (left meter.old) (left meter.new)) }
    ensures later { Later meter.old meter.new }
{
    match open(alloc, term) {
        Ok(opened) => infer_opened(system, front, opened, meter),
        Err(TermFault::TooLarge) => Err(InferFault::Deep),
        Err(TermFault::Memory) => Err(InferFault::Memory),
    }
}

// The same of a term within limits.
#[tactic(auto, using(pts_grow::proofs::Grow::keeping, pts_reduce::proofs::Paid::later, crate::proofs::Conclusions::term_work, crate::proofs::Refusals::refused_as))]
fn infer_opened(
    system: &System,
    front: &Context,
    opened: Opened,
    meter: &mut Meter,
) -> Result<Typed, InferFault>
    requires opened { IsOpened opened.proof opened.ctx }
    requires term { opened.term < length opened.proof.shapes }
    requires within { within (named_at opened.proof.shapes opened.term) ≡ true }
    ensures typed { IfOk result (λ t. WithinBudget (OfTerm system.now front.now.entries (named_at opened.proof.shapes opened.term)) (left meter.old) (comes (named t.ty)) (left meter.new)) }
    ensures concludes { IfOk result (λ t. concludes_as (last_said t.proof) (Some (bare (named_at opened.proof.shapes opened.term))) (bare (named t.ty)) ≡ true) }
    ensures valid { IfOk result (λ t. IsValid system.now (bare_front front.now.entries) t.proof) }
    ensures refused { IfErr result (λ e. Refused [] (OfTerm system.now front.now.entries (named_at opened.proof.shapes opened.term)) e (left meter.old) (left meter.new)) }
    ensures later { Later meter.old meter.new }
{
    let Opened { proof, ctx, term } = opened;
    let mut proof = proof;
    match infer_in(system, front, &mut proof, ctx, term, NESTING, meter) {
        Ok(judged) => Ok(typed(proof, ctx, judged)?),
        Err(fault) => Err(show_fault(&proof, &[], fault)),
    }
}

// The record that ends with a judgement that a type has a sort.
#[tactic(auto, using(pts_grow::proofs::Grow::keeping, crate::proofs::Conclusions::sorted_by))]
fn closed_type(proof: Record, ctx: usize, sorted: Sorted) -> Result<Record, AllocError>
    requires ctx { ctx < length proof.nodes }
    requires typed { IsTypedContext proof ctx }
    requires empty { entries_of proof ctx ≡ [] }
    requires judged { Judges proof ctx sorted.judged }
    requires sort { named_at proof.shapes sorted.judged.claim ≡ sort_term sorted.sort.0 }
    ensures concludes { IfOk result (λ r. concludes_as (last_said r) None (bare (named_at proof.shapes sorted.judged.subject)) ≡ true) }
    ensures valid { IfOk result (λ r. StaysValid proof r) }
{
    let mut proof = proof;
    let _node = close(&mut proof, ctx, sorted.judged)?;
    Ok(proof)
}

/// A record that ends with the judgement that a type has a sort, in the empty context: what an assumption needs.
///
/// # Errors
///
/// `Deep` for nothing where the type is beyond the limits. Else `Flaw` and `Deep` are the outcome of inference with the
/// sort test; `Spent` comes exactly where the cost is above what the meter has left, which then stands at its limit.
/// `Memory`.
#[tactic(auto, using(pts_reduce::proofs::Paid::later, crate::proofs::Conclusions::large_type))]
pub fn infer_type(
    alloc: Global,
    system: &System,
    front: &Context,
    ty: &Term,
    meter: &mut Meter,
) -> Result<Record, InferFault>
    ensures sorted { OnOk result ((s : ℕ) × WithinBudget (OfType system.now front.now.entries (named ty.now)) (left meter.old) (comes s) (left meter.new)) }
    ensures concludes { IfOk result (λ r. concludes_as (last_said r) None (bare (named ty.now)) ≡ true) }
    ensures valid { IfOk result (λ r. IsValid system.now (bare_front front.now.entries) r) }
    ensures refused { IfErr result (λ e. Refused [] (OfType system.now front.now.entries (named ty.now)) e (left meter.old) (left meter.new)) }
    ensures later { Later meter.old meter.new }
{
    match open(alloc, ty) {
        Ok(opened) => sort_opened(system, front, opened, meter),
        Err(TermFault::TooLarge) => Err(InferFault::Deep),
        Err(TermFault::Memory) => Err(InferFault::Memory),
    }
}

// The same of a type within limits.
#[tactic(auto, using(pts_grow::proofs::Grow::keeping, pts_reduce::proofs::Paid::later))]
fn sort_opened(
    system: &System,
    front: &Context,
    opened: Opened,
    meter: &mut Meter,
) -> Result<Record, InferFault>
    requires opened { IsOpened opened.proof opened.ctx }
    requires term { opened.term < length opened.proof.shapes }
    requires within { within (named_at opened.proof.shapes opened.term) ≡ true }
    ensures sorted { OnOk result ((s : ℕ) × WithinBudget (OfType system.now front.now.entries (named_at opened.proof.shapes opened.term)) (left meter.old) (comes s) (left meter.new)) }
    ensures concludes { IfOk result (λ r. concludes_as (last_said r) None (bare (named_at opened.proof.shapes opened.term)) ≡ true) }
    ensures valid { IfOk result (λ r. IsValid system.now (bare_front front.now.entries) r) }
    ensures refused { IfErr result (λ e. Refused [] (OfType system.now front.now.entries (named_at opened.proof.shapes opened.term)) e (left meter.old) (left meter.new)) }
    ensures later { Later meter.old meter.new }
{
    let Opened { proof, ctx, term } = opened;
    let mut proof = proof;
    match sorted_in(system, front, &mut proof, ctx, term, NESTING, meter) {
        Ok(sorted) => Ok(closed_type(proof, ctx, sorted)?),
        Err(fault) => Err(show_fault(&proof, &[], fault)),
    }
}

/// A record that ends with the judgement that a term has the given type, in the empty context: what a definition with a
/// type needs.
///
/// # Errors
///
/// `Deep` for nothing where the term or the type is beyond the limits. Else `Judged` is a flaw of the term or of the
/// fit, and `Wanted` one of the given type; `Deep` is the outcome too, and `Spent` comes exactly where the cost is above
/// what the meter has left, which then stands at its limit. `Memory`.
#[tactic(auto, using(pts_reduce::proofs::Paid::later, crate::proofs::Conclusions::large_fit))]
pub fn infer_fitted(
    alloc: Global,
    system: &System,
    front: &Context,
    term: &Term,
    ty: &Term,
    meter: &mut Meter,
) -> Result<Record, FitFault>
    ensures fitted { OnOk result (WithinBudget (OfFitted system.now front.now.entries (named term.now) (named ty.now)) (left meter.old) (comes tt) (left meter.new)) }
    ensures concludes { IfOk result (λ r. concludes_as (last_said r) (Some (bare (named term.now))) (bare (named ty.now)) ≡ true) }
    ensures valid { IfOk result (λ r. IsValid system.now (bare_front front.now.entries) r) }
    ensures refused { IfErr result (λ e. Unfit [] (OfFitted system.now front.now.entries (named term.now) (named ty.now)) e (left meter.old) (left meter.new)) }
    ensures later { Later meter.old meter.new }
{
    match open_both(alloc, term, ty) {
        Ok((opened, want)) => infer_both(system, front, opened, want, meter),
        Err(TermFault::TooLarge) => Err(FitFault::Deep),
        Err(TermFault::Memory) => Err(FitFault::Memory),
    }
}

// Opens a record for a term and a type.
#[tactic(auto, using(pts_grow::proofs::Grow::keeping, crate::proofs::Conclusions::still_opened))]
fn open_both(alloc: Global, term: &Term, ty: &Term) -> Result<(Opened, usize), TermFault>
    ensures opened { IfOk result (λ p. IsOpened p.0.proof p.0.ctx) }
    ensures term { IfOk result (λ p. IsTerm p.0.proof p.0.term (named term.now)) }
    ensures ty { IfOk result (λ p. IsTerm p.0.proof p.1 (named ty.now)) }
    ensures within { OnOk result ((within (named term.now) ≡ true) × (within (named ty.now) ≡ true)) }
    ensures refused { IfErr result (λ e. IsTooLarge e → EitherLarge (named term.now) (named ty.now)) }
{
    let Opened { proof, ctx, term } = open(alloc, term)?;
    let mut proof = proof;
    let ty = take_in(&mut proof, ty)?;
    Ok((Opened { proof, ctx, term }, ty))
}

// The inference of a term within limits, and its fit.
#[tactic(auto, using(pts_grow::proofs::Grow::keeping, pts_grow::proofs::Judgements::still, pts_reduce::proofs::Paid::later))]
fn infer_both(
    system: &System,
    front: &Context,
    opened: Opened,
    want: usize,
    meter: &mut Meter,
) -> Result<Record, FitFault>
    requires opened { IsOpened opened.proof opened.ctx }
    requires term { opened.term < length opened.proof.shapes }
    requires want { want < length opened.proof.shapes }
    requires within { within (named_at opened.proof.shapes opened.term) ≡ true }
    requires fits { within (named_at opened.proof.shapes want) ≡ true }
    ensures fitted { OnOk result (WithinBudget (OfFitted system.now front.now.entries (named_at opened.proof.shapes opened.term) (named_at opened.proof.shapes want)) (left meter.old) (comes tt) (left meter.new)) }
    ensures concludes { IfOk result (λ r. concludes_as (last_said r) (Some (bare (named_at opened.proof.shapes opened.term))) (bare (named_at opened.proof.shapes want)) ≡ true) }
    ensures valid { IfOk result (λ r. IsValid system.now (bare_front front.now.entries) r) }
    ensures refused { IfErr result (λ e. Unfit [] (OfFitted system.now front.now.entries (named_at opened.proof.shapes opened.term) (named_at opened.proof.shapes want)) e (left meter.old) (left meter.new)) }
    ensures later { Later meter.old meter.new }
{
    let Opened { proof, ctx, term } = opened;
    let mut proof = proof;
    match infer_in(system, front, &mut proof, ctx, term, NESTING, meter) {
        Ok(judged) => fit_judged(system, front, proof, ctx, judged, want, meter),
        Err(fault) => Err(show_judged(&proof, &[], fault)),
    }
}

// The fit of a judgement to a type.
#[tactic(auto, using(pts_grow::proofs::Grow::keeping, pts_reduce::proofs::Paid::later))]
fn fit_judged(
    system: &System,
    front: &Context,
    proof: Record,
    ctx: usize,
    judged: Judged,
    want: usize,
    meter: &mut Meter,
) -> Result<Record, FitFault>
    requires ctx { ctx < length proof.nodes }
    requires typed { IsTypedContext proof ctx }
    requires empty { entries_of proof ctx ≡ [] }
    requires judged { Judges proof ctx judged }
    requires want { want < length proof.shapes }
    ensures fitted { OnOk result (WithinBudget (Fits system.now front.now.entries inference_nesting [] (named_at proof.shapes judged.claim) (named_at proof.shapes want)) (left meter.old) (comes tt) (left meter.new)) }
    ensures concludes { IfOk result (λ r. concludes_as (last_said r) (Some (bare (named_at proof.shapes judged.subject))) (bare (named_at proof.shapes want)) ≡ true) }
    ensures valid { IsValid system.now (bare_front front.now.entries) proof → IfOk result (λ r. IsValid system.now (bare_front front.now.entries) r) }
    ensures refused { IfErr result (λ e. Unfit [] (Fits system.now front.now.entries inference_nesting [] (named_at proof.shapes judged.claim) (named_at proof.shapes want)) e (left meter.old) (left meter.new)) }
    ensures later { Later meter.old meter.new }
{
    let mut proof = proof;
    match fit_in(system, front, &mut proof, ctx, judged, want, NESTING, meter) {
        Ok(fitted) => {
            let Typed { proof, .. } = typed(proof, ctx, fitted)?;
            Ok(proof)
        }
        Err(misfit) => Err(show_misfit(&proof, &[], misfit)),
    }
}
