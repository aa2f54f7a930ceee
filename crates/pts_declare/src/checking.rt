// What is stated is inferred.

ghost use Rattle.std.specs.Prelude.{◌≡◌, true, Some, None, IfOk, IfErr};
ghost use Rattle.std.specs.Option.{option_map};
ghost use Rattle.pts_terms.specs.Limits.{within};
ghost use Rattle.pts_terms.specs.Seen.{named};
ghost use Rattle.pts_ctx.specs.Front.{Fresh, bare_global};
ghost use Rattle.pts_ctx.specs.Seen.{global_within};
ghost use Rattle.pts_rules.specs.Meter.{left};
ghost use Rattle.pts_rules.specs.Valid.{concludes};
ghost use Rattle.pts_reduce_cost.specs.Laws.{WithinBudget};
ghost use Rattle.pts_infer_cost.specs.Typing.{comes};
ghost use Rattle.pts_check.specs.Entered.{declared, MayEnter};
ghost use Rattle.pts_reduce.specs.Given.{Later};
ghost use Rattle.pts_declare.specs.Stated.{assumption, definition, typed_definition, stated_of, deep_part};
ghost use Rattle.pts_declare.specs.Checking.{Checks, entry};
ghost use Rattle.pts_declare.specs.Refusals.{NotDeclared, infer_fault, fit_fault};

use crate::fault::DeclareFault;
use crate::stated::Stated;
use pts_check::concluded_limits;
use pts_ctx::{Context, System};
use pts_infer::{FitFault, InferFault, Part, Typed, infer_fitted, infer_term, infer_type};
use pts_names::Name;
use pts_record::{Declaration, Record};
use pts_rules::Meter;
use pts_terms::Term;
use std::alloc::Global;

/// The declaration of what is stated of a name that is free. An assumption's type is inferred with the sort test, a
/// definition's body is inferred, and a given type is inferred and the body fitted to it.
///
/// # Errors
///
/// `Infer` with the part in which inference stops, and its fault at its cost, a term that is itself beyond the limits
/// costing nothing. `Spent` is shown of the body, or of the type of an assumption; `Deep` likewise, but of a given type that is
/// itself beyond the limits where the body is not. After `Spent` the meter stands at its limit. `Memory`.
pub fn check(
    alloc: Global,
    system: &System,
    front: &Context,
    name: Name,
    stated: Stated,
    meter: &mut Meter,
) -> Result<Declaration, DeclareFault>
    requires fresh { Fresh name front.now.entries }
    ensures declared { IfOk result (λ d. WithinBudget (Checks system.now front.now.entries name (stated_of stated)) (left meter.old) (comes (declared d)) (left meter.new)) }
    ensures refused { IfErr result (λ e. NotDeclared system.now front.now.entries name (stated_of stated) e (left meter.old) (left meter.new)) }
    ensures evidence { IfOk result (λ d. MayEnter system.now front.now.entries d) }
    ensures later { Later meter.old meter.new }
{
    match stated {
        Stated::Assumption(ty) => check_type(alloc, system, front, name, ty, meter),
        Stated::Definition(body) => check_body(alloc, system, front, name, body, meter),
        Stated::Typed(ty, body) => check_fit(alloc, system, front, name, ty, body, meter),
    }
}

// An assumption.
#[tactic(auto, using(crate::proofs::Inferred::type_within, crate::proofs::Inferred::type_refused))]
fn check_type(
    alloc: Global,
    system: &System,
    front: &Context,
    name: Name,
    ty: Term,
    meter: &mut Meter,
) -> Result<Declaration, DeclareFault>
    requires fresh { Fresh name front.now.entries }
    ensures declared { IfOk result (λ d. WithinBudget (Checks system.now front.now.entries name (assumption (named ty))) (left meter.old) (comes (declared d)) (left meter.new)) }
    ensures refused { IfErr result (λ e. NotDeclared system.now front.now.entries name (assumption (named ty)) e (left meter.old) (left meter.new)) }
    ensures evidence { IfOk result (λ d. MayEnter system.now front.now.entries d) }
    ensures later { Later meter.old meter.new }
{
    match infer_type(alloc, system, front, &ty, meter) {
        Ok(proof) => Ok(finished(name, None, ty, proof)),
        Err(fault) => Err(infer_fault(Part::Ty, fault)),
    }
}

// A definition without a given type.
#[tactic(auto, using(crate::proofs::Inferred::body_within, crate::proofs::Inferred::body_refused))]
fn check_body(
    alloc: Global,
    system: &System,
    front: &Context,
    name: Name,
    body: Term,
    meter: &mut Meter,
) -> Result<Declaration, DeclareFault>
    requires fresh { Fresh name front.now.entries }
    ensures declared { IfOk result (λ d. WithinBudget (Checks system.now front.now.entries name (definition (named body))) (left meter.old) (comes (declared d)) (left meter.new)) }
    ensures refused { IfErr result (λ e. NotDeclared system.now front.now.entries name (definition (named body)) e (left meter.old) (left meter.new)) }
    ensures evidence { IfOk result (λ d. MayEnter system.now front.now.entries d) }
    ensures later { Later meter.old meter.new }
{
    match infer_term(alloc, system, front, &body, meter) {
        Ok(typed) => {
            let Typed { ty, proof } = typed;
            Ok(finished(name, Some(body), ty, proof))
        }
        Err(fault) => Err(infer_fault(Part::Whole, fault)),
    }
}

// A definition with a given type.
#[tactic(auto, using(crate::proofs::Inferred::fit_within, crate::proofs::Inferred::fit_refused))]
fn check_fit(
    alloc: Global,
    system: &System,
    front: &Context,
    name: Name,
    ty: Term,
    body: Term,
    meter: &mut Meter,
) -> Result<Declaration, DeclareFault>
    requires fresh { Fresh name front.now.entries }
    ensures declared { IfOk result (λ d. WithinBudget (Checks system.now front.now.entries name (typed_definition (named ty) (named body))) (left meter.old) (comes (declared d)) (left meter.new)) }
    ensures refused { IfErr result (λ e. NotDeclared system.now front.now.entries name (typed_definition (named ty) (named body)) e (left meter.old) (left meter.new)) }
    ensures evidence { IfOk result (λ d. MayEnter system.now front.now.entries d) }
    ensures later { Later meter.old meter.new }
{
    match infer_fitted(alloc, system, front, &body, &ty, meter) {
        Ok(proof) => Ok(finished(name, Some(body), ty, proof)),
        Err(fault) => Err(fit_fault(fault, &ty, &body)),
    }
}

// The declaration that its record concludes. The record grows no further.
fn finished(name: Name, body: Option<Term>, ty: Term, proof: Record) -> Declaration
    requires { concludes proof (bare_global (entry name (option_map named body) (named ty))) ≡ true }
    ensures entry { declared result ≡ entry name (option_map named body) (named ty) }
    ensures proof { result.proof ≡ proof }
    ensures within { global_within (declared result) ≡ true }
{
    let mut proof = proof;
    proof.trim();
    let declaration = Declaration {
        name,
        body,
        ty,
        proof,
    };
    concluded_limits(&declaration);
    declaration
}

// A fault of the inference of a part.
fn infer_fault(part: Part, fault: InferFault) -> DeclareFault
    ensures { result ≡ infer_fault part fault }
{
    match fault {
        InferFault::Memory => DeclareFault::Memory,
        fault => DeclareFault::Infer(part, fault),
    }
}

// A fault of the fit of a body to its type, with the part in which it is.
fn fit_fault(fault: FitFault, ty: &Term, body: &Term) -> DeclareFault
    ensures { result ≡ fit_fault (named ty.now) (named body.now) fault }
{
    match fault {
        FitFault::Wanted(flaw) => DeclareFault::Infer(Part::Ty, InferFault::Flaw(flaw)),
        FitFault::Judged(flaw) => DeclareFault::Infer(Part::Whole, InferFault::Flaw(flaw)),
        FitFault::Spent => DeclareFault::Infer(Part::Whole, InferFault::Spent),
        FitFault::Deep => DeclareFault::Infer(deep_part(ty, body), InferFault::Deep),
        FitFault::Memory => DeclareFault::Memory,
    }
}

// The part of a definition with a given type that is said to be beyond the limits.
fn deep_part(ty: &Term, body: &Term) -> Part
    ensures { result ≡ deep_part (typed_definition (named ty.now) (named body.now)) }
{
    if is_within(body) && !is_within(ty) {
        Part::Ty
    } else {
        Part::Whole
    }
}

fn is_within(term: &Term) -> bool
    ensures { result ≡ within (named term.now) }
{
    term.depth() <= 2000 && term.size() <= 1_000_000
}
