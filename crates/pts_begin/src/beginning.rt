// The open proof of a statement.

ghost use Rattle.std.specs.Prelude.{[], ◌≡◌, ◌<◌, ℕ, IfErr, IfOk, OnOk, false, length, true};
ghost use Rattle.pts_terms.specs.Limits.{within};
ghost use Rattle.pts_terms.specs.Seen.{named};
ghost use Rattle.pts_ctx.specs.Front.{bare_front};
ghost use Rattle.pts_record.specs.Table.{named_at};
ghost use Rattle.pts_rules.specs.Meter.{left};
ghost use Rattle.pts_rules.specs.Valid.{IsValid};
ghost use Rattle.pts_reduce_cost.specs.Laws.{WithinBudget};
ghost use Rattle.pts_infer_cost.specs.Typing.{comes};
ghost use Rattle.pts_grow.specs.Keeps.{IsTerm, WhyNot};
ghost use Rattle.pts_reduce.specs.Given.{Later};
ghost use Rattle.pts_infer.specs.Given.{IsOpened};
ghost use Rattle.pts_infer.specs.Answered.{OfType, Refused};
ghost use Rattle.pts_theorem.specs.Seen.{theorem_of};
ghost use Rattle.pts_begin.specs.Begun.{begun};

use pts_ctx::{Context, System};
use pts_goals::Proof;
use pts_grow::{TermFault, add_empty, take_in};
use pts_infer::{InferFault, infer_sorted};
use pts_names::Name;
use pts_record::Record;
use pts_rules::Meter;
use pts_terms::Term;
use std::alloc::Global;

// A record with the empty context and a term.
#[derive(Drop)]
struct Opened {
    proof: Record,
    ctx: usize,
    term: usize,
}

// Opens a record for a term.
#[tactic(auto, using(pts_grow::proofs::Grow::keeping, pts_infer::proofs::Conclusions::nothing_faulty))]
fn open(alloc: Global, term: &Term) -> Result<Opened, TermFault>
    ensures opened { IfOk result (λ o. IsOpened o.proof o.ctx) }
    ensures term { IfOk result (λ o. IsTerm o.proof o.term (named term.now)) }
    ensures within { OnOk result (within (named term.now) ≡ true) }
    ensures refused { IfErr result (λ e. WhyNot e (named term.now)) }
{
    let mut proof = Record::new(alloc);
    let ctx = add_empty(&mut proof)?;
    let term = take_in(&mut proof, term)?;
    Ok(Opened { proof, ctx, term })
}

/// The open proof of a theorem with that name and that statement: nothing of it is done. The statement is tested as the type
/// of an assumption is, by inference with the sort test in the empty context, and at the same cost.
///
/// # Errors
///
/// `Deep` for nothing where the statement is beyond the limits. Else `Flaw` and `Deep` are the outcome of inference with the
/// sort test; `Spent` comes exactly where the cost is above what the meter has left, which then is at its limit. `Memory`.
#[tactic(auto, using(pts_reduce::proofs::Paid::later, pts_infer::proofs::Conclusions::large_type))]
pub fn begin(
    alloc: Global,
    system: &System,
    front: &Context,
    name: Name,
    statement: &Term,
    meter: &mut Meter,
) -> Result<Proof, InferFault>
    ensures sorted { OnOk result ((s : ℕ) × WithinBudget (OfType system.now front.now.entries (named statement.now)) (left meter.old) (comes s) (left meter.new)) }
    ensures theorem { IfOk result (λ p. theorem_of p ≡ begun name (named statement.now)) }
    ensures here { IfOk result (λ p. p.is_lent ≡ false) }
    ensures valid { IfOk result (λ p. IsValid system.now (bare_front front.now.entries) p.scratch) }
    ensures refused { IfErr result (λ e. Refused [] (OfType system.now front.now.entries (named statement.now)) e (left meter.old) (left meter.new)) }
    ensures later { Later meter.old meter.new }
{
    match open(alloc, statement) {
        Ok(opened) => begin_in(system, front, name, opened, meter),
        Err(TermFault::TooLarge) => Err(InferFault::Deep),
        Err(TermFault::Memory) => Err(InferFault::Memory),
    }
}

// The same of a statement of a record, within limits.
#[tactic(auto, using(pts_grow::proofs::Grow::keeping, pts_reduce::proofs::Paid::later))]
fn begin_in(
    system: &System,
    front: &Context,
    name: Name,
    opened: Opened,
    meter: &mut Meter,
) -> Result<Proof, InferFault>
    requires opened { IsOpened opened.proof opened.ctx }
    requires term { opened.term < length opened.proof.shapes }
    requires within { within (named_at opened.proof.shapes opened.term) ≡ true }
    ensures sorted { OnOk result ((s : ℕ) × WithinBudget (OfType system.now front.now.entries (named_at opened.proof.shapes opened.term)) (left meter.old) (comes s) (left meter.new)) }
    ensures theorem { IfOk result (λ p. theorem_of p ≡ begun name (named_at opened.proof.shapes opened.term)) }
    ensures here { IfOk result (λ p. p.is_lent ≡ false) }
    ensures valid { IfOk result (λ p. IsValid system.now (bare_front front.now.entries) p.scratch) }
    ensures refused { IfErr result (λ e. Refused [] (OfType system.now front.now.entries (named_at opened.proof.shapes opened.term)) e (left meter.old) (left meter.new)) }
    ensures later { Later meter.old meter.new }
{
    let Opened { proof, ctx, term } = opened;
    let mut proof = proof;
    match infer_sorted(system, front, &mut proof, ctx, &[], term, meter) {
        Ok(sorted) => Ok(Proof::start(name, proof, sorted)?),
        Err(fault) => Err(fault),
    }
}
