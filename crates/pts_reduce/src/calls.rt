// The public calls: the weak head normal form of a term, and the conversion test of two.

ghost use Rattle.std.specs.Prelude.{◌≡◌, ◌<◌, length, IfOk, IfErr, true};
ghost use Rattle.pts_ctx.specs.System.{Specification};
ghost use Rattle.pts_ctx.specs.Front.{bare_front};
ghost use Rattle.pts_record.specs.Table.{named_at};
ghost use Rattle.pts_record.specs.Said.{named_told, is_context};
ghost use Rattle.pts_rules.specs.Meter.{left as units};
ghost use Rattle.pts_rules.specs.Valid.{IsValid};
ghost use Rattle.pts_reduce_cost.specs.Costs.{Reduces, form, too_large, Tests, beyond, nesting};
ghost use Rattle.pts_reduce_cost.specs.Laws.{WithinBudget};
ghost use Rattle.pts_grow.specs.Keeps.{Keeps, Compares};
ghost use Rattle.pts_reduce.specs.Given.{Later};
ghost use Rattle.pts_reduce.specs.Chain.{entries_of};
ghost use Rattle.pts_reduce.specs.Answered.{Refused, Answered};

use crate::ReduceFault;
use crate::answer::{Conversion, Whnf};
use crate::chain::{join_left, join_right, reduce};
use crate::fault::{Fault, FoundDifference};
use crate::testing::convert_in;
use pts_ctx::Context;
use pts_grow::add_same;
use pts_names::List;
use pts_record::Record;
use pts_rules::Meter;

/// The weak head normal form of a term, in a front and a context, for one unit a head step.
///
/// # Errors
///
/// `Spent` exactly where the cost is above what the meter has left; the meter then stands at its limit. `Deep` where a
/// step makes a term beyond the limits. `Memory`. After each of them the record has what it had, and is valid if it was.
#[tactic(auto, using(pts_grow::proofs::Grow::keeping, crate::proofs::Paid::later, pts_reduce_cost::proofs::Exact::reductions_exact, pts_record::proofs::Compared::same_number))]
pub fn whnf(
    front: &Context,
    proof: &mut Record,
    ctx: usize,
    term: usize,
    meter: &mut Meter,
) -> Result<Whnf, ReduceFault>
    requires ctx { ctx < length proof.old.nodes }
    requires context { is_context (named_told proof.old ctx) ≡ true }
    requires term { term < length proof.old.shapes }
    ensures outcome { IfOk result (λ w. WithinBudget (Reduces front.now.entries (entries_of proof.old ctx) (named_at proof.old.shapes term)) (units meter.old) (form (named_at proof.new.shapes w.term)) (units meter.new)) }
    ensures node { IfOk result (λ w. Compares proof.new ctx (record { left = term; right = w.term; node = w.node })) }
    ensures refused { IfErr result (λ e. Refused (Reduces front.now.entries (entries_of proof.old ctx) (named_at proof.old.shapes term)) too_large e (units meter.old) (units meter.new)) }
    ensures keeps { Keeps proof.old proof.new }
    ensures valid { (S : Specification) → IsValid S (bare_front front.now.entries) proof.old → IsValid S (bare_front front.now.entries) proof.new }
    ensures meter { Later meter.old meter.new }
{
    match reduce(front, proof, ctx, term, meter) {
        Ok(chain) => {
            let same = add_same(proof, ctx, chain.form, chain.form)?;
            let joined = join_left(front, proof, ctx, &chain, same)?;
            Ok(Whnf {
                term: joined.right,
                node: joined.node,
            })
        }
        Err(Fault::Spent) => Err(ReduceFault::Spent),
        Err(Fault::Deep) => Err(ReduceFault::Deep),
        Err(Fault::Memory) => Err(ReduceFault::Memory),
        Err(Fault::Differ(_)) => unreachable!(),
    }
}

/// The weak head normal form of a term, as `whnf` finds it and at the same cost; the comparison is of the form with the
/// term.
///
/// # Errors
///
/// As those of `whnf`.
#[tactic(auto, using(pts_grow::proofs::Grow::keeping, crate::proofs::Paid::later, pts_reduce_cost::proofs::Exact::reductions_exact, pts_record::proofs::Compared::same_number))]
pub fn whnf_turned(
    front: &Context,
    proof: &mut Record,
    ctx: usize,
    term: usize,
    meter: &mut Meter,
) -> Result<Whnf, ReduceFault>
    requires ctx { ctx < length proof.old.nodes }
    requires context { is_context (named_told proof.old ctx) ≡ true }
    requires term { term < length proof.old.shapes }
    ensures outcome { IfOk result (λ w. WithinBudget (Reduces front.now.entries (entries_of proof.old ctx) (named_at proof.old.shapes term)) (units meter.old) (form (named_at proof.new.shapes w.term)) (units meter.new)) }
    ensures node { IfOk result (λ w. Compares proof.new ctx (record { left = w.term; right = term; node = w.node })) }
    ensures refused { IfErr result (λ e. Refused (Reduces front.now.entries (entries_of proof.old ctx) (named_at proof.old.shapes term)) too_large e (units meter.old) (units meter.new)) }
    ensures keeps { Keeps proof.old proof.new }
    ensures valid { (S : Specification) → IsValid S (bare_front front.now.entries) proof.old → IsValid S (bare_front front.now.entries) proof.new }
    ensures meter { Later meter.old meter.new }
{
    match reduce(front, proof, ctx, term, meter) {
        Ok(chain) => {
            let same = add_same(proof, ctx, chain.form, chain.form)?;
            let joined = join_right(front, proof, ctx, &chain, same)?;
            Ok(Whnf {
                term: joined.left,
                node: joined.node,
            })
        }
        Err(Fault::Spent) => Err(ReduceFault::Spent),
        Err(Fault::Deep) => Err(ReduceFault::Deep),
        Err(Fault::Memory) => Err(ReduceFault::Memory),
        Err(Fault::Differ(_)) => unreachable!(),
    }
}

/// The conversion test of two terms, in a front and a context: for one unit a head step and one a test of two parts,
/// with tests nested at most 2,000 deep.
///
/// # Errors
///
/// `Spent` exactly where the cost is above what the meter has left; the meter then stands at its limit. `Deep` where a
/// step makes a term beyond the limits, or a test is nested deeper. `Memory`. After each of them the record has what it
/// had, and is valid if it was.
#[tactic(auto, using(pts_grow::proofs::Grow::keeping, crate::proofs::Paid::later, pts_reduce_cost::proofs::Exact::tests_exact))]
pub fn convert(
    front: &Context,
    proof: &mut Record,
    ctx: usize,
    left: usize,
    right: usize,
    meter: &mut Meter,
) -> Result<Conversion, ReduceFault>
    requires ctx { ctx < length proof.old.nodes }
    requires context { is_context (named_told proof.old ctx) ≡ true }
    requires left { left < length proof.old.shapes }
    requires right { right < length proof.old.shapes }
    ensures answer { IfOk result (λ a. Answered front.now.entries (entries_of proof.old ctx) proof.new ctx left right (named_at proof.old.shapes left) (named_at proof.old.shapes right) (units meter.old) (units meter.new) a) }
    ensures refused { IfErr result (λ e. Refused (Tests front.now.entries nesting (entries_of proof.old ctx) (named_at proof.old.shapes left) (named_at proof.old.shapes right)) beyond e (units meter.old) (units meter.new)) }
    ensures keeps { Keeps proof.old proof.new }
    ensures valid { (S : Specification) → IsValid S (bare_front front.now.entries) proof.old → IsValid S (bare_front front.now.entries) proof.new }
    ensures meter { Later meter.old meter.new }
{
    match convert_in(front, proof, ctx, left, right, 2000, meter) {
        Ok(compared) => Ok(Conversion::Yes(compared.node)),
        Err(Fault::Differ(found)) => {
            let FoundDifference { place, left, right } = found.into_inner();
            let mut place = place;
            place.reverse();
            Ok(Conversion::No {
                place: List::of(place),
                left,
                right,
            })
        }
        Err(Fault::Spent) => Err(ReduceFault::Spent),
        Err(Fault::Deep) => Err(ReduceFault::Deep),
        Err(Fault::Memory) => Err(ReduceFault::Memory),
    }
}
