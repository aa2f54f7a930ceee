// The conversion test of a record's terms.

ghost use Rattle.std.specs.Prelude.{◌≡◌, ◌<◌, ◌+◌, ◌*◌, ◌∷◌, length, IfOk, false, true};
ghost use Rattle.pts_ctx.specs.System.{Specification};
ghost use Rattle.pts_ctx.specs.Front.{bare_front, unknown};
ghost use Rattle.pts_terms.specs.Tree.{app, lam, pi};
ghost use Rattle.pts_record.specs.Table.{named_at};
ghost use Rattle.pts_record.specs.Said.{named_told, is_context};
ghost use Rattle.pts_rules.specs.Meter.{left as units};
ghost use Rattle.pts_rules.specs.Valid.{IsValid};
ghost use Rattle.pts_reduce_cost.specs.Work.{tested, forms_tested, compared, both_parts};
ghost use Rattle.pts_grow.specs.Keeps.{Keeps, Compares};
ghost use Rattle.pts_reduce.specs.Given.{Tested, Later};
ghost use Rattle.pts_reduce.specs.Chain.{entries_of};
ghost use Rattle.pts_reduce.specs.Pairs.{Stand, MadeOf, AreOf};

use crate::chain::{join_left, join_right, reduce};
use crate::differ::{differ_here, in_part};
use crate::fault::Fault;
use crate::pairs::{Both, Paired, Parts, pair_up};
use crate::pay::pay;
use pts_ctx::Context;
use pts_grow::{Compared, add_bare, add_capp, add_clam, add_cpi, add_same};
use pts_record::Record;
use pts_rules::Meter;

/// The test of two terms, in which tests may be nested so deep.
#[cycle(testing)]
#[tactic(auto, using(pts_grow::proofs::Grow::keeping, crate::proofs::Paid::later, pts_reduce_cost::proofs::Tests::tests))]
pub(crate) fn convert_in(
    front: &Context,
    proof: &mut Record,
    ctx: usize,
    left: usize,
    right: usize,
    allowed: u32,
    meter: &mut Meter,
) -> Result<Compared, Fault>
    requires ctx { ctx < length proof.old.nodes }
    requires context { is_context (named_told proof.old ctx) ≡ true }
    requires left { left < length proof.old.shapes }
    requires right { right < length proof.old.shapes }
    ensures runs { Tested proof.new.shapes result (units meter.new) (tested front.now.entries allowed (entries_of proof.old ctx) (named_at proof.old.shapes left) (named_at proof.old.shapes right) (units meter.old)) }
    ensures pair { IfOk result (λ p. (p.left ≡ left) × (p.right ≡ right)) }
    ensures compares { IfOk result (λ p. Compares proof.new ctx p) }
    ensures keeps { Keeps proof.old proof.new }
    ensures valid { (S : Specification) → IsValid S (bare_front front.now.entries) proof.old → IsValid S (bare_front front.now.entries) proof.new }
    ensures later { Later meter.old meter.new }
{
    pay(meter)?;
    if allowed == 0 {
        return Err(Fault::Deep);
    }
    if proof.equal(left, right) {
        return Ok(add_same(proof, ctx, left, right)?);
    }
    convert_unequal(front, proof, ctx, left, right, allowed - 1, meter)
}

// The same of terms that are not equal: they are reduced, the left one first.
#[cycle(testing)]
#[tactic(auto, using(pts_grow::proofs::Grow::keeping, crate::proofs::Paid::later, crate::proofs::Walks::still_chain))]
fn convert_unequal(
    front: &Context,
    proof: &mut Record,
    ctx: usize,
    left: usize,
    right: usize,
    allowed: u32,
    meter: &mut Meter,
) -> Result<Compared, Fault>
    requires ctx { ctx < length proof.old.nodes }
    requires context { is_context (named_told proof.old ctx) ≡ true }
    requires left { left < length proof.old.shapes }
    requires right { right < length proof.old.shapes }
    ensures runs { Tested proof.new.shapes result (units meter.new) (forms_tested (tested front.now.entries allowed) front.now.entries (entries_of proof.old ctx) (named_at proof.old.shapes left) (named_at proof.old.shapes right) (units meter.old)) }
    ensures pair { IfOk result (λ p. (p.left ≡ left) × (p.right ≡ right)) }
    ensures compares { IfOk result (λ p. Compares proof.new ctx p) }
    ensures keeps { Keeps proof.old proof.new }
    ensures valid { (S : Specification) → IsValid S (bare_front front.now.entries) proof.old → IsValid S (bare_front front.now.entries) proof.new }
    ensures later { Later meter.old meter.new }
{
    let one = reduce(front, proof, ctx, left, meter)?;
    let other = reduce(front, proof, ctx, right, meter)?;
    let forms = convert_forms(front, proof, ctx, one.form, other.form, allowed, meter)?;
    let joined = join_right(front, proof, ctx, &other, forms)?;
    Ok(join_left(front, proof, ctx, &one, joined)?)
}

// The comparison of two forms.
#[cycle(testing)]
#[tactic(auto, using(pts_grow::proofs::Grow::keeping, crate::proofs::Paid::later))]
fn convert_forms(
    front: &Context,
    proof: &mut Record,
    ctx: usize,
    left: usize,
    right: usize,
    allowed: u32,
    meter: &mut Meter,
) -> Result<Compared, Fault>
    requires ctx { ctx < length proof.old.nodes }
    requires context { is_context (named_told proof.old ctx) ≡ true }
    requires left { left < length proof.old.shapes }
    requires right { right < length proof.old.shapes }
    ensures runs { Tested proof.new.shapes result (units meter.new) (compared (tested front.now.entries allowed) (entries_of proof.old ctx) (named_at proof.old.shapes left) (named_at proof.old.shapes right) (units meter.old)) }
    ensures pair { IfOk result (λ p. (p.left ≡ left) × (p.right ≡ right)) }
    ensures compares { IfOk result (λ p. Compares proof.new ctx p) }
    ensures keeps { Keeps proof.old proof.new }
    ensures valid { (S : Specification) → IsValid S (bare_front front.now.entries) proof.old → IsValid S (bare_front front.now.entries) proof.new }
    ensures later { Later meter.old meter.new }
{
    match pair_up(proof, left, right) {
        Paired::Leaves(true) => Ok(add_same(proof, ctx, left, right)?),
        Paired::Leaves(false) => Err(differ_here(proof.alloc(), left, right)),
        Paired::Applications(parts) => {
            convert_applications(front, proof, ctx, left, right, parts, allowed, meter)
        }
        Paired::Abstractions(parts) => {
            convert_abstractions(front, proof, ctx, left, right, parts, allowed, meter)
        }
        Paired::Products(parts) => {
            convert_products(front, proof, ctx, left, right, parts, allowed, meter)
        }
    }
}

// The test of the first and then of the second parts of two forms, each in its context.
#[cycle(testing)]
#[tactic(auto, using(pts_grow::proofs::Grow::keeping, pts_grow::proofs::Instances::still_compares, crate::proofs::Paid::later))]
fn convert_both(
    front: &Context,
    proof: &mut Record,
    ctx: usize,
    inner: usize,
    parts: Parts,
    allowed: u32,
    meter: &mut Meter,
) -> Result<Both, Fault>
    requires ctx { ctx < length proof.old.nodes }
    requires context { is_context (named_told proof.old ctx) ≡ true }
    requires inner { inner < length proof.old.nodes }
    requires inner_context { is_context (named_told proof.old inner) ≡ true }
    requires parts { Stand proof.old.shapes parts }
    ensures runs { Tested proof.new.shapes result (units meter.new) (both_parts (tested front.now.entries allowed (entries_of proof.old ctx) (named_at proof.old.shapes parts.left_first) (named_at proof.old.shapes parts.right_first) (units meter.old)) (tested front.now.entries allowed (entries_of proof.old inner) (named_at proof.old.shapes parts.left_second) (named_at proof.old.shapes parts.right_second))) }
    ensures pairs { IfOk result (λ b. AreOf b parts) }
    ensures firsts { IfOk result (λ b. Compares proof.new ctx b.firsts) }
    ensures seconds { IfOk result (λ b. Compares proof.new inner b.seconds) }
    ensures keeps { Keeps proof.old proof.new }
    ensures valid { (S : Specification) → IsValid S (bare_front front.now.entries) proof.old → IsValid S (bare_front front.now.entries) proof.new }
    ensures later { Later meter.old meter.new }
{
    let firsts = match convert_in(
        front,
        proof,
        ctx,
        parts.left_first,
        parts.right_first,
        allowed,
        meter,
    ) {
        Ok(firsts) => firsts,
        Err(fault) => return Err(in_part(proof.alloc(), fault, 0)),
    };
    match convert_in(
        front,
        proof,
        inner,
        parts.left_second,
        parts.right_second,
        allowed,
        meter,
    ) {
        Ok(seconds) => Ok(Both { firsts, seconds }),
        Err(fault) => Err(in_part(proof.alloc(), fault, 1)),
    }
}

// The comparison of two applications: the functions, then the arguments.
#[cycle(testing)]
#[tactic(auto, using(pts_grow::proofs::Grow::keeping, crate::proofs::Paid::later))]
fn convert_applications(
    front: &Context,
    proof: &mut Record,
    ctx: usize,
    left: usize,
    right: usize,
    parts: Parts,
    allowed: u32,
    meter: &mut Meter,
) -> Result<Compared, Fault>
    requires ctx { ctx < length proof.old.nodes }
    requires context { is_context (named_told proof.old ctx) ≡ true }
    requires left { left < length proof.old.shapes }
    requires right { right < length proof.old.shapes }
    requires parts { Stand proof.old.shapes parts }
    requires made { MadeOf proof.old.shapes app left right parts }
    ensures runs { Tested proof.new.shapes result (units meter.new) (both_parts (tested front.now.entries allowed (entries_of proof.old ctx) (named_at proof.old.shapes parts.left_first) (named_at proof.old.shapes parts.right_first) (units meter.old)) (tested front.now.entries allowed (entries_of proof.old ctx) (named_at proof.old.shapes parts.left_second) (named_at proof.old.shapes parts.right_second))) }
    ensures pair { IfOk result (λ p. (p.left ≡ left) × (p.right ≡ right)) }
    ensures compares { IfOk result (λ p. Compares proof.new ctx p) }
    ensures keeps { Keeps proof.old proof.new }
    ensures valid { (S : Specification) → IsValid S (bare_front front.now.entries) proof.old → IsValid S (bare_front front.now.entries) proof.new }
    ensures later { Later meter.old meter.new }
{
    let both = convert_both(front, proof, ctx, ctx, parts, allowed, meter)?;
    Ok(add_capp(proof, ctx, left, right, both.firsts, both.seconds)?)
}

// The comparison of two abstractions: the domains, then the bodies, of whose variable nothing is known.
#[cycle(testing)]
#[tactic(auto, using(pts_grow::proofs::Grow::keeping, crate::proofs::Paid::later))]
fn convert_abstractions(
    front: &Context,
    proof: &mut Record,
    ctx: usize,
    left: usize,
    right: usize,
    parts: Parts,
    allowed: u32,
    meter: &mut Meter,
) -> Result<Compared, Fault>
    requires ctx { ctx < length proof.old.nodes }
    requires context { is_context (named_told proof.old ctx) ≡ true }
    requires left { left < length proof.old.shapes }
    requires right { right < length proof.old.shapes }
    requires parts { Stand proof.old.shapes parts }
    requires made { MadeOf proof.old.shapes (λ A b. lam A b) left right parts }
    ensures runs { Tested proof.new.shapes result (units meter.new) (both_parts (tested front.now.entries allowed (entries_of proof.old ctx) (named_at proof.old.shapes parts.left_first) (named_at proof.old.shapes parts.right_first) (units meter.old)) (tested front.now.entries allowed (unknown ∷ entries_of proof.old ctx) (named_at proof.old.shapes parts.left_second) (named_at proof.old.shapes parts.right_second))) }
    ensures pair { IfOk result (λ p. (p.left ≡ left) × (p.right ≡ right)) }
    ensures compares { IfOk result (λ p. Compares proof.new ctx p) }
    ensures keeps { Keeps proof.old proof.new }
    ensures valid { (S : Specification) → IsValid S (bare_front front.now.entries) proof.old → IsValid S (bare_front front.now.entries) proof.new }
    ensures later { Later meter.old meter.new }
{
    let inner = add_bare(proof, ctx)?;
    let both = convert_both(front, proof, ctx, inner, parts, allowed, meter)?;
    Ok(add_clam(proof, ctx, left, right, both.firsts, inner, both.seconds)?)
}

// The comparison of two products, in the same way.
#[cycle(testing)]
#[tactic(auto, using(pts_grow::proofs::Grow::keeping, crate::proofs::Paid::later))]
fn convert_products(
    front: &Context,
    proof: &mut Record,
    ctx: usize,
    left: usize,
    right: usize,
    parts: Parts,
    allowed: u32,
    meter: &mut Meter,
) -> Result<Compared, Fault>
    requires ctx { ctx < length proof.old.nodes }
    requires context { is_context (named_told proof.old ctx) ≡ true }
    requires left { left < length proof.old.shapes }
    requires right { right < length proof.old.shapes }
    requires parts { Stand proof.old.shapes parts }
    requires made { MadeOf proof.old.shapes (λ A b. pi A b) left right parts }
    ensures runs { Tested proof.new.shapes result (units meter.new) (both_parts (tested front.now.entries allowed (entries_of proof.old ctx) (named_at proof.old.shapes parts.left_first) (named_at proof.old.shapes parts.right_first) (units meter.old)) (tested front.now.entries allowed (unknown ∷ entries_of proof.old ctx) (named_at proof.old.shapes parts.left_second) (named_at proof.old.shapes parts.right_second))) }
    ensures pair { IfOk result (λ p. (p.left ≡ left) × (p.right ≡ right)) }
    ensures compares { IfOk result (λ p. Compares proof.new ctx p) }
    ensures keeps { Keeps proof.old proof.new }
    ensures valid { (S : Specification) → IsValid S (bare_front front.now.entries) proof.old → IsValid S (bare_front front.now.entries) proof.new }
    ensures later { Later meter.old meter.new }
{
    let inner = add_bare(proof, ctx)?;
    let both = convert_both(front, proof, ctx, inner, parts, allowed, meter)?;
    Ok(add_cpi(proof, ctx, left, right, both.firsts, inner, both.seconds)?)
}
