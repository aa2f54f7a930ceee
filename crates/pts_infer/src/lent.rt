// A record and a meter that are lent to the work of one call.

ghost use Rattle.std.specs.Prelude.{IfOk, length, ◌<◌, ◌≡◌};
ghost use Rattle.pts_terms.specs.Tree.{named_pi, sort as sort_term};
ghost use Rattle.pts_ctx.specs.Front.{bare_front};
ghost use Rattle.pts_record.specs.Table.{named_at};
ghost use Rattle.pts_rules.specs.Meter.{left};
ghost use Rattle.pts_rules.specs.Valid.{IsValid};
ghost use Rattle.pts_infer_cost.specs.Typing.{inference_nesting};
ghost use Rattle.pts_infer_cost.specs.Inference.{fitted, inferred, sort_tested, sorted};
ghost use Rattle.pts_grow.specs.Keeps.{Keeps};
ghost use Rattle.pts_grow.specs.Judges.{IsProduct, IsProductNode, IsTypedContext, Judges};
ghost use Rattle.pts_reduce.specs.Given.{Later};
ghost use Rattle.pts_reduce.specs.Chain.{entries_of};
ghost use Rattle.pts_infer.specs.Given.{Gives, GivesFit, type_of};

use crate::answer::ProductParts;
use crate::calls::NESTING;
use crate::fault::{Fault, Misfit};
use crate::judgements::Sorted;
use crate::work::{At, Binder, Work};
use pts_ctx::{Context, System};
use pts_grow::Judged;
use pts_record::Record;
use pts_rules::Meter;

/// A term with its type.
#[tactic(auto, using(pts_grow::proofs::Grow::keeping, pts_grow::proofs::Judgements::still, pts_reduce::proofs::Paid::later))]
pub(crate) fn infer_in(
    system: &System,
    front: &Context,
    proof: &mut Record,
    ctx: usize,
    term: usize,
    allowed: u32,
    meter: &mut Meter,
) -> Result<Judged, Fault>
    requires ctx { ctx < length proof.old.nodes }
    requires typed { IsTypedContext proof.old ctx }
    requires term { term < length proof.old.shapes }
    ensures runs { Gives proof.new.shapes (type_of proof.new.shapes) result (left meter.new) (inferred system.now front.now.entries allowed (entries_of proof.old ctx) (named_at proof.old.shapes term) (left meter.old)) }
    ensures pair { IfOk result (λ j. j.subject ≡ term) }
    ensures judges { IfOk result (λ j. Judges proof.new ctx j) }
    ensures keeps { Keeps proof.old proof.new }
    ensures valid { IsValid system.now (bare_front front.now.entries) proof.old → IsValid system.now (bare_front front.now.entries) proof.new }
    ensures later { Later meter.old meter.new }
{
    let mut work = Work {
        system,
        front,
        proof,
        meter,
    };
    work.infer(At { ctx, allowed }, term)
}

/// A term with a sort as its type.
#[tactic(auto, using(pts_grow::proofs::Grow::keeping, pts_grow::proofs::Judgements::still, pts_reduce::proofs::Paid::later))]
pub(crate) fn sorted_in(
    system: &System,
    front: &Context,
    proof: &mut Record,
    ctx: usize,
    term: usize,
    allowed: u32,
    meter: &mut Meter,
) -> Result<Sorted, Fault>
    requires ctx { ctx < length proof.old.nodes }
    requires typed { IsTypedContext proof.old ctx }
    requires term { term < length proof.old.shapes }
    ensures runs { Gives proof.new.shapes (λ s. s.sort.0) result (left meter.new) (sorted system.now front.now.entries (inferred system.now front.now.entries allowed) (entries_of proof.old ctx) (named_at proof.old.shapes term) (left meter.old)) }
    ensures subject { IfOk result (λ s. s.judged.subject ≡ term) }
    ensures judges { IfOk result (λ s. Judges proof.new ctx s.judged) }
    ensures sort { IfOk result (λ s. named_at proof.new.shapes s.judged.claim ≡ sort_term s.sort.0) }
    ensures keeps { Keeps proof.old proof.new }
    ensures valid { IsValid system.now (bare_front front.now.entries) proof.old → IsValid system.now (bare_front front.now.entries) proof.new }
    ensures later { Later meter.old meter.new }
{
    let mut work = Work {
        system,
        front,
        proof,
        meter,
    };
    work.sorted(At { ctx, allowed }, term)
}

/// A product with its sort, and the judgements of its parts.
#[tactic(auto, using(pts_grow::proofs::Grow::keeping, pts_grow::proofs::Judgements::still, pts_reduce::proofs::Paid::later))]
pub(crate) fn product_in(
    system: &System,
    front: &Context,
    proof: &mut Record,
    ctx: usize,
    term: &Binder,
    meter: &mut Meter,
) -> Result<ProductParts, Fault>
    requires ctx { ctx < length proof.old.nodes }
    requires typed { IsTypedContext proof.old ctx }
    requires term { term.now.term < length proof.old.shapes }
    requires parts { (term.now.domain < length proof.old.shapes) × (term.now.body < length proof.old.shapes) }
    requires is { named_at proof.old.shapes term.now.term ≡ named_pi term.now.name (named_at proof.old.shapes term.now.domain) (named_at proof.old.shapes term.now.body) }
    ensures runs { Gives proof.new.shapes (λ f. type_of proof.new.shapes f.product) result (left meter.new) (inferred system.now front.now.entries inference_nesting (entries_of proof.old ctx) (named_at proof.old.shapes term.now.term) (left meter.old)) }
    ensures subject { IfOk result (λ f. f.product.subject ≡ term.now.term) }
    ensures parts { IfOk result (λ f. (f.domain.subject ≡ term.now.domain) × (f.body.subject ≡ term.now.body)) }
    ensures formed { IfOk result (λ f. IsProduct proof.new ctx f.product f.domain f.inner f.body) }
    ensures node { IfOk result (λ f. IsProductNode proof.new f.product.node f.domain.node f.body.node) }
    ensures keeps { Keeps proof.old proof.new }
    ensures valid { IsValid system.now (bare_front front.now.entries) proof.old → IsValid system.now (bare_front front.now.entries) proof.new }
    ensures later { Later meter.old meter.new }
{
    let mut work = Work {
        system,
        front,
        proof,
        meter,
    };
    let allowed = NESTING;
    work.infer_formed(At { ctx, allowed }, term)
}

/// The judgement with the sort that its type is.
#[tactic(auto, using(pts_grow::proofs::Grow::keeping, pts_grow::proofs::Judgements::still, pts_reduce::proofs::Paid::later))]
pub(crate) fn sort_test_in(
    system: &System,
    front: &Context,
    proof: &mut Record,
    ctx: usize,
    judged: Judged,
    meter: &mut Meter,
) -> Result<Sorted, Fault>
    requires ctx { ctx < length proof.old.nodes }
    requires typed { IsTypedContext proof.old ctx }
    requires judged { Judges proof.old ctx judged }
    ensures runs { Gives proof.new.shapes (λ s. s.sort.0) result (left meter.new) (sort_tested system.now front.now.entries (entries_of proof.old ctx) (named_at proof.old.shapes judged.claim) (left meter.old)) }
    ensures subject { IfOk result (λ s. s.judged.subject ≡ judged.subject) }
    ensures judges { IfOk result (λ s. Judges proof.new ctx s.judged) }
    ensures sort { IfOk result (λ s. named_at proof.new.shapes s.judged.claim ≡ sort_term s.sort.0) }
    ensures keeps { Keeps proof.old proof.new }
    ensures valid { IsValid system.now (bare_front front.now.entries) proof.old → IsValid system.now (bare_front front.now.entries) proof.new }
    ensures later { Later meter.old meter.new }
{
    let mut work = Work {
        system,
        front,
        proof,
        meter,
    };
    let allowed = 0;
    work.sort_test(At { ctx, allowed }, judged)
}

/// The judgement with the wanted type.
#[tactic(auto, using(pts_grow::proofs::Grow::keeping, pts_grow::proofs::Judgements::still, pts_reduce::proofs::Paid::later))]
pub(crate) fn fit_in(
    system: &System,
    front: &Context,
    proof: &mut Record,
    ctx: usize,
    judged: Judged,
    want: usize,
    allowed: u32,
    meter: &mut Meter,
) -> Result<Judged, Misfit>
    requires ctx { ctx < length proof.old.nodes }
    requires typed { IsTypedContext proof.old ctx }
    requires judged { Judges proof.old ctx judged }
    requires want { want < length proof.old.shapes }
    ensures runs { GivesFit proof.new.shapes (λ j. tt) result (left meter.new) (fitted system.now front.now.entries (inferred system.now front.now.entries allowed) (entries_of proof.old ctx) (named_at proof.old.shapes judged.claim) (named_at proof.old.shapes want) (left meter.old)) }
    ensures pair { IfOk result (λ j. (j.subject ≡ judged.subject) × (j.claim ≡ want)) }
    ensures judges { IfOk result (λ j. Judges proof.new ctx j) }
    ensures keeps { Keeps proof.old proof.new }
    ensures valid { IsValid system.now (bare_front front.now.entries) proof.old → IsValid system.now (bare_front front.now.entries) proof.new }
    ensures later { Later meter.old meter.new }
{
    let mut work = Work {
        system,
        front,
        proof,
        meter,
    };
    work.fit(At { ctx, allowed }, judged, want)
}
