// The tests of types: that a type is a sort, that it is a product, and that it fits a wanted one.

ghost use Rattle.std.specs.Prelude.{IfErr, IfOk, IfSome, length, ℕ, ◌<◌, ◌≡◌};
ghost use Rattle.std.specs.Option.{option_map};
ghost use Rattle.pts_record.specs.Table.{named_at};
ghost use Rattle.pts_rules.specs.Meter.{left};
ghost use Rattle.pts_reduce_cost.specs.Run.{ends};
ghost use Rattle.pts_infer_cost.specs.Typing.{as_product};
ghost use Rattle.pts_infer.specs.Given.{PlainlyStops, product_of};
ghost use Rattle.pts_infer.specs.Works.{Gave, GaveFit, Grown, HasTerm, IsCompared, IsFitted, IsFunctionOf, IsJudged, IsPlace, IsSorted, comparing, finding, fitting, reducing, testing};

use crate::fault::{Fault, Misfit, What};
use crate::judgements::{Function, Sorted};
use crate::judging::sort_of;
use crate::told::{flaw_here, misfit_here};
use crate::work::{At, Work};
use pts_grow::{Compared, Judged};
use pts_record::{Record, Shape};
use pts_reduce::{Conversion, ReduceFault, convert, whnf};

// The domain and the codomain of a term that is a product.
fn product_parts(proof: &Record, term: usize) -> Option<(usize, usize)>
    requires { term < length proof.now.shapes }
    ensures there { IfSome result (λ p. (p.0 < length proof.now.shapes) × (p.1 < length proof.now.shapes)) }
    ensures parts { option_map (λ p. (named_at proof.now.shapes p.0, named_at proof.now.shapes p.1)) result ≡ as_product (named_at proof.now.shapes term) }
{
    match proof.shape(term) {
        Shape::Pi(_, domain, codomain) => Some((*domain, *codomain)),
        _ => None,
    }
}

impl Work<'_> {
    // A term compared with its weak head normal form.
    #[tactic(auto, using(pts_grow::proofs::Grow::keeping, pts_grow::proofs::Judgements::still, pts_reduce::proofs::Paid::later, crate::proofs::Forms::form_facts))]
    fn form(&mut self, at: At, term: usize) -> Result<Compared, Fault>
        requires at { IsPlace self.old at }
        requires term { HasTerm self.old term }
        ensures form { IfOk result (λ c. reducing self.old at term ≡ ends (named_at self.new.proof.now.shapes c.right) (left self.new.meter.now)) }
        ensures stopped { IfErr result (λ e. PlainlyStops e (left self.new.meter.now) (reducing self.old at term)) }
        ensures compared { IfOk result (λ c. IsCompared self.new at term c) }
        ensures grown { Grown self.old self.new }
    {
        let form = whnf(self.front, self.proof, at.ctx, term, self.meter)?;
        Ok(Compared {
            left: term,
            right: form.term,
            node: form.node,
        })
    }

    // The sort test: the type of a judgement is a sort, or reduces to one that has an axiom.
    #[tactic(auto, using(crate::proofs::Working::going_on, crate::proofs::Running::memory))]
    pub(crate) fn sort_test(&mut self, at: At, judged: Judged) -> Result<Sorted, Fault>
        requires judged { IsJudged self.old at judged.subject judged }
        ensures runs { Gave self.new (λ s. s.sort.0) result (testing self.old at judged.claim) }
        ensures sorted { IfOk result (λ s. IsSorted self.new at judged.subject s) }
        ensures grown { Grown self.old self.new }
    {
        if let Some(sort) = sort_of(self.proof, judged.claim) {
            return Ok(Sorted { judged, sort });
        }
        let form = self.form(at, judged.claim)?;
        let Some(sort) = sort_of(self.proof, form.right) else {
            return Err(flaw_here(self.proof.alloc(), What::NotASort(judged.claim)));
        };
        let Some(above) = self.system.axiom(sort) else {
            return Err(flaw_here(self.proof.alloc(), What::NotASort(judged.claim)));
        };
        let wanted = self.judge_sort(at, form.right, sort, above)?;
        let judged = self.judge_conversion(at, judged, wanted, form)?;
        Ok(Sorted { judged, sort })
    }

    // The product that the type of a judgement is, as it is or by its form, which has a sort.
    #[cycle(inferring)]
    #[tactic(auto, using(crate::proofs::Working::going_on, crate::proofs::Running::memory))]
    pub(crate) fn product_of(&mut self, at: At, judged: Judged) -> Result<Function, Fault>
        requires judged { IsJudged self.old at judged.subject judged }
        ensures runs { Gave self.new (product_of self.new.proof.now.shapes) result (finding self.old at judged.claim) }
        ensures function { IfOk result (λ f. IsFunctionOf self.new at judged.subject f) }
        ensures grown { Grown self.old self.new }
    {
        if let Some((domain, codomain)) = product_parts(self.proof, judged.claim) {
            return Ok(Function {
                judged,
                domain,
                codomain,
            });
        }
        let form = self.form(at, judged.claim)?;
        let Some((domain, codomain)) = product_parts(self.proof, form.right) else {
            return Err(flaw_here(self.proof.alloc(), What::NotProduct(judged.claim)));
        };
        let sorted = self.sorted_form(at, form)?;
        let judged = self.judge_conversion(at, judged, sorted, form)?;
        Ok(Function {
            judged,
            domain,
            codomain,
        })
    }

    // The comparison of a type with a wanted one.
    #[tactic(auto, using(pts_grow::proofs::Grow::keeping, pts_grow::proofs::Judgements::still, pts_reduce::proofs::Paid::later))]
    fn compare(&mut self, at: At, have: usize, want: usize) -> Result<Compared, Misfit>
        requires at { IsPlace self.old at }
        requires have { HasTerm self.old have }
        requires want { HasTerm self.old want }
        ensures runs { (s : ℕ) → GaveFit self.new (λ c. tt) result (comparing self.old at have want s) }
        ensures right { IfOk result (λ c. c.right ≡ want) }
        ensures compared { IfOk result (λ c. IsCompared self.new at have c) }
        ensures grown { Grown self.old self.new }
    {
        match convert(self.front, self.proof, at.ctx, have, want, self.meter) {
            Ok(Conversion::Yes(node)) => Ok(Compared {
                left: have,
                right: want,
                node,
            }),
            Ok(Conversion::No { place, .. }) => {
                let what = What::NotConvertible(place, have, want);
                Err(misfit_here(self.proof.alloc(), what))
            }
            Err(ReduceFault::Spent) => Err(Misfit::Spent),
            Err(ReduceFault::Deep) => Err(Misfit::Deep),
            Err(ReduceFault::Memory) => Err(Misfit::Memory),
        }
    }

    // Conversion: a unit, and the wanted type is equal to the own one, or has a sort and is convertible with it.
    #[cycle(inferring)]
    #[tactic(auto, using(crate::proofs::Working::going_on, crate::proofs::Running::memory))]
    pub(crate) fn fit(&mut self, at: At, judged: Judged, want: usize) -> Result<Judged, Misfit>
        requires judged { IsJudged self.old at judged.subject judged }
        requires want { HasTerm self.old want }
        ensures runs { GaveFit self.new (λ j. tt) result (fitting self.old at judged.claim want) }
        ensures fitted { IfOk result (λ j. IsFitted self.new at judged.subject want j) }
        ensures grown { Grown self.old self.new }
    {
        if !self.pay() {
            return Err(Misfit::Spent);
        }
        if self.proof.equal(judged.claim, want) {
            return Ok(self.judge_again(at, judged, want)?);
        }
        let wanted = self.sorted_wanted(at, want)?;
        let compared = self.compare(at, judged.claim, want)?;
        Ok(self.judge_conversion(at, judged, wanted, compared)?)
    }
}
