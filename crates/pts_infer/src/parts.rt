// The parts of a term, inferred: a fault of a part is shown from the whole.

ghost use Rattle.std.specs.Prelude.{IfOk};
ghost use Rattle.pts_record.specs.Table.{named_at};
ghost use Rattle.pts_reduce_cost.specs.Run.{turned};
ghost use Rattle.pts_infer_cost.specs.Typing.{into, not_product, here, of_argument, of_definition, unsorted, wanted};
ghost use Rattle.pts_infer.specs.Given.{product_of, type_of};
ghost use Rattle.pts_infer.specs.Works.{Gave, GaveFit, Grown, HasTerm, IsCompared, IsFitted, IsFunctionOf, IsJudged, IsPlace, IsSorted, finding, fitting, inferring, outward, sorting};

use crate::fault::{Fault, Misfit};
use crate::judgements::{Function, Sorted};
use crate::told::{
    Way, for_argument, for_definition, for_wanted, into_part, no_product, out_of, unsorted_body,
};
use crate::work::{At, Work};
use pts_grow::{Compared, Judged};
use pts_names::Name;

impl Work<'_> {
    // A term with a sort as its type.
    #[cycle(inferring)]
    #[tactic(auto, using(crate::proofs::Working::going_on, crate::proofs::Running::memory))]
    pub(crate) fn sorted(&mut self, at: At, term: usize) -> Result<Sorted, Fault>
        requires at { IsPlace self.old at }
        requires term { HasTerm self.old term }
        ensures runs { Gave self.new (λ s. s.sort.0) result (sorting self.old at term) }
        ensures sorted { IfOk result (λ s. IsSorted self.new at term s) }
        ensures grown { Grown self.old self.new }
    {
        let judged = self.infer(at, term)?;
        self.sort_test(at, judged)
    }

    // A part with its type.
    #[cycle(inferring)]
    #[tactic(auto)]
    pub(crate) fn inferred_part(
        &mut self,
        way: Way<'_>,
        at: At,
        term: usize,
    ) -> Result<Judged, Fault>
        requires at { IsPlace self.old at }
        requires term { HasTerm self.old term }
        ensures runs { Gave self.new (type_of self.new.proof.now.shapes) result (turned (outward way.entry) (inferring self.old at term)) }
        ensures judged { IfOk result (λ j. IsJudged self.new at term j) }
        ensures grown { Grown self.old self.new }
    {
        match self.infer(at, term) {
            Ok(judged) => Ok(judged),
            Err(fault) => Err(out_of(self.proof.alloc(), fault, way)),
        }
    }

    // A part with a sort as its type.
    #[cycle(inferring)]
    #[tactic(auto)]
    pub(crate) fn sorted_part(&mut self, way: Way<'_>, at: At, term: usize) -> Result<Sorted, Fault>
        requires at { IsPlace self.old at }
        requires term { HasTerm self.old term }
        ensures runs { Gave self.new (λ s. s.sort.0) result (turned (outward way.entry) (sorting self.old at term)) }
        ensures sorted { IfOk result (λ s. IsSorted self.new at term s) }
        ensures grown { Grown self.old self.new }
    {
        match self.sorted(at, term) {
            Ok(sorted) => Ok(sorted),
            Err(fault) => Err(out_of(self.proof.alloc(), fault, way)),
        }
    }

    // The sort of the type of a body under a binder. Any flaw says that it has none.
    #[cycle(inferring)]
    #[tactic(auto)]
    pub(crate) fn sorted_type(
        &mut self,
        part: u8,
        x: &Name,
        at: At,
        ty: usize,
    ) -> Result<Sorted, Fault>
        requires at { IsPlace self.old at }
        requires ty { HasTerm self.old ty }
        ensures runs { Gave self.new (λ s. s.sort.0) result (turned (unsorted part x.now (named_at self.old.proof.now.shapes ty)) (sorting self.old at ty)) }
        ensures sorted { IfOk result (λ s. IsSorted self.new at ty s) }
        ensures grown { Grown self.old self.new }
    {
        match self.sorted(at, ty) {
            Ok(sorted) => Ok(sorted),
            Err(fault) => Err(unsorted_body(self.proof.alloc(), fault, part, x, ty)),
        }
    }

    // The sort of the form of a function's type. Any flaw says that the type is no product.
    #[cycle(inferring)]
    #[tactic(auto)]
    pub(crate) fn sorted_form(&mut self, at: At, form: Compared) -> Result<Sorted, Fault>
        requires form { IsCompared self.old at form.left form }
        requires ty { HasTerm self.old form.left }
        ensures runs { Gave self.new (λ s. s.sort.0) result (turned (λ f. here (not_product (named_at self.old.proof.now.shapes form.left))) (sorting self.old at form.right)) }
        ensures sorted { IfOk result (λ s. IsSorted self.new at form.right s) }
        ensures grown { Grown self.old self.new }
    {
        match self.sorted(at, form.right) {
            Ok(sorted) => Ok(sorted),
            Err(fault) => Err(no_product(self.proof.alloc(), fault, form.left)),
        }
    }

    // The sort of a wanted type.
    #[cycle(inferring)]
    #[tactic(auto)]
    pub(crate) fn sorted_wanted(&mut self, at: At, want: usize) -> Result<Sorted, Misfit>
        requires at { IsPlace self.old at }
        requires want { HasTerm self.old want }
        ensures runs { GaveFit self.new (λ s. s.sort.0) result (turned wanted (sorting self.old at want)) }
        ensures sorted { IfOk result (λ s. IsSorted self.new at want s) }
        ensures grown { Grown self.old self.new }
    {
        match self.sorted(at, want) {
            Ok(sorted) => Ok(sorted),
            Err(fault) => Err(for_wanted(fault)),
        }
    }

    // The product that the type of a function is.
    #[cycle(inferring)]
    #[tactic(auto)]
    pub(crate) fn function_part(&mut self, at: At, judged: Judged) -> Result<Function, Fault>
        requires judged { IsJudged self.old at judged.subject judged }
        ensures runs { Gave self.new (product_of self.new.proof.now.shapes) result (turned (into 0) (finding self.old at judged.claim)) }
        ensures function { IfOk result (λ f. IsFunctionOf self.new at judged.subject f) }
        ensures grown { Grown self.old self.new }
    {
        match self.product_of(at, judged) {
            Ok(function) => Ok(function),
            Err(fault) => Err(into_part(self.proof.alloc(), fault, 0)),
        }
    }

    // An argument that fits the domain of a function.
    #[cycle(inferring)]
    #[tactic(auto)]
    pub(crate) fn fitted_argument(
        &mut self,
        at: At,
        argument: Judged,
        domain: usize,
    ) -> Result<Judged, Fault>
        requires argument { IsJudged self.old at argument.subject argument }
        requires domain { HasTerm self.old domain }
        ensures runs { Gave self.new (λ j. tt) result (turned (of_argument (named_at self.old.proof.now.shapes domain)) (fitting self.old at argument.claim domain)) }
        ensures fitted { IfOk result (λ j. IsFitted self.new at argument.subject domain j) }
        ensures grown { Grown self.old self.new }
    {
        match self.fit(at, argument, domain) {
            Ok(fitted) => Ok(fitted),
            Err(misfit) => Err(for_argument(self.proof.alloc(), misfit, domain)),
        }
    }

    // What is defined, where it fits the type that is given.
    #[cycle(inferring)]
    #[tactic(auto)]
    pub(crate) fn fitted_value(&mut self, at: At, value: Judged, ty: usize) -> Result<Judged, Fault>
        requires value { IsJudged self.old at value.subject value }
        requires ty { HasTerm self.old ty }
        ensures runs { Gave self.new (λ j. tt) result (turned of_definition (fitting self.old at value.claim ty)) }
        ensures fitted { IfOk result (λ j. IsFitted self.new at value.subject ty j) }
        ensures grown { Grown self.old self.new }
    {
        match self.fit(at, value, ty) {
            Ok(fitted) => Ok(fitted),
            Err(misfit) => Err(for_definition(self.proof.alloc(), misfit)),
        }
    }
}
