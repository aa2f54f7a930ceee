// Judgements that are added to the record, each from those of its parts.

ghost use Rattle.std.specs.Prelude.{IfErr, IfOk, List, None, Some, length, ◌<◌, ◌≡◌};
ghost use Rattle.std.specs.Option.{option_map};
ghost use Rattle.pts_terms.specs.Tree.{app, lam, named_let, named_pi, pi, sort as sort_term, subst};
ghost use Rattle.pts_ctx.specs.System.{axiom_of, rule_of};
ghost use Rattle.pts_record.specs.declared.shape.Shape.{Shape as Row};
ghost use Rattle.pts_record.specs.Table.{bare_at, named_at};
ghost use Rattle.pts_rules.specs.Meter.{left};
ghost use Rattle.pts_infer_cost.specs.Typing.{as_sort, here, made, no_rule};
ghost use Rattle.pts_infer_cost.specs.Inference.{gives};
ghost use Rattle.pts_grow.specs.Keeps.{IsTerm, Keeps, StaysValid};
ghost use Rattle.pts_grow.specs.Judges.{IsProductNode};
ghost use Rattle.pts_infer.specs.Given.{FoundAs, type_of};
ghost use Rattle.pts_infer.specs.Works.{Gave, Grown, HasTerm, IsAssumption, IsCompared, IsDefinition, IsFitted, IsFunctionOf, IsJudged, IsLetOf, IsMadeOf, IsNumberOf, IsPlace, IsSorted};

use crate::fault::{Fault, What};
use crate::judgements::{Function, Sorted};
use crate::told::flaw_here;
use crate::work::{Assumption, At, Binder, Definition, LetTerm, Work};
use pts_ctx::System;
use pts_grow::{
    Compared, Judged, RuleSorts, TermFault, add_again, add_app, add_assume, add_conv, add_define,
    add_lam, add_let, add_letsort, add_line, add_pi, add_sort, put,
};
use pts_names::Name;
use pts_record::{Record, Shape};
use pts_terms::Sort;
use std::alloc::{AllocError, Global};

/// The sort of a term that is one.
pub(crate) fn sort_of(proof: &Record, term: usize) -> Option<Sort>
    requires { term < length proof.now.shapes }
    ensures { option_map (λ s. s.0) result ≡ as_sort (named_at proof.now.shapes term) }
{
    match proof.shape(term) {
        Shape::Sort(sort) => Some(*sort),
        _ => None,
    }
}

// Adds a sort.
#[tactic(auto, using(pts_grow::proofs::Grow::keeping))]
fn sort_line(proof: &mut Record, sort: Sort) -> Result<usize, AllocError>
    ensures term { IfOk result (λ n. IsTerm proof.new n (sort_term sort.0)) }
    ensures keeps { Keeps proof.old proof.new }
    ensures valid { StaysValid proof.old proof.new }
    ensures nodes { proof.new.nodes ≡ proof.old.nodes }
{
    match add_line(proof, Shape::Sort(sort)) {
        Ok(line) => Ok(line),
        Err(TermFault::Memory) => Err(AllocError),
        Err(TermFault::TooLarge) => unreachable!(),
    }
}

/// The sort of a product, where there is a rule for the sorts of its domain and its body.
pub(crate) fn product_sort(
    alloc: Global,
    system: &System,
    domain: Sort,
    body: Sort,
) -> Result<Sort, Fault>
    ensures ruled { IfOk result (λ q. rule_of system.now domain.0 body.0 ≡ Some q.0) }
    ensures unruled { IfErr result (λ e. rule_of system.now domain.0 body.0 ≡ None) }
    ensures flaw { IfErr result (λ e. (ss : List Row) → FoundAs ss (here (no_rule domain.0 body.0)) e) }
{
    match system.rule(domain, body) {
        Some(product) => Ok(product),
        None => Err(flaw_here(alloc, What::NoRule(domain, body))),
    }
}

impl Work<'_> {
    // The place after an assumption.
    #[tactic(auto, using(pts_grow::proofs::Grow::keeping, pts_grow::proofs::Judgements::still, pts_reduce::proofs::Paid::later, crate::proofs::Atoms::sorts))]
    pub(crate) fn assume(&mut self, at: At, domain: Sorted) -> Result<Assumption, AllocError>
        requires domain { IsSorted self.old at domain.judged.subject domain }
        ensures over { IfOk result (λ a. IsAssumption self.new at domain a) }
        ensures meter { self.new.meter.now ≡ self.old.meter.now }
        ensures grown { Grown self.old self.new }
    {
        let ctx = add_assume(self.proof, at.ctx, domain.judged)?;
        let allowed = at.allowed;
        Ok(Assumption {
            outer: at,
            domain,
            inner: At { ctx, allowed },
        })
    }

    // The place after a definition.
    #[tactic(auto, using(pts_grow::proofs::Grow::keeping, pts_grow::proofs::Judgements::still, pts_reduce::proofs::Paid::later))]
    pub(crate) fn define(&mut self, at: At, value: Judged) -> Result<Definition, AllocError>
        requires value { IsJudged self.old at value.subject value }
        ensures over { IfOk result (λ d. IsDefinition self.new at value d) }
        ensures meter { self.new.meter.now ≡ self.old.meter.now }
        ensures grown { Grown self.old self.new }
    {
        let ctx = add_define(self.proof, at.ctx, value)?;
        let allowed = at.allowed;
        Ok(Definition {
            outer: at,
            value,
            inner: At { ctx, allowed },
        })
    }

    // Axiom: the sort of the axiom for a sort.
    #[tactic(auto, using(pts_grow::proofs::Grow::keeping, pts_grow::proofs::Judgements::still, pts_reduce::proofs::Paid::later, crate::proofs::Atoms::sorts, pts_grow::proofs::Plain::plainly))]
    pub(crate) fn judge_sort(
        &mut self,
        at: At,
        term: usize,
        sort: Sort,
        above: Sort,
    ) -> Result<Sorted, AllocError>
        requires at { IsPlace self.old at }
        requires term { IsNumberOf self.old term (sort_term sort.0) }
        requires axiom { axiom_of self.old.system.now sort.0 ≡ Some above.0 }
        ensures sorted { IfOk result (λ s. IsSorted self.new at term s) }
        ensures sort { IfOk result (λ s. s.sort ≡ above) }
        ensures meter { self.new.meter.now ≡ self.old.meter.now }
        ensures grown { Grown self.old self.new }
    {
        let claim = sort_line(self.proof, above)?;
        let judged = add_sort(self.system, self.proof, at.ctx, term, claim, sort, above)?;
        Ok(Sorted {
            judged,
            sort: above,
        })
    }

    // Product: the sort of the rule for the sorts of the domain and the body.
    #[tactic(auto, using(pts_grow::proofs::Grow::keeping, pts_grow::proofs::Judgements::still, pts_reduce::proofs::Paid::later, crate::proofs::Atoms::sorts, pts_grow::proofs::Plain::plainly))]
    pub(crate) fn judge_product(
        &mut self,
        term: usize,
        over: Assumption,
        body: Sorted,
        product: Sort,
    ) -> Result<Sorted, AllocError>
        requires term { IsMadeOf self.old (λ A B. pi A B) term over.domain.judged.subject body.judged.subject }
        requires over { IsAssumption self.old over.outer over.domain over }
        requires body { IsSorted self.old over.inner body.judged.subject body }
        requires rule { rule_of self.old.system.now over.domain.sort.0 body.sort.0 ≡ Some product.0 }
        ensures sorted { IfOk result (λ s. IsSorted self.new over.outer term s) }
        ensures node { IfOk result (λ s. IsProductNode self.new.proof.now s.judged.node over.domain.judged.node body.judged.node) }
        ensures sort { IfOk result (λ s. s.sort ≡ product) }
        ensures meter { self.new.meter.now ≡ self.old.meter.now }
        ensures grown { Grown self.old self.new }
    {
        let claim = sort_line(self.proof, product)?;
        let rule = RuleSorts {
            domain: over.domain.sort,
            body: body.sort,
            product,
        };
        let judged = add_pi(
            self.system,
            self.proof,
            over.outer.ctx,
            term,
            claim,
            over.domain.judged,
            over.inner.ctx,
            body.judged,
            rule,
        )?;
        Ok(Sorted {
            judged,
            sort: product,
        })
    }

    // Application: the codomain of the function, with the argument put in.
    #[tactic(auto, using(pts_grow::proofs::Grow::keeping, pts_grow::proofs::Judgements::still, pts_reduce::proofs::Paid::later, pts_grow::proofs::Plain::plainly, pts_infer_cost::proofs::Ends::ends_of_rules))]
    pub(crate) fn judge_application(
        &mut self,
        at: At,
        term: usize,
        function: Function,
        argument: Judged,
    ) -> Result<Judged, Fault>
        requires term { IsMadeOf self.old app term function.judged.subject argument.subject }
        requires function { IsFunctionOf self.old at function.judged.subject function }
        requires argument { IsFitted self.old at argument.subject function.domain argument }
        ensures runs { Gave self.new (type_of self.new.proof.now.shapes) result (gives (made (subst 0 (named_at self.old.proof.now.shapes argument.subject) (named_at self.old.proof.now.shapes function.codomain))) (left self.old.meter.now)) }
        ensures judged { IfOk result (λ j. IsJudged self.new at term j) }
        ensures grown { Grown self.old self.new }
    {
        let _terms = self.proof.terms();
        let claim = put(self.proof, function.codomain, 0, 0, argument.subject)?;
        Ok(add_app(
            self.proof,
            at.ctx,
            term,
            claim,
            function.judged,
            argument,
            function.domain,
            function.codomain,
        )?)
    }

    // The product of two terms.
    #[tactic(auto, using(pts_grow::proofs::Grow::keeping, pts_reduce::proofs::Paid::later, pts_infer_cost::proofs::Ends::ends_of_rules, crate::proofs::Runs::made_pi))]
    fn product_line(&mut self, x: &Name, domain: usize, body: usize) -> Result<usize, Fault>
        requires domain { HasTerm self.old domain }
        requires body { HasTerm self.old body }
        ensures runs { Gave self.new (named_at self.new.proof.now.shapes) result (gives (made (named_pi x.now (named_at self.old.proof.now.shapes domain) (named_at self.old.proof.now.shapes body))) (left self.old.meter.now)) }
        ensures made { IfOk result (λ n. IsMadeOf self.new (λ A B. pi A B) n domain body) }
        ensures grown { Grown self.old self.new }
    {
        let x = x.copy()?;
        Ok(add_line(self.proof, Shape::Pi(x, domain, body))?)
    }

    // Abstraction: the product of the domain and the type of the body, which has the sort of a rule.
    #[tactic(auto, using(crate::proofs::Working::going_on, crate::proofs::Running::memory))]
    pub(crate) fn judge_abstraction(
        &mut self,
        term: &Binder,
        over: Assumption,
        body: Judged,
        sorted: Sorted,
        product: Sort,
    ) -> Result<Judged, Fault>
        requires term { IsMadeOf self.old (λ A b. lam A b) term.now.term over.domain.judged.subject body.subject }
        requires over { IsAssumption self.old over.outer over.domain over }
        requires body { IsJudged self.old over.inner body.subject body }
        requires sorted { IsSorted self.old over.inner body.claim sorted }
        requires rule { rule_of self.old.system.now over.domain.sort.0 sorted.sort.0 ≡ Some product.0 }
        ensures runs { Gave self.new (type_of self.new.proof.now.shapes) result (gives (made (named_pi term.now.name (named_at self.old.proof.now.shapes over.domain.judged.subject) (named_at self.old.proof.now.shapes body.claim))) (left self.old.meter.now)) }
        ensures judged { IfOk result (λ j. IsJudged self.new over.outer term.now.term j) }
        ensures grown { Grown self.old self.new }
    {
        let claim = self.product_line(&term.name, over.domain.judged.subject, body.claim)?;
        let sorted = self.judge_product(claim, over, sorted, product)?;
        Ok(add_lam(
            self.proof,
            over.outer.ctx,
            term.term,
            claim,
            over.domain.judged,
            over.inner.ctx,
            body,
            sorted.judged,
        )?)
    }

    // Formation of a local definition: the sort that is the type of the body.
    #[tactic(auto, using(pts_grow::proofs::Grow::keeping, pts_grow::proofs::Judgements::still, pts_reduce::proofs::Paid::later, crate::proofs::Atoms::sorts))]
    pub(crate) fn judge_formation(
        &mut self,
        term: usize,
        over: Definition,
        body: Sorted,
    ) -> Result<Sorted, AllocError>
        requires term { IsLetOf self.old term over.value.subject over.value.claim body.judged.subject }
        requires over { IsDefinition self.old over.outer over.value over }
        requires body { IsSorted self.old over.inner body.judged.subject body }
        ensures sorted { IfOk result (λ s. IsSorted self.new over.outer term s) }
        ensures same { IfOk result (λ s. (s.sort ≡ body.sort) × (s.judged.claim ≡ body.judged.claim)) }
        ensures meter { self.new.meter.now ≡ self.old.meter.now }
        ensures grown { Grown self.old self.new }
    {
        let judged = add_letsort(
            self.proof,
            over.outer.ctx,
            term,
            body.judged.claim,
            over.value,
            over.inner.ctx,
            body.judged,
        )?;
        Ok(Sorted {
            judged,
            sort: body.sort,
        })
    }

    // The local definition of a term with what a place defines.
    #[tactic(auto, using(pts_grow::proofs::Grow::keeping, pts_reduce::proofs::Paid::later, pts_infer_cost::proofs::Ends::ends_of_rules, crate::proofs::Runs::made_let))]
    fn let_line(&mut self, x: &Name, value: Judged, body: usize) -> Result<usize, Fault>
        requires value { HasTerm self.old value.subject }
        requires ty { HasTerm self.old value.claim }
        requires body { HasTerm self.old body }
        ensures runs { Gave self.new (named_at self.new.proof.now.shapes) result (gives (made (named_let x.now (named_at self.old.proof.now.shapes value.subject) (named_at self.old.proof.now.shapes value.claim) (named_at self.old.proof.now.shapes body))) (left self.old.meter.now)) }
        ensures made { IfOk result (λ n. IsLetOf self.new n value.subject value.claim body) }
        ensures grown { Grown self.old self.new }
    {
        let x = x.copy()?;
        Ok(add_line(self.proof, Shape::Let(x, value.subject, value.claim, body))?)
    }

    // Introduction of a local definition: that of the type of the body, which has a sort.
    #[tactic(auto, using(crate::proofs::Working::going_on, crate::proofs::Running::memory))]
    pub(crate) fn judge_introduction(
        &mut self,
        term: &LetTerm,
        over: Definition,
        body: Judged,
        sorted: Sorted,
    ) -> Result<Judged, Fault>
        requires term { IsLetOf self.old term.now.term over.value.subject over.value.claim body.subject }
        requires over { IsDefinition self.old over.outer over.value over }
        requires body { IsJudged self.old over.inner body.subject body }
        requires sorted { IsSorted self.old over.inner body.claim sorted }
        ensures runs { Gave self.new (type_of self.new.proof.now.shapes) result (gives (made (named_let term.now.name (named_at self.old.proof.now.shapes over.value.subject) (named_at self.old.proof.now.shapes over.value.claim) (named_at self.old.proof.now.shapes body.claim))) (left self.old.meter.now)) }
        ensures judged { IfOk result (λ j. IsJudged self.new over.outer term.now.term j) }
        ensures grown { Grown self.old self.new }
    {
        let claim = self.let_line(&term.name, over.value, body.claim)?;
        let sorted = self.judge_formation(claim, over, sorted)?;
        Ok(add_let(
            self.proof,
            over.outer.ctx,
            term.term,
            claim,
            over.value,
            over.inner.ctx,
            body,
            sorted.judged,
        )?)
    }

    // A judgement with a type that is equal to its own, apart from printed names.
    #[tactic(auto, using(pts_grow::proofs::Grow::keeping, pts_grow::proofs::Judgements::still, pts_reduce::proofs::Paid::later))]
    pub(crate) fn judge_again(
        &mut self,
        at: At,
        judged: Judged,
        want: usize,
    ) -> Result<Judged, AllocError>
        requires judged { IsJudged self.old at judged.subject judged }
        requires want { HasTerm self.old want }
        requires same { bare_at self.old.proof.now.shapes want ≡ bare_at self.old.proof.now.shapes judged.claim }
        ensures fitted { IfOk result (λ j. IsFitted self.new at judged.subject want j) }
        ensures meter { self.new.meter.now ≡ self.old.meter.now }
        ensures grown { Grown self.old self.new }
    {
        if judged.claim == want {
            return Ok(judged);
        }
        add_again(self.proof, at.ctx, judged.subject, want, judged)
    }

    // Conversion: a type that has a sort and is compared with the own one.
    #[tactic(auto, using(pts_grow::proofs::Grow::keeping, pts_grow::proofs::Judgements::still, pts_reduce::proofs::Paid::later, crate::proofs::Atoms::sorts))]
    pub(crate) fn judge_conversion(
        &mut self,
        at: At,
        judged: Judged,
        wanted: Sorted,
        compared: Compared,
    ) -> Result<Judged, AllocError>
        requires judged { IsJudged self.old at judged.subject judged }
        requires wanted { IsSorted self.old at compared.right wanted }
        requires compared { IsCompared self.old at judged.claim compared }
        ensures fitted { IfOk result (λ j. IsFitted self.new at judged.subject compared.right j) }
        ensures shapes { self.new.proof.now.shapes ≡ self.old.proof.now.shapes }
        ensures meter { self.new.meter.now ≡ self.old.meter.now }
        ensures grown { Grown self.old self.new }
    {
        add_conv(
            self.proof,
            at.ctx,
            judged.subject,
            compared.right,
            judged,
            wanted.judged,
            compared,
        )
    }
}
