// The rules of inference: a unit for each, the rule by the form of the term, and a function for each rule.

ghost use Rattle.std.specs.Prelude.{IfOk};
ghost use Rattle.pts_terms.specs.Tree.{app, const, lam, named_pi, pi, sort as sort_term, var};
ghost use Rattle.pts_ctx.specs.System.{axiom_of};
ghost use Rattle.pts_ctx.specs.Front.{entry_at, find};
ghost use Rattle.pts_record.specs.Table.{named_at};
ghost use Rattle.pts_rules.specs.Meter.{left};
ghost use Rattle.pts_infer_cost.specs.Typing.{by_axiom, type_at};
ghost use Rattle.pts_infer_cost.specs.Inference.{gives, looked_up, type_of_global};
ghost use Rattle.pts_reduce.specs.Chain.{entries_of};
ghost use Rattle.pts_infer.specs.Given.{type_of};
ghost use Rattle.pts_infer.specs.Works.{Gave, Grown, HasTerm, IsDefinition, IsFormed, IsJudged, IsLetOf, IsMadeOf, IsNumberOf, IsPlace, abstracting, applying, closing, defining, forming, inferring, typing};

use crate::answer::ProductParts;
use crate::fault::{Fault, What};
use crate::judgements::Sorted;
use crate::judging::{product_sort, sort_of};
use crate::told::{Way, flaw_here};
use crate::work::{Application, At, Binder, Definition, LetTerm, Work};
use pts_grow::{Judged, TermFault, add_const, add_var, entry_type, lift, take_in};
use pts_names::Name;
use pts_record::Shape;
use pts_terms::Sort;

impl Work<'_> {
    // A term with its type: a unit, and then the rule for its form, whose inferences are nested one deeper.
    #[cycle(inferring)]
    #[tactic(auto, using(crate::proofs::Working::going_on, pts_infer_cost::proofs::Steps::inferences))]
    pub(crate) fn infer(&mut self, at: At, term: usize) -> Result<Judged, Fault>
        requires at { IsPlace self.old at }
        requires term { HasTerm self.old term }
        ensures runs { Gave self.new (type_of self.new.proof.now.shapes) result (inferring self.old at term) }
        ensures judged { IfOk result (λ j. IsJudged self.new at term j) }
        ensures grown { Grown self.old self.new }
    {
        if !self.pay() {
            return Err(Fault::Spent);
        }
        if at.allowed == 0 {
            return Err(Fault::Deep);
        }
        let allowed = at.allowed - 1;
        self.infer_form(
            At {
                ctx: at.ctx,
                allowed,
            },
            term,
        )
    }

    // A product with its type and the judgements of its parts: a unit, and then the rule.
    #[tactic(auto, using(crate::proofs::Working::going_on, pts_infer_cost::proofs::Steps::inferences))]
    pub(crate) fn infer_formed(&mut self, at: At, term: &Binder) -> Result<ProductParts, Fault>
        requires at { IsPlace self.old at }
        requires term { IsNumberOf self.old term.now.term (named_pi term.now.name (named_at self.old.proof.now.shapes term.now.domain) (named_at self.old.proof.now.shapes term.now.body)) }
        requires parts { IsMadeOf self.old (λ A B. pi A B) term.now.term term.now.domain term.now.body }
        ensures runs { Gave self.new (λ f. type_of self.new.proof.now.shapes f.product) result (inferring self.old at term.now.term) }
        ensures formed { IfOk result (λ f. IsFormed self.new at term.now.term term.now.domain term.now.body f) }
        ensures grown { Grown self.old self.new }
    {
        if !self.pay() {
            return Err(Fault::Spent);
        }
        if at.allowed == 0 {
            return Err(Fault::Deep);
        }
        let inner = At {
            ctx: at.ctx,
            allowed: at.allowed - 1,
        };
        self.infer_product(inner, term)
    }

    // The rule for the form of a term.
    #[cycle(inferring)]
    #[tactic(auto, using(crate::proofs::Working::going_on, crate::proofs::Running::memory, pts_infer_cost::proofs::Steps::forms))]
    fn infer_form(&mut self, at: At, term: usize) -> Result<Judged, Fault>
        requires at { IsPlace self.old at }
        requires term { HasTerm self.old term }
        ensures runs { Gave self.new (type_of self.new.proof.now.shapes) result (typing self.old at term) }
        ensures judged { IfOk result (λ j. IsJudged self.new at term j) }
        ensures grown { Grown self.old self.new }
    {
        match self.proof.shape(term) {
            Shape::Sort(sort) => {
                let sort = *sort;
                self.infer_sort(at, term, sort)
            }
            Shape::Const(name) => {
                let name = name.copy()?;
                self.infer_constant(at, term, &name)
            }
            Shape::Var(index) => {
                let index = *index;
                self.infer_variable(at, term, index)
            }
            Shape::Pi(x, domain, body) => {
                let name = x.copy()?;
                let (domain, body) = (*domain, *body);
                let binder = Binder {
                    term,
                    name,
                    domain,
                    body,
                };
                Ok(self.infer_product(at, &binder)?.product)
            }
            Shape::App(function, argument) => {
                let (function, argument) = (*function, *argument);
                self.infer_application(
                    at,
                    Application {
                        term,
                        function,
                        argument,
                    },
                )
            }
            Shape::Lam(x, domain, body) => {
                let name = x.copy()?;
                let (domain, body) = (*domain, *body);
                let binder = Binder {
                    term,
                    name,
                    domain,
                    body,
                };
                self.infer_abstraction(at, &binder)
            }
            Shape::Let(x, value, ty, body) => {
                let name = x.copy()?;
                let (value, ty, body) = (*value, *ty, *body);
                let definition = LetTerm {
                    term,
                    name,
                    value,
                    ty,
                    body,
                };
                self.infer_definition(at, &definition)
            }
        }
    }

    // Axiom: a sort has the sort of its axiom as its type.
    #[tactic(auto, using(crate::proofs::Working::going_on, crate::proofs::Running::memory))]
    fn infer_sort(&mut self, at: At, term: usize, sort: Sort) -> Result<Judged, Fault>
        requires at { IsPlace self.old at }
        requires term { IsNumberOf self.old term (sort_term sort.0) }
        ensures runs { Gave self.new (type_of self.new.proof.now.shapes) result (gives (by_axiom sort.0 (axiom_of self.old.system.now sort.0)) (left self.old.meter.now)) }
        ensures judged { IfOk result (λ j. IsJudged self.new at term j) }
        ensures grown { Grown self.old self.new }
    {
        match self.system.axiom(sort) {
            Some(above) => Ok(self.judge_sort(at, term, sort, above)?.judged),
            None => Err(flaw_here(self.proof.alloc(), What::NoAxiom(sort))),
        }
    }

    // Global start: a constant has the type of its entry in the front.
    #[tactic(auto, using(pts_grow::proofs::Grow::keeping, pts_grow::proofs::Judgements::still, pts_reduce::proofs::Paid::later, crate::proofs::Atoms::constants, pts_grow::proofs::Plain::plainly))]
    fn infer_constant(&mut self, at: At, term: usize, name: &Name) -> Result<Judged, Fault>
        requires at { IsPlace self.old at }
        requires term { IsNumberOf self.old term (const name.now) }
        ensures runs { Gave self.new (type_of self.new.proof.now.shapes) result (looked_up (type_of_global (find name.now self.old.front.now.entries)) (left self.old.meter.now)) }
        ensures judged { IfOk result (λ j. IsJudged self.new at term j) }
        ensures grown { Grown self.old self.new }
    {
        let Some(entry) = self.front.lookup(name) else {
            self.drain();
            return Err(Fault::Spent);
        };
        match take_in(self.proof, &entry.ty) {
            Ok(claim) => Ok(add_const(self.front, self.proof, at.ctx, term, claim)?),
            Err(TermFault::Memory) => Err(Fault::Memory),
            Err(TermFault::TooLarge) => unreachable!(),
        }
    }

    // Local start: a variable has the type of its entry, lifted past that entry and those after it.
    #[tactic(auto, using(pts_grow::proofs::Grow::keeping, pts_grow::proofs::Judgements::still, pts_reduce::proofs::Paid::later, crate::proofs::Atoms::variables, pts_grow::proofs::Plain::plainly))]
    fn infer_variable(&mut self, at: At, term: usize, index: u32) -> Result<Judged, Fault>
        requires at { IsPlace self.old at }
        requires term { IsNumberOf self.old term (var index) }
        ensures runs { Gave self.new (type_of self.new.proof.now.shapes) result (looked_up (type_at index (entry_at (entries_of self.old.proof.now at.ctx) index)) (left self.old.meter.now)) }
        ensures judged { IfOk result (λ j. IsJudged self.new at term j) }
        ensures grown { Grown self.old self.new }
    {
        let Some(ty) = entry_type(self.proof, at.ctx, index) else {
            self.drain();
            return Err(Fault::Spent);
        };
        self.proof.limits(ty);
        let _terms = self.proof.terms();
        match lift(self.proof, ty, 0, u64::from(index) + 1) {
            Ok(claim) => Ok(add_var(self.proof, at.ctx, term, claim, index, ty)?),
            Err(TermFault::Memory) => Err(Fault::Memory),
            Err(TermFault::TooLarge) => unreachable!(),
        }
    }

    // Product: the domain and the body have sorts, and a rule has a sort for these.
    #[cycle(inferring)]
    #[tactic(auto, using(crate::proofs::Working::going_on, crate::proofs::Running::memory))]
    pub(crate) fn infer_product(&mut self, at: At, term: &Binder) -> Result<ProductParts, Fault>
        requires at { IsPlace self.old at }
        requires term { IsMadeOf self.old (λ A B. pi A B) term.now.term term.now.domain term.now.body }
        ensures runs { Gave self.new (λ f. type_of self.new.proof.now.shapes f.product) result (forming self.old at term.now.name term.now.domain term.now.body) }
        ensures formed { IfOk result (λ f. IsFormed self.new at term.now.term term.now.domain term.now.body f) }
        ensures grown { Grown self.old self.new }
    {
        let domain = self.sorted_part(Way::Part(0), at, term.domain)?;
        let over = self.assume(at, domain)?;
        let body = self.sorted_part(Way::Under(1, &term.name), over.inner, term.body)?;
        let sort = product_sort(self.proof.alloc(), self.system, domain.sort, body.sort)?;
        let product = self.judge_product(term.term, over, body, sort)?;
        Ok(ProductParts {
            product: product.judged,
            domain: domain.judged,
            inner: over.inner.ctx,
            body: body.judged,
        })
    }

    // Application: the type of the function is a product, whose domain the argument fits.
    #[cycle(inferring)]
    #[tactic(auto, using(crate::proofs::Working::going_on, crate::proofs::Running::memory))]
    fn infer_application(&mut self, at: At, term: Application) -> Result<Judged, Fault>
        requires at { IsPlace self.old at }
        requires term { IsMadeOf self.old app term.term term.function term.argument }
        ensures runs { Gave self.new (type_of self.new.proof.now.shapes) result (applying self.old at term.function term.argument) }
        ensures judged { IfOk result (λ j. IsJudged self.new at term.term j) }
        ensures grown { Grown self.old self.new }
    {
        let judged = self.inferred_part(Way::Part(0), at, term.function)?;
        let function = self.function_part(at, judged)?;
        let own = self.inferred_part(Way::Part(1), at, term.argument)?;
        let argument = self.fitted_argument(at, own, function.domain)?;
        self.judge_application(at, term.term, function, argument)
    }

    // Abstraction: the domain and the type of the body have sorts, and a rule has a sort for these.
    #[cycle(inferring)]
    #[tactic(auto, using(crate::proofs::Working::going_on, crate::proofs::Running::memory))]
    fn infer_abstraction(&mut self, at: At, term: &Binder) -> Result<Judged, Fault>
        requires at { IsPlace self.old at }
        requires term { IsMadeOf self.old (λ A b. lam A b) term.now.term term.now.domain term.now.body }
        ensures runs { Gave self.new (type_of self.new.proof.now.shapes) result (abstracting self.old at term.now.name term.now.domain term.now.body) }
        ensures judged { IfOk result (λ j. IsJudged self.new at term.now.term j) }
        ensures grown { Grown self.old self.new }
    {
        let domain = self.sorted_part(Way::Part(0), at, term.domain)?;
        let over = self.assume(at, domain)?;
        let body = self.inferred_part(Way::Under(1, &term.name), over.inner, term.body)?;
        let sorted = self.sorted_type(1, &term.name, over.inner, body.claim)?;
        let product = product_sort(self.proof.alloc(), self.system, domain.sort, sorted.sort)?;
        self.judge_abstraction(term, over, body, sorted, product)
    }

    // Local definition: what is defined fits the given type, and the body has a type where it is defined.
    #[cycle(inferring)]
    #[tactic(auto, using(crate::proofs::Working::going_on, crate::proofs::Running::memory))]
    fn infer_definition(&mut self, at: At, term: &LetTerm) -> Result<Judged, Fault>
        requires at { IsPlace self.old at }
        requires term { IsLetOf self.old term.now.term term.now.value term.now.ty term.now.body }
        ensures runs { Gave self.new (type_of self.new.proof.now.shapes) result (defining self.old at term.now.name term.now.value term.now.ty term.now.body) }
        ensures judged { IfOk result (λ j. IsJudged self.new at term.now.term j) }
        ensures grown { Grown self.old self.new }
    {
        let own = self.inferred_part(Way::Part(0), at, term.value)?;
        let value = self.fitted_value(at, own, term.ty)?;
        let over = self.define(at, value)?;
        let body = self.inferred_part(Way::Under(2, &term.name), over.inner, term.body)?;
        self.infer_let_type(term, over, body)
    }

    // Its formation, where the type of the body is a sort; else its introduction, where that type has one.
    #[cycle(inferring)]
    #[tactic(auto, using(crate::proofs::Working::going_on, crate::proofs::Running::memory))]
    fn infer_let_type(
        &mut self,
        term: &LetTerm,
        over: Definition,
        body: Judged,
    ) -> Result<Judged, Fault>
        requires term { IsLetOf self.old term.now.term over.value.subject over.value.claim body.subject }
        requires over { IsDefinition self.old over.outer over.value over }
        requires body { IsJudged self.old over.inner body.subject body }
        ensures runs { Gave self.new (type_of self.new.proof.now.shapes) result (closing self.old over.outer term.now.name over.value body.claim) }
        ensures judged { IfOk result (λ j. IsJudged self.new over.outer term.now.term j) }
        ensures grown { Grown self.old self.new }
    {
        match sort_of(self.proof, body.claim) {
            Some(sort) => {
                let body = Sorted { judged: body, sort };
                Ok(self.judge_formation(term.term, over, body)?.judged)
            }
            None => {
                let sorted = self.sorted_type(2, &term.name, over.inner, body.claim)?;
                self.judge_introduction(term, over, body, sorted)
            }
        }
    }
}
