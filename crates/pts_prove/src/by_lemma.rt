// A lemma, which the goal may use.

ghost use Rattle.std.specs.Prelude.{◌≡◌, ◌<◌, IfOk, Some, length};
ghost use Rattle.pts_names.specs.Name.{Name};
ghost use Rattle.pts_terms.specs.Seen.{named};
ghost use Rattle.pts_terms.specs.Tree.{lift, named_pi, sort as sort_term};
ghost use Rattle.pts_ctx.specs.System.{rule_of};
ghost use Rattle.pts_record.specs.Table.{named_at};
ghost use Rattle.pts_infer_cost.specs.Typing.{here, no_rule};
ghost use Rattle.pts_infer.specs.Answered.{behind, flaw_seen};
ghost use Rattle.pts_grow.specs.Keeps.{IsTerm, Keeps, StaysValid};
ghost use Rattle.pts_prove_cost.specs.Commands.{cuts, flawed, limited, of_goal};
ghost use Rattle.pts_prove.specs.Answered.{Tells};
ghost use Rattle.pts_prove.specs.Refining.{refinement_of};
ghost use Rattle.pts_prove.specs.Works.{AreParts, Came, FitsAt, Grown, HasTerm, IsAsked, IsCut, IsPi, IsSorted, IsUnder, cutting, ruling, sequent_at, sorting_lemma, sorting_under, term_in};

use crate::copies::{copy_names, names_with};
use crate::fault::{ProveFault, of_making};
use crate::scope::check_fresh;
use crate::work::{LemmaParts, Place, Sorted, Work};
use pts_goals::Step;
use pts_grow::{Judged, RuleSorts, TermFault, add_assume, add_line, add_pi, lift};
use pts_infer::{Flaw, FlawKind, Part};
use pts_names::{List, Name};
use pts_record::{Record, Shape};
use pts_terms::{Sort, Term};
use std::alloc::{AllocError, Global};

// A term under one binder more. It is as large as it was.
#[tactic(auto, using(pts_grow::proofs::Grow::keeping, pts_infer::proofs::Atoms::lift_fits))]
fn lifted(proof: &mut Record, term: usize) -> Result<usize, AllocError>
    requires term { term < length proof.old.shapes }
    ensures term { IfOk result (λ n. IsTerm proof.new n (lift 0 1 (named_at proof.old.shapes term))) }
    ensures keeps { Keeps proof.old proof.new }
    ensures valid { StaysValid proof.old proof.new }
    ensures nodes { proof.new.nodes ≡ proof.old.nodes }
{
    let _terms = proof.terms();
    proof.limits(term);
    match lift(proof, term, 0, 1) {
        Ok(lifted) => Ok(lifted),
        Err(TermFault::Memory) => Err(AllocError),
        Err(TermFault::TooLarge) => unreachable!(),
    }
}

// Adds a sort.
#[tactic(auto, using(pts_grow::proofs::Grow::keeping))]
fn sort_line(proof: &mut Record, sort: Sort) -> Result<usize, AllocError>
    ensures term { IfOk result (λ n. IsTerm proof.new n (sort_term sort.0)) }
    ensures keeps { Keeps proof.old proof.new }
    ensures valid { StaysValid proof.old proof.new }
    ensures nodes { proof.new.nodes ≡ proof.old.nodes }
{
    match add_line(proof, Shape::Sort(sort)) {
        Ok(line) => Ok(line),
        Err(TermFault::Memory) => Err(AllocError),
        Err(TermFault::TooLarge) => unreachable!(),
    }
}

// What is wrong with a goal for whose sort and that of the lemma there is no rule.
#[tactic(auto, using(crate::proofs::OtherStatement::flaw_is))]
fn unruled(alloc: Global, names: &[Name], domain: Sort, body: Sort) -> Result<Flaw, AllocError>
    ensures { IfOk result (λ f. flaw_seen f ≡ behind names.now (here (no_rule domain.0 body.0))) }
{
    let names = List::of(copy_names(alloc, names)?);
    Ok(Flaw {
        place: List::of(Vec::new(alloc)),
        names,
        kind: FlawKind::NoRule(domain, body),
    })
}

// The same as a refusal.
fn refuse_unruled(alloc: Global, names: &[Name], domain: Sort, body: Sort) -> ProveFault
    ensures { Tells names.now (flawed of_goal (here (no_rule domain.0 body.0))) result }
{
    match unruled(alloc, names, domain, body) {
        Ok(flaw) => ProveFault::Flaw(Part::Goal, flaw),
        Err(_) => ProveFault::Memory,
    }
}

impl Work<'_> {
    // The place under the lemma: its context has one assumption more, and its statement is the goal's.
    #[tactic(auto, using(pts_grow::proofs::Grow::keeping, crate::proofs::Working::adds))]
    fn assume(&mut self, goal: Place, lemma: Sorted) -> Result<Place, AllocError>
        requires goal { IsAsked self.old goal }
        requires lemma { IsSorted self.old goal.ctx lemma.judged.subject lemma }
        ensures under { IfOk result (IsUnder self.new goal lemma) }
        ensures meter { self.new.meter ≡ self.old.meter }
        ensures grown { Grown self.old self.new }
    {
        let ctx = add_assume(self.proof, goal.ctx, lemma.judged)?;
        let statement = lifted(self.proof, goal.statement)?;
        Ok(Place { ctx, statement })
    }

    // The goal under the lemma has a sort. Its flaws have the name of the lemma.
    #[tactic(auto, using(crate::proofs::Working::going_on))]
    fn sorted_under(&mut self, name: &Name, under: Place) -> Result<Sorted, ProveFault>
        requires under { IsAsked self.old under }
        ensures came { Came self.old self.new (λ s. s.sort.0) result (sorting_under self.old name.now under) }
        ensures sorted { IfOk result (IsSorted self.new under.ctx under.statement) }
        ensures grown { Grown self.old self.new }
    {
        let names = names_with(self.proof.alloc(), self.names, name)?;
        self.sorted_named(&names, name, under)
    }

    // The same after the goal's own place, with what is judged on the way.
    #[tactic(auto, using(crate::proofs::Working::going_on))]
    fn under_lemma(
        &mut self,
        goal: Place,
        name: &Name,
        lemma: Sorted,
    ) -> Result<LemmaParts, ProveFault>
        requires goal { IsAsked self.old goal }
        requires lemma { IsSorted self.old goal.ctx lemma.judged.subject lemma }
        ensures came { Came self.old self.new (λ p. p.body.sort.0) result (sorting_lemma self.old name.now goal (term_in self.old lemma.judged.subject)) }
        ensures lemma { IfOk result (λ p. p.lemma ≡ lemma) }
        ensures parts { IfOk result (AreParts self.new goal) }
        ensures grown { Grown self.old self.new }
    {
        let under = self.assume(goal, lemma)?;
        let body = self.sorted_under(name, under)?;
        Ok(LemmaParts {
            lemma,
            inner: under.ctx,
            body,
        })
    }

    // There is a rule for the sorts of the lemma and of the goal.
    fn product_sort(&self, domain: Sort, body: Sort) -> Result<Sort, ProveFault>
        ensures came { Came self.now self.now (λ q. sort_term q.0) result (ruling self.now domain.0 body.0) }
        ensures rule { IfOk result (λ q. rule_of self.now.system.now domain.0 body.0 ≡ Some q.0) }
    {
        match self.system.rule(domain, body) {
            Some(product) => Ok(product),
            None => Err(refuse_unruled(self.proof.alloc(), self.names, domain, body)),
        }
    }

    // The product of two terms is within limits.
    #[tactic(auto, using(pts_grow::proofs::Grow::keeping, pts_reduce::proofs::Paid::later, crate::proofs::Working::adds))]
    fn product_line(&mut self, name: &Name, domain: usize, body: usize) -> Result<usize, ProveFault>
        requires domain { HasTerm self.old domain }
        requires body { HasTerm self.old body }
        ensures came { Came self.old self.new (term_in self.new) result (limited (named_pi name.now (term_in self.old domain) (term_in self.old body))) }
        ensures line { IfOk result (λ n. IsPi self.new n domain body) }
        ensures grown { Grown self.old self.new }
    {
        let name = name.copy()?;
        match add_line(self.proof, Shape::Pi(name, domain, body)) {
            Ok(line) => Ok(line),
            Err(fault) => Err(of_making(fault)),
        }
    }

    // The product of the lemma and the goal has the sort of the rule.
    #[tactic(auto, using(pts_grow::proofs::Grow::keeping, pts_grow::proofs::Judgements::still, pts_reduce::proofs::Paid::later, pts_infer::proofs::Atoms::sorts, pts_grow::proofs::Plain::plainly))]
    fn judge_product(
        &mut self,
        goal: Place,
        line: usize,
        parts: LemmaParts,
        sort: Sort,
    ) -> Result<Judged, AllocError>
        requires parts { AreParts self.old goal parts }
        requires line { IsPi self.old line parts.lemma.judged.subject parts.body.judged.subject }
        requires rule { rule_of self.old.system.now parts.lemma.sort.0 parts.body.sort.0 ≡ Some sort.0 }
        ensures cut { IfOk result (IsCut self.new goal parts) }
        ensures meter { self.new.meter ≡ self.old.meter }
        ensures grown { Grown self.old self.new }
    {
        let claim = sort_line(self.proof, sort)?;
        let rule = RuleSorts {
            domain: parts.lemma.sort,
            body: parts.body.sort,
            product: sort,
        };
        let judged = add_pi(
            self.system,
            self.proof,
            goal.ctx,
            line,
            claim,
            parts.lemma.judged,
            parts.inner,
            parts.body.judged,
            rule,
        )?;
        Ok(judged)
    }

    // The product of the lemma and the goal has a sort, and is within limits.
    #[tactic(auto, using(crate::proofs::Working::going_on))]
    fn cut_in(&mut self, goal: Place, name: &Name, parts: LemmaParts) -> Result<Step, ProveFault>
        requires parts { AreParts self.old goal parts }
        ensures came { Came self.old self.new (refinement_of self.new.proof.now) result (cutting self.old goal name.now (term_in self.old parts.lemma.judged.subject) parts.lemma.sort.0 parts.body.sort.0) }
        ensures fits { IfOk result (FitsAt self.new goal) }
        ensures grown { Grown self.old self.new }
    {
        let sort = self.product_sort(parts.lemma.sort, parts.body.sort)?;
        let line = self.product_line(name, parts.lemma.judged.subject, parts.body.judged.subject)?;
        let product = self.judge_product(goal, line, parts, sort)?;
        Ok(Step::Cut {
            name: name.copy()?,
            lemma: parts.lemma.judged,
            product,
            inner: parts.inner,
            sorted: parts.body.judged,
        })
    }

    // The lemma has a sort, and so has the goal under it. There is a rule for the two.
    #[tactic(auto, using(crate::proofs::Working::going_on))]
    pub(crate) fn cut(&mut self, goal: Place, name: &Name, ty: &Term) -> Result<Step, ProveFault>
        requires goal { IsAsked self.old goal }
        ensures came { Came self.old self.new (refinement_of self.new.proof.now) result (cuts self.old.system.now self.old.front.now.entries (sequent_at self.old goal) name.now (named ty.now)) }
        ensures fits { IfOk result (FitsAt self.new goal) }
        ensures grown { Grown self.old self.new }
    {
        check_fresh(self.front, self.names, name)?;
        let ty = self.take(ty)?;
        let lemma = self.sorted(goal.ctx, ty, Part::Ty)?;
        let parts = self.under_lemma(goal, name, lemma)?;
        self.cut_in(goal, name, parts)
    }
}
