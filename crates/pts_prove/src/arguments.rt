// The arguments of a function.

ghost use Rattle.std.specs.Prelude.{[], ◌++◌, ◌∷◌, ◌≡◌, ◌+◌, ◌≤◌, IfErr, IfOk, OnOk, Some, drop, false, length, true};
ghost use Rattle.pts_terms.specs.Tree.{same_term, subst};
ghost use Rattle.pts_record.specs.Table.{bare_at};
ghost use Rattle.pts_match.specs.Lowering.{is_clear, lower};
ghost use Rattle.pts_match.specs.Matching.{value_of};
ghost use Rattle.pts_prove_cost.specs.Commands.{asks_argument, limited};
ghost use Rattle.pts_prove.specs.declared.fault.ProveFault.TheVariants.{NoMatch};
ghost use Rattle.pts_prove.specs.Works.{Came, Grown, HasTerm, IsAsked, IsNumberOf, IsPlace, term_in};
ghost use Rattle.pts_prove.specs.Applications.{AreFound, HasProduct, IsApplied, IsChain, IsFound, IsNext, application_in, applying, applying_all, applying_next, arguments_in, giving, link_in};
ghost use Rattle.pts_reduce.specs.Chain.{entries_of};

use crate::fault::{ProveFault, of_making};
use crate::work::{Application, Place, Product, Work};
use pts_goals::{Argument, Link};
use pts_grow::put;
use pts_infer::Part;
use pts_match::{Subterm, is_clear, lower, take_out};
use std::alloc::AllocError;

// The same links with one after them.
fn with_link(earlier: Vec<Link>, next: Link) -> Result<Vec<Link>, AllocError>
    ensures { IfOk result (λ ls. ls.items ≡ earlier.items ++ next ∷ []) }
{
    let mut links = earlier;
    links.push(next)?;
    Ok(links)
}

impl Work<'_> {
    // The term that a part is outside of the binders under which it was found.
    #[tactic(auto, using(crate::proofs::Working::adds))]
    fn take_part(&mut self, part: Subterm) -> Result<usize, AllocError>
        requires part { IsFound self.old (Some part) }
        ensures term { IfOk result (λ t. IsNumberOf self.new t (value_of self.old.proof.now.shapes part)) }
        ensures meter { self.new.meter ≡ self.old.meter }
        ensures grown { Grown self.old self.new }
    {
        take_out(self.proof, part)
    }

    // The body of a product with an argument for its variable.
    #[tactic(auto, using(crate::proofs::Working::adds))]
    fn instance(&mut self, body: usize, argument: usize) -> Result<usize, ProveFault>
        requires body { HasTerm self.old body }
        requires argument { HasTerm self.old argument }
        ensures came { Came self.old self.new (term_in self.new) result (limited (subst 0 (term_in self.old argument) (term_in self.old body))) }
        ensures term { IfOk result (λ t. IsNumberOf self.new t (subst 0 (term_in self.old argument) (term_in self.old body))) }
        ensures grown { Grown self.old self.new }
    {
        let _terms = self.proof.terms();
        match put(self.proof, body, 0, 0, argument) {
            Ok(after) => Ok(after),
            Err(fault) => Err(of_making(fault)),
        }
    }

    // Whether the variable of a product is left out of its body.
    fn is_left_out(&self, body: usize) -> bool
        requires body { HasTerm self.now body }
        ensures { result ≡ is_clear 0 1 (term_in self.now body) }
    {
        let _terms = self.proof.terms();
        is_clear(self.proof, body, 0, 1)
    }

    // The body of a product before its variable.
    #[tactic(auto, using(crate::proofs::Working::adds))]
    fn before_variable(&mut self, body: usize) -> Result<usize, AllocError>
        requires body { HasTerm self.old body }
        ensures term { IfOk result (λ t. IsNumberOf self.new t (lower 0 1 (term_in self.old body))) }
        ensures meter { self.new.meter ≡ self.old.meter }
        ensures grown { Grown self.old self.new }
    {
        let _terms = self.proof.terms();
        lower(self.proof, body, 0, 1)
    }

    // A term is inferred and fitted to the domain.
    #[tactic(auto, using(crate::proofs::Applied::applying))]
    fn give(
        &mut self,
        ctx: usize,
        product: Product,
        argument: usize,
    ) -> Result<Application, ProveFault>
        requires place { IsPlace self.old ctx }
        requires product { HasProduct self.old product }
        requires argument { HasTerm self.old argument }
        ensures came { Came self.old self.new (application_in self.new) result (giving self.old ctx product (term_in self.old argument)) }
        ensures applied { IfOk result (IsApplied self.new ctx product) }
        ensures grown { Grown self.old self.new }
    {
        let judged = self.infer(ctx, argument, Part::Goal)?;
        let fitted = self.fit(ctx, judged, product.domain, Part::Goal)?;
        let after = self.instance(product.body, argument)?;
        Ok(Application {
            argument: Argument::Given(fitted),
            after,
        })
    }

    // A part of the goal.
    #[tactic(auto, using(crate::proofs::Applied::applying))]
    fn give_part(
        &mut self,
        ctx: usize,
        product: Product,
        part: Subterm,
    ) -> Result<Application, ProveFault>
        requires place { IsPlace self.old ctx }
        requires product { HasProduct self.old product }
        requires part { IsFound self.old (Some part) }
        ensures came { Came self.old self.new (application_in self.new) result (giving self.old ctx product (value_of self.old.proof.now.shapes part)) }
        ensures applied { IfOk result (IsApplied self.new ctx product) }
        ensures grown { Grown self.old self.new }
    {
        let argument = self.take_part(part)?;
        self.give(ctx, product, argument)
    }

    // The domain as a goal, where the body does not have the variable.
    #[tactic(auto, using(crate::proofs::Applied::applying))]
    fn ask(
        &mut self,
        ctx: usize,
        product: Product,
        number: usize,
    ) -> Result<Application, ProveFault>
        requires place { IsPlace self.old ctx }
        requires product { HasProduct self.old product }
        ensures came { Came self.old self.new (application_in self.new) result (asks_argument self.old.system.now self.old.front.now.entries (entries_of self.old.proof.now ctx) number (term_in self.old product.domain) (term_in self.old product.body) (is_clear 0 1 (term_in self.old product.body))) }
        ensures applied { IfOk result (IsApplied self.new ctx product) }
        ensures grown { Grown self.old self.new }
    {
        if !self.is_left_out(product.body) {
            return Err(ProveFault::Undetermined(number));
        }
        let sorted = self.sorted(ctx, product.domain, Part::Goal)?;
        let after = self.before_variable(product.body)?;
        Ok(Application {
            argument: Argument::Left(sorted.judged),
            after,
        })
    }

    // The argument of a product, by its number.
    #[tactic(auto, using(crate::proofs::Applied::applying))]
    fn apply_product(
        &mut self,
        ctx: usize,
        product: Product,
        part: Option<Subterm>,
        number: usize,
    ) -> Result<Application, ProveFault>
        requires place { IsPlace self.old ctx }
        requires product { HasProduct self.old product }
        requires part { IsFound self.old part }
        ensures came { Came self.old self.new (application_in self.new) result (applying self.old ctx product part number) }
        ensures applied { IfOk result (IsApplied self.new ctx product) }
        ensures grown { Grown self.old self.new }
    {
        match part {
            Some(part) => self.give_part(ctx, product, part),
            None => self.ask(ctx, product, number),
        }
    }

    // The same of a function of the type.
    #[tactic(auto, using(crate::proofs::Applied::applying))]
    fn apply_next(
        &mut self,
        ctx: usize,
        ty: usize,
        part: Option<Subterm>,
        number: usize,
    ) -> Result<Link, ProveFault>
        requires place { IsPlace self.old ctx }
        requires ty { HasTerm self.old ty }
        requires part { IsFound self.old part }
        ensures came { Came self.old self.new (link_in self.new) result (applying_next self.old ctx ty part number) }
        ensures next { IfOk result (IsNext self.new ctx ty) }
        ensures grown { Grown self.old self.new }
    {
        let function = self.open_function(ctx, ty)?;
        let applied = self.apply_product(ctx, function.product, part, number)?;
        Ok(Link {
            change: function.change,
            domain: function.product.domain,
            codomain: function.product.body,
            argument: applied.argument,
            after: applied.after,
        })
    }

    // The type after the last argument is the goal.
    fn arrive(&self, goal: Place, ty: usize, number: usize) -> Result<(), ProveFault>
        requires goal { IsAsked self.now goal }
        requires ty { HasTerm self.now ty }
        ensures arrived { OnOk result (same_term (bare_at self.now.proof.now.shapes ty) (bare_at self.now.proof.now.shapes goal.statement) ≡ true) }
        ensures other { IfErr result (λ e. (e ≡ NoMatch number) × (same_term (bare_at self.now.proof.now.shapes ty) (bare_at self.now.proof.now.shapes goal.statement) ≡ false)) }
    {
        if self.proof.equal(ty, goal.statement) {
            return Ok(());
        }
        Err(ProveFault::NoMatch(number))
    }

    // The arguments from the place `at` on, after the earlier ones.
    #[tactic(auto, using(crate::proofs::Applied::applying))]
    pub(crate) fn apply_all(
        &mut self,
        goal: Place,
        ty: usize,
        parts: &[Option<Subterm>],
        at: usize,
        first: usize,
        earlier: Vec<Link>,
    ) -> Result<Vec<Link>, ProveFault>
        requires goal { IsAsked self.old goal }
        requires parts { AreFound self.old (length parts.now) parts.now }
        requires at { at ≤ length parts.now }
        requires count { length earlier.items ≡ at }
        requires chain { IsChain self.old goal.ctx first ty earlier.items }
        ensures came { Came self.old self.new (λ ls. arguments_in self.new ls.items) result (applying_all self.old goal ty (drop at parts.now) (at + 1) earlier.items) }
        ensures count { IfOk result (λ ls. length ls.items ≡ length parts.now) }
        ensures chain { IfOk result (λ ls. IsChain self.new goal.ctx first goal.statement ls.items) }
        ensures grown { Grown self.old self.new }
    {
        if at == parts.len() {
            self.arrive(goal, ty, at)?;
            return Ok(earlier);
        }
        let next = self.apply_next(goal.ctx, ty, parts[at], at + 1)?;
        let links = with_link(earlier, next)?;
        self.apply_all(goal, next.after, parts, at + 1, first, links)
    }
}
