// The search for the products of a type under which it matches the goal.

ghost use Rattle.std.specs.Prelude.{◌≡◌, ◌<◌, ◌≤◌, IfErr, IfOk, IfSome, OnOk, length, suc};
ghost use Rattle.pts_rules.specs.Meter.{left};
ghost use Rattle.pts_prove.specs.declared.fault.ProveFault.TheVariants.{Spent};
ghost use Rattle.pts_infer_cost.specs.Typing.{as_product};
ghost use Rattle.pts_prove_cost.specs.Commands.{form_opens, no_match};
ghost use Rattle.pts_prove.specs.Works.{Came, Grown, HasTerm, term_in};
ghost use Rattle.pts_prove.specs.Applications.{AreFound, HasProduct, IsContext, IsPattern, IsReduced, IsUnderProduct, found_in, match_in, opening_pattern, opening_pattern_form, product_at, reducing, searching, trying};

use crate::fault::{ProveFault, of_reduction};
use crate::opening::product_parts;
use crate::work::{Pattern, Product, Work};
use pts_grow::{Compared, add_bare};
use pts_match::{Subterm, find_match};
use pts_reduce::whnf;
use std::alloc::AllocError;

impl Work<'_> {
    // Pays one unit.
    #[tactic(auto, using(pts_reduce::proofs::Paid::one_less, pts_reduce::proofs::Paid::none_left, crate::proofs::Searches::pays))]
    fn pay(&mut self) -> Result<(), ProveFault>
        ensures paid { OnOk result (left self.old.meter.now ≡ suc (left self.new.meter.now)) }
        ensures unpaid { IfErr result (λ e. (e ≡ Spent) × (left self.old.meter.now ≡ 0) × (left self.new.meter.now ≡ 0)) }
        ensures grown { Grown self.old self.new }
    {
        let _spent = self.meter.spent();
        if self.meter.pay(1) {
            return Ok(());
        }
        Err(ProveFault::Spent)
    }

    // One attempt, which costs a unit.
    #[tactic(auto, using(crate::proofs::Applied::applying, crate::proofs::Searches::attempting))]
    fn attempt(
        &mut self,
        at: Pattern,
        statement: usize,
    ) -> Result<Option<Vec<Option<Subterm>>>, ProveFault>
        requires at { IsPattern self.old at }
        requires statement { HasTerm self.old statement }
        ensures came { Came self.old self.new (match_in self.new) result (trying self.old at statement) }
        ensures found { IfOk result (λ o. IfSome o (λ f. AreFound self.new at.taken f.items)) }
        ensures grown { Grown self.old self.new }
    {
        self.pay()?;
        let found = find_match(self.proof, at.taken, at.ty, statement)?;
        Ok(found)
    }

    // The weak head normal form of a term, with the comparison of the two.
    #[tactic(auto, using(pts_grow::proofs::Grow::keeping, pts_grow::proofs::Judgements::still, pts_reduce::proofs::Paid::later))]
    pub(crate) fn reduce(&mut self, ctx: usize, term: usize) -> Result<Compared, ProveFault>
        requires ctx { IsContext self.old ctx }
        requires term { HasTerm self.old term }
        ensures came { Came self.old self.new (λ o. term_in self.new o.right) result (reducing self.old ctx term) }
        ensures reduced { IfOk result (IsReduced self.new ctx term) }
        ensures grown { Grown self.old self.new }
    {
        match whnf(self.front, self.proof, ctx, term, self.meter) {
            Ok(form) => Ok(Compared {
                left: term,
                right: form.term,
                node: form.node,
            }),
            Err(fault) => Err(of_reduction(fault)),
        }
    }

    // The product that the form of a type is.
    fn form_matches(&self, at: Pattern, form: usize) -> Result<Product, ProveFault>
        requires form { HasTerm self.now form }
        ensures came { Came self.now self.now (product_at self.now) result (form_opens (λ v. no_match at.taken) (term_in self.now form) (as_product (term_in self.now form))) }
        ensures product { IfOk result (HasProduct self.now) }
    {
        match product_parts(self.proof, form) {
            Some((domain, body)) => Ok(Product {
                term: form,
                domain,
                body,
            }),
            None => Err(ProveFault::NoMatch(at.taken)),
        }
    }

    // The product that a type is by its form.
    #[tactic(auto, using(crate::proofs::Applied::applying))]
    fn open_pattern_form(&mut self, at: Pattern) -> Result<Product, ProveFault>
        requires at { IsPattern self.old at }
        ensures came { Came self.old self.new (product_at self.new) result (opening_pattern_form self.old at) }
        ensures product { IfOk result (HasProduct self.new) }
        ensures grown { Grown self.old self.new }
    {
        let form = self.reduce(at.ctx, at.ty)?;
        self.form_matches(at, form.right)
    }

    // The product that a type is, as it stands or else by its form.
    #[tactic(auto, using(crate::proofs::Applied::applying))]
    fn open_pattern(&mut self, at: Pattern) -> Result<Product, ProveFault>
        requires at { IsPattern self.old at }
        ensures came { Came self.old self.new (product_at self.new) result (opening_pattern self.old at) }
        ensures product { IfOk result (HasProduct self.new) }
        ensures grown { Grown self.old self.new }
    {
        match product_parts(self.proof, at.ty) {
            Some((domain, body)) => Ok(Product {
                term: at.ty,
                domain,
                body,
            }),
            None => self.open_pattern_form(at),
        }
    }

    // The body of a product, of whose variable nothing is known.
    #[tactic(auto, using(crate::proofs::Working::adds))]
    fn under_product(&mut self, at: Pattern, body: usize) -> Result<Pattern, AllocError>
        requires at { IsPattern self.old at }
        requires few { at.taken < 2000 }
        requires body { HasTerm self.old body }
        ensures under { IfOk result (IsUnderProduct self.new at body) }
        ensures pattern { IfOk result (IsPattern self.new) }
        ensures meter { self.new.meter ≡ self.old.meter }
        ensures grown { Grown self.old self.new }
    {
        let ctx = add_bare(self.proof, at.ctx)?;
        Ok(Pattern {
            ctx,
            ty: body,
            taken: at.taken + 1,
        })
    }

    // What the variables of the products are to be, at the first match with the statement.
    #[tactic(auto, using(crate::proofs::Applied::applying))]
    pub(crate) fn search(
        &mut self,
        at: Pattern,
        statement: usize,
    ) -> Result<Vec<Option<Subterm>>, ProveFault>
        requires at { IsPattern self.old at }
        requires statement { HasTerm self.old statement }
        ensures came { Came self.old self.new (found_in self.new) result (searching self.old at statement) }
        ensures found { IfOk result (λ f. AreFound self.new (length f.items) f.items) }
        ensures few { IfOk result (λ f. length f.items ≤ 2000) }
        ensures grown { Grown self.old self.new }
    {
        match self.attempt(at, statement)? {
            Some(found) => Ok(found),
            None => {
                let product = self.open_pattern(at)?;
                if at.taken == 2000 {
                    return Err(ProveFault::Deep);
                }
                let under = self.under_product(at, product.body)?;
                self.search(under, statement)
            }
        }
    }
}
