// The product that a goal is, as it stands or by its form.

ghost use Rattle.std.specs.Prelude.{◌≡◌, ◌<◌, IfOk, IfSome, List as Sequence, None, length};
ghost use Rattle.std.specs.Option.{option_map};
ghost use Rattle.pts_names.specs.Name.{Name};
ghost use Rattle.pts_record.specs.Table.{named_at};
ghost use Rattle.pts_infer_cost.specs.Typing.{as_product};
ghost use Rattle.pts_prove_cost.specs.Commands.{form_opens, not_product};
ghost use Rattle.pts_prove.specs.Answered.{Tells};
ghost use Rattle.pts_prove.specs.Works.{Came, Grown, IsAsked, IsCompared, IsFormed, IsOpening, forming, opened_in, opening, opening_form, product_in, sorting_product, term_in};

use crate::fault::{ProveFault, of_reduction, put_in};
use crate::work::{Opening, Place, Work};
use pts_grow::Compared;
use pts_infer::{Part, ProductParts, infer_product};
use pts_record::{Record, Shape};
use pts_reduce::whnf_turned;

/// The domain and the body of a term that is a product.
pub(crate) fn product_parts(proof: &Record, term: usize) -> Option<(usize, usize)>
    requires term { term < length proof.now.shapes }
    ensures parts { option_map (λ p. (named_at proof.now.shapes p.0, named_at proof.now.shapes p.1)) result ≡ as_product (named_at proof.now.shapes term) }
    ensures stand { IfSome result (λ p. (p.0 < length proof.now.shapes) × (p.1 < length proof.now.shapes)) }
{
    match proof.shape(term) {
        Shape::Pi(_, domain, body) => Some((*domain, *body)),
        _ => None,
    }
}

/// The refusal of a form that is no product.
pub(crate) fn refuse_form(proof: &Record, form: usize) -> ProveFault
    requires form { form < length proof.now.shapes }
    ensures { (xs : Sequence Name) → Tells xs (not_product (named_at proof.now.shapes form)) result }
{
    match proof.tree(form) {
        Ok(form) => ProveFault::NotProduct(form),
        Err(_) => ProveFault::Memory,
    }
}

impl Work<'_> {
    // The weak head normal form of a goal, compared with the goal.
    #[tactic(auto, using(pts_grow::proofs::Grow::keeping, pts_grow::proofs::Judgements::still, pts_reduce::proofs::Paid::later))]
    fn form_of(&mut self, goal: Place) -> Result<Compared, ProveFault>
        requires goal { IsAsked self.old goal }
        ensures came { Came self.old self.new (λ o. term_in self.new o.left) result (forming self.old goal) }
        ensures form { IfOk result (λ o. IsCompared self.new goal.ctx o.left goal.statement o) }
        ensures grown { Grown self.old self.new }
    {
        match whnf_turned(self.front, self.proof, goal.ctx, goal.statement, self.meter) {
            Ok(form) => Ok(Compared {
                left: form.term,
                right: goal.statement,
                node: form.node,
            }),
            Err(fault) => Err(of_reduction(fault)),
        }
    }

    // The product that the form of a goal is.
    fn form_opens(&self, goal: Place, form: Compared) -> Result<Opening, ProveFault>
        requires goal { IsAsked self.now goal }
        requires form { IsCompared self.now goal.ctx form.left goal.statement form }
        ensures came { Came self.now self.now (opened_in self.now) result (form_opens not_product (term_in self.now form.left) (as_product (term_in self.now form.left))) }
        ensures opening { IfOk result (IsOpening self.now goal) }
    {
        match product_parts(self.proof, form.left) {
            Some((domain, body)) => Ok(Opening {
                product: form.left,
                domain,
                body,
                change: Some(form),
            }),
            None => Err(refuse_form(self.proof, form.left)),
        }
    }

    // The same of a goal that is no product as it stands.
    #[tactic(auto, using(crate::proofs::Working::going_on))]
    fn open_form(&mut self, goal: Place) -> Result<Opening, ProveFault>
        requires goal { IsAsked self.old goal }
        ensures came { Came self.old self.new (opened_in self.new) result (opening_form self.old goal) }
        ensures opening { IfOk result (IsOpening self.new goal) }
        ensures grown { Grown self.old self.new }
    {
        let form = self.form_of(goal)?;
        self.form_opens(goal, form)
    }

    // The product that a goal is, as it stands or else by its form.
    #[tactic(auto, using(crate::proofs::Working::going_on))]
    pub(crate) fn open(&mut self, goal: Place) -> Result<Opening, ProveFault>
        requires goal { IsAsked self.old goal }
        ensures came { Came self.old self.new (opened_in self.new) result (opening self.old goal) }
        ensures opening { IfOk result (IsOpening self.new goal) }
        ensures grown { Grown self.old self.new }
    {
        match product_parts(self.proof, goal.statement) {
            Some((domain, body)) => Ok(Opening {
                product: goal.statement,
                domain,
                body,
                change: None,
            }),
            None => self.open_form(goal),
        }
    }

    // The product has a sort.
    #[tactic(auto, using(pts_grow::proofs::Grow::keeping, pts_grow::proofs::Judgements::still, pts_reduce::proofs::Paid::later))]
    pub(crate) fn sort_product(
        &mut self,
        goal: Place,
        opening: Opening,
    ) -> Result<ProductParts, ProveFault>
        requires opening { IsOpening self.old goal opening }
        ensures came { Came self.old self.new (product_in self.new) result (sorting_product self.old goal.ctx (opened_in self.old opening)) }
        ensures formed { IfOk result (IsFormed self.new goal.ctx opening.product) }
        ensures grown { Grown self.old self.new }
    {
        match infer_product(
            self.system,
            self.front,
            self.proof,
            goal.ctx,
            self.names,
            opening.product,
            self.meter,
        ) {
            Ok(parts) => Ok(parts),
            Err(fault) => Err(put_in(Part::Goal, fault)),
        }
    }
}
