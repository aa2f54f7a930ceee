// The product that the type of a function is.

ghost use Rattle.std.specs.Prelude.{◌≡◌, IfOk, None};
ghost use Rattle.pts_infer_cost.specs.Typing.{as_product};
ghost use Rattle.pts_prove_cost.specs.Commands.{form_opens, not_product};
ghost use Rattle.pts_prove.specs.Works.{Came, Grown, HasTerm, IsPlace, term_in};
ghost use Rattle.pts_prove.specs.Applications.{HasProduct, IsFunction, function_in, opening_function, product_at};

use crate::fault::ProveFault;
use crate::opening::{product_parts, refuse_form};
use crate::work::{Function, Product, Work};
use pts_goals::Reduction;
use pts_infer::Part;

impl Work<'_> {
    // The product that a form is.
    fn form_applies(&self, form: usize) -> Result<Product, ProveFault>
        requires form { HasTerm self.now form }
        ensures came { Came self.now self.now (product_at self.now) result (form_opens not_product (term_in self.now form) (as_product (term_in self.now form))) }
        ensures product { IfOk result (λ p. p.term ≡ form) }
        ensures parts { IfOk result (HasProduct self.now) }
    {
        match product_parts(self.proof, form) {
            Some((domain, body)) => Ok(Product {
                term: form,
                domain,
                body,
            }),
            None => Err(refuse_form(self.proof, form)),
        }
    }

    // The product that a type is by its form. It must have a sort.
    #[tactic(auto, using(crate::proofs::Applied::applying))]
    fn open_function_form(&mut self, ctx: usize, ty: usize) -> Result<Function, ProveFault>
        requires place { IsPlace self.old ctx }
        requires ty { HasTerm self.old ty }
        ensures came { Came self.old self.new (function_in self.new) result (opening_function self.old ctx ty None) }
        ensures function { IfOk result (IsFunction self.new ctx ty) }
        ensures grown { Grown self.old self.new }
    {
        let compared = self.reduce(ctx, ty)?;
        let product = self.form_applies(compared.right)?;
        let sorted = self.sorted(ctx, product.term, Part::Goal)?;
        Ok(Function {
            product,
            change: Some(Reduction {
                sorted: sorted.judged,
                compared,
            }),
        })
    }

    // The product that a type is, as it stands or else by its form.
    #[tactic(auto, using(crate::proofs::Applied::applying))]
    pub(crate) fn open_function(&mut self, ctx: usize, ty: usize) -> Result<Function, ProveFault>
        requires place { IsPlace self.old ctx }
        requires ty { HasTerm self.old ty }
        ensures came { Came self.old self.new (function_in self.new) result (opening_function self.old ctx ty (as_product (term_in self.old ty))) }
        ensures function { IfOk result (IsFunction self.new ctx ty) }
        ensures grown { Grown self.old self.new }
    {
        match product_parts(self.proof, ty) {
            Some((domain, body)) => Ok(Function {
                product: Product {
                    term: ty,
                    domain,
                    body,
                },
                change: None,
            }),
            None => self.open_function_form(ctx, ty),
        }
    }
}
